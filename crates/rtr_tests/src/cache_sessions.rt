//! What no answer shows of a session with a cache: where it stands, how many octets it takes and hands out at a time, and what
//! changed by each call. The PDUs are laid out as in RFC 8210 section 5.
use crate::router::Router;
use net_prefix::{Asn, Prefix, Transport, Vrp};
use rtr_client::ClientState;
use rtr_session::Hearing;
use std::alloc::{AllocError, Allocator, Global};
use std::test::Fail;

// A Cache Response of session 7; 10.0.1.0/24-24 of AS 65002 comes; an End of Data with serial 1, and the seconds 3600,
// 600 and 7200.
#[rattlefmt::skip]
const LOAD: [u8; 52] = [
    1, 3, 0, 7, 0, 0, 0, 8,
    1, 4, 0, 0, 0, 0, 0, 20, 1, 24, 24, 0, 10, 0, 1, 0, 0, 0, 0xfd, 0xea,
    1, 7, 0, 7, 0, 0, 0, 24, 0, 0, 0, 1, 0, 0, 0x0e, 0x10, 0, 0, 0x02, 0x58, 0, 0, 0x1c, 0x20,
];

// A Cache Response of session 7; 10.0.1.0/24-24 of AS 65002 leaves; 10.2.0.0/16-24 of AS 65001 comes; an End of Data with
// serial 2 and the same seconds.
#[rattlefmt::skip]
const CHANGE: [u8; 72] = [
    1, 3, 0, 7, 0, 0, 0, 8,
    1, 4, 0, 0, 0, 0, 0, 20, 0, 24, 24, 0, 10, 0, 1, 0, 0, 0, 0xfd, 0xea,
    1, 4, 0, 0, 0, 0, 0, 20, 1, 16, 24, 0, 10, 2, 0, 0, 0, 0, 0xfd, 0xe9,
    1, 7, 0, 7, 0, 0, 0, 24, 0, 0, 0, 2, 0, 0, 0x0e, 0x10, 0, 0, 0x02, 0x58, 0, 0, 0x1c, 0x20,
];

fn first() -> Result<Vrp, Fail> {
    Ok(Vrp::new(Prefix::new(0x0a00_0100, 24)?, 24, Asn(65_002))?)
}

fn second() -> Result<Vrp, Fail> {
    Ok(Vrp::new(Prefix::new(0x0a02_0000, 16)?, 24, Asn(65_001))?)
}

// No PDU has the type 5.
const UNKNOWN: [u8; 8] = [1, 5, 0, 0, 0, 0, 0, 8];

// What comes to a session.
#[derive(Clone, Copy)]
enum Came {
    Nothing,
    Up,
    Octets(&'static [u8]),
    Tick,
    Fail,
}

fn take<A: Allocator + Clone>(router: &mut Router<A>, came: Came, now: u64) -> bool {
    match came {
        Came::Nothing => false,
        Came::Up => {
            router.up(now);
            false
        }
        Came::Octets(octets) => router.hear(octets, now),
        Came::Tick => router.tick(now),
        Came::Fail => {
            router.fail(now);
            false
        }
    }
}

// What comes and when, whether all octets are taken or a connection is to be opened, and where the session stands then.
type Row = (Came, u64, bool, Transport, ClientState);

// The front of a load, and its rest.
const FRONT: [u8; 51] = [
    1, 3, 0, 7, 0, 0, 0, 8, 1, 4, 0, 0, 0, 0, 0, 20, 1, 24, 24, 0, 10, 0, 1, 0, 0, 0, 0xfd, 0xea,
    1, 7, 0, 7, 0, 0, 0, 24, 0, 0, 0, 1, 0, 0, 0x0e, 0x10, 0, 0, 0x02, 0x58, 0, 0, 0x1c,
];

#[rattlefmt::skip]
const EXPIRING: [Row; 7] = [
    (Came::Nothing,             0,     false, Transport::Opening, ClientState::Opening),
    (Came::Up,                  100,   false, Transport::Open,    ClientState::Asked),
    (Came::Octets(&FRONT),      100,   true,  Transport::Open,    ClientState::Loading),
    (Came::Octets(&[0x20]),     100,   true,  Transport::Open,    ClientState::Synced),
    (Came::Tick,                3_699, false, Transport::Open,    ClientState::Synced),
    (Came::Tick,                7_299, false, Transport::Open,    ClientState::Asked),
    (Came::Tick,                7_300, false, Transport::Closing, ClientState::Off),
];

#[rattlefmt::skip]
const FAULTY: [Row; 3] = [
    (Came::Up,               100,   false, Transport::Open,    ClientState::Asked),
    (Came::Octets(&LOAD),    100,   true,  Transport::Open,    ClientState::Synced),
    (Came::Octets(&UNKNOWN), 200,   true,  Transport::Closing, ClientState::Off),
];

#[rattlefmt::skip]
const FAILING: [Row; 8] = [
    (Came::Up,               100,   false, Transport::Open,    ClientState::Asked),
    (Came::Octets(&LOAD),    100,   true,  Transport::Open,    ClientState::Synced),
    (Came::Tick,             3_700, false, Transport::Open,    ClientState::Asked),
    (Came::Fail,             3_800, false, Transport::None,    ClientState::Off),
    (Came::Tick,             4_399, false, Transport::None,    ClientState::Off),
    (Came::Tick,             4_400, true,  Transport::Opening, ClientState::Opening),
    (Came::Up,               4_400, false, Transport::Open,    ClientState::Asked),
    (Came::Octets(&CHANGE),  4_400, true,  Transport::Open,    ClientState::Synced),
];

// Whether the session stands at each step where its row says.
fn stands<A: Allocator + Clone>(router: &mut Router<A>, rows: &[Row]) -> bool {
    for (came, now, told, transport, state) in rows {
        if take(router, *came, *now) != *told
            || router.session.transport() != *transport
            || router.session.state() != *state
        {
            return false;
        }
    }
    true
}

// Whether a session stands at each step where its row says, and has just these payloads behind the last.
fn leaves(alloc: Global, rows: &[Row], payloads: &[Vrp]) -> Result<bool, AllocError> {
    let mut router = Router::new(alloc)?;
    Ok(stands(&mut router, rows) && router.has(payloads))
}

#[test]
fn a_session_stands_where_its_table_says(rt: HostRuntime) -> Result<(), Fail> {
    let (first, second) = (first()?, second()?);
    let is_expired = leaves(rt.alloc(), &EXPIRING, &[])?;
    let is_closed = leaves(rt.alloc(), &FAULTY, &[first])?;
    let is_opened_again = leaves(rt.alloc(), &FAILING, &[second])?;
    assert!(rt; is_expired && is_closed && is_opened_again);
    Ok(())
}

// Whether as many octets as fit are handed out, and the rest stays for the next time.
fn hands_out<A: Allocator + Clone>(router: &mut Router<A>, octets: [u8; 5], count: usize) -> bool {
    let mut buf = [0xff; 5];
    router.session.take(&mut buf) == count && buf == octets
}

// Whether a Reset Query is handed out in two pieces, and no more.
fn hands_out_a_query<A: Allocator + Clone>(router: &mut Router<A>) -> bool {
    router.up(100);
    hands_out(router, [1, 2, 0, 0, 0], 5)
        && hands_out(router, [0, 0, 8, 0xff, 0xff], 3)
        && hands_out(router, [0xff; 5], 0)
}

#[test]
fn octets_are_handed_out_as_many_as_fit(rt: HostRuntime) -> Result<(), Fail> {
    let mut router = Router::new(rt.alloc())?;
    assert!(rt; hands_out_a_query(&mut router));
    Ok(())
}

// The first octets of a PDU tell how long it is.
#[test]
fn a_pdu_is_taken_by_its_header_and_then_its_rest(rt: HostRuntime) -> Result<(), Fail> {
    let first = first()?;
    let mut router = Router::new(rt.alloc())?;
    router.up(100);
    let mut rest: &[u8] = &LOAD;
    for count in [8, 8, 12, 8, 16] {
        assert!(rt; router.session.transport() == Transport::Open);
        let heard = router.hear_next(rest, 100);
        let starved = false;
        assert_eq!(rt; heard, Hearing { count, starved });
        rest = &rest[heard.count..];
    }
    assert!(rt; rest.is_empty());
    assert!(rt; router.has(&[first]));
    Ok(())
}

// What goes and what comes by a load, a change and an expiry.
fn is_told<A: Allocator + Clone>(router: &mut Router<A>, first: Vrp, second: Vrp) -> bool {
    router.up(100);
    router.hear(&LOAD, 100)
        && router.has_changed(&[], &[first])
        && !router.tick(3_700)
        && router.has_changed(&[], &[])
        && router.hear(&CHANGE, 3_700)
        && router.has_changed(&[first], &[second])
        && !router.tick(10_900)
        && router.has(&[])
        && router.has_changed(&[second], &[])
}

#[test]
fn what_changed_is_told(rt: HostRuntime) -> Result<(), Fail> {
    let first = first()?;
    let second = second()?;
    let mut router = Router::new(rt.alloc())?;
    assert!(rt; is_told(&mut router, first, second));
    Ok(())
}
