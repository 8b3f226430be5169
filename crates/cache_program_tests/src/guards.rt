//! Lists that have to keep to guards.

use crate::rereads::{FIRST, asking, hears, is_published, list, reread, serving_none};
use cache_program::{ListFault, Reread, ServedList};
use cache_watch::FileAge;
use list_guards::{GuardFault, Guards};
use net_wires::NetWire;
use payload_sources::Sources;
use program_stages::lend;
use std::alloc::{AllocGlobal, Global};
use std::net::{Net, SocketAddr, TcpListener, TcpStream};
use std::test::Fail;
use wires::Wire;

const NONE: &str = "ASN,IP Prefix,Max Length,Trust Anchor\n";

const TEN: &str = "ASN,IP Prefix,Max Length,Trust Anchor
AS65002,10.0.0.0/16,24,ta
AS65002,10.1.0.0/16,24,ta
AS65002,10.2.0.0/16,24,ta
AS65002,10.3.0.0/16,24,ta
AS65002,10.4.0.0/16,24,ta
AS65002,10.5.0.0/16,24,ta
AS65002,10.6.0.0/16,24,ta
AS65002,10.7.0.0/16,24,ta
AS65002,10.8.0.0/16,24,ta
AS65002,10.9.0.0/16,24,ta
";

// Six of the ten are gone.
const FOUR: &str = "ASN,IP Prefix,Max Length,Trust Anchor
AS65002,10.0.0.0/16,24,ta
AS65002,10.3.0.0/16,24,ta
AS65002,10.6.0.0/16,24,ta
AS65002,10.9.0.0/16,24,ta
";

// Five are gone, and three have come.
const EIGHT: &str = "ASN,IP Prefix,Max Length,Trust Anchor
AS65002,10.1.0.0/16,24,ta
AS65002,10.3.0.0/16,24,ta
AS65002,10.5.0.0/16,24,ta
AS65002,10.7.0.0/16,24,ta
AS65002,10.9.0.0/16,24,ta
AS65002,10.0.0.0/16,25,ta
AS65003,10.0.0.0/16,24,ta
AS65002,11.0.0.0/16,24,ta
";

const ONE_AT_LEAST: Guards = Guards {
    min_payloads: Some(1),
    max_payloads: None,
    max_shrink: None,
};

const HALF_AT_MOST: Guards = Guards {
    min_payloads: None,
    max_payloads: None,
    max_shrink: Some(50),
};

const EIGHT_AT_MOST: Guards = Guards {
    min_payloads: None,
    max_payloads: Some(8),
    max_shrink: Some(50),
};

// Whether a list is refused for this when it is read again.
fn is_refused<W: Wire + Drop>(
    alloc: Global,
    served: &mut ServedList<W>,
    text: &str,
    fault: GuardFault,
) -> bool {
    matches!(
        reread(alloc, served, text),
        Reread::Refused(ListFault::Guard(why)) if why == fault
    )
}

// Whether the first list stays in force where an empty one comes behind it.
fn stays_in_force<R, W: Wire + Drop>(
    rt: &R,
    served: &mut ServedList<W>,
    address: Option<SocketAddr>,
) -> Result<bool, Fail>
where
    R: Net<Listener = TcpListener, Stream = TcpStream> + AllocGlobal,
{
    let fault = GuardFault::TooFew {
        payloads: 0,
        wanted: 1,
    };
    let stays = is_published(rt.alloc(), served, FIRST, 1)
        && is_refused(rt.alloc(), served, NONE, fault)
        && served.payloads() == 1;
    let mut router = asking(rt, address.ok_or("no address")?)?;
    Ok(stays && hears(rt.alloc(), served, &mut router, &list(0, 1)))
}

// Whether six of ten payloads may not go at once, and five may.
fn loses_half_at_most<W: Wire + Drop>(alloc: Global, served: &mut ServedList<W>) -> bool {
    let fault = GuardFault::TooManyGo {
        payloads: 4,
        going: 6,
        served: 10,
        most: 50,
    };
    is_published(alloc, served, TEN, 1)
        && is_refused(alloc, served, FOUR, fault)
        && served.payloads() == 10
        && is_published(alloc, served, EIGHT, 2)
        && served.payloads() == 8
}

// Whether eight payloads may be and ten may not, whatever comes and goes with them.
fn has_eight_at_most<W: Wire + Drop>(alloc: Global, served: &mut ServedList<W>) -> bool {
    let fault = GuardFault::TooMany {
        payloads: 10,
        most: 8,
    };
    is_refused(alloc, served, TEN, fault)
        && is_published(alloc, served, EIGHT, 1)
        && is_refused(alloc, served, TEN, fault)
        && served.payloads() == 8
        && accepting(alloc, served, TEN, 10) == Reread::Published(2)
        && is_refused(alloc, served, TEN, fault)
        && served.payloads() == 10
}

// Reads a list again for one who accepts the list that was refused, which had so many payloads.
fn accepting<W: Wire + Drop>(
    alloc: Global,
    served: &mut ServedList<W>,
    text: &str,
    refused: usize,
) -> Reread {
    let sources = Sources {
        list: text.as_bytes(),
        slurm: None,
        second: None,
    };
    served.reread(alloc, 0, FileAge::NEW, Some(refused), Ok(sources))
}

// Whether only a list is accepted that has as many payloads as the one that was refused.
fn accepts_what_was_refused<W: Wire + Drop>(alloc: Global, served: &mut ServedList<W>) -> bool {
    let other = ListFault::Other {
        payloads: 0,
        refused: 4,
    };
    is_published(alloc, served, TEN, 1)
        && accepting(alloc, served, NONE, 4) == Reread::Refused(other)
        && served.payloads() == 10
        && accepting(alloc, served, FOUR, 4) == Reread::Published(2)
        && served.accepted()
}

// Whether all may go at once.
fn loses_all<W: Wire + Drop>(alloc: Global, served: &mut ServedList<W>) -> bool {
    is_published(alloc, served, TEN, 1)
        && is_published(alloc, served, NONE, 2)
        && served.payloads() == 0
}

#[test]
fn an_empty_list_behind_a_good_one_is_refused(rt: HostRuntime) -> Result<(), Fail> {
    let wire = NetWire::listening(&rt, "127.0.0.1:0".parse()?)?;
    let address = wire.local_address();
    let served = serving_none(rt.alloc(), wire, ONE_AT_LEAST)?;
    assert!(rt; lend(served, |served| stays_in_force(&rt, served, address))?);
    Ok(())
}

#[test]
fn more_than_the_share_may_not_go_at_once(rt: HostRuntime) -> Result<(), Fail> {
    let served = serving_none(rt.alloc(), NetWire::new(&rt)?, HALF_AT_MOST)?;
    assert!(rt; lend(served, |served| loses_half_at_most(rt.alloc(), served)));
    Ok(())
}

#[test]
fn more_payloads_than_may_be_are_refused(rt: HostRuntime) -> Result<(), Fail> {
    let served = serving_none(rt.alloc(), NetWire::new(&rt)?, EIGHT_AT_MOST)?;
    assert!(rt; lend(served, |served| has_eight_at_most(rt.alloc(), served)));
    Ok(())
}

#[test]
fn another_list_than_was_refused_is_not_accepted(rt: HostRuntime) -> Result<(), Fail> {
    let served = serving_none(rt.alloc(), NetWire::new(&rt)?, HALF_AT_MOST)?;
    assert!(rt;
        lend(
            served,
            |served| accepts_what_was_refused(rt.alloc(), served)
        )
    );
    Ok(())
}

#[test]
fn without_guards_all_may_go(rt: HostRuntime) -> Result<(), Fail> {
    let served = serving_none(rt.alloc(), NetWire::new(&rt)?, Guards::NONE)?;
    assert!(rt; lend(served, |served| loses_all(rt.alloc(), served)));
    Ok(())
}
