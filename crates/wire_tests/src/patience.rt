//! Routers that are silent for too long lose their places.

use crate::made::made;
use crate::over_loopback::{Served, over_loopback};
use cache_turns::CacheLoop;
use net_wires::{NetWire, RouterEvent};
use program_stages::lend;
use rtr_cache::Cache;
use rtr_codec::Intervals;
use std::alloc::AllocGlobal;
use std::io::Write;
use std::net::{Net, TcpListener, TcpStream};
use std::process::Abort;
use wires::{Parting, Wire};

// What a router sends, and at which moment; behind it the connection is still there.
#[derive(Clone, Copy)]
struct Sending {
    now: u64,
    octets: &'static [u8],
}

const RESET_QUERY: [u8; 8] = [1, 2, 0, 0, 0, 0, 0, 8];

// A Reset Query without its last octet, an octet now and then.
const SLOW: [Sending; 3] = [
    Sending {
        now: 0,
        octets: &[1, 2, 0, 0],
    },
    Sending {
        now: 30,
        octets: &[0, 0],
    },
    Sending {
        now: 59,
        octets: &[0],
    },
];

const SILENT: [Sending; 1] = [Sending {
    now: 59,
    octets: &[],
}];

const ASKING: [Sending; 4] = [
    Sending {
        now: 0,
        octets: &RESET_QUERY,
    },
    Sending {
        now: 7_199,
        octets: &[],
    },
    Sending {
        now: 7_199,
        octets: &RESET_QUERY,
    },
    Sending {
        now: 14_398,
        octets: &[],
    },
];

// Whether one connection stands behind some turns at this moment.
fn stands_at<W: Wire + Drop>(turns: &mut CacheLoop<W>, now: u64) -> bool {
    for _ in 0..20 {
        if turns.turn(now).is_err() {
            return false;
        }
    }
    turns.connections() == 1
}

// Whether it stands as long as the router sends so.
fn stands<W: Wire + Drop, S: Write>(served: &mut Served<W, S>, sendings: &[Sending]) -> bool {
    for sending in sendings {
        let is_sent = served.router.write_all(sending.octets).is_ok();
        if !is_sent || !stands_at(&mut served.turns, sending.now) {
            return false;
        }
    }
    true
}

// Whether there is no connection behind a turn at this moment.
fn is_gone_at<W: Wire + Drop>(turns: &mut CacheLoop<W>, now: u64) -> bool {
    turns.turn(now).is_ok() && turns.connections() == 0
}

// Whether the router's connection stands as long as it sends so, and is gone at a last moment.
fn stands_till<W: Wire + Drop, S: Write>(
    served: &mut Served<W, S>,
    sendings: &[Sending],
    last: u64,
) -> bool {
    stands_at(&mut served.turns, 0)
        && stands(served, sendings)
        && is_gone_at(&mut served.turns, last)
}

// The same where its end is seen.
fn is_overdue_at<R>(
    served: &mut Served<NetWire<'_, R>, TcpStream>,
    sendings: &[Sending],
    last: u64,
) -> bool
where
    R: Net<Listener = TcpListener, Stream = TcpStream> + AllocGlobal,
{
    match served.router.local_addr() {
        Ok(address) => {
            let went = RouterEvent::Went(address, Parting::Overdue);
            stands_till(served, sendings, last) && served.turns.wire().events().contains(&went)
        }
        Err(_) => false,
    }
}

// The same of a router that connects.
fn loses<R>(rt: &R, sendings: &[Sending], last: u64) -> bool
where
    R: Net<Listener = TcpListener, Stream = TcpStream> + AllocGlobal + Abort,
{
    let cache = made(rt, Cache::new(rt.alloc(), 7, Intervals::USUAL));
    lend(
        over_loopback(rt, cache),
        |served| is_overdue_at(served, sendings, last),
    )
}

#[test]
fn a_client_without_a_whole_pdu_loses_its_place_after_a_minute(rt: HostRuntime) {
    assert!(rt; loses(&rt, &SILENT, 60) && loses(&rt, &SLOW, 60));
}

#[test]
fn a_client_that_asks_no_more_loses_its_place_after_the_expire_interval(rt: HostRuntime) {
    assert!(rt; loses(&rt, &ASKING, 14_399));
}
