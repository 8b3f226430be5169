//! Each growth that a client's loads need, refused in turn.
ghost use Rattle.std.specs.Prelude.{◌≡◌};
ghost use Rattle.rtr_codec.specs.ClientState.{in_force};

use crate::sets::requests_of;
use net_prefix::{Asn, Prefix, Transport, Vrp};
use rtr_client::{Acts, Client, Input};
use rtr_codec::{Intervals, Pdu};
use std::alloc::{AllocError, Allocator, Global};
use std::collections::BTreeSet;
use std::process::Abort;

// The payloads that come and go.
const ONE: Vrp = Vrp {
    prefix: Prefix {
        bits: 0x0a00_0000,
        len: 16,
    },
    max_len: 16,
    asn: Asn(65_001),
};

const TWO: Vrp = Vrp {
    prefix: Prefix {
        bits: 0x0a00_0000,
        len: 16,
    },
    max_len: 24,
    asn: Asn(65_001),
};

const THREE: Vrp = Vrp {
    prefix: Prefix {
        bits: 0x0a00_0000,
        len: 24,
    },
    max_len: 24,
    asn: Asn(65_002),
};

// A client, and a set that follows it.
#[derive(Drop)]
struct Router<A: Allocator> {
    client: Client<A>,
    kept: BTreeSet<Vrp, A>,
    ghost follows: { kept.keys ≡ in_force client.client },
}

impl<A: Allocator + Clone> Router<A> {
    fn new(alloc: A) -> Result<Self, AllocError> {
        let kept = BTreeSet::new(alloc.clone()?);
        let client = Client::new(alloc, Intervals::USUAL.retry)?;
        Ok(Router { client, kept })
    }

    fn step<'a>(&mut self, input: Input<'a>, now: u64) -> Acts<'a> {
        self.client.step(input, now, &mut self.kept)
    }

    fn hear(&mut self, pdu: Pdu<'static>, now: u64) -> Acts<'static> {
        self.step(Input::Heard { pdu, octets: &[] }, now)
    }

    // Whether just these payloads are in force, and the set that follows has them too.
    fn has(&self, payloads: &[Vrp]) -> bool {
        self.client.in_force().iter().eq(payloads) && self.kept.iter().eq(payloads)
    }
}

// A response to a Reset Query, of two payloads.
const LOAD: [Pdu<'static>; 4] = [
    Pdu::CacheResponse { session: 7 },
    Pdu::Announcement(TWO),
    Pdu::Announcement(ONE),
    Pdu::EndOfData {
        session: 7,
        serial: 3,
        intervals: Intervals::USUAL,
    },
];

// A response to a Serial Query, in which one payload leaves and another comes.
const CHANGE: [Pdu<'static>; 4] = [
    Pdu::CacheResponse { session: 7 },
    Pdu::Withdrawal(ONE),
    Pdu::Announcement(THREE),
    Pdu::EndOfData {
        session: 7,
        serial: 4,
        intervals: Intervals::USUAL,
    },
];

const NOTIFY: Pdu<'static> = Pdu::SerialNotify {
    session: 7,
    serial: 4,
};

// Hears each at this moment. Answers whether memory was refused.
fn hear_all<A: Allocator + Clone>(router: &mut Router<A>, pdus: &[Pdu<'static>], now: u64) -> bool {
    let mut starved = false;
    for pdu in pdus {
        starved = router.hear(*pdu, now).starved || starved;
    }
    starved
}

// Whether just these payloads went and came by the last input.
fn changes<A: Allocator + Clone>(router: &Router<A>, gone: &[Vrp], come: &[Vrp]) -> bool {
    let changed = router.client.changed();
    changed.withdrawn.iter().eq(gone) && changed.announced.iter().eq(come)
}

// Whether just these payloads are in force, and these went and came; or, where a growth was refused, those that were there
// stay, and the connection closes.
fn is_loaded<A: Allocator + Clone>(
    router: &Router<A>,
    starved: bool,
    before: &[Vrp],
    after: &[Vrp],
    gone: &[Vrp],
    come: &[Vrp],
) -> bool {
    if starved {
        router.has(before) && router.client.transport() == Transport::Closing
    } else {
        router.has(after) && changes(router, gone, come)
    }
}

// A load of a client, of which a growth may be refused. Answers whether one was.
fn begins<A: Allocator + Clone>(rt: &impl Abort, router: &mut Router<A>) -> bool {
    router.step(Input::Up, 100);
    let starved = hear_all(router, &LOAD, 100);
    assert!(rt; is_loaded(router, starved, &[], &[ONE, TWO], &[], &[ONE, TWO]));
    starved
}

// A second load, of which a growth may be refused: then the first stays in force.
fn goes_on<A: Allocator + Clone>(rt: &impl Abort, router: &mut Router<A>) -> bool {
    router.hear(NOTIFY, 200);
    let starved = hear_all(router, &CHANGE, 200);
    assert!(rt;
        is_loaded(
            router,
            starved,
            &[ONE, TWO],
            &[TWO, THREE],
            &[ONE],
            &[THREE]
        )
    );
    starved
}

// Two loads; answers whether memory was refused.
fn load_twice<A: Allocator + Clone>(
    rt: &impl Abort,
    router: Result<Router<A>, AllocError>,
) -> bool {
    match router {
        Ok(mut router) => begins(rt, &mut router) || goes_on(rt, &mut router),
        Err(_) => true,
    }
}

#[test]
fn a_refused_growth_keeps_no_part_of_a_load(rt: HostRuntime) {
    let requests = requests_of(&rt, rt.alloc(), |heap| {
        u32::from(load_twice(&rt, Router::new(heap)))
    });
    assert!(rt; requests.is_some());
}
