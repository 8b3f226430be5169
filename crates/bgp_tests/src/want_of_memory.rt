//! UPDATEs where memory is refused: it is wanted for an AS_PATH, and for unknown attributes that are kept where they are several
//! or longer than 28 octets.
ghost use Rattle.std.specs.Prelude.{◌≤◌};

use bgp_attr::{PeerKind, UpdateFault};
use bgp_msg::read_update;
use net_prefix::Asn;
use refusing::Refusing;
use std::alloc::Global;

const PEER: PeerKind = PeerKind::External(Asn(65001));

// Two unknown attributes that are kept.
const WITH_TWO_UNKNOWN: [u8; 12] = [0, 0, 0, 8, 0xC0, 98, 1, 7, 0xC0, 99, 1, 7];

// One of 29 octets.
#[rattlefmt::skip]
const WITH_LONG_UNKNOWN: [u8; 36] = [
    0, 0, 0, 32,
    0xC0, 99, 29, 1, 2, 3, 4, 5, 6, 7, 8, 9, 10, 11, 12, 13, 14, 15, 16, 17, 18, 19, 20, 21, 22, 23, 24, 25, 26, 27, 28, 29,
];

// It announces 10.0.1.0/24: ORIGIN IGP, AS_PATH 65001 {65005, 65006}, NEXT_HOP 192.0.2.11.
#[rattlefmt::skip]
const ANNOUNCEMENT: [u8; 38] = [
    0, 0, 0, 30,
    0x40, 1, 1, 0,
    0x40, 2, 16, 2, 1, 0, 0, 0xFD, 0xE9, 1, 2, 0, 0, 0xFD, 0xED, 0, 0, 0xFD, 0xEE,
    0x40, 3, 4, 0xC0, 0, 2, 0x0B,
    0x18, 10, 0, 1,
];

// The same, but for NEXT_HOP.
#[rattlefmt::skip]
const WITHOUT_NEXT_HOP: [u8; 31] = [
    0, 0, 0, 23,
    0x40, 1, 1, 0,
    0x40, 2, 16, 2, 1, 0, 0, 0xFD, 0xE9, 1, 2, 0, 0, 0xFD, 0xED, 0, 0, 0xFD, 0xEE,
    0x18, 10, 0, 1,
];

// Bodies, and the number that their requests exceed, or none where nothing of them takes memory: a withdrawal, End-of-RIB,
// ORIGIN and NEXT_HOP with no prefix, AGGREGATOR, a short unknown attribute, and those that are dropped.
#[rattlefmt::skip]
const REQUESTING: [(&[u8], Option<u64>); 10] = [
    (&ANNOUNCEMENT,                                                       Some(2)),
    (&WITHOUT_NEXT_HOP,                                                   Some(2)),
    (&WITH_TWO_UNKNOWN,                                                   Some(1)),
    (&WITH_LONG_UNKNOWN,                                                  Some(1)),
    (&[0, 0, 0, 4, 0xC0, 99, 1, 7],                                       None),
    (&[0, 4, 0x18, 10, 0, 1, 0, 0],                                       None),
    (&[0, 0, 0, 0],                                                       None),
    (&[0, 0, 0, 11, 0x40, 1, 1, 0, 0x40, 3, 4, 0xC0, 0, 2, 0x0B],         None),
    (&[0, 0, 0, 11, 0xC0, 7, 8, 0, 0, 0xFD, 0xEA, 0xC0, 0, 2, 0x63],      None),
    (&[0, 0, 0, 7, 0x80, 99, 1, 7, 0xC0, 17, 0],                          None),
];

// Whether the UPDATE of this body is refused for want of memory, just where the nth request is made.
fn wants_memory(alloc: Global, body: &[u8], nth: u64) -> Option<bool>
    requires { 1 ≤ nth }
{
    let heap = Refusing::new(alloc, nth);
    let wanted = read_update(&&heap, body, PEER).err() == Some(UpdateFault::NoMemory);
    (wanted == heap.has_refused()).then_some(wanted)
}

// The first request of this body that isn't made, where each one that is made and refused is told.
fn first_unmade(alloc: Global, body: &[u8]) -> Option<u64> {
    for nth in 1..1_000u64 {
        if !wants_memory(alloc, body, nth)? {
            return Some(nth);
        }
    }
    None
}

fn is_told(alloc: Global, body: &[u8], few: Option<u64>) -> bool {
    match (first_unmade(alloc, body), few) {
        (Some(unmade), Some(few)) => unmade > few,
        (Some(unmade), None) => unmade == 1,
        (None, _) => false,
    }
}

#[test]
fn each_refused_request_is_told(rt: HostRuntime) {
    for (body, few) in &REQUESTING {
        assert!(rt; is_told(rt.alloc(), body, *few));
    }
}
