//! What clients hold: the serial of the last End of Data that was handed out whole.
use crate::made::made;
use net_prefix::{Asn, Prefix, Vrp};
use rtr_cache::{Cache, CacheEvent};
use rtr_codec::Intervals;
use std::alloc::Global;

const RESET_QUERY: [u8; 8] = [1, 2, 0, 0, 0, 0, 0, 8];

// A Serial Query of session 7 and serial 1.
const SERIAL_QUERY: [u8; 12] = [1, 1, 0, 7, 0, 0, 0, 12, 0, 0, 0, 1];

// 10.0.0.0/16 and 10.1.0.0/16, up to length 24.
#[rattlefmt::skip]
const PAYLOADS: [Vrp; 2] = [
    Vrp { prefix: Prefix { bits: 0x0A00_0000, len: 16 }, max_len: 24, asn: Asn(65_002) },
    Vrp { prefix: Prefix { bits: 0x0A01_0000, len: 16 }, max_len: 24, asn: Asn(65_002) },
];

// What happens to a cache with one client, which has the key 0.
#[derive(Clone, Copy)]
enum Step {
    // So many payloads are loaded.
    Load(usize),
    Up,
    Query(&'static [u8]),
    // So many octets at most are handed out.
    Take(usize),
    Down,
}

// Each with the serial that the client holds behind it.
#[rattlefmt::skip]
const STEPS: [(Step, Option<u32>); 15] = [
    (Step::Load(1), None),
    (Step::Up, None),
    (Step::Query(&RESET_QUERY), None),
    // A Cache Response of 8 octets, a payload of 20, an End of Data of 24.
    (Step::Take(5), None),
    (Step::Take(3), None),
    (Step::Take(19), None),
    (Step::Take(1), None),
    (Step::Take(23), None),
    (Step::Take(1), Some(1)),
    (Step::Load(2), Some(1)),
    // A Serial Notify of 12 octets, which brings no payloads.
    (Step::Take(12), Some(1)),
    (Step::Query(&SERIAL_QUERY), Some(1)),
    (Step::Take(51), Some(1)),
    (Step::Take(1), Some(2)),
    (Step::Down, None),
];

// Whether the event is taken.
fn takes(cache: &mut Cache, event: CacheEvent<'_, Global>) -> bool {
    cache.step(event).is_ok()
}

// Whether so many payloads are taken.
fn loads(alloc: Global, cache: &mut Cache, count: usize) -> bool {
    match PAYLOADS.iter().copied().take(count).collect(alloc) {
        Ok(set) => takes(cache, CacheEvent::Load(&set)),
        Err(_) => false,
    }
}

// Whether so many octets at most are handed out.
fn hands_out(cache: &mut Cache, count: usize) -> bool {
    let mut buf = [0u8; 128];
    cache.take(0, &mut buf[..count.min(128)]).is_ok()
}

// Whether the step goes well.
fn goes(alloc: Global, cache: &mut Cache, step: &Step) -> bool {
    match step {
        Step::Load(count) => loads(alloc, cache, *count),
        Step::Up => takes(cache, CacheEvent::Up),
        Step::Query(octets) => takes(cache, CacheEvent::Bytes(0, octets)),
        Step::Take(count) => hands_out(cache, *count),
        Step::Down => takes(cache, CacheEvent::Down(0)),
    }
}

// Whether the client of key 0 holds this, and no other client anything.
fn holds(cache: &Cache, serial: Option<u32>) -> bool {
    cache.held_serial(0) == serial && cache.held_serial(1).is_none()
}

// How many steps of a cache without payloads lead to what they should.
fn steps_played(alloc: Global, cache: &mut Cache) -> usize {
    for (index, (step, serial)) in STEPS.iter().enumerate() {
        if !goes(alloc, cache, step) || !holds(cache, *serial) {
            return index;
        }
    }
    STEPS.len()
}

#[test]
fn a_client_holds_what_has_come_to_its_end(rt: HostRuntime) {
    let mut cache = made(&rt, Cache::new(rt.alloc(), 7, Intervals::USUAL));
    let played = steps_played(rt.alloc(), &mut cache);
    assert!(rt; played == STEPS.len(), "{played}");
}
