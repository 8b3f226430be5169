//! A set that is withdrawn: no script withdraws one.
use crate::made::made;
use net_prefix::{Transport, Vrp};
use rtr_cache::{Cache, CacheEvent};
use rtr_codec::Intervals;
use std::alloc::Global;
use std::collections::BTreeSet;

const RESET_QUERY: [u8; 8] = [1, 2, 0, 0, 0, 0, 0, 8];

// A Serial Query of session 7 and serial 1.
const SERIAL_QUERY: [u8; 12] = [1, 1, 0, 7, 0, 0, 0, 12, 0, 0, 0, 1];

// A response without payloads that ends with serial 1.
#[rattlefmt::skip]
const RESPONSE: [u8; 32] = [
    1, 3, 0, 7, 0, 0, 0, 8,
    1, 7, 0, 7, 0, 0, 0, 24, 0, 0, 0, 1, 0, 0, 0x0E, 0x10, 0, 0, 2, 0x58, 0, 0, 0x1C, 0x20,
];

// Error 2, No Data Available, which quotes the Reset Query, and the Serial Query.
#[rattlefmt::skip]
const NO_DATA: [u8; 24] = [
    1, 10, 0, 2, 0, 0, 0, 24, 0, 0, 0, 8, 1, 2, 0, 0, 0, 0, 0, 8, 0, 0, 0, 0,
];

#[rattlefmt::skip]
const NO_DATA_OF_A_SERIAL: [u8; 28] = [
    1, 10, 0, 2, 0, 0, 0, 28, 0, 0, 0, 12, 1, 1, 0, 7, 0, 0, 0, 12, 0, 0, 0, 1, 0, 0, 0, 0,
];

// Whether the event is taken.
fn takes(cache: &mut Cache, event: CacheEvent<'_, Global>) -> bool {
    cache.step(event).is_ok()
}

// Whether the client of key 0, which asks so, is handed out just these octets, and stays.
fn is_answered(cache: &mut Cache, query: &[u8], octets: &[u8]) -> bool {
    let mut buf = [0u8; 40];
    if !takes(cache, CacheEvent::Bytes(0, query)) || cache.transport(0) != Transport::Open {
        return false;
    }
    match cache.take(0, &mut buf) {
        Ok(taken) => buf.get(..taken) == Some(octets),
        Err(_) => false,
    }
}

// Whether a router is told of a set, of none while it is withdrawn, and of the same one, under the same serial, when it is
// loaded again.
fn is_withdrawn_for_a_while(cache: &mut Cache, set: &BTreeSet<Vrp>) -> bool {
    takes(cache, CacheEvent::Load(set))
        && takes(cache, CacheEvent::Up)
        && is_answered(cache, &RESET_QUERY, &RESPONSE)
        && takes(cache, CacheEvent::Withdraw)
        && cache.is_withdrawn()
        && takes(cache, CacheEvent::Tick(100))
        && is_answered(cache, &SERIAL_QUERY, &NO_DATA_OF_A_SERIAL)
        && is_answered(cache, &RESET_QUERY, &NO_DATA)
        && takes(cache, CacheEvent::Load(set))
        && !cache.is_withdrawn()
        && is_answered(cache, &SERIAL_QUERY, &RESPONSE)
        && is_answered(cache, &RESET_QUERY, &RESPONSE)
}

#[test]
fn a_withdrawn_set_is_told_to_nobody(rt: HostRuntime) {
    let none = BTreeSet::new(rt.alloc());
    let mut cache = made(&rt, Cache::new(rt.alloc(), 7, Intervals::USUAL));
    assert!(rt; is_withdrawn_for_a_while(&mut cache, &none));
}
