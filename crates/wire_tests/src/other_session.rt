//! A cache that resets another session: scripts make none that does.
use crate::made::made;
use net_prefix::{Transport, Vrp};
use rtr_cache::{Cache, CacheEvent, OtherSession};
use rtr_codec::Intervals;
use std::alloc::Global;
use std::collections::BTreeSet;
use std::process::Abort;

// A Serial Query of session 8 and serial 1.
const QUERY_OF_SESSION_8: [u8; 12] = [1, 1, 0, 8, 0, 0, 0, 12, 0, 0, 0, 1];

const CACHE_RESET: [u8; 8] = [1, 8, 0, 0, 0, 0, 0, 8];

// Whether the event is taken.
fn takes(cache: &mut Cache, event: CacheEvent<'_, Global>) -> bool {
    cache.step(event).is_ok()
}

// Whether the client of key 0 is handed out just these octets.
fn is_told(cache: &mut Cache, octets: &[u8]) -> bool {
    let mut buf = [0u8; 16];
    match cache.take(0, &mut buf) {
        Ok(taken) => buf.get(..taken) == Some(octets),
        Err(_) => false,
    }
}

// Whether a client of another session is reset, and stays.
fn resets(cache: &mut Cache, set: &BTreeSet<Vrp>) -> bool {
    takes(cache, CacheEvent::Load(set))
        && takes(cache, CacheEvent::Up)
        && takes(cache, CacheEvent::Bytes(0, &QUERY_OF_SESSION_8))
        && is_told(cache, &CACHE_RESET)
        && cache.transport(0) == Transport::Open
}

// Without payloads, one that resets another session.
fn resetting(rt: &impl Abort, alloc: Global) -> Cache {
    let cache = Cache::with_other_session(alloc, 7, Intervals::USUAL, OtherSession::Reset);
    made(rt, cache)
}

#[test]
fn another_session_is_reset_by_a_cache_that_was_made_so(rt: HostRuntime) {
    let none = BTreeSet::new(rt.alloc());
    let mut cache = resetting(&rt, rt.alloc());
    assert!(rt; resets(&mut cache, &none));
}
