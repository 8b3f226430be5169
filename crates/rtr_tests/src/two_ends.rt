//! A cache and a router's session with it, whose octets are carried from the one to the other in pieces.
use crate::router::Router;
use net_prefix::{Asn, Prefix, Vrp};
use rtr_cache::{Cache, CacheEvent, CacheRefusal, CacheReport};
use rtr_client::ClientState;
use rtr_codec::Intervals;
use std::alloc::Global;
use std::collections::BTreeSet;
use std::process::Abort;
use std::test::Fail;

// So many payloads that their response fills the ring of a client more than once.
const PAYLOADS: u32 = 4_000;

// The octets of a query and of a response with all payloads: a Cache Response, 20 octets each, an End of Data.
const RESPONSE_OCTETS: usize = 8 + 4_000 * 20 + 24;

fn step(cache: &mut Cache, event: CacheEvent<'_, Global>) -> Result<CacheReport, CacheRefusal> {
    cache.step(event)
}

// The payloads 10.0.0.0/24-24, 10.0.1.0/24-24, .., of AS 65002, from the first of these numbers on.
fn payloads(alloc: Global, first: u32, count: u32) -> Result<BTreeSet<Vrp>, Fail> {
    let mut set = BTreeSet::new(alloc);
    for number in 0..count {
        let bits = (first.wrapping_add(number) << 8).wrapping_add(0x0a00_0000);
        let _ = set.insert(Vrp::new(Prefix::new(bits, 24)?, 24, Asn(65_002))?)?;
    }
    Ok(set)
}

// Carries what the router says to the cache.
fn carry_up(cache: &mut Cache, router: &mut Router<Global>) -> Result<(), CacheRefusal> {
    let mut buf = [0u8; 64];
    let count = router.session.take(&mut buf);
    let _ = step(cache, CacheEvent::Bytes(0, &buf[..count]))?;
    Ok(())
}

// Carries what the cache hands out to the router, so many octets at a time, until there are no more. Answers how many.
fn carry_down(
    cache: &mut Cache,
    router: &mut Router<Global>,
    piece: &mut [u8],
    now: u64,
) -> Result<usize, CacheRefusal> {
    let mut carried = 0usize;
    for _ in 0..RESPONSE_OCTETS {
        let count = cache.take(0, piece)?;
        if !router.hear(&piece[..count], now) {
            return Ok(0);
        }
        carried = carried.saturating_add(count);
    }
    Ok(carried)
}

// A router that has asked a cache with these payloads for all of them.
fn asking(cache: &mut Cache, router: &mut Router<Global>, set: &BTreeSet<Vrp>) -> Result<(), Fail> {
    let _ = step(cache, CacheEvent::Load(set))?;
    let _ = step(cache, CacheEvent::Up)?;
    router.up(100);
    carry_up(cache, router)?;
    Ok(())
}

// Whether the router has just these payloads in force.
fn holds(router: &Router<Global>, set: &BTreeSet<Vrp>) -> bool {
    router.session.state() == ClientState::Synced && router.session.payloads().iter().eq(set.iter())
}

// Whether the router gets the payloads of the cache in pieces of so many octets.
fn gets(
    cache: &mut Cache,
    router: &mut Router<Global>,
    set: &BTreeSet<Vrp>,
    piece: &mut [u8],
) -> Result<bool, Fail> {
    asking(cache, router, set)?;
    let carried = carry_down(cache, router, piece, 100)?;
    Ok(carried == RESPONSE_OCTETS && holds(router, set))
}

// Whether a router gets all payloads in pieces of so many octets.
fn gets_all(alloc: Global, piece: &mut [u8]) -> Result<bool, Fail> {
    let set = payloads(alloc, 0, PAYLOADS)?;
    let mut cache = Cache::new(alloc, 7, Intervals::USUAL)?;
    let mut router = Router::new(alloc)?;
    gets(&mut cache, &mut router, &set, piece)
}

#[test]
fn a_response_comes_whole_octet_by_octet(rt: HostRuntime) -> Result<(), Fail> {
    assert!(rt; gets_all(rt.alloc(), &mut [0; 1])?);
    Ok(())
}

#[test]
fn a_response_comes_whole_in_pieces_of_7(rt: HostRuntime) -> Result<(), Fail> {
    assert!(rt; gets_all(rt.alloc(), &mut [0; 7])?);
    Ok(())
}

#[test]
fn a_response_comes_whole_in_pieces_of_4096(rt: HostRuntime) -> Result<(), Fail> {
    assert!(rt; gets_all(rt.alloc(), &mut [0; 4_096])?);
    Ok(())
}

// Whether the router takes the next octets that the cache hands out.
fn hears_next(
    cache: &mut Cache,
    router: &mut Router<Global>,
    piece: &mut [u8],
) -> Result<bool, CacheRefusal> {
    let count = cache.take(0, piece)?;
    Ok(router.hear(&piece[..count], 100))
}

// The new list is published while the response of the old one is on its way. The router has the old one first, and asks
// for what changed.
fn changes(
    rt: &impl Abort,
    cache: &mut Cache,
    router: &mut Router<Global>,
    old: &BTreeSet<Vrp>,
    new: &BTreeSet<Vrp>,
) -> Result<(), Fail> {
    let mut piece = [0; 4_096];
    asking(cache, router, old)?;
    assert!(rt; hears_next(cache, router, &mut piece)?);
    let _ = step(cache, CacheEvent::Load(new))?;
    let _ = carry_down(cache, router, &mut piece, 100)?;
    assert!(rt; holds(router, old));
    assert!(rt; !router.tick(3_700));
    carry_up(cache, router)?;
    let _ = carry_down(cache, router, &mut piece, 3_700)?;
    assert!(rt; holds(router, new));
    Ok(())
}

#[test]
fn a_response_goes_on_with_its_own_version(rt: HostRuntime) -> Result<(), Fail> {
    let old = payloads(rt.alloc(), 0, PAYLOADS)?;
    let new = payloads(rt.alloc(), 1, PAYLOADS)?;
    let mut cache = Cache::new(rt.alloc(), 7, Intervals::USUAL)?;
    let mut router = Router::new(rt.alloc())?;
    changes(&rt, &mut cache, &mut router, &old, &new)
}

// The connection is lost in the midst of a response: nothing of it is in force. The next one brings all.
fn comes_again(
    rt: &impl Abort,
    cache: &mut Cache,
    router: &mut Router<Global>,
    set: &BTreeSet<Vrp>,
) -> Result<(), Fail> {
    let mut piece = [0; 4_096];
    asking(cache, router, set)?;
    assert!(rt; hears_next(cache, router, &mut piece)?);
    let _ = step(cache, CacheEvent::Down(0))?;
    router.fail(200);
    assert!(rt; router.has(&[]));
    assert!(rt; router.tick(800));
    asking(cache, router, set)?;
    let _ = carry_down(cache, router, &mut piece, 800)?;
    assert!(rt; holds(router, set));
    Ok(())
}

#[test]
fn a_response_that_is_cut_is_not_in_force(rt: HostRuntime) -> Result<(), Fail> {
    let set = payloads(rt.alloc(), 0, PAYLOADS)?;
    let mut cache = Cache::new(rt.alloc(), 7, Intervals::USUAL)?;
    let mut router = Router::new(rt.alloc())?;
    comes_again(&rt, &mut cache, &mut router, &set)
}
