//! Growths that are refused, each in turn.
ghost use Rattle.std.specs.Prelude.{◌≤◌};

use crate::sets::{ample_set, set_of};
use net_prefix::{Asn, Prefix, Vrp};
use refusing::Refusing;
use std::alloc::{AllocError, Allocator, Global};
use std::collections::BTreeSet;
use std::process::Abort;
use vrp_delta::{Delta, DeltaFault, Versions, apply};

const TEN: Prefix = Prefix {
    bits: 0x0a00_0000,
    len: 16,
};

const PUBLISHED: u32 = 68;

// What is published of an AS.
fn payloads_of(asn: u32) -> [Vrp; 2] {
    [
        Vrp {
            prefix: TEN,
            max_len: 16,
            asn: Asn(asn),
        },
        Vrp {
            prefix: TEN,
            max_len: 24,
            asn: Asn(asn),
        },
    ]
}

// Whether the newest version is that of the serial.
fn is_newest<A: Allocator + Clone>(versions: &Versions<A>, serial: u32) -> bool {
    match versions.current() {
        Some(newest) => {
            newest.serial() == serial && newest.payloads().iter().eq(&payloads_of(serial))
        }
        None => serial == 0,
    }
}

// Whether this is the change from the version of one serial to that of the other, if there is one.
fn is_change<A: Allocator>(change: &Option<Delta<A>>, oldest: u32, serial: u32) -> bool {
    match change {
        Some(delta) if oldest < serial => {
            delta.announced.iter().eq(&payloads_of(serial))
                && delta.withdrawn.iter().eq(&payloads_of(oldest))
        }
        Some(delta) => delta.announced.is_empty() && delta.withdrawn.is_empty(),
        None => serial == 0,
    }
}

// Whether it is told what changed since the oldest version that is kept. The first try may be refused.
fn tells_change<A: Allocator + Clone>(versions: &Versions<A>, serial: u32) -> bool {
    let oldest = serial.saturating_sub(64).max(1);
    match versions.delta_from(oldest) {
        Ok(change) => is_change(&change, oldest, serial),
        Err(_) => match versions.delta_from(oldest) {
            Ok(change) => is_change(&change, oldest, serial),
            Err(_) => false,
        },
    }
}

// Publishes the set of an AS, and again where a growth is refused. Answers whether one was.
fn is_published_again<A: Allocator + Clone>(
    rt: &impl Abort,
    versions: &mut Versions<A>,
    set: &BTreeSet<Vrp>,
    asn: u32,
) -> bool
    requires { 1 ≤ asn }
{
    let refused = versions.publish(set).is_err();
    if refused {
        assert!(rt; is_newest(versions, asn - 1) && tells_change(versions, asn - 1));
        assert!(rt; versions.publish(set) == Ok(asn) && tells_change(versions, asn));
    }
    assert!(rt; is_newest(versions, asn));
    refused
}

// Publishes set after set, and each again where a growth is refused. Answers how often one was.
fn publish_all<A: Allocator + Clone>(
    rt: &impl Abort,
    alloc: Global,
    versions: &mut Versions<A>,
) -> u32 {
    let mut refused = 0u32;
    for asn in 1..=PUBLISHED {
        let set = ample_set(rt, alloc, &payloads_of(asn));
        if is_published_again(rt, versions, &set, asn) {
            refused = refused.saturating_add(1);
        }
    }
    refused
}

// Publishes them from no version on.
fn refusals_in<A: Allocator + Clone>(
    rt: &impl Abort,
    alloc: Global,
    mut versions: Versions<A>,
) -> u32 {
    publish_all(rt, alloc, &mut versions)
}

// Publishes them from a heap. Answers how often a growth was refused, where a request was.
fn refusals_from<B: Allocator>(rt: &impl Abort, alloc: Global, heap: &Refusing<B>) -> Option<u32> {
    let refused = refusals_in(rt, alloc, Versions::new(heap));
    if heap.has_refused() {
        return Some(refused);
    }
    assert!(rt; refused == 0);
    None
}

// From a heap that refuses the nth request alone.
fn refusals_at(rt: &impl Abort, alloc: Global, nth: u64) -> Option<u32>
    requires { 1 ≤ nth }
{
    refusals_from(rt, alloc, &Refusing::new(alloc, nth))
}

// From a heap that refuses the nth request, and what is asked for in its place.
fn refusals_of_both(rt: &impl Abort, alloc: Global, nth: u64) -> Option<u32>
    requires { 1 ≤ nth }
{
    let behind = Refusing::new(alloc, nth);
    refusals_from(rt, alloc, &Refusing::new(&behind, nth))
}

// A list that is refused room for all that comes asks again, for one more.
#[test]
fn a_refused_growth_that_is_asked_for_again_changes_nothing(rt: HostRuntime) {
    for nth in 1..2_000u64 {
        match refusals_at(&rt, rt.alloc(), nth) {
            Some(refused) => assert!(rt; refused <= 1, "{nth}: {refused}"),
            None => return,
        }
    }
    panic!(rt; "each run was refused a request");
}

#[test]
fn a_refused_growth_leaves_the_versions(rt: HostRuntime) {
    for nth in 1..2_000u64 {
        match refusals_of_both(&rt, rt.alloc(), nth) {
            Some(refused) => assert!(rt; refused == 1, "{nth}"),
            None => {
                assert!(rt; u64::from(PUBLISHED) < nth);
                return;
            }
        }
    }
    panic!(rt; "each run was refused a request");
}

const HERE: Vrp = Vrp {
    prefix: TEN,
    max_len: 24,
    asn: Asn(1),
};

const COMES: Vrp = Vrp {
    prefix: TEN,
    max_len: 24,
    asn: Asn(2),
};

// Finds the change of the set refused or made. Answers whether it was made.
fn is_applied<A: Allocator + Clone>(
    rt: &impl Abort,
    set: &mut BTreeSet<Vrp, A>,
    delta: &Delta<A>,
) -> bool {
    let answer = apply(set, delta);
    if answer.is_err() {
        assert!(rt; answer == Err(DeltaFault::NoMemory) && set.iter().eq(&[HERE]));
        assert!(rt; apply(set, delta) == Ok(()));
        return false;
    }
    assert!(rt; set.iter().eq(&[HERE, COMES]));
    true
}

// Of sets for which there is memory.
fn is_applied_to<A: Allocator + Clone>(
    rt: &impl Abort,
    set: Result<BTreeSet<Vrp, A>, AllocError>,
    delta: &Delta<A>,
) -> Option<bool> {
    match set {
        Ok(mut set) => Some(is_applied(rt, &mut set, delta)),
        Err(_) => None,
    }
}

// Of a set and a delta of a heap, from which one payload comes.
fn is_one_applied(rt: &impl Abort, heap: &Refusing<Global>) -> Option<bool> {
    match set_of(heap, &[COMES]) {
        Ok(announced) => {
            let delta = Delta {
                withdrawn: BTreeSet::new(heap),
                announced,
            };
            is_applied_to(rt, set_of(heap, &[HERE]), &delta)
        }
        Err(_) => None,
    }
}

// Where the heap refuses the nth request: whether the change was made, if the sets had memory, and whether a request was
// refused.
fn is_applied_at(rt: &impl Abort, alloc: Global, nth: u64) -> (Option<bool>, bool)
    requires { 1 ≤ nth }
{
    let heap = Refusing::new(alloc, nth);
    let made = is_one_applied(rt, &heap);
    (made, heap.has_refused())
}

#[test]
fn a_refused_growth_leaves_the_set(rt: HostRuntime) {
    let mut refused = 0u32;
    for nth in 1..100u64 {
        let (made, left) = is_applied_at(&rt, rt.alloc(), nth);
        if made == Some(false) {
            refused = refused.saturating_add(1);
        }
        if !left {
            assert!(rt; 0 < refused && made == Some(true));
            return;
        }
    }
    panic!(rt; "each run was refused a request");
}
