//! What waits to be announced, by the octets that it is announced with, at a refused growth.
ghost use Rattle.std.specs.Prelude.{◌<◌};

use crate::given::{is_filled_at_last, prefix_of};
use net_prefix::Prefix;
use refusing::Refusing;
use rib_out::AlikePrefixes;
use std::alloc::Allocator;
use std::process::Abort;

// ORIGIN IGP.
const FIRST: [u8; 4] = [0x40, 1, 1, 0];

const HIGH: Prefix = Prefix {
    bits: 0xc000_0200,
    len: 24,
};

// Whether just these prefixes are listed for the slot, in this order.
fn lists<A: Allocator + Clone>(alike: &AlikePrefixes<A>, slot: u8, prefixes: &[Prefix]) -> bool
    requires { slot < 64 }
{
    let mut last = Prefix::default();
    for prefix in prefixes {
        if alike.next(slot, &FIRST, last) != Some(*prefix) {
            return false;
        }
        last = *prefix;
    }
    alike.next(slot, &FIRST, last).is_none()
}

// Whether each prefix of the run is listed for the slot, in order.
fn has_all<A: Allocator + Clone>(rt: &impl Abort, alike: &AlikePrefixes<A>, slot: u8) -> bool
    requires { slot < 64 }
{
    let mut last = Prefix::default();
    for number in 1..33u32 {
        let prefix = prefix_of(rt, number * 256, 24);
        if alike.next(slot, &FIRST, last) != Some(prefix) {
            return false;
        }
        last = prefix;
    }
    alike.next(slot, &FIRST, last).is_none()
}

// Whether a lost list, in which nothing is found, begins anew.
fn begins_anew<A: Allocator + Clone>(alike: &mut AlikePrefixes<A>, slot: u8) -> bool
    requires { slot < 64 }
{
    let was_empty = lists(alike, slot, &[]);
    alike.clear(slot);
    alike.list(slot, &FIRST, HIGH);
    was_empty && alike.is_whole(slot) && lists(alike, slot, &[HIGH])
}

// Answers how many of the two lists were lost. One that wasn't has each prefix, and one that was begins anew.
fn count_lost<A: Allocator + Clone>(rt: &impl Abort, alike: &mut AlikePrefixes<A>) -> u32 {
    let mut lost = 0u32;
    for slot in 0..2u8 {
        if alike.is_whole(slot) {
            assert!(rt; has_all(rt, alike, slot));
        } else {
            assert!(rt; begins_anew(alike, slot));
            lost = lost.saturating_add(1);
        }
    }
    lost
}

// Lists a run of prefixes for two slots in turn. Answers how many lists were lost: one at most.
fn lost_in<A: Allocator + Clone>(rt: &impl Abort, alloc: A) -> u32 {
    let Ok(mut alike) = AlikePrefixes::new(alloc) else {
        // The room for the lists is the first that is asked for.
        return 1;
    };
    for number in 1..33u32 {
        let prefix = prefix_of(rt, number * 256, 24);
        alike.list(0, &FIRST, prefix);
        alike.list(1, &FIRST, prefix);
    }
    let lost = count_lost(rt, &mut alike);
    assert!(rt; lost < 2);
    lost
}

#[test]
fn a_refused_growth_loses_one_list(rt: HostRuntime) {
    assert!(rt; is_filled_at_last(rt.alloc(), |heap| lost_in(&rt, heap)));
}
