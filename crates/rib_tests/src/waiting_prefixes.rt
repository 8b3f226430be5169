//! What waits of each prefix for each slot, at a refused growth.
ghost use Rattle.std.specs.Prelude.{◌<◌};

use crate::given::{is_filled_at_last, prefix_of};
use net_prefix::Prefix;
use refusing::Refusing;
use rib_out::{Owed, Waiting};
use std::alloc::Allocator;
use std::process::Abort;

// Whether this waits for the slot of just these prefixes, in this order.
fn waits<A: Allocator>(waiting: &Waiting<A>, slot: u8, owed: Owed, prefixes: &[Prefix]) -> bool {
    let mut last = None;
    for prefix in prefixes {
        last = waiting.next(slot, owed, last);
        if last != Some(*prefix) || !waiting.is_queued(slot, owed, *prefix) {
            return false;
        }
    }
    waiting.next(slot, owed, last).is_none()
}

// Whether nothing waits for the slot.
fn is_idle<A: Allocator>(waiting: &Waiting<A>, slot: u8) -> bool {
    waits(waiting, slot, Owed::Withdrawal, &[]) && waits(waiting, slot, Owed::Announcement, &[])
}

const TOP: Prefix = Prefix {
    bits: 0x0a00_0000,
    len: 8,
};

// Whether each prefix of the run waits to be announced to the slot, and nothing else does.
fn has_all<A: Allocator>(rt: &impl Abort, waiting: &Waiting<A>, slot: u8) -> bool {
    let mut last = None;
    for number in 0..32u32 {
        let prefix = prefix_of(rt, number * 256, 24);
        last = waiting.next(slot, Owed::Announcement, last);
        if last != Some(prefix) {
            return false;
        }
    }
    waiting.next(slot, Owed::Announcement, last).is_none()
        && waits(waiting, slot, Owed::Withdrawal, &[])
}

// Whether a lost queue, in which nothing is found, begins anew.
fn begins_anew<A: Allocator + Clone>(waiting: &mut Waiting<A>, slot: u8) -> bool
    requires { slot < 64 }
{
    let was_idle = is_idle(waiting, slot);
    waiting.clear(slot);
    waiting.set(slot, TOP, Some(Owed::Withdrawal));
    was_idle
        && waiting.is_whole(slot)
        && waits(waiting, slot, Owed::Withdrawal, &[TOP])
        && waits(waiting, slot, Owed::Announcement, &[])
}

// Answers how many of the two queues were lost. One that wasn't has each prefix, and one that was begins anew.
fn count_lost<A: Allocator + Clone>(rt: &impl Abort, waiting: &mut Waiting<A>) -> u32 {
    let mut lost = 0u32;
    for slot in 0..2u8 {
        if waiting.is_whole(slot) {
            assert!(rt; has_all(rt, waiting, slot));
        } else {
            assert!(rt; begins_anew(waiting, slot));
            lost = lost.saturating_add(1);
        }
    }
    lost
}

// Marks a run of prefixes for two slots in turn. Answers how many queues were lost.
fn lost_in<A: Allocator + Clone>(rt: &impl Abort, alloc: A) -> u32 {
    let Ok(mut waiting) = Waiting::new(alloc) else {
        // The room for the queues is the first that is asked for.
        return 1;
    };
    for number in 0..32u32 {
        let prefix = prefix_of(rt, number * 256, 24);
        waiting.set(0, prefix, Some(Owed::Announcement));
        waiting.set(1, prefix, Some(Owed::Announcement));
    }
    count_lost(rt, &mut waiting)
}

#[test]
fn a_refused_growth_loses_one_queue(rt: HostRuntime) {
    assert!(rt; is_filled_at_last(rt.alloc(), |heap| lost_in(&rt, heap)));
}
