//! What waits for each slot, in order.
ghost use Rattle.std.specs.Prelude.{◌≡◌, ◌≢◌, ◌<◌, ◌==◌, ◌&&◌, ◌||◌, ℕ, Option, None, IfOk, IfSome, IfNone, true, false, replicate};
ghost use Rattle.std.specs.Ordering.{is_gt};
ghost use Rattle.net_prefix.specs.PrefixOrder.{prefix_cmp, IsAbove};
ghost use Rattle.net_prefix.specs.declared.prefix.Prefix.{Prefix as ThePrefix};
ghost use Rattle.rib_out.specs.Held.{is_prefix};
ghost use Rattle.rib_out.specs.Slots.{has_slot};
ghost use Rattle.rib_out.specs.Waiting.{IsAwaited, is_queued, no_queues};
ghost use Rattle.rib_out.specs.declared.marks.Owed.{Owed as TheOwed};

use crate::marks::Owed;
use crate::queues::SlotQueues;
use crate::slots::{self, SLOTS};
use net_prefix::Prefix;
use std::alloc::{AllocError, Allocator, Global};
use std::marker::Model;

/// What waits for each slot: a queue of withdrawals and one of announcements, each in the order of prefixes. Marking never
/// fails: where memory is refused to it, a slot's queues are no longer whole until the slot is cleared.
#[derive(Drop)]
pub struct Waiting<A: Allocator = Global> {
    queues: Vec<SlotQueues<A>, A>,
    // The slots whose queues are whole, a bit each.
    whole: u64,
}

impl<A: Allocator> Model for Waiting<A> {
    ghost use Rattle.std.specs.Prelude.{◌≡◌, length};
    ghost use Rattle.rib_out.specs.Waiting.{WaitingState};

    ghost Value = { WaitingState };

    ghost view = { λ waiting. record { queues = waiting.queues.items; whole = waiting.whole } };

    ghost invariant = { λ waiting. length waiting.queues.items ≡ 64 };
}

impl<A: Allocator + Clone> Waiting<A> {
    /// Nothing waits for any slot. The error is memory that is refused, or an allocator that can't be cloned.
    pub fn new(alloc: A) -> Result<Self, AllocError>
        ensures none { IfOk result (λ w. (s : ℕ) (p : ThePrefix) → IsAwaited w s p None) }
        ensures whole { IfOk result (λ w. (s : ℕ) → s < 64 → has_slot w.whole s ≡ true) }
    {
        Ok(Waiting {
            queues: all_empty(alloc)?,
            whole: u64::MAX,
        })
    }

    /// Just this waits of the prefix for the slot from now on. It never fails: where memory is refused, the slot's queue
    /// is lost.
    pub fn set(&mut self, slot: u8, prefix: Prefix, owed: Option<Owed>)
        requires { slot < 64 }
        ensures here { IsAwaited self.new slot prefix owed }
        ensures others { (s : ℕ) (p : ThePrefix) (w : Option TheOwed) → (s == slot && is_prefix prefix p) ≡ false → IsAwaited self.old s p w → IsAwaited self.new s p w }
        ensures whole { (s : ℕ) → s ≢ slot → has_slot self.new.whole s ≡ has_slot self.old.whole s }
    {
        if !self.is_whole(slot) {
            return;
        }
        let queues = &mut self.queues[usize::from(slot)];
        if queues.set(prefix, owed).is_err() {
            queues.clear();
            self.whole = slots::without(self.whole, slot);
        }
    }

    /// Nothing waits any more for the slot, and its queue is whole. It takes no memory.
    pub fn clear(&mut self, slot: u8)
        requires { slot < 64 }
        ensures none { (p : ThePrefix) → IsAwaited self.new slot p None }
        ensures whole { (s : ℕ) → has_slot self.new.whole s ≡ (s == slot || has_slot self.old.whole s) }
        ensures others { (s : ℕ) (p : ThePrefix) (w : Option TheOwed) → s ≢ slot → IsAwaited self.old s p w → IsAwaited self.new s p w }
    {
        self.queues[usize::from(slot)].clear();
        self.whole = slots::with(self.whole, slot);
    }
}

impl<A: Allocator> Waiting<A> {
    /// Whether the slot's queue is whole.
    pub fn is_whole(&self, slot: u8) -> bool
        requires { slot < 64 }
        ensures { result ≡ has_slot self.now.whole slot }
    {
        slots::has(self.whole, slot)
    }

    /// Whether this is queued of the prefix for the slot.
    pub fn is_queued(&self, slot: u8, owed: Owed, prefix: Prefix) -> bool
        ensures { result ≡ is_queued self.now slot owed prefix }
    {
        match self.queues.get(usize::from(slot)) {
            Some(queues) => queues.queue(owed).contains(&prefix),
            None => false,
        }
    }

    /// The least prefix above the given one, or of all, of which this is queued for the slot.
    pub fn next(&self, slot: u8, owed: Owed, after: Option<Prefix>) -> Option<Prefix>
        ensures has { IfSome result (λ p. is_queued self.now slot owed p ≡ true) }
        ensures above { IfSome result (λ p. IsAbove after p) }
        ensures least { IfSome result (λ p. (q : ThePrefix) → IsAbove after q → is_queued self.now slot owed q ≡ true → is_gt (prefix_cmp p q) ≡ false) }
        ensures none { IfNone result ((q : ThePrefix) → IsAbove after q → is_queued self.now slot owed q ≡ false) }
    {
        match self.queues.get(usize::from(slot)) {
            Some(queues) => queues.next(owed, after),
            None => None,
        }
    }
}

// The queues of all slots, empty.
fn all_empty<A: Allocator + Clone>(alloc: A) -> Result<Vec<SlotQueues<A>, A>, AllocError>
    ensures { IfOk result (λ queues. queues.items ≡ replicate 64 no_queues) }
{
    let mut queues = Vec::with_capacity(alloc.clone()?, SLOTS)?;
    for _ in 0..SLOTS {
        queues.push_reserved(SlotQueues::new(&alloc)?);
    }
    Ok(queues)
}
