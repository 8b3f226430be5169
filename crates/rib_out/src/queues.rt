//! What waits for one slot, in order.
ghost use Rattle.std.specs.Prelude.{◌≡◌, ◌↔◌, if◌then◌else◌, IfOk, IfSome, IfNone, OnOk, true, false, Option};
ghost use Rattle.std.specs.BTreeMap.Range.{IsFromStart};
ghost use Rattle.std.specs.BTreeSet.{contains};
ghost use Rattle.std.specs.Ordering.{is_gt};
ghost use Rattle.net_prefix.specs.PrefixOrder.{prefix_cmp, IsAbove};
ghost use Rattle.net_prefix.specs.declared.prefix.Prefix.{Prefix as ThePrefix};
ghost use Rattle.rib_out.specs.Held.{is_prefix};
ghost use Rattle.rib_out.specs.Waiting.{is_owed, is_waiting, no_queues, queue_of};
ghost use Rattle.rib_out.specs.declared.marks.Owed.{Owed as TheOwed};

use crate::marks::Owed;
use net_prefix::Prefix;
use std::alloc::{AllocError, Allocator};
use std::collections::BTreeSet;
use std::marker::Model;
use std::ops::Bound;

/// What waits for one slot: a queue of withdrawals and one of announcements, each in the order of prefixes.
#[derive(Drop)]
pub(crate) struct SlotQueues<A: Allocator> {
    withdrawals: BTreeSet<Prefix, A>,
    announcements: BTreeSet<Prefix, A>,
}

impl<A: Allocator> Model for SlotQueues<A> {
    ghost use Rattle.rib_out.specs.Waiting.{QueuesState};

    ghost Value = { QueuesState };

    ghost view = { λ q. record { withdrawals = q.withdrawals; announcements = q.announcements } };
}

impl<A: Allocator + Clone> SlotQueues<A> {
    /// Nothing waits. The error is an allocator that can't be cloned.
    pub(crate) fn new(alloc: &A) -> Result<Self, AllocError>
        ensures { IfOk result (λ q. q ≡ no_queues) }
    {
        Ok(SlotQueues {
            withdrawals: BTreeSet::new(alloc.clone()?),
            announcements: BTreeSet::new(alloc.clone()?),
        })
    }

    /// Just this waits of the prefix from now on. Where memory is refused, the queues aren't whole any more.
    pub(crate) fn set(&mut self, prefix: Prefix, owed: Option<Owed>) -> Result<(), AllocError>
        ensures here { OnOk result ((o : TheOwed) → is_waiting self.new o prefix ≡ is_owed o owed) }
        ensures others { OnOk result ((o : TheOwed) (p : ThePrefix) → is_prefix prefix p ≡ false → is_waiting self.new o p ≡ is_waiting self.old o p) }
    {
        let (withdraws, announces) = match owed {
            Some(Owed::Withdrawal) => (true, false),
            Some(Owed::Announcement) => (false, true),
            None => (false, false),
        };
        put(&mut self.withdrawals, prefix, withdraws)?;
        put(&mut self.announcements, prefix, announces)
    }

    /// Nothing waits any more. It takes no memory.
    pub(crate) fn clear(&mut self)
        ensures { self.new ≡ no_queues }
    {
        self.withdrawals.clear();
        self.announcements.clear();
    }
}

impl<A: Allocator> SlotQueues<A> {
    /// The prefixes of which this waits.
    pub(crate) fn queue(&self, owed: Owed) -> &BTreeSet<Prefix, A>
        ensures { result.now ≡ queue_of self.now owed }
    {
        match owed {
            Owed::Withdrawal => &self.withdrawals,
            Owed::Announcement => &self.announcements,
        }
    }

    /// The least prefix above the given one, or of all, of which this waits.
    pub(crate) fn next(&self, owed: Owed, after: Option<Prefix>) -> Option<Prefix>
        ensures has { IfSome result (λ p. is_waiting self.now owed p ≡ true) }
        ensures above { IfSome result (λ p. IsAbove after p) }
        ensures least { IfSome result (λ p. (q : ThePrefix) → IsAbove after q → is_waiting self.now owed q ≡ true → is_gt (prefix_cmp p q) ≡ false) }
        ensures none { IfNone result ((q : ThePrefix) → IsAbove after q → is_waiting self.now owed q ≡ false) }
    {
        let mut above = self.queue(owed).range((start(after), Bound::Unbounded));
        let first = above.next()?;
        Some(*first)
    }
}

// The queue has the prefix, or hasn't.
fn put<A: Allocator + Clone>(
    queue: &mut BTreeSet<Prefix, A>,
    prefix: Prefix,
    waits: bool,
) -> Result<(), AllocError>
    ensures { OnOk result ((q : ThePrefix) → contains prefix_cmp queue.new q ≡ (if is_prefix prefix q then waits else contains prefix_cmp queue.old q)) }
{
    if !waits {
        queue.remove(&prefix);
        return Ok(());
    }
    match queue.insert(prefix) {
        Ok(_) => Ok(()),
        Err(_) => Err(AllocError),
    }
}

// Where the prefixes above the given one begin, or all.
fn start(after: Option<Prefix>) -> Bound<Prefix>
    ensures { (q : ThePrefix) → IsFromStart prefix_cmp result q ↔ IsAbove after q }
{
    match after {
        Some(prefix) => Bound::Excluded(prefix),
        None => Bound::Unbounded,
    }
}
