//! What waits to be announced to one slot, by the octets that it is announced with.
ghost use Rattle.std.specs.Prelude.{◌≡◌, ◌≢◌, ◌⊎◌, ℕ, List, Some, IfSome, IfNone, OnOk, true, false};
ghost use Rattle.std.specs.Ordering.{is_gt};
ghost use Rattle.net_prefix.specs.PrefixOrder.{prefix_cmp, IsAbove};
ghost use Rattle.net_prefix.specs.declared.prefix.Prefix.{Prefix as ThePrefix};
ghost use Rattle.rib_out.specs.Alike.{alike, has_alike, no_list};
ghost use Rattle.rib_out.specs.Held.{is_among, is_prefix};
ghost use Rattle.rib_out.specs.declared.slot_list.Alike.{Alike as Entry};

use net_prefix::Prefix;
use std::alloc::{AllocError, Allocator};
use std::collections::BTreeSet;
use std::marker::Model;
use std::ops::Bound;

/// A prefix that waits to be announced, with the number of the octets of attributes that it is announced with.
#[derive(Clone, Copy, PartialEq, Eq, PartialOrd, Ord)]
pub(crate) struct Alike {
    pub number: u64,
    pub prefix: Prefix,
}

/// The prefixes that wait to be announced to one slot, by number and then by prefix.
#[derive(Drop)]
pub(crate) struct SlotList<A: Allocator> {
    entries: BTreeSet<Alike, A>,
}

impl<A: Allocator> Model for SlotList<A> {
    ghost use Rattle.std.specs.BTreeSet.{BTreeSet};
    ghost use Rattle.rib_out.specs.declared.slot_list.Alike.{Alike};

    ghost Value = { BTreeSet Alike };

    ghost view = { λ l. l.entries };
}

impl<A: Allocator + Clone> SlotList<A> {
    /// An empty list.
    pub(crate) fn new(alloc: A) -> Self
        ensures { result ≡ no_list }
    {
        SlotList {
            entries: BTreeSet::new(alloc),
        }
    }

    /// The prefix is listed. Where memory is refused, the list isn't whole any more.
    pub(crate) fn insert(&mut self, entry: Alike) -> Result<(), AllocError>
        ensures there { OnOk result (has_alike self.new entry ≡ true) }
        ensures kept { OnOk result ((a : Entry) → has_alike self.old a ≡ true → has_alike self.new a ≡ true) }
        ensures only { OnOk result ((a : Entry) → has_alike self.new a ≡ true → (has_alike self.old a ≡ true) ⊎ (a ≡ entry)) }
    {
        if self.entries.insert(entry).is_err() {
            return Err(AllocError);
        }
        Ok(())
    }

    /// The prefix isn't listed any more by this number.
    pub(crate) fn remove(&mut self, number: u64, prefix: Prefix)
        ensures gone { has_alike self.new (alike number prefix) ≡ false }
        ensures fewer { (a : Entry) → has_alike self.new a ≡ true → has_alike self.old a ≡ true }
        ensures none { (a : Entry) → has_alike self.old a ≡ false → has_alike self.new a ≡ false }
        ensures others { (a : Entry) → a ≢ alike number prefix → has_alike self.new a ≡ has_alike self.old a }
        ensures kept { (n : ℕ) (p : ThePrefix) → is_prefix prefix p ≡ false → has_alike self.new (alike n p) ≡ has_alike self.old (alike n p) }
    {
        self.entries.remove(&Alike { number, prefix });
    }

    /// None of these prefixes is listed any more by this number.
    pub(crate) fn remove_all(&mut self, number: u64, prefixes: &[Prefix])
        ensures gone { (p : ThePrefix) → is_among p prefixes.now ≡ true → has_alike self.new (alike number p) ≡ false }
        ensures fewer { (a : Entry) → has_alike self.new a ≡ true → has_alike self.old a ≡ true }
        ensures others { (a : Entry) → a.number ≢ number → has_alike self.new a ≡ has_alike self.old a }
        ensures kept { (n : ℕ) (p : ThePrefix) → is_among p prefixes.now ≡ false → has_alike self.new (alike n p) ≡ has_alike self.old (alike n p) }
    {
        for prefix in prefixes {
            self.remove(number, *prefix);
        }
    }

    /// The list is empty. It takes no memory.
    pub(crate) fn clear(&mut self)
        ensures { self.new ≡ no_list }
    {
        self.entries.clear();
    }
}

impl<A: Allocator> SlotList<A> {
    /// The least prefix above the given one that is listed by this number.
    pub(crate) fn next(&self, number: u64, after: Prefix) -> Option<Prefix>
        ensures has { IfSome result (λ p. has_alike self.now (alike number p) ≡ true) }
        ensures above { IfSome result (λ p. IsAbove (Some after) p) }
        ensures least { IfSome result (λ p. (q : ThePrefix) → IsAbove (Some after) q → has_alike self.now (alike number q) ≡ true → is_gt (prefix_cmp p q) ≡ false) }
        ensures none { IfNone result ((q : ThePrefix) → IsAbove (Some after) q → has_alike self.now (alike number q) ≡ true → ⊥) }
    {
        let last = Alike {
            number,
            prefix: after,
        };
        let mut above = self
            .entries
            .range((Bound::Excluded(last), Bound::Unbounded));
        let first = above.next()?;
        if first.number == number {
            Some(first.prefix)
        } else {
            None
        }
    }
}
