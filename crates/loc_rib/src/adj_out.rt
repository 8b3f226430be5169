//! One peer's Adj-RIB-Out.
ghost use Rattle.std.specs.Prelude.{◌≡◌, None, Some, IfNone, IfSome, IsSome, IsTrue, ◌<◌, ◌↔◌, false, is_some};
ghost use Rattle.std.specs.Ordering.{is_gt};
ghost use Rattle.std.specs.Iterator.{YieldsFirstBy, item_count};
ghost use Rattle.net_prefix.specs.declared.prefix.Prefix.{Prefix as ThePrefix};
ghost use Rattle.net_prefix.specs.PrefixOrder.{prefix_cmp, IsAbove};
ghost use Rattle.prefix_trie.specs.TrieWalks.{all_after};
ghost use Rattle.rib_out.specs.Held.{IsRising, all_asked, asked_at, held_at, octets_of};
ghost use Rattle.loc_rib.specs.SentTables.{sent_to};

use crate::ribs::Ribs;
use decision::Book;
use holdings::SentAttributes;
use net_prefix::Prefix;
use rib_rows::{RecordRange, first_held};
use std::alloc::Allocator;
use std::marker::Model;

/// What one peer was sent: the attributes of each prefix that it holds, as they were sent, and whether it has asked for the
/// route again since.
#[derive(Drop)]
pub struct AdjOut<'a, A: Allocator + Clone, B: Book<A>> {
    ribs: &'a Ribs<A, B>,
    slot: u8,
}

impl<'a, A: Allocator + Clone, B: Book<A>> Model for AdjOut<'a, A, B> {
    ghost use Rattle.std.specs.Prelude.{List, ◌<◌};
    ghost use Rattle.net_prefix.specs.declared.prefix.Prefix.{Prefix};
    ghost use Rattle.rib_out.specs.Held.{HeldRoute};
    ghost use Rattle.loc_rib.specs.SentTables.{sent_to};

    ghost Value = { List (Prefix × HeldRoute) };

    ghost view = { λ t. sent_to t.ribs.now.sent t.slot };

    ghost invariant = { λ t. t.slot < 64 };
}

impl<'a, A: Allocator + Clone, B: Book<A>> AdjOut<'a, A, B> {
    // What the slot's peer holds.
    pub(crate) fn of(ribs: &'a Ribs<A, B>, slot: u8) -> Self
        requires { slot < 64 }
        ensures { result ≡ sent_to ribs.now.sent slot }
    {
        AdjOut { ribs, slot }
    }

    /// Whether the peer holds the prefix.
    pub fn is_held(&self, prefix: Prefix) -> bool
        ensures { result ≡ is_some (held_at self.now prefix) }
    {
        self.ribs.held(self.slot, prefix).is_some()
    }

    /// Whether the peer holds the prefix, and has asked for it again since it was sent it.
    pub fn is_asked(&self, prefix: Prefix) -> bool
        ensures { result ≡ asked_at self.now prefix }
    {
        match self.ribs.held(self.slot, prefix) {
            Some((_, asked)) => asked,
            None => false,
        }
    }

    /// Whether it is known that the peer has asked again for each prefix that it holds: asking once more changes nothing.
    pub fn is_all_asked(&self) -> bool
        ensures { IsTrue result → all_asked self.now ≡ self.now }
    {
        self.ribs.is_all_asked(self.slot)
    }

    /// Whether it is known that the peer has asked again for none of the prefixes that it holds: sending them once more
    /// changes nothing.
    pub fn is_none_asked(&self) -> bool
        ensures { IsTrue result → (q : ThePrefix) → asked_at self.now q ≡ false }
    {
        self.ribs.is_none_asked(self.slot)
    }

    /// Whether the peer holds just these octets of a prefix.
    pub fn holds(&self, prefix: Prefix, octets: &[u8]) -> bool
        ensures { IsTrue result ↔ (held_at self.now prefix ≡ Some octets.now) }
    {
        match self.ribs.held(self.slot, prefix) {
            Some((sent, _)) => sent.are(octets),
            None => false,
        }
    }

    /// Whether the peer holds just these octets of a prefix, and hasn't asked for it again.
    pub fn has_just(&self, prefix: Prefix, octets: &[u8]) -> bool
        ensures { IsTrue result ↔ ((held_at self.now prefix ≡ Some octets.now) × (asked_at self.now prefix ≡ false)) }
    {
        match self.ribs.held(self.slot, prefix) {
            Some((sent, asked)) => !asked && sent.are(octets),
            None => false,
        }
    }

    /// The least prefix that the peer holds above the given one, or the least of all.
    pub fn prefix_after(&self, after: Option<Prefix>) -> Option<Prefix>
        ensures held { IfSome result (λ p. IsSome (held_at self.now p)) }
        ensures above { IfSome result (λ p. IsAbove after p) }
        ensures least { IfSome result (λ p. (q : ThePrefix) → IsAbove after q → IsSome (held_at self.now q) → is_gt (prefix_cmp p q) ≡ false) }
        ensures none { IfNone result ((q : ThePrefix) → IsAbove after q → held_at self.now q ≡ None) }
    {
        first_held(self.ribs.records_after(after), self.slot)
    }

    /// What the peer holds, in rising order of the prefixes.
    pub fn held(&self) -> HeldRoutes<'a, A, B>
        ensures all { result ≡ octets_of self.now }
        ensures rising { IsRising result }
    {
        self.held_after(None)
    }

    /// What the peer holds of prefixes above the given one, or of all, in rising order of the prefixes.
    pub fn held_after(&self, after: Option<Prefix>) -> HeldRoutes<'a, A, B>
        ensures all { result ≡ all_after after (octets_of self.now) }
        ensures rising { IsRising result }
    {
        HeldRoutes {
            rest: self.ribs.records_after(after),
            slot: self.slot,
        }
    }
}

/// The prefixes that a peer holds, with the attributes that it was sent.
#[derive(Drop)]
pub struct HeldRoutes<'a, A: Allocator + Clone, B: Book<A>> {
    rest: RecordRange<'a, A, B>,
    slot: u8,
}

impl<'a, A: Allocator + Clone, B: Book<A>> Model for HeldRoutes<'a, A, B> {
    ghost use Rattle.std.specs.Prelude.{List, ℕ, ◌<◌};
    ghost use Rattle.net_prefix.specs.declared.prefix.Prefix.{Prefix};
    ghost use Rattle.holdings.specs.Holdings.{octets_by};
    ghost use Rattle.prefix_table.specs.Picked.{picked};

    ghost Value = { List (Prefix × List ℕ) };

    ghost view = { λ h. picked (λ r. octets_by r.sent h.slot) h.rest };

    ghost invariant = { λ h. h.slot < 64 };
}

impl<'a, A: Allocator + Clone, B: Book<A>> Iterator for HeldRoutes<'a, A, B> {
    type Item = (Prefix, &'a SentAttributes<A>);

    ghost next_gives = { YieldsFirstBy (λ item. (item.0, item.1.now)) (λ rest. rest) };

    ghost remaining = { item_count (λ rest. rest) };

    fn next(&mut self) -> Option<(Prefix, &'a SentAttributes<A>)> {
        while let Some((prefix, record)) = self.rest.next() {
            if let Some(sent) = record.held(self.slot) {
                return Some((prefix, sent));
            }
        }
        None
    }
}
