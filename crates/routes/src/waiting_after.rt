//! The prefixes that wait behind a prefix, found through the marks.
ghost use Rattle.std.specs.Prelude.{◌≡◌, true, false, IfNone, IfSome};
ghost use Rattle.std.specs.Iterator.{YieldsFirst, item_count};
ghost use Rattle.std.specs.List.Sorted.{IsStrictlySortedBy};
ghost use Rattle.std.specs.Ordering.{is_gt};
ghost use Rattle.net_prefix.specs.PrefixOrder.{IsAbove, prefix_cmp};
ghost use Rattle.net_prefix.specs.declared.prefix.Prefix.{Prefix as ThePrefix};
ghost use Rattle.rib_out.specs.PrefixRows.{prefixes_after};
ghost use Rattle.routes.specs.WaitingRows.{is_waiting, waiting_for};

use crate::routes::Routes;
use bgp_conf::PEER_SLOTS;
use decision::{Book, PlainBook};
use net_prefix::Prefix;
use std::alloc::{Allocator, Global};
use std::marker::Model;

/// The prefixes that wait for a slot's peer, behind one or all, in rising order. Each is found through the marks, in time of
/// the prefix's length.
#[derive(Drop)]
pub struct WaitingAfter<'a, A: Allocator + Clone = Global, B: Book<A> = PlainBook<A>> {
    routes: &'a Routes<A, B>,
    slot: u8,
    // The prefix behind which they begin.
    after: Option<Prefix>,
}

impl<'a, A: Allocator + Clone, B: Book<A>> Model for WaitingAfter<'a, A, B> {
    ghost use Rattle.std.specs.Prelude.{List};
    ghost use Rattle.std.specs.List.Sorted.{IsStrictlySortedBy};
    ghost use Rattle.net_prefix.specs.PrefixOrder.{prefix_cmp};
    ghost use Rattle.net_prefix.specs.declared.prefix.Prefix.{Prefix};
    ghost use Rattle.rib_out.specs.PrefixRows.{prefixes_after};
    ghost use Rattle.routes.specs.WaitingRows.{waiting_for};

    ghost Value = { List Prefix };

    ghost view = { λ w. prefixes_after w.after (waiting_for w.routes.now w.slot) };

    ghost invariant = { λ w. IsStrictlySortedBy prefix_cmp (waiting_for w.routes.now w.slot) };
}

impl<A: Allocator + Clone, B: Book<A>> Iterator for WaitingAfter<'_, A, B> {
    type Item = Prefix;

    ghost next_gives = { YieldsFirst (λ rest. rest) };

    ghost remaining = { item_count (λ rest. rest) };

    fn next(&mut self) -> Option<Prefix> {
        let routes = self.routes;
        let found = routes.next_waiting(self.slot, self.after);
        if let Some(prefix) = found {
            self.after = Some(prefix);
        }
        found
    }
}

impl<A: Allocator + Clone, B: Book<A>> Routes<A, B> {
    /// The prefixes above the given one, or all, of which a slot's peer doesn't hold just what is exported to it, or for which
    /// it has asked again, in rising order; none where its session isn't Established.
    pub fn waiting_after(&self, slot: u8, after: Option<Prefix>) -> WaitingAfter<'_, A, B>
        ensures all { result ≡ prefixes_after after (waiting_for self.now slot) }
        ensures rising { IsStrictlySortedBy prefix_cmp result }
    {
        let _ = self.waiting(slot);
        WaitingAfter {
            routes: self,
            slot,
            after,
        }
    }

    // The least prefix above the given one, or of all, that waits for a slot's peer.
    pub(crate) fn next_waiting(&self, slot: u8, after: Option<Prefix>) -> Option<Prefix>
        ensures has { IfSome result (λ p. is_waiting self.now slot p ≡ true) }
        ensures above { IfSome result (λ p. IsAbove after p) }
        ensures least { IfSome result (λ p. (q : ThePrefix) → IsAbove after q → is_waiting self.now slot q ≡ true → is_gt (prefix_cmp p q) ≡ false) }
        ensures none { IfNone result ((q : ThePrefix) → IsAbove after q → is_waiting self.now slot q ≡ false) }
    {
        let routing = &self.routing;
        if slot >= PEER_SLOTS {
            return None;
        }
        routing.next_owed(&self.conf, &self.links, slot, after)
    }
}
