//! The views of a speaker that begin behind a row: each costs the time of the rows that are asked for.
ghost use Rattle.std.specs.Prelude.{◌≡◌};
ghost use Rattle.std.specs.List.Sorted.{IsStrictlySortedBy};
ghost use Rattle.std.specs.Map.{keys_of};
ghost use Rattle.net_prefix.specs.PayloadSets.{IsPayloadSet};
ghost use Rattle.net_prefix.specs.PrefixOrder.{prefix_cmp};
ghost use Rattle.prefix_trie.specs.TrieWalks.{all_after};
ghost use Rattle.routing.specs.Tables.{link_at};
ghost use Rattle.rib_out.specs.PrefixRows.{prefixes_after};
ghost use Rattle.speaker.specs.Shown.{held_by, payloads_behind, received_by};
ghost use Rattle.runs.specs.SpeakerState.{in_force_of};
ghost use Rattle.runs.specs.Waiting.{waiting_of};

use crate::payloads::Payloads;
use crate::step::Speaker;
use crate::views::{AdjRibIn, HeldRoutes, LocRib};
use decision::{Book, LOCAL_SLOT};
use net_prefix::{Prefix, Vrp};
use routes::WaitingAfter;
use std::alloc::Allocator;

impl<A: Allocator + Clone, B: Book<A>> Speaker<A, B> {
    /// The rows of Loc-RIB above the given prefix, or all, in rising order.
    pub fn loc_rib_after(&self, after: Option<Prefix>) -> LocRib<'_, A, B>
        // Each prefix once.
        ensures rising { IsStrictlySortedBy prefix_cmp (keys_of result) }
        ensures kept { result ≡ all_after after self.now.loc_rib }
    {
        LocRib {
            rows: self.routes.rows_after(after),
        }
    }

    /// The routes that a slot's peer has announced and not taken back, to prefixes above the given one or all, in rising
    /// order; none where the slot isn't configured.
    pub fn adj_in_after(&self, slot: u8, after: Option<Prefix>) -> AdjRibIn<'_, A, B>
        // Each prefix once.
        ensures rising { IsStrictlySortedBy prefix_cmp (keys_of result) }
        ensures kept { result ≡ all_after after (received_by slot self.now.adj_in) }
    {
        // No local network came from a peer.
        if slot == LOCAL_SLOT {
            return AdjRibIn { routes: None };
        }
        AdjRibIn {
            routes: Some(self.routes.routes_after(slot, after)),
        }
    }

    /// What a slot's peer holds of what it was sent, of prefixes above the given one or of all, in rising order; nothing
    /// where the slot isn't configured.
    pub fn held_after(&self, slot: u8, after: Option<Prefix>) -> HeldRoutes<'_, A, B>
        // Each prefix once.
        ensures rising { IsStrictlySortedBy prefix_cmp (keys_of result) }
        ensures kept { result ≡ all_after after (held_by (link_at self.now.links slot)) }
    {
        match self.routes.adj_out(slot) {
            Some(found) => HeldRoutes {
                held: Some(found.held_after(after)),
            },
            None => HeldRoutes { held: None },
        }
    }

    /// The prefixes above the given one, or all, of which a slot's peer doesn't hold just what is exported to it, in rising
    /// order; none where its session isn't Established. They are found through the marks, and no export is made for it.
    pub fn waiting_after(&self, slot: u8, after: Option<Prefix>) -> WaitingAfter<'_, A, B>
        // Each once.
        ensures rising { IsStrictlySortedBy prefix_cmp result }
        ensures kept { result ≡ prefixes_after after (waiting_of self.now slot) }
    {
        self.routes.waiting_after(slot, after)
    }

    /// The payloads in force above the given one, or all, in rising order.
    pub fn payloads_after(&self, after: Option<Vrp>) -> Payloads<'_, A>
        // Each once.
        ensures rising { IsPayloadSet result }
        ensures kept { result ≡ payloads_behind after (in_force_of self.now) }
    {
        self.payloads_behind(after)
    }
}
