//! The routes with all that they go through, as one value.
ghost use Rattle.std.specs.Prelude.{◌≡◌, ◌≤◌, ◌<◌, ◌-◌, ℕ, None, true, IfOk, length};
ghost use Rattle.std.specs.Bool.{OnTrue};
ghost use Rattle.std.specs.Borrow.{sem};
ghost use Rattle.std.specs.List.Sorted.{IsStrictlySortedBy};
ghost use Rattle.std.specs.Map.{keys_of, lookup};
ghost use Rattle.std.specs.Option.{IsSome, option_copied, option_map};
ghost use Rattle.bgp_conf.specs.Configuration.{peer_at};
ghost use Rattle.decision.specs.BookContents.{IsBestOf, offer_at, rows_of};
ghost use Rattle.export_rules.specs.Export.{Tells, most_attributes};
ghost use Rattle.net_prefix.specs.PrefixOrder.{prefix_cmp};
ghost use Rattle.net_prefix.specs.declared.prefix.Prefix.{Prefix as ThePrefix};
ghost use Rattle.prefix_trie.specs.TrieWalks.{all_after};
ghost use Rattle.rib_in.specs.LatestRoutes.{HasRoute, route_at, routes_of};
ghost use Rattle.rib_out.specs.Held.{is_prefix};
ghost use Rattle.rib_out.specs.Waiting.{IsAwaited};
ghost use Rattle.local_exceptions.specs.ExceptionSets.{behind};
ghost use Rattle.origin_valid.specs.Stretches.{changed_prefixes, stretches};
ghost use Rattle.routing.specs.Chosen.{OncePerPrefix};
ghost use Rattle.routing.specs.Export.{IsAccepted, export_in, export_peer_of};
ghost use Rattle.routes.specs.Lending.{lends_payloads};
ghost use Rattle.routing.specs.Offers.{AreMadeWhere, is_within};
ghost use Rattle.routing.specs.RoutesState.{begun, tables_in};
ghost use Rattle.routing.specs.RoutingState.{started};
ghost use Rattle.routing.specs.Tables.{best_at, link_at};
ghost use Rattle.routing.specs.Waiting.{waiting_at};

use bgp_conf::Conf;
use bgp_peer::Peer;
use decision::Book;
use export_rules::ExportPeer;
use holdings::RecentRewrite;
use loc_rib::{AdjOut, Rows, SlotRoutes};
use net_prefix::{Asn, Prefix};
use origin_valid::PayloadTrie;
use routing::{
    Links, Octets, Routing, WaitingPrefixes, choose_touched, export, export_peer, slots_end,
};
use std::alloc::{AllocError, Allocator};
use std::collections::BTreeMap;
use std::marker::Model;
use vrp_delta::Delta;

/// What judges the routes, the slots, and the routes with Loc-RIB, what each peer holds and what it is owed.
#[derive(Drop)]
pub struct Routes<A: Allocator + Clone, B: Book<A>> {
    pub(crate) conf: Conf<A>,
    // The payloads that are loaded. Under the local exceptions they are those by which routes are judged.
    pub(crate) payloads: PayloadTrie<A>,
    pub(crate) links: Links<A>,
    pub(crate) routing: Routing<A, B>,
    // How attributes were changed last for a peer, for the next to share.
    pub(crate) recent: RecentRewrite<A>,
}

impl<A: Allocator + Clone, B: Book<A>> Model for Routes<A, B> {
    ghost use Rattle.decision.specs.BookContents.{offer_at};
    ghost use Rattle.routing.specs.MarksIn.{AreMarkedIn};
    ghost use Rattle.routing.specs.Offers.{IsSound};
    ghost use Rattle.routing.specs.RoutesState.{RoutesState};
    ghost use Rattle.routing.specs.Sent.{linked};

    ghost Value = { RoutesState };

    ghost view = { λ r. record {
      conf = r.conf;
      payloads = r.payloads;
      links = linked r.links.entries r.routing.sent;
      adj_in = r.routing.adj_in;
      book = r.routing.book;
      chosen = r.routing.chosen;
    } };

    // Of each prefix there waits for each slot just what its peer is owed.
    ghost invariant = { λ r. IsSound r.conf (offer_at r.routing.book) × AreMarkedIn r.conf r.links.entries r.routing };
}

impl<A: Allocator + Clone + Copy, B: Book<A>> Routes<A, B> {
    /// No peers, no payloads and no routes, for a speaker of this AS.
    pub fn new(alloc: A, own: Asn) -> Result<Self, AllocError>
        ensures { IfOk result (λ r. r ≡ begun own) }
    {
        let conf = Conf::new(alloc, own)?;
        Self::begin(alloc, conf)
    }

    // The same for this configuration, in which nothing is configured.
    fn begin(alloc: A, conf: Conf<A>) -> Result<Self, AllocError>
        requires { conf ≡ (begun conf.own).conf }
        ensures { IfOk result (λ r. r ≡ begun conf.own) }
    {
        let routing = Routing::new(alloc)?;
        Ok(Self::empty(alloc, conf, routing))
    }

    // These parts, in which there is nothing, as one value.
    fn empty(alloc: A, conf: Conf<A>, routing: Routing<A, B>) -> Self
        requires conf { conf ≡ (begun conf.own).conf }
        requires routing { routing ≡ started routing.sent routing.waiting routing.alike }
        requires none { (s : ℕ) (p : ThePrefix) → IsAwaited routing.waiting s p None }
        ensures { result ≡ begun conf.own }
    {
        Routes {
            conf,
            payloads: PayloadTrie::new(alloc),
            links: BTreeMap::new(alloc),
            routing,
            recent: RecentRewrite::new(alloc),
        }
    }
}

impl<A: Allocator + Clone, B: Book<A>> Routes<A, B> {
    /// The configuration.
    pub fn conf(&self) -> &Conf<A>
        ensures { result.now ≡ self.now.conf }
    {
        &self.conf
    }

    /// The session of a slot, with its connection's octets, if the slot is there.
    pub fn peer(&self, slot: u8) -> Option<&Peer<A>>
        ensures value { option_copied result ≡ option_map (λ l. l.peer) (link_at self.now.links slot) }
    {
        self.links.get(&slot)
    }

    /// What the peer of a slot holds, if the slot is there.
    pub fn adj_out(&self, slot: u8) -> Option<AdjOut<'_, A, B>>
        ensures value { result ≡ option_map (λ l. l.adj_out) (link_at self.now.links slot) }
    {
        let _peer = self.links.get(&slot)?;
        Some(self.routing.held(slot))
    }

    /// The number behind that of the last slot; 0 where there is none.
    pub fn slots_end(&self) -> u8
        ensures none { (s : ℕ) → result ≤ s → s < 64 → link_at self.now.links s ≡ None }
        ensures last { 0 < result → IsSome (link_at self.now.links (result - 1)) }
        ensures within { result ≤ 64 }
    {
        slots_end(&self.links)
    }

    /// Loc-RIB in rising order.
    pub fn rows(&self) -> Rows<'_, A, B>
        ensures all { result ≡ rows_of self.now.book }
        ensures rising { IsStrictlySortedBy prefix_cmp (keys_of result) }
    {
        self.routing.ribs().rows()
    }

    /// The rows of Loc-RIB above the given prefix, or all, in rising order.
    pub fn rows_after(&self, after: Option<Prefix>) -> Rows<'_, A, B>
        ensures all { result ≡ all_after after (rows_of self.now.book) }
        ensures rising { IsStrictlySortedBy prefix_cmp (keys_of result) }
    {
        self.routing.ribs().rows_after(after)
    }

    /// The routes of a slot in rising order.
    pub fn routes_of(&self, slot: u8) -> SlotRoutes<'_, A, B>
        ensures all { result ≡ routes_of slot self.now.adj_in }
        ensures rising { IsStrictlySortedBy prefix_cmp (keys_of result) }
        ensures found { (p : ThePrefix) → lookup (is_prefix p) result ≡ route_at self.now.adj_in slot p }
    {
        self.routing.ribs().routes_of(slot)
    }

    /// The routes of a slot to prefixes above the given one, or all, in rising order.
    pub fn routes_after(&self, slot: u8, after: Option<Prefix>) -> SlotRoutes<'_, A, B>
        ensures all { result ≡ all_after after (routes_of slot self.now.adj_in) }
        ensures rising { IsStrictlySortedBy prefix_cmp (keys_of result) }
    {
        self.routing.ribs().routes_after(slot, after)
    }

    /// How often a best route was chosen so far, up to 2^64 - 1.
    pub fn chosen(&self) -> u64
        ensures { result ≡ self.now.chosen }
    {
        self.routing.chosen()
    }

    /// Loc-RIB has the best of each prefix's candidates.
    pub fn is_chosen(&self)
        ensures best { (p : ThePrefix) → IsBestOf (λ s. offer_at self.now.book s p) (best_at (rows_of self.now.book) p) }
        ensures rising { IsStrictlySortedBy prefix_cmp (keys_of (rows_of self.now.book)) }
    {
        self.routing.ribs().is_chosen();
    }

    /// The prefixes of which a slot's peer doesn't hold just what is exported to it, or for which it has asked again, in
    /// rising order; none where its session isn't Established.
    pub fn waiting(&self, slot: u8) -> WaitingPrefixes<'_, A, B>
        ensures all { result ≡ waiting_at self.now.conf (rows_of self.now.book) self.now.adj_in (option_map (export_peer_of self.now.conf slot) (peer_at self.now.conf slot)) (link_at self.now.links slot) }
        ensures rising { IsStrictlySortedBy prefix_cmp result }
    {
        WaitingPrefixes::new(
            &self.conf,
            &self.routing,
            export_peer(&self.conf, slot),
            slot,
            self.links.get(&slot),
        )
    }

    /// What the export to a slot's peer asks of it.
    pub fn export_peer(&self, slot: u8) -> Option<ExportPeer>
        ensures { result ≡ option_map (export_peer_of self.now.conf slot) (peer_at self.now.conf slot) }
    {
        export_peer(&self.conf, slot)
    }

    /// What is exported of a prefix: the best route, where there is one and it is exported to this peer, by its export
    /// policy. Answers false where nothing is; `octets` are then empty.
    pub fn export(&self, peer: &ExportPeer, prefix: Prefix, octets: &mut Octets) -> bool
        ensures tells { Tells result octets.new.items (export_in self.now.conf (best_at (rows_of self.now.book)) self.now.adj_in peer.now prefix) }
        ensures small { OnTrue result (length octets.new.items ≤ most_attributes) }
        // The peer finds no fault with it.
        ensures accepted { OnTrue result (IsAccepted (rows_of self.now.book) self.now.adj_in peer.now prefix octets.new.items) }
    {
        export(&self.conf, self.routing.ribs(), peer, prefix, octets)
    }

    /// The payloads that are loaded, for what follows a cache. `payloads_changed` then has the change.
    pub fn payloads_mut(&mut self) -> &mut PayloadTrie<A>
        ensures* writes_back { sem 𝓛 (lends_payloads A.row B.row A.Allocator A.Clone B.Book self.entry result) }
        ensures payloads { result.now ≡ self.old.payloads }
    {
        &mut self.payloads
    }

    /// Makes the candidates again of the routes that a change of the loaded payloads concerns, behind the local exceptions, and
    /// chooses the best route of each of their prefixes again, once.
    pub fn payloads_changed(&mut self, change: &Delta<A>)
        ensures made { AreMadeWhere (tables_in self.new) (is_within (stretches (changed_prefixes (behind self.old.conf.exceptions change.now)))) (offer_at self.old.book) (offer_at self.new.book) }
        ensures chosen { OncePerPrefix (λ p. (is_within (stretches (changed_prefixes (behind self.old.conf.exceptions change.now))) p ≡ true) × HasRoute self.old.adj_in p) self.old.chosen self.new.chosen }
        ensures rest { self.new ≡ record self.old { book = self.new.book; chosen = self.new.chosen } }
        ensures payloads { self.new.payloads ≡ self.old.payloads }
        ensures rises { self.old.chosen ≤ self.new.chosen }
    {
        choose_touched(
            &self.conf,
            &self.payloads,
            &self.links,
            &mut self.routing,
            change,
        );
    }
}
