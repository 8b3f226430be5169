//! The views of a speaker: its sessions and tables, as operators see them.
ghost use Rattle.std.specs.Prelude.{◌≡◌, ◌≤◌, ◌<◌, ◌+◌, ◌-◌, ◌↔◌, [], Contains, length, map, unwrap_or};
ghost use Rattle.std.specs.Option.{option_map};
ghost use Rattle.std.specs.Iterator.{YieldsFirst, YieldsFirstBy, item_count};
ghost use Rattle.std.specs.List.Sorted.{IsStrictlySortedBy};
ghost use Rattle.std.specs.Map.{keys_of, lookup};
ghost use Rattle.bgp_peer.specs.SentMessages.{ring_of};
ghost use Rattle.net_prefix.specs.PayloadSets.{IsPayloadSet};
ghost use Rattle.net_prefix.specs.PrefixOrder.{prefix_cmp};
ghost use Rattle.net_prefix.specs.declared.prefix.Prefix.{Prefix as ThePrefix};
ghost use Rattle.rib_out.specs.Held.{is_prefix};
ghost use Rattle.runs.specs.AdjRibIn.{route};
ghost use Rattle.decision.specs.declared.candidate.Candidate.{Candidate as TheCandidate};
ghost use Rattle.runs.specs.Agreement.{Agrees, tables_after};
ghost use Rattle.runs.specs.Choices.{choices_in};
ghost use Rattle.routing.specs.LocRib.{IsBest};
ghost use Rattle.runs.specs.Held.{held};
ghost use Rattle.runs.specs.FirstRefusal.{cache_transport_after, cache_transport_of};
ghost use Rattle.runs.specs.Runs.{Run, history, payloads_after};
ghost use Rattle.runs.specs.declared.config.Config.{Config};
ghost use Rattle.runs.specs.SpeakerState.{in_force_of, tables_of};
ghost use Rattle.routing.specs.Tables.{configured_session, link_at, peer_route_at, session_at};
ghost use Rattle.speaker.specs.Shown.{cache_state_after, cache_state_of, held_by, received_by, shown_of, transport_at, transport_or_none};
ghost use Rattle.runs.specs.Waiting.{IsWaitingIn, waiting_of};
ghost use Rattle.bgp_peer.specs.PeerLimits.{ring_octets, room_for_update};

use crate::payloads::Payloads;
use crate::step::Speaker;
use bgp_attr::Attrs;
use bgp_fsm::State;
use decision::{Book, LOCAL_SLOT};
use holdings::SentAttributes;
use live_book::LiveBook;
use loc_rib::{Rows, SlotRoutes};
use net_prefix::{Prefix, Transport, Vrp};
use origin_valid::Validity;
use routing::WaitingPrefixes;
use rtr_client::ClientState;
use std::alloc::{Allocator, Global};
use std::marker::Model;

/// A row of Loc-RIB: a prefix, the slot of its best route, that route's state (RFC 6811 section 2) and its degree of
/// preference.
#[derive(Clone, Copy, Debug, PartialEq, Eq)]
pub struct BestRoute {
    pub prefix: Prefix,
    pub slot: u8,
    pub validity: Validity,
    pub degree: u64,
}

/// Loc-RIB in rising order.
#[derive(Drop)]
pub struct LocRib<'a, A: Allocator + Clone = Global, B: Book<A> = LiveBook<A>> {
    pub(crate) rows: Rows<'a, A, B>,
}

impl<'a, A: Allocator + Clone, B: Book<A>> Model for LocRib<'a, A, B> {
    ghost use Rattle.std.specs.Prelude.{List};
    ghost use Rattle.decision.specs.declared.candidate.Candidate.{Candidate};
    ghost use Rattle.net_prefix.specs.declared.prefix.Prefix.{Prefix};

    ghost Value = { List (Prefix × Candidate) };

    ghost view = { λ routes. routes.rows };
}

impl<A: Allocator + Clone, B: Book<A>> Iterator for LocRib<'_, A, B> {
    type Item = BestRoute;

    ghost next_gives = { YieldsFirst (λ rest. map shown_of rest) };

    ghost remaining = { item_count (λ rest. map shown_of rest) };

    fn next(&mut self) -> Option<BestRoute> {
        let (prefix, route) = self.rows.next()?;
        Some(BestRoute {
            prefix,
            slot: route.slot,
            validity: route.validity,
            degree: route.degree,
        })
    }
}

/// The routes that a slot's peer has announced and not taken back, in rising order: each prefix with its attributes.
#[derive(Drop)]
pub struct AdjRibIn<'a, A: Allocator + Clone = Global, B: Book<A> = LiveBook<A>> {
    pub(crate) routes: Option<SlotRoutes<'a, A, B>>,
}

impl<'a, A: Allocator + Clone, B: Book<A>> Model for AdjRibIn<'a, A, B> {
    ghost use Rattle.std.specs.Prelude.{List, [], unwrap_or};
    ghost use Rattle.bgp_attr.specs.PathAttributes.{PathAttributes};
    ghost use Rattle.net_prefix.specs.declared.prefix.Prefix.{Prefix};

    ghost Value = { List (Prefix × PathAttributes) };

    ghost view = { λ routes. unwrap_or routes.routes [] };
}

impl<'a, A: Allocator + Clone, B: Book<A>> Iterator for AdjRibIn<'a, A, B> {
    type Item = (Prefix, &'a Attrs<A>);

    ghost next_gives = { YieldsFirstBy (λ item. (item.0, item.1.now)) (λ rest. rest) };

    ghost remaining = { item_count (λ rest. rest) };

    fn next(&mut self) -> Option<(Prefix, &'a Attrs<A>)> {
        match &mut self.routes {
            Some(routes) => routes.next(),
            None => None,
        }
    }
}

/// What a slot's peer was sent and was not taken back, in rising order: each prefix with its attributes as they were
/// sent.
#[derive(Drop)]
pub struct HeldRoutes<'a, A: Allocator + Clone = Global, B: Book<A> = LiveBook<A>> {
    pub(crate) held: Option<loc_rib::HeldRoutes<'a, A, B>>,
}

impl<'a, A: Allocator + Clone, B: Book<A>> Model for HeldRoutes<'a, A, B> {
    ghost use Rattle.std.specs.Prelude.{List, ℕ};
    ghost use Rattle.net_prefix.specs.declared.prefix.Prefix.{Prefix};
    ghost use Rattle.speaker.specs.Shown.{listed};

    ghost Value = { List (Prefix × List ℕ) };

    ghost view = { λ routes. listed routes.held };
}

impl<'a, A: Allocator + Clone, B: Book<A>> Iterator for HeldRoutes<'a, A, B> {
    type Item = (Prefix, &'a SentAttributes<A>);

    ghost next_gives = { YieldsFirstBy (λ item. (item.0, item.1.now)) (λ rest. rest) };

    ghost remaining = { item_count (λ rest. rest) };

    fn next(&mut self) -> Option<(Prefix, &'a SentAttributes<A>)> {
        match &mut self.held {
            Some(held) => held.next(),
            None => None,
        }
    }
}

impl<A: Allocator + Clone, B: Book<A>> Speaker<A, B> {
    /// The state of a slot's session; none where the slot isn't configured.
    pub fn session(&self, slot: u8) -> Option<State>
        ensures kept { result ≡ option_map (λ s. s.state) (configured_session (tables_of self.now) slot) }
        ensures agrees { (config : Config) (r : Run) → Agrees config r self.now → result ≡ option_map (λ s. s.state) (configured_session (tables_after config r) slot) }
    {
        self.state_of(slot)
    }

    fn state_of(&self, slot: u8) -> Option<State>
        ensures { result ≡ option_map (λ s. s.state) (configured_session (tables_of self.now) slot) }
    {
        match self.routes.conf().peer(slot) {
            Some(_) => self.state_at(slot),
            None => None,
        }
    }

    // The state of the session of a slot that is there.
    fn state_at(&self, slot: u8) -> Option<State>
        ensures { result ≡ option_map (λ s. s.state) (session_at self.now.links slot) }
    {
        match self.routes.peer(slot) {
            Some(found) => Some(found.state()),
            None => None,
        }
    }

    /// What the transport of a slot is asked to do; `Transport::None` where the slot isn't there.
    pub fn transport(&self, slot: u8) -> Transport
        ensures kept { result ≡ transport_at (session_at self.now.links slot) }
        ensures agrees { (config : Config) (r : Run) → Agrees config r self.now → result ≡ transport_at ((tables_after config r).sessions slot) }
    {
        self.transport_to(slot)
    }

    fn transport_to(&self, slot: u8) -> Transport
        ensures { result ≡ transport_at (session_at self.now.links slot) }
    {
        match self.routes.peer(slot) {
            Some(found) => found.transport(),
            None => Transport::None,
        }
    }

    /// Loc-RIB in rising order.
    pub fn loc_rib(&self) -> LocRib<'_, A, B>
        // Each prefix once.
        ensures rising { IsStrictlySortedBy prefix_cmp (keys_of result) }
        ensures kept { result ≡ self.now.loc_rib }
        ensures agrees { (config : Config) (r : Run) (prefix : ThePrefix) (c : TheCandidate) → Agrees config r self.now
            → Contains result (prefix, c) ↔ IsBest (tables_after config r) prefix c }
    {
        LocRib {
            rows: self.routes.rows(),
        }
    }

    /// How often a best route was chosen in the last `step` or `take` that wasn't refused. Of all calls together up to
    /// 2^64 - 1 choices are counted.
    pub fn chosen(&self) -> u64
        ensures kept { result ≡ self.now.chosen - self.now.chosen_before }
        // As often at most as what that call did allows.
        ensures agrees { (config : Config) (r : Run) → Agrees config r self.now → result ≤ choices_in config r }
    {
        self.routes.chosen().saturating_sub(self.chosen_before)
    }

    /// The payloads in force in rising order.
    pub fn payloads(&self) -> Payloads<'_, A>
        // Each once.
        ensures rising { IsPayloadSet result }
        ensures kept { result ≡ in_force_of self.now }
        ensures agrees { (config : Config) (r : Run) → Agrees config r self.now → result ≡ payloads_after config r }
    {
        self.payload_rows()
    }

    fn payload_rows(&self) -> Payloads<'_, A>
        ensures all { result ≡ in_force_of self.now }
        ensures rising { IsPayloadSet result }
    {
        self.payloads_behind(None)
    }

    /// The state of the cache session; none where there is no such session.
    pub fn cache_session(&self) -> Option<ClientState>
        ensures kept { result ≡ cache_state_of self.now.cache }
        ensures agrees { (config : Config) (r : Run) → Agrees config r self.now → result ≡ cache_state_after config r }
    {
        self.cache_state()
    }

    fn cache_state(&self) -> Option<ClientState>
        ensures { result ≡ cache_state_of self.now.cache }
    {
        match &self.cache {
            Some(session) => Some(session.state()),
            None => None,
        }
    }

    /// What the transport of the cache session is asked to do; `Transport::None` where there is no such session.
    pub fn cache_transport(&self) -> Transport
        ensures kept { result ≡ transport_or_none (cache_transport_of self.now) }
        ensures agrees { (config : Config) (r : Run) → Agrees config r self.now → result ≡ transport_or_none (cache_transport_after config r) }
    {
        match self.transport_to_cache() {
            Some(transport) => transport,
            None => Transport::None,
        }
    }

    /// The routes that a slot's peer has announced and not taken back, in rising order; none where the slot
    /// isn't configured.
    pub fn adj_in(&self, slot: u8) -> AdjRibIn<'_, A, B>
        // Each prefix once.
        ensures rising { IsStrictlySortedBy prefix_cmp (keys_of result) }
        ensures kept { result ≡ received_by slot self.now.adj_in }
        ensures agrees { (config : Config) (r : Run) (prefix : ThePrefix) → Agrees config r self.now → lookup (is_prefix prefix) result ≡ route (history config slot r) prefix }
    {
        self.received_rows(slot)
    }

    // No local network came from a peer.
    fn received_rows(&self, slot: u8) -> AdjRibIn<'_, A, B>
        ensures all { result ≡ received_by slot self.now.adj_in }
        ensures rising { IsStrictlySortedBy prefix_cmp (keys_of result) }
        ensures found { (p : ThePrefix) → lookup (is_prefix p) result ≡ peer_route_at self.now.adj_in slot p }
    {
        if slot == LOCAL_SLOT {
            return AdjRibIn { routes: None };
        }
        AdjRibIn {
            routes: Some(self.routes.routes_of(slot)),
        }
    }

    /// What a slot's peer holds of what it was sent, in rising order; nothing where the slot isn't configured.
    pub fn held(&self, slot: u8) -> HeldRoutes<'_, A, B>
        // Each prefix once.
        ensures rising { IsStrictlySortedBy prefix_cmp (keys_of result) }
        ensures kept { result ≡ held_by (link_at self.now.links slot) }
        ensures agrees { (config : Config) (r : Run) (prefix : ThePrefix) → Agrees config r self.now → lookup (is_prefix prefix) result ≡ held (history config slot r) prefix }
    {
        self.held_rows(slot)
    }

    fn held_rows(&self, slot: u8) -> HeldRoutes<'_, A, B>
        ensures all { result ≡ held_by (link_at self.now.links slot) }
        ensures rising { IsStrictlySortedBy prefix_cmp (keys_of result) }
    {
        match self.routes.adj_out(slot) {
            Some(found) => HeldRoutes {
                held: Some(found.held()),
            },
            None => HeldRoutes { held: None },
        }
    }

    /// The prefixes of which a slot's peer doesn't hold just what is exported to it, in rising order; none
    /// where its session isn't Established.
    pub fn waiting(&self, slot: u8) -> WaitingPrefixes<'_, A, B>
        // Each once.
        ensures rising { IsStrictlySortedBy prefix_cmp result }
        ensures kept { result ≡ waiting_of self.now slot }
        ensures agrees { (config : Config) (r : Run) (prefix : ThePrefix) → Agrees config r self.now → Contains result prefix ↔ IsWaitingIn config r slot prefix }
        // Where 8,192 octets of the ring are free, nothing waits.
        ensures settled { (config : Config) (r : Run) → Agrees config r self.now → length (ring_of (history config slot r)) + room_for_update ≤ ring_octets → result ≡ [] }
    {
        self.waiting_rows(slot)
    }

    fn waiting_rows(&self, slot: u8) -> WaitingPrefixes<'_, A, B>
        ensures all { result ≡ waiting_of self.now slot }
        ensures rising { IsStrictlySortedBy prefix_cmp result }
    {
        self.routes.waiting(slot)
    }
}
