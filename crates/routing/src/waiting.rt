//! The prefixes that wait: a peer doesn't hold of them just what is exported to it, or has asked for them again.
ghost use Rattle.std.specs.Prelude.{◌≡◌, ◌<◌, ◌||◌, not, [], unwrap_or};
ghost use Rattle.std.specs.Option.{IsSome, option_map};
ghost use Rattle.std.specs.Iterator.{YieldsFirst, item_count};
ghost use Rattle.std.specs.List.Sorted.{IsStrictlySortedBy};
ghost use Rattle.std.specs.Map.{keys_of};
ghost use Rattle.decision.specs.BookContents.{rows_of};
ghost use Rattle.net_prefix.specs.PrefixOrder.{prefix_cmp};
ghost use Rattle.rib_out.specs.Held.{asked_at, held_at};
ghost use Rattle.routing.specs.Export.{export_in};
ghost use Rattle.routing.specs.Sent.{linked_as};
ghost use Rattle.routing.specs.Tables.{best_at};
ghost use Rattle.routing.specs.Waiting.{differing, first_of, is_same, known_prefixes, waiting_at};

use crate::exports::{Octets, export};
use crate::routing::Routing;
use bgp_conf::Conf;
use bgp_fsm::State;
use bgp_peer::Peer;
use decision::{Book, PlainBook};
use export_rules::ExportPeer;
use loc_rib::{AdjOut, HeldRoutes, Ribs, Rows};
use net_prefix::Prefix;
use std::alloc::{Allocator, Global};
use std::cmp::Ordering;
use std::marker::Model;

/// The prefixes of which a slot's peer doesn't hold just what is exported to it, or for which it has asked again, in rising
/// order.
#[derive(Drop)]
pub struct WaitingPrefixes<'a, A: Allocator + Clone = Global, B: Book<A> = PlainBook<A>> {
    waiting: Option<Waiting<'a, A, B>>,
}

impl<'a, A: Allocator + Clone, B: Book<A>> Model for WaitingPrefixes<'a, A, B> {
    ghost use Rattle.std.specs.Prelude.{List, [], unwrap_or};
    ghost use Rattle.net_prefix.specs.declared.prefix.Prefix.{Prefix};

    ghost Value = { List Prefix };

    ghost view = { λ prefixes. unwrap_or prefixes.waiting [] };
}

impl<'a, A: Allocator + Clone, B: Book<A>> WaitingPrefixes<'a, A, B> {
    /// The prefixes that wait for a slot's peer: none where it isn't configured, or its session isn't Established.
    pub fn new(
        conf: &'a Conf<A>,
        routing: &'a Routing<A, B>,
        export_peer: Option<ExportPeer>,
        slot: u8,
        peer: Option<&Peer<A>>,
    ) -> Self
        requires { IsSome peer → slot < 64 }
        ensures all { result ≡ waiting_at conf.now (rows_of routing.now.book) routing.now.adj_in export_peer (option_map (λ p. linked_as routing.now.sent slot p.now) peer.entry) }
        ensures rising { IsStrictlySortedBy prefix_cmp result }
    {
        WaitingPrefixes {
            waiting: walk(conf, routing, export_peer, slot, peer),
        }
    }
}

// The walk over the known prefixes, where there is an Established peer.
fn walk<'a, A: Allocator + Clone, B: Book<A>>(
    conf: &'a Conf<A>,
    routing: &'a Routing<A, B>,
    export_peer: Option<ExportPeer>,
    slot: u8,
    peer: Option<&Peer<A>>,
) -> Option<Waiting<'a, A, B>>
    requires { IsSome peer → slot < 64 }
    ensures all { unwrap_or result [] ≡ waiting_at conf.now (rows_of routing.now.book) routing.now.adj_in export_peer (option_map (λ p. linked_as routing.now.sent slot p.now) peer.entry) }
    ensures rising { IsStrictlySortedBy prefix_cmp (unwrap_or result []) }
{
    let export_peer = export_peer?;
    let peer = peer?;
    if peer.state() != State::Established {
        return None;
    }
    Some(Waiting::new(conf, &routing.ribs, routing.held(slot), export_peer))
}

impl<A: Allocator + Clone, B: Book<A>> Iterator for WaitingPrefixes<'_, A, B> {
    type Item = Prefix;

    ghost next_gives = { YieldsFirst (λ rest. rest) };

    ghost remaining = { item_count (λ rest. rest) };

    fn next(&mut self) -> Option<Prefix> {
        match &mut self.waiting {
            Some(waiting) => waiting.next(),
            None => None,
        }
    }
}

// The known prefixes of which an Established peer doesn't hold just what is exported to it, or for which it has asked again.
#[derive(Drop)]
struct Waiting<'a, A: Allocator + Clone, B: Book<A>> {
    conf: &'a Conf<A>,
    ribs: &'a Ribs<A, B>,
    adj_out: AdjOut<'a, A, B>,
    peer: ExportPeer,
    known: KnownPrefixes<'a, A, B>,
}

impl<'a, A: Allocator + Clone, B: Book<A>> Model for Waiting<'a, A, B> {
    ghost use Rattle.decision.specs.BookContents.{rows_of};
    ghost use Rattle.std.specs.Prelude.{List};
    ghost use Rattle.net_prefix.specs.declared.prefix.Prefix.{Prefix};
    ghost use Rattle.routing.specs.Export.{export_in};
    ghost use Rattle.routing.specs.Tables.{best_at};
    ghost use Rattle.routing.specs.Waiting.{differing};

    ghost Value = { List Prefix };

    ghost view = { λ w. differing w.adj_out (export_in w.conf.now (best_at (rows_of w.ribs.now.book)) w.ribs.now.adj_in w.peer) w.known };
}

impl<'a, A: Allocator + Clone, B: Book<A>> Waiting<'a, A, B> {
    // The prefixes that wait for the peer of this slot.
    fn new(
        conf: &'a Conf<A>,
        ribs: &'a Ribs<A, B>,
        adj_out: AdjOut<'a, A, B>,
        peer: ExportPeer,
    ) -> Self
        ensures waiting { result ≡ differing adj_out.entry (export_in conf.now (best_at (rows_of ribs.now.book)) ribs.now.adj_in peer) (known_prefixes (rows_of ribs.now.book) adj_out.entry) }
        ensures rising { IsStrictlySortedBy prefix_cmp result }
    {
        let known = KnownPrefixes::new(ribs, &adj_out);
        Waiting {
            conf,
            ribs,
            adj_out,
            peer,
            known,
        }
    }
}

impl<A: Allocator + Clone, B: Book<A>> Iterator for Waiting<'_, A, B> {
    type Item = Prefix;

    ghost next_gives = { YieldsFirst (λ rest. rest) };

    ghost remaining = { item_count (λ rest. rest) };

    fn next(&mut self) -> Option<Prefix> {
        let mut octets = Octets::new();
        while let Some(prefix) = self.known.next() {
            if is_waiting(
                self.conf,
                self.ribs,
                &self.adj_out,
                &self.peer,
                prefix,
                &mut octets,
            ) {
                return Some(prefix);
            }
        }
        None
    }
}

// Whether the peer doesn't hold of a prefix just what is exported to it, or has asked for it again.
fn is_waiting<A: Allocator + Clone, B: Book<A>>(
    conf: &Conf<A>,
    ribs: &Ribs<A, B>,
    adj_out: &AdjOut<'_, A, B>,
    peer: &ExportPeer,
    prefix: Prefix,
    octets: &mut Octets,
) -> bool
    ensures { result ≡ (not (is_same (held_at adj_out.now prefix) (export_in conf.now (best_at (rows_of ribs.now.book)) ribs.now.adj_in peer.now prefix)) || asked_at adj_out.now prefix) }
{
    if export(conf, ribs, peer, prefix, octets) {
        !adj_out.holds(prefix, octets.as_slice()) || adj_out.is_asked(prefix)
    } else {
        adj_out.is_held(prefix)
    }
}

// The prefixes of Loc-RIB and those that a peer holds, in rising order, each once.
#[derive(Drop)]
struct KnownPrefixes<'a, A: Allocator + Clone, B: Book<A>> {
    // The first of each, and what follows it.
    best: Option<Prefix>,
    later_best: Rows<'a, A, B>,
    held: Option<Prefix>,
    later_held: HeldRoutes<'a, A, B>,
}

impl<'a, A: Allocator + Clone, B: Book<A>> Model for KnownPrefixes<'a, A, B> {
    ghost use Rattle.std.specs.Prelude.{List, true};
    ghost use Rattle.std.specs.Map.{keys_of};
    ghost use Rattle.std.specs.Set.{sorted_merge};
    ghost use Rattle.net_prefix.specs.declared.prefix.Prefix.{Prefix};
    ghost use Rattle.net_prefix.specs.PrefixOrder.{prefix_cmp};
    ghost use Rattle.routing.specs.Waiting.{first_of};

    ghost Value = { List Prefix };

    ghost view = { λ known. sorted_merge prefix_cmp true (first_of known.best (keys_of known.later_best)) (first_of known.held (keys_of known.later_held)) };
}

impl<'a, A: Allocator + Clone, B: Book<A>> KnownPrefixes<'a, A, B> {
    fn new(ribs: &'a Ribs<A, B>, adj_out: &AdjOut<'a, A, B>) -> Self
        ensures all { result ≡ known_prefixes (rows_of ribs.now.book) adj_out.now }
        ensures rising { IsStrictlySortedBy prefix_cmp result }
    {
        let mut later_best = ribs.rows();
        let mut later_held = adj_out.held();
        KnownPrefixes {
            best: next_best(&mut later_best),
            later_best,
            held: next_held(&mut later_held),
            later_held,
        }
    }
}

impl<A: Allocator + Clone, B: Book<A>> Iterator for KnownPrefixes<'_, A, B> {
    type Item = Prefix;

    ghost next_gives = { YieldsFirst (λ rest. rest) };

    ghost remaining = { item_count (λ rest. rest) };

    fn next(&mut self) -> Option<Prefix> {
        match (self.best, self.held) {
            (None, None) => None,
            (Some(best), None) => {
                self.best = next_best(&mut self.later_best);
                Some(best)
            }
            (None, Some(held)) => {
                self.held = next_held(&mut self.later_held);
                Some(held)
            }
            (Some(best), Some(held)) => match best.cmp(&held) {
                Ordering::Less => {
                    self.best = next_best(&mut self.later_best);
                    Some(best)
                }
                Ordering::Equal => {
                    self.best = next_best(&mut self.later_best);
                    self.held = next_held(&mut self.later_held);
                    Some(best)
                }
                Ordering::Greater => {
                    self.held = next_held(&mut self.later_held);
                    Some(held)
                }
            },
        }
    }
}

// The next prefix of Loc-RIB.
fn next_best<A: Allocator + Clone, B: Book<A>>(routes: &mut Rows<'_, A, B>) -> Option<Prefix>
    ensures { keys_of routes.old ≡ first_of result (keys_of routes.new) }
{
    match routes.next() {
        Some((prefix, _)) => Some(prefix),
        None => None,
    }
}

// The next prefix that the peer holds.
fn next_held<A: Allocator + Clone, B: Book<A>>(routes: &mut HeldRoutes<'_, A, B>) -> Option<Prefix>
    ensures { keys_of routes.old ≡ first_of result (keys_of routes.new) }
{
    match routes.next() {
        Some((prefix, _)) => Some(prefix),
        None => None,
    }
}
