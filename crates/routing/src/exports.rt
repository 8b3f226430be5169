//! What is exported of a prefix to a peer (RFC 4271 section 9.1.3).
ghost use Rattle.std.specs.Prelude.{◌≡◌, ◌≤◌, ◌<◌, ◌^◌, length};
ghost use Rattle.std.specs.Bool.{OnTrue};
ghost use Rattle.std.specs.Option.{option_and_then, option_map};
ghost use Rattle.bgp_conf.specs.Configuration.{peer_at};
ghost use Rattle.bgp_conf.specs.PeerPolicies.{export_action};
ghost use Rattle.decision.specs.BookContents.{rows_of};
ghost use Rattle.bgp_attr.specs.PeerKinds.{kind_between};
ghost use Rattle.export_rules.specs.Export.{AreAccepted, IsComplete, IsSender, Tells, most_attributes};
ghost use Rattle.routing.specs.Export.{IsAccepted, chosen_in, export_in, export_peer_of, exported_at, received_from, selected_of};
ghost use Rattle.routing.specs.Places.{rank_of};
ghost use Rattle.routing.specs.Tables.{best_at};

use crate::candidates::origin;
use arrayvec::ArrayVec;
use bgp_attr::Attrs;
use bgp_conf::{Conf, SeenRoute};
use bgp_msg::MAX_MESSAGE;
use decision::{Book, Candidate, LOCAL_SLOT};
use export_rules::{ExportPeer, Rewrite, export_of, rewrite_of};
use loc_rib::Ribs;
use net_prefix::{Asn, Prefix};
use policy::Action;
use std::alloc::Allocator;
use std::marker::Model;
use std::rc::Rc;

/// The octets of one message, or of its attributes.
pub type Octets = ArrayVec<u8, MAX_MESSAGE>;

/// What the export to a slot's peer asks of it.
pub fn export_peer<A: Allocator + Clone>(conf: &Conf<A>, slot: u8) -> Option<ExportPeer>
    ensures { result ≡ option_map (export_peer_of conf.now slot) (peer_at conf.now slot) }
{
    let peer = conf.peer(slot)?;
    Some(ExportPeer {
        slot,
        own: conf.own(),
        asn: peer.asn,
        local: peer.local,
    })
}

/// The best route of a prefix, with the attributes that it came with.
#[derive(Drop)]
pub struct Chosen<'a, A: Allocator> {
    candidate: Candidate,
    attrs: &'a Rc<Attrs<A>, A>,
}

impl<'a, A: Allocator> Model for Chosen<'a, A> {
    ghost use Rattle.bgp_attr.specs.PathAttributes.{PathAttributes};
    ghost use Rattle.decision.specs.declared.candidate.Candidate.{Candidate};

    ghost Value = { Candidate × PathAttributes };

    ghost view = { λ c. (c.candidate, c.attrs.now.value) };
}

/// The best route of a prefix, where there is one.
pub fn chosen_route<A: Allocator + Clone, B: Book<A>>(
    ribs: &Ribs<A, B>,
    prefix: Prefix,
) -> Option<Chosen<'_, A>>
    ensures { result ≡ chosen_in (best_at (rows_of ribs.now.book)) ribs.now.adj_in prefix }
{
    let (candidate, attrs) = ribs.best_route(prefix)?;
    Some(Chosen { candidate, attrs })
}

/// What is exported of a prefix: the best route, where there is one and it is exported to this peer, by its export policy.
/// Answers false where nothing is; `octets` are then empty.
pub fn export<A: Allocator + Clone, B: Book<A>>(
    conf: &Conf<A>,
    ribs: &Ribs<A, B>,
    peer: &ExportPeer,
    prefix: Prefix,
    octets: &mut Octets,
) -> bool
    ensures tells { Tells result octets.new.items (export_in conf.now (best_at (rows_of ribs.now.book)) ribs.now.adj_in peer.now prefix) }
    ensures small { OnTrue result (length octets.new.items ≤ most_attributes) }
    // The peer finds no fault with it.
    ensures accepted { OnTrue result (IsAccepted (rows_of ribs.now.book) ribs.now.adj_in peer.now prefix octets.new.items) }
{
    let Some(chosen) = chosen_route(ribs, prefix) else {
        octets.clear();
        return false;
    };
    export_chosen(conf, &chosen, peer, prefix, octets)
}

/// What is exported of a prefix with this best route. Answers false where nothing is; `octets` are then empty.
pub fn export_chosen<A: Allocator + Clone>(
    conf: &Conf<A>,
    chosen: &Chosen<'_, A>,
    peer: &ExportPeer,
    prefix: Prefix,
    octets: &mut Octets,
) -> bool
    ensures tells { Tells result octets.new.items (exported_at conf.now peer.now prefix chosen.now.0 chosen.now.1) }
    ensures small { OnTrue result (length octets.new.items ≤ most_attributes) }
    ensures accepted { OnTrue result (IsSender peer.now → IsComplete chosen.now.0 chosen.now.1 → AreAccepted (kind_between peer.now.asn peer.now.own) octets.new.items) }
{
    octets.clear();
    let action = export_action(conf, chosen, peer, prefix);
    export_of(&chosen.candidate, chosen.attrs, peer, action, octets)
}

// What the peer's export policy makes of a prefix with this best route.
fn export_action<A: Allocator + Clone>(
    conf: &Conf<A>,
    chosen: &Chosen<'_, A>,
    peer: &ExportPeer,
    prefix: Prefix,
) -> Action
    ensures { result ≡ export_action conf.now peer.now.slot (selected_of conf.now.own prefix chosen.now.0 chosen.now.1) }
{
    let seen = seen(conf.own(), prefix, &chosen.candidate, chosen.attrs);
    conf.export(peer.slot, &seen)
}

/// What is exported of a prefix, before it is written: the attributes of its best route, and how they are changed.
#[derive(Drop)]
pub struct ExportedRoute<'a, A: Allocator> {
    pub attrs: &'a Rc<Attrs<A>, A>,
    pub rewrite: Rewrite,
}

impl<'a, A: Allocator> Model for ExportedRoute<'a, A> {
    ghost use Rattle.std.specs.Prelude.{List, ℕ, Option};
    ghost use Rattle.export_rules.specs.Rewriting.{written};

    ghost Value = { Option (List ℕ) };

    ghost view = { λ e. written e.rewrite e.attrs.now.value };
}

/// What is exported of a prefix to this peer, of which nothing is written yet: none where the best route isn't exported by
/// its policy.
pub fn exported_route<'a, A: Allocator + Clone, B: Book<A>>(
    conf: &Conf<A>,
    ribs: &'a Ribs<A, B>,
    peer: &ExportPeer,
    prefix: Prefix,
) -> Option<ExportedRoute<'a, A>>
    ensures { option_and_then (λ e. e) result ≡ export_in conf.now (best_at (rows_of ribs.now.book)) ribs.now.adj_in peer.now prefix }
{
    let chosen = chosen_route(ribs, prefix)?;
    let action = export_action(conf, &chosen, peer, prefix);
    let rewrite = rewrite_of(&chosen.candidate, peer, action)?;
    Some(ExportedRoute {
        attrs: chosen.attrs,
        rewrite,
    })
}

// The best route of a prefix as export policies see it: as it was received.
fn seen<'a, A: Allocator + Clone>(
    own: Asn,
    prefix: Prefix,
    route: &Candidate,
    attrs: &'a Attrs<A>,
) -> SeenRoute<'a, A>
    ensures { result ≡ selected_of own prefix route.now attrs.now }
{
    SeenRoute {
        prefix,
        state: route.validity,
        origin: origin(own, attrs),
        path: attrs.as_path(),
        from: received_from(route.slot),
    }
}

// The slot whose peer announced a route; none of a local network.
fn received_from(slot: u8) -> Option<u8>
    ensures { result ≡ received_from slot }
{
    if slot == LOCAL_SLOT {
        return None;
    }
    Some(slot)
}

/// The place of a prefix among all prefixes: they are ordered by address, then by length.
pub fn place(prefix: Prefix) -> u64
    ensures place { result ≡ rank_of prefix }
    ensures below { result < 2 ^ 38 }
{
    u64::from(prefix.bits) * 64 + u64::from(prefix.len)
}
