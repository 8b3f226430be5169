//! The attributes that a peer is sent.
ghost use Rattle.std.specs.Prelude.{◌≡◌, ◌<◌, ◌≤◌, [], true, false};
ghost use Rattle.std.specs.Bool.{OnFalse, OnTrue};
ghost use Rattle.std.specs.Option.{option_and_then, option_map};
ghost use Rattle.arrayvec.specs.ArrayVec.{array_vec_len};
ghost use Rattle.bgp_attr.specs.AsPath.{prepended};
ghost use Rattle.bgp_attr.specs.AttributeSpelling.{attributes_spelling};
ghost use Rattle.bgp_attr.specs.PathAttributes.{PathAttributes};
ghost use Rattle.bgp_attr.specs.PeerKinds.{kind_between};
ghost use Rattle.bgp_attr.specs.TravellingAttributes.{AreTravelling, MayAllTravel};
ghost use Rattle.bgp_attr.specs.Written.{attributes_of, path_of};
ghost use Rattle.export_rules.specs.Export.{AreAccepted, AreNumbers, IsComplete, IsSender, Tells, export_at, fitting, in_front, is_from_inside, is_internal, is_kept_from, is_local, local_pref_of, med_set, most_attributes};
ghost use Rattle.export_rules.specs.Rewriting.{next_hop_set, rewritten, set_or, written};
ghost use Rattle.export_rules.specs.declared.export.Rewrite.TheVariants.{External, Internal};

use arrayvec::ArrayVec;
use bgp_attr::{Attrs, AttrsToWrite, PrependedPath, prepend, write_attrs};
use decision::{Candidate, LOCAL_SLOT};
use net_prefix::Asn;
use policy::Action;
use std::alloc::Allocator;

/// The octets of attributes with which an UPDATE of one prefix fits in a message:
/// 4,096 without 19 of the header, 4 of the two lengths, and 5 of the prefix (RFC 4271 sections 4.1 and 4.3).
pub const MAX_EXPORTED_ATTRIBUTES: usize = 4068;

/// The limit is what a message of one prefix holds.
pub fn limit_is_of_a_message()
    ensures { MAX_EXPORTED_ATTRIBUTES ≡ most_attributes }
{}

// Own choice: the LOCAL_PREF of a local network, towards internal peers.
const LOCAL_NETWORK_PREF: u32 = 100;

/// The peer that a route is exported to.
#[derive(Clone, Copy, Debug, PartialEq, Eq)]
pub struct ExportPeer {
    /// The slot of the peer.
    pub slot: u8,
    /// The AS of this side.
    pub own: Asn,
    /// The AS of the peer.
    pub asn: Asn,
    /// The address of this side of the connection.
    pub local: u32,
}

impl ExportPeer {
    // Whether the peer is in the AS of this side.
    fn is_internal(&self) -> bool
        ensures { result ≡ is_internal self.now }
    {
        self.asn.0 == self.own.0
    }

    // Whether the peer isn't told the route: it announced it, or both it and the one that announced it are internal.
    fn is_kept_from(&self, route: &Candidate) -> bool
        ensures { result ≡ is_kept_from route.now self.now }
    {
        route.slot == self.slot || self.is_internal() && is_from_inside(route)
    }
}

// Whether the route is a local network.
fn is_local(route: &Candidate) -> bool
    ensures { result ≡ is_local route.now }
{
    route.slot == LOCAL_SLOT
}

// Whether an internal peer announced the route.
fn is_from_inside(route: &Candidate) -> bool
    ensures { result ≡ is_from_inside route.now }
{
    !(route.external || is_local(route))
}

/// How the attributes of a route are changed on the way to a peer (RFC 4271 section 5.1).
#[derive(Clone, Copy, Debug, PartialEq, Eq)]
pub enum Rewrite {
    /// To a peer in another AS.
    External {
        /// The AS that is put in front of the path.
        own: Asn,
        /// How often it is put there.
        times: u16,
        /// NEXT_HOP.
        local: u32,
        /// MULTI_EXIT_DISC, where a rule sets one.
        med: Option<u32>,
    },
    /// To a peer in the own AS, which is told the path as it was received.
    Internal {
        /// NEXT_HOP, where it isn't told as it was received.
        next_hop: Option<u32>,
        /// MULTI_EXIT_DISC, where it isn't told as it was received.
        med: Option<u32>,
        /// LOCAL_PREF.
        local_pref: u32,
    },
}

/// How the attributes of the route are changed on the way to the peer by this action of its export policy; none where the
/// route doesn't go there.
// Own choice: a route doesn't go back to the peer that it came from.
pub fn rewrite_of(route: &Candidate, peer: &ExportPeer, action: Action) -> Option<Rewrite>
    ensures { (attrs : PathAttributes) → option_and_then (λ r. written r attrs) result ≡ export_at route.now attrs peer.now action }
{
    if peer.is_kept_from(route) {
        return None;
    }
    match action {
        Action::Reject => None,
        Action::Accept { med, prepend, .. } => Some(if peer.is_internal() {
            Rewrite::Internal {
                next_hop: next_hop_set(route, peer),
                med,
                local_pref: local_pref_of(route),
            }
        } else {
            Rewrite::External {
                own: peer.own,
                times: in_front(prepend),
                local: peer.local,
                med,
            }
        }),
    }
}

/// Writes the attributes with which the route goes to the peer by this action of its export policy, and answers whether it
/// goes there. `out` is empty where it doesn't.
// Own choice: a route doesn't go back to the peer that it came from, nor goes what would be too long for a message.
pub fn export_of<A: Allocator>(
    route: &Candidate,
    attrs: &Attrs<A>,
    peer: &ExportPeer,
    action: Action,
    out: &mut ArrayVec<u8, 4096>,
) -> bool
    ensures exported { Tells result out.new.items (export_at route.now attrs.now peer.now action) }
    ensures some { OnTrue result (0 < array_vec_len out.new) }
    ensures back { route.now.slot ≡ peer.now.slot → result ≡ false }
    ensures inside { is_internal peer.now ≡ true → is_from_inside route.now ≡ true → result ≡ false }
    ensures rejected { action ≡ Action.Reject → result ≡ false }
    ensures small { OnTrue result (array_vec_len out.new ≤ most_attributes) }
    ensures nothing { OnFalse result (out.new.items ≡ []) }
    // Whatever came with the route, each attribute is one that may go on.
    ensures travelling { OnTrue result (AreTravelling out.new.items) }
    // The peer finds no fault with it.
    ensures accepted { OnTrue result (IsSender peer.now → IsComplete route.now attrs.now → AreAccepted (kind_between peer.now.asn peer.now.own) out.new.items) }
{
    let Some(rewrite) = rewrite_of(route, peer, action) else {
        out.clear();
        return false;
    };
    attrs.is_sound();
    are_numbers(peer, action);
    rewrite.write(attrs, out)
}

// What the peer and the action say is of four octets.
fn are_numbers(peer: &ExportPeer, action: Action)
    ensures { AreNumbers peer.now (med_set action) }
{
    let _own = peer.own.0;
    let _local = peer.local;
    if let Action::Accept { med, .. } = action {
        let _med = med;
    }
}

impl Rewrite {
    /// Writes the attributes of a route, so changed, in place of what `out` had. Answers false, and leaves `out` empty, where
    /// a message of one prefix doesn't hold them.
    pub fn write<A: Allocator>(&self, attrs: &Attrs<A>, out: &mut ArrayVec<u8, 4096>) -> bool
        ensures written { Tells result out.new.items (written self.now attrs.now) }
        ensures small { OnTrue result (array_vec_len out.new ≤ MAX_EXPORTED_ATTRIBUTES) }
        ensures some { OnTrue result (0 < array_vec_len out.new) }
        ensures travelling { OnTrue result (AreTravelling out.new.items) }
    {
        write_fitting(&self.rewritten(attrs), out)
    }

    // The attributes of a route, so changed.
    fn rewritten<'a, A: Allocator>(&self, attrs: &'a Attrs<A>) -> AttrsToWrite<'a, A>
        ensures value { attributes_of result ≡ rewritten self.now attrs.now }
        ensures travelling { MayAllTravel attrs.now.unknown }
    {
        match *self {
            Rewrite::External {
                own,
                times,
                local,
                med,
            } => exported(attrs, own, times, local, med),
            Rewrite::Internal {
                next_hop,
                med,
                local_pref,
            } => passed_inside(attrs, next_hop, med, local_pref),
        }
    }
}

// How often the own AS is put in front of the path: once, and as often more as the rule says.
fn in_front(more: Option<u8>) -> u16
    ensures { result ≡ in_front more }
{
    match more {
        Some(more) => 1 + u16::from(more),
        None => 1,
    }
}

// Writes attributes that a message of one prefix holds.
fn write_fitting<A: Allocator>(attrs: &AttrsToWrite<'_, A>, out: &mut ArrayVec<u8, 4096>) -> bool
    ensures fitting { Tells result out.new.items (fitting (attributes_spelling (attributes_of attrs.now))) }
    ensures small { OnTrue result (array_vec_len out.new ≤ MAX_EXPORTED_ATTRIBUTES) }
    ensures nothing { OnFalse result (out.new.items ≡ []) }
{
    if !write_attrs(attrs, out) {
        return false;
    }
    if out.len() > MAX_EXPORTED_ATTRIBUTES {
        out.clear();
        return false;
    }
    true
}

// The path with the AS in front so many times.
fn put_in_front<'a, A: Allocator>(
    attrs: &'a Attrs<A>,
    asn: Asn,
    times: u16,
) -> Option<PrependedPath<'a, A>>
    ensures { path_of result ≡ option_map (λ path. prepended path asn times) attrs.now.as_path }
{
    match attrs.as_path() {
        Some(path) => Some(prepend(path, asn, times)),
        None => None,
    }
}

// The attributes as they go on to an external peer (RFC 4271 sections 5.1.2 to 5.1.7).
fn exported<'a, A: Allocator>(
    attrs: &'a Attrs<A>,
    own: Asn,
    times: u16,
    local: u32,
    med: Option<u32>,
) -> AttrsToWrite<'a, A>
    ensures value { attributes_of result ≡ rewritten (External own times local med) attrs.now }
    ensures travelling { MayAllTravel attrs.now.unknown }
{
    AttrsToWrite {
        origin: attrs.origin(),
        as_path: put_in_front(attrs, own, times),
        next_hop: Some(local),
        multi_exit_disc: med,
        local_pref: None,
        atomic_aggregate: attrs.atomic_aggregate(),
        aggregator: attrs.aggregator(),
        unknown: attrs.unknown(),
    }
}

// The attributes as they go on to an internal peer (RFC 4271 sections 5.1.2 to 5.1.7).
fn passed_inside<'a, A: Allocator>(
    attrs: &'a Attrs<A>,
    next_hop: Option<u32>,
    med: Option<u32>,
    local_pref: u32,
) -> AttrsToWrite<'a, A>
    ensures value { attributes_of result ≡ rewritten (Internal next_hop med local_pref) attrs.now }
    ensures travelling { MayAllTravel attrs.now.unknown }
{
    AttrsToWrite {
        origin: attrs.origin(),
        as_path: put_in_front(attrs, Asn(0), 0),
        next_hop: set_or(next_hop, attrs.next_hop()),
        multi_exit_disc: set_or(med, attrs.multi_exit_disc()),
        local_pref: Some(local_pref),
        atomic_aggregate: attrs.atomic_aggregate(),
        aggregator: attrs.aggregator(),
        unknown: attrs.unknown(),
    }
}

// NEXT_HOP that is set inside the own AS: the own address, of a local network.
fn next_hop_set(route: &Candidate, peer: &ExportPeer) -> Option<u32>
    ensures { result ≡ next_hop_set route.now peer.now }
{
    if is_local(route) {
        Some(peer.local)
    } else {
        None
    }
}

// What is set, and else what was received.
fn set_or(set: Option<u32>, received: Option<u32>) -> Option<u32>
    ensures { result ≡ set_or set received }
{
    match set {
        Some(set) => Some(set),
        None => received,
    }
}

// LOCAL_PREF: the degree of preference, and of a local network 100.
fn local_pref_of(route: &Candidate) -> u32
    ensures { result ≡ local_pref_of route.now }
{
    if is_local(route) {
        return LOCAL_NETWORK_PREF;
    }
    route.degree.min(u64::from(u32::MAX)) as u32
}
