//! The candidates that routes make (RFC 4271 section 9.1).
ghost use Rattle.std.specs.Prelude.{◌≡◌, ◌<◌, ◌≤◌, ◌+◌, List, filter, length, true, MatchOption, Some};
ghost use Rattle.std.specs.Option.{IfSome, IsSome, is_some, option_map};
ghost use Rattle.decision.specs.BookContents.{offer_at};
ghost use Rattle.routing.specs.Tables.{payloads_under, tables};
ghost use Rattle.net_prefix.specs.declared.prefix.Prefix.{Prefix as ThePrefix};
ghost use Rattle.rib_in.specs.LatestRoutes.{HasRoute, route_at};
ghost use Rattle.routing.specs.Candidates.{IsFeasible, IsMade, degree_by, degree_of, judged_at, local_candidate, network_at, origin_in, taken};
ghost use Rattle.routing.specs.declared.candidates.Mandatory.{Mandatory as TheMandatory};
ghost use Rattle.local_exceptions.specs.ExceptionSets.{behind, is_turned};
ghost use Rattle.origin_valid.specs.declared.validity.Validity.TheVariants.{NotFound};
ghost use Rattle.origin_valid.specs.Stretches.{changed_prefixes, prefixes_of, stretches};
ghost use Rattle.prefix_trie.specs.CoverWalks.{covers};
ghost use Rattle.routing.specs.Chosen.{AreDifferent, OncePerPrefix};
ghost use Rattle.routing.specs.MarksIn.{AreMarkedIn};
ghost use Rattle.loc_rib.specs.SentTables.{SentTable};
ghost use Rattle.routing.specs.Sent.{linked};
ghost use Rattle.routing.specs.Offers.{AreMadeAgain, AreMadeAt, AreMadeWhere, AreRemade, IsNextWithin, IsRemade, IsSound, LacksRoute, is_within};

use crate::exports::place;
use crate::routing::{Links, Routing};
use arrayvec::ArrayVec;
use bgp_attr::{Attrs, Origin, PeerKind, neighbor_as, origin_as};
use bgp_conf::{Action, Conf, SeenRoute};
use decision::{Book, Candidate, Change, LOCAL_SLOT, MAX_CANDIDATES};
use loc_rib::Ribs;
use local_exceptions::Filter;
use net_prefix::{Asn, Prefix, Vrp};
use origin_valid::{PayloadTrie, Validity, affected, affected_by};
use std::alloc::Allocator;
use std::collections::BTreeSet;
use vrp_delta::Delta;

/// The degree of preference of a route of an external peer for which no rule sets one.
const DEFAULT_DEGREE: u64 = 100;

/// The degree of preference of a local network: greater than that of any peer's route.
const LOCAL_DEGREE: u64 = 1 << 32;

// What the selection reads of the mandatory attributes of a route: the ORIGIN, the path's length and neighbor AS, and the
// interior cost of the next hop.
#[derive(Clone, Copy)]
struct Mandatory {
    origin: Origin,
    path_length: u32,
    neighbor: Asn,
    cost: u32,
}

// Changes of one prefix's candidates.
type Changes = ArrayVec<Change, MAX_CANDIDATES>;

/// A route of a slot as a candidate: its next hop resolves and is not this session's own address, and its
/// path does not hold the own AS.
pub fn candidate<A: Allocator + Clone>(
    conf: &Conf<A>,
    slot: u8,
    identifier: u32,
    attrs: &Attrs<A>,
) -> Option<Candidate>
    ensures made { IsMade conf.now slot identifier attrs.now result }
    // It isn't judged yet: its state in the payloads in force goes by the prefix.
    ensures unjudged { IfSome result (λ c. c.validity ≡ NotFound) }
{
    let peer = conf.peer(slot)?;
    let kind = PeerKind::between(conf.own(), peer.asn);
    let degree = degree(kind, attrs)?;
    let mandatory = read_mandatory(conf, peer.local, attrs)?;
    Some(Candidate {
        slot,
        degree,
        path_length: mandatory.path_length,
        origin: mandatory.origin,
        neighbor: mandatory.neighbor,
        med: attrs.multi_exit_disc(),
        external: kind.is_external(),
        cost: mandatory.cost,
        identifier,
        address: peer.address,
        validity: Validity::NotFound,
    })
}

// What the selection reads of the mandatory attributes of a route (RFC 4271 section 5), where its next hop resolves and is
// not this address of the session's own, and its path does not hold the own AS.
fn read_mandatory<A: Allocator + Clone>(
    conf: &Conf<A>,
    local: u32,
    attrs: &Attrs<A>,
) -> Option<Mandatory>
    ensures { MatchOption result ((m : TheMandatory) → IsFeasible conf.now local attrs.now m → ⊥) (IsFeasible conf.now local attrs.now) }
{
    let origin = attrs.origin()?;
    let as_path = attrs.as_path()?;
    let next_hop = attrs.next_hop()?;
    if next_hop == local || as_path.contains(conf.own()) {
        return None;
    }
    Some(Mandatory {
        origin,
        path_length: as_path.length(),
        neighbor: neighbor_as(as_path, conf.own()),
        cost: conf.cost(next_hop)?,
    })
}

// A local network as a candidate, whatever its state.
fn local_candidate(own: Asn) -> Candidate
    ensures { result ≡ local_candidate own }
{
    Candidate {
        slot: LOCAL_SLOT,
        degree: LOCAL_DEGREE,
        path_length: 0,
        origin: Origin::Igp,
        neighbor: own,
        med: None,
        external: false,
        cost: 0,
        identifier: 0,
        address: 0,
        validity: Validity::NotFound,
    }
}

// The degree of preference of a route (RFC 4271 section 9.1.1): that of an internal peer has told it.
fn degree<A: Allocator + Clone>(kind: PeerKind, attrs: &Attrs<A>) -> Option<u64>
    ensures { result ≡ degree_of kind attrs.now }
{
    match kind {
        PeerKind::External(_) => Some(DEFAULT_DEGREE),
        PeerKind::Internal => match attrs.local_pref() {
            Some(preference) => Some(u64::from(preference)),
            None => None,
        },
    }
}

/// The candidate that a peer's route to the prefix makes: what these attributes make of any prefix, with the state of the
/// route in the payloads in force (RFC 6811 section 2), where the import policy of its peer takes it.
pub fn judge_route<A: Allocator + Clone>(
    conf: &Conf<A>,
    payloads: &PayloadTrie<A>,
    prefix: Prefix,
    attrs: &Attrs<A>,
    candidate: Option<Candidate>,
) -> Option<Candidate>
    ensures { result ≡ judged_at conf.now (payloads_under conf.now payloads.now) attrs.now candidate prefix }
{
    let candidate = candidate?;
    let origin = origin(conf.own(), attrs);
    let validity = payloads.state_under(conf.exceptions(), &prefix, origin);
    let route = SeenRoute {
        prefix,
        state: validity,
        origin,
        path: attrs.as_path(),
        from: Some(candidate.slot),
    };
    take(
        conf.import(candidate.slot, &route),
        Candidate {
            validity,
            ..candidate
        },
    )
}

/// A local network as a candidate, with the state of its route in the payloads in force.
pub fn judge_network<A: Allocator + Clone>(
    conf: &Conf<A>,
    payloads: &PayloadTrie<A>,
    prefix: Prefix,
    attrs: &Attrs<A>,
) -> Candidate
    ensures { result ≡ network_at conf.now.own (payloads_under conf.now payloads.now) attrs.now prefix }
{
    Candidate {
        validity: payloads.state_under(conf.exceptions(), &prefix, origin(conf.own(), attrs)),
        ..local_candidate(conf.own())
    }
}

/// The origin AS of a route with these attributes (RFC 6811 section 2).
pub fn origin<A: Allocator + Clone>(own: Asn, attrs: &Attrs<A>) -> Option<Asn>
    ensures { result ≡ origin_in own attrs.now }
{
    match attrs.as_path() {
        Some(path) => origin_as(path, own),
        None => None,
    }
}

// What an action of an import policy makes of a candidate: only an external peer's route has the degree that it sets.
fn take(action: Action, candidate: Candidate) -> Option<Candidate>
    ensures { result ≡ taken action candidate }
{
    match action {
        Action::Reject => None,
        Action::Accept { degree, .. } => Some(Candidate {
            degree: degree_by(candidate.external, degree, candidate.degree),
            ..candidate
        }),
    }
}

fn degree_by(external: bool, set: Option<u32>, degree: u64) -> u64
    ensures { result ≡ degree_by external set degree }
{
    match set {
        Some(set) if external => u64::from(set),
        _ => degree,
    }
}

/// Makes the candidates of all routes again, and chooses the best route of each prefix again, once.
pub fn choose_again<A: Allocator + Clone, B: Book<A>>(
    conf: &Conf<A>,
    payloads: &PayloadTrie<A>,
    links: &Links<A>,
    routing: &mut Routing<A, B>,
)
    requires sound { IsSound conf.now (offer_at routing.old.book) }
    requires marked { AreMarkedIn conf.now links.now.entries routing.old }
    ensures sound { IsSound conf.now (offer_at routing.new.book) }
    ensures marked { AreMarkedIn conf.now links.now.entries routing.new }
    ensures sent { routing.new.sent ≡ routing.old.sent }
    ensures routes { routing.new.adj_in ≡ routing.old.adj_in }
    ensures made { AreMadeAgain (tables conf.now (payloads_under conf.now payloads.now) (linked links.now.entries routing.old.sent) routing.old.adj_in) (offer_at routing.old.book) (offer_at routing.new.book) }
    ensures chosen { (known : List ThePrefix) × AreDifferent (HasRoute routing.old.adj_in) known × (routing.new.chosen ≤ routing.old.chosen + length known) }
    ensures rises { routing.old.chosen ≤ routing.new.chosen }
{
    let mut after = None;
    while let Some(prefix) = routing.ribs.routed_after(after) {
        choose_at(conf, payloads, links, routing, prefix);
        // Places rise, so the walk ends.
        let _place = place(prefix);
        after = Some(prefix);
    }
}

/// Makes the candidates of the routes to the prefixes to which a slot has one again, and chooses the best route of each of
/// them again, once.
pub fn choose_slot<A: Allocator + Clone, B: Book<A>>(
    conf: &Conf<A>,
    payloads: &PayloadTrie<A>,
    links: &Links<A>,
    routing: &mut Routing<A, B>,
    slot: u8,
)
    requires sound { IsSound conf.now (offer_at routing.old.book) }
    requires marked { AreMarkedIn conf.now links.now.entries routing.old }
    ensures sound { IsSound conf.now (offer_at routing.new.book) }
    ensures marked { AreMarkedIn conf.now links.now.entries routing.new }
    ensures sent { routing.new.sent ≡ routing.old.sent }
    ensures routes { routing.new.adj_in ≡ routing.old.adj_in }
    ensures made { AreMadeWhere (tables conf.now (payloads_under conf.now payloads.now) (linked links.now.entries routing.old.sent) routing.old.adj_in) (λ q. is_some (route_at routing.old.adj_in slot q)) (offer_at routing.old.book) (offer_at routing.new.book) }
    ensures chosen { OncePerPrefix (λ p. IsSome (route_at routing.old.adj_in slot p)) routing.old.chosen routing.new.chosen }
    ensures rises { routing.old.chosen ≤ routing.new.chosen }
{
    let mut after = None;
    while let Some(prefix) = routing.ribs.slot_prefix_after(slot, after) {
        choose_at(conf, payloads, links, routing, prefix);
        // Places rise, so the walk ends.
        let _place = place(prefix);
        after = Some(prefix);
    }
}

/// Makes the candidates again of the routes that a change of the loaded payloads concerns, behind the local exceptions, and
/// chooses the best route of each of their prefixes again, once.
pub fn choose_touched<A: Allocator + Clone, B: Book<A>>(
    conf: &Conf<A>,
    payloads: &PayloadTrie<A>,
    links: &Links<A>,
    routing: &mut Routing<A, B>,
    change: &Delta<A>,
)
    requires sound { IsSound conf.now (offer_at routing.old.book) }
    requires marked { AreMarkedIn conf.now links.now.entries routing.old }
    ensures sound { IsSound conf.now (offer_at routing.new.book) }
    ensures marked { AreMarkedIn conf.now links.now.entries routing.new }
    ensures sent { routing.new.sent ≡ routing.old.sent }
    ensures routes { routing.new.adj_in ≡ routing.old.adj_in }
    ensures made { AreMadeWhere (tables conf.now (payloads_under conf.now payloads.now) (linked links.now.entries routing.old.sent) routing.old.adj_in) (is_within (stretches (changed_prefixes (behind conf.now.exceptions change.now)))) (offer_at routing.old.book) (offer_at routing.new.book) }
    ensures chosen { OncePerPrefix (λ p. (is_within (stretches (changed_prefixes (behind conf.now.exceptions change.now))) p ≡ true) × HasRoute routing.old.adj_in p) routing.old.chosen routing.new.chosen }
    ensures rises { routing.old.chosen ≤ routing.new.chosen }
{
    for stretch in affected(change, conf.exceptions()) {
        choose_within(conf, payloads, links, routing, stretch);
    }
}

/// The same of the routes that those of the loaded payloads concern on which this filter alone decides.
pub fn choose_turned<A: Allocator + Clone, B: Book<A>>(
    conf: &Conf<A>,
    payloads: &PayloadTrie<A>,
    links: &Links<A>,
    routing: &mut Routing<A, B>,
    turned: Filter,
    loaded: &BTreeSet<Vrp, A>,
)
    requires sound { IsSound conf.now (offer_at routing.old.book) }
    requires marked { AreMarkedIn conf.now links.now.entries routing.old }
    ensures sound { IsSound conf.now (offer_at routing.new.book) }
    ensures marked { AreMarkedIn conf.now links.now.entries routing.new }
    ensures sent { routing.new.sent ≡ routing.old.sent }
    ensures routes { routing.new.adj_in ≡ routing.old.adj_in }
    ensures made { AreMadeWhere (tables conf.now (payloads_under conf.now payloads.now) (linked links.now.entries routing.old.sent) routing.old.adj_in) (is_within (stretches (prefixes_of (filter (is_turned conf.now.exceptions turned) loaded.now.keys)))) (offer_at routing.old.book) (offer_at routing.new.book) }
    ensures chosen { OncePerPrefix (λ p. (is_within (stretches (prefixes_of (filter (is_turned conf.now.exceptions turned) loaded.now.keys))) p ≡ true) × HasRoute routing.old.adj_in p) routing.old.chosen routing.new.chosen }
    ensures rises { routing.old.chosen ≤ routing.new.chosen }
{
    for stretch in affected_by(turned, loaded, conf.exceptions()) {
        choose_within(conf, payloads, links, routing, stretch);
    }
}

/// The same of all routes to prefixes that one covers.
pub fn choose_within<A: Allocator + Clone, B: Book<A>>(
    conf: &Conf<A>,
    payloads: &PayloadTrie<A>,
    links: &Links<A>,
    routing: &mut Routing<A, B>,
    stretch: Prefix,
)
    requires sound { IsSound conf.now (offer_at routing.old.book) }
    requires marked { AreMarkedIn conf.now links.now.entries routing.old }
    ensures sound { IsSound conf.now (offer_at routing.new.book) }
    ensures marked { AreMarkedIn conf.now links.now.entries routing.new }
    ensures sent { routing.new.sent ≡ routing.old.sent }
    ensures routes { routing.new.adj_in ≡ routing.old.adj_in }
    ensures made { AreMadeWhere (tables conf.now (payloads_under conf.now payloads.now) (linked links.now.entries routing.old.sent) routing.old.adj_in) (covers stretch) (offer_at routing.old.book) (offer_at routing.new.book) }
    ensures chosen { OncePerPrefix (λ p. (covers stretch p ≡ true) × HasRoute routing.old.adj_in p) routing.old.chosen routing.new.chosen }
    ensures rises { routing.old.chosen ≤ routing.new.chosen }
{
    let mut after = None;
    while let Some(prefix) = next_within(&routing.ribs, stretch, after) {
        choose_at(conf, payloads, links, routing, prefix);
        // Places rise, so the walk ends.
        let _place = place(prefix);
        after = Some(prefix);
    }
}

// The next prefix with a route that this one covers: behind the given one, or the first.
fn next_within<A: Allocator + Clone, B: Book<A>>(
    ribs: &Ribs<A, B>,
    stretch: Prefix,
    after: Option<Prefix>,
) -> Option<Prefix>
    requires { IfSome after (λ p. covers stretch p ≡ true) }
    ensures { IsNextWithin ribs.now.adj_in stretch after result }
{
    let Some(after) = after else {
        if ribs.is_routed(stretch) {
            return Some(stretch);
        }
        return next_behind(ribs, stretch, stretch);
    };
    next_behind(ribs, stretch, after)
}

// The next prefix with a route behind the given one, where the stretch covers it.
fn next_behind<A: Allocator + Clone, B: Book<A>>(
    ribs: &Ribs<A, B>,
    stretch: Prefix,
    after: Prefix,
) -> Option<Prefix>
    requires { covers stretch after ≡ true }
    ensures { IsNextWithin ribs.now.adj_in stretch (Some after) result }
{
    let Some(prefix) = ribs.routed_after(Some(after)) else {
        return None;
    };
    if stretch.covers(&prefix) {
        Some(prefix)
    } else {
        None
    }
}

// Makes the candidates of the routes to a prefix again, and chooses its best route again.
fn choose_at<A: Allocator + Clone, B: Book<A>>(
    conf: &Conf<A>,
    payloads: &PayloadTrie<A>,
    links: &Links<A>,
    routing: &mut Routing<A, B>,
    prefix: Prefix,
)
    requires routed { HasRoute routing.old.adj_in prefix }
    requires sound { IsSound conf.now (offer_at routing.old.book) }
    requires marked { AreMarkedIn conf.now links.now.entries routing.old }
    ensures sound { IsSound conf.now (offer_at routing.new.book) }
    ensures marked { AreMarkedIn conf.now links.now.entries routing.new }
    ensures sent { routing.new.sent ≡ routing.old.sent }
    ensures routes { routing.new.adj_in ≡ routing.old.adj_in }
    ensures made { AreMadeAt (tables conf.now (payloads_under conf.now payloads.now) (linked links.now.entries routing.old.sent) routing.old.adj_in) prefix (offer_at routing.old.book) (offer_at routing.new.book) }
    ensures chosen { routing.new.chosen ≤ routing.old.chosen + 1 }
    ensures rises { routing.old.chosen ≤ routing.new.chosen }
{
    let changes = remade(conf, payloads, links, &routing.ribs, prefix);
    routing.change(conf, links, prefix, changes.as_slice());
}

// The candidates that the slots' routes to a prefix make now, and a local network: a change for each.
fn remade<A: Allocator + Clone, B: Book<A>>(
    conf: &Conf<A>,
    payloads: &PayloadTrie<A>,
    links: &Links<A>,
    ribs: &Ribs<A, B>,
    prefix: Prefix,
) -> Changes
    ensures { (sent : SentTable) → AreRemade (tables conf.now (payloads_under conf.now payloads.now) (linked links.now.entries sent) ribs.now.adj_in) prefix result.items }
{
    let mut changes = Changes::new();
    for slot in 0..LOCAL_SLOT + 1 {
        if let Some(change) = remade_at(conf, payloads, links, ribs, slot, prefix) {
            changes.push(change);
        }
    }
    changes
}

/// The candidate that a slot's route to a prefix makes now, or a local network, if there is one.
pub fn remade_at<A: Allocator + Clone, B: Book<A>>(
    conf: &Conf<A>,
    payloads: &PayloadTrie<A>,
    links: &Links<A>,
    ribs: &Ribs<A, B>,
    slot: u8,
    prefix: Prefix,
) -> Option<Change>
    requires { slot ≤ 64 }
    ensures { (sent : SentTable) → MatchOption result (LacksRoute (tables conf.now (payloads_under conf.now payloads.now) (linked links.now.entries sent) ribs.now.adj_in) slot prefix) (IsRemade (tables conf.now (payloads_under conf.now payloads.now) (linked links.now.entries sent) ribs.now.adj_in) slot prefix) }
{
    if slot == LOCAL_SLOT {
        return remade_network(conf, payloads, ribs, prefix);
    }
    remade_route(conf, payloads, links, ribs, slot, prefix)
}

// The candidate that a local network makes now, where the prefix is one.
fn remade_network<A: Allocator + Clone, B: Book<A>>(
    conf: &Conf<A>,
    payloads: &PayloadTrie<A>,
    ribs: &Ribs<A, B>,
    prefix: Prefix,
) -> Option<Change>
    ensures { result ≡ option_map (λ attrs. record { slot = 64; candidate = Some (network_at conf.now.own (payloads_under conf.now payloads.now) attrs prefix) }) (route_at ribs.now.adj_in 64 prefix) }
{
    let attrs = ribs.route(LOCAL_SLOT, prefix)?;
    Some(Change {
        slot: LOCAL_SLOT,
        candidate: Some(judge_network(conf, payloads, prefix, attrs)),
    })
}

// The candidate that the route of a slot's peer makes now, if it has one.
fn remade_route<A: Allocator + Clone, B: Book<A>>(
    conf: &Conf<A>,
    payloads: &PayloadTrie<A>,
    links: &Links<A>,
    ribs: &Ribs<A, B>,
    slot: u8,
    prefix: Prefix,
) -> Option<Change>
    requires { slot < 64 }
    ensures { (sent : SentTable) → MatchOption result (LacksRoute (tables conf.now (payloads_under conf.now payloads.now) (linked links.now.entries sent) ribs.now.adj_in) slot prefix) (IsRemade (tables conf.now (payloads_under conf.now payloads.now) (linked links.now.entries sent) ribs.now.adj_in) slot prefix) }
{
    let peer = links.get(&slot)?;
    let attrs = ribs.route(slot, prefix)?;
    let candidate = candidate(conf, slot, peer.identifier(), attrs);
    Some(Change {
        slot,
        candidate: judge_route(conf, payloads, prefix, attrs, candidate),
    })
}
