//! The routes that an UPDATE brings and withdraws (RFC 4271 section 4.3).
ghost use Rattle.std.specs.Prelude.{◌≡◌, ◌≢◌, ◌≤◌, ◌+◌, ◌==◌, ◌&&◌, ◌++◌, ◌∷◌, ℕ, List, [], true, Some, None, IfOk, OnOk, OnErr, IfSome, if◌then◌else◌};
ghost use Rattle.bgp_fsm.specs.declared.state.State.TheVariants.{Established};
ghost use Rattle.bgp_msg.specs.MessageSpelling.{front_prefixes};
ghost use Rattle.decision.specs.BookContents.{AreApart, offer_at};
ghost use Rattle.net_prefix.specs.declared.prefix.Prefix.{Prefix as ThePrefix};
ghost use Rattle.rib_in.specs.LatestRoutes.{is_route, route_at};
ghost use Rattle.routing.specs.Brought.{AreReady, IsBrought, IsPartial, IsReady, prefixes_of};
ghost use Rattle.routing.specs.Heard.{KeepsUnnamed};
ghost use Rattle.routing.specs.Updates.{is_among, is_only_withdrawn, word_of};
ghost use Rattle.routing.specs.Candidates.{judged_at};
ghost use Rattle.routing.specs.Chosen.{named_in, OncePerPrefix};
ghost use Rattle.routing.specs.MarksIn.{AreMarkedIn};
ghost use Rattle.routing.specs.RoutingState.{RoutingState, StayWhole};
ghost use Rattle.routing.specs.Tables.{payloads_under};
ghost use Rattle.routing.specs.Offers.{IsSound, KeepsHeard};
ghost use Rattle.routing.specs.Taken.{IsTaken};

use crate::candidates::{candidate, judge_route};
use crate::routing::{Links, Routing};
use bgp_attr::Attrs;
use bgp_conf::Conf;
use bgp_msg::{Prefixes, Update};
use decision::{Book, Candidate, Change};
use net_prefix::Prefix;
use origin_valid::PayloadTrie;
use std::alloc::{AllocError, Allocator};
use std::marker::Model;
use std::rc::Rc;

/// The peer whose UPDATE it is: its slot, and its BGP Identifier.
#[derive(Clone, Copy)]
pub struct Sender {
    pub slot: u8,
    /// What its OPEN gave, an IPv4 address as a number.
    pub identifier: u32,
}

// A prefix that an UPDATE announces. Where its slot had a route to it, this has the attributes for the one that replaces it.
#[derive(Drop)]
struct Announced<A: Allocator> {
    prefix: Prefix,
    replacing: Option<Rc<Attrs<A>, A>>,
}

impl<A: Allocator> Model for Announced<A> {
    ghost use Rattle.std.specs.Option.{option_map};
    ghost use Rattle.routing.specs.Brought.{NamedPrefix};

    ghost Value = { NamedPrefix };

    ghost view = { λ a. record { prefix = a.prefix; replacing = option_map (λ attrs. attrs.value) a.replacing } };
}

/// Takes the routes of an UPDATE, with the candidate that they make: withdrawals first, then announcements, so that a
/// prefix that is both is announced (RFC 4271 section 4.3). Room is made first for all that is announced; where memory is
/// refused to it, nothing is taken.
pub fn take_update<A: Allocator + Clone, B: Book<A>>(
    alloc: &A,
    conf: &Conf<A>,
    payloads: &PayloadTrie<A>,
    links: &Links<A>,
    routing: &mut Routing<A, B>,
    sender: Sender,
    update: Update<'_, A>,
) -> Result<(), AllocError>
    requires sound { IsSound conf.now (offer_at routing.old.book) }
    requires marked { AreMarkedIn conf.now links.now.entries routing.old }
    ensures sound { IsSound conf.now (offer_at routing.new.book) }
    ensures marked { AreMarkedIn conf.now links.now.entries routing.new }
    ensures sent { routing.new.sent ≡ routing.old.sent }
    ensures routes { OnOk result ((s : ℕ) (prefix : ThePrefix) → route_at routing.new.adj_in s prefix ≡ (if s == sender.slot then word_of update.entry prefix (route_at routing.old.adj_in s prefix) else route_at routing.old.adj_in s prefix)) }
    ensures unnamed { OnOk result (KeepsUnnamed sender.slot (Some update.entry) routing.old.book routing.new.book) }
    ensures kept { OnOk result (KeepsHeard conf.now (payloads_under conf.now payloads.now) sender Established routing.old routing.new) }
    ensures refused { OnErr result (StayWhole routing.old.adj_in routing.new.adj_in routing.old.book routing.new.book routing.old.chosen routing.new.chosen) }
    ensures memory { OnErr result (update.entry.announced ≢ []) }
    ensures chosen { routing.new.chosen ≤ routing.old.chosen + named_in update.entry }
    ensures rises { routing.old.chosen ≤ routing.new.chosen }
{
    let withdrawn = update.withdrawn();
    let announced = update.announced();
    let mut first = announced;
    if first.next().is_none() {
        drop(update);
        withdraw_each(conf, links, routing, sender.slot, withdrawn, announced);
        return Ok(());
    }
    let attrs = update.into_attrs();
    replace_routes(
        alloc, conf, payloads, links, routing, sender, withdrawn, announced, attrs,
    )
}

// The attributes of an UPDATE, for all routes that it announces.
fn share_attrs<A: Allocator + Clone>(
    alloc: &A,
    attrs: Attrs<A>,
) -> Result<Rc<Attrs<A>, A>, AllocError>
    ensures { IfOk result (λ shared. shared.value ≡ attrs) }
{
    Ok(Rc::new(alloc.clone()?, attrs)?)
}

// Takes the routes of an UPDATE that announces some: these attributes are those of each. Where memory is refused, nothing
// is taken.
fn replace_routes<A: Allocator + Clone, B: Book<A>>(
    alloc: &A,
    conf: &Conf<A>,
    payloads: &PayloadTrie<A>,
    links: &Links<A>,
    routing: &mut Routing<A, B>,
    sender: Sender,
    withdrawn: Prefixes<'_>,
    announced: Prefixes<'_>,
    attrs: Attrs<A>,
) -> Result<(), AllocError>
    requires sound { IsSound conf.now (offer_at routing.old.book) }
    requires marked { AreMarkedIn conf.now links.now.entries routing.old }
    ensures sound { IsSound conf.now (offer_at routing.new.book) }
    ensures marked { AreMarkedIn conf.now links.now.entries routing.new }
    ensures sent { routing.new.sent ≡ routing.old.sent }
    ensures taken { OnOk result (IsTaken conf.now (payloads_under conf.now payloads.now) sender (record { withdrawn = (front_prefixes withdrawn.entry.octets.now).0; attrs = attrs; announced = (front_prefixes announced.entry.octets.now).0 }) routing.old routing.new) }
    ensures refused { OnErr result (StayWhole routing.old.adj_in routing.new.adj_in routing.old.book routing.new.book routing.old.chosen routing.new.chosen) }
    ensures rises { routing.old.chosen ≤ routing.new.chosen }
{
    let Sender { slot, identifier } = sender;
    let shared = share_attrs(alloc, attrs)?;
    let named = bring_all(alloc, conf, links, routing, slot, announced, &shared)?;
    withdraw_each(conf, links, routing, slot, withdrawn, announced);
    let candidate = candidate(conf, slot, identifier, &shared);
    announce_each(
        conf, payloads, links, routing, slot, named, &shared, candidate,
    );
    Ok(())
}

// Withdraws what is not announced as well, so that a best route is chosen once for each prefix that is named.
fn withdraw_each<A: Allocator + Clone, B: Book<A>>(
    conf: &Conf<A>,
    links: &Links<A>,
    routing: &mut Routing<A, B>,
    slot: u8,
    prefixes: Prefixes<'_>,
    announced: Prefixes<'_>,
)
    requires { AreMarkedIn conf.now links.now.entries routing.old }
    ensures marked { AreMarkedIn conf.now links.now.entries routing.new }
    ensures sent { routing.new.sent ≡ routing.old.sent }
    ensures routes { (s : ℕ) (prefix : ThePrefix) → route_at routing.new.adj_in s prefix ≡ (if s == slot && is_only_withdrawn (front_prefixes prefixes.entry.octets.now).0 (front_prefixes announced.entry.octets.now).0 prefix then None else route_at routing.old.adj_in s prefix) }
    ensures offers { (s : ℕ) (prefix : ThePrefix) → offer_at routing.new.book s prefix ≡ (if s == slot && is_only_withdrawn (front_prefixes prefixes.entry.octets.now).0 (front_prefixes announced.entry.octets.now).0 prefix then None else offer_at routing.old.book s prefix) }
    ensures chosen { OncePerPrefix (λ p. is_only_withdrawn (front_prefixes prefixes.entry.octets.now).0 (front_prefixes announced.entry.octets.now).0 p ≡ true) routing.old.chosen routing.new.chosen }
    ensures rises { routing.old.chosen ≤ routing.new.chosen }
{
    for prefix in prefixes {
        if !is_named(announced, prefix) {
            routing.withdraw(conf, links, slot, prefix);
        }
    }
}

// Whether the prefix is one of these.
fn is_named(prefixes: Prefixes<'_>, prefix: Prefix) -> bool
    ensures { result ≡ is_among prefix (front_prefixes prefixes.entry.octets.now).0 }
{
    for named in prefixes {
        if named == prefix {
            return true;
        }
    }
    false
}

// Gives the slot a route with these attributes to each prefix to which it has none, and lists all of them. Where memory is
// refused, those routes go again.
fn bring_all<A: Allocator + Clone, B: Book<A>>(
    alloc: &A,
    conf: &Conf<A>,
    links: &Links<A>,
    routing: &mut Routing<A, B>,
    slot: u8,
    prefixes: Prefixes<'_>,
    attrs: &Rc<Attrs<A>, A>,
) -> Result<Vec<Announced<A>, A>, AllocError>
    requires { AreMarkedIn conf.now links.now.entries routing.old }
    ensures marked { AreMarkedIn conf.now links.now.entries routing.new }
    ensures sent { routing.new.sent ≡ routing.old.sent }
    ensures brought { IfOk result (λ named. IsBrought slot attrs.now.value (front_prefixes prefixes.entry.octets.now).0 named.items routing.old routing.new) }
    ensures refused { OnErr result (StayWhole routing.old.adj_in routing.new.adj_in routing.old.book routing.new.book routing.old.chosen routing.new.chosen) }
{
    let mut named = Vec::new(alloc.clone()?);
    if let Err(refused) = bring_each(conf, links, routing, slot, prefixes, attrs, &mut named) {
        take_back(conf, links, routing, slot, named.as_slice());
        return Err(refused);
    }
    Ok(named)
}

// The same into a list, where nothing is taken back.
fn bring_each<A: Allocator + Clone, B: Book<A>>(
    conf: &Conf<A>,
    links: &Links<A>,
    routing: &mut Routing<A, B>,
    slot: u8,
    prefixes: Prefixes<'_>,
    attrs: &Rc<Attrs<A>, A>,
    named: &mut Vec<Announced<A>, A>,
) -> Result<(), AllocError>
    requires empty { named.old.items ≡ [] }
    requires marked { AreMarkedIn conf.now links.now.entries routing.old }
    ensures marked { AreMarkedIn conf.now links.now.entries routing.new }
    ensures sent { routing.new.sent ≡ routing.old.sent }
    ensures brought { OnOk result (IsBrought slot attrs.now.value (front_prefixes prefixes.entry.octets.now).0 named.new.items routing.old routing.new) }
    ensures refused { OnErr result (IsPartial slot named.new.items routing.old routing.new) }
{
    for prefix in prefixes {
        bring(conf, links, routing, slot, prefix, attrs, named)?;
    }
    Ok(())
}

// The same of one prefix more. It is listed only where memory for that is there before.
fn bring<A: Allocator + Clone, B: Book<A>>(
    conf: &Conf<A>,
    links: &Links<A>,
    routing: &mut Routing<A, B>,
    slot: u8,
    prefix: Prefix,
    attrs: &Rc<Attrs<A>, A>,
    named: &mut Vec<Announced<A>, A>,
) -> Result<(), AllocError>
    requires marked { AreMarkedIn conf.now links.now.entries routing.old }
    ensures marked { AreMarkedIn conf.now links.now.entries routing.new }
    ensures sent { routing.new.sent ≡ routing.old.sent }
    ensures brought { OnOk result ((first : RoutingState) (seen : List ThePrefix) → IsBrought slot attrs.now.value seen named.old.items first routing.old → IsBrought slot attrs.now.value (seen ++ prefix ∷ []) named.new.items first routing.new) }
    ensures refused { OnErr result ((first : RoutingState) (seen : List ThePrefix) → IsBrought slot attrs.now.value seen named.old.items first routing.old → IsPartial slot named.new.items first routing.new) }
{
    let attrs = attrs.clone()?;
    named.reserve(1)?;
    // A candidate is always one of a route.
    routing.ribs().is_chosen();
    let replacing = routing.bring(conf, links, slot, prefix, attrs)?;
    named.push_reserved(Announced { prefix, replacing });
    Ok(())
}

// The routes to the new prefixes go again.
fn take_back<A: Allocator + Clone, B: Book<A>>(
    conf: &Conf<A>,
    links: &Links<A>,
    routing: &mut Routing<A, B>,
    slot: u8,
    named: &[Announced<A>],
)
    requires { AreMarkedIn conf.now links.now.entries routing.old }
    ensures marked { AreMarkedIn conf.now links.now.entries routing.new }
    ensures sent { routing.new.sent ≡ routing.old.sent }
    ensures whole { (first : RoutingState) → IsPartial slot named.now first routing.old → StayWhole first.adj_in routing.new.adj_in first.book routing.new.book first.chosen routing.new.chosen }
{
    for announced in named {
        if announced.replacing.is_none() {
            routing.withdraw(conf, links, slot, announced.prefix);
        }
    }
}

// Announces each prefix, with the candidate that these attributes make, judged. It takes no memory.
fn announce_each<A: Allocator + Clone, B: Book<A>>(
    conf: &Conf<A>,
    payloads: &PayloadTrie<A>,
    links: &Links<A>,
    routing: &mut Routing<A, B>,
    slot: u8,
    named: Vec<Announced<A>, A>,
    attrs: &Attrs<A>,
    candidate: Option<Candidate>,
)
    requires named { IfSome candidate (λ c. c.slot ≡ slot) }
    requires ready { AreReady slot attrs.now routing.old.adj_in named.items }
    requires apart { (prefix : ThePrefix) → AreApart (λ s. if slot == s then judged_at conf.now (payloads_under conf.now payloads.now) attrs.now candidate prefix else offer_at routing.old.book s prefix) }
    requires marked { AreMarkedIn conf.now links.now.entries routing.old }
    ensures marked { AreMarkedIn conf.now links.now.entries routing.new }
    ensures sent { routing.new.sent ≡ routing.old.sent }
    ensures routes { (s : ℕ) (prefix : ThePrefix) → route_at routing.new.adj_in s prefix ≡ (if s == slot && is_among prefix (prefixes_of named.items) then Some attrs.now else route_at routing.old.adj_in s prefix) }
    ensures offers { (s : ℕ) (prefix : ThePrefix) → offer_at routing.new.book s prefix ≡ (if s == slot && is_among prefix (prefixes_of named.items) then judged_at conf.now (payloads_under conf.now payloads.now) attrs.now candidate prefix else offer_at routing.old.book s prefix) }
    ensures chosen { OncePerPrefix (λ p. is_among p (prefixes_of named.items) ≡ true) routing.old.chosen routing.new.chosen }
    ensures rises { routing.old.chosen ≤ routing.new.chosen }
{
    for announced in named {
        announce(
            conf, payloads, links, routing, slot, announced, attrs, candidate,
        );
    }
}

// The same of one prefix.
fn announce<A: Allocator + Clone, B: Book<A>>(
    conf: &Conf<A>,
    payloads: &PayloadTrie<A>,
    links: &Links<A>,
    routing: &mut Routing<A, B>,
    slot: u8,
    announced: Announced<A>,
    attrs: &Attrs<A>,
    candidate: Option<Candidate>,
)
    requires named { IfSome candidate (λ c. c.slot ≡ slot) }
    requires ready { IsReady slot attrs.now routing.old.adj_in announced }
    requires apart { AreApart (λ s. if slot == s then judged_at conf.now (payloads_under conf.now payloads.now) attrs.now candidate announced.prefix else offer_at routing.old.book s announced.prefix) }
    requires marked { AreMarkedIn conf.now links.now.entries routing.old }
    ensures marked { AreMarkedIn conf.now links.now.entries routing.new }
    ensures sent { routing.new.sent ≡ routing.old.sent }
    ensures routes { (s : ℕ) (p : ThePrefix) → route_at routing.new.adj_in s p ≡ (if is_route slot announced.prefix s p then Some attrs.now else route_at routing.old.adj_in s p) }
    ensures offers { (s : ℕ) (p : ThePrefix) → offer_at routing.new.book s p ≡ (if is_route slot announced.prefix s p then judged_at conf.now (payloads_under conf.now payloads.now) attrs.now candidate announced.prefix else offer_at routing.old.book s p) }
    ensures chosen { routing.new.chosen ≤ routing.old.chosen + 1 }
    ensures same { offer_at routing.old.book slot announced.prefix ≡ judged_at conf.now (payloads_under conf.now payloads.now) attrs.now candidate announced.prefix → routing.new.chosen ≡ routing.old.chosen }
    ensures rises { routing.old.chosen ≤ routing.new.chosen }
{
    let Announced { prefix, replacing } = announced;
    let candidate = judge_route(conf, payloads, prefix, attrs, candidate);
    match replacing {
        Some(attrs) => {
            let _takes_no_memory = routing.announce(conf, links, slot, prefix, attrs, candidate);
        }
        None => routing.change(conf, links, prefix, &[Change { slot, candidate }]),
    }
}
