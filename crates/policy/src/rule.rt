//! The rules of policies.
ghost use Rattle.std.specs.Prelude.{◌≡◌, ◌==◌, ◌&&◌, nat_le};
ghost use Rattle.std.specs.Option.{option_copied};
ghost use Rattle.bgp_attr.specs.AsPath.{has_as};
ghost use Rattle.policy.specs.PolicyMeaning.{action_by, has, holds, is_state, is_within, matches};
ghost use Rattle.policy.specs.PolicyRefusals.{is_action, is_in_range, is_range};

use crate::seen::SeenRoute;
use bgp_attr::AsPath;
use net_prefix::{Asn, Prefix};
use origin_valid::Validity;
use std::alloc::Allocator;

/// The greatest length of a prefix.
const MAX_LENGTH: u8 = 32;

/// The greatest slot that a rule may name.
const LAST_SLOT: u8 = 63;

/// The most further times that a rule puts the own AS in front of a path.
const MAX_PREPEND: u8 = 8;

/// The prefixes within one, of these lengths.
#[derive(Clone, Copy, Debug, PartialEq, Eq)]
pub struct PrefixRange {
    pub prefix: Prefix,
    /// The least length.
    pub from: u8,
    /// The greatest length, 32 at most.
    pub to: u8,
}

/// What a route must be so that a rule matches; what isn't given isn't asked.
#[derive(Clone, Copy, Debug, PartialEq, Eq)]
pub struct Condition {
    /// Its prefix is one of these.
    pub prefix: Option<PrefixRange>,
    /// The state of its origin (RFC 6811 section 2).
    pub state: Option<Validity>,
    /// Its origin AS.
    pub origin: Option<Asn>,
    /// An AS in its path.
    pub path: Option<Asn>,
    /// The slot of the peer that announced it.
    pub from: Option<u8>,
}

/// What becomes of a route.
#[derive(Clone, Copy, Debug, PartialEq, Eq)]
pub enum Action {
    /// It isn't taken, or not announced.
    Reject,
    /// It is taken, or announced.
    Accept {
        /// The degree of preference of a route that is taken, if the rule sets it.
        degree: Option<u32>,
        /// The MULTI_EXIT_DISC with which it is announced, if the rule sets it.
        med: Option<u32>,
        /// How often more the own AS is put in front of its path; 8 at most.
        prepend: Option<u8>,
    },
}

/// A rule of a policy.
#[derive(Clone, Copy, Debug, PartialEq, Eq)]
pub struct Rule {
    pub condition: Condition,
    pub action: Action,
}

impl PrefixRange {
    fn contains(&self, prefix: &Prefix) -> bool
        ensures { result ≡ is_within self.now prefix.now }
    {
        self.prefix.covers(prefix) && self.from <= prefix.len && prefix.len <= self.to
    }

    fn is_in_range(&self) -> bool
        ensures { result ≡ is_range self.now }
    {
        self.from <= self.to && self.to <= MAX_LENGTH
    }
}

impl Condition {
    fn matches<A: Allocator>(&self, route: &SeenRoute<'_, A>) -> bool
        ensures { result ≡ matches self.now route.now }
    {
        self.allows_prefix(&route.prefix)
            && self.allows_state(route.state)
            && self.allows_origin(route.origin)
            && self.allows_path(route.path)
            && self.allows_slot(route.from)
    }

    fn allows_prefix(&self, prefix: &Prefix) -> bool
        ensures { result ≡ holds self.now.prefix (λ range. is_within range prefix.now) }
    {
        match &self.prefix {
            Some(range) => range.contains(prefix),
            None => true,
        }
    }

    fn allows_state(&self, state: Validity) -> bool
        ensures { result ≡ holds self.now.state (λ asked. is_state asked state) }
    {
        match self.state {
            Some(asked) => asked == state,
            None => true,
        }
    }

    fn allows_origin(&self, origin: Option<Asn>) -> bool
        ensures { result ≡ holds self.now.origin (λ asn. has origin (λ as_of. as_of.0 == asn.0)) }
    {
        match self.origin {
            Some(asn) => origin == Some(asn),
            None => true,
        }
    }

    fn allows_path<A: Allocator>(&self, path: Option<&AsPath<A>>) -> bool
        ensures { result ≡ holds self.now.path (λ asn. has (option_copied path.entry) (λ segments. has_as segments asn)) }
    {
        match (self.path, path) {
            (Some(asn), Some(path)) => path.contains(asn),
            (Some(_), None) => false,
            (None, _) => true,
        }
    }

    fn allows_slot(&self, from: Option<u8>) -> bool
        ensures { result ≡ holds self.now.from (λ slot. has from (λ other. other == slot)) }
    {
        match self.from {
            Some(slot) => from == Some(slot),
            None => true,
        }
    }

    fn is_in_range(&self) -> bool
        ensures { result ≡ (holds self.now.prefix is_range && holds self.now.from (λ slot. nat_le slot 63)) }
    {
        let range = match &self.prefix {
            Some(range) => range.is_in_range(),
            None => true,
        };
        let slot = match self.from {
            Some(slot) => slot <= LAST_SLOT,
            None => true,
        };
        range && slot
    }
}

impl Action {
    fn is_in_range(&self) -> bool
        ensures { result ≡ is_action self.now }
    {
        match self {
            Action::Accept {
                prepend: Some(times),
                ..
            } => *times <= MAX_PREPEND,
            _ => true,
        }
    }
}

impl Rule {
    /// Whether its numbers are such as a rule may have.
    pub(crate) fn is_in_range(&self) -> bool
        ensures { result ≡ is_in_range self.now }
    {
        self.condition.is_in_range() && self.action.is_in_range()
    }
}

/// What these rules make of a route.
pub(crate) fn action_by<A: Allocator>(rules: &[Rule], route: &SeenRoute<'_, A>) -> Action
    ensures { result ≡ action_by rules.now route.now }
{
    match rules.iter().find(|rule| rule.condition.matches(route)) {
        Some(rule) => rule.action,
        None => Action::Reject,
    }
}
