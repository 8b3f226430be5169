//! The payloads of one prefix.
ghost use Rattle.std.specs.Prelude.{◌≡◌, [], ◌∷◌, filter};
ghost use Rattle.std.specs.List.{list_any};
ghost use Rattle.net_prefix.specs.PayloadSets.{has};
ghost use Rattle.origin_valid.specs.KeptPayloads.{IsLeft, MayPut, is_only};
ghost use Rattle.origin_valid.specs.StatesUnder.{is_kept};
ghost use Rattle.origin_valid.specs.Validity.{matches, validity};

use crate::states_under::{kept_by, kept_state};
use crate::validity::{Validity, both, matches};
use local_exceptions::Exceptions;
use net_prefix::{Asn, Prefix, Vrp};
use std::alloc::{Allocator, Global};
use std::cmp::Ordering;
use std::collections::BTreeSet;
use std::marker::Model;

/// The payloads of one prefix, the least first: at least one. A prefix mostly has one alone, which takes no memory
/// beside the place of the prefix.
#[derive(Drop)]
pub(crate) struct PrefixPayloads<A: Allocator = Global> {
    first: Vrp,
    // Those behind the first.
    others: BTreeSet<Vrp, A>,
}

impl<A: Allocator> Model for PrefixPayloads<A> {
    ghost use Rattle.std.specs.Prelude.{List, ◌∷◌};
    ghost use Rattle.net_prefix.specs.declared.payload.Vrp.{Vrp};
    ghost use Rattle.net_prefix.specs.PayloadSets.{IsPayloadSet};

    ghost Value = { List Vrp };

    ghost view = { λ p. p.first ∷ p.others.keys };

    ghost invariant = { λ p. IsPayloadSet (p.first ∷ p.others.keys) };
}

impl<A: Allocator> PrefixPayloads<A> {
    /// One payload. The allocator is for further ones.
    pub(crate) fn one(alloc: A, payload: Vrp) -> Self
        ensures { result ≡ payload ∷ [] }
    {
        PrefixPayloads {
            first: payload,
            others: BTreeSet::new(alloc),
        }
    }

    /// Whether the payload is one of them.
    pub(crate) fn has(&self, payload: &Vrp) -> bool
        ensures { result ≡ has self.now payload.now }
    {
        self.first == *payload || self.others.contains(payload)
    }

    /// Whether no other payload is one of them.
    pub(crate) fn is_only(&self, payload: &Vrp) -> bool
        ensures { result ≡ is_only payload.now self.now }
    {
        self.first == *payload && self.others.is_empty()
    }

    /// Whether one of them matches the route.
    pub(crate) fn has_match(&self, prefix: &Prefix, origin: Option<Asn>) -> bool
        ensures { result ≡ list_any (matches prefix.now origin) self.now }
    {
        matches(&self.first, prefix, origin) || any_matches(&self.others, prefix, origin)
    }

    /// The state by those of them that no filter matches.
    pub(crate) fn kept_state<B: Allocator>(
        &self,
        exceptions: &Exceptions<B>,
        prefix: &Prefix,
        origin: Option<Asn>,
    ) -> Validity
        ensures { result ≡ validity (filter (is_kept exceptions.now) self.now) prefix.now origin }
    {
        both(
            kept_by(&self.first, exceptions, prefix, origin),
            kept_state(&self.others, exceptions, prefix, origin),
        )
    }

    /// Takes out the payload, where there is another one. It takes no memory.
    pub(crate) fn take_out(&mut self, payload: &Vrp)
        ensures { IsLeft payload.now self.old self.new }
    {
        if self.first != *payload {
            self.others.remove(payload);
        } else if let Some(next) = self.others.pop_first() {
            self.first = next;
        }
    }
}

impl<A: Allocator + Clone> PrefixPayloads<A> {
    /// Puts the payload in, where there is memory for it.
    pub(crate) fn put(&mut self, payload: Vrp)
        ensures { MayPut payload self.old self.new }
    {
        match payload.cmp(&self.first) {
            Ordering::Less => {
                if self.others.insert(self.first).is_ok() {
                    self.first = payload;
                }
            }
            Ordering::Equal => {}
            Ordering::Greater => {
                let _ = self.others.insert(payload);
            }
        }
    }
}

// Whether one of the payloads matches the route.
fn any_matches<A: Allocator>(
    payloads: &BTreeSet<Vrp, A>,
    prefix: &Prefix,
    origin: Option<Asn>,
) -> bool
    ensures { result ≡ list_any (matches prefix.now origin) payloads.now.keys }
{
    payloads
        .iter()
        .any(|payload| matches(payload, prefix, origin))
}
