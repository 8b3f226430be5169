//! The payloads in force, row by row: those that are loaded, under the local exceptions.
ghost use Rattle.std.specs.Prelude.{◌≡◌, filter, not};
ghost use Rattle.std.specs.Iterator.{YieldsFirst, item_count};
ghost use Rattle.local_exceptions.specs.ExceptionSets.{under};
ghost use Rattle.local_exceptions.specs.Filters.{is_filtered};
ghost use Rattle.net_prefix.specs.PayloadSets.{IsPayloadSet};
ghost use Rattle.speaker.specs.Shown.{first_of, keys_if, least_of, payloads_behind};
ghost use Rattle.runs.specs.SpeakerState.{in_force_of};

use crate::step::Speaker;
use decision::Book;
use local_exceptions::Exceptions;
use net_prefix::Vrp;
use std::alloc::{Allocator, Global};
use std::collections::{BTreeSet, btree_set};
use std::marker::Model;
use std::ops::Bound;

/// The payloads in force in rising order, seen as those still to come.
#[derive(Drop)]
pub struct Payloads<'a, A: Allocator = Global> {
    // The payloads that are loaded; None where there is no cache session.
    loaded: Option<&'a BTreeSet<Vrp, A>>,
    exceptions: &'a Exceptions<A>,
    // The payload that came last.
    last: Option<Vrp>,
}

impl<'a, A: Allocator> Model for Payloads<'a, A> {
    ghost use Rattle.std.specs.Prelude.{List};
    ghost use Rattle.net_prefix.specs.declared.payload.Vrp.{Vrp};
    ghost use Rattle.local_exceptions.specs.ExceptionSets.{under};
    ghost use Rattle.speaker.specs.Shown.{keys_if, payloads_behind};

    ghost Value = { List Vrp };

    ghost view = { λ p. payloads_behind p.last (under p.exceptions.now (keys_if p.loaded)) };
}

impl<A: Allocator> Iterator for Payloads<'_, A> {
    type Item = Vrp;

    ghost next_gives = { YieldsFirst (λ rest. rest) };

    ghost remaining = { item_count (λ rest. rest) };

    fn next(&mut self) -> Option<Vrp> {
        let found = first_in_force(self.loaded, self.exceptions, self.last);
        if let Some(payload) = found {
            self.last = Some(payload);
        }
        found
    }
}

impl<'a, A: Allocator> Payloads<'a, A> {
    // The payloads in force above the given one, or all.
    pub(crate) fn behind(
        loaded: Option<&'a BTreeSet<Vrp, A>>,
        exceptions: &'a Exceptions<A>,
        after: Option<Vrp>,
    ) -> Self
        requires rising { IsPayloadSet (keys_if loaded) }
        ensures all { result ≡ payloads_behind after (under exceptions.now (keys_if loaded.entry)) }
        ensures rising { IsPayloadSet result }
    {
        Payloads {
            loaded,
            exceptions,
            last: after,
        }
    }
}

impl<A: Allocator + Clone, B: Book<A>> Speaker<A, B> {
    // The payloads in force above the given one, or all.
    pub(crate) fn payloads_behind(&self, after: Option<Vrp>) -> Payloads<'_, A>
        ensures all { result ≡ payloads_behind after (in_force_of self.now) }
        ensures rising { IsPayloadSet result }
    {
        let exceptions = self.routes.conf().exceptions();
        match &self.cache {
            Some(session) => Payloads::behind(Some(session.payloads()), exceptions, after),
            None => Payloads::behind(None, exceptions, after),
        }
    }
}

// The first payload in force above the given one, or of all.
fn first_in_force<A: Allocator>(
    loaded: Option<&BTreeSet<Vrp, A>>,
    exceptions: &Exceptions<A>,
    after: Option<Vrp>,
) -> Option<Vrp>
    ensures first { result ≡ first_of (payloads_behind after (under exceptions.now (keys_if loaded.entry))) }
    ensures rising { IsPayloadSet (under exceptions.now (keys_if loaded.entry)) }
{
    let kept = first_left(loaded, exceptions, after);
    let asserted = first_asserted(exceptions, after);
    least(kept, asserted)
}

// The less of two payloads, if there are any.
fn least(kept: Option<Vrp>, asserted: Option<Vrp>) -> Option<Vrp>
    ensures { result ≡ least_of kept asserted }
{
    let Some(kept) = kept else {
        return asserted;
    };
    match asserted {
        Some(asserted) => {
            if asserted < kept {
                Some(asserted)
            } else {
                Some(kept)
            }
        }
        None => Some(kept),
    }
}

// The first assertion above the given one, or of all.
fn first_asserted<A: Allocator>(exceptions: &Exceptions<A>, after: Option<Vrp>) -> Option<Vrp>
    ensures first { result ≡ first_of (payloads_behind after exceptions.now.asserted) }
    ensures rising { IsPayloadSet exceptions.now.asserted }
{
    let mut payloads = members_after(exceptions.assertions(), after);
    match payloads.next() {
        Some(payload) => Some(*payload),
        None => None,
    }
}

// The first of the loaded payloads, if there are any, that no filter matches, above the given one, or of all.
fn first_left<A: Allocator>(
    loaded: Option<&BTreeSet<Vrp, A>>,
    exceptions: &Exceptions<A>,
    after: Option<Vrp>,
) -> Option<Vrp>
    ensures first { result ≡ first_of (payloads_behind after (filter (λ payload. not (is_filtered exceptions.now.filters payload)) (keys_if loaded.entry))) }
    ensures rising { IsPayloadSet (keys_if loaded.entry) }
{
    match loaded {
        Some(loaded) => first_kept(loaded, exceptions, after),
        None => None,
    }
}

// The first payload of a set that no filter matches, above the given one, or of all.
fn first_kept<A: Allocator>(
    loaded: &BTreeSet<Vrp, A>,
    exceptions: &Exceptions<A>,
    after: Option<Vrp>,
) -> Option<Vrp>
    ensures first { result ≡ first_of (payloads_behind after (filter (λ payload. not (is_filtered exceptions.now.filters payload)) loaded.now.keys)) }
    ensures rising { IsPayloadSet loaded.now.keys }
{
    for payload in members_after(loaded, after) {
        if !exceptions.is_filtered(payload) {
            return Some(*payload);
        }
    }
    None
}

// The payloads of a set above the given one, or all.
fn members_after<A: Allocator>(
    set: &BTreeSet<Vrp, A>,
    after: Option<Vrp>,
) -> btree_set::Range<'_, Vrp>
    ensures all { result ≡ payloads_behind after set.now.keys }
    ensures rising { IsPayloadSet result }
    ensures set { IsPayloadSet set.now.keys }
{
    let _ = set.len();
    match after {
        Some(payload) => set.range((Bound::Excluded(payload), Bound::Unbounded)),
        None => {
            let all: (Bound<Vrp>, Bound<Vrp>) = (Bound::Unbounded, Bound::Unbounded);
            set.range(all)
        }
    }
}
