//! The exceptions of an operator, and what they make of a set of payloads and of its changes.
ghost use Rattle.std.specs.Prelude.{◌≡◌, ◌≤◌, ◌&&◌, ◌||◌, ◌↔◌, ℕ, IsTrue, Option, Some, None, true, false, Ok, Err, IfErr, IfOk, OnErr, OnOk, filter, if◌then◌else◌, is_ok, length, not};
ghost use Rattle.std.specs.List.{list_any};
ghost use Rattle.net_prefix.specs.declared.payload.Vrp.{Vrp};
ghost use Rattle.net_prefix.specs.PayloadSets.{IsPayloadSet, has};
ghost use Rattle.local_exceptions.specs.ExceptionSets.{IsUnder, behind, is_turned, is_untouched, no_exceptions, with_assertion, with_filter, without_assertion, without_filter};
ghost use Rattle.local_exceptions.specs.ExceptionFaults.{IsFault, adding_fault, taking_fault};
ghost use Rattle.local_exceptions.specs.FilterLengths.{NoneMatches, but_for, is_other, matches_but};
ghost use Rattle.local_exceptions.specs.Filters.{covers, has_filter, is_filtered};

use crate::fault::ExceptionFault;
use crate::filter::Filter;
use net_prefix::{Asn, Prefix, Vrp};
use std::alloc::{AllocError, Allocator, Global};
use std::collections::BTreeSet;
use std::marker::Model;
use vrp_delta::Delta;

/// The most filters.
pub const MAX_FILTERS: usize = 4096;
/// The most assertions.
pub const MAX_ASSERTIONS: usize = 4096;
// Up to so many filters are gone over, which is quicker than looking up each that may match.
const FEW_FILTERS: usize = 16;

/// The filters and assertions of an operator.
#[derive(Drop)]
pub struct Exceptions<A: Allocator = Global> {
    filters: BTreeSet<Filter, A>,
    asserted: BTreeSet<Vrp, A>,
}

impl<A: Allocator> Model for Exceptions<A> {
    ghost use Rattle.local_exceptions.specs.ExceptionSets.{ExceptionSets};

    ghost Value = { ExceptionSets };

    ghost view = { λ exceptions. record { filters = exceptions.filters.keys; asserted = exceptions.asserted.keys } };
}

impl<A: Allocator + Clone> Exceptions<A> {
    /// No exceptions.
    pub fn new(alloc: A) -> Result<Self, AllocError>
        ensures { IfOk result (λ exceptions. exceptions ≡ no_exceptions) }
    {
        let filters = BTreeSet::new(alloc.clone()?);
        Ok(Exceptions {
            filters,
            asserted: BTreeSet::new(alloc),
        })
    }

    /// Adds a filter. One that is there changes nothing. The first fault of: there are 4,096 others; no memory.
    pub fn filter(&mut self, filter: Filter) -> Result<(), ExceptionFault>
        ensures new { self.new ≡ (if is_ok result then with_filter filter self.old else self.old) }
        ensures fault { IsFault (adding_fault (has_filter self.old.filters filter) (length self.old.filters)) result }
        ensures there { OnErr result (has_filter self.old.filters filter ≡ false) }
    {
        if self.filters.len() >= MAX_FILTERS && !self.has_filter(&filter) {
            return Err(ExceptionFault::Limit);
        }
        match self.filters.insert(filter) {
            Ok(_) => Ok(()),
            Err(_) => Err(ExceptionFault::NoMemory),
        }
    }

    /// Adds an assertion. One that is there changes nothing. The first fault of: there are 4,096 others; no memory.
    pub fn assert(&mut self, payload: Vrp) -> Result<(), ExceptionFault>
        ensures new { self.new ≡ (if is_ok result then with_assertion payload self.old else self.old) }
        ensures fault { IsFault (adding_fault (has self.old.asserted payload) (length self.old.asserted)) result }
        ensures there { OnErr result (has self.old.asserted payload ≡ false) }
    {
        if self.asserted.len() >= MAX_ASSERTIONS && !self.asserted.contains(&payload) {
            return Err(ExceptionFault::Limit);
        }
        match self.asserted.insert(payload) {
            Ok(_) => Ok(()),
            Err(_) => Err(ExceptionFault::NoMemory),
        }
    }
}

impl<A: Allocator> Exceptions<A> {
    /// Takes a filter away. The fault is that there is no such filter. It takes no memory.
    pub fn no_filter(&mut self, filter: &Filter) -> Result<(), ExceptionFault>
        ensures new { self.new ≡ without_filter filter.now self.old }
        ensures fault { result ≡ taking_fault (has_filter self.old.filters filter.now) }
    {
        if self.remove_filter(filter) {
            Ok(())
        } else {
            Err(ExceptionFault::UnknownException)
        }
    }

    // Takes a filter away, and answers whether it was there.
    fn remove_filter(&mut self, filter: &Filter) -> bool
        ensures new { self.new ≡ without_filter filter.now self.old }
        ensures there { result ≡ has_filter self.old.filters filter.now }
    {
        let _ = self.filters.len();
        self.filters.remove(filter)
    }

    /// Takes an assertion away. The fault is that there is no such assertion. It takes no memory.
    pub fn no_assert(&mut self, payload: &Vrp) -> Result<(), ExceptionFault>
        ensures new { self.new ≡ without_assertion payload.now self.old }
        ensures fault { result ≡ taking_fault (has self.old.asserted payload.now) }
    {
        let _ = self.asserted.len();
        if self.asserted.remove(payload) {
            Ok(())
        } else {
            Err(ExceptionFault::UnknownException)
        }
    }

    /// The filters, the least first.
    pub fn filters(&self) -> &BTreeSet<Filter, A>
        ensures { result.now.keys ≡ self.now.filters }
    {
        &self.filters
    }

    /// The assertions, the least first.
    pub fn assertions(&self) -> &BTreeSet<Vrp, A>
        ensures { result.now.keys ≡ self.now.asserted }
    {
        &self.asserted
    }

    /// Whether there are no exceptions.
    pub fn is_empty(&self) -> bool
        ensures { IsTrue result ↔ (self.now ≡ no_exceptions) }
    {
        self.filters.is_empty() && self.asserted.is_empty()
    }

    /// Whether the filter is there.
    pub fn has_filter(&self, filter: &Filter) -> bool
        ensures { result ≡ has_filter self.now.filters filter.now }
    {
        self.filters.contains(filter)
    }

    /// Whether the assertion is there.
    pub fn has_assertion(&self, payload: &Vrp) -> bool
        ensures { result ≡ has self.now.asserted payload.now }
    {
        self.asserted.contains(payload)
    }

    /// Whether a filter matches the payload.
    pub fn is_filtered(&self, payload: &Vrp) -> bool
        ensures { result ≡ is_filtered self.now.filters payload.now }
    {
        self.is_filtered_but(payload, None)
    }

    // Whether a filter matches the payload, but for this one.
    fn is_filtered_but(&self, payload: &Vrp, but: Option<Filter>) -> bool
        ensures { result ≡ is_filtered (but_for but self.now.filters) payload.now }
    {
        if self.filters.len() <= FEW_FILTERS {
            any_matches(&self.filters, payload, but)
        } else {
            self.has_matching(payload, but)
        }
    }

    // The same, by looking up the filters that match.
    fn has_matching(&self, payload: &Vrp, but: Option<Filter>) -> bool
        ensures { result ≡ is_filtered (but_for but self.now.filters) payload.now }
    {
        self.has_filter_but(&Filter::As(payload.asn), but) || self.filters_prefix_of(payload, but)
    }

    // Whether the filter is there, but for this one.
    fn has_filter_but(&self, filter: &Filter, but: Option<Filter>) -> bool
        ensures { result ≡ has_filter (but_for but self.now.filters) filter.now }
    {
        is_other(filter, but) && self.has_filter(filter)
    }

    // Whether a filter with a prefix matches the payload: it is of one of the at most 33 that cover the payload's.
    fn filters_prefix_of(&self, payload: &Vrp, but: Option<Filter>) -> bool
        ensures yes { result ≡ true → is_filtered (but_for but self.now.filters) payload.now ≡ true }
        ensures no { result ≡ false → (len : ℕ) → len ≤ payload.now.prefix.len → NoneMatches (but_for but self.now.filters) payload.now len }
    {
        for len in 0..payload.prefix.len + 1 {
            if self.filters_length(payload, len, but) {
                return true;
            }
        }
        false
    }

    // Whether a filter matches the payload whose prefix has this length.
    fn filters_length(&self, payload: &Vrp, len: u8, but: Option<Filter>) -> bool
        requires { len ≤ payload.now.prefix.len }
        ensures yes { result ≡ true → is_filtered (but_for but self.now.filters) payload.now ≡ true }
        ensures no { result ≡ false → NoneMatches (but_for but self.now.filters) payload.now len }
    {
        match Prefix::masked(payload.prefix.bits, len) {
            Ok(prefix) => self.filters_covering(payload, prefix, but),
            Err(_) => false,
        }
    }

    // Whether a filter with just this prefix, which covers the payload's, matches the payload.
    fn filters_covering(&self, payload: &Vrp, prefix: Prefix, but: Option<Filter>) -> bool
        requires { covers prefix payload.now.prefix ≡ true }
        ensures yes { result ≡ true → is_filtered (but_for but self.now.filters) payload.now ≡ true }
        ensures no { result ≡ false → NoneMatches (but_for but self.now.filters) payload.now prefix.len }
    {
        self.has_filter_but(&Filter::Prefix(prefix), but)
            || self.has_filter_but(&Filter::Both(prefix, payload.asn), but)
    }

    /// Whether no exception says anything of the payload.
    pub fn is_untouched(&self, payload: &Vrp) -> bool
        ensures { result ≡ is_untouched self.now payload.now }
    {
        !self.is_filtered(payload) && !self.has_assertion(payload)
    }

    /// Whether the filter, if it is there or not, alone decides on the payload: it matches it, and no other exception says
    /// anything of it.
    pub fn is_turned(&self, filter: &Filter, payload: &Vrp) -> bool
        ensures { result ≡ is_turned self.now filter.now payload.now }
    {
        filter.matches(payload)
            && !self.is_filtered_but(payload, Some(*filter))
            && !self.has_assertion(payload)
    }

    /// Whether the payload is in force: it is in the set (`is_loaded`) and not filtered, or asserted.
    pub fn is_in_force(&self, payload: &Vrp, is_loaded: bool) -> bool
        ensures { result ≡ ((is_loaded && not (is_filtered self.now.filters payload.now)) || has self.now.asserted payload.now) }
    {
        (is_loaded && !self.is_filtered(payload)) || self.has_assertion(payload)
    }

    // The payloads of a set of which no exception says anything.
    fn untouched<B: Allocator + Clone>(
        &self,
        alloc: B,
        set: &BTreeSet<Vrp, B>,
    ) -> Result<BTreeSet<Vrp, B>, AllocError>
        ensures { IfOk result (λ found. found.keys ≡ filter (is_untouched self.now) set.now.keys) }
    {
        let _ = set.len();
        let mut found = BTreeSet::new(alloc);
        for payload in set {
            if !self.is_untouched(payload) {
                continue;
            }
            found.insert(*payload)?;
        }
        Ok(found)
    }

    /// What the exceptions make of a set.
    pub fn under<B: Allocator + Clone>(
        &self,
        alloc: B,
        set: &BTreeSet<Vrp, B>,
    ) -> Result<BTreeSet<Vrp, B>, AllocError>
        ensures { IfOk result (λ after. IsUnder self.now set.now.keys after.keys) }
    {
        let mut after = self.untouched(alloc, set)?;
        put_all(&mut after, &self.asserted)?;
        Ok(after)
    }

    /// What the exceptions make of a change of a set: the change of what they make of the set.
    pub fn behind<B: Allocator + Clone>(
        &self,
        alloc: B,
        change: &Delta<B>,
    ) -> Result<Delta<B>, AllocError>
        ensures { IfOk result (λ found. found ≡ behind self.now change.now) }
    {
        let withdrawn = self.untouched(alloc.clone()?, &change.withdrawn)?;
        let announced = self.untouched(alloc, &change.announced)?;
        Ok(Delta {
            withdrawn,
            announced,
        })
    }
}

// Whether the filter is another one than this.
fn is_other(filter: &Filter, but: Option<Filter>) -> bool
    ensures { result ≡ is_other but filter.now }
{
    match but {
        Some(but) => but != *filter,
        None => true,
    }
}

// Whether the filter is another one than this, and matches the payload.
fn matches_but(filter: &Filter, payload: &Vrp, but: Option<Filter>) -> bool
    ensures { result ≡ matches_but but payload.now filter.now }
{
    is_other(filter, but) && filter.matches(payload)
}

// Whether a filter other than this one matches the payload, by going over all filters.
fn any_matches<A: Allocator>(
    filters: &BTreeSet<Filter, A>,
    payload: &Vrp,
    but: Option<Filter>,
) -> bool
    ensures { result ≡ list_any (matches_but but payload.now) filters.now.keys }
{
    filters
        .iter()
        .any(|filter| matches_but(filter, payload, but))
}

// Puts payloads into a set.
fn put_all<A: Allocator + Clone, B: Allocator>(
    set: &mut BTreeSet<Vrp, A>,
    payloads: &BTreeSet<Vrp, B>,
) -> Result<(), AllocError>
    ensures { OnOk result ((payload : Vrp) → has set.new.keys payload ≡ (has set.old.keys payload || has payloads.now.keys payload)) }
{
    for payload in payloads {
        set.insert(*payload)?;
    }
    Ok(())
}
