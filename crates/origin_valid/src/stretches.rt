//! The stretches of prefixes whose states a change of the payloads, or a filter that comes or goes, may change.
ghost use Rattle.std.specs.Prelude.{◌≡◌, filter as passing};
ghost use Rattle.std.specs.Iterator.{YieldsFirstBy, item_count};
ghost use Rattle.local_exceptions.specs.ExceptionSets.{behind, is_turned};
ghost use Rattle.origin_valid.specs.Stretches.{changed_prefixes, prefixes_of, stretches};
ghost use Rattle.origin_valid.specs.StretchWalks.{is_inside, is_sought};

use local_exceptions::{Exceptions, Filter};
use net_prefix::{Prefix, Vrp};
use std::alloc::{Allocator, Global};
use std::collections::BTreeSet;
use std::collections::btree_set::Union;
use std::marker::Model;
use vrp_delta::Delta;

/// The prefixes of payloads that come or go, in rising order: each once, and none that another one covers. They are seen
/// as those still to come.
#[derive(Drop)]
pub struct Stretches<'a, B: Allocator = Global> {
    // The payloads still to come, of which some aren't sought.
    payloads: Union<'a, Vrp>,
    exceptions: &'a Exceptions<B>,
    // The filter that alone decides on those that are sought. Where there is none no exception says anything of them.
    filter: Option<Filter>,
    // The stretch that came last.
    last: Option<Prefix>,
}

impl<'a, B: Allocator> Model for Stretches<'a, B> {
    ghost use Rattle.std.specs.Prelude.{List, filter as passing};
    ghost use Rattle.net_prefix.specs.declared.prefix.Prefix.{Prefix};
    ghost use Rattle.origin_valid.specs.Stretches.{prefixes_of};
    ghost use Rattle.origin_valid.specs.StretchWalks.{is_sought, outside};

    ghost Value = { List Prefix };

    ghost view = { λ s. outside s.last (prefixes_of (passing (is_sought s.exceptions.now s.filter) s.payloads)) };
}

/// The stretches of prefixes whose states the change may change, behind the exceptions: each is what one prefix covers.
/// They are disjoint, so that each prefix is met once. Payloads of which the exceptions say something change nothing. It
/// takes no memory.
pub fn affected<'a, A: Allocator, B: Allocator>(
    delta: &'a Delta<A>,
    exceptions: &'a Exceptions<B>,
) -> Stretches<'a, B>
    ensures { result ≡ stretches (changed_prefixes (behind exceptions.now delta.now)) }
{
    Stretches {
        payloads: delta.withdrawn.union(&delta.announced),
        exceptions,
        filter: None,
        last: None,
    }
}

/// The stretches of prefixes whose states the filter may change as it comes or goes: those of the payloads of the set on
/// which it alone decides, whether it is among the exceptions or not. It takes no memory.
pub fn affected_by<'a, A: Allocator, B: Allocator>(
    filter: Filter,
    set: &'a BTreeSet<Vrp, A>,
    exceptions: &'a Exceptions<B>,
) -> Stretches<'a, B>
    ensures { result ≡ stretches (prefixes_of (passing (is_turned exceptions.now filter) set.now.keys)) }
{
    Stretches {
        payloads: set.union(set),
        exceptions,
        filter: Some(filter),
        last: None,
    }
}

impl<'a, B: Allocator> Iterator for Stretches<'a, B> {
    type Item = Prefix;

    ghost next_gives = { YieldsFirstBy (λ p. p) (λ left. left) };

    ghost remaining = { item_count (λ left. left) };

    fn next(&mut self) -> Option<Prefix> {
        while let Some(payload) = self.payloads.next() {
            let prefix = payload.prefix;
            if is_sought(self.exceptions, self.filter, payload) && !is_inside(self.last, prefix) {
                self.last = Some(prefix);
                return Some(prefix);
            }
        }
        None
    }
}

// Whether the walk stops at the payload.
fn is_sought<B: Allocator>(
    exceptions: &Exceptions<B>,
    filter: Option<Filter>,
    payload: &Vrp,
) -> bool
    ensures { result ≡ is_sought exceptions.now filter payload.now }
{
    match filter {
        Some(filter) => exceptions.is_turned(&filter, payload),
        None => exceptions.is_untouched(payload),
    }
}

// Whether the last stretch covers the prefix.
fn is_inside(last: Option<Prefix>, prefix: Prefix) -> bool
    ensures { result ≡ is_inside last prefix }
{
    match last {
        Some(last) => last.covers(&prefix),
        None => false,
    }
}
