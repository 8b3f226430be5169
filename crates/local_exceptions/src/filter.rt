//! Filters, and which payloads they match.
ghost use Rattle.std.specs.Prelude.{◌≡◌, Option, MatchResult, Some, None};
ghost use Rattle.std.specs.declared.cmp.Ordering.TheVariants.{Equal};
ghost use Rattle.local_exceptions.specs.FilterOrder.{filter_cmp};
ghost use Rattle.local_exceptions.specs.Filters.{filter_of, matches};
ghost use Rattle.local_exceptions.specs.declared.filter.Filter.{Filter};

use crate::fault::ExceptionFault;
use net_prefix::{Asn, Prefix, Vrp};

/// Which payloads are taken out (RFC 8416 section 3.3.1).
#[derive(Clone, Copy, Debug, PartialEq, Eq, PartialOrd, Ord)]
pub enum Filter {
    /// Those whose prefixes this one covers, the same prefix included.
    Prefix(Prefix),
    /// Those of the AS.
    As(Asn),
    /// Those of the AS whose prefixes this one covers.
    Both(Prefix, Asn),
}

impl Filter {
    /// The filter of these parts. The fault is that there is neither.
    pub fn new(prefix: Option<Prefix>, asn: Option<Asn>) -> Result<Filter, ExceptionFault>
        ensures { MatchResult result (λ filter. filter_of prefix asn ≡ Some filter) (λ fault. (fault ≡ ExceptionFault.Range) × (filter_of prefix asn ≡ None)) }
    {
        match (prefix, asn) {
            (Some(prefix), Some(asn)) => Ok(Filter::Both(prefix, asn)),
            (Some(prefix), None) => Ok(Filter::Prefix(prefix)),
            (None, Some(asn)) => Ok(Filter::As(asn)),
            (None, None) => Err(ExceptionFault::Range),
        }
    }

    /// Whether the filter takes out the payload.
    pub fn matches(&self, payload: &Vrp) -> bool
        ensures { result ≡ matches self.now payload.now }
    {
        match self {
            Filter::Prefix(prefix) => prefix.covers(&payload.prefix),
            Filter::As(asn) => *asn == payload.asn,
            Filter::Both(prefix, asn) => *asn == payload.asn && prefix.covers(&payload.prefix),
        }
    }
}

/// Filters are kept in the order that is told, and those at one place of it are one.
pub fn filters_are_ordered()
    ensures order { (a b : Filter) → ⟦<crate::filter::Filter as Ord>⟧.cmp a b ≡ filter_cmp a b }
    ensures exact { (a b : Filter) → filter_cmp a b ≡ Equal → a ≡ b }
{}
