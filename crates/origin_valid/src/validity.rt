//! The states of a route's origin.
ghost use Rattle.std.specs.Prelude.{◌≡◌, Some, [], ◌∷◌};
ghost use Rattle.origin_valid.specs.Validity.{matches, validity};
ghost use Rattle.origin_valid.specs.StatesUnder.{both};
ghost use Rattle.origin_valid.specs.ValidityNames.{name_of};

use net_prefix::{Asn, Prefix, Vrp};
use std::fmt;

/// What the payloads say of a route's origin (RFC 6811 section 2).
#[derive(Clone, Copy, Debug, PartialEq, Eq)]
pub enum Validity {
    /// Some payload matches the route.
    Valid,
    /// Some payload covers the route's prefix, and none matches the route.
    Invalid,
    /// No payload covers the route's prefix.
    NotFound,
}

impl fmt::Display for Validity {
    ghost output = { λ state. Some (name_of state) };

    fn fmt<W: fmt::Write>(&self, f: &mut fmt::Formatter<W>) -> fmt::Result {
        f.write_str(match self {
            Validity::Valid => "Valid",
            Validity::Invalid => "Invalid",
            Validity::NotFound => "NotFound",
        })
    }
}

// No route matches a payload of this AS (RFC 6811 section 2).
const NO_AS: Asn = Asn(0);

/// Whether the payload matches the route: it covers the prefix, which is no longer than its maximum length, and the
/// origin is its AS, which isn't 0 (RFC 6811 section 2).
pub(crate) fn matches(payload: &Vrp, prefix: &Prefix, origin: Option<Asn>) -> bool
    ensures { result ≡ matches prefix.now origin payload.now }
{
    payload.prefix.covers(prefix)
        && prefix.len <= payload.max_len
        && payload.asn != NO_AS
        && origin == Some(payload.asn)
}

/// The state by one payload.
pub(crate) fn state_by(payload: &Vrp, prefix: &Prefix, origin: Option<Asn>) -> Validity
    ensures { result ≡ validity (payload.now ∷ []) prefix.now origin }
{
    if matches(payload, prefix, origin) {
        Validity::Valid
    } else if payload.prefix.covers(prefix) {
        Validity::Invalid
    } else {
        Validity::NotFound
    }
}

/// The state by the payloads of two sets, from the state by each.
pub(crate) fn both(one: Validity, other: Validity) -> Validity
    ensures { result ≡ both one other }
{
    match one {
        Validity::Valid => Validity::Valid,
        Validity::Invalid => match other {
            Validity::Valid => Validity::Valid,
            Validity::Invalid => Validity::Invalid,
            Validity::NotFound => Validity::Invalid,
        },
        Validity::NotFound => other,
    }
}
