//! A route as policies see it.

use bgp_attr::AsPath;
use net_prefix::{Asn, Prefix};
use origin_valid::Validity;
use std::alloc::{Allocator, Global};
use std::marker::Model;

/// A route as policies see it: as it was received.
#[derive(Drop)]
pub struct SeenRoute<'a, A: Allocator = Global> {
    pub prefix: Prefix,
    /// The state of its origin (RFC 6811 section 2).
    pub state: Validity,
    /// Its origin AS, if it has one.
    pub origin: Option<Asn>,
    /// Its path; none where it came without one.
    pub path: Option<&'a AsPath<A>>,
    /// The slot of the peer that announced it; none of a local network.
    pub from: Option<u8>,
}

impl<'a, A: Allocator> Model for SeenRoute<'a, A> {
    ghost use Rattle.std.specs.Option.{option_copied};
    ghost use Rattle.policy.specs.PolicyMeaning.{Route};

    ghost Value = { Route };

    ghost view = { λ r. record { prefix = r.prefix; state = r.state; origin = r.origin; path = option_copied r.path; from = r.from } };
}
