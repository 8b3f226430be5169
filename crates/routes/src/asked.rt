//! What is asked of one route.
ghost use Rattle.std.specs.Prelude.{◌≡◌, ◌≤◌};
ghost use Rattle.std.specs.Option.{option_copied};
ghost use Rattle.origin_valid.specs.Validity.{validity};
ghost use Rattle.rib_in.specs.LatestRoutes.{route_at};
ghost use Rattle.routing.specs.Offers.{IsOffer};
ghost use Rattle.routing.specs.RoutesState.{payloads_in_force, tables_in};

use crate::routes::Routes;
use bgp_attr::Attrs;
use decision::{Book, Candidate, LOCAL_SLOT};
use net_prefix::{Asn, Prefix};
use origin_valid::Validity;
use routing::remade_at;
use std::alloc::Allocator;

impl<A: Allocator + Clone, B: Book<A>> Routes<A, B> {
    /// The latest route of a slot to a prefix; under `LOCAL_SLOT` a local network.
    pub fn route(&self, slot: u8, prefix: Prefix) -> Option<&Attrs<A>>
        ensures { option_copied result ≡ route_at self.now.adj_in slot prefix }
    {
        self.routing.ribs().route(slot, prefix)
    }

    /// The candidate that a slot's route to a prefix makes now, if it makes one.
    pub fn candidate(&self, slot: u8, prefix: Prefix) -> Option<Candidate>
        ensures { IsOffer (tables_in self.now) slot prefix result }
    {
        if slot > LOCAL_SLOT {
            return None;
        }
        self.candidate_at(slot, prefix)
    }

    fn candidate_at(&self, slot: u8, prefix: Prefix) -> Option<Candidate>
        requires { slot ≤ 64 }
        ensures { IsOffer (tables_in self.now) slot prefix result }
    {
        match remade_at(
            &self.conf,
            &self.payloads,
            &self.links,
            self.routing.ribs(),
            slot,
            prefix,
        ) {
            Some(change) => change.candidate,
            None => None,
        }
    }

    /// The state of a route of this origin AS to a prefix, in the payloads in force.
    pub fn state(&self, prefix: Prefix, origin: Option<Asn>) -> Validity
        ensures { result ≡ validity (payloads_in_force self.now) prefix origin }
    {
        self.payloads
            .state_under(self.conf.exceptions(), &prefix, origin)
    }
}
