//! What operators ask of the configuration and of one route.
ghost use Rattle.std.specs.Prelude.{◌≡◌};
ghost use Rattle.std.specs.Option.{option_copied};
ghost use Rattle.origin_valid.specs.Validity.{validity};
ghost use Rattle.routing.specs.Offers.{IsOffer};
ghost use Rattle.routing.specs.Tables.{peer_route_at};
ghost use Rattle.runs.specs.AdjRibIn.{route};
ghost use Rattle.runs.specs.Agreement.{Agrees, tables_after};
ghost use Rattle.runs.specs.Runs.{Run, configuration_of, history, payloads_after};
ghost use Rattle.runs.specs.SpeakerState.{in_force_of, tables_of};
ghost use Rattle.runs.specs.declared.config.Config.{Config};

use crate::step::Speaker;
use bgp_attr::Attrs;
use bgp_conf::Conf;
use decision::{Book, Candidate, LOCAL_SLOT};
use net_prefix::{Asn, Prefix};
use origin_valid::Validity;
use std::alloc::Allocator;

impl<A: Allocator + Clone, B: Book<A>> Speaker<A, B> {
    /// The configuration in force.
    pub fn conf(&self) -> &Conf<A>
        ensures kept { result.now ≡ self.now.conf }
        ensures agrees { (config : Config) (r : Run) → Agrees config r self.now → result.now ≡ configuration_of config r }
    {
        self.configuration()
    }

    fn configuration(&self) -> &Conf<A>
        ensures { result.now ≡ self.now.conf }
    {
        self.routes.conf()
    }

    /// The route to a prefix that a slot's peer has announced and not taken back.
    pub fn route(&self, slot: u8, prefix: Prefix) -> Option<&Attrs<A>>
        ensures kept { option_copied result ≡ peer_route_at self.now.adj_in slot prefix }
        ensures agrees { (config : Config) (r : Run) → Agrees config r self.now → option_copied result ≡ route (history config slot r) prefix }
    {
        self.peer_route(slot, prefix)
    }

    fn peer_route(&self, slot: u8, prefix: Prefix) -> Option<&Attrs<A>>
        ensures { option_copied result ≡ peer_route_at self.now.adj_in slot prefix }
    {
        if slot == LOCAL_SLOT {
            return None;
        }
        self.routes.route(slot, prefix)
    }

    /// The candidate that a slot's route to a prefix makes, or under `LOCAL_SLOT` a local network, if it makes one.
    pub fn candidate(&self, slot: u8, prefix: Prefix) -> Option<Candidate>
        ensures kept { IsOffer (tables_of self.now) slot prefix result }
        ensures agrees { (config : Config) (r : Run) → Agrees config r self.now → IsOffer (tables_after config r) slot prefix result }
    {
        self.offer(slot, prefix)
    }

    fn offer(&self, slot: u8, prefix: Prefix) -> Option<Candidate>
        ensures { IsOffer (tables_of self.now) slot prefix result }
    {
        self.routes.candidate(slot, prefix)
    }

    /// The state of a route of this origin AS to a prefix in the payloads in force (RFC 6811 section 2).
    pub fn state(&self, prefix: Prefix, origin: Option<Asn>) -> Validity
        ensures kept { result ≡ validity (in_force_of self.now) prefix origin }
        ensures agrees { (config : Config) (r : Run) → Agrees config r self.now → result ≡ validity (payloads_after config r) prefix origin }
    {
        self.state_in_force(prefix, origin)
    }

    fn state_in_force(&self, prefix: Prefix, origin: Option<Asn>) -> Validity
        ensures { result ≡ validity (in_force_of self.now) prefix origin }
    {
        self.routes.state(prefix, origin)
    }
}
