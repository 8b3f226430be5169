//! What commands of local exceptions do to the routes (RFC 8416 section 3): payloads come into force by them or go.
ghost use Rattle.std.specs.Prelude.{◌≡◌, [], OnOk, OnErr, MatchOption};
ghost use Rattle.bgp_conf.specs.ConfAfter.{TakesMemory};
ghost use Rattle.bgp_conf.specs.FirstRefusal.{IsAccepted};
ghost use Rattle.net_prefix.specs.PayloadSets.{has};
ghost use Rattle.routes.specs.Commands.{TurnsAssertion, TurnsFilter};
ghost use Rattle.routing.specs.RoutesState.{ObeysExceptions};
ghost use Rattle.routing.specs.Tables.{payloads_under};

use crate::routes::Routes;
use bgp_conf::{Command, Conf};
use decision::Book;
use local_exceptions::Filter;
use net_prefix::Vrp;
use origin_valid::PayloadTrie;
use routing::{choose_turned, choose_within};
use std::alloc::{AllocError, Allocator};
use std::collections::BTreeSet;

impl<A: Allocator + Clone, B: Book<A>> Routes<A, B> {
    /// A filter comes or goes. `loaded` has the payloads that are loaded, and is None where there are none. Where memory is
    /// refused, nothing changes.
    pub fn filter(
        &mut self,
        command: &Command<'_>,
        filter: Filter,
        loaded: Option<&BTreeSet<Vrp, A>>,
    ) -> Result<(), AllocError>
        requires accepted { IsAccepted self.old.conf command.now }
        requires turns { TurnsFilter filter command.now }
        requires loaded { MatchOption loaded (self.old.payloads ≡ []) (λ set. set.now.keys ≡ self.old.payloads) }
        ensures ok { OnOk result (ObeysExceptions command.now self.old self.new) }
        ensures err { OnErr result (self.new ≡ self.old) }
        ensures memory { OnErr result (TakesMemory self.old.conf command.now) }
    {
        let was_there = self.conf.exceptions().has_filter(&filter);
        self.conf.apply(command)?;
        if self.conf.exceptions().has_filter(&filter) == was_there {
            return Ok(());
        }
        if let Some(loaded) = loaded {
            choose_turned(
                &self.conf,
                &self.payloads,
                &self.links,
                &mut self.routing,
                filter,
                loaded,
            );
        }
        Ok(())
    }

    /// A payload is asserted, or is so no more. Where memory is refused, nothing changes.
    pub fn assert(&mut self, command: &Command<'_>, payload: Vrp) -> Result<(), AllocError>
        requires accepted { IsAccepted self.old.conf command.now }
        requires turns { TurnsAssertion payload command.now }
        ensures ok { OnOk result (ObeysExceptions command.now self.old self.new) }
        ensures err { OnErr result (self.new ≡ self.old) }
        ensures memory { OnErr result (TakesMemory self.old.conf command.now) }
    {
        let was_in_force = is_in_force(&self.conf, &self.payloads, &payload);
        self.conf.apply(command)?;
        if is_in_force(&self.conf, &self.payloads, &payload) == was_in_force {
            return Ok(());
        }
        choose_within(
            &self.conf,
            &self.payloads,
            &self.links,
            &mut self.routing,
            payload.prefix,
        );
        Ok(())
    }
}

// Whether the payload is in force.
fn is_in_force<A: Allocator + Clone>(
    conf: &Conf<A>,
    payloads: &PayloadTrie<A>,
    payload: &Vrp,
) -> bool
    ensures { result ≡ has (payloads_under conf.now payloads.now) payload.now }
{
    conf.exceptions()
        .is_in_force(payload, payloads.contains(payload))
}
