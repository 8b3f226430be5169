//! What commands of local exceptions do (RFC 8416 section 3).
ghost use Rattle.std.specs.Prelude.{◌≡◌, ◌≤◌, ◌⊎◌, [], ◌∷◌, IfOk, OnOk, OnErr, None, MatchOption};
ghost use Rattle.bgp_conf.specs.ConfAfter.{TakesMemory};
ghost use Rattle.bgp_conf.specs.FirstRefusal.{first_refusal};
ghost use Rattle.bgp_conf.specs.declared.command.Command.TheVariants.{Filter as AddsFilter, NoFilter as DropsFilter, Assert as Asserts, NoAssert as DropsAssertion};
ghost use Rattle.runs.specs.Agreement.{Holds};
ghost use Rattle.runs.specs.FirstRefusal.{closing_for};
ghost use Rattle.runs.specs.Runs.{Run, turn, Command_call, opened_commanded};
ghost use Rattle.runs.specs.SpeakerState.{payloads_in, tables_of};
ghost use Rattle.runs.specs.declared.config.Config.{Config as TheConfig};

use crate::step::Speaker;
use bgp_conf::Command;
use decision::Book;
use local_exceptions::Filter;
use net_prefix::{Asn, Prefix, Vrp};
use rtr_session::CacheSession;
use std::alloc::{AllocError, Allocator};
use std::collections::BTreeSet;

impl<A: Allocator + Clone, B: Book<A>> Speaker<A, B> {
    ghost use Rattle.runs.specs.SpeakerState.{IsAsBefore};

    // A filter comes or goes. Where memory is refused, it stays as it was.
    pub(crate) fn turn_filter(
        &mut self,
        command: &Command<'_>,
        prefix: Option<Prefix>,
        asn: Option<Asn>,
    ) -> Result<u64, AllocError>
        requires accepted { first_refusal self.old.conf (closing_for (tables_of self.old) command.now) command.now ≡ None }
        requires turns { (command.now ≡ AddsFilter prefix asn) ⊎ (command.now ≡ DropsFilter prefix asn) }
        ensures err { OnErr result (IsAsBefore self.old self.new) }
        ensures memory { OnErr result (TakesMemory self.old.conf command.now) }
        ensures ok { IfOk result (λ opened. (config : TheConfig) (r : Run) → Holds config r self.old
            → Holds config (turn (Command_call command.now) [] ∷ r) self.new × (opened ≡ opened_commanded config r command.now)) }
        ensures counted { OnOk result (self.new.chosen_before ≡ self.old.chosen) }
        ensures rises { OnOk result (self.old.chosen ≤ self.new.chosen) }
    {
        let before = self.routes.chosen();
        // One of neither part is refused.
        let Ok(filter) = Filter::new(prefix, asn) else {
            unreachable!();
        };
        self.routes.filter(command, filter, loaded_by(&self.cache))?;
        self.chosen_before = before;
        Ok(0)
    }

    // A payload is asserted, or is so no more. Where memory is refused, all stays as it was.
    pub(crate) fn turn_assertion(
        &mut self,
        command: &Command<'_>,
        prefix: Prefix,
        max_len: u8,
        asn: Asn,
    ) -> Result<u64, AllocError>
        requires accepted { first_refusal self.old.conf (closing_for (tables_of self.old) command.now) command.now ≡ None }
        requires turns { (command.now ≡ Asserts prefix max_len asn) ⊎ (command.now ≡ DropsAssertion prefix max_len asn) }
        ensures err { OnErr result (IsAsBefore self.old self.new) }
        ensures memory { OnErr result (TakesMemory self.old.conf command.now) }
        ensures ok { IfOk result (λ opened. (config : TheConfig) (r : Run) → Holds config r self.old
            → Holds config (turn (Command_call command.now) [] ∷ r) self.new × (opened ≡ opened_commanded config r command.now)) }
        ensures counted { OnOk result (self.new.chosen_before ≡ self.old.chosen) }
        ensures rises { OnOk result (self.old.chosen ≤ self.new.chosen) }
    {
        let before = self.routes.chosen();
        // A maximum length that is none of the prefix is refused.
        let Ok(payload) = Vrp::new(prefix, max_len, asn) else {
            unreachable!();
        };
        self.routes.assert(command, payload)?;
        self.chosen_before = before;
        Ok(0)
    }
}

// The payloads that a cache session has loaded; none where there is no session.
fn loaded_by<A: Allocator + Clone>(cache: &Option<CacheSession<A>>) -> Option<&BTreeSet<Vrp, A>>
    ensures { MatchOption result (payloads_in cache.now ≡ []) (λ set. set.now.keys ≡ payloads_in cache.now) }
{
    match cache {
        Some(session) => Some(session.payloads()),
        None => None,
    }
}
