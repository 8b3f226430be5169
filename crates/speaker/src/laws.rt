//! Laws of the definitions that contracts cite: each is a function that does nothing, whose contract is the law.
ghost use Rattle.std.specs.Prelude.{◌≡◌, ◌<◌, ◌^◌, ℕ, ◌∷◌, List, Option, MatchOption, ⊤, false};
ghost use Rattle.bgp_conf.specs.PeerPolicies.{import_action};
ghost use Rattle.bgp_peer.specs.SessionInputs.{moment_of, session};
ghost use Rattle.decision.specs.declared.candidate.Candidate.{Candidate};
ghost use Rattle.export_rules.specs.Export.{local_pref_of};
ghost use Rattle.export_rules.specs.declared.export.ExportPeer.{ExportPeer};
ghost use Rattle.net_prefix.specs.declared.prefix.Prefix.{Prefix};
ghost use Rattle.rib_out.specs.Slots.{has_slot};
ghost use Rattle.runs.specs.Agreement.{Agrees, AreOwed};
ghost use Rattle.routing.specs.Candidates.{IsPeerCandidate, seen_of};
ghost use Rattle.runs.specs.Concerned.{is_call_for};
ghost use Rattle.routing.specs.Export.{IsExport, SetsDegree};
ghost use Rattle.runs.specs.FirstRefusal.{refusal_in, refusal_of, take_refusal_in, take_refusal_of};
ghost use Rattle.routing.specs.LocRib.{AreBest, IsBest};
ghost use Rattle.runs.specs.Queueing.{Queue, Starves};
ghost use Rattle.runs.specs.Runs.{Call, Run, history, moment_after, report_of, turn};
ghost use Rattle.runs.specs.SpeakerState.{SpeakerState};
ghost use Rattle.routing.specs.Tables.{Tables};
ghost use Rattle.runs.specs.declared.config.Config.{Config};
ghost use Rattle.runs.specs.declared.event.Event.{Event};
ghost use Rattle.runs.specs.declared.event.TheConstants.Report.{NOTHING};

/// A prefix has at most one best route, so that there is one Loc-RIB, and at most one export to a peer.
pub fn one_export()
    ensures best { (t : Tables) (prefix : Prefix) (c d : Candidate) → IsBest t prefix c → IsBest t prefix d → c ≡ d }
    ensures loc_rib { (t : Tables) (a b : Prefix → Option Candidate) → AreBest t a → AreBest t b → a ≡ b }
    ensures export { (t : Tables) (peer : ExportPeer) (prefix : Prefix) (a b : Option (List ℕ)) → IsExport t peer prefix a → IsExport t peer prefix b → a ≡ b }
{}

/// The LOCAL_PREF with which internal peers are told a peer's route is just its degree of preference, since four octets say the
/// LOCAL_PREF that came with it and what the rule sets that takes it (RFC 4271 section 5.1.5).
pub fn degrees_are_told()
    ensures { (t : Tables) (prefix : Prefix) (c : Candidate) → (is : IsPeerCandidate t prefix c) → MatchOption is.attrs.local_pref ⊤ (λ n. n < 2 ^ 32)
        → SetsDegree (import_action t.conf is.made.slot (seen_of t.conf.own t.payloads is.made.slot prefix is.attrs)) → local_pref_of c ≡ c.degree }
{}

/// A speaker that agrees with a run refuses an event, and octets to be handed out, as the histories of the run say.
pub fn refusals_are_of_the_run()
    ensures event { (config : Config) (r : Run) (s : SpeakerState) (event : Event) → Agrees config r s → refusal_of s event ≡ refusal_in config r event }
    ensures take { (config : Config) (r : Run) (s : SpeakerState) (slot : ℕ) → Agrees config r s → take_refusal_of s slot ≡ take_refusal_in config r slot }
{}

/// What happens to a slot comes at the moment of the run, whichever slot it is.
pub fn moments_are_of_the_run()
    ensures { (config : Config) (r : Run) (slot : ℕ) → moment_of (history config slot r) ≡ moment_after r }
{}

/// A call changes no session but those that it is for and those of which its report says that memory was refused: a tick
/// is for all, what comes to the cache session for none.
pub fn other_sessions_stay()
    ensures { (config : Config) (r : Run) (call : Call) (queue : Queue) (slot : ℕ) → is_call_for call slot ≡ false → has_slot (report_of config r (turn call queue)).starved slot ≡ false
        → session (history config slot (turn call queue ∷ r)) ≡ session (history config slot r) }
{}

/// In a call memory is refused to a slot at most once: one to which it is refused at the end of the call isn't among those that
/// the report of what the call did before names. So a call closes 64 sessions for it at most.
pub fn each_slot_starves_once()
    ensures { (config : Config) (r : Run) (call : Call) (queue : Queue) (slot : ℕ) → AreOwed config call r ((slot, Starves) ∷ queue)
        → has_slot (report_of config r (turn call queue)).starved slot ≡ false }
{}

/// The report of nothing tells of nothing.
pub fn nothing_is_reported()
    ensures { NOTHING ≡ record { opened = 0; starved = 0; cache_opened = false; cache_starved = false } }
{}
