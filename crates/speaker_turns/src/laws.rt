//! What follows of turns.
ghost use Rattle.std.specs.Prelude.{◌≡◌, ◌<◌, ◌-◌, ◌^◌, ◌++◌, ℕ, List, Result, Ok, Err, Some, length, true};
ghost use Rattle.runs.specs.Agreement.{Agrees};
ghost use Rattle.runs.specs.Runs.{Run};
ghost use Rattle.runs.specs.declared.config.Config.{Config};
ghost use Rattle.wires.specs.Counts.{LosesJust, LosesNoMore};
ghost use Rattle.wires.specs.declared.fault.LoopFault.{LoopFault};
ghost use Rattle.speaker_turns.specs.Carrying.{CarriesOwn, IsFresh};
ghost use Rattle.speaker_turns.specs.Ends.{place_count};
ghost use Rattle.speaker_turns.specs.Losses.{LosesAllButOne};
ghost use Rattle.bgp_conf.specs.declared.command.Command.{Command};
ghost use Rattle.bgp_conf.specs.declared.refusal.Refusal.{Refusal};
ghost use Rattle.runs.specs.declared.event.Report.{Report};
ghost use Rattle.speaker_turns.specs.Obeying.{Obeys};
ghost use Rattle.speaker_turns.specs.Outlasting.{OutlastsAStep};
ghost use Rattle.speaker_turns.specs.Serving.{Connection, is_over, is_overdue};
ghost use Rattle.speaker_turns.specs.Turns.{IsNearer, TakesTurn, TakesTurns, Turns, VisitsAll, endless, is_off, moment_of, place_at};

/// A turn that goes well loses just as many connections, and attempts at one, as the wire told faults and ends of input and the
/// loop closed connections of sessions that the speaker had closed, while no count is at the greatest u64; in one that can't
/// accept the fault of the listener is told too, and is no loss.
pub fn as_many_are_lost_as_are_counted()
    ensures well { (now : ℕ) (old new : Turns) (done : Unit {0}) → TakesTurn now old (Ok done) new → LosesJust old.counts new.counts }
    ensures stops { (now : ℕ) (old new : Turns) (fault : LoopFault) → TakesTurn now old (Err fault) new → LosesAllButOne old.counts new.counts }
    ensures any { (now : ℕ) (old new : Turns) (result : Result (Unit {0}) LoopFault) → TakesTurn now old result new → LosesNoMore old.counts new.counts }
{}

/// A connection that is known to end and is put off in a turn is nearer to its own turn behind it: where its place is below the
/// one from which the turn looked, the next one looks from a higher place, or from the first one; else from a higher one that
/// isn't above its place. So it is visited in one of 132 turns.
pub fn those_that_end_have_their_turn()
    ensures { (now key : ℕ) (old new : Turns) (visits : VisitsAll now old new) → is_off old.next visits.one key ≡ true → IsNearer key old.next new.next }
{}

/// Whatever turns are taken, the speaker is as calls of it leave it: for every run that it agreed with, it agrees with that run
/// followed by theirs.
pub fn turns_are_calls_of_the_speaker()
    ensures { (moments : List ℕ) (old new : Turns) → length old.places ≡ place_count → TakesTurns moments old new → (config : Config) (r : Run) → Agrees config r old.speaker → (more : Run) × Agrees config (more ++ r) new.speaker }
{}

/// Over any turns from the beginning on, while no more sockets came than a u64 counts: each session has heard just what its own
/// socket gave, and what its socket took and what waits for it is just what the speaker handed out for it, in order.
pub fn sessions_carry_their_own_octets()
    ensures { (config : Config) (r : Run) (moments : List ℕ) (start new : Turns) (key : ℕ) (line : Connection) → Agrees config r start.speaker → length start.places ≡ place_count → IsFresh start → TakesTurns moments start new → new.counts.wire.sockets < 2 ^ 64 - 1 → (place_at new key).line ≡ Some line → line.is_up ≡ true → CarriesOwn config r new key line }
{}

/// Whatever turns are taken, the wire listens where it did.
pub fn wires_listen_where_they_did()
    ensures { (moments : List ℕ) (old new : Turns) → TakesTurns moments old new → new.counts.wire.listens ≡ old.counts.wire.listens }
{}

/// No turns and no command change how patient a loop is.
pub fn loops_stay_as_patient()
    ensures turns { (moments : List ℕ) (old new : Turns) → TakesTurns moments old new → new.patience ≡ old.patience }
    ensures commands { (command : Command) (old new : Turns) (answer : Result Report Refusal) → Obeys command old answer new → new.patience ≡ old.patience }
{}

/// Where patience is endless no connection falls but with a closed session.
pub fn endless_patience_ends_nothing()
    ensures { (turns : Turns) (line : Connection) (now : ℕ) → turns.patience ≡ endless → is_over line (moment_of turns now) ≡ is_overdue line.closing now }
{}

/// In a turn what has come is heard before the speaker is told the turn's moment. Where that is two seconds at most behind the
/// last one, no session of whose peer a message was heard is ended by its hold timer.
pub fn what_is_heard_outlasts_a_step()
    ensures { OutlastsAStep }
{}
