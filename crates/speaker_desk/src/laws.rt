//! What follows of turns with operators between them.
ghost use Rattle.std.specs.Prelude.{◌≡◌, ◌<◌, ◌+◌, ◌-◌, ◌^◌, ◌++◌, ℕ, Contains, List, None, Ok, Result, Some, length, true};
ghost use Rattle.runs.specs.Agreement.{Agrees};
ghost use Rattle.runs.specs.Runs.{Run};
ghost use Rattle.runs.specs.declared.config.Config.{Config};
ghost use Rattle.speaker_turns.specs.Carrying.{CarriesOwn, IsFresh};
ghost use Rattle.speaker_turns.specs.Ends.{place_count};
ghost use Rattle.speaker_turns.specs.Serving.{Connection};
ghost use Rattle.speaker_turns.specs.Turns.{Turns, place_at};
ghost use Rattle.speaker_desk.specs.Attended.{AttendsTurns, Hall, TakesRounds};
ghost use Rattle.speaker_desk.specs.Moves.{AreCallsOfAll, Move, MovesAll, TakesMoves};
ghost use Rattle.speaker_desk.specs.Rounds.{BecomesOf, StopAtAsking};
ghost use Rattle.speaker_desk.specs.declared.attending.AttendFault.{AttendFault};

use control_lines::Operators;

/// Whatever turns are taken and whatever operators ask for between them, the speaker is as calls of it leave it: for every run
/// that it agreed with, it agrees with that run followed by theirs, in which each command that was accepted stands between the
/// turns between which it came.
pub fn commands_stand_between_turns()
    ensures { (moves : List Move) (old new : Turns) → length old.places ≡ place_count → MovesAll moves old new → (config : Config) (r : Run) → Agrees config r old.speaker → (more : Run) × AreCallsOfAll moves more × Agrees config (more ++ r) new.speaker }
{}

/// Nor do operators change what sessions carry: from the beginning on, while no more sockets came than a u64 counts, each
/// session has heard just what its own socket gave, and what its socket took and what waits for it is just what the speaker
/// handed out for it, in order.
pub fn commands_leave_what_sessions_carry()
    ensures { (config : Config) (r : Run) (moves : List Move) (start new : Turns) (key : ℕ) (line : Connection) → Agrees config r start.speaker → length start.places ≡ place_count → IsFresh start → MovesAll moves start new → new.counts.wire.sockets < 2 ^ 64 - 1 → (place_at new key).line ≡ Some line → line.is_up ≡ true → CarriesOwn config r new key line }
{}

/// Turns with operators between them are turns at the moments that the clock told, the commands that lines ask for, and peers
/// that are let through.
pub fn attended_turns_are_moves<P: Operators>()
    ensures { (count : ℕ) (result : Result (Unit {0}) AttendFault) (before behind : List ℕ) (old new : Hall P) → AttendsTurns P.wish P.line P.turns P.hears count result before behind old new → TakesMoves count result before behind old.stand.served new.stand.served }
{}

/// Where all is well behind fewer turns than were asked for, an operator's line was `stop` in a round before the last turn.
pub fn fewer_turns_were_stopped<P: Operators>()
    ensures { (count : ℕ) (before behind : List ℕ) (old new : Hall P) → AttendsTurns P.wish P.line P.turns P.hears {E = AttendFault} count (Ok tt) before behind old new → old.stand.desk.stopped ≡ None → length behind < count + length before → StopAtAsking P.wish P.line P.turns P.hears before behind old }
{}

/// A peer that waits is enabled in the first round in which it may go, and the gate enables none before, unless an operator's
/// line decides on it.
pub fn waiting_peers_go_when_they_may<P: Operators>()
    ensures { (slot : ℕ) (moments : List ℕ) (old new : Hall P) (rounds : TakesRounds P.wish P.line P.turns P.hears moments old new) → Contains old.stand.desk.waiting.slots slot → BecomesOf P.wish P.line P.turns P.hears slot moments old new rounds }
{}
