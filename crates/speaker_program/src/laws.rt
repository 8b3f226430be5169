//! What follows of turns that a program takes.
ghost use Rattle.std.specs.Prelude.{ℕ, List, Result};
ghost use Rattle.speaker_program.specs.declared.fault.SpeakerFault.{SpeakerFault};
ghost use Rattle.speaker_program.specs.Commanded.{TakesSoMany};
ghost use Rattle.speaker_turns.specs.Turns.{TakesTurns, Turns};

/// The turns that a program takes are turns of its loop, however they end, so that what is said of any turns is said of them.
pub fn served_turns_are_turns()
    ensures { (count : ℕ) (result : Result (Unit {0}) SpeakerFault) (before behind : List ℕ) (old new : Turns) → TakesSoMany count result before behind old new → (moments : List ℕ) × TakesTurns moments old new }
{}
