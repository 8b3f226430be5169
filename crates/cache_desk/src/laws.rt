//! What follows of a desk's rounds.
ghost use Rattle.std.specs.Prelude.{◌≡◌, ◌⊎◌, ℕ, Option, Some};
ghost use Rattle.cache_desk.specs.Desks.{Attends, DeskState, IsToldToStop};
ghost use Rattle.cache_desk.specs.declared.reading.Reading.{Reading};

use control_lines::Operators;

/// A desk is stopped by an operator whose line is `stop`, at the moment of the answer, and by nothing else.
pub fn desks_stop_by_the_word_stop<P: Operators>()
    ensures { (now : ℕ) (reading : Option Reading) (old new : DeskState P) → Attends P.wish P.line P.hears now reading old new → (new.stopped ≡ old.stopped) ⊎ ((new.stopped ≡ Some now) × IsToldToStop P.wish P.line) }
{}
