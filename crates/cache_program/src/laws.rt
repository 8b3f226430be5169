//! What follows of turns.
ghost use Rattle.std.specs.Prelude.{◌≡◌, ◌⊎◌, ℕ, List, Option, None, is_some, length, true};
ghost use Rattle.cache_turns.specs.Turns.{Step, TakesSteps};
ghost use Rattle.list_guards.specs.Guarding.{HasEnough, HasRoom};
ghost use Rattle.cache_program.specs.AttendedTurns.{AttendsOperators, AttendsTurns};
ghost use Rattle.cache_program.specs.Opened.{AnyAge, AnyList, AnyPath, AnySecond, AnyWire};
ghost use Rattle.cache_program.specs.Rereads.{Served, served_set};
ghost use Rattle.cache_program.specs.ServedTurns.{IsServed, Moment, NobodyAsks, ServesAll};
ghost use Rattle.cache_settings.specs.declared.settings.CacheSettings.{CacheSettings};
ghost use Rattle.cache_desk.specs.Desks.{DeskState, IsToldToStop, stopped_at};

use control_lines::Operators;

/// What is done to a served list at moments are turns of its loop, and sets that are loaded between them, so that what
/// follows of these for each connection (crate cache_turns) holds of it.
pub fn served_turns_are_steps()
    ensures { (seconds since : Option ℕ) (moments : List Moment) (old new : Served) → ServesAll AnyList seconds since moments old new → (steps : List Step) × TakesSteps steps old.turns new.turns }
{}

/// At a closed desk just so many turns are taken as are wanted, and nobody asks for a reading.
pub fn all_turns_are_taken_where_nobody_may_ask<P: Operators>()
    ensures { (new : Option (DeskState P)) (count : ℕ) (moments : List Moment) → AttendsTurns P.wish P.line P.turns P.hears None new count moments → (length moments ≡ count) × NobodyAsks moments }
{}

/// Fewer are taken only where an operator's line is `stop`.
pub fn turns_end_early_by_the_word_stop<P: Operators>()
    ensures { (old new : Option (DeskState P)) (count : ℕ) (moments : List Moment) → stopped_at old ≡ None → AttendsTurns P.wish P.line P.turns P.hears old new count moments → (length moments ≡ count) ⊎ IsToldToStop P.wish P.line }
{}

/// However many turns are taken, whatever the system answers, and whichever lists are read again: what is served has as many
/// payloads as the settings want. The one exception is a list that an operator has accepted, where the settings have a path for
/// operators.
pub fn no_fewer_are_served_than_are_wanted<P: Operators>()
    ensures { (settings : CacheSettings) (count : ℕ) (before behind : List ℕ) (served : Served) → IsServed AnyList AnyAge AnyWire AnySecond (AttendsOperators P.wish P.line P.turns P.hears AnyPath) settings count before behind served → ((is_some settings.control ≡ true) × (served.accepted ≡ true)) ⊎ HasEnough settings.guards (served_set served) }
{}

/// And no more than the settings allow, with the same exception.
pub fn no_more_are_served_than_may_be<P: Operators>()
    ensures { (settings : CacheSettings) (count : ℕ) (before behind : List ℕ) (served : Served) → IsServed AnyList AnyAge AnyWire AnySecond (AttendsOperators P.wish P.line P.turns P.hears AnyPath) settings count before behind served → ((is_some settings.control ≡ true) × (served.accepted ≡ true)) ⊎ HasRoom settings.guards (served_set served) }
{}
