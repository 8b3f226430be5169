//! How fast moments follow a clock.
ghost use Rattle.std.specs.Prelude.{◌≡◌, ◌<◌, ◌≤◌, ◌+◌, ◌-◌, ◌*◌, ℕ, List};
ghost use Rattle.clocks.specs.Moments.{GoOnBySteps, NeverGoBack, latest, moments_of, paced, seconds_at};

/// By how many seconds a moment is behind the one before it at most.
pub const STEP_SECONDS: u64 = 2;

/// The moment behind the moment `last`, where a clock's seconds have gone on from `before` to `now`.
///
/// A program that was kept busy for long finds what has come meanwhile waiting. So that it is heard before a timer ends that it
/// would begin again, moments follow the clock in steps of two seconds at most, and so twice as fast as it where a second has
/// gone between readings. They never go back, and are never ahead of the clock.
pub fn paced(before: u64, now: u64, last: u64) -> u64
    ensures { result ≡ paced before now last }
{
    match before < now {
        true => now.min(last.saturating_add(STEP_SECONDS)).max(last),
        false => last,
    }
}

/// A moment is never before the last one, is two seconds behind it at most, goes on twice as fast as the clock at most, isn't
/// ahead of it, and with a new second reaches it where it isn't further than a step.
pub fn moments_follow_the_clock()
    ensures forward { (before now last : ℕ) → last ≤ paced before now last }
    ensures step { (before now last : ℕ) → paced before now last ≤ last + 2 }
    ensures pace { (before now last : ℕ) → before ≤ now → paced before now last ≤ last + (now - before) * 2 }
    ensures behind { (before now last : ℕ) → last ≤ before → before ≤ now → paced before now last ≤ now }
    ensures reaches { (before now last : ℕ) → before < now → last ≤ now → now ≤ last + 2 → paced before now last ≡ now }
{}

/// Of whatever instants a clock answered the moments never go back, go on by two seconds at most, and where the instants never
/// go back the last moment isn't ahead of the seconds since the first one.
pub fn moments_go_on_by_steps()
    ensures forward { (instants : List ℕ) → NeverGoBack (moments_of instants) }
    ensures steps { (instants : List ℕ) → GoOnBySteps (moments_of instants) }
    ensures behind { (instants : List ℕ) → NeverGoBack instants → latest (moments_of instants) ≤ seconds_at instants }
{}
