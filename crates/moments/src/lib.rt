//! Moments in whole seconds, and when a timer ends.
//!
//! A timer ends at the first moment that is handed in and that is at least its own. A moment behind the greatest u64 is
//! never reached, so that a timer whose end would lie there doesn't run. No call takes memory.
#![tactic(auto)]

ghost use Rattle.std.specs.Prelude.{◌≡◌};
ghost use Rattle.moments.specs.Moments.{from_now, has_come};

/// So many seconds from now; none where that lies behind the greatest moment.
pub fn from_now(now: u64, seconds: u32) -> Option<u64>
    ensures { result ≡ from_now now seconds }
{
    now.checked_add(u64::from(seconds))
}

/// Whether a moment, in seconds, has come; none never comes.
pub fn has_come(moment: Option<u64>, now: u64) -> bool
    ensures { result ≡ has_come moment now }
{
    match moment {
        Some(moment) => moment <= now,
        None => false,
    }
}
