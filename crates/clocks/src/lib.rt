//! The clock of a program: whole seconds since it was first read.
//!
//! A program's turns have a moment each. `SecondsClock` is what they ask for it; for proofs it keeps in mind what it told, so
//! that a contract can say that each turn had the reading made for it, and that readings never go back.
//! `MonotonicClock` is the system's: the moments that it tells are those of the instants that the system's clock answered, one
//! at a time (`moments_of`), and follow them in steps of two seconds at most (`paced`, and of all that it tells
//! `moments_go_on_by_steps`). `SystemSeconds` is the system's clock of the day. The two modules that ask the system, and note
//! what it answered, are trusted (`system_clock`, `system_seconds`).
#![tactic(auto)]

mod monotonic;
mod pace;
mod readings;
mod seconds_clock;
mod seconds_since_1970;
mod system_clock;
mod system_seconds;

pub use monotonic::MonotonicClock;
pub use pace::{STEP_SECONDS, moments_follow_the_clock, moments_go_on_by_steps, paced};
pub use seconds_clock::SecondsClock;
pub use seconds_since_1970::SecondsSince1970;
pub use system_seconds::SystemSeconds;
