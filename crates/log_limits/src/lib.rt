//! How many lines of one kind a log gets.
//!
//! `LineLimit` lets so many lines be written in a minute, and counts those that it doesn't: the count is told when the minute
//! is over (`specs/Limiting.antt`). It takes no memory. However many lines there are, no more than so many are written before
//! the next minute begins, and each that isn't is told in a count.
#![tactic(auto)]

mod laws;
mod limit;

pub use laws::{each_line_is_written_or_counted, no_more_are_written_in_a_minute};
pub use limit::{LineLimit, MINUTE};
