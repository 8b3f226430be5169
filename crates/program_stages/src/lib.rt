//! For tests of programs: a host of their own, their files, and how a program ends.
//!
//! `Stage` is a host whose clock, listener and lists are the test's; a listener may be deaf. `write` and `write_settings` leave
//! files in the folder for passing ones, `remove` takes them away, and `ends` runs a main on words and says whether it ended as
//! expected. `lend` owns a large value while a test works on it, and `made` hands out what could be made.
#![tactic(auto)]

mod ending;
mod files;
mod lending;
mod stage;

pub use ending::{Ending, ends};
pub use files::{path_of, remove, write, write_settings};
pub use lending::lend;
pub use stage::{LIST_PATH, Stage, deaf_listener};
