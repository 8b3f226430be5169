//! Lines that command a speaker.
//!
//! A line of a script or of a file of commands is words between single spaces. `CommandLine::parse` answers the command that
//! they say, with the rules of a policy as its own, and `CommandLine::of` does so of words (`specs/CommandWords.antt`). Numbers
//! and addresses are digits and dots alone. What the other lines of a script are is said where scripts are.
#![tactic(auto)]

mod command_line;
mod fields;
mod keywords;
mod rules;
mod words;

pub use command_line::{CommandLine, LineFault};
pub use fields::{address, number};
pub use words::words_of;
