//! Why a line commands nothing.
//!
//! `cause_of` tells of a text that says no command the first word that isn't what the grammar of commands wants at its place,
//! and what is wanted there; of a text that says one it tells nothing, and of no other (`cause_of_octets`: of octets). Which cause is told is shown by tests.
#![tactic(auto)]

mod cause;
mod forms;
mod line_cause;
mod nearest;
mod other_lines;
mod parts;
mod rule_words;
mod rules;
mod shown_word;

pub use cause::{cause_of, cause_of_octets};
pub use line_cause::LineCause;
pub use other_lines::{OPERATOR_LINES, OtherLine};
pub use parts::Part;
pub use shown_word::ShownWord;
