//! Two plays of a script beside each other: one of which a request for memory is refused, and one of which none is.
//!
//! A case is a script, what it answers where no request is refused, what peers and clients do that were closed and come
//! again, and rows of what must come of the refused requests (`rows.rt`). `answers_as_told` plays it alone. `play_beside`
//! plays it by the two; up to the refused request both answer alike, and what it may come to, and what must stay as it was,
//! stands in `refused.rt`. `Endings` keeps what each came to. What plays is a `Play` of the program's: here nothing of it is
//! known.
#![tactic(auto)]

mod answers;
mod calls;
mod case;
mod endings;
mod fault;
mod lines;
mod pair;
mod play;
mod refused;
mod rows;
mod tally;
mod views;

pub use calls::Call;
pub use case::{Case, answers_as_told, play_beside};
pub use endings::Ending;
pub use fault::{Fault, Wrong};
pub use play::{Opened, Play, Table};
pub use refused::Met;
pub use tally::{Counts, Endings};
