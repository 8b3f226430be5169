//! Tables that operators of a speaker are shown.
//!
//! `shown_by` says what a line asks to be shown beyond what scripts show, and `write_piece` writes the next piece of it: a
//! large table goes out piece by piece, each going on behind the row at which the one before it ended, so that no operator has
//! more than a piece of it in memory. Beyond scripts there are the peers, each with the seconds for which its session has been
//! in its state, the cache session, the policies, the local exceptions, a slot's routes in words, and the routes to one prefix, each with the step of
//! the selection at which it fell, or why it is no candidate (`specs/ShownRoutes.antt`).
#![tactic(auto)]

mod candidates;
mod exceptions;
mod order;
mod peers;
mod pieces;
mod policies;
mod route_words;
mod shown;
mod times;
mod why;

pub use candidates::{Ranked, candidates_of, with_steps};
pub use pieces::{Rest, Scene, write_piece};
pub use shown::{Shown, shown_by};
pub use times::StateTimes;
pub use why::{WhyNone, why_none};
