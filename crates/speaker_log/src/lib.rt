//! The log of a speaker.
//!
//! `Journal` is shown a speaker behind each turn, tells in what it differs from the turn before, and what its wire saw: the
//! steps of sessions, why connections end, NOTIFICATIONs, those that are refused, the session with the cache, and each so many
//! seconds how all stands. What operators command is told with its answer. Of attempts of one side that fail alike the first is
//! told, and the others are counted until something else is seen (`specs/SeriesCounts.antt`). Lines about strangers are
//! bounded, and so are those about peers, the cache and operators: what is left out in a minute is counted and told behind it.
//! Nothing is written where the log is off. What the lines say is looked at by hand.
#![tactic(auto)]

mod asked;
mod failure;
mod journal;
mod line;
mod places;
mod series;
mod shown;
mod side;

pub use asked::Asked;
pub use failure::{Failure, failure_of};
pub use journal::{Journal, LINES_A_MINUTE};
pub use line::{CacheChange, Flood, SessionChange, SpeakerLine};
pub use series::{Met, Series};
pub use shown::Shown;
pub use side::Side;
