//! The figures of a speaker that runs.
//!
//! `SpeakerFigures` is how a speaker's sessions stand at a moment and what its run has counted, `Notices` how many
//! NOTIFICATIONs there were by their error code (`specs/NoticeCounts.antt`). `write_figures` writes them as scrapers are told
//! them, in Prometheus' text format: each under its name, behind its help and its kind, with the values that it has
//! (`specs/FiguresText.antt`).
#![tactic(auto)]

mod figure;
mod figures;
mod notices;
mod writing;

pub use figure::Figure;
pub use figures::{CacheStates, SessionStates, SpeakerFigures};
pub use notices::Notices;
pub use writing::write_figures;
