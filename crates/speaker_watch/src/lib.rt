//! What a speaker's run has counted, and the scrapers who ask for it.
//!
//! `Counts` counts turns and the NOTIFICATIONs that a watched wire saw, and keeps how many routes and payloads there were when
//! they were counted last (`specs/RunCounts.antt`), which is asked for again each 30 seconds at most while scrapers come.
//! `Watch` tells scrapers the figures.
#![tactic(auto)]

mod counts;
mod watch;

pub use counts::{COUNT_SECONDS, Counts, Standing};
pub use watch::Watch;
