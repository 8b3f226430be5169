//! What operators see of a cache that runs: its log, and the figures that its scrapers are told.
//!
//! The `tell_..` say which `LogLine` is written when: none where there is no log. `Watch` counts what a run does, and tells its figures to the scrapers who wait for them. `Reread` is what reading the list
//! again has led to. What a log says, and what scrapers are told of a program that runs, is shown by tests.
#![tactic(auto)]

mod journal;
mod reread;
mod telling;
mod watch;
mod watched;

pub use journal::LogLine;
pub use reread::{ListFault, Reread};
pub use telling::{
    FileAge, ROUTER_LINES, age_of, file_age, tell_list, tell_listening, tell_metrics, tell_routers,
    tell_status,
};
pub use watch::Watch;
pub use watched::Watched;
