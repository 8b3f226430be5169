//! The program of a cache: the list that it reads again, and what the main of `ovcache` does.
//!
//! `main_cache` reads the words exactly, and tells what the operator has to mend from what the system didn't give
//! (`specs/Exits.antt`). `ServedList` takes the list again while routers are served: one that can't be had, or that a guard
//! of the settings refuses, changes nothing, one that is served already publishes nothing, and one whose files are unchanged isn't
//! read (`specs/Rereads.antt`). The interval counts from the end of a reading (`specs/Intervals.antt`).
//! `serve_cache` makes the cache of settings (`specs/CacheOfSettings.antt`), has it publish the list
//! that is opened at their path (`specs/FirstList.antt`, `specs/Opened.antt`), and serves it by the wire that listens at
//! their address for so many turns, each at the moment of the clock (`specs/ServedTurns.antt`), with the operators at their
//! path, if they have one, heard at each (`specs/AttendedTurns.antt`). It writes nothing where they ask for no log; the status
//! of `main_cache` is 0 only where that was done, or was to be checked and could begin (`specs/Checked.antt`), or where help
//! was asked for. What ends it has its cause as data (`CacheFault`). What files do, and what the log says, is shown by tests.
#![tactic(auto)]

mod cache_main;
mod exits;
mod fault;
mod files;
mod help;
mod interval;
mod laws;
mod loading;
mod served_list;
mod settings_file;

pub use cache_main::{main_cache, serve_cache};
pub use cache_watch::{ListFault, LogLine, Reread, Watched};
pub use exits::{of_first_list, of_refusal};
pub use fault::CacheFault;
pub use interval::Interval;
pub use laws::{
    all_turns_are_taken_where_nobody_may_ask, no_fewer_are_served_than_are_wanted,
    no_more_are_served_than_may_be, served_turns_are_steps, turns_end_early_by_the_word_stop,
};
pub use served_list::ServedList;
