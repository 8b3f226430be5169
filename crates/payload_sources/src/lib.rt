//! What a cache's payloads are read from: a payload list, and a SLURM file where there is one.
//!
//! `open_sources` opens the list, and behind it the SLURM file. `read_sources` answers the list's set under the exceptions
//! of the SLURM file, or the first fault of either, the list's first. A file that can't be had is never passed over,
//! nor one that was written to while it was read taken (`file_paths::Steady`). `Sources::stamps` are by what the files are known
//! again.
//! `SourceFault::exit` is what a fault means to a program, `SourceSet::tell` what `--check` says of files.
#![tactic(auto)]

mod exits;
mod fault;
mod opening;
mod reading;
mod telling;

pub use fault::{SourceFault, SourceFile, Unopened};
pub use opening::{SourceStamps, Sources, open_sources};
pub use reading::{SourceSet, read_sources};
