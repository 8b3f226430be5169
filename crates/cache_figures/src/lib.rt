//! The figures of a cache that runs.
//!
//! `CacheFigures` is what a cache serves and what its routers hold at a moment, which a status line of a log tells, and
//! `RunFigures` what a run has counted (`specs/RunCounts.antt`). `write_figures` writes them as scrapers are told them, in
//! Prometheus' text format: each under its name, behind its help and its kind, with the value that it has
//! (`specs/FiguresText.antt`).
#![tactic(auto)]

mod figure;
mod figures;
mod writing;

pub use figure::Figure;
pub use figures::{CacheFigures, Outcome, RunFigures};
pub use writing::write_figures;
