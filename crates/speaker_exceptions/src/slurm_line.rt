//! What is told of a file.
ghost use Rattle.std.specs.Prelude.{◌≡◌};
ghost use Rattle.speaker_exceptions.specs.SlurmFigures.{figures_of};

use slurm_files::SlurmFile;
use std::fmt::{self, Display, Formatter};
use std::marker::Model;

/// The SLURM file of a path and how much it says, as one line.
#[derive(Drop)]
pub struct SlurmLine<'a> {
    path: &'a str,
    filters: usize,
    assertions: usize,
    skipped: u64,
}

impl<'a> Model for SlurmLine<'a> {
    ghost use Rattle.speaker_exceptions.specs.SlurmFigures.{SlurmFigures};

    ghost Value = { SlurmFigures };

    ghost view = { λ line. record { path = line.path.now; filters = line.filters; assertions = line.assertions; skipped = line.skipped } };
}

impl<'a> SlurmLine<'a> {
    /// That of the file of this path, which says this.
    pub fn of(path: &'a str, said: &SlurmFile) -> SlurmLine<'a>
        ensures { result ≡ figures_of path.now said.now }
    {
        SlurmLine {
            path,
            filters: said.exceptions.filters().len(),
            assertions: said.exceptions.assertions().len(),
            skipped: said.ipv6.saturating_add(said.bgpsec),
        }
    }
}

impl Display for SlurmLine<'_> {
    fn fmt<W: fmt::Write>(&self, f: &mut Formatter<W>) -> fmt::Result {
        let (path, filters, assertions) = (self.path, self.filters, self.assertions);
        let skipped = self.skipped;
        write!(
            f,
            "{path}: a SLURM file of {filters} filters and {assertions} assertions, with {skipped} entries skipped"
        )
    }
}
