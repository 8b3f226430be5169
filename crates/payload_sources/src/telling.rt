//! What is told of files.
use crate::reading::SourceSet;
use std::io::{self, Write};

impl SourceSet {
    /// Writes what the files of these paths are.
    pub fn tell<O: Write>(&self, csv: &str, slurm: Option<&str>, output: &mut O) -> io::Result<()> {
        let payloads = self.set.len();
        let (Some(path), Some(said)) = (slurm, &self.slurm) else {
            return writeln!(output, "{csv}: a list of {payloads} payloads");
        };
        let filters = said.exceptions.filters().len();
        let assertions = said.exceptions.assertions().len();
        let skipped = said.ipv6.saturating_add(said.bgpsec);
        writeln!(
            output,
            "{path}: a SLURM file of {filters} filters and {assertions} assertions, with {skipped} entries skipped"
        )?;
        writeln!(output, "{csv}: a list of {payloads} payloads under it")
    }
}
