//! To whom a warning is told.

use crate::warning::Warning;
use log_lines::log;
use std::io::{self, Write};
use std::rt::Clock;

/// Who is told warnings.
pub(crate) trait Told {
    fn tell(&mut self, warning: &Warning);
}

/// The log, which has a line of each behind its time.
#[derive(Drop)]
pub(crate) struct InLog<'a, R, O> {
    pub rt: &'a R,
    pub output: &'a mut O,
}

impl<R: Clock, O: Write> Told for InLog<'_, R, O> {
    fn tell(&mut self, warning: &Warning) {
        log(self.rt, true, self.output, warning);
    }
}

/// An output, and whether all could be written to it.
#[derive(Drop)]
pub(crate) struct OnOutput<'a, O> {
    pub output: &'a mut O,
    pub written: io::Result<()>,
}

impl<O: Write> Told for OnOutput<'_, O> {
    fn tell(&mut self, warning: &Warning) {
        if self.written.is_ok() {
            self.written = writeln!(self.output, "{warning}");
        }
    }
}
