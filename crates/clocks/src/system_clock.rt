//! The call of the system's monotonic clock, and a note of each instant that it answered.
//!
//! This module does nothing else, and no other one writes a note. That a note is what the system answered is trusted, beside
//! the toolchain.
ghost use Rattle.std.specs.Prelude.{◌≡◌, ◌∷◌, [], IfOk, OnErr};
ghost use Rattle.std.specs.Time.{instant_nanos};

use crate::readings::{Reading, Readings};
use std::io;
use std::rt::Clock;
use std::time::Instant;

/// The system's monotonic clock.
#[derive(Drop)]
pub(crate) struct SystemClock<'a, R> {
    rt: &'a R,
    pub readings: Readings,
}

impl<'a, R: Clock> SystemClock<'a, R> {
    /// A clock that hasn't been asked.
    pub fn new(rt: &'a R) -> Self
        ensures { result.readings.instants ≡ [] }
    {
        SystemClock {
            rt,
            readings: Readings::new(),
        }
    }

    /// The instant now.
    pub fn read(&mut self) -> io::Result<Instant>
        ensures noted { IfOk result (λ now. self.new.readings.instants ≡ instant_nanos now ∷ self.old.readings.instants) }
        ensures failed { OnErr result (self.new ≡ self.old) }
    {
        let now = Instant::now(self.rt)?;
        self.readings = self.readings.then(&Reading(now));
        Ok(now)
    }
}
