//! The call of the system's clock of the day, and a note of what it answered.
//!
//! This module does nothing else, and no other one writes such a note. That a note is what the system answered is trusted,
//! beside the toolchain.
ghost use Rattle.std.specs.Prelude.{◌≡◌, None};

use crate::seconds_since_1970::SecondsSince1970;
use std::io;
use std::marker::Model;
use std::rt::Clock;
use std::time::SystemTime;

/// The system's clock of the day.
#[derive(Drop)]
pub struct SystemSeconds<'a, R> {
    rt: &'a R,
    // The second that it told last.
    told: Option<u64>,
}

impl<'a, R> Model for SystemSeconds<'a, R> {
    ghost use Rattle.std.specs.Prelude.{ℕ, Option};

    ghost Value = { Option ℕ };

    ghost view = { λ clock. clock.told };
}

impl<'a, R: Clock> SystemSeconds<'a, R> {
    /// A clock that hasn't been asked.
    pub fn new(rt: &'a R) -> Self
        ensures { result ≡ None }
    {
        SystemSeconds { rt, told: None }
    }
}

impl<'a, R: Clock> SecondsSince1970 for SystemSeconds<'a, R> {
    ghost told = { λ clock. clock };

    fn second(&mut self) -> io::Result<u64> {
        let second = SystemTime::UNIX_EPOCH.elapsed(self.rt)?.as_secs();
        self.told = Some(second);
        Ok(second)
    }
}
