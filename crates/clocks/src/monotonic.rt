//! The system's monotonic clock.
ghost use Rattle.std.specs.Prelude.{◌≡◌, [], None};
ghost use Rattle.clocks.specs.Moments.{moments_of};

use crate::pace::paced;
use crate::seconds_clock::SecondsClock;
use crate::system_clock::SystemClock;
use std::io;
use std::marker::Model;
use std::rt::Clock;
use std::time::Instant;

/// Whole seconds by the system's monotonic clock, since it was first read, at the pace of `paced`.
#[derive(Drop)]
pub struct MonotonicClock<'a, R> {
    system: SystemClock<'a, R>,
    // When it was first read.
    start: Option<Instant>,
    // The seconds from there to the last reading, 0 before any.
    seconds: u64,
    // The last moment that was told, 0 before any.
    last: u64,
}

impl<'a, R> Model for MonotonicClock<'a, R> {
    ghost use Rattle.std.specs.Prelude.{ℕ, List};
    ghost use Rattle.clocks.specs.Moments.{IsKept};

    // The instants that the system's clock answered, in nanoseconds, the last one first.
    ghost Value = { List ℕ };

    ghost view = { λ clock. clock.system.readings.instants };

    // The start is the first instant, and the last moment that of the last one.
    ghost invariant = { λ clock. IsKept clock.start clock.seconds clock.last clock.system.readings.instants };
}

impl<'a, R: Clock> MonotonicClock<'a, R> {
    /// A clock that hasn't been read.
    pub fn new(rt: &'a R) -> Self
        ensures { result ≡ [] }
    {
        MonotonicClock {
            system: SystemClock::new(rt),
            start: None,
            seconds: 0,
            last: 0,
        }
    }
}

impl<'a, R: Clock> SecondsClock for MonotonicClock<'a, R> {
    // What is told of the instants that the system answered, and of nothing else.
    ghost readings = { λ clock. moments_of clock };

    fn read(&mut self) -> io::Result<u64> {
        let now = self.system.read()?;
        let start = self.start.unwrap_or(now);
        let seconds = now.duration_since(start).as_secs();
        let moment = paced(self.seconds, seconds, self.last);
        self.start = Some(start);
        self.seconds = seconds;
        self.last = moment;
        Ok(moment)
    }
}
