//! A line behind its time.
ghost use Rattle.std.specs.Prelude.{◌≡◌, false};

use jiff::Timestamp;
use std::fmt::Display;
use std::io::{self, Write};
use std::rt::Clock;
use std::time::SystemTime;

/// Writes a line to the log where there is one.
pub fn log<R: Clock, O: Write, L: Display>(rt: &R, is_on: bool, output: &mut O, line: &L)
    ensures { is_on ≡ false → output.new ≡ output.old }
{
    if is_on {
        // A log that can't be written stops nobody.
        let _written = write_line(rt, output, line);
    }
}

// A line behind its time, by the clock, to the second (RFC 3339).
fn write_line<R: Clock, O: Write, L: Display>(rt: &R, output: &mut O, line: &L) -> io::Result<()> {
    let seconds = SystemTime::UNIX_EPOCH.elapsed(rt)?.as_secs();
    let time = i64::try_from(seconds)
        .ok()
        .and_then(|seconds| Timestamp::from_second(seconds).ok())
        .unwrap_or(Timestamp::UNIX_EPOCH);
    writeln!(output, "{time} {line}")
}
