//! How a program ends.
ghost use Rattle.std.specs.Prelude.{◌≡◌, ◌≤◌};
ghost use Rattle.program_endings.specs.Exits.{status_of};

use crate::fault::ExitFault;
use std::fmt::Display;
use std::io::{self, Write};

/// The exit status of the program of this name, which this has ended: a line on `errors` tells it, with the cause.
pub fn end<C: Display, E: Write>(name: &str, exit: ExitFault, cause: &C, errors: &mut E) -> u8
    ensures status { result ≡ status_of exit }
    ensures range { (1 ≤ result) × (result ≤ 2) }
{
    // Where errors can't be written, the status is all that tells.
    let _told = writeln!(errors, "{name}: {exit}: {cause}");
    exit.status()
}

/// Writes a text to the output.
pub fn print<O: Write>(text: &str, output: &mut O) -> io::Result<()> {
    output.write_all(text.as_bytes())?;
    output.flush()
}
