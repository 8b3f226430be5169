//! What a list's scripts came to, a line for each.

use crate::judging::{Difference, Outcome};
use std::io::{self, Write};

/// Tells what came of the script of this name.
pub fn tell<W: Write>(name: &[u8], outcome: &Outcome, writer: &mut W) -> io::Result<()> {
    writer.write_all(name)?;
    match outcome {
        Outcome::AsTold(1) => writeln!(writer, ": as told"),
        Outcome::AsTold(plays) => writeln!(writer, ": as told, {plays} times"),
        Outcome::Differs(difference) => tell_difference(difference, writer),
    }
}

fn tell_difference<W: Write>(difference: &Difference, writer: &mut W) -> io::Result<()> {
    let (case, place, line) = (difference.case, difference.place, difference.line);
    write!(writer, ": case {case}, cut {place}, line {line}: ")?;
    writer.write_all(difference.answered.as_slice())?;
    write!(writer, " in place of ")?;
    writer.write_all(difference.told.as_slice())?;
    writeln!(writer)
}
