//! Commands that can't be obeyed.
ghost use Rattle.std.specs.Prelude.{◌≡◌};

use line_causes::cause_of_octets;
use scenario::CommandsFault;
use std::alloc::Global;
use std::fmt::{self, Display, Formatter};

/// Why commands can't be obeyed, and of a line that is no command what in it isn't, as far as there was memory to find out.
#[derive(Debug, Drop)]
pub struct Unobeyed {
    pub(crate) why: CommandsFault,
    cause: Option<String>,
}

impl Unobeyed {
    /// The commands of this text can't be obeyed for this.
    pub(crate) fn of(alloc: Global, text: &[u8], why: CommandsFault) -> Unobeyed
        ensures { result.why ≡ why }
    {
        let cause = match why {
            CommandsFault::BadLine(number) => cause_at(alloc, text, number),
            _ => None,
        };
        Unobeyed { why, cause }
    }

    /// They can't be read.
    pub(crate) fn unread(why: CommandsFault) -> Unobeyed
        ensures { result.why ≡ why }
    {
        Unobeyed { why, cause: None }
    }
}

// Why the line of this number, counted from 1, is no command. Beside commands no line is known.
fn cause_at(alloc: Global, text: &[u8], number: u64) -> Option<String> {
    let line = line_at(text, number)?;
    let cause = cause_of_octets(alloc, line, &[]).ok()??;
    format!(in alloc; "{cause}").ok()
}

// The line without its end.
fn line_at(text: &[u8], number: u64) -> Option<&[u8]> {
    let place = usize::try_from(number).ok()?.checked_sub(1)?;
    let line = text.split(|octet| *octet == b'\n').nth(place)?;
    Some(line.strip_suffix(b"\r").unwrap_or(line))
}

impl Display for Unobeyed {
    fn fmt<W: fmt::Write>(&self, f: &mut Formatter<W>) -> fmt::Result {
        match (&self.why, &self.cause) {
            (CommandsFault::BadLine(_), Some(cause)) => f.write_str(cause.as_str()),
            (CommandsFault::BadLine(_), None) => f.write_str("the line is no command"),
            (CommandsFault::Refused(_, refusal), _) => Display::fmt(refusal, f),
            (CommandsFault::Device, _) => f.write_str("the file can't be read"),
            (CommandsFault::NoMemory, _) => f.write_str("there is no memory for a line"),
        }
    }
}
