//! What an operator asked for.

use std::fmt::{self, Display, Formatter, Write};

/// A line of an operator and what it was answered, as a log has them: octets that aren't printed are written by their numbers.
#[derive(Clone, Copy, Debug)]
pub struct Asked<'a> {
    pub line: &'a [u8],
    pub answer: &'a [u8],
}

impl Display for Asked<'_> {
    fn fmt<W: Write>(&self, f: &mut Formatter<W>) -> fmt::Result {
        f.write_str("operator: ")?;
        write_printed(f, self.line)?;
        f.write_str(": ")?;
        write_printed(f, self.answer)
    }
}

fn write_printed<W: Write>(f: &mut Formatter<W>, octets: &[u8]) -> fmt::Result {
    for octet in octets {
        match *octet {
            b' '..=b'~' => f.write_char(*octet as char)?,
            other => write!(f, "\\x{other:02x}")?,
        }
    }
    Ok(())
}
