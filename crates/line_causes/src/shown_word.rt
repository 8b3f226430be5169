//! Words of lines as a message has them.

use std::fmt::{self, Display, Formatter};

// How many characters of a word are shown at most (own choice).
const SHOWN_CHARACTERS: usize = 64;

/// A word between quotes, on one line.
#[derive(Clone, Copy, Debug, PartialEq, Eq)]
pub struct ShownWord<'a>(pub &'a str);

impl Display for ShownWord<'_> {
    fn fmt<W: fmt::Write>(&self, f: &mut Formatter<W>) -> fmt::Result {
        f.write_char('\'')?;
        for character in self.0.chars().take(SHOWN_CHARACTERS) {
            write_character(f, character)?;
        }
        if self.0.chars().nth(SHOWN_CHARACTERS).is_some() {
            f.write_str("..")?;
        }
        f.write_char('\'')
    }
}

fn write_character<W: fmt::Write>(f: &mut Formatter<W>, character: char) -> fmt::Result {
    match character {
        ' '..='~' => f.write_char(character),
        other => write!(f, "\\u{{{number:x}}}", number = other as u32),
    }
}
