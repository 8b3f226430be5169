//! The text with which a peer shuts a session down.
ghost use Rattle.std.specs.Prelude.{◌≡◌, ℕ, List, MatchOption};
ghost use Rattle.watched_wires.specs.ShutdownText.{Communicates, is_of_shutdown, is_plain};

use std::fmt::{self, Display, Formatter};
use std::str;

/// The most octets of a Shutdown Communication, with that of its length (RFC 9003 section 2).
pub const COMMUNICATION_OCTETS: usize = 256;

/// Whether a NOTIFICATION of this code and subcode may have a Shutdown Communication: an Administrative Shutdown or Reset (RFC
/// 9003 section 2).
pub fn is_of_shutdown(code: u8, subcode: u8) -> bool
    ensures { result ≡ is_of_shutdown code subcode }
{
    code == 6 && (subcode == 2 || subcode == 4)
}

/// The text of a Shutdown Communication that these octets are, if they are one (RFC 9003 section 2).
pub fn communication_in(octets: &[u8]) -> Option<&str>
    ensures { MatchOption result ((text : List ℕ) → ¬ (Communicates octets.now text)) (λ text. Communicates octets.now text.now) }
{
    let [length, text @ ..] = octets else {
        return None;
    };
    if text.len() != *length as usize {
        return None;
    }
    str::from_utf8(text).ok()
}

/// Whether a log has this character as it is: quotes, backslashes, and what begins a line, moves or turns the writing are
/// written by other characters.
pub fn is_plain(character: char) -> bool
    ensures { result ≡ is_plain character }
{
    if character.is_control() || character == '"' || character == '\\' {
        return false;
    }
    !matches!(
        character as u32,
        0x061C | 0x200E | 0x200F | 0x2028..=0x202E | 0x2066..=0x2069 | 0xFEFF
    )
}

/// A text as a log has it: between quotes, on one line.
#[derive(Clone, Copy)]
pub struct Quoted<'a>(pub &'a str);

impl Display for Quoted<'_> {
    fn fmt<W: fmt::Write>(&self, f: &mut Formatter<W>) -> fmt::Result {
        f.write_char('"')?;
        for character in self.0.chars() {
            write_character(f, character)?;
        }
        f.write_char('"')
    }
}

fn write_character<W: fmt::Write>(f: &mut Formatter<W>, character: char) -> fmt::Result {
    if is_plain(character) {
        return f.write_char(character);
    }
    match character {
        '"' => f.write_str("\\\""),
        '\\' => f.write_str("\\\\"),
        other => write!(f, "\\u{{{number:x}}}", number = other as u32),
    }
}
