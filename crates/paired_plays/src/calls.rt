//! The calls of a script.
ghost use Rattle.std.specs.Prelude.{◌≤◌};

use crate::lines::{Lines, split_line};

/// A call, by its number in the script, which is counted from 1.
#[derive(Clone, Copy)]
pub struct Call<'a> {
    pub number: u64,
    pub text: &'a [u8],
    pub ghost counted: { 1 ≤ number },
}

impl Call<'_> {
    /// Another line in its place.
    pub fn with<'b>(self, text: &'b [u8]) -> Call<'b> {
        Call {
            number: self.number,
            text,
        }
    }
}

/// The first call of a script, and what is behind it.
pub fn split_call(script: &[u8]) -> Option<(&[u8], &[u8])> {
    let (line, behind) = split_line(script)?;
    let length = line.len().saturating_add(rest_length(line, behind));
    script.split_at_checked(length.min(script.len()))
}

// How long a call is behind its first line. It is a line; a list from its `load` to its `end`; or octets of a cache's
// client with the line behind them.
fn rest_length(line: &[u8], behind: &[u8]) -> usize {
    if line == b"load\n".as_slice() {
        return list_length(behind);
    }
    match split_line(behind) {
        Some((next, _)) if line.starts_with(b"cbytes ") => next.len(),
        _ => 0,
    }
}

// Up to the `end`.
fn list_length(list: &[u8]) -> usize {
    let mut length = 0usize;
    for line in Lines::of(list) {
        length = length.saturating_add(line.len());
        if line == b"end\n".as_slice() {
            return length;
        }
    }
    length
}
