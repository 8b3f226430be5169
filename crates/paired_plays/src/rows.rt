//! The rows of a case: how it is played, and what must have come of it.
//!
//! `from N`, `step N` and `most N`: which requests are refused, so many from the Nth on, each or one in N (all, where there
//! are no such rows).
//! `twice`: the request behind the refused one is refused too, since what grows by less asks again.
//! `opens`: connection attempts begin; where there is no such row, none does.
//! `alike`: a peer or a client that was closed comes again in both runs, which show the same from there on.
//! `told N`: a peer whose session was closed is told so many octets.
//! `ask N LINE -> ANSWER`: where the Nth call was refused, and before it comes again, this line is answered so.
//! `after N SLOT LINE -> ANSWER`: where this slot was closed at the Nth call, and before it comes again, the same.
//! `has ENDING` and `not ENDING`: some refused request came to this, or none did: `refused`, `closed SLOT`, `closed
//! cache`, `client KEY` or `unseen`, and where a number follows, at the call of this number.

use crate::lines::{Lines, number_of, place_of, row_of};

/// What stands behind the first row that begins with this word.
fn row<'a>(rows: &'a [u8], word: &[u8]) -> Option<&'a [u8]> {
    for line in Lines::of(rows) {
        if let Some(behind) = row_of(line).strip_prefix(word) {
            return Some(behind);
        }
    }
    None
}

/// The number behind the word.
pub fn number_behind(rows: &[u8], word: &[u8]) -> Option<u64> {
    number_of(row(rows, word)?)
}

/// Whether there is such a row.
pub fn has_row(rows: &[u8], word: &[u8]) -> bool {
    row(rows, word).is_some()
}

/// Whether the endings, a line each, are as this row says.
pub fn is_met(row: &[u8], endings: &[u8]) -> bool {
    if let Some(ending) = row.strip_prefix(b"has ") {
        return came(endings, ending);
    }
    match row.strip_prefix(b"not ") {
        Some(ending) => !came(endings, ending),
        None => true,
    }
}

// Whether a line of them begins with these words.
fn came(endings: &[u8], words: &[u8]) -> bool {
    for line in Lines::of(endings) {
        if begins(line, words) {
            return true;
        }
    }
    false
}

fn begins(line: &[u8], words: &[u8]) -> bool {
    match line.strip_prefix(words) {
        Some(rest) => rest.starts_with(b" ") || rest.starts_with(b"\n"),
        None => false,
    }
}

/// How many endings are such.
pub fn count_of(endings: &[u8], words: &[u8]) -> usize {
    let mut count = 0usize;
    for line in Lines::of(endings) {
        if line.starts_with(words) {
            count = count.saturating_add(1);
        }
    }
    count
}

/// The line that is asked where this call was refused, and its answer.
pub fn asked(row: &[u8], number: u64) -> Option<(&[u8], &[u8])> {
    let (call, line) = split_word(row.strip_prefix(b"ask ")?)?;
    if number_of(call) == Some(number) {
        split_answer(line)
    } else {
        None
    }
}

/// The line that is asked where this slot was closed at the call of this number, and its answer.
pub fn asked_after(row: &[u8], number: u64, slot: u8) -> Option<(&[u8], &[u8])> {
    let (call, rest) = split_word(row.strip_prefix(b"after ")?)?;
    let (closed, line) = split_word(rest)?;
    if number_of(call) == Some(number) && number_of(closed) == Some(u64::from(slot)) {
        split_answer(line)
    } else {
        None
    }
}

// Cuts at the first space.
fn split_word(row: &[u8]) -> Option<(&[u8], &[u8])> {
    let (word, rest) = row.split_at_checked(place_of(row, b' ')?)?;
    Some((word, rest.strip_prefix(b" ")?))
}

// Cuts at ` -> `.
fn split_answer(row: &[u8]) -> Option<(&[u8], &[u8])> {
    let place = row
        .windows(4)
        .position(|octets| octets == b" -> ".as_slice())?;
    let (line, answer) = row.split_at_checked(place)?;
    Some((line, answer.strip_prefix(b" -> ")?))
}
