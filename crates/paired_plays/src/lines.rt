//! The lines of a text, and the words of a line.
ghost use Rattle.std.specs.Prelude.{◌≤◌, ◌+◌, length, IfSome, Some};
ghost use Rattle.std.specs.Iterator.{at_most};

use std::str;

/// The lines of a text, each with its line feed.
#[derive(Drop)]
pub struct Lines<'a> {
    text: &'a [u8],
}

impl<'a> Lines<'a> {
    pub fn of(text: &'a [u8]) -> Lines<'a> {
        Lines { text }
    }
}

impl<'a> Iterator for Lines<'a> {
    type Item = &'a [u8];

    ghost remaining = { λ lines. at_most (length lines.text.now) };

    fn next(&mut self) -> Option<&'a [u8]> {
        let (line, behind) = split_line(self.text)?;
        self.text = behind;
        Some(line)
    }
}

/// The first line of a text, and what is behind it.
pub fn split_line(text: &[u8]) -> Option<(&[u8], &[u8])>
    ensures { IfSome result (λ parts. 1 + length parts.1.now ≤ length text.now) }
{
    text.split_at_checked(line_length(text))
}

// At least 1, so that no line is empty.
fn line_length(text: &[u8]) -> usize
    ensures { 1 ≤ result }
{
    match place_of(text, b'\n') {
        Some(place) => place.saturating_add(1),
        None => text.len().max(1),
    }
}

/// The place of the first such octet.
pub fn place_of(text: &[u8], wanted: u8) -> Option<usize> {
    text.iter().position(|octet| *octet == wanted)
}

/// A word of a row, which has no line feed. The first one is 0.
pub fn word_at(row: &[u8], place: usize) -> Option<&[u8]> {
    row.split(|octet| *octet == b' ').nth(place)
}

/// The last two words of a row.
pub fn last_words(row: &[u8]) -> Option<(&[u8], &[u8])> {
    let mut words = row.rsplit(|octet| *octet == b' ');
    let last = words.next()?;
    Some((words.next()?, last))
}

/// The number that a word of a row is.
pub fn number_at(row: &[u8], place: usize) -> Option<u64> {
    number_of(word_at(row, place)?)
}

/// The number that a word is.
pub fn number_of(word: &[u8]) -> Option<u64> {
    str::from_utf8(word).ok()?.parse().ok()
}

/// A line without its line feed.
pub fn row_of(line: &[u8]) -> &[u8] {
    match line {
        [row @ .., b'\n'] => row,
        row => row,
    }
}
