//! What a refused request may come to.

use crate::lines::{last_words, number_at, number_of, row_of};
use std::fmt;

/// What a cache's client, or the cache of a speaker's session, is told: an Error Report of an internal error.
pub const INTERNAL_ERROR: &[u8] = b"out 010A0001000000100000000000000000\n";

/// What a refused request came to.
#[derive(Clone, Copy, PartialEq, Eq)]
pub enum Ending {
    /// No request was refused.
    Nothing,
    /// The call was refused.
    Refused,
    /// The session of this slot was closed.
    Closed(u8),
    /// The session with the cache was closed.
    CacheClosed,
    /// This client of the cache was closed.
    ClientClosed(u64),
    /// Nothing shows of it.
    Unseen,
}

impl fmt::Display for Ending {
    fn fmt<W: fmt::Write>(&self, f: &mut fmt::Formatter<W>) -> fmt::Result {
        match self {
            Ending::Nothing => f.write_str("nothing"),
            Ending::Refused => f.write_str("refused"),
            Ending::Closed(slot) => write!(f, "closed {slot}"),
            Ending::CacheClosed => f.write_str("closed cache"),
            Ending::ClientClosed(key) => write!(f, "client {key}"),
            Ending::Unseen => f.write_str("unseen"),
        }
    }
}

/// What a refused request came to where the call was answered so; none where it is no such answer.
pub fn ending_of(call: &[u8], answer: &[u8]) -> Option<Ending> {
    if is_want_of_memory(answer) {
        return Some(Ending::Refused);
    }
    match answer.strip_prefix(b"ok\n") {
        Some(told) if told == INTERNAL_ERROR => client_of(call),
        _ => closed_of(row_of(answer)),
    }
}

/// Whether the answer is that memory was refused: by a speaker (44), or by a cache (53).
pub fn is_want_of_memory(answer: &[u8]) -> bool {
    answer == b"refused 44\n".as_slice() || answer == b"refused 53\n".as_slice()
}

// The client whose octets the call hands in.
fn client_of(call: &[u8]) -> Option<Ending> {
    Some(Ending::ClientClosed(number_at(call, 1)?))
}

// The last two words are `starved` and what was closed, and nothing else was.
fn closed_of(answer: &[u8]) -> Option<Ending> {
    let (before, closed) = last_words(answer)?;
    if before == b"starved".as_slice() {
        closing_of(closed)
    } else {
        None
    }
}

fn closing_of(closed: &[u8]) -> Option<Ending> {
    if closed == b"cache".as_slice() {
        return Some(Ending::CacheClosed);
    }
    Some(Ending::Closed(u8::try_from(number_of(closed)?).ok()?))
}

/// Whether the answer is what is told with memory, and the closing behind it.
pub fn is_told_and_closed(answer: &[u8], told: &[u8]) -> bool {
    match answer.strip_prefix(row_of(told)) {
        Some(rest) => rest.starts_with(b" starved "),
        None => false,
    }
}
