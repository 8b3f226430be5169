//! What an operator commanded, and what it was answered.

use std::alloc::{AllocError, Global};

/// A line and its answer without the line feed at its end.
#[derive(Drop)]
pub struct Note {
    pub line: Vec<u8>,
    pub answer: Vec<u8>,
}

impl Note {
    /// This line, and what it was answered.
    pub(crate) fn of(alloc: Global, line: &[u8], answer: &[u8]) -> Result<Note, AllocError> {
        let answer = answer.strip_suffix(b"\n").unwrap_or(answer);
        let line = without_return(line);
        Ok(Note {
            line: line.to_vec(alloc)?,
            answer: answer.to_vec(alloc)?,
        })
    }
}

/// A line without a carriage return at its end.
fn without_return(line: &[u8]) -> &[u8] {
    line.strip_suffix(b"\r").unwrap_or(line)
}

/// Whether a line is one that asks for no table: it commands, or is none that is known.
pub(crate) fn is_command(line: &[u8]) -> bool {
    !line.is_empty() && line != b"help".as_slice() && !line.starts_with(b"show")
}
