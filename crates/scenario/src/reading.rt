//! The lines of a file.
ghost use Rattle.std.specs.Prelude.{◌≡◌, IfOk, IsAscii, MatchOption};
ghost use Rattle.scenario.specs.FileLines.{ReadsLine, says_nothing, without_end};

use std::io::{self, BufRead, ErrorKind};

/// Reads the next line, with its end, in the place of the one before it; answers whether there is one.
pub(crate) fn read_line<R: BufRead + Drop>(reader: &mut R, line: &mut Vec<u8>) -> io::Result<bool>
    ensures { IfOk result (λ is_there. ReadsLine (R.remaining reader.old) is_there line.new.items (R.remaining reader.new)) }
{
    line.clear();
    let count = reader.read_until(b'\n', line)?;
    Ok(count != 0)
}

/// A line without its line feed and the carriage return before that.
pub(crate) fn without_line_end(line: &[u8]) -> &[u8]
    ensures { result.now ≡ without_end line.now }
{
    match line.strip_suffix(b"\r\n") {
        Some(text) => text,
        None => line.strip_suffix(b"\n").unwrap_or(line),
    }
}

/// Whether a line is passed over: it is empty but for its end, or begins with `#`.
pub(crate) fn is_passed_over(line: &[u8]) -> bool
    ensures { result ≡ says_nothing line.now }
{
    match line {
        [] | [b'#', ..] | [b'\n'] | [b'\r', b'\n'] => true,
        _ => false,
    }
}

/// The text of ASCII octets.
pub(crate) fn ascii_text(octets: &[u8]) -> Option<&str>
    ensures { MatchOption result (¬ (IsAscii octets.now)) (λ text. text.now ≡ octets.now) }
{
    if !octets.is_ascii() {
        return None;
    }
    std::str::from_utf8(octets).ok()
}

/// Whether memory was wanting, and no device failed.
pub(crate) fn is_want_of_memory(error: &io::Error) -> bool {
    error.kind() == ErrorKind::OutOfMemory
}
