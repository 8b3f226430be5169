//! Where an answer ends.

/// What a line of an answer is to it.
#[derive(Clone, Copy, Debug, PartialEq, Eq)]
pub(crate) enum AnswerLine {
    /// A row of a table.
    Row,
    /// It ends here, and is as it should be.
    Done,
    /// It ends here, and what was asked is refused.
    Refused,
}

/// What a line of an answer is to it. A row never begins as the last line of an answer does.
pub(crate) fn answer_line(line: &[u8]) -> AnswerLine {
    if line.starts_with(b"ok") || line.starts_with(b"end") {
        return AnswerLine::Done;
    }
    if line.starts_with(b"refused") || line.starts_with(b"bad line") {
        return AnswerLine::Refused;
    }
    AnswerLine::Row
}
