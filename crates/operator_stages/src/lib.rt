//! For tests: one operator, who asks the same line again and again, over a connection one of whose calls fails.
//!
//! `Line` is the connection, `Seen` what it has seen, and `Asker` the operator, at whatever desk.
#![tactic(auto)]

ghost use Rattle.std.specs.Prelude.{⊤};
ghost use Rattle.operator_stages.specs.Askers.{line_of, wish_at};

use control_lines::{Operator, Operators, Stream, Wish};
use std::alloc::{AllocError, Global};
use std::cell::Cell;
use std::io::{self, ErrorKind};

/// What is asked, and how each answer begins and ends.
#[derive(Clone, Copy)]
pub struct Question {
    pub line: &'static [u8],
    pub beginning: &'static [u8],
    pub end: &'static [u8],
}

/// What an operator's connection has seen.
#[derive(Drop)]
pub struct Seen {
    calls: Cell<u64>,
    // How many answers came whole, and how many otherwise.
    answers: Cell<u64>,
    others: Cell<u64>,
}

impl Seen {
    pub fn nothing() -> Seen {
        Seen {
            calls: Cell::new(0),
            answers: Cell::new(0),
            others: Cell::new(0),
        }
    }

    fn note(&self, is_whole: bool) {
        let counted = if is_whole {
            &self.answers
        } else {
            &self.others
        };
        counted.set(counted.get().saturating_add(1));
    }

    /// Whether each answer was whole, and there were so many at least.
    pub fn is_answered(&self, least: u64) -> bool {
        self.others.get() == 0 && self.answers.get() >= least
    }
}

/// An operator's connection, of which one call fails.
#[derive(Drop)]
pub struct Line<'a> {
    question: Question,
    seen: &'a Seen,
    fails_at: u64,
}

impl<'a> Line<'a> {
    /// The call of this number fails; none where it is 0.
    pub fn failing_at(question: Question, seen: &'a Seen, fails_at: u64) -> Line<'a> {
        Line {
            question,
            seen,
            fails_at,
        }
    }

    // Counts a call, and whether it fails.
    fn fails(&self) -> bool {
        let calls = self.seen.calls.get().saturating_add(1);
        self.seen.calls.set(calls);
        calls == self.fails_at
    }
}

impl Stream for Line<'_> {
    fn read(&mut self, buf: &mut [u8]) -> io::Result<usize> {
        if self.fails() {
            return Err(io::Error::from(ErrorKind::ConnectionReset));
        }
        let line = self.question.line;
        let count = line.len().min(buf.len());
        buf[..count].copy_from_slice(&line[..count]);
        Ok(count)
    }

    fn write(&mut self, buf: &[u8]) -> io::Result<usize> {
        if self.fails() {
            return Err(io::Error::from(ErrorKind::BrokenPipe));
        }
        let Question { beginning, end, .. } = self.question;
        self.seen
            .note(buf.starts_with(beginning) && buf.ends_with(end));
        Ok(buf.len())
    }
}

/// One operator, while there is one.
#[derive(Drop)]
pub struct Asker<'a> {
    operator: Option<Operator<Line<'a>>>,
}

impl<'a> Asker<'a> {
    /// One who has come at the moment 0.
    pub fn at(alloc: Global, line: Line<'a>) -> Result<Asker<'a>, AllocError> {
        let operator = Operator::new(alloc, line, 0)?;
        Ok(Asker {
            operator: Some(operator),
        })
    }
}

impl Operators for Asker<'_> {
    ghost wish = { λ asker key. wish_at asker.operator key };

    ghost line = { λ asker key. line_of asker.operator };

    ghost turns = { λ now old new. ⊤ };

    ghost hears = { λ key octets goes_on old new. ⊤ };

    fn turn(&mut self, now: u64) {
        let is_gone = match &mut self.operator {
            Some(operator) => operator.visit(now).is_none(),
            None => false,
        };
        if is_gone {
            self.operator = None;
        }
    }

    fn wish(&self, key: usize) -> Wish {
        match &self.operator {
            Some(operator) if key == 0 => operator.wish(),
            _ => Wish::Nothing,
        }
    }

    fn line(&self, _key: usize) -> &[u8] {
        match &self.operator {
            Some(operator) => operator.line(),
            None => &[],
        }
    }

    fn say(&mut self, _key: usize, octets: &[u8], goes_on: bool) {
        if let Some(operator) = &mut self.operator {
            operator.say(octets, goes_on);
        }
    }

    fn is_busy(&self) -> bool {
        self.operator.is_some()
    }
}
