//! What the refused requests of a case came to.

use crate::case::Case;
use crate::fault::Fault;
use crate::lines::{Lines, row_of};
use crate::refused::Met;
use crate::rows::{count_of, is_met};
use std::alloc::Global;
use std::fmt;
use std::io::{self, Write};

/// What each refused request came to, and at which call.
#[derive(Drop)]
pub struct Endings {
    // A line each.
    lines: Vec<u8>,
}

impl Endings {
    pub fn new(alloc: Global) -> Endings {
        Endings {
            lines: Vec::new(alloc),
        }
    }

    /// Puts in what one more came to.
    pub fn note(&mut self, met: Met) -> io::Result<()> {
        writeln!(self.lines, "{} {}", met.ending, met.number)
    }

    /// Whether all rows of the case are met: the fault is the first that isn't.
    pub fn meet(&self, case: Case<'_>) -> Result<(), Fault> {
        let mut number = 0u64;
        for line in Lines::of(case.rows) {
            number = number.saturating_add(1);
            if !is_met(row_of(line), self.lines.as_slice()) {
                return Err(Fault::Row(number));
            }
        }
        Ok(())
    }

    /// How often they came to what.
    pub fn counts(&self) -> Counts {
        Counts::of(self.lines.as_slice())
    }
}

/// How often the refused requests came to what.
#[derive(Clone, Copy)]
pub struct Counts {
    refused: usize,
    closed: usize,
    cache: usize,
    clients: usize,
    unseen: usize,
}

impl Counts {
    fn of(endings: &[u8]) -> Counts {
        let cache = count_of(endings, b"closed cache");
        Counts {
            refused: count_of(endings, b"refused"),
            closed: count_of(endings, b"closed").saturating_sub(cache),
            cache,
            clients: count_of(endings, b"client"),
            unseen: count_of(endings, b"unseen"),
        }
    }
}

impl fmt::Display for Counts {
    fn fmt<W: fmt::Write>(&self, f: &mut fmt::Formatter<W>) -> fmt::Result {
        let (refused, closed) = (self.refused, self.closed);
        let (cache, clients) = (self.cache, self.clients);
        write!(
            f,
            "refused {refused} peers {closed} cache {cache} clients {clients} unseen {}",
            self.unseen
        )
    }
}
