//! What is kept of an exchange with an operator.
ghost use Rattle.std.specs.Prelude.{◌≡◌, ◌==◌, ◌⊎◌, [], true, IfOk, length};
ghost use Rattle.std.specs.Bool.{OnTrue};
ghost use Rattle.control_lines.specs.Talks.{Hears, has_begun, silent, too_long};

use crate::chunk::Chunk;
use crate::line_buffer::{Heard, LineBuffer};
use crate::saying::Saying;
use std::alloc::{AllocError, Global};

const TOO_LONG: &[u8] = b"refused: a line has at most 1024 octets\n";

/// What an operator waits for.
#[derive(Clone, Copy, Debug, PartialEq, Eq)]
pub enum Wish {
    /// Nothing: no line is whole, or what was said isn't all taken.
    Nothing,
    /// An answer to its line.
    Answer,
    /// More of an answer of which a piece was said.
    More,
}

/// What is kept of an exchange.
#[derive(Drop)]
pub(crate) struct Talk {
    /// The line, as far as it has come.
    pub line: LineBuffer,
    /// What was read behind it.
    pub chunk: Chunk,
    /// What is still to be written.
    pub saying: Saying,
    pub wish: Wish,
    /// Whether the connection ends behind what was said.
    pub is_leaving: bool,
}

impl Talk {
    /// Nothing has come or gone.
    pub fn new(alloc: Global) -> Result<Talk, AllocError>
        ensures { IfOk result (λ talk. talk ≡ silent) }
    {
        Ok(Talk {
            line: LineBuffer::new(),
            chunk: Chunk::new(alloc)?,
            saying: Saying::new(alloc),
            wish: Wish::Nothing,
            is_leaving: false,
        })
    }

    /// Whether all that was said is written.
    pub fn is_written(&self) -> bool
        ensures written { OnTrue result (self.now.saying ≡ []) }
        ensures counts { result ≡ (length self.now.saying == 0) }
    {
        self.saying.octets().is_empty()
    }

    /// Whether a line has begun that isn't whole.
    pub fn has_begun(&self) -> bool
        ensures { result ≡ has_begun self.now }
    {
        match self.wish {
            Wish::Nothing => !self.is_leaving && self.line.octets().len() > 0,
            Wish::Answer | Wish::More => false,
        }
    }

    /// This is said; where there is no memory for it, the operator is to go.
    pub fn put(&mut self, octets: &[u8])
        ensures line { self.new.line ≡ self.old.line }
        ensures chunk { self.new.chunk ≡ self.old.chunk }
        ensures wish { self.new.wish ≡ self.old.wish }
        ensures said { ((self.new.saying ≡ octets.now) × (self.new.is_leaving ≡ self.old.is_leaving)) ⊎ ((self.new.saying ≡ []) × (self.new.is_leaving ≡ true)) }
    {
        if self.saying.put(octets).is_err() {
            self.is_leaving = true;
        }
    }

    /// Goes on with the line by octets that were read.
    pub fn hear(&mut self)
        ensures { Hears self.old.chunk self.old self.new }
    {
        let (count, heard) = self.line.hear(self.chunk.octets());
        self.chunk.take(count);
        match heard {
            Heard::Part => {}
            Heard::Whole => self.wish = Wish::Answer,
            Heard::TooLong => self.refuse(),
        }
    }

    // The line is too long.
    fn refuse(&mut self)
        ensures leaves { self.new.is_leaving ≡ true }
        ensures said { (self.new.saying ≡ too_long) ⊎ (self.new.saying ≡ []) }
        ensures line { self.new.line ≡ self.old.line }
        ensures chunk { self.new.chunk ≡ self.old.chunk }
        ensures wish { self.new.wish ≡ self.old.wish }
    {
        self.put(TOO_LONG);
        self.is_leaving = true;
    }
}
