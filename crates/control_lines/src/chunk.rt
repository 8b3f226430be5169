//! Octets that were read of a stream, and aren't a line's yet.
ghost use Rattle.std.specs.Prelude.{◌≡◌, ◌≢◌, ◌≤◌, [], IfOk, OnErr, drop, length};
ghost use Rattle.std.specs.Bool.{OnFalse, OnTrue};
ghost use Rattle.std.specs.Io.KnownBytes.{Consumes, Keeps};

use crate::stream::Stream;
use std::alloc::{AllocError, Global};
use std::io;
use std::marker::Model;

// How many octets are read at once.
const READ_AT_ONCE: usize = 512;

/// What was read and not taken yet.
#[derive(Drop)]
pub(crate) struct Chunk {
    octets: Vec<u8>,
    from: usize,
    to: usize,
}

impl Model for Chunk {
    ghost use Rattle.std.specs.Prelude.{ℕ, List, ◌≤◌, ◌-◌, take, drop, length};

    ghost Value = { List ℕ };

    ghost view = { λ chunk. take (chunk.to - chunk.from) (drop chunk.from chunk.octets.items) };

    ghost invariant = { λ chunk. (chunk.from ≤ chunk.to) × (chunk.to ≤ length chunk.octets.items) };
}

impl Chunk {
    /// Nothing was read yet.
    pub fn new(alloc: Global) -> Result<Chunk, AllocError>
        ensures { IfOk result (λ chunk. chunk ≡ []) }
    {
        let octets = vec![in alloc; 0; READ_AT_ONCE]?;
        Ok(Chunk {
            octets,
            from: 0,
            to: 0,
        })
    }

    /// What the octets are.
    pub fn octets(&self) -> &[u8]
        ensures { result.now ≡ self.now }
    {
        &self.octets[self.from..self.to]
    }

    /// Whether there are none.
    pub fn is_empty(&self) -> bool
        ensures none { OnTrue result (self.now ≡ []) }
        ensures some { OnFalse result (self.now ≢ []) }
    {
        self.octets().is_empty()
    }

    /// So many are taken.
    #[tactic(auto, using(crate::proofs::Chunks::left))]
    pub fn take(&mut self, count: usize)
        requires { count ≤ length self.old }
        ensures { self.new ≡ drop count self.old }
    {
        self.from += count;
    }

    /// What the stream gives takes the place of those that were read before. Answers how many octets that are.
    #[tactic(auto, using(crate::proofs::Resting::fresh_none))]
    pub fn fill<S: Stream>(&mut self, stream: &mut S) -> io::Result<usize>
        ensures count { IfOk result (λ count. length self.new ≡ count) }
        ensures came { IfOk result (λ count. Consumes (S.remaining stream.old) (S.remaining stream.new) self.new) }
        ensures end { IfOk result (λ count. count ≡ 0 → (self.new ≡ []) × Keeps (S.remaining stream.old) (S.remaining stream.new)) }
        ensures failed { OnErr result ((self.new ≡ []) × Keeps (S.remaining stream.old) (S.remaining stream.new)) }
        ensures unwritten { Keeps (S.contents stream.old) (S.contents stream.new) }
    {
        self.from = 0;
        self.to = 0;
        let count = stream.read(self.octets.as_mut_slice())?;
        self.to = count;
        Ok(count)
    }
}
