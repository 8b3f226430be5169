//! What is said to an operator, as far as it isn't written.
ghost use Rattle.std.specs.Prelude.{◌≡◌, ◌≤◌, [], OnOk, OnErr, drop, length};

use std::alloc::{AllocError, Global};
use std::marker::Model;

/// What was said and isn't written yet.
#[derive(Drop)]
pub(crate) struct Saying {
    octets: Vec<u8>,
    written: usize,
}

impl Model for Saying {
    ghost use Rattle.std.specs.Prelude.{ℕ, List, ◌≤◌, drop, length};

    ghost Value = { List ℕ };

    ghost view = { λ saying. drop saying.written saying.octets.items };

    ghost invariant = { λ saying. saying.written ≤ length saying.octets.items };
}

impl Saying {
    /// Nothing was said.
    pub fn new(alloc: Global) -> Saying
        ensures { result ≡ [] }
    {
        Saying {
            octets: Vec::new(alloc),
            written: 0,
        }
    }

    /// What is still to be written.
    pub fn octets(&self) -> &[u8]
        ensures { result.now ≡ self.now }
    {
        &self.octets[self.written..]
    }

    /// This is said, and nothing else; nothing where there is no memory for it.
    pub fn put(&mut self, octets: &[u8]) -> Result<(), AllocError>
        ensures said { OnOk result (self.new ≡ octets.now) }
        ensures unsaid { OnErr result (self.new ≡ []) }
    {
        self.octets.clear();
        self.written = 0;
        self.octets.extend_from_slice(octets)
    }

    /// So many octets were written.
    #[tactic(auto, using(crate::proofs::Chunks::behind))]
    pub fn wrote(&mut self, count: usize)
        requires { count ≤ length self.old }
        ensures { self.new ≡ drop count self.old }
    {
        self.written += count;
    }
}
