//! What waits to be written to a connection.
ghost use Rattle.std.specs.Prelude.{◌≡◌, ◌≤◌, ◌↔◌, [], IfOk, IsTrue, drop, length, take};
ghost use Rattle.wires.specs.TurnOctets.{outgoing_octets};

use std::alloc::{AllocError, Allocator, Global};
use std::marker::Model;

/// The most octets that a turn reads of a connection.
pub const TURN_OCTETS: usize = 4_096;

/// The most octets that wait to be written to it: more than a turn reads, since what is passed on is longer than what came.
pub const OUTGOING_OCTETS: usize = 16_384;

/// The octets that were handed out for a socket and not yet written.
#[derive(Drop)]
pub struct Outgoing<A: Allocator = Global> {
    octets: Vec<u8, A>,
    from: usize,
    to: usize,
}

impl<A: Allocator> Model for Outgoing<A> {
    ghost use Rattle.std.specs.Prelude.{ℕ, List, ◌≡◌, ◌≤◌, slice_range, vec_len};
    ghost use Rattle.wires.specs.TurnOctets.{outgoing_octets};

    ghost Value = { List ℕ };

    ghost view = { λ outgoing. slice_range outgoing.octets.items outgoing.from outgoing.to };

    ghost invariant = { λ outgoing. (outgoing.from ≤ outgoing.to) × (outgoing.to ≤ vec_len outgoing.octets) × (vec_len outgoing.octets ≡ outgoing_octets) };
}

impl<A: Allocator + Clone> Outgoing<A> {
    /// None.
    #[tactic(auto, unfolding(crate::specs::TurnOctets::outgoing_octets))]
    pub fn new(alloc: A) -> Result<Self, AllocError>
        ensures { IfOk result (λ outgoing. outgoing ≡ []) }
    {
        Ok(Outgoing {
            octets: vec![in alloc; 0; OUTGOING_OCTETS]?,
            from: 0,
            to: 0,
        })
    }

    /// Whether there are none.
    pub fn is_empty(&self) -> bool
        ensures { IsTrue result ↔ (self.now ≡ []) }
    {
        self.from == self.to
    }

    /// What they are.
    pub fn octets(&self) -> &[u8]
        ensures { result.now ≡ self.now }
    {
        &self.octets[self.from..self.to]
    }

    /// These were handed out, where none waited.
    pub fn hold(&mut self, octets: &[u8])
        requires none { self.old ≡ [] }
        requires few { length octets.now ≤ outgoing_octets }
        ensures { self.new ≡ octets.now }
    {
        put_first(self.octets.as_mut_slice(), octets);
        self.from = 0;
        self.to = octets.len();
    }

    /// So many of them were written.
    pub fn pass(&mut self, count: usize)
        requires { count ≤ length self.old }
        ensures { self.new ≡ drop count self.old }
    {
        self.from += count;
    }

    /// None wait any more.
    pub fn clear(&mut self)
        ensures { self.new ≡ [] }
    {
        self.from = self.to;
    }
}

// Puts these octets at the front of a buffer.
fn put_first(buffer: &mut [u8], octets: &[u8])
    requires { length octets.now ≤ length buffer.old }
    ensures front { take (length octets.now) buffer.new ≡ octets.now }
    ensures room { length buffer.new ≡ length buffer.old }
{
    buffer[..octets.len()].copy_from_slice(octets);
}
