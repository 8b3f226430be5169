//! The line that an operator sends.
ghost use Rattle.std.specs.Prelude.{◌≡◌, ◌≤◌, ◌<◌, ◌+◌, ◌++◌, ◌∷◌, [], IfSome, None, length, take};
ghost use Rattle.std.specs.Bool.{OnFalse, OnTrue};
ghost use Rattle.control_lines.specs.Lines.{GathersLine, IsWithin, line_feed, most_of_a_line};

use arrayvec::ArrayVec;
use std::marker::Model;

/// The most octets of a line, without its line feed (own choice).
pub const MOST_OF_A_LINE: usize = 1_024;

/// What octets were to the line that is gathered.
#[derive(Clone, Copy, Debug, PartialEq, Eq)]
pub enum Heard {
    /// It goes on.
    Part,
    /// It is whole.
    Whole,
    /// It has more octets than a line may have.
    TooLong,
}

/// The octets of a line, as far as they have come.
#[derive(Drop)]
pub struct LineBuffer {
    octets: ArrayVec<u8, MOST_OF_A_LINE>,
}

impl Model for LineBuffer {
    ghost use Rattle.std.specs.Prelude.{ℕ, List};

    ghost Value = { List ℕ };

    ghost view = { λ line. line.octets.items };
}

impl LineBuffer {
    /// None have come.
    pub fn new() -> LineBuffer
        ensures { result ≡ [] }
    {
        LineBuffer {
            octets: ArrayVec::new(),
        }
    }

    /// What the octets are.
    pub fn octets(&self) -> &[u8]
        ensures { result.now ≡ self.now }
    {
        self.octets.as_slice()
    }

    /// The next line begins.
    pub fn clear(&mut self)
        ensures { self.new ≡ [] }
    {
        self.octets.clear();
    }

    /// Takes octets up to the line feed that ends the line, and answers how many they were, with it. Where the line is too long
    /// all are taken, and it stays as it was.
    #[tactic(auto, using(crate::proofs::Gathering::too_long_all))]
    pub fn hear(&mut self, octets: &[u8]) -> (usize, Heard)
        ensures bound { result.0 ≤ length octets.now }
        ensures gathers { GathersLine self.old octets.now result.0 result.1 self.new }
    {
        match end_of_line(octets) {
            Some(end) => match self.put(&octets[..end]) {
                true => (end + 1, Heard::Whole),
                false => (octets.len(), Heard::TooLong),
            },
            None => match self.put(octets) {
                true => (octets.len(), Heard::Part),
                false => (octets.len(), Heard::TooLong),
            },
        }
    }

    // Puts octets behind those that have come, unless that would be too many.
    #[tactic(auto, unfolding(crate::specs::Lines::most_of_a_line))]
    fn put(&mut self, octets: &[u8]) -> bool
        ensures put { OnTrue result (self.new ≡ self.old ++ octets.now) }
        ensures few { OnTrue result (length self.new ≤ most_of_a_line) }
        ensures many { OnFalse result (most_of_a_line < length self.old + length octets.now) }
        ensures same { OnFalse result (self.new ≡ self.old) }
    {
        self.octets.try_extend_from_slice(octets).is_ok()
    }
}

// How many octets stand in front of the first line feed, where there is one.
fn end_of_line(octets: &[u8]) -> Option<usize>
    ensures some { IfSome result (λ end. end < length octets.now) }
    ensures front { IfSome result (λ end. take (end + 1) octets.now ≡ take end octets.now ++ line_feed ∷ []) }
    ensures first { IfSome result (λ end. IsWithin (take end octets.now)) }
    ensures none { result ≡ None → IsWithin octets.now }
{
    octets.iter().position(|octet| *octet == b'\n')
}
