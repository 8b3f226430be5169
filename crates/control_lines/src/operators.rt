//! All operators.
ghost use Rattle.std.specs.Prelude.{◌≡◌, ℕ, List, Bool};
ghost use Rattle.control_lines.specs.declared.talk.Wish.{Wish as TheWish};

use crate::talk::Wish;

/// How many operators may be there at once (own choice). Each has a key below this.
pub const OPERATORS: usize = 16;

/// Operators at whatever they connect to. To each key they say what its operator waits for, and the line; what becomes of them
/// all in a turn, and where something is said to one, is theirs to say.
pub trait Operators {
    ghost wish: { Self → ℕ → TheWish };

    ghost line: { Self → ℕ → List ℕ };

    // A turn at this moment.
    ghost turns: { ℕ → Self → Self → Type 0 };

    // These octets are said to the operator of this key, with more to come or not.
    ghost hears: { ℕ → List ℕ → Bool → Self → Self → Type 0 };

    /// Lets in one who has come, where there is a place, and visits each once.
    fn turn(&mut self, now: u64)
        ensures { turns now self.old self.new };

    /// What the operator of this key waits for; nothing where there is none.
    fn wish(&self, key: usize) -> Wish
        ensures { result ≡ wish self.now key };

    /// The line of the operator of this key; no octets where there is none.
    fn line(&self, key: usize) -> &[u8]
        ensures { result.now ≡ line self.now key };

    /// This is said to the operator of this key, wholly or with more that is still to come.
    fn say(&mut self, key: usize, octets: &[u8], goes_on: bool)
        ensures { hears key octets.now goes_on self.old self.new };

    /// Whether one came, or octets came or went, in the last turn.
    fn is_busy(&self) -> bool;
}
