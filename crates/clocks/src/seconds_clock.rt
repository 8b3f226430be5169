//! What tells moments.
ghost use Rattle.std.specs.Prelude.{◌≡◌, ℕ, List, ◌∷◌, IfOk, OnErr};
ghost use Rattle.clocks.specs.Moments.{IsNotBefore};

use std::io;

/// A clock that tells whole seconds since it was first read. For proofs it keeps in mind what it told, the last one first.
pub trait SecondsClock {
    ghost readings: { Self → List ℕ };

    /// The moment now, which is never before one that was told.
    fn read(&mut self) -> io::Result<u64>
        ensures told { IfOk result (λ now. readings self.new ≡ now ∷ readings self.old) }
        ensures forward { IfOk result (λ now. IsNotBefore now (readings self.old)) }
        ensures failed { OnErr result (readings self.new ≡ readings self.old) };
}
