//! What the system's clock answered, for proofs alone.
ghost use Rattle.std.specs.Prelude.{◌≡◌, ℕ, List, [], ◌∷◌};
ghost use Rattle.std.specs.Coded.{coded_list, coded_ℕ};
ghost use Rattle.std.specs.Time.{instant_nanos};
ghost use base.Fml.{ftrue};

use std::marker::Model;
use std::time::Instant;

/// The instants that were answered, in nanoseconds since the clock's start, the last one first. It takes no memory and no
/// time.
#[derive(Drop)]
pub(crate) struct Readings {
    pub ghost instants: { List ℕ } by { coded_list coded_ℕ },
}

impl Model for Readings {
    ghost also_owns = { λ _. ftrue };
}

/// An instant that is answered.
#[derive(Clone, Copy, Drop)]
pub(crate) struct Reading(pub Instant);

impl Readings {
    /// None.
    pub fn new() -> Readings
        ensures { result.instants ≡ [] }
    {
        Readings {}
    }

    /// This one, and the others.
    pub fn then(&self, _reading: &Reading) -> Readings
        ensures { result.instants ≡ instant_nanos _reading.now.0 ∷ self.now.instants }
    {
        Readings {}
    }
}
