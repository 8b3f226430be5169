//! The interior cost of a `reach` entry.

use std::marker::Model;

/// The interior cost of the next hops under a prefix.
#[derive(Drop)]
pub(crate) struct Cost(pub(crate) u32);

impl Model for Cost {
    ghost use Rattle.std.specs.Prelude.{ℕ};

    ghost Value = { ℕ };

    ghost view = { λ c. c.0 };
}
