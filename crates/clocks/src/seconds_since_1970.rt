//! What tells the second.
ghost use Rattle.std.specs.Prelude.{◌≡◌, ℕ, Option, Some, IfOk};

use std::io;

/// A clock that tells the whole seconds since 1970 began.
pub trait SecondsSince1970 {
    // The second that it told last, if it told one.
    ghost told: { Self → Option ℕ };

    /// The second now.
    fn second(&mut self) -> io::Result<u64>
        ensures { IfOk result (λ second. told self.new ≡ Some second) };
}
