//! Who looks on.
ghost use Rattle.std.specs.Prelude.{◌≡◌, Bool, false};

use std::io::Write;
use std::rt::Clock;

/// Who looks at a value behind each turn, and writes to a log what there is to tell of it.
pub trait Onlooker<T> {
    // Whether anything is written at all.
    ghost writes: { Self → Bool };

    /// The value is this at this moment.
    fn look<R: Clock, O: Write>(&mut self, rt: &R, value: &T, now: u64, output: &mut O)
        ensures silent { writes self.old ≡ false → output.new ≡ output.old }
        ensures same { writes self.new ≡ writes self.old };
}
