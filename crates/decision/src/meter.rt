//! The count of selections.
ghost use Rattle.std.specs.Prelude.{◌≡◌, ◌+◌, ◌-◌, ◌^◌, min};

/// Counts selections, up to 2^64 - 1.
#[derive(Clone, Copy, Debug, PartialEq, Eq)]
pub struct Meter {
    pub count: u64,
}

impl Meter {
    /// A meter that has counted nothing.
    pub fn new() -> Meter
        ensures { result.count ≡ 0 }
    {
        Meter { count: 0 }
    }

    /// How many selections were made.
    pub fn count(&self) -> u64
        ensures { result ≡ self.now.count }
    {
        self.count
    }

    /// Counts one more selection.
    pub fn add(&mut self)
        ensures { self.new.count ≡ min (self.old.count + 1) (2 ^ 64 - 1) }
    {
        self.count = self.count.saturating_add(1);
    }
}
