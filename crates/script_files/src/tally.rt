//! How many scripts answered as they should.
ghost use Rattle.std.specs.Prelude.{◌≡◌, ◌≢◌, ◌<◌, ◌+◌, ◌^◌, if◌then◌else◌, true, false};
ghost use Rattle.script_files.specs.Counts.{one_more};

/// The scripts that answered as told, and those that didn't.
#[derive(Clone, Copy, Debug, PartialEq, Eq)]
pub struct Tally {
    pub as_told: u64,
    pub differing: u64,
}

impl Tally {
    /// No script has been played.
    pub const NONE: Tally = Tally {
        as_told: 0,
        differing: 0,
    };

    /// One more script was played.
    pub fn count(&mut self, is_as_told: bool)
        ensures as_told { self.new.as_told ≡ (if is_as_told then one_more self.old.as_told else self.old.as_told) }
        ensures differing { self.new.differing ≡ (if is_as_told then self.old.differing else one_more self.old.differing) }
    {
        if is_as_told {
            self.as_told = self.as_told.saturating_add(1);
        } else {
            self.differing = self.differing.saturating_add(1);
        }
    }

    /// How many scripts were played.
    pub fn scripts(self) -> u64
        ensures { self.as_told + self.differing < 2 ^ 64 → result ≡ self.as_told + self.differing }
    {
        self.as_told.saturating_add(self.differing)
    }

    /// The exit status: 0 where no script differs, else 1.
    pub fn status(self) -> u8
        ensures all { self.differing ≡ 0 → result ≡ 0 }
        ensures not_all { self.differing ≢ 0 → result ≡ 1 }
    {
        match self.differing {
            0 => 0,
            _ => 1,
        }
    }
}
