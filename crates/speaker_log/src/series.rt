//! Attempts at a connection that fail alike, one after another.
ghost use Rattle.std.specs.Prelude.{◌≡◌, None, Some};
ghost use Rattle.speaker_log.specs.SeriesCounts.{Meets, more_of};

use crate::failure::Failure;

/// What failed last of a side, and how often it has failed alike since it was told.
#[derive(Clone, Copy, Debug, PartialEq, Eq)]
pub struct Series {
    last: Option<Failure>,
    more: u64,
}

/// What one more failure is to a log.
#[derive(Clone, Copy, Debug, PartialEq, Eq)]
pub enum Met {
    /// It is like the one before, and counted.
    Alike,
    /// It is to be told, behind how many more there were like the one before.
    Other(u64),
}

impl Series {
    /// Nothing has failed.
    pub const NONE: Series = Series {
        last: None,
        more: 0,
    };

    /// Whether one has failed like the one before.
    pub fn is_on(&self) -> bool {
        self.more > 0
    }

    /// One more has failed.
    pub fn meet(&mut self, failure: Failure) -> Met
        ensures { Meets failure self.old result self.new }
    {
        if self.last == Some(failure) {
            self.more = self.more.saturating_add(1);
            return Met::Alike;
        }
        let more = self.more;
        self.last = Some(failure);
        self.more = 0;
        Met::Other(more)
    }

    /// It is over. Answers how many have failed alike that weren't told.
    pub fn end(&mut self) -> u64
        ensures more { result ≡ more_of self.old }
        ensures over { self.new ≡ record { last = None; more = 0 } }
    {
        let more = self.more;
        self.last = None;
        self.more = 0;
        more
    }
}
