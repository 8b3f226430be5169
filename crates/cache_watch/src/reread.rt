//! What reading the list again has led to.
ghost use Rattle.std.specs.Prelude.{◌≡◌};
ghost use Rattle.cache_watch.specs.Outcomes.{count_refused, outcome_of};

use cache_figures::Outcome;
use list_guards::GuardFault;
use payload_sources::{SourceFault, SourceFile};
use thiserror::Error;

/// Why a list can't be had.
#[derive(Clone, Copy, Debug, PartialEq, Eq, Error)]
pub enum ListFault {
    /// A file can't be opened.
    #[error("the file can't be opened")]
    NoFile(SourceFile),
    /// A file is refused, or reading failed.
    #[error("{0}")]
    Source(SourceFault),
    /// A guard of the settings refuses it.
    #[error("{0}")]
    Guard(GuardFault),
    /// It is older than it may be.
    #[error("it has {payloads} payloads, written {seconds} seconds ago, and {most} may be")]
    Old {
        payloads: usize,
        seconds: u64,
        most: u32,
    },
    /// An operator accepts the list that was refused, which had another count of payloads.
    #[error("it has {payloads} payloads, and the one that was refused had {refused}")]
    Other {
        payloads: usize,
        refused: usize,
    },
    /// The cache has no memory for it.
    #[error("there is no memory to publish it")]
    NoMemory,
}

impl ListFault {
    /// Whose fault it is.
    pub fn file(self) -> SourceFile {
        match self {
            ListFault::NoFile(file) => file,
            ListFault::Source(why) => why.file(),
            ListFault::Guard(_) | ListFault::NoMemory => SourceFile::List,
            ListFault::Old { .. } | ListFault::Other { .. } => SourceFile::List,
        }
    }

    /// How many payloads the list has, where an operator may accept it.
    pub fn payloads(self) -> Option<usize>
        ensures { result ≡ count_refused self }
    {
        match self {
            ListFault::Guard(why) => Some(why.payloads()),
            ListFault::Old { payloads, .. } => Some(payloads),
            ListFault::Other { payloads, .. } => Some(payloads),
            ListFault::NoFile(_) | ListFault::Source(_) | ListFault::NoMemory => None,
        }
    }
}

/// What reading the list again has led to.
#[derive(Clone, Copy, Debug, PartialEq, Eq)]
pub enum Reread {
    /// The list can't be had. What was served is served on.
    Refused(ListFault),
    /// It has the payloads that are served.
    Same,
    /// Its files are those that it was read from last, by their stamps, and weren't read: what was read last stands.
    Unchanged,
    /// It has others, which are served from now on under this serial.
    Published(u32),
}

impl Reread {
    /// As it is counted.
    pub fn outcome(self) -> Outcome
        ensures { result ≡ outcome_of self }
    {
        match self {
            Reread::Refused(_) => Outcome::Refused,
            Reread::Same => Outcome::Same,
            Reread::Unchanged => Outcome::Unchanged,
            Reread::Published(_) => Outcome::Taken,
        }
    }
}
