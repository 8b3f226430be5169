//! Why a delta wasn't applied.
ghost use Rattle.std.specs.Prelude.{◌≡◌};
ghost use Rattle.vrp_delta.specs.DeltaNumbers.{number_of};

use thiserror::Error;

/// Why a delta wasn't applied.
#[derive(Clone, Copy, Debug, PartialEq, Eq, Error)]
pub enum DeltaFault {
    #[error("there is no memory for the changed set")]
    NoMemory,
    #[error("a withdrawn payload is not in the set")]
    Unknown,
    #[error("an announced payload is in the set already")]
    Duplicate,
}

impl DeltaFault {
    /// The number that operators see.
    pub fn number(self) -> u8
        ensures { result ≡ number_of self }
    {
        match self {
            DeltaFault::NoMemory => 5,
            DeltaFault::Unknown => 6,
            DeltaFault::Duplicate => 7,
        }
    }
}
