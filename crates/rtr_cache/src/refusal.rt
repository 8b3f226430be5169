//! Why an event was refused.
ghost use Rattle.std.specs.Prelude.{◌≡◌};
ghost use Rattle.rtr_cache.specs.CacheNumbers.{number_of};

use std::alloc::AllocError;
use thiserror::Error;

/// Why an event, a take or a new cache was refused.
#[derive(Clone, Copy, Debug, PartialEq, Eq, Error)]
pub enum CacheRefusal {
    #[error("there is no such client")]
    NoClient,
    #[error("there are as many clients as a cache serves")]
    Full,
    #[error("the clock went back")]
    ClockBack,
    #[error("there is no memory for it")]
    NoMemory,
    #[error("an interval is outside its bounds")]
    Range,
}

impl From<AllocError> for CacheRefusal {
    ghost use Rattle.rtr_cache.specs.declared.refusal.CacheRefusal.TheVariants.{NoMemory};

    ghost from_gives = { λ _ refusal. refusal ≡ NoMemory };

    fn from(_refused: AllocError) -> Self {
        CacheRefusal::NoMemory
    }
}

impl CacheRefusal {
    /// The number that operators see.
    pub fn number(self) -> u8
        ensures { result ≡ number_of self }
    {
        match self {
            CacheRefusal::NoClient => 50,
            CacheRefusal::Full => 51,
            CacheRefusal::ClockBack => 52,
            CacheRefusal::NoMemory => 53,
            CacheRefusal::Range => 54,
        }
    }
}
