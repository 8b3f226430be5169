//! Why octets, a text or numbers are no prefix or payload.
ghost use Rattle.std.specs.Prelude.{◌≡◌};
ghost use Rattle.net_prefix.specs.PrefixNumbers.{number_of};

use thiserror::Error;

/// Why something is no prefix or payload.
#[derive(Clone, Copy, Debug, PartialEq, Eq, Error)]
pub enum PrefixFault {
    #[error("the prefix is longer than 32 bits")]
    LenOver32,
    #[error("the address has bits behind the prefix")]
    HostBits,
    #[error("the text is no prefix")]
    Text,
    #[error("the maximum length is below the prefix length or over 32 bits")]
    MaxRange,
    #[error("the octets end within the prefix")]
    Cut,
}

impl PrefixFault {
    /// The number that operators see.
    pub fn number(self) -> u8
        ensures { result ≡ number_of self }
    {
        match self {
            PrefixFault::LenOver32 => 1,
            PrefixFault::HostBits => 2,
            PrefixFault::Text => 3,
            PrefixFault::MaxRange => 4,
            PrefixFault::Cut => 9,
        }
    }
}
