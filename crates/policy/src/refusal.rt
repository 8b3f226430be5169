//! Why a change of the policies is refused.
ghost use Rattle.std.specs.Prelude.{◌≡◌};
ghost use Rattle.policy.specs.PolicyRefusals.{number_of};

use thiserror::Error;

/// Why a change of the policies is refused.
#[derive(Clone, Copy, Debug, PartialEq, Eq, Error)]
pub enum PolicyRefusal {
    #[error("the policy is unknown")]
    UnknownName,
    #[error("there are too many rules or policies")]
    TooMany,
    #[error("the policy is built in, or in use")]
    InUse,
    #[error("a value is out of its range")]
    Range,
    #[error("there is no memory left")]
    NoMemory,
}

impl PolicyRefusal {
    /// The number that operators see.
    pub fn number(self) -> u8
        ensures { result ≡ number_of self }
    {
        match self {
            PolicyRefusal::UnknownName => 30,
            PolicyRefusal::TooMany => 31,
            PolicyRefusal::InUse => 32,
            PolicyRefusal::Range => 33,
            PolicyRefusal::NoMemory => 44,
        }
    }
}
