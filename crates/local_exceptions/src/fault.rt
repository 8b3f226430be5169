//! Why an exception is refused.
ghost use Rattle.std.specs.Prelude.{◌≡◌};
ghost use Rattle.local_exceptions.specs.ExceptionNumbers.{number_of};

use thiserror::Error;

/// Why an exception is refused.
#[derive(Clone, Copy, Debug, PartialEq, Eq, Error)]
pub enum ExceptionFault {
    #[error("there are 4,096 exceptions of this kind")]
    Limit,
    #[error("a filter has neither a prefix nor an AS, or a maximum length is no such of its prefix")]
    Range,
    #[error("there is no such exception")]
    UnknownException,
    #[error("there is no memory for the exception")]
    NoMemory,
}

impl ExceptionFault {
    /// The number that operators see.
    pub fn number(self) -> u8
        ensures { result ≡ number_of self }
    {
        match self {
            ExceptionFault::Limit => 31,
            ExceptionFault::Range => 33,
            ExceptionFault::UnknownException => 34,
            ExceptionFault::NoMemory => 44,
        }
    }
}
