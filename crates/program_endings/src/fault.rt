//! What ends a program.
ghost use Rattle.std.specs.Prelude.{◌≡◌};
ghost use Rattle.program_endings.specs.Exits.{status_of};

use thiserror::Error;

/// What a program prints behind its name before it ends, and its exit status. Why it has ended stands behind that.
#[derive(Clone, Copy, Debug, PartialEq, Eq, Error)]
pub enum ExitFault {
    /// The words are wrong.
    #[error("arguments")]
    Arguments,
    /// The settings, or a list that they name, are refused.
    #[error("settings")]
    Settings,
    /// The line of this number is no command, or no line of a script.
    #[error("line {0}: bad line")]
    BadLine(u64),
    /// The command on the line of this number is refused, by this other number.
    #[error("settings: line {0}: refused {1}")]
    RefusedLine(u64, u8),
    /// A file, the network or the clock has failed, or there is no memory.
    #[error("device")]
    Device,
}

impl ExitFault {
    /// The exit status.
    pub fn status(self) -> u8
        ensures { result ≡ status_of self }
    {
        match self {
            ExitFault::Arguments | ExitFault::Settings => 1,
            ExitFault::BadLine(_) | ExitFault::RefusedLine(..) => 1,
            ExitFault::Device => 2,
        }
    }
}
