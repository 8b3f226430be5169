//! Why the exceptions of a file aren't obeyed.
ghost use Rattle.std.specs.Prelude.{◌≡◌, ◌≢◌};
ghost use Rattle.speaker_exceptions.specs.ExceptionExits.{exit_of_exceptions, exit_of_refusal, exit_of_slurm};

use program_endings::ExitFault;
use slurm_files::SlurmFault;
use speaker::Refusal;
use thiserror::Error;

/// Why the exceptions of a SLURM file aren't obeyed.
#[derive(Clone, Copy, Debug, PartialEq, Eq, Error)]
pub enum ExceptionsFault {
    /// The file is none, or there is no memory for what it says.
    #[error("{0}")]
    Slurm(SlurmFault),
    /// The speaker refuses one of them.
    #[error("an exception: {0}")]
    Refused(Refusal),
}

impl ExceptionsFault {
    /// What ends a program that can't go on without them.
    pub fn exit(self) -> ExitFault
        ensures exit { result ≡ exit_of_exceptions self }
        ensures other { result ≢ ExitFault.Arguments }
    {
        match self {
            ExceptionsFault::Slurm(fault) => of_slurm(fault),
            ExceptionsFault::Refused(refusal) => of_refusal(refusal),
        }
    }
}

fn of_slurm(fault: SlurmFault) -> ExitFault
    ensures exit { result ≡ exit_of_slurm fault }
    ensures other { result ≢ ExitFault.Arguments }
{
    match fault {
        SlurmFault::NoMemory => ExitFault::Device,
        _ => ExitFault::Settings,
    }
}

fn of_refusal(refusal: Refusal) -> ExitFault
    ensures exit { result ≡ exit_of_refusal refusal }
    ensures other { result ≢ ExitFault.Arguments }
{
    match refusal {
        Refusal::NoMemory => ExitFault::Device,
        _ => ExitFault::Settings,
    }
}
