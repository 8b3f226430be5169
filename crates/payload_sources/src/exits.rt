//! What refused files are to a program.
ghost use Rattle.std.specs.Prelude.{◌≡◌, ◌≢◌};
ghost use Rattle.payload_sources.specs.SourceExits.{exit_of_json, exit_of_list, exit_of_row, exit_of_slurm, exit_of_source};

use crate::fault::SourceFault;
use payload_lists::PayloadListFault;
use program_endings::ExitFault;
use slurm_files::SlurmFault;
use vrp_csv::RowFault;
use vrp_json::JsonFault;

impl SourceFault {
    /// What ends a program that can't go on without its files.
    pub fn exit(self) -> ExitFault
        ensures exit { result ≡ exit_of_source self }
        ensures other { result ≢ ExitFault.Arguments }
    {
        match self {
            SourceFault::List(refused) => of_list(refused),
            SourceFault::Slurm(fault) => of_slurm(fault),
            SourceFault::SlurmDevice | SourceFault::Changed(_) => ExitFault::Device,
        }
    }
}

fn of_list(refused: PayloadListFault) -> ExitFault
    ensures exit { result ≡ exit_of_list refused }
    ensures other { result ≢ ExitFault.Arguments }
{
    match refused {
        PayloadListFault::Row(refused) => of_row(refused.fault),
        PayloadListFault::Json(fault) => of_json(fault),
        PayloadListFault::Io => ExitFault::Device,
    }
}

fn of_row(fault: RowFault) -> ExitFault
    ensures exit { result ≡ exit_of_row fault }
    ensures other { result ≢ ExitFault.Arguments }
{
    match fault {
        RowFault::Io | RowFault::NoMemory => ExitFault::Device,
        _ => ExitFault::Settings,
    }
}

fn of_json(fault: JsonFault) -> ExitFault
    ensures exit { result ≡ exit_of_json fault }
    ensures other { result ≢ ExitFault.Arguments }
{
    match fault {
        JsonFault::NoMemory => ExitFault::Device,
        _ => ExitFault::Settings,
    }
}

fn of_slurm(fault: SlurmFault) -> ExitFault
    ensures exit { result ≡ exit_of_slurm fault }
    ensures other { result ≢ ExitFault.Arguments }
{
    match fault {
        SlurmFault::NoMemory => ExitFault::Device,
        _ => ExitFault::Settings,
    }
}
