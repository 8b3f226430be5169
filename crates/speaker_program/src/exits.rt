//! What refusals of the speaker and faults of its commands are to the program.
ghost use Rattle.std.specs.Prelude.{◌≡◌, ◌≢◌};
ghost use Rattle.speaker_program.specs.Exits.{exit_of_commands, exit_of_speaker};

use program_endings::ExitFault;
use scenario::CommandsFault;
use speaker::Refusal;

/// What ends the program where the speaker refuses its beginning.
pub fn of_speaker(refusal: Refusal) -> ExitFault
    ensures exit { result ≡ exit_of_speaker refusal }
    ensures other { result ≢ ExitFault.Arguments }
{
    match refusal {
        Refusal::NoMemory => ExitFault::Device,
        _ => ExitFault::Settings,
    }
}

/// What ends the program where a line of the commands can't be obeyed.
pub fn of_commands(fault: CommandsFault) -> ExitFault
    ensures exit { result ≡ exit_of_commands fault }
    ensures other { result ≢ ExitFault.Arguments }
{
    match fault {
        CommandsFault::BadLine(line) => ExitFault::BadLine(line),
        CommandsFault::Refused(line, why) => ExitFault::RefusedLine(line, why.number()),
        CommandsFault::Device | CommandsFault::NoMemory => ExitFault::Device,
    }
}
