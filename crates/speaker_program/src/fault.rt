//! What ends the program of a speaker.
ghost use Rattle.std.specs.Prelude.{◌≡◌};
ghost use Rattle.speaker_program.specs.Endings.{IsOfCommands, IsOfExceptions, IsOfFile, IsOfSettings, IsOfSlot};
ghost use Rattle.speaker_program.specs.Exits.{exit_of_fault};
ghost use Rattle.speaker_program.specs.declared.fault.SpeakerFault.TheVariants.{NoMemory, Turn};

use crate::exits::{of_commands, of_speaker};
use crate::unobeyed::Unobeyed;
use program_endings::{ExitFault, FilePath, WordsFault};
use settings_keys::SettingsFault;
use speaker::Refusal;
use speaker_exceptions::ExceptionsFault;
use std::alloc::{AllocError, Global};
use std::fmt::{self, Display, Formatter};
use std::io;
use std::net::SocketAddr;
use thiserror::Error;
use wires::LoopFault;

/// What ends the program of a speaker, with its cause.
#[derive(Debug, Drop, Error)]
pub enum SpeakerFault {
    /// The words are wrong.
    #[error("{0}; ovbgpd --help tells what the words are")]
    Words(WordsFault),
    /// A file can't be read.
    #[error("{path}: {error}")]
    File {
        path: FilePath,
        error: io::Error,
    },
    /// The settings are refused.
    #[error("{path}: {why}")]
    Settings {
        path: FilePath,
        why: SettingsFault,
    },
    /// Their commands can't be obeyed.
    #[error("{path}: {why}")]
    Commands {
        path: FilePath,
        why: Unobeyed,
    },
    /// The exceptions of their SLURM file can't be obeyed.
    #[error("{path}: {why}")]
    Exceptions {
        path: FilePath,
        why: ExceptionsFault,
    },
    /// Behind their commands this slot has a peer and no table, or a table and no peer.
    #[error("{path}: slot {slot} has a peer in the commands or a table in the settings, and not both")]
    Slot {
        path: FilePath,
        slot: u8,
    },
    /// The speaker refuses its beginning.
    #[error("the speaker: {0}")]
    Refused(Refusal),
    /// The address can't be listened at, or the network can't be used.
    #[error("{place}: {error}", place = Listening(*.listen))]
    Listen {
        listen: Option<SocketAddr>,
        error: io::Error,
    },
    /// Scrapers can't connect at the address.
    #[error("metrics {address}: {error}")]
    Metrics {
        address: SocketAddr,
        error: io::Error,
    },
    /// The clock fails.
    #[error("the clock: {0}")]
    Clock(io::Error),
    /// A turn fails.
    #[error("{0}")]
    Turn(LoopFault),
    /// The output fails.
    #[error("the output: {0}")]
    Output(io::Error),
    /// There is no memory to begin.
    #[error("there is no memory")]
    NoMemory,
}

// Where it was to listen.
#[derive(Clone, Copy)]
struct Listening(Option<SocketAddr>);

impl Display for Listening {
    fn fmt<W: fmt::Write>(&self, f: &mut Formatter<W>) -> fmt::Result {
        match &self.0 {
            Some(address) => write!(f, "listen {address}"),
            None => f.write_str("the network"),
        }
    }
}

impl SpeakerFault {
    /// What this is to whoever started the program.
    pub fn exit(&self) -> ExitFault
        ensures { result ≡ exit_of_fault self.now }
    {
        match self {
            SpeakerFault::Words(_) => ExitFault::Arguments,
            SpeakerFault::Settings { why, .. } => why.exit(),
            SpeakerFault::Commands { why, .. } => of_commands(why.why),
            SpeakerFault::Exceptions { why, .. } => why.exit(),
            SpeakerFault::Slot { .. } => ExitFault::Settings,
            SpeakerFault::Refused(refusal) => of_speaker(*refusal),
            SpeakerFault::File { .. } | SpeakerFault::Listen { .. } => ExitFault::Device,
            SpeakerFault::Metrics { .. } => ExitFault::Device,
            SpeakerFault::Clock(_) | SpeakerFault::Turn(_) => ExitFault::Device,
            SpeakerFault::Output(_) | SpeakerFault::NoMemory => ExitFault::Device,
        }
    }

    /// A file that can't be read.
    pub(crate) fn unread(alloc: Global, path: &str, error: io::Error) -> SpeakerFault
        ensures file { IsOfFile path.now error result }
    {
        let path = FilePath::of(alloc, path);
        SpeakerFault::File { path, error }
    }

    /// Settings that are refused.
    pub(crate) fn bad_settings(alloc: Global, path: &str, why: SettingsFault) -> SpeakerFault
        ensures settings { IsOfSettings path.now why result }
    {
        let path = FilePath::of(alloc, path);
        SpeakerFault::Settings { path, why }
    }

    /// Commands that can't be obeyed.
    pub(crate) fn bad_commands(alloc: Global, path: &str, why: Unobeyed) -> SpeakerFault
        ensures commands { IsOfCommands path.now why.why result }
    {
        let path = FilePath::of(alloc, path);
        SpeakerFault::Commands { path, why }
    }

    /// Exceptions that can't be obeyed.
    pub(crate) fn bad_exceptions(alloc: Global, path: &str, why: ExceptionsFault) -> SpeakerFault
        ensures exceptions { IsOfExceptions path.now why result }
    {
        let path = FilePath::of(alloc, path);
        SpeakerFault::Exceptions { path, why }
    }

    /// A slot with a peer and no table, or a table and no peer.
    pub(crate) fn bad_slot(alloc: Global, path: &str, slot: u8) -> SpeakerFault
        ensures slot { IsOfSlot path.now slot result }
    {
        let path = FilePath::of(alloc, path);
        SpeakerFault::Slot { path, slot }
    }
}

impl From<AllocError> for SpeakerFault {
    ghost from_gives = { λ _ fault. fault ≡ NoMemory };

    fn from(_error: AllocError) -> SpeakerFault {
        SpeakerFault::NoMemory
    }
}

impl From<LoopFault> for SpeakerFault {
    ghost from_gives = { λ why fault. fault ≡ Turn why };

    fn from(why: LoopFault) -> SpeakerFault {
        SpeakerFault::Turn(why)
    }
}
