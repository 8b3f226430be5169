//! What ends the program of a cache.
ghost use Rattle.std.specs.Prelude.{◌≡◌};
ghost use Rattle.cache_program.specs.Exits.{exit_of_fault};
ghost use Rattle.cache_program.specs.Endings.{IsOfWords};
ghost use Rattle.cache_program.specs.declared.fault.CacheFault.TheVariants.{NoMemory, Turn};

use crate::exits::{of_first_list, of_refusal};
use cache_watch::ListFault;
use program_endings::{ExitFault, FilePath, WordsFault};
use rtr_cache::CacheRefusal;
use settings_keys::SettingsFault;
use std::alloc::{AllocError, Global};
use std::io;
use std::net::SocketAddr;
use thiserror::Error;
use wires::LoopFault;

/// What ends the program of a cache, with its cause.
#[derive(Debug, Drop, Error)]
pub enum CacheFault {
    /// The words are wrong.
    #[error("{0}; ovcache --help tells what the words are")]
    Words(WordsFault),
    /// A file can't be read.
    #[error("{path}: {error}")]
    File {
        path: FilePath,
        error: io::Error,
    },
    /// The settings are refused.
    #[error("{path}: {why}")]
    Settings {
        path: FilePath,
        why: SettingsFault,
    },
    /// Their list can't be had.
    #[error("{path}: {why}")]
    List {
        path: FilePath,
        why: ListFault,
    },
    /// The cache refuses its beginning.
    #[error("the cache: {0}")]
    Refused(CacheRefusal),
    /// The address can't be listened at.
    #[error("listen {address}: {error}")]
    Listen {
        address: SocketAddr,
        error: io::Error,
    },
    /// The address of the figures can't be listened at.
    #[error("metrics {address}: {error}")]
    Metrics {
        address: SocketAddr,
        error: io::Error,
    },
    /// The clock fails.
    #[error("the clock: {0}")]
    Clock(io::Error),
    /// A turn fails.
    #[error("{0}")]
    Turn(LoopFault),
    /// The output fails.
    #[error("the output: {0}")]
    Output(io::Error),
    /// There is no memory to begin.
    #[error("there is no memory")]
    NoMemory,
}

impl CacheFault {
    /// What this is to whoever started the program.
    pub fn exit(&self) -> ExitFault
        ensures { result ≡ exit_of_fault self.now }
    {
        match self {
            CacheFault::Words(_) => ExitFault::Arguments,
            CacheFault::Settings { why, .. } => why.exit(),
            CacheFault::List { why, .. } => of_first_list(*why),
            CacheFault::Refused(refusal) => of_refusal(*refusal),
            CacheFault::File { .. } | CacheFault::Listen { .. } => ExitFault::Device,
            CacheFault::Metrics { .. } => ExitFault::Device,
            CacheFault::Clock(_) | CacheFault::Turn(_) => ExitFault::Device,
            CacheFault::Output(_) | CacheFault::NoMemory => ExitFault::Device,
        }
    }

    /// A file that can't be read.
    pub(crate) fn unread(alloc: Global, path: &str, error: io::Error) -> CacheFault
        ensures { ¬ (IsOfWords result) }
    {
        let path = FilePath::of(alloc, path);
        CacheFault::File { path, error }
    }

    /// Settings that are refused.
    pub(crate) fn bad_settings(alloc: Global, path: &str, why: SettingsFault) -> CacheFault
        ensures { ¬ (IsOfWords result) }
    {
        let path = FilePath::of(alloc, path);
        CacheFault::Settings { path, why }
    }

    /// A list that can't be had.
    pub(crate) fn bad_list(alloc: Global, path: &str, why: ListFault) -> CacheFault
        ensures { ¬ (IsOfWords result) }
    {
        let path = FilePath::of(alloc, path);
        CacheFault::List { path, why }
    }
}

impl From<AllocError> for CacheFault {
    ghost from_gives = { λ _ fault. fault ≡ NoMemory };

    fn from(_error: AllocError) -> CacheFault {
        CacheFault::NoMemory
    }
}

impl From<LoopFault> for CacheFault {
    ghost from_gives = { λ why fault. fault ≡ Turn why };

    fn from(why: LoopFault) -> CacheFault {
        CacheFault::Turn(why)
    }
}
