//! Why payloads can't be had.
use payload_lists::PayloadListFault;
use slurm_files::SlurmFault;
use std::io;
use thiserror::Error;

/// Which file.
#[derive(Clone, Copy, Debug, PartialEq, Eq, Error)]
pub enum SourceFile {
    /// The payload list.
    #[error("list")]
    List,
    /// The SLURM file.
    #[error("SLURM file")]
    Slurm,
}

/// A file that can't be opened.
#[derive(Debug, Drop)]
pub struct Unopened {
    pub file: SourceFile,
    pub error: io::Error,
}

/// Why the set of files that were opened can't be had.
#[derive(Clone, Copy, Debug, PartialEq, Eq, Error)]
pub enum SourceFault {
    /// The list is refused, or reading it failed.
    #[error("{0}")]
    List(PayloadListFault),
    /// The SLURM file is refused, or there is no memory for its exceptions or for the set under them.
    #[error("{0}")]
    Slurm(SlurmFault),
    /// The device failed at the SLURM file.
    #[error("the device failed")]
    SlurmDevice,
    /// This file was written to while it was read.
    #[error("the file changed while it was read")]
    Changed(SourceFile),
}

impl SourceFault {
    /// Whose fault it is.
    pub fn file(self) -> SourceFile {
        match self {
            SourceFault::List(_) => SourceFile::List,
            SourceFault::Slurm(_) | SourceFault::SlurmDevice => SourceFile::Slurm,
            SourceFault::Changed(file) => file,
        }
    }
}
