//! The lines of the log.

use crate::reread::ListFault;
use cache_figures::CacheFigures;
use list_guards::ListAge;
use net_wires::RouterEvent;
use payload_sources::SourceFile;
use std::fmt::{self, Display, Formatter};
use std::net::SocketAddr;
use thiserror::Error;

/// A line of the log, behind its time.
#[derive(Clone, Copy, Debug, PartialEq, Eq, Error)]
pub enum LogLine {
    /// A list is served.
    #[error("list loaded: serial {serial}, payloads {payloads}")]
    Loaded {
        serial: u32,
        payloads: usize,
    },
    /// The cache listens here.
    #[error("listens at {0}")]
    Listens(SocketAddr),
    /// A list can't be had, by the fault of this file.
    #[error("{file} refused: {why}")]
    Refused {
        file: SourceFile,
        why: ListFault,
    },
    /// The list was written longer ago than it may be.
    #[error("list old: written {seconds} seconds ago, and {most} may be")]
    Old {
        seconds: u64,
        most: u32,
    },
    /// The list is withdrawn, since it was written longer ago than it may be.
    #[error("list withdrawn: written {seconds} seconds ago, and {most} may be")]
    Withdrawn {
        seconds: u64,
        most: u32,
    },
    /// When the list was written can't be told.
    #[error("list old: when it was written can't be told")]
    NoAge,
    /// A router came or went.
    #[error("{0}")]
    Router(RouterEvent),
    /// More of them came or went in a minute than lines are written.
    #[error("routers: {lines} more lines were left out, {most} a minute are written")]
    LeftOut {
        lines: u64,
        most: u32,
    },
    /// What is served and held, when the list was written, and how many seconds ago a list was read that could be had.
    #[error("status: {figures}, list {age}, read {seconds} seconds ago")]
    Status {
        figures: CacheFigures,
        age: ListAge,
        seconds: u64,
    },
    /// Scrapers connect here.
    #[error("metrics at {0}")]
    Metrics(SocketAddr),
    /// An operator has the list read.
    #[error("operator: reread")]
    Reread,
    /// An operator accepts the list that was refused.
    #[error("operator: accept")]
    Accept,
}

/// A line with the path of the file that it is of.
#[derive(Clone, Copy)]
pub(crate) struct AtPath<'a> {
    pub path: &'a str,
    pub line: LogLine,
}

impl<'a> Display for AtPath<'a> {
    fn fmt<W: fmt::Write>(&self, f: &mut Formatter<W>) -> fmt::Result {
        let AtPath { path, line } = self;
        write!(f, "{line}: {path}")
    }
}
