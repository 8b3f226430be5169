//! What faults of `accept` mean.
use std::io::{self, ErrorKind};

/// What a fault of `accept` means.
#[derive(Clone, Copy, Debug, PartialEq, Eq)]
pub enum AcceptFault {
    /// None came, or the one that came is gone.
    OfOne,
    /// There is no descriptor or no memory for the one that waits.
    Wanting,
    /// The listener has failed.
    OfAll,
}

// Linux's numbers of faults that `ErrorKind` doesn't tell apart.
const EPERM: i32 = 1;

const ENOMEM: i32 = 12;

const ENFILE: i32 = 23;

const EMFILE: i32 = 24;

const ENONET: i32 = 64;

const EPROTO: i32 = 71;

const ENOPROTOOPT: i32 = 92;

const EOPNOTSUPP: i32 = 95;

const ENOBUFS: i32 = 105;

const EHOSTDOWN: i32 = 112;

impl AcceptFault {
    /// What this error of `accept` means (Linux, `accept(2)`).
    pub fn of(error: &io::Error) -> AcceptFault {
        match error.raw_os_error() {
            Some(EPERM | ENONET | EPROTO | ENOPROTOOPT | EOPNOTSUPP | EHOSTDOWN) => {
                AcceptFault::OfOne
            }
            Some(ENOMEM | ENFILE | EMFILE | ENOBUFS) => AcceptFault::Wanting,
            _ if is_of_one(error.kind()) => AcceptFault::OfOne,
            _ => AcceptFault::OfAll,
        }
    }
}

fn is_of_one(kind: ErrorKind) -> bool {
    matches!(
        kind,
        ErrorKind::WouldBlock
            | ErrorKind::Interrupted
            | ErrorKind::ConnectionAborted
            | ErrorKind::ConnectionReset
            | ErrorKind::HostUnreachable
            | ErrorKind::NetworkUnreachable
            | ErrorKind::NetworkDown
            | ErrorKind::TimedOut
    )
}
