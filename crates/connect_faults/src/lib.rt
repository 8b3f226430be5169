//! Why a wire failed to connect.
//!
//! `TellsFaults` is what a wire of the system's sockets tells beside what turns ask of it, and what a log asks for. No contract
//! says what is told: it is what the system answered.
#![tactic(auto)]

use std::io::{self, ErrorKind};
use thiserror::Error;

/// Why an attempt to connect failed.
#[derive(Clone, Copy, Debug, PartialEq, Eq, Error)]
pub enum ConnectFault {
    #[error("connection refused")]
    Refused,
    #[error("no route to the host")]
    NoRoute,
    #[error("the network is unreachable")]
    NoNetwork,
    #[error("timed out")]
    TimedOut,
    #[error("the address isn't available")]
    NoAddress,
    #[error("permission denied")]
    Denied,
    #[error("the system failed it")]
    Other,
}

impl ConnectFault {
    /// What this error of the system is.
    pub fn of(error: &io::Error) -> ConnectFault {
        match error.kind() {
            ErrorKind::ConnectionRefused => ConnectFault::Refused,
            ErrorKind::HostUnreachable => ConnectFault::NoRoute,
            ErrorKind::NetworkUnreachable | ErrorKind::NetworkDown => ConnectFault::NoNetwork,
            ErrorKind::TimedOut => ConnectFault::TimedOut,
            ErrorKind::AddrNotAvailable | ErrorKind::AddrInUse => ConnectFault::NoAddress,
            ErrorKind::PermissionDenied => ConnectFault::Denied,
            _ => ConnectFault::Other,
        }
    }
}

/// A wire that tells why it failed to connect.
pub trait TellsFaults {
    /// What the system answered, where the last call that began an attempt or asked how one stands failed.
    fn last_fault(&self) -> Option<ConnectFault>;
}
