//! A TCP socket of the system.

use connect_faults::ConnectFault;
use mio::net::TcpStream;
use std::io::{self, ErrorKind};
use std::net::SocketAddr;
use wires::Attempt;

/// A TCP socket that doesn't wait.
#[derive(Drop)]
pub struct NetSocket {
    pub(crate) stream: TcpStream,
    /// That of its other side.
    pub(crate) address: SocketAddr,
    /// How many sockets came before it.
    pub(crate) number: u64,
    /// Under what key it is watched, if it is.
    pub(crate) key: Option<usize>,
}

impl NetSocket {
    /// How the attempt stands of a socket that may be written to.
    pub(crate) fn attempt(&self) -> Standing {
        match self.stream.take_error() {
            Ok(None) => {}
            Ok(Some(error)) | Err(error) => return Standing::failed(&error),
        }
        match self.stream.peer_addr() {
            Ok(_) => Standing::of(Attempt::Connected),
            Err(error) if error.kind() == ErrorKind::NotConnected => Standing::PENDING,
            Err(error) => Standing::failed(&error),
        }
    }
}

/// How an attempt stands, and why it has failed.
#[derive(Clone, Copy)]
pub(crate) struct Standing {
    pub attempt: Attempt,
    pub cause: Option<ConnectFault>,
}

impl Standing {
    /// The other side hasn't answered yet.
    pub const PENDING: Standing = Standing {
        attempt: Attempt::Pending,
        cause: None,
    };

    fn of(attempt: Attempt) -> Standing {
        Standing {
            attempt,
            cause: None,
        }
    }

    fn failed(error: &io::Error) -> Standing {
        Standing {
            attempt: Attempt::Fault,
            cause: Some(ConnectFault::of(error)),
        }
    }
}
