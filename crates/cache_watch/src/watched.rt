//! What a log tells of sockets.

use net_wires::{NetWire, RouterEvent};
use std::alloc::AllocGlobal;
use std::net::{Net, SocketAddr, TcpListener, TcpStream};

/// A wire that tells where it listens, and what it has seen of routers.
pub trait Watched {
    /// Where it listens, if it does.
    fn listens(&self) -> Option<SocketAddr>;

    /// What it has seen of them in the last turn.
    fn seen(&self) -> &[RouterEvent];
}

impl<'a, R> Watched for NetWire<'a, R>
where
    R: Net<Listener = TcpListener, Stream = TcpStream> + AllocGlobal,
{
    fn listens(&self) -> Option<SocketAddr> {
        self.local_address()
    }

    fn seen(&self) -> &[RouterEvent] {
        self.events()
    }
}
