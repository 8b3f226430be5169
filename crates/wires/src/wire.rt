//! What turns ask of sockets.
ghost use Rattle.std.specs.Prelude.{◌≡◌, ℕ, length};
ghost use Rattle.std.specs.declared.net.socket_addr.SocketAddr.{SocketAddr as Address};
ghost use Rattle.wires.specs.Wires.{FitsIn, FitsInSent, IsSocketTo, IsSocketThatCame, WireState, accepting, attempting, closing, connecting, looking, reading, writing};

use std::net::SocketAddr;
use std::time::Duration;
use thiserror::Error;

/// What asking for a connection answers.
#[derive(Drop)]
pub enum Accepted<S> {
    /// A connection that came, and the address of its other side.
    Connection(S, SocketAddr),
    /// None waits.
    Nothing,
    Fault,
}

/// How an attempt to connect stands.
#[derive(Clone, Copy, Debug, PartialEq, Eq)]
pub enum Attempt {
    /// The connection is there.
    Connected,
    /// The other side hasn't answered yet.
    Pending,
    Fault,
}

/// What reading answers.
#[derive(Clone, Copy, Debug, PartialEq, Eq)]
pub enum Received {
    /// So many octets came; they stand at the front of the buffer.
    Octets(usize),
    /// None have come yet.
    Nothing,
    /// The other side sends no more.
    End,
    Fault,
}

/// What writing answers.
#[derive(Clone, Copy, Debug, PartialEq, Eq)]
pub enum Sent {
    /// So many octets went, from the front.
    Octets(usize),
    /// None can go yet.
    Nothing,
    Fault,
}

/// Why a connection ends.
#[derive(Clone, Copy, Debug, PartialEq, Eq, Error)]
pub enum Parting {
    /// There was no place for it.
    #[error("there was no place for it")]
    NoPlace,
    /// There was no memory for it.
    #[error("there was no memory for it")]
    NoMemory,
    /// Its other side sends no more.
    #[error("it sends no more")]
    Ended,
    /// The wire failed.
    #[error("its connection failed")]
    Failed,
    /// Its session was closed on this side, and all that was said is written.
    #[error("its session was closed")]
    Closed,
    /// Its other side was silent for too long, or took nothing for too long.
    #[error("it was silent for too long")]
    Overdue,
    /// Its session doesn't want it any more.
    #[error("it isn't wanted any more")]
    Unwanted,
}

/// Sockets that don't wait. A wire counts its faults, the ends of input that it has told, its sockets, those of connections
/// that came and of attempts alike, and octets; for proofs it keeps each call in mind, with its answer, and the number of
/// each socket with the address of its other side.
pub trait Wire {
    type Socket: Drop;

    ghost state: { Self → WireState };

    // How many sockets came before it.
    ghost number: { Self.Socket → ℕ };

    ghost address: { Self.Socket → Address };

    /// Begins to connect to the address; none is a fault.
    fn connect(&mut self, to: SocketAddr) -> Option<Self::Socket>
        ensures socket { IsSocketTo number address (state self.old).sockets to result }
        ensures tells { state self.new ≡ connecting to result (state self.old) };

    /// How the attempt of a socket stands with which connecting has begun.
    fn attempt(&mut self, socket: &mut Self::Socket) -> Attempt
        ensures same { (number socket.new ≡ number socket.old) × (address socket.new ≡ address socket.old) }
        ensures tells { state self.new ≡ attempting (number socket.old) result (state self.old) };

    /// The next connection that came.
    fn accept(&mut self) -> Accepted<Self::Socket>
        ensures socket { IsSocketThatCame number address (state self.old).sockets result }
        ensures tells { state self.new ≡ accepting result (state self.old) };

    /// Octets that came on the connection, as many as there are and the buffer holds.
    fn read(&mut self, socket: &mut Self::Socket, buf: &mut [u8]) -> Received
        ensures bound { FitsIn (length buf.new) result }
        ensures same { (number socket.new ≡ number socket.old) × (address socket.new ≡ address socket.old) }
        ensures tells { state self.new ≡ reading (number socket.old) buf.new result (state self.old) };

    /// Sends octets on the connection, as many as go.
    fn write(&mut self, socket: &mut Self::Socket, octets: &[u8]) -> Sent
        ensures bound { FitsInSent (length octets.now) result }
        ensures same { (number socket.new ≡ number socket.old) × (address socket.new ≡ address socket.old) }
        ensures tells { state self.new ≡ writing (number socket.old) octets.now result (state self.old) };

    /// Whether it is known that the connection ends: its other side sends no more, or it has failed. What came before may
    /// still be there to be read.
    fn is_ending(&mut self, socket: &Self::Socket) -> bool
        ensures { state self.new ≡ looking (number socket.now) result (state self.old) };

    /// Ends the connection.
    fn close(&mut self, socket: Self::Socket, parting: Parting)
        ensures tells { state self.new ≡ closing (number socket) parting (state self.old) };

    /// Waits until a call may answer anew, or so long.
    fn wait(&mut self, most: Duration)
        ensures same { state self.new ≡ state self.old };

    /// How many calls answered a fault; it stays at the greatest u64.
    fn faults(&self) -> u64
        ensures { result ≡ (state self.now).faults };

    /// How many reads answered an end; it stays at the greatest u64.
    fn ends(&self) -> u64
        ensures { result ≡ (state self.now).ends };

    /// How many octets came; it stays at the greatest u64.
    fn octets_in(&self) -> u64
        ensures { result ≡ (state self.now).octets_in };

    /// How many octets went; it stays at the greatest u64.
    fn octets_out(&self) -> u64
        ensures { result ≡ (state self.now).octets_out };
}
