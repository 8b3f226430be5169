//! The calls of the system, and a note of each: what was asked, and what the system answered.
//!
//! This module does nothing else, and no other one writes a note. That a note is what the system did is trusted, beside the
//! toolchain.
ghost use Rattle.std.specs.Prelude.{◌≡◌, [], IfOk, None, OnErr, length};
ghost use Rattle.std.specs.Option.{option_map};
ghost use Rattle.wires.specs.Calls.{Accept as Accepts, Close as Closes, Connect as Connects, Look as Looks, Read as Reads, Try as Tries, Write as Writes, call_of};
ghost use Rattle.wires.specs.Wires.{FitsIn, FitsInSent};
ghost use Rattle.wires.specs.declared.wire.Received.TheVariants.{Nothing as NoneCame};
ghost use Rattle.wires.specs.declared.wire.Sent.TheVariants.{Nothing as NoneWent};
ghost use Rattle.wires.specs.declared.wire.Attempt.TheVariants.{Pending as StillPending};
ghost use Rattle.net_wires.specs.Opening.{noting};

use crate::net_socket::{NetSocket, Standing};
use mio::net::TcpStream;
use std::io::{self, ErrorKind, Read, Write};
use std::marker::Model;
use std::net::{self, Net, OpenListener, SocketAddr, TcpListener};
use wires::{Attempt, Log, Note, Parting, Received, Sent};

/// The listener of a wire, and its calls.
#[derive(Drop)]
pub(crate) struct SystemSockets<'a, R> {
    net: &'a R,
    listener: Option<TcpListener>,
    listens: Option<SocketAddr>,
    calls: Log,
}

impl<'a, R> Model for SystemSockets<'a, R> {
    ghost use Rattle.net_wires.specs.Opening.{NotedCalls};

    ghost Value = { NotedCalls };

    ghost view = { λ sockets. record { listens = sockets.listens; calls = sockets.calls.calls } };
}

/// What a read or a write answered, and whether it would have had to wait.
#[derive(Clone, Copy)]
pub(crate) struct Answer<T> {
    pub told: T,
    pub would_wait: bool,
}

impl<'a, R: Net<Listener = TcpListener, Stream = net::TcpStream>> SystemSockets<'a, R> {
    /// No call was made. Listens where an address is given.
    pub fn open(net: &'a R, listens: Option<SocketAddr>) -> io::Result<Self>
        ensures { IfOk result (λ sockets. sockets ≡ record { listens = listens; calls = [] }) }
    {
        let listener = match listens {
            Some(address) => Some(listener_at(net, address)?),
            None => None,
        };
        Ok(SystemSockets {
            net,
            listener,
            listens,
            calls: Log::new(),
        })
    }

    /// The listener, if there is one.
    pub fn listener(&self) -> Option<&TcpListener> {
        self.listener.as_ref()
    }

    /// Begins to connect to the address.
    pub fn connect(&mut self, to: SocketAddr) -> io::Result<TcpStream>
        ensures { self.new ≡ noting (Connects to) self.old }
    {
        self.note(&Note::Connect(to));
        TcpStream::connect(self.net, to)
    }

    /// Asks how the attempt of a socket stands that may be written to.
    pub fn attempt(&mut self, socket: &NetSocket) -> Standing
        ensures { self.new ≡ noting (Tries socket.now.number result.attempt) self.old }
    {
        let standing = socket.attempt();
        self.note(&Note::Try(socket.number, standing.attempt));
        standing
    }

    /// An attempt isn't asked: as far as is known it still stands.
    pub fn leave_attempt(&mut self, socket: &NetSocket) -> Standing
        ensures noted { self.new ≡ noting (Tries socket.now.number result.attempt) self.old }
        ensures pending { result.attempt ≡ StillPending }
    {
        self.note(&Note::Try(socket.number, Attempt::Pending));
        Standing::PENDING
    }

    /// Asks for a connection; none where it is gone already.
    pub fn accept(&mut self) -> io::Result<Option<(TcpStream, SocketAddr)>>
        ensures came { IfOk result (λ came. self.new ≡ noting (Accepts (option_map (λ c. c.1) came)) self.old) }
        ensures failed { OnErr result (self.new ≡ noting (Accepts None) self.old) }
    {
        let came = self.ask();
        let from = match &came {
            Ok(Some((_, address))) => Some(*address),
            _ => None,
        };
        self.note(&Note::Accept(from));
        came
    }

    /// Nobody is asked for a connection.
    pub fn leave_accept(&mut self)
        ensures { self.new ≡ noting (Accepts None) self.old }
    {
        self.note(&Note::Accept(None));
    }

    // A connection that can't be made one that doesn't wait is gone.
    fn ask(&self) -> io::Result<Option<(TcpStream, SocketAddr)>> {
        let Some(listener) = &self.listener else {
            return Ok(None);
        };
        let (stream, address) = listener.accept()?;
        if stream.set_nonblocking(true).is_err() {
            return Ok(None);
        }
        Ok(Some((TcpStream::from_std(stream), address)))
    }

    /// Reads.
    pub fn read(&mut self, socket: &mut NetSocket, buf: &mut [u8]) -> Answer<Received>
        ensures bound { FitsIn (length buf.new) result.told }
        ensures same { (socket.new.number ≡ socket.old.number) × (socket.new.address ≡ socket.old.address) }
        ensures noted { self.new ≡ noting (Reads socket.old.number buf.new result.told) self.old }
    {
        let answer = read_of(&mut socket.stream, buf);
        self.note(&Note::Read(socket.number, buf, answer.told));
        answer
    }

    /// A socket isn't read: as far as is known nothing has come.
    pub fn leave_unread(&mut self, socket: &NetSocket, buf: &[u8]) -> Received
        ensures noted { self.new ≡ noting (Reads socket.now.number buf.now result) self.old }
        ensures none { result ≡ NoneCame }
    {
        self.note(&Note::Read(socket.number, buf, Received::Nothing));
        Received::Nothing
    }

    /// Writes.
    pub fn write(&mut self, socket: &mut NetSocket, octets: &[u8]) -> Answer<Sent>
        ensures bound { FitsInSent (length octets.now) result.told }
        ensures same { (socket.new.number ≡ socket.old.number) × (socket.new.address ≡ socket.old.address) }
        ensures noted { self.new ≡ noting (Writes socket.old.number octets.now result.told) self.old }
    {
        let answer = write_of(&mut socket.stream, octets);
        self.note(&Note::Write(socket.number, octets, answer.told));
        answer
    }

    /// Nothing is written: as far as is known nothing goes.
    pub fn leave_unwritten(&mut self, socket: &NetSocket, octets: &[u8]) -> Sent
        ensures noted { self.new ≡ noting (Writes socket.now.number octets.now result) self.old }
        ensures none { result ≡ NoneWent }
    {
        self.note(&Note::Write(socket.number, octets, Sent::Nothing));
        Sent::Nothing
    }

    /// What is known of the end of a connection is told, and noted.
    pub fn look(&mut self, socket: &NetSocket, is_ending: bool) -> bool
        ensures noted { self.new ≡ noting (Looks socket.now.number result) self.old }
        ensures same { result ≡ is_ending }
    {
        self.note(&Note::Look(socket.number, is_ending));
        is_ending
    }

    /// Ends the connection.
    pub fn close(&mut self, socket: NetSocket, parting: Parting)
        ensures { self.new ≡ noting (Closes socket.number parting) self.old }
    {
        self.note(&Note::Close(socket.number, parting));
    }

    // Keeps a call in mind, for proofs alone.
    fn note(&mut self, note: &Note<'_>)
        ensures { self.new ≡ noting (call_of note.now) self.old }
    {
        self.calls = self.calls.then(note);
    }
}

// A listener at the address that doesn't wait.
fn listener_at<R: Net<Listener = TcpListener, Stream = net::TcpStream>>(
    net: &R,
    address: SocketAddr,
) -> io::Result<TcpListener> {
    let listener = TcpListener::bind(net, address)?;
    listener.set_nonblocking(true)?;
    Ok(listener)
}

fn read_of(stream: &mut TcpStream, buf: &mut [u8]) -> Answer<Received>
    ensures { FitsIn (length buf.new) result.told }
{
    match stream.read(buf) {
        Ok(0) => told(Received::End),
        Ok(count) => told(Received::Octets(count)),
        Err(error) => match error.kind() {
            ErrorKind::WouldBlock => would_wait(Received::Nothing),
            ErrorKind::Interrupted => told(Received::Nothing),
            _ => told(Received::Fault),
        },
    }
}

fn write_of(stream: &mut TcpStream, octets: &[u8]) -> Answer<Sent>
    ensures { FitsInSent (length octets.now) result.told }
{
    match stream.write(octets) {
        Ok(count) => told(Sent::Octets(count)),
        Err(error) => match error.kind() {
            ErrorKind::WouldBlock => would_wait(Sent::Nothing),
            ErrorKind::Interrupted => told(Sent::Nothing),
            _ => told(Sent::Fault),
        },
    }
}

fn told<T>(told: T) -> Answer<T>
    ensures { result.told ≡ told }
{
    Answer {
        told,
        would_wait: false,
    }
}

fn would_wait<T>(told: T) -> Answer<T>
    ensures { result.told ≡ told }
{
    Answer {
        told,
        would_wait: true,
    }
}
