//! A cache over loopback, and a router without a program of its own.

use crate::made::made;
use cache_turns::CacheLoop;
use net_wires::NetWire;
use rtr_cache::Cache;
use std::alloc::AllocGlobal;
use std::io::{self, ErrorKind};
use std::net::{Ipv4Addr, Net, SocketAddr, SocketAddrV4, TcpListener, TcpStream};
use std::process::Abort;
use wires::Wire;

/// The turns of a cache, and the router's side of a connection to it.
#[derive(Drop)]
pub struct Served<W: Wire, S> {
    pub turns: CacheLoop<W>,
    pub router: S,
}

/// Some port of loopback.
pub fn some_port() -> SocketAddr {
    SocketAddr::V4(SocketAddrV4::new(Ipv4Addr::LOCALHOST, 0))
}

/// A connection to this address, where there is one.
pub fn connected<R>(rt: &R, address: Option<SocketAddr>) -> io::Result<TcpStream>
where
    R: Net<Listener = TcpListener, Stream = TcpStream>,
{
    match address {
        Some(address) => TcpStream::connect(rt, address),
        None => Err(io::Error::from(ErrorKind::AddrNotAvailable)),
    }
}

/// The turns of a cache that listens at some port, and a router that has connected.
pub fn over_loopback<'a, R>(rt: &'a R, cache: Cache) -> Served<NetWire<'a, R>, TcpStream>
where
    R: Net<Listener = TcpListener, Stream = TcpStream> + AllocGlobal + Abort,
{
    let wire = made(rt, NetWire::listening(rt, some_port()));
    let router = made(rt, connected(rt, wire.local_address()));
    let turns = made(rt, CacheLoop::new(rt.alloc(), wire, cache));
    Served { turns, router }
}
