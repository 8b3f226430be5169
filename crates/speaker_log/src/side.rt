//! Whom a line is about.

use std::fmt::{self, Display, Formatter};
use std::net::SocketAddr;

/// The other side of a session or of a connection.
#[derive(Clone, Copy, Debug, PartialEq, Eq)]
pub enum Side {
    /// The peer of a slot, which the settings may place.
    Peer(u8, Option<SocketAddr>),
    /// The cache.
    Cache(Option<SocketAddr>),
    /// None that the settings place, or more than one.
    Stranger(SocketAddr),
}

impl Side {
    /// Who is at this address: the cache or a peer that the settings place just there, or the one peer that they place at its
    /// IP address, whatever the port.
    pub(crate) fn at(
        address: SocketAddr,
        peers: &[(u8, SocketAddr)],
        cache: Option<SocketAddr>,
    ) -> Side {
        if cache == Some(address) {
            return Side::Cache(cache);
        }
        if let Some(peer) = peers.iter().find(|peer| peer.1 == address) {
            return Side::Peer(peer.0, Some(peer.1));
        }
        let mut same = peers.iter().filter(|peer| peer.1.ip() == address.ip());
        match (same.next(), same.next()) {
            (Some(peer), None) => Side::Peer(peer.0, Some(peer.1)),
            _ => Side::Stranger(address),
        }
    }

    /// The peer of this slot.
    pub(crate) fn of_slot(slot: u8, peers: &[(u8, SocketAddr)]) -> Side {
        match peers.iter().find(|peer| peer.0 == slot) {
            Some(peer) => Side::Peer(slot, Some(peer.1)),
            None => Side::Peer(slot, None),
        }
    }
}

impl Display for Side {
    fn fmt<W: fmt::Write>(&self, f: &mut Formatter<W>) -> fmt::Result {
        match self {
            Side::Peer(slot, Some(remote)) => write!(f, "peer {slot} {remote}"),
            Side::Peer(slot, None) => write!(f, "peer {slot}"),
            Side::Cache(Some(remote)) => write!(f, "cache {remote}"),
            Side::Cache(None) => f.write_str("cache"),
            Side::Stranger(address) => write!(f, "{address}"),
        }
    }
}
