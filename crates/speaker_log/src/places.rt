//! Where peers and the cache are.

use crate::side::Side;
use std::alloc::{AllocError, Global};
use std::net::SocketAddr;

/// Where the settings place peers and the cache, and where peers are that were added since.
#[derive(Drop)]
pub(crate) struct Places {
    // Those of the settings first.
    peers: Vec<(u8, SocketAddr)>,
    told: usize,
    pub cache: Option<SocketAddr>,
}

impl Places {
    /// Those of the settings.
    pub fn new(
        alloc: Global,
        peers: &[(u8, SocketAddr)],
        cache: Option<SocketAddr>,
    ) -> Result<Places, AllocError> {
        Ok(Places {
            peers: peers.to_vec(alloc)?,
            told: peers.len(),
            cache,
        })
    }

    /// The peer of the slot is there, unless the settings place it. Where there is no memory, it is told by its slot alone.
    pub fn place(&mut self, slot: u8, remote: SocketAddr) {
        match self.peers.iter().position(|peer| peer.0 == slot) {
            Some(at) if at < self.told => {}
            Some(at) => {
                if let Some(peer) = self.peers.get_mut(at) {
                    peer.1 = remote;
                }
            }
            None => {
                let _kept = self.peers.push((slot, remote));
            }
        }
    }

    /// Who is at this address.
    pub fn at(&self, address: SocketAddr) -> Side {
        Side::at(address, self.peers.as_slice(), self.cache)
    }

    /// The peer of this slot.
    pub fn of_slot(&self, slot: u8) -> Side {
        Side::of_slot(slot, self.peers.as_slice())
    }
}
