//! The lines of warnings.

use bgp_conf::PolicyName;
use std::net::{Ipv4Addr, SocketAddr};
use thiserror::Error;

/// What is lawful and hardly meant.
#[derive(Clone, Copy, Debug, PartialEq, Eq, Error)]
pub enum Warning {
    /// No `reach` entry covers the address of the slot's peer.
    #[error("warning: peer {slot} {address}: no reach entry covers its address, so no route with this next hop is chosen")]
    Unreached {
        slot: u8,
        address: Ipv4Addr,
    },
    /// The settings place the slot's peer at another address than the commands have.
    #[error("warning: peer {slot} {address}: its remote {remote} is at another address")]
    Elsewhere {
        slot: u8,
        address: Ipv4Addr,
        remote: SocketAddr,
    },
    /// The slot's peer is to connect, and the speaker doesn't listen.
    #[error("warning: peer {slot} {address}: it is passive, and the settings have no 'listen'")]
    Deaf {
        slot: u8,
        address: Ipv4Addr,
    },
    /// Peers are to wait for payloads, and there is no cache.
    #[error("warning: wait_for_cache: there is no cache to wait for")]
    NoCache,
    /// It is told how long the session with a cache waits, and there is no cache.
    #[error("warning: cache_retry: there is no cache whose connection is tried again")]
    NoRetry,
    /// No peer uses the policy.
    #[error("warning: policy {0}: no peer uses it")]
    Unused(PolicyName),
    /// A rule of the policy asks for a state, and there is no cache.
    #[error("warning: policy {0}: a rule asks for a state, and without a cache no route is valid or invalid")]
    Stateless(PolicyName),
}
