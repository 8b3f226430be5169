//! What an operator commands.

use bgp_attr::Mode;
use net_prefix::{Asn, Prefix};
use policy::Rule;

/// What an operator sets for a peer.
#[derive(Clone, Copy, Debug, PartialEq, Eq)]
pub struct PeerConf<'a> {
    /// The peer's AS.
    pub asn: Asn,
    /// The peer's address.
    pub address: u32,
    /// This speaker's address on that connection.
    pub local: u32,
    /// Which side connects.
    pub mode: Mode,
    /// The hold time to offer, in seconds (RFC 4271 section 4.2).
    pub hold: u16,
    /// The name of the import policy.
    pub import: &'a str,
    /// The name of the export policy.
    pub export: &'a str,
}

/// A command to the speaker.
#[derive(Clone, Copy, Debug, PartialEq, Eq)]
pub enum Command<'a> {
    /// Configures the peer of a slot.
    AddPeer(u8, PeerConf<'a>),
    /// Ends the session of a slot's peer, and forgets the peer.
    RemovePeer(u8),
    /// Starts the session of a slot's peer.
    Enable(u8),
    /// Ends the session of a slot's peer, and starts none until the peer is enabled.
    Disable(u8),
    /// Sets the rules of a policy.
    SetPolicy(&'a str, &'a [Rule]),
    /// Forgets a policy that no peer uses.
    DropPolicy(&'a str),
    /// Takes the routes of a slot's peer by this import policy from now on.
    UseIn(u8, &'a str),
    /// Announces routes to a slot's peer by this export policy from now on.
    UseOut(u8, &'a str),
    /// Originates a route to a prefix: a local network.
    Network(Prefix),
    /// Originates the route to a prefix no more.
    NoNetwork(Prefix),
    /// Gives the next hops under a prefix their interior cost.
    Reach(Prefix, u32),
    /// Takes a prefix's interior cost away.
    NoReach(Prefix),
    /// Takes out the payloads whose prefixes the prefix covers, if there is one, and which are of the AS, if there is one
    /// (RFC 8416 section 3.3).
    Filter(Option<Prefix>, Option<Asn>),
    /// Takes a filter away.
    NoFilter(Option<Prefix>, Option<Asn>),
    /// Puts in the payload of this prefix, maximum length and AS (RFC 8416 section 3.4).
    Assert(Prefix, u8, Asn),
    /// Takes an assertion away.
    NoAssert(Prefix, u8, Asn),
}
