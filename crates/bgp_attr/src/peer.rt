//! What this side knows of a peer before any octet comes.
ghost use Rattle.std.specs.Prelude.{◌≡◌};

use net_prefix::Asn;

/// Whether a peer is in an AS of its own.
#[derive(Clone, Copy, Debug, PartialEq, Eq)]
pub enum PeerKind {
    /// A peer in this other AS.
    External(Asn),
    /// A peer in the AS of this speaker.
    Internal,
}

impl PeerKind {
    ghost use Rattle.bgp_attr.specs.PeerKinds.{kind_between, is_external};

    /// The kind of a peer in AS `peer`, to a speaker in AS `own`.
    pub fn between(own: Asn, peer: Asn) -> PeerKind
        ensures { result ≡ kind_between own peer }
    {
        if own == peer {
            PeerKind::Internal
        } else {
            PeerKind::External(peer)
        }
    }

    /// Whether the peer is in an AS of its own.
    pub fn is_external(self) -> bool
        ensures { result ≡ is_external self }
    {
        match self {
            PeerKind::External(_) => true,
            PeerKind::Internal => false,
        }
    }
}

/// Which side opens the connection.
#[derive(Clone, Copy, Debug, PartialEq, Eq)]
pub enum Mode {
    /// This speaker does.
    Active,
    /// The peer does, and this speaker listens.
    Passive,
}
