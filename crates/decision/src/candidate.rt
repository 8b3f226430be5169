//! What the selection compares of a route.
ghost use Rattle.std.specs.Prelude.{◌≡◌, None, false};

use bgp_attr::Origin;
use net_prefix::Asn;
use origin_valid::Validity;

/// The slot of a local network, behind those of the peers.
pub const LOCAL_SLOT: u8 = 64;

/// A prefix's candidates: a route of each peer slot, and a local network.
pub const MAX_CANDIDATES: usize = 65;

/// A route of a prefix, as the selection sees it (RFC 4271 section 9.1).
#[derive(Clone, Copy, Debug, PartialEq, Eq)]
pub struct Candidate {
    /// The degree of preference.
    pub degree: u64,
    /// The ASes of its path, where an AS_SET counts as one.
    pub path_length: u32,
    /// The neighbor AS of its path.
    pub neighbor: Asn,
    /// The interior cost of its next hop.
    pub cost: u32,
    /// The BGP Identifier of the peer.
    pub identifier: u32,
    /// The address of the peer.
    pub address: u32,
    /// Its MULTI_EXIT_DISC, where it has one.
    pub med: Option<u32>,
    /// The slot of the peer that announced it, or `LOCAL_SLOT`.
    pub slot: u8,
    /// Its ORIGIN.
    pub origin: Origin,
    /// Whether an external peer announced it.
    pub external: bool,
    /// The state of its origin, which no step of the selection compares.
    pub validity: Validity,
}

impl Default for Candidate {
    ghost use Rattle.bgp_attr.specs.declared.attrs.Origin.TheVariants.{Igp};
    ghost use Rattle.origin_valid.specs.declared.validity.Validity.TheVariants.{NotFound};

    ghost is_default = { λ c. c ≡ record { degree = 0; path_length = 0; neighbor = record { 0 = 0 }; cost = 0; identifier = 0; address = 0; med = None; slot = 0; origin = Igp; external = false; validity = NotFound } };

    /// What fills the places of a list that are not in use.
    fn default() -> Candidate {
        Candidate {
            degree: 0,
            path_length: 0,
            neighbor: Asn(0),
            cost: 0,
            identifier: 0,
            address: 0,
            med: None,
            slot: 0,
            origin: Origin::Igp,
            external: false,
            validity: Validity::NotFound,
        }
    }
}
