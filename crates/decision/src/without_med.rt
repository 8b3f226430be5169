//! A candidate apart from its MULTI_EXIT_DISC.
ghost use Rattle.std.specs.Prelude.{◌≡◌};
ghost use Rattle.decision.specs.WithoutMed.{with_med};

use crate::candidate::Candidate;
use bgp_attr::Origin;
use net_prefix::Asn;
use origin_valid::Validity;

/// A candidate apart from its MULTI_EXIT_DISC, for whoever keeps that beside it, where it has one.
#[derive(Clone, Copy)]
pub struct WithoutMed {
    degree: u64,
    path_length: u32,
    neighbor: Asn,
    cost: u32,
    identifier: u32,
    address: u32,
    slot: u8,
    origin: Origin,
    external: bool,
    validity: Validity,
}

impl WithoutMed {
    /// The candidate apart from its MULTI_EXIT_DISC.
    pub fn of(candidate: Candidate) -> WithoutMed
        ensures { with_med result candidate.med ≡ candidate }
    {
        WithoutMed {
            degree: candidate.degree,
            path_length: candidate.path_length,
            neighbor: candidate.neighbor,
            cost: candidate.cost,
            identifier: candidate.identifier,
            address: candidate.address,
            slot: candidate.slot,
            origin: candidate.origin,
            external: candidate.external,
            validity: candidate.validity,
        }
    }

    /// The candidate with this MULTI_EXIT_DISC.
    pub fn with(self, med: Option<u32>) -> Candidate
        ensures { result ≡ with_med self med }
    {
        Candidate {
            degree: self.degree,
            path_length: self.path_length,
            neighbor: self.neighbor,
            cost: self.cost,
            identifier: self.identifier,
            address: self.address,
            med,
            slot: self.slot,
            origin: self.origin,
            external: self.external,
            validity: self.validity,
        }
    }
}
