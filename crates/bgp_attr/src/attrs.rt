//! The attributes of an UPDATE.
ghost use Rattle.std.specs.Prelude.{◌≡◌, ◌<◌, ◌^◌, MatchOption, ⊤, true};
ghost use Rattle.std.specs.List.{AllByRecursion};
ghost use Rattle.std.specs.Option.{option_copied};
ghost use Rattle.bgp_attr.specs.AttributeFaults.{is_host};
ghost use Rattle.bgp_attr.specs.PathAttributes.{PathAttributes, origin_at, origin_octet, originated, missing_of};
ghost use Rattle.bgp_attr.specs.AttributeSpelling.{IsSegment};
ghost use Rattle.bgp_attr.specs.SoundRoutes.{IsSoundRoute};
ghost use Rattle.bgp_attr.specs.TravellingAttributes.{MayAllTravel};
ghost use Rattle.bgp_attr.specs.UnknownAttributes.{ArePassedOn, unknown_or_none};
ghost use Rattle.bgp_attr.specs.Written.{attributes_of};

use crate::aggregator::{AggregatingSpeaker, Aggregator, join_aggregator};
use crate::as_path::AsPath;
use crate::attribute_type::AttributeType;
use crate::peer::PeerKind;
use crate::prepending::prepend;
use crate::unknown::UnknownAttributes;
use crate::writing::AttrsToWrite;
use net_prefix::Asn;
use std::alloc::{Allocator, Global};
use std::marker::Model;

/// How the origin of a route was learned (RFC 4271 section 5.1.1).
#[derive(Clone, Copy, Debug, PartialEq, Eq, PartialOrd, Ord)]
pub enum Origin {
    Igp,
    Egp,
    Incomplete,
}

impl Origin {
    /// The origin that has this octet.
    pub fn from_octet(octet: u8) -> Option<Origin>
        ensures { result ≡ origin_at octet }
    {
        match octet {
            0 => Some(Origin::Igp),
            1 => Some(Origin::Egp),
            2 => Some(Origin::Incomplete),
            _ => None,
        }
    }

    /// Its octet.
    pub fn octet(self) -> u8
        ensures { result ≡ origin_octet self }
    {
        match self {
            Origin::Igp => 0,
            Origin::Egp => 1,
            Origin::Incomplete => 2,
        }
    }
}

/// The attributes that came and were taken, each at most once. A next hop is the address of a host.
#[derive(Drop)]
pub struct Attrs<A: Allocator = Global> {
    // The widest first, and so none stands behind a gap: each route has a block of these.
    pub(crate) as_path: Option<AsPath<A>>,
    pub(crate) unknown: UnknownAttributes<A>,
    pub(crate) next_hop: Option<u32>,
    pub(crate) multi_exit_disc: Option<u32>,
    pub(crate) local_pref: Option<u32>,
    pub(crate) aggregator: Option<AggregatingSpeaker>,
    pub(crate) is_aggregator_partial: bool,
    pub(crate) atomic_aggregate: bool,
    pub(crate) origin: Option<Origin>,
}

impl<A: Allocator> Model for Attrs<A> {
    ghost use Rattle.std.specs.Prelude.{◌≡◌, MatchOption, ⊤, true};
    ghost use Rattle.bgp_attr.specs.AttributeFaults.{is_host};
    ghost use Rattle.bgp_attr.specs.PathAttributes.{PathAttributes, aggregator_of};

    ghost Value = { PathAttributes };

    ghost view = { λ a. record { origin = a.origin; as_path = a.as_path; next_hop = a.next_hop; multi_exit_disc = a.multi_exit_disc; local_pref = a.local_pref; atomic_aggregate = a.atomic_aggregate; aggregator = aggregator_of a.aggregator a.is_aggregator_partial; unknown = a.unknown } };

    ghost invariant = { λ a. MatchOption a.next_hop ⊤ (λ address. is_host address ≡ true) };
}

impl<A: Allocator> Attrs<A> {
    /// The attributes of a route that this speaker originates: ORIGIN is IGP and the path is empty (RFC 4271 sections 5.1.1
    /// and 5.1.2). The next hop is told where the route is.
    pub fn originated(alloc: A) -> Self
        ensures { result ≡ originated }
    {
        Attrs {
            origin: Some(Origin::Igp),
            as_path: Some(AsPath::new(Vec::new(alloc))),
            next_hop: None,
            multi_exit_disc: None,
            local_pref: None,
            atomic_aggregate: false,
            aggregator: None,
            is_aggregator_partial: false,
            unknown: UnknownAttributes::new(),
        }
    }

    /// ORIGIN.
    pub fn origin(&self) -> Option<Origin>
        ensures { result ≡ self.now.origin }
    {
        self.origin
    }

    /// AS_PATH.
    pub fn as_path(&self) -> Option<&AsPath<A>>
        ensures { option_copied result ≡ self.now.as_path }
    {
        self.as_path.as_ref()
    }

    /// NEXT_HOP.
    pub fn next_hop(&self) -> Option<u32>
        ensures value { result ≡ self.now.next_hop }
        ensures host { MatchOption self.now.next_hop ⊤ (λ address. is_host address ≡ true) }
    {
        self.next_hop
    }

    /// MULTI_EXIT_DISC.
    pub fn multi_exit_disc(&self) -> Option<u32>
        ensures { result ≡ self.now.multi_exit_disc }
    {
        self.multi_exit_disc
    }

    /// LOCAL_PREF; none of an external peer.
    pub fn local_pref(&self) -> Option<u32>
        ensures { result ≡ self.now.local_pref }
    {
        self.local_pref
    }

    /// Whether ATOMIC_AGGREGATE came.
    pub fn atomic_aggregate(&self) -> bool
        ensures { result ≡ self.now.atomic_aggregate }
    {
        self.atomic_aggregate
    }

    /// AGGREGATOR.
    pub fn aggregator(&self) -> Option<Aggregator>
        ensures value { result ≡ self.now.aggregator }
        ensures small { MatchOption result ⊤ (λ a. (a.asn.0 < 2 ^ 32) × (a.address < 2 ^ 32)) }
    {
        join_aggregator(self.aggregator, self.is_aggregator_partial)
    }

    /// The unknown attributes that are passed on, where there are any.
    #[tactic(auto, using(crate::proofs::UnknownLists::none_passed_on, crate::proofs::Travelling::all_travel))]
    pub fn unknown(&self) -> Option<&UnknownAttributes<A>>
        ensures value { unknown_or_none (option_copied result) ≡ self.now.unknown }
        ensures lawful { ArePassedOn self.now.unknown }
        // Whatever came, each is one that may go on.
        ensures travelling { MayAllTravel self.now.unknown }
    {
        self.unknown.some()
    }

    /// What holds of all attributes that were taken.
    pub fn is_sound(&self)
        ensures { IsSoundRoute self.now }
    {
        self.has_sound_path();
        self.next_hop();
        sound_number(self.next_hop);
        sound_number(self.multi_exit_disc);
        self.aggregator();
        self.unknown();
    }

    fn has_sound_path(&self)
        ensures { MatchOption self.now.as_path ⊤ (AllByRecursion IsSegment) }
    {
        if let Some(path) = &self.as_path {
            path.segments();
        }
    }

    /// The least code of the attributes that routes from such a peer need and that did not come (RFC 4271 section 6.3).
    pub fn missing(&self, kind: PeerKind) -> Option<AttributeType>
        ensures { result ≡ missing_of kind self.now }
    {
        if self.origin.is_none() {
            return Some(AttributeType::Origin);
        }
        if self.as_path.is_none() {
            return Some(AttributeType::AsPath);
        }
        if self.next_hop.is_none() {
            return Some(AttributeType::NextHop);
        }
        if !kind.is_external() && self.local_pref.is_none() {
            return Some(AttributeType::LocalPref);
        }
        None
    }

    /// The attributes as they came, to be written.
    pub fn as_received(&self) -> AttrsToWrite<'_, A>
        ensures { attributes_of result ≡ self.now }
    {
        AttrsToWrite {
            origin: self.origin,
            as_path: match &self.as_path {
                Some(path) => Some(prepend(path, Asn(0), 0)),
                None => None,
            },
            next_hop: self.next_hop,
            multi_exit_disc: self.multi_exit_disc,
            local_pref: self.local_pref,
            atomic_aggregate: self.atomic_aggregate,
            aggregator: self.aggregator(),
            unknown: self.unknown.some(),
        }
    }
}

// A number has four octets.
fn sound_number(number: Option<u32>)
    ensures { MatchOption number ⊤ (λ n. n < 2 ^ 32) }
{
    let _number = number;
}
