//! The places of the prefixes that were looked up lately.
ghost use Rattle.std.specs.Prelude.{◌≡◌, ◌<◌, ℕ, None, Some};
ghost use Rattle.prefix_table.specs.RecentPlaces.{IsSpotSet, remembered, spot_at, spot_of};

use net_prefix::Prefix;

// How many prefixes are remembered at most.
const SPOTS: usize = 1024;

/// A prefix and its place.
#[derive(Clone, Copy)]
struct RecentPlace {
    prefix: Prefix,
    place: u32,
}

/// The places of the prefixes that were looked up lately. Each prefix has one spot, where the last one stays.
#[derive(Drop)]
pub(crate) struct RecentPlaces {
    spots: [Option<RecentPlace>; SPOTS],
}

impl RecentPlaces {
    /// No prefix is remembered.
    pub(crate) fn new() -> Self
        ensures { (k : ℕ) → spot_at result k ≡ None }
    {
        RecentPlaces {
            spots: [None; SPOTS],
        }
    }

    /// The place of the prefix, if it is remembered.
    pub(crate) fn find(&self, prefix: Prefix) -> Option<u32>
        ensures { result ≡ remembered self.now prefix }
    {
        if let Some(recent) = &self.spots[spot(prefix)]
            && recent.prefix == prefix
        {
            return Some(recent.place);
        }
        None
    }

    /// The place of the prefix is remembered. Another prefix may be forgotten for it.
    pub(crate) fn keep(&mut self, prefix: Prefix, place: u32)
        ensures kept { remembered self.new prefix ≡ Some place }
        ensures spots { IsSpotSet self.old self.new prefix (Some (record { prefix = prefix; place = place })) }
    {
        self.spots[spot(prefix)] = Some(RecentPlace { prefix, place });
    }

    /// The prefix is forgotten, and another one of its spot.
    pub(crate) fn forget(&mut self, prefix: Prefix)
        ensures forgotten { remembered self.new prefix ≡ None }
        ensures spots { IsSpotSet self.old self.new prefix None }
    {
        self.spots[spot(prefix)] = None;
    }
}

// The spot of a prefix: the first bits of a product that mixes all bits of it.
fn spot(prefix: Prefix) -> usize
    ensures is { result ≡ spot_of prefix }
    ensures within { result < 1024 }
{
    let sum = prefix.bits.wrapping_add(u32::from(prefix.len));
    let mixed = sum.wrapping_mul(0x9e37_79b1);
    (mixed >> 22) as usize % SPOTS
}
