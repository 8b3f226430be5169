//! AGGREGATOR (RFC 4271 section 5.1.7).
ghost use Rattle.std.specs.Prelude.{◌≡◌, ◌<◌, ◌^◌, MatchOption, ⊤};
ghost use Rattle.bgp_attr.specs.PathAttributes.{aggregator_of};

use net_prefix::Asn;

/// The speaker that aggregated a route.
#[derive(Clone, Copy, Debug, PartialEq, Eq)]
pub struct Aggregator {
    pub asn: Asn,
    pub address: u32,
    /// Whether some speaker passed it on that didn't know it.
    pub is_partial: bool,
}

// An aggregator but for whether it is partial, which stands beside it in three octets less.
#[derive(Clone, Copy)]
pub(crate) struct AggregatingSpeaker {
    pub asn: Asn,
    pub address: u32,
}

pub(crate) fn split_aggregator(aggregator: Option<Aggregator>) -> (Option<AggregatingSpeaker>, bool)
    ensures { aggregator_of result.0 result.1 ≡ aggregator }
{
    let Some(aggregator) = aggregator else {
        return (None, false);
    };
    let speaker = AggregatingSpeaker {
        asn: aggregator.asn,
        address: aggregator.address,
    };
    (Some(speaker), aggregator.is_partial)
}

pub(crate) fn join_aggregator(
    speaker: Option<AggregatingSpeaker>,
    is_partial: bool,
) -> Option<Aggregator>
    ensures value { result ≡ aggregator_of speaker is_partial }
    ensures small { MatchOption result ⊤ (λ a. (a.asn.0 < 2 ^ 32) × (a.address < 2 ^ 32)) }
{
    let AggregatingSpeaker { asn, address } = speaker?;
    Some(Aggregator {
        asn,
        address,
        is_partial,
    })
}
