//! Why a route is no candidate.
ghost use Rattle.std.specs.Bool.{MatchBool};
ghost use Rattle.std.specs.Prelude.{◌≡◌, ◌≢◌, Some};
ghost use Rattle.speaker_tables.specs.ShownRoutes.{HoldsOwnAs, IsUnreachable, IsWhy};

use bgp_attr::Attrs;
use bgp_conf::Conf;
use std::alloc::Global;
use thiserror::Error;

/// Why a route is no candidate of its prefix (RFC 4271 section 9.1.2).
#[derive(Clone, Copy, Debug, PartialEq, Eq, Error)]
pub enum WhyNone {
    #[error("its slot has no peer")]
    NoPeer,
    #[error("its next hop is our own address")]
    OwnAddress,
    #[error("our AS is in its path")]
    OwnAs,
    #[error("its next hop is in no reach line")]
    Unreachable,
    #[error("the import policy rejects it")]
    Rejected,
}

/// Why a route of a slot that is no candidate is none: the first of these that holds.
pub fn why_none(conf: &Conf<Global>, slot: u8, attrs: &Attrs<Global>) -> WhyNone
    ensures { IsWhy conf.now slot attrs.now result }
{
    let Some(peer) = conf.peer(slot) else {
        return WhyNone::NoPeer;
    };
    if is_address(attrs.next_hop(), peer.local) {
        return WhyNone::OwnAddress;
    }
    if holds_own_as(conf, attrs) {
        return WhyNone::OwnAs;
    }
    if is_unreachable(conf, attrs) {
        return WhyNone::Unreachable;
    }
    WhyNone::Rejected
}

fn is_address(next_hop: Option<u32>, address: u32) -> bool
    ensures { MatchBool result (next_hop ≡ Some address) (next_hop ≢ Some address) }
{
    next_hop == Some(address)
}

fn holds_own_as(conf: &Conf<Global>, attrs: &Attrs<Global>) -> bool
    ensures { MatchBool result (HoldsOwnAs conf.now attrs.now) (¬ (HoldsOwnAs conf.now attrs.now)) }
{
    match attrs.as_path() {
        Some(path) => path.contains(conf.own()),
        None => false,
    }
}

fn is_unreachable(conf: &Conf<Global>, attrs: &Attrs<Global>) -> bool
    ensures { MatchBool result (IsUnreachable conf.now attrs.now) (¬ (IsUnreachable conf.now attrs.now)) }
{
    match attrs.next_hop() {
        Some(next_hop) => conf.cost(next_hop).is_none(),
        None => true,
    }
}
