//! Paths with an AS put in front (RFC 4271 section 5.1.2).
ghost use Rattle.std.specs.Prelude.{◌≡◌, ◌≤◌, ◌-◌, ◌/◌, ◌%◌};
ghost use Rattle.std.specs.List.{AllByRecursion};
ghost use Rattle.bgp_attr.specs.AsPath.{prepended, path_octets};
ghost use Rattle.bgp_attr.specs.AttributeSpelling.{IsSegment};
ghost use Rattle.bgp_attr.specs.Spread.{room_of, new_of, part_count};
ghost use Rattle.bgp_attr.specs.Written.{segments_of};

use crate::as_path::{AsPath, SegmentKind};
use net_prefix::Asn;
use std::alloc::{Allocator, Global};

/// A path with an AS in front, some number of times. It borrows the path and takes no memory.
#[derive_where(Clone, Copy)]
pub struct PrependedPath<'a, A: Allocator = Global> {
    pub(crate) path: &'a AsPath<A>,
    pub(crate) asn: Asn,
    pub(crate) times: u16,
}

/// The path with the AS put in front so many times; none leaves the path as it is. The AS joins a first AS_SEQUENCE of
/// fewer than 255 ASes, and else begins a new one.
pub fn prepend<A: Allocator>(path: &AsPath<A>, asn: Asn, times: u16) -> PrependedPath<'_, A>
    ensures value { segments_of result ≡ prepended path.now asn times }
    // The path itself is one of 1 to 255 ASes a segment, none of them 0, in at most 65,535 octets.
    ensures lawful { (path_octets path.now ≤ 65535) × AllByRecursion IsSegment path.now }
{
    // What holds of the segments of every path holds of these.
    let _segments = path.segments();
    PrependedPath { path, asn, times }
}

// How the ASes in front are spread over segments: a new one of fewer than 255, then new ones of 255, and the rest in
// the first segment of the path.
#[derive(Clone, Copy)]
pub(crate) struct Spread {
    pub part: u8,
    pub full: u16,
    pub joining: u8,
}

impl<A: Allocator> PrependedPath<'_, A> {
    // How many ASes the first segment of the path can still take.
    fn room(&self) -> u8
        ensures { result ≡ room_of self.now.path.now }
    {
        match self.path.segments() {
            [first, ..] => match first.kind() {
                SegmentKind::Set => 0,
                SegmentKind::Sequence => 255 - first.asns().len() as u8,
            },
            [] => 0,
        }
    }

    pub(crate) fn spread(&self) -> Spread
        ensures joining { result.joining ≡ self.now.times - new_of self.now.path.now self.now.times }
        ensures part { result.part ≡ new_of self.now.path.now self.now.times % 255 }
        ensures full { result.full ≡ new_of self.now.path.now self.now.times / 255 }
    {
        let room = self.room();
        let new = self.times.saturating_sub(u16::from(room));
        Spread {
            part: (new % 255) as u8,
            full: new / 255,
            joining: (self.times - new) as u8,
        }
    }

    // The octets that the path takes.
    #[tactic(auto, using(crate::proofs::Spreading::prepended_octets))]
    pub(crate) fn octets(&self) -> usize
        ensures { result ≡ path_octets (segments_of self.now) }
    {
        let spread = self.spread();
        let new = usize::from(spread.full) + count_of(spread.part);
        self.path.octets() + 4 * usize::from(self.times) + 2 * new
    }
}

fn count_of(part: u8) -> usize
    ensures value { result ≡ part_count part }
    ensures few { result ≤ 1 }
{
    if part == 0 { 0 } else { 1 }
}
