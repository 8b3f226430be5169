//! Whether attributes are the same, field by field. No octets are written for it.
ghost use Rattle.std.specs.Prelude.{◌≡◌, IsTrue};

use bgp_attr::{Attrs, Segment, UnknownAttributes};
use std::alloc::Allocator;

/// Whether both are the same attributes.
pub(crate) fn are_same<A: Allocator>(a: &Attrs<A>, b: &Attrs<A>) -> bool
    ensures { IsTrue result → a.now ≡ b.now }
{
    has_same_numbers(a, b) && has_same_path(a, b) && has_same_unknown(a, b)
}

// Whether all but the path and the unknown attributes are the same.
fn has_same_numbers<A: Allocator>(a: &Attrs<A>, b: &Attrs<A>) -> bool
    ensures origin { IsTrue result → a.now.origin ≡ b.now.origin }
    ensures next_hop { IsTrue result → a.now.next_hop ≡ b.now.next_hop }
    ensures med { IsTrue result → a.now.multi_exit_disc ≡ b.now.multi_exit_disc }
    ensures local_pref { IsTrue result → a.now.local_pref ≡ b.now.local_pref }
    ensures atomic { IsTrue result → a.now.atomic_aggregate ≡ b.now.atomic_aggregate }
    ensures aggregator { IsTrue result → a.now.aggregator ≡ b.now.aggregator }
{
    a.origin() == b.origin()
        && a.next_hop() == b.next_hop()
        && a.multi_exit_disc() == b.multi_exit_disc()
        && a.local_pref() == b.local_pref()
        && a.atomic_aggregate() == b.atomic_aggregate()
        && a.aggregator() == b.aggregator()
}

// Whether the path is the same.
fn has_same_path<A: Allocator>(a: &Attrs<A>, b: &Attrs<A>) -> bool
    ensures { IsTrue result → a.now.as_path ≡ b.now.as_path }
{
    match (a.as_path(), b.as_path()) {
        (Some(path), Some(other)) => are_same_segments(path.segments(), other.segments()),
        (None, None) => true,
        _ => false,
    }
}

// Whether both are the same segments.
fn are_same_segments<A: Allocator>(a: &[Segment<A>], b: &[Segment<A>]) -> bool
    ensures { IsTrue result → a.now ≡ b.now }
{
    let (mut rest, mut others) = (a, b);
    while let [segment, behind @ ..] = rest {
        let [other, more @ ..] = others else {
            return false;
        };
        if !is_same_segment(segment, other) {
            return false;
        }
        rest = behind;
        others = more;
    }
    others.is_empty()
}

// Whether both are the same segment.
fn is_same_segment<A: Allocator>(a: &Segment<A>, b: &Segment<A>) -> bool
    ensures { IsTrue result → a.now ≡ b.now }
{
    a.kind() == b.kind() && a.asns() == b.asns()
}

// Whether the unknown attributes are the same.
fn has_same_unknown<A: Allocator>(a: &Attrs<A>, b: &Attrs<A>) -> bool
    ensures { IsTrue result → a.now.unknown ≡ b.now.unknown }
{
    match (a.unknown(), b.unknown()) {
        (Some(unknown), Some(other)) => are_same_values(unknown, other),
        (None, None) => true,
        _ => false,
    }
}

// Whether both have the same codes with the same values.
fn are_same_values<A: Allocator>(a: &UnknownAttributes<A>, b: &UnknownAttributes<A>) -> bool
    ensures { IsTrue result → a.now ≡ b.now }
{
    let mut others = b.iter();
    for (code, value) in a.iter() {
        let Some((other, behind)) = others.next() else {
            return false;
        };
        if code != other || value != behind {
            return false;
        }
    }
    others.next().is_none()
}
