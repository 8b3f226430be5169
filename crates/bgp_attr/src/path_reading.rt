//! Reading an AS_PATH (RFC 4271 section 4.3, RFC 6793).
ghost use Rattle.std.specs.Prelude.{◌≡◌, List, [], ◌∷◌, ◌++◌, ◌<◌, ◌≤◌, ◌^◌, Some, None, if◌then◌else◌, length, is_some, take, ◌+◌, IfOk, IfSome, OnOk};
ghost use Rattle.std.specs.Option.{option_map};
ghost use Rattle.bgp_attr.specs.AttributeReading.{segment_of, path_items};
ghost use Rattle.bgp_attr.specs.AsPath.{PathSegment};
ghost use Rattle.bgp_attr.specs.PathReading as reading;
ghost use Rattle.bgp_attr.specs.PathReading.{asns_in, has_zero, is_malformed_path, path_at, segment_at};

use crate::as_path::{AsPath, FEW_ASNS, Segment, SegmentKind};
use crate::peer::PeerKind;
use net_prefix::Asn;
use std::alloc::{AllocError, Allocator};

// A segment whose end is known.
#[derive(Clone, Copy)]
pub(crate) struct RawSegment<'a> {
    pub kind: SegmentKind,
    // Four octets for each AS.
    pub asns: &'a [u8],
}

// Whether the octets are no AS_PATH of such a peer.
pub(crate) fn is_malformed(octets: &[u8], kind: PeerKind) -> bool
    ensures { result ≡ is_malformed_path kind octets.now }
{
    !is_path(octets) || !begins_right(octets, kind)
}

fn is_path(octets: &[u8]) -> bool
    ensures { result ≡ is_some (path_at octets.now) }
{
    let mut rest = octets;
    while !rest.is_empty() {
        let Some((_, behind)) = split_segment(rest) else {
            return false;
        };
        rest = behind;
    }
    true
}

// Whether the path that the octets are begins as that of such a peer: that of an external peer with an AS_SEQUENCE
// whose first AS is the peer's.
fn begins_right(octets: &[u8], kind: PeerKind) -> bool
    ensures { (path : List PathSegment) → path_at octets.now ≡ Some path → result ≡ reading.begins_right kind path }
{
    match kind {
        PeerKind::Internal => true,
        PeerKind::External(peer) => match split_segment(octets) {
            Some((first, _)) => is_sequence_from(first, peer),
            None => false,
        },
    }
}

// Whether a segment is an AS_SEQUENCE that begins with the AS.
fn is_sequence_from(segment: RawSegment<'_>, asn: Asn) -> bool
    ensures { result ≡ reading.is_sequence_from segment.entry.kind (asns_in segment.entry.asns.now) asn }
{
    match segment.kind {
        SegmentKind::Set => false,
        SegmentKind::Sequence => match segment.asns {
            [a, b, c, d, ..] => u32::from_be_bytes([*a, *b, *c, *d]) == asn.0,
            _ => false,
        },
    }
}

// The path that these octets are.
pub(crate) fn read_path<A: Allocator + Clone>(
    alloc: &A,
    octets: &[u8],
) -> Result<Option<AsPath<A>>, AllocError>
    requires { length octets.now < 2 ^ 16 }
    ensures { IfOk result (λ path. path ≡ path_at octets.now) }
{
    match read_segments(alloc, octets)? {
        Some(segments) => Ok(Some(AsPath::new(segments))),
        None => Ok(None),
    }
}

fn read_segments<A: Allocator + Clone>(
    alloc: &A,
    octets: &[u8],
) -> Result<Option<Vec<Segment<A>, A>>, AllocError>
    ensures { IfOk result (λ segments. option_map path_items segments ≡ path_at octets.now) }
{
    let mut segments = room_for(alloc, octets)?;
    if push_segments(alloc, octets, &mut segments)? {
        Ok(Some(segments))
    } else {
        Ok(None)
    }
}

// Most paths are one segment: room for no more is taken at first.
fn room_for<A: Allocator + Clone>(
    alloc: &A,
    octets: &[u8],
) -> Result<Vec<Segment<A>, A>, AllocError>
    ensures { IfOk result (λ segments. segments.items ≡ []) }
{
    Vec::with_capacity(alloc.clone()?, octets.len().min(1))
}

// Puts the segments that stand in these octets behind others. Answers whether nothing else stands there.
fn push_segments<A: Allocator + Clone>(
    alloc: &A,
    octets: &[u8],
    segments: &mut Vec<Segment<A>, A>,
) -> Result<bool, AllocError>
    ensures { IfOk result (λ whole. (if whole then Some segments.new.items else None) ≡ option_map (λ behind. segments.old.items ++ behind) (path_at octets.now)) }
{
    let mut rest = octets;
    while let Some((segment, behind)) = split_segment(rest) {
        push_segment(alloc, segment, segments)?;
        rest = behind;
    }
    Ok(rest.is_empty())
}

fn push_segment<A: Allocator + Clone>(
    alloc: &A,
    segment: RawSegment<'_>,
    segments: &mut Vec<Segment<A>, A>,
) -> Result<(), AllocError>
    requires some { 4 ≤ length segment.asns.now }
    requires few { length segment.asns.now ≤ 1020 }
    ensures { OnOk result (segments.new.items ≡ segments.old.items ++ segment_of segment.entry ∷ []) }
{
    let read = read_segment(alloc.clone()?, segment)?;
    segments.push(read)?;
    Ok(())
}

fn read_segment<A: Allocator>(alloc: A, segment: RawSegment<'_>) -> Result<Segment<A>, AllocError>
    requires some { 4 ≤ length segment.asns.now }
    requires few { length segment.asns.now ≤ 1020 }
    ensures { IfOk result (λ read. read ≡ segment_of segment.entry) }
{
    if segment.asns.len() <= 4 * FEW_ASNS {
        return Ok(read_few(segment));
    }
    let asns = read_asns(alloc, segment.asns)?;
    Ok(Segment::new(segment.kind, asns))
}

// A segment of so few ASes that they stand in it.
fn read_few<A: Allocator>(segment: RawSegment<'_>) -> Segment<A>
    requires some { 4 ≤ length segment.asns.now }
    requires few { length segment.asns.now ≤ 24 }
    ensures { result ≡ segment_of segment.entry }
{
    let (count, asns) = few_asns(segment.asns);
    Segment::few(segment.kind, count, asns)
}

// How many ASes there are, and they, with others behind them.
fn few_asns(octets: &[u8]) -> (u8, [Asn; FEW_ASNS])
    requires { length octets.now ≤ 24 }
    ensures asns { take result.0 result.1 ≡ asns_in octets.now }
    ensures few { result.0 ≤ 6 }
    ensures some { 4 ≤ length octets.now → 0 < result.0 }
{
    let mut count = 0usize;
    let mut asns = [Asn(0); FEW_ASNS];
    let mut rest = octets;
    while let [a, b, c, d, behind @ ..] = rest {
        put_asn(&mut asns, count, Asn(u32::from_be_bytes([*a, *b, *c, *d])));
        count += 1;
        rest = behind;
    }
    (count as u8, asns)
}

// Puts the AS behind so many others.
#[tactic(auto, using(std::proofs::lemmas::List::take_more_set))]
fn put_asn(asns: &mut [Asn; FEW_ASNS], count: usize, asn: Asn)
    requires { count < 6 }
    ensures { take (count + 1) asns.new ≡ take count asns.old ++ asn ∷ [] }
{
    asns[count] = asn;
}

fn read_asns<A: Allocator>(alloc: A, octets: &[u8]) -> Result<Vec<Asn, A>, AllocError>
    ensures { IfOk result (λ asns. asns.items ≡ asns_in octets.now) }
{
    let mut asns = Vec::with_capacity(alloc, octets.len() / 4)?;
    let mut rest = octets;
    while let [a, b, c, d, behind @ ..] = rest {
        asns.push(Asn(u32::from_be_bytes([*a, *b, *c, *d])))?;
        rest = behind;
    }
    Ok(asns)
}

// The segment at the front, and the octets behind it; none where there is no well-formed one.
#[tactic(auto, unfolding(crate::specs::PathReading::segment_at))]
fn split_segment<'a>(octets: &'a [u8]) -> Option<(RawSegment<'a>, &'a [u8])>
    ensures found { option_map (λ found. (segment_of found.0, found.1.now)) result ≡ segment_at octets.now }
    ensures shorter { IfSome result (λ found. length found.1.now < length octets.now) }
    ensures some { IfSome result (λ found. 4 ≤ length found.0.asns.now) }
    ensures few { IfSome result (λ found. length found.0.asns.now ≤ 1020) }
{
    let [kind, count, more @ ..] = octets else {
        return None;
    };
    let kind = SegmentKind::from_octet(*kind)?;
    if *count == 0 {
        return None;
    }
    let (asns, rest) = more.split_at_checked(4 * usize::from(*count))?;
    if names_zero(asns) {
        return None;
    }
    Some((RawSegment { kind, asns }, rest))
}

// Whether an AS is 0.
fn names_zero(octets: &[u8]) -> bool
    ensures { result ≡ has_zero (asns_in octets.now) }
{
    let mut rest = octets;
    while let [a, b, c, d, behind @ ..] = rest {
        if u32::from_be_bytes([*a, *b, *c, *d]) == 0 {
            return true;
        }
        rest = behind;
    }
    false
}
