//! Writing an AS_PATH (RFC 4271 section 4.3, RFC 6793).
ghost use Rattle.std.specs.Prelude.{◌≡◌, ◌≤◌, ◌<◌, ◌+◌, ◌++◌, length, replicate};
ghost use Rattle.bgp_attr.specs.Appending.{Appends};
ghost use Rattle.bgp_attr.specs.AsPath.{PathSegment};
ghost use Rattle.bgp_attr.specs.AttributeSpelling.{asns_spelling, segment_spelling, path_spelling};
ghost use Rattle.bgp_attr.specs.Spread.{run, part_of, joining_of, room_of};
ghost use Rattle.bgp_attr.specs.Written.{segments_of};

use crate::as_path::{Segment, SegmentKind};
use crate::prepending::PrependedPath;
use crate::writing::put;
use arrayvec::ArrayVec;
use net_prefix::Asn;
use std::alloc::Allocator;

const MAX_ASNS: u8 = 255;

pub(crate) fn write_path<A: Allocator>(
    path: &PrependedPath<'_, A>,
    out: &mut ArrayVec<u8, 4096>,
) -> bool
    ensures { Appends result out.old.items out.new.items (path_spelling (segments_of path.now)) }
{
    let spread = path.spread();
    write_new(path.asn, spread.part, spread.full, out)
        && write_joined(path.path.segments(), path.asn, spread.joining, out)
}

// A new segment of fewer than 255 ASes, and so many of 255.
fn write_new(asn: Asn, part: u8, full: u16, out: &mut ArrayVec<u8, 4096>) -> bool
    ensures { Appends result out.old.items out.new.items (path_spelling (part_of asn part ++ replicate full (run asn 255))) }
{
    write_part(asn, part, out) && write_full(asn, full, out)
}

fn write_part(asn: Asn, part: u8, out: &mut ArrayVec<u8, 4096>) -> bool
    ensures { Appends result out.old.items out.new.items (path_spelling (part_of asn part)) }
{
    part == 0 || write_run(asn, part, out)
}

fn write_full(asn: Asn, full: u16, out: &mut ArrayVec<u8, 4096>) -> bool
    ensures { Appends result out.old.items out.new.items (path_spelling (replicate full (run asn 255))) }
{
    for _ in 0..full {
        if !write_run(asn, MAX_ASNS, out) {
            return false;
        }
    }
    true
}

// A segment that has one AS so many times.
fn write_run(asn: Asn, times: u8, out: &mut ArrayVec<u8, 4096>) -> bool
    ensures { Appends result out.old.items out.new.items (segment_spelling (run asn times)) }
{
    write_segment(SegmentKind::Sequence, asn, times, &[], out)
}

// The segments, the first with the AS so many times in front.
fn write_joined<A: Allocator>(
    segments: &[Segment<A>],
    asn: Asn,
    joining: u8,
    out: &mut ArrayVec<u8, 4096>,
) -> bool
    requires { joining ≤ room_of segments.now }
    ensures { Appends result out.old.items out.new.items (path_spelling (joining_of segments.now asn joining)) }
{
    match segments {
        [] => true,
        [first, more @ ..] => {
            write_segment(first.kind(), asn, joining, first.asns(), out)
                && write_segments(more, out)
        }
    }
}

fn write_segments<A: Allocator>(segments: &[Segment<A>], out: &mut ArrayVec<u8, 4096>) -> bool
    ensures { Appends result out.old.items out.new.items (path_spelling segments.now) }
{
    for segment in segments {
        if !write_segment(segment.kind(), Asn(0), 0, segment.asns(), out) {
            return false;
        }
    }
    true
}

// A segment of the AS so many times, and then these.
fn write_segment(
    kind: SegmentKind,
    asn: Asn,
    times: u8,
    asns: &[Asn],
    out: &mut ArrayVec<u8, 4096>,
) -> bool
    requires { times + length asns.now ≤ 255 }
    ensures { Appends result out.old.items out.new.items (segment_spelling (record { kind = kind; asns = replicate times asn ++ asns.now })) }
{
    let count = times + asns.len() as u8;
    put(out, &[kind.octet(), count]) && write_asns(asn, times, asns, out)
}

fn write_asns(asn: Asn, times: u8, asns: &[Asn], out: &mut ArrayVec<u8, 4096>) -> bool
    ensures { Appends result out.old.items out.new.items (asns_spelling (replicate times asn ++ asns.now)) }
{
    write_repeated(asn, times, out) && write_listed(asns, out)
}

fn write_repeated(asn: Asn, times: u8, out: &mut ArrayVec<u8, 4096>) -> bool
    ensures { Appends result out.old.items out.new.items (asns_spelling (replicate times asn)) }
{
    for _ in 0..times {
        if !put(out, &asn.0.to_be_bytes()) {
            return false;
        }
    }
    true
}

fn write_listed(asns: &[Asn], out: &mut ArrayVec<u8, 4096>) -> bool
    ensures { Appends result out.old.items out.new.items (asns_spelling asns.now) }
{
    for asn in asns {
        if !put(out, &asn.0.to_be_bytes()) {
            return false;
        }
    }
    true
}
