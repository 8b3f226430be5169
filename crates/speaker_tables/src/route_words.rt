//! Routes in words.

use bgp_attr::{AsPath, Attrs, Origin, Segment, SegmentKind, origin_as};
use decision::Book;
use net_prefix::{Asn, Prefix};
use speaker::Speaker;
use std::alloc::Global;
use std::io::{self, Write};
use std::net::Ipv4Addr;

/// Writes a route as a row: `PREFIX STATE ASn`, with the state and the AS of its origin (`none` where its path ends in a set),
/// and what it has.
pub(crate) fn write_route<B: Book<Global>>(
    speaker: &Speaker<Global, B>,
    prefix: Prefix,
    attrs: &Attrs<Global>,
    page: &mut Vec<u8>,
) -> io::Result<()> {
    let origin = origin_of(speaker, attrs.as_path());
    let state = speaker.state(prefix, origin);
    write!(page, "{prefix} {state}")?;
    write_origin(origin, page)?;
    write_route_words(attrs, page)?;
    writeln!(page, "")
}

// The origin AS of a route with this path (RFC 6811 section 2).
fn origin_of<B: Book<Global>>(
    speaker: &Speaker<Global, B>,
    path: Option<&AsPath<Global>>,
) -> Option<Asn> {
    match path {
        Some(path) => origin_as(path, speaker.conf().own()),
        None => None,
    }
}

fn write_origin(origin: Option<Asn>, page: &mut Vec<u8>) -> io::Result<()> {
    match origin {
        Some(asn) => write!(page, " {asn}"),
        None => write!(page, " none"),
    }
}

/// Writes the attributes of a route that the selection reads, each behind a space: ` path 65001 65002 next-hop 192.0.2.1 origin
/// igp med 10 local-pref 100`. A set stands in braces; a path without ASes is `path empty`.
pub(crate) fn write_route_words(attrs: &Attrs<Global>, page: &mut Vec<u8>) -> io::Result<()> {
    if let Some(path) = attrs.as_path() {
        write_path(path, page)?;
    }
    if let Some(next_hop) = attrs.next_hop() {
        let address = Ipv4Addr::from_bits(next_hop);
        write!(page, " next-hop {address}")?;
    }
    if let Some(origin) = attrs.origin() {
        let word = origin_word(origin);
        write!(page, " origin {word}")?;
    }
    write_preferences(attrs, page)
}

fn write_preferences(attrs: &Attrs<Global>, page: &mut Vec<u8>) -> io::Result<()> {
    if let Some(med) = attrs.multi_exit_disc() {
        write!(page, " med {med}")?;
    }
    if let Some(preference) = attrs.local_pref() {
        write!(page, " local-pref {preference}")?;
    }
    Ok(())
}

fn origin_word(origin: Origin) -> &'static str {
    match origin {
        Origin::Igp => "igp",
        Origin::Egp => "egp",
        Origin::Incomplete => "incomplete",
    }
}

fn write_path(path: &AsPath<Global>, page: &mut Vec<u8>) -> io::Result<()> {
    write!(page, " path")?;
    if path.segments().is_empty() {
        write!(page, " empty")?;
    }
    for segment in path.segments() {
        write_segment(segment, page)?;
    }
    Ok(())
}

fn write_segment(segment: &Segment<Global>, page: &mut Vec<u8>) -> io::Result<()> {
    match segment.kind() {
        SegmentKind::Sequence => write_ases(segment.asns(), page),
        SegmentKind::Set => {
            write!(page, " {{")?;
            write_ases(segment.asns(), page)?;
            write!(page, " }}")
        }
    }
}

fn write_ases(asns: &[Asn], page: &mut Vec<u8>) -> io::Result<()> {
    for asn in asns {
        let number = asn.0;
        write!(page, " {number}")?;
    }
    Ok(())
}
