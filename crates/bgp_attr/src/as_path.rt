//! AS paths (RFC 4271 section 4.3): segments of AS numbers.
ghost use Rattle.std.specs.Prelude.{◌≡◌, ◌≤◌, ◌<◌, ◌==◌, length, take};
ghost use Rattle.std.specs.List.{AllByRecursion, list_any};
ghost use Rattle.bgp_attr.specs.AsPath.{PathSegment, path_octets, path_length_of, counted, has_as, last_as, origin_as_of, neighbor_as_of, first_as};
ghost use Rattle.bgp_attr.specs.AttributeSpelling.{IsSegment, kind_octet};
ghost use Rattle.bgp_attr.specs.PathReading.{kind_at};

use net_prefix::Asn;
use std::alloc::{Allocator, Global};
use std::marker::Model;

/// What the order of the ASes of a segment means.
#[derive(Clone, Copy, Debug, PartialEq, Eq)]
pub enum SegmentKind {
    /// AS_SET: nothing.
    Set,
    /// AS_SEQUENCE: the latest AS is the first.
    Sequence,
}

impl SegmentKind {
    // The kind that has this octet.
    pub(crate) fn from_octet(octet: u8) -> Option<SegmentKind>
        ensures { result ≡ kind_at octet }
    {
        match octet {
            1 => Some(SegmentKind::Set),
            2 => Some(SegmentKind::Sequence),
            _ => None,
        }
    }

    pub(crate) fn octet(self) -> u8
        ensures { result ≡ kind_octet self }
    {
        match self {
            SegmentKind::Set => 1,
            SegmentKind::Sequence => 2,
        }
    }
}

// So many ASes stand in a segment itself: most segments have no more, and take no memory of their own.
pub(crate) const FEW_ASNS: usize = 6;

/// A segment of 1 to 255 ASes.
#[derive(Drop)]
pub struct Segment<A: Allocator = Global> {
    form: SegmentForm<A>,
}

#[derive(Drop)]
enum SegmentForm<A: Allocator> {
    // The first ASes of these, so many.
    Few {
        kind: SegmentKind,
        count: u8,
        asns: [Asn; FEW_ASNS],
    },
    Many {
        kind: SegmentKind,
        asns: Vec<Asn, A>,
    },
}

impl<A: Allocator> Model for Segment<A> {
    ghost use Rattle.std.specs.Prelude.{◌<◌, ◌≤◌, length};
    ghost use Rattle.bgp_attr.specs.AsPath.{PathSegment};
    ghost use Rattle.bgp_attr.specs.SegmentForms.{HasRoom, segment_kept};

    ghost Value = { PathSegment };

    ghost view = { λ s. segment_kept s.form };

    ghost invariant = { λ s. (0 < length (segment_kept s.form).asns) × (length (segment_kept s.form).asns ≤ 255) × HasRoom s.form };
}

impl<A: Allocator> Segment<A> {
    pub(crate) fn new(kind: SegmentKind, asns: Vec<Asn, A>) -> Self
        requires { (0 < length asns.items) × (length asns.items ≤ 255) }
        ensures { result ≡ record { kind = kind; asns = asns.items } }
    {
        Segment {
            form: SegmentForm::Many { kind, asns },
        }
    }

    // The segment of the first ASes of these, so many.
    pub(crate) fn few(kind: SegmentKind, count: u8, asns: [Asn; FEW_ASNS]) -> Self
        requires { (0 < count) × (count ≤ 6) }
        ensures { result ≡ record { kind = kind; asns = take count asns } }
    {
        Segment {
            form: SegmentForm::Few { kind, count, asns },
        }
    }

    /// Whether the segment is a set.
    pub fn kind(&self) -> SegmentKind
        ensures { result ≡ self.now.kind }
    {
        match &self.form {
            SegmentForm::Few { kind, .. } => *kind,
            SegmentForm::Many { kind, .. } => *kind,
        }
    }

    /// The ASes.
    pub fn asns(&self) -> &[Asn]
        ensures value { result.now ≡ self.now.asns }
        ensures few { length result.now ≤ 255 }
        ensures some { 0 < length result.now }
    {
        match &self.form {
            SegmentForm::Few { count, asns, .. } => &asns[..usize::from(*count)],
            SegmentForm::Many { asns, .. } => asns.as_slice(),
        }
    }

    // What the segment counts for in the length of a path.
    fn counted(&self) -> u32
        ensures { result ≡ counted self.now.kind (length self.now.asns) }
    {
        match self.kind() {
            SegmentKind::Set => 1,
            SegmentKind::Sequence => self.asns().len() as u32,
        }
    }
}

/// A path of at most 65,535 octets, whose segments name 1 to 255 ASes each and none of them 0.
#[derive(Drop)]
pub struct AsPath<A: Allocator = Global> {
    segments: Vec<Segment<A>, A>,
}

impl<A: Allocator> Model for AsPath<A> {
    ghost use Rattle.std.specs.Prelude.{List, ◌≤◌};
    ghost use Rattle.std.specs.List.{AllByRecursion};
    ghost use Rattle.bgp_attr.specs.AsPath.{PathSegment, path_octets};
    ghost use Rattle.bgp_attr.specs.AttributeSpelling.{IsSegment};

    ghost Value = { List PathSegment };

    ghost view = { λ p. p.segments.items };

    ghost invariant = { λ p. (path_octets p.segments.items ≤ 65535) × AllByRecursion IsSegment p.segments.items };
}

impl<A: Allocator> AsPath<A> {
    pub(crate) fn new(segments: Vec<Segment<A>, A>) -> Self
        requires short { path_octets segments.items ≤ 65535 }
        requires lawful { AllByRecursion IsSegment segments.items }
        ensures { result ≡ segments.items }
    {
        AsPath { segments }
    }

    /// The segments, the latest first.
    #[tactic(auto, using(crate::proofs::PathLemmas::path_length_le))]
    pub fn segments(&self) -> &[Segment<A>]
        ensures value { result.now ≡ self.now }
        ensures short { path_octets result.now ≤ 65535 }
        ensures few { path_length_of result.now ≤ 65535 }
        ensures lawful { AllByRecursion IsSegment self.now }
    {
        self.segments.as_slice()
    }

    // The octets that the path takes.
    pub(crate) fn octets(&self) -> usize
        ensures value { result ≡ path_octets self.now }
        ensures short { result ≤ 65535 }
    {
        let mut total = 0;
        for segment in self.segments() {
            total += 2 + 4 * segment.asns().len();
        }
        total
    }

    /// The number of ASes; a set counts 1 (RFC 4271 section 9.1.2.2).
    pub fn length(&self) -> u32
        ensures { result ≡ path_length_of self.now }
    {
        let mut total = 0;
        for segment in self.segments() {
            total += segment.counted();
        }
        total
    }

    /// Whether some segment names the AS.
    pub fn contains(&self, asn: Asn) -> bool
        ensures { result ≡ has_as self.now asn }
    {
        self.segments()
            .iter()
            .any(|segment| names(segment.asns(), asn))
    }
}

fn names(asns: &[Asn], asn: Asn) -> bool
    ensures { result ≡ list_any (λ a. a.0 == asn.0) asns.now }
{
    asns.iter().any(|a| a.0 == asn.0)
}

/// The origin AS (RFC 6811 section 2): the last AS of the final segment, none where that is a set, and this speaker's
/// own AS where the path is empty.
pub fn origin_as<A: Allocator>(path: &AsPath<A>, own: Asn) -> Option<Asn>
    ensures { result ≡ origin_as_of path.now own }
{
    match path.segments().last() {
        None => Some(own),
        Some(last) => match last.kind() {
            SegmentKind::Set => None,
            SegmentKind::Sequence => last.asns().last().copied(),
        },
    }
}

/// The neighbor AS (RFC 4271 section 9.1.2.2): the first AS of a path that begins with an AS_SEQUENCE, else this
/// speaker's own AS.
pub fn neighbor_as<A: Allocator>(path: &AsPath<A>, own: Asn) -> Asn
    ensures { result ≡ neighbor_as_of path.now own }
{
    match path.segments() {
        [] => own,
        [first, ..] => match first.kind() {
            SegmentKind::Set => own,
            SegmentKind::Sequence => first.asns().first().copied().unwrap_or(own),
        },
    }
}
