//! The table of attribute types (RFC 4271 section 4.3).
ghost use Rattle.std.specs.Prelude.{◌≡◌, [], ◌∷◌};
ghost use Rattle.bgp_attr.specs.AttributeTable.{type_of, octet_of, class_of, length_of, written_flags_of, class_flags_of, is_taken, is_taken_from, columns, row_of, types};

use crate::peer::PeerKind;

const ORIGIN: u8 = 1;

const AS_PATH: u8 = 2;

const NEXT_HOP: u8 = 3;

const MULTI_EXIT_DISC: u8 = 4;

const LOCAL_PREF: u8 = 5;

const ATOMIC_AGGREGATE: u8 = 6;

const AGGREGATOR: u8 = 7;

const TRANSITIVE: u8 = 0x40;

const OPTIONAL: u8 = 0x80;

/// An attribute that this speaker knows.
#[derive(Clone, Copy, Debug, PartialEq, Eq)]
pub enum AttributeType {
    Origin,
    AsPath,
    NextHop,
    MultiExitDisc,
    LocalPref,
    AtomicAggregate,
    Aggregator,
}

// The types, in rising order of their codes.
pub(crate) const TYPES: [AttributeType; 7] = [
    AttributeType::Origin,
    AttributeType::AsPath,
    AttributeType::NextHop,
    AttributeType::MultiExitDisc,
    AttributeType::LocalPref,
    AttributeType::AtomicAggregate,
    AttributeType::Aggregator,
];

/// Who has to know an attribute, and who passes it on.
#[derive(Clone, Copy, Debug, PartialEq, Eq)]
pub enum Class {
    WellKnown,
    OptionalTransitive,
    OptionalNonTransitive,
}

// The peers from which an attribute is taken; from the others it is dropped, whatever it says.
#[derive(Clone, Copy)]
pub(crate) enum TakenFrom {
    AllPeers,
    InternalPeers,
}

// A row of the table.
#[derive(Clone, Copy)]
pub(crate) struct Row {
    pub code: u8,
    pub class: Class,
    // The length that a value has, where it has to be one.
    pub length: Option<u16>,
    // The flags that are written, without the one for a long value.
    pub flags: u8,
    pub taken_from: TakenFrom,
}

fn columns(code: u8, class: Class, length: Option<u16>, flags: u8, taken_from: TakenFrom) -> Row
    ensures { result ≡ columns code class length flags taken_from }
{
    Row {
        code,
        class,
        length,
        flags,
        taken_from,
    }
}

impl AttributeType {
    // The table, a line for each type.
    #[rattlefmt::skip]
    pub(crate) fn row(self) -> Row
        ensures { result ≡ row_of self }
    {
        match self {
            AttributeType::Origin => columns(ORIGIN, Class::WellKnown, Some(1), TRANSITIVE, TakenFrom::AllPeers),
            AttributeType::AsPath => columns(AS_PATH, Class::WellKnown, None, TRANSITIVE, TakenFrom::AllPeers),
            AttributeType::NextHop => columns(NEXT_HOP, Class::WellKnown, Some(4), TRANSITIVE, TakenFrom::AllPeers),
            AttributeType::MultiExitDisc => columns(MULTI_EXIT_DISC, Class::OptionalNonTransitive, Some(4), OPTIONAL, TakenFrom::AllPeers),
            AttributeType::LocalPref => columns(LOCAL_PREF, Class::WellKnown, Some(4), TRANSITIVE, TakenFrom::InternalPeers),
            AttributeType::AtomicAggregate => columns(ATOMIC_AGGREGATE, Class::WellKnown, Some(0), TRANSITIVE, TakenFrom::AllPeers),
            AttributeType::Aggregator => columns(AGGREGATOR, Class::OptionalTransitive, Some(8), OPTIONAL + TRANSITIVE, TakenFrom::AllPeers),
        }
    }

    /// The type of this code.
    pub fn from_octet(octet: u8) -> Option<AttributeType>
        ensures { result ≡ type_of octet }
    {
        TYPES.iter().copied().find(|known| known.octet() == octet)
    }

    /// The code.
    pub fn octet(self) -> u8
        ensures { result ≡ octet_of self }
    {
        self.row().code
    }

    // The code, as the data of a NOTIFICATION.
    pub(crate) fn octet_alone(self) -> &'static [u8]
        ensures { result.now ≡ octet_of self ∷ [] }
    {
        match self {
            AttributeType::Origin => &[ORIGIN],
            AttributeType::AsPath => &[AS_PATH],
            AttributeType::NextHop => &[NEXT_HOP],
            AttributeType::MultiExitDisc => &[MULTI_EXIT_DISC],
            AttributeType::LocalPref => &[LOCAL_PREF],
            AttributeType::AtomicAggregate => &[ATOMIC_AGGREGATE],
            AttributeType::Aggregator => &[AGGREGATOR],
        }
    }

    /// The class.
    pub fn class(self) -> Class
        ensures { result ≡ class_of self }
    {
        self.row().class
    }

    /// The length that a value has, where it has to be one.
    pub fn length(self) -> Option<u16>
        ensures { result ≡ length_of self }
    {
        self.row().length
    }

    /// The flags that are written, without the one for a long value.
    pub fn written_flags(self) -> u8
        ensures { result ≡ written_flags_of self }
    {
        self.row().flags
    }

    /// Whether the attribute is taken from a peer of this kind; else it is dropped when read.
    pub fn is_taken(self, kind: PeerKind) -> bool
        ensures { result ≡ is_taken kind self }
    {
        self.row().taken_from.has(kind)
    }
}

impl TakenFrom {
    fn has(self, kind: PeerKind) -> bool
        ensures { result ≡ is_taken_from self kind }
    {
        match self {
            TakenFrom::AllPeers => true,
            TakenFrom::InternalPeers => !kind.is_external(),
        }
    }
}

impl Class {
    // The optional and the transitive bit that an attribute of this class has.
    pub(crate) fn flags(self) -> u8
        ensures { result ≡ class_flags_of self }
    {
        match self {
            Class::WellKnown => TRANSITIVE,
            Class::OptionalTransitive => OPTIONAL | TRANSITIVE,
            Class::OptionalNonTransitive => OPTIONAL,
        }
    }
}
