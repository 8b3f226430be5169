//! What is wrong with an UPDATE (RFC 4271 section 6.3).
ghost use Rattle.std.specs.Prelude.{◌≡◌};
ghost use Rattle.bgp_attr.specs.AttributeFaults.{code_of, data_of, number_of, subcode_of};

use crate::attribute_type::AttributeType;
use std::alloc::AllocError;
use std::error::Error;
use std::fmt;
use std::fmt::{Display, Formatter, Write};

const UPDATE_MESSAGE_ERROR: u8 = 3;

// Own choice: the number of the refusals.
const NO_MEMORY: u8 = 21;

/// Why an UPDATE cannot be taken. A slice is the whole attribute as it came: flags, code, length and value.
#[derive(Clone, Copy, Debug, PartialEq, Eq)]
pub enum UpdateFault<'a> {
    MalformedAttributeList,
    UnrecognizedWellKnown(&'a [u8]),
    MissingWellKnown(AttributeType),
    AttributeFlags(&'a [u8]),
    AttributeLength(&'a [u8]),
    InvalidOrigin(&'a [u8]),
    InvalidNextHop(&'a [u8]),
    InvalidNetworkField,
    MalformedAsPath,
    NoMemory,
}

impl Display for UpdateFault<'_> {
    fn fmt<W: Write>(&self, f: &mut Formatter<W>) -> fmt::Result {
        f.write_str(self.text())
    }
}

impl Error for UpdateFault<'_> {}

impl From<AllocError> for UpdateFault<'_> {
    ghost use Rattle.bgp_attr.specs.declared.fault.UpdateFault.TheVariants.{NoMemory};

    ghost from_gives = { λ _ fault. fault ≡ NoMemory };

    fn from(_refusal: AllocError) -> Self {
        UpdateFault::NoMemory
    }
}

impl UpdateFault<'_> {
    fn text(&self) -> &'static str {
        match self {
            UpdateFault::MalformedAttributeList => "the attribute list is malformed",
            UpdateFault::UnrecognizedWellKnown(_) => "a well-known attribute is not recognized",
            UpdateFault::MissingWellKnown(_) => "a well-known attribute is missing",
            UpdateFault::AttributeFlags(_) => "the flags are not those of the attribute",
            UpdateFault::AttributeLength(_) => "the length is not that of the attribute",
            UpdateFault::InvalidOrigin(_) => "the origin is not defined",
            UpdateFault::InvalidNextHop(_) => "the next hop is no host address",
            UpdateFault::InvalidNetworkField => "a prefix is malformed",
            UpdateFault::MalformedAsPath => "the AS path is malformed",
            UpdateFault::NoMemory => "out of memory",
        }
    }

    /// The code of the NOTIFICATION that tells the fault; none where none does.
    pub fn code(&self) -> Option<u8>
        ensures { result ≡ code_of self.now }
    {
        if matches!(self, UpdateFault::NoMemory) {
            None
        } else {
            Some(UPDATE_MESSAGE_ERROR)
        }
    }

    /// Its subcode.
    pub fn subcode(&self) -> Option<u8>
        ensures { result ≡ subcode_of self.now }
    {
        match self {
            UpdateFault::MalformedAttributeList => Some(1),
            UpdateFault::UnrecognizedWellKnown(_) => Some(2),
            UpdateFault::MissingWellKnown(_) => Some(3),
            UpdateFault::AttributeFlags(_) => Some(4),
            UpdateFault::AttributeLength(_) => Some(5),
            UpdateFault::InvalidOrigin(_) => Some(6),
            UpdateFault::InvalidNextHop(_) => Some(8),
            UpdateFault::InvalidNetworkField => Some(10),
            UpdateFault::MalformedAsPath => Some(11),
            UpdateFault::NoMemory => None,
        }
    }

    /// The number by which operators know the fault: want of memory alone has one.
    pub fn number(&self) -> Option<u8>
        ensures { result ≡ number_of self.now }
    {
        match self {
            UpdateFault::NoMemory => Some(NO_MEMORY),
            _ => None,
        }
    }

    /// Its data.
    pub fn data(&self) -> &[u8]
        ensures { result.now ≡ data_of self.now }
    {
        match self {
            UpdateFault::UnrecognizedWellKnown(whole) => whole,
            UpdateFault::MissingWellKnown(missing) => missing.octet_alone(),
            UpdateFault::AttributeFlags(whole) => whole,
            UpdateFault::AttributeLength(whole) => whole,
            UpdateFault::InvalidOrigin(whole) => whole,
            UpdateFault::InvalidNextHop(whole) => whole,
            UpdateFault::MalformedAttributeList
            | UpdateFault::InvalidNetworkField
            | UpdateFault::MalformedAsPath
            | UpdateFault::NoMemory => &[],
        }
    }
}
