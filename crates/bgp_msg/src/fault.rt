//! What is wrong with a message, and what a NOTIFICATION says of it (RFC 4271 section 6).
ghost use Rattle.std.specs.Prelude.{◌≡◌};
ghost use Rattle.bgp_msg.specs.MessageFaults.{header_subcode, header_data, open_subcode, open_data};

use crate::open_message::four_octet_as;
use arrayvec::ArrayVec;
use bgp_attr::UpdateFault;
use byteorder::{BigEndian, ByteOrder};
use net_prefix::Asn;
use thiserror::Error;

/// What is wrong with a header (RFC 4271 section 6.1).
#[derive(Clone, Copy, Debug, PartialEq, Eq, Error)]
pub enum HeaderFault {
    #[error("the marker has a bit that is not set")]
    ConnectionNotSynchronized,
    /// The length that was told.
    #[error("no such message has this length")]
    BadMessageLength(u16),
    /// The octet of the type.
    #[error("there is no message of this type")]
    BadMessageType(u8),
}

/// What is wrong with an OPEN (RFC 4271 section 6.2, RFC 5492 section 5).
#[derive(Clone, Copy, Debug, PartialEq, Eq, Error)]
pub enum OpenFault {
    #[error("the optional parameters are malformed")]
    MalformedParameters,
    #[error("the version is not 4")]
    UnsupportedVersion,
    #[error("the AS is not the configured one")]
    BadPeerAs,
    #[error("the identifier is 0 or our own")]
    BadIdentifier,
    #[error("an optional parameter is not known")]
    UnsupportedParameter,
    #[error("the hold time is 1 or 2 seconds")]
    UnacceptableHoldTime,
    /// AS numbers of four octets aren't offered. The own AS, which the answer names.
    #[error("the capability of AS numbers of four octets is missing")]
    UnsupportedCapability(Asn),
}

/// What is wrong with a message.
#[derive(Clone, Copy, Debug, PartialEq, Eq, Error)]
pub enum Fault<'a> {
    #[error("the header is faulty")]
    Header(HeaderFault),
    #[error("the OPEN is faulty")]
    Open(OpenFault),
    #[error("the UPDATE is faulty")]
    Update(UpdateFault<'a>),
}

impl HeaderFault {
    /// The error code.
    pub fn code(self) -> u8
        ensures { result ≡ 1 }
    {
        1
    }

    /// The error subcode.
    pub fn subcode(self) -> u8
        ensures { result ≡ header_subcode self }
    {
        match self {
            HeaderFault::ConnectionNotSynchronized => 1,
            HeaderFault::BadMessageLength(_) => 2,
            HeaderFault::BadMessageType(_) => 3,
        }
    }

    /// The data that a NOTIFICATION carries.
    pub fn data(self) -> ArrayVec<u8, 2>
        ensures { result.items ≡ header_data self }
    {
        let mut octets = ArrayVec::new();
        match self {
            HeaderFault::ConnectionNotSynchronized => {}
            HeaderFault::BadMessageLength(length) => {
                let mut told = [0; 2];
                BigEndian::write_u16(&mut told, length);
                let _fits = octets.try_extend_from_slice(&told);
            }
            HeaderFault::BadMessageType(octet) => octets.push(octet),
        }
        octets
    }
}

impl OpenFault {
    /// The error code.
    pub fn code(self) -> u8
        ensures { result ≡ 2 }
    {
        2
    }

    /// The error subcode.
    pub fn subcode(self) -> u8
        ensures { result ≡ open_subcode self }
    {
        match self {
            OpenFault::MalformedParameters => 0,
            OpenFault::UnsupportedVersion => 1,
            OpenFault::BadPeerAs => 2,
            OpenFault::BadIdentifier => 3,
            OpenFault::UnsupportedParameter => 4,
            OpenFault::UnacceptableHoldTime => 6,
            OpenFault::UnsupportedCapability(_) => 7,
        }
    }

    /// The data that a NOTIFICATION carries: the version that is spoken, or the capability that is asked for.
    pub fn data(self) -> ArrayVec<u8, 6>
        ensures { result.items ≡ open_data self }
    {
        let mut octets = ArrayVec::new();
        match self {
            OpenFault::UnsupportedVersion => {
                octets.push(0);
                octets.push(4);
            }
            OpenFault::UnsupportedCapability(own) => {
                let _fits = octets.try_extend_from_slice(&four_octet_as(own));
            }
            _ => {}
        }
        octets
    }
}
