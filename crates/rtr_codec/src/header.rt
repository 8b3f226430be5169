//! The header of a PDU (RFC 8210 section 5).
ghost use Rattle.std.specs.Prelude.{◌≡◌, ◌≤◌, ◌+◌, MatchOption, MatchResult, None, Some, length};
ghost use Rattle.std.specs.Bool.{OnTrue};
ghost use Rattle.rtr_codec.specs.PduContents.{four_at, kind_at, told_length, two_at};
ghost use Rattle.rtr_codec.specs.PduFaults.{header_fault, is_faulty_report, is_lenient, is_other_version, version_code};
ghost use Rattle.rtr_codec.specs.PduTypes.{is_lawful_length, least_length, octet_of, type_of};
ghost use Rattle.rtr_codec.specs.PduLimits.{max_pdu};

use crate::fault::{ErrorCode, PduFault};
use crate::place::{End, Place};
use byteorder::{BigEndian, ByteOrder};

/// The most octets of a PDU that is read, the header among them (own choice).
pub const MAX_PDU: usize = 4096;

/// The octets of a header.
pub const HEADER_OCTETS: usize = 8;

/// The version of the protocol that is spoken here (RFC 8210 section 5.1).
pub(crate) const VERSION: u8 = 1;

/// The type of a PDU (RFC 8210 section 5).
#[derive(Clone, Copy, Debug, PartialEq, Eq)]
pub enum PduType {
    SerialNotify,
    SerialQuery,
    ResetQuery,
    CacheResponse,
    Ipv4Prefix,
    Ipv6Prefix,
    EndOfData,
    CacheReset,
    RouterKey,
    ErrorReport,
}

/// A header without a fault.
#[derive(Clone, Copy)]
pub(crate) struct Header {
    pub(crate) kind: PduType,
    pub(crate) length: usize,
}

impl PduType {
    /// The type of this octet.
    #[tactic(auto, unfolding(crate::specs::PduTypes::type_of))]
    pub fn from_octet(octet: u8) -> Option<PduType>
        ensures { result ≡ type_of octet }
    {
        match octet {
            0 => Some(PduType::SerialNotify),
            1 => Some(PduType::SerialQuery),
            2 => Some(PduType::ResetQuery),
            3 => Some(PduType::CacheResponse),
            4 => Some(PduType::Ipv4Prefix),
            6 => Some(PduType::Ipv6Prefix),
            7 => Some(PduType::EndOfData),
            8 => Some(PduType::CacheReset),
            9 => Some(PduType::RouterKey),
            10 => Some(PduType::ErrorReport),
            _ => None,
        }
    }

    /// The octet of this type.
    pub fn octet(self) -> u8
        ensures { result ≡ octet_of self }
    {
        match self {
            PduType::SerialNotify => 0,
            PduType::SerialQuery => 1,
            PduType::ResetQuery => 2,
            PduType::CacheResponse => 3,
            PduType::Ipv4Prefix => 4,
            PduType::Ipv6Prefix => 6,
            PduType::EndOfData => 7,
            PduType::CacheReset => 8,
            PduType::RouterKey => 9,
            PduType::ErrorReport => 10,
        }
    }

    // Whether a PDU of this type may have this length.
    fn allows(self, length: usize) -> bool
        ensures value { result ≡ is_lawful_length self length }
        ensures least { OnTrue result (least_length self ≤ length) }
        ensures most { OnTrue result (length ≤ max_pdu) }
    {
        match self {
            PduType::SerialNotify | PduType::SerialQuery => length == 12,
            PduType::ResetQuery | PduType::CacheResponse | PduType::CacheReset => length == 8,
            PduType::Ipv4Prefix => length == 20,
            PduType::Ipv6Prefix => length == 32,
            PduType::EndOfData => length == 24,
            PduType::RouterKey => length >= 32 && length <= MAX_PDU,
            PduType::ErrorReport => length >= 16 && length <= MAX_PDU,
        }
    }
}

/// The header at the front, or its first fault.
#[tactic(auto, unfolding(crate::specs::PduFaults::header_fault))]
pub(crate) fn read_header(octets: &[u8], place: Place) -> Result<Header, PduFault>
    requires { 8 ≤ length octets.now }
    ensures fault { MatchResult result (λ _. header_fault place octets.now ≡ None) (λ fault. header_fault place octets.now ≡ Some fault) }
    ensures kind { MatchResult result (λ header. type_of (kind_at octets.now) ≡ Some header.kind) (λ _. Unit {0}) }
    ensures told { MatchResult result (λ header. header.length ≡ told_length octets.now) (λ _. Unit {0}) }
    ensures least { MatchResult result (λ header. least_length header.kind ≤ header.length) (λ _. Unit {0}) }
    ensures most { MatchResult result (λ header. header.length ≤ max_pdu) (λ _. Unit {0}) }
{
    if reports_faultily(octets) {
        return Err(PduFault::Unanswered);
    }
    if has_other_version(octets, place) {
        return Err(PduFault::Header(version_fault(place)));
    }
    let Some(kind) = PduType::from_octet(octets[1]) else {
        return Err(PduFault::Header(ErrorCode::UnsupportedType));
    };
    let length = length_told(octets);
    if !kind.allows(length) {
        return Err(PduFault::Header(ErrorCode::CorruptData));
    }
    Ok(Header { kind, length })
}

/// The number that two octets from a place on are.
pub(crate) fn u16_at(octets: &[u8], place: usize) -> u16
    requires { place + 2 ≤ length octets.now }
    ensures { result ≡ two_at octets.now place }
{
    BigEndian::read_u16(&octets[place..])
}

/// The number that four octets from a place on are.
pub(crate) fn u32_at(octets: &[u8], place: usize) -> u32
    requires { place + 4 ≤ length octets.now }
    ensures { result ≡ four_at octets.now place }
{
    BigEndian::read_u32(&octets[place..])
}

// The length of the whole PDU.
#[tactic(auto, unfolding(crate::specs::PduContents::told_length))]
fn length_told(octets: &[u8]) -> usize
    requires { 8 ≤ length octets.now }
    ensures { result ≡ told_length octets.now }
{
    u32_at(octets, 4) as usize
}

// Whether an Error Report has a faulty header.
fn reports_faultily(octets: &[u8]) -> bool
    requires { 8 ≤ length octets.now }
    ensures { result ≡ is_faulty_report octets.now }
{
    octets[1] == PduType::ErrorReport.octet()
        && (octets[0] != VERSION || !PduType::ErrorReport.allows(length_told(octets)))
}

// Whether the header is of another version, where that isn't let pass.
fn has_other_version(octets: &[u8], place: Place) -> bool
    requires { 8 ≤ length octets.now }
    ensures { result ≡ is_other_version place octets.now }
{
    octets[0] != VERSION && !passes_in_any_version(octets, place)
}

// Whether this is a Serial Notify before the first Cache Response (RFC 8210 section 7).
fn passes_in_any_version(octets: &[u8], place: Place) -> bool
    requires { 8 ≤ length octets.now }
    ensures { result ≡ is_lenient place octets.now }
{
    place.end == End::Client
        && !place.has_response
        && octets[1] == PduType::SerialNotify.octet()
        && length_told(octets) == 12
}

fn version_fault(place: Place) -> ErrorCode
    ensures { result ≡ version_code place.is_first }
{
    if place.is_first {
        ErrorCode::UnsupportedVersion
    } else {
        ErrorCode::UnexpectedVersion
    }
}
