//! The PDU at the front of a stream of octets (RFC 8210 section 5).
ghost use Rattle.std.specs.Prelude.{◌≡◌, ◌≤◌, ◌+◌, ◌↔◌, length, take, drop};
ghost use Rattle.std.specs.Option.{option_map};
ghost use Rattle.rtr_codec.specs.PduContents.{content_by, four_at, payload_at, payload_of};
ghost use Rattle.rtr_codec.specs.PduSpelling.{content_of};
ghost use Rattle.rtr_codec.specs.PduStream.{IsFront, Tells, Wants, needed_of};
ghost use Rattle.rtr_codec.specs.PduTypes.{least_length};
ghost use Rattle.rtr_codec.specs.SpelledPdus.{IsSpelled};
ghost use Rattle.rtr_codec.specs.PduLimits.{max_pdu};

use crate::fault::PduFault;
use crate::header::{HEADER_OCTETS, PduType, read_header, u16_at, u32_at};
use crate::intervals::Intervals;
use crate::pdu::Pdu;
use crate::place::Place;
use net_prefix::{Asn, Prefix, Vrp};

/// What stands at the front of a stream.
#[derive(Clone, Copy, Debug, PartialEq, Eq)]
pub enum Step<'a> {
    /// No whole PDU yet, and no fault so far.
    Need,
    /// A PDU, and how many octets it takes.
    Whole(Pdu<'a>, usize),
    /// What begins no PDU, and the octets at fault: of a header its 8, of an IPv4 Prefix all of it.
    Faulty(PduFault, &'a [u8]),
}

/// The PDU at the front of the octets. A header is judged once its 8 octets are there, and then the whole PDU is
/// waited for.
pub fn read(octets: &[u8], place: Place) -> Step<'_>
    ensures tells { Tells place octets.now result }
    ensures stream { IsFront place octets.now result }
    ensures spelled { IsSpelled place octets.now result }
{
    front(octets, place)
}

/// How many more octets the PDU at the front wants before `read` answers anything but `Need`: up to the end of its
/// header, then to its end. 0 where `read` answers already.
pub fn needed(octets: &[u8], place: Place) -> usize
    ensures value { result ≡ needed_of place octets.now }
    ensures wants { (1 ≤ result) ↔ Wants place octets.now }
    ensures fits { 1 ≤ result → length octets.now + result ≤ max_pdu }
{
    if octets.len() < HEADER_OCTETS {
        return HEADER_OCTETS - octets.len();
    }
    match read_header(octets, place) {
        Ok(header) => header.length.saturating_sub(octets.len()),
        Err(_) => 0,
    }
}

// What stands at the front.
fn front(octets: &[u8], place: Place) -> Step<'_>
    ensures { Tells place octets.now result }
{
    if octets.len() < HEADER_OCTETS {
        return Step::Need;
    }
    let header = match read_header(octets, place) {
        Ok(header) => header,
        Err(fault) => return Step::Faulty(fault, &octets[..HEADER_OCTETS]),
    };
    if octets.len() < header.length {
        return Step::Need;
    }
    let whole = &octets[..header.length];
    match read_pdu(header.kind, whole) {
        Some(pdu) => Step::Whole(pdu, header.length),
        None => Step::Faulty(PduFault::Payload, whole),
    }
}

// What a whole PDU of a type says; none where its payload is faulty.
fn read_pdu(kind: PduType, octets: &[u8]) -> Option<Pdu<'_>>
    requires { least_length kind ≤ length octets.now }
    ensures { option_map content_of result ≡ content_by octets.now kind }
{
    match kind {
        PduType::SerialNotify => Some(Pdu::SerialNotify {
            session: u16_at(octets, 2),
            serial: u32_at(octets, 8),
        }),
        PduType::SerialQuery => Some(Pdu::SerialQuery {
            session: u16_at(octets, 2),
            serial: u32_at(octets, 8),
        }),
        PduType::ResetQuery => Some(Pdu::ResetQuery),
        PduType::CacheResponse => Some(Pdu::CacheResponse {
            session: u16_at(octets, 2),
        }),
        PduType::Ipv4Prefix => read_change(octets),
        PduType::Ipv6Prefix => Some(Pdu::Ipv6Prefix(&octets[HEADER_OCTETS..])),
        PduType::EndOfData => Some(read_end_of_data(octets)),
        PduType::CacheReset => Some(Pdu::CacheReset),
        PduType::RouterKey => Some(Pdu::RouterKey(&octets[HEADER_OCTETS..])),
        PduType::ErrorReport => Some(Pdu::ErrorReport {
            code: u16_at(octets, 2),
            quoted: read_quoted(octets),
        }),
    }
}

// An IPv4 Prefix; none where it has no payload (RFC 8210 section 5.6).
fn read_change(octets: &[u8]) -> Option<Pdu<'_>>
    requires { 20 ≤ length octets.now }
    ensures { option_map content_of result ≡ content_by octets.now PduType.Ipv4Prefix }
{
    let payload = read_payload(
        u32_at(octets, 12),
        octets[9],
        octets[10],
        u32_at(octets, 16),
    )?;
    if octets[8] % 2 == 1 {
        Some(Pdu::Announcement(payload))
    } else {
        Some(Pdu::Withdrawal(payload))
    }
}

// The payload of these numbers, where they are one.
fn read_payload(bits: u32, len: u8, max_len: u8, asn: u32) -> Option<Vrp>
    ensures { result ≡ payload_of bits len max_len asn }
{
    match Prefix::new(bits, len) {
        Ok(prefix) => Vrp::new(prefix, max_len, Asn(asn)).ok(),
        Err(_) => None,
    }
}

// An End of Data (RFC 8210 section 5.8).
fn read_end_of_data(octets: &[u8]) -> Pdu<'_>
    requires { 24 ≤ length octets.now }
    ensures { Some (content_of result) ≡ content_by octets.now PduType.EndOfData }
{
    Pdu::EndOfData {
        session: u16_at(octets, 2),
        serial: u32_at(octets, 8),
        intervals: Intervals {
            refresh: u32_at(octets, 12),
            retry: u32_at(octets, 16),
            expire: u32_at(octets, 20),
        },
    }
}

// What an Error Report quotes, as much of it as is there (RFC 8210 section 5.11).
fn read_quoted(octets: &[u8]) -> &[u8]
    requires { 16 ≤ length octets.now }
    ensures { result.now ≡ take (four_at octets.now 8) (drop 12 octets.now) }
{
    let told = u32_at(octets, 8) as usize;
    let rest = &octets[12..];
    if told < rest.len() {
        &rest[..told]
    } else {
        rest
    }
}
