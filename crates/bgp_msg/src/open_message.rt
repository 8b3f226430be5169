//! The OPEN message (RFC 4271 section 4.2) with the capability of AS numbers of four octets (RFC 6793).
ghost use Rattle.std.specs.Prelude.{◌≡◌, ◌<◌, ◌≤◌, ◌↔◌, ℕ, List, IfOk, IfSome, MatchResult, Some, None, length};
ghost use Rattle.std.specs.Option.{option_map};
ghost use Rattle.bgp_msg.specs.MessageSpelling.{Part, four_octet_as_capability, unicast_if, part_at, parts_of, parts_form, asn_in, asn_told, or_else};
ghost use Rattle.bgp_msg.specs.OpenParts.{number, seen, asn_behind, parameter_behind, parameters_of, proposal_fault, fault_found};
ghost use Rattle.bgp_msg.specs.MessageFaults.{open_fault, hold_time_at, identifier_at};

use crate::fault::OpenFault;
use byteorder::{BigEndian, ByteOrder};
use net_prefix::Asn;

/// The version of BGP that is spoken.
pub(crate) const BGP_VERSION: u8 = 4;

/// The type of an optional parameter that holds capabilities (RFC 5492 section 4).
pub(crate) const CAPABILITIES: u8 = 2;

// The octets of a body before its optional parameters.
const FIXED_OCTETS: usize = 10;

/// The code of the capability of AS numbers of four octets (RFC 6793 section 3).
pub(crate) const FOUR_OCTET_AS: u8 = 65;

/// The capability of asking for routes again (RFC 2918 section 2): its code, and the length of its value.
pub(crate) const ROUTE_REFRESH: [u8; 2] = [2, 0];

// The capability of IPv4 unicast (RFC 4760 section 8): its code, the length of its value, AFI 1, an octet of 0, SAFI 1.
const UNICAST: [u8; 6] = [1, 4, 0, 1, 0, 1];

/// What an OPEN says.
#[derive(Clone, Copy, Debug, PartialEq, Eq)]
pub struct Open {
    /// The sender's AS, as its capability tells it.
    pub asn: Asn,
    /// The hold time that the sender proposes, in seconds.
    pub hold_time: u16,
    /// The sender's BGP Identifier.
    pub identifier: u32,
}

/// What this side's OPEN says.
#[derive(Clone, Copy, Debug, PartialEq, Eq)]
pub struct OwnOpen {
    /// This side's AS, which a capability tells.
    pub asn: Asn,
    /// The hold time that this side proposes, in seconds.
    pub hold_time: u16,
    /// This side's BGP Identifier.
    pub identifier: u32,
    /// Whether a capability tells that routes of IPv4 unicast are exchanged (RFC 4760 section 8).
    pub multiprotocol: bool,
}

/// What an OPEN is judged against.
#[derive(Clone, Copy, Debug, PartialEq, Eq)]
pub struct Expected {
    /// The AS that the peer is configured with.
    pub peer_asn: Asn,
    pub own_asn: Asn,
    pub own_identifier: u32,
}

// What the optional parameters hold.
#[derive(Clone, Copy)]
struct Parameters {
    only_capabilities: bool,
    asn: Option<Asn>,
}

/// The OPEN of this body, or its first fault (RFC 4271 section 6.2). Own choice: the order of the checks, which
/// is the order of the lines; and a body that ends within its fixed fields is malformed.
pub fn read_open(body: &[u8], expected: Expected) -> Result<Open, OpenFault>
    ensures fault { MatchResult result (λ _. open_fault body.now expected ≡ None) (λ fault. open_fault body.now expected ≡ Some fault) }
    ensures hold_time { IfOk result (λ message. message.hold_time ≡ hold_time_at body.now) }
    ensures identifier { IfOk result (λ message. message.identifier ≡ identifier_at body.now) }
    ensures asn { IfOk result (λ message. message.asn ≡ expected.peer_asn) }
{
    judge_open(body, expected)
}

/// Octets are optional parameters, or capabilities, exactly where they are these one after another.
pub fn only_parts()
    ensures { (octets : List ℕ) (parts : List Part) → (parts_of octets ≡ Some parts) ↔ (octets ≡ parts_form parts) }
{}

#[tactic(auto, unfolding(crate::specs::OpenParts::fault_found))]
fn judge_open(body: &[u8], expected: Expected) -> Result<Open, OpenFault>
    ensures fault { MatchResult result (λ _. fault_found body.now expected ≡ None) (λ fault. fault_found body.now expected ≡ Some fault) }
    ensures hold_time { IfOk result (λ message. message.hold_time ≡ hold_time_at body.now) }
    ensures identifier { IfOk result (λ message. message.identifier ≡ identifier_at body.now) }
    ensures asn { IfOk result (λ message. message.asn ≡ expected.peer_asn) }
{
    if body.len() < FIXED_OCTETS {
        return Err(OpenFault::MalformedParameters);
    }
    if body[0] != BGP_VERSION {
        return Err(OpenFault::UnsupportedVersion);
    }
    if usize::from(body[9]) + FIXED_OCTETS != body.len() {
        return Err(OpenFault::MalformedParameters);
    }
    let Some(told) = read_parameters(&body[FIXED_OCTETS..]) else {
        return Err(OpenFault::MalformedParameters);
    };
    let hold_time = hold_time_in(body);
    let identifier = identifier_in(body);
    judge_proposal(told, hold_time, identifier, expected)
}

// The hold time in the fixed octets.
fn hold_time_in(body: &[u8]) -> u16
    requires { 10 ≤ length body.now }
    ensures { result ≡ hold_time_at body.now }
{
    BigEndian::read_u16(&body[3..])
}

// The BGP Identifier in the fixed octets.
fn identifier_in(body: &[u8]) -> u32
    requires { 10 ≤ length body.now }
    ensures { result ≡ identifier_at body.now }
{
    BigEndian::read_u32(&body[5..])
}

/// The octets of the capability that tells an AFI and a SAFI (RFC 4760 section 8), 1 and 1 for IPv4 unicast, where it is
/// asked for.
pub(crate) fn unicast(multiprotocol: bool) -> &'static [u8]
    ensures octets { result.now ≡ unicast_if multiprotocol }
    ensures most { length result.now ≤ 6 }
{
    if multiprotocol { &UNICAST } else { &[] }
}

/// The octets of the capability that tells an AS number of four octets (RFC 6793 section 3).
pub(crate) fn four_octet_as(asn: Asn) -> [u8; 6]
    ensures { result ≡ four_octet_as_capability asn.0 }
{
    let mut octets = [FOUR_OCTET_AS, 4, 0, 0, 0, 0];
    BigEndian::write_u32(&mut octets[2..], asn.0);
    octets
}

// The OPEN that proposes this, or its first fault.
#[tactic(auto, unfolding(crate::specs::OpenParts::proposal_fault))]
fn judge_proposal(
    told: Parameters,
    hold_time: u16,
    identifier: u32,
    expected: Expected,
) -> Result<Open, OpenFault>
    ensures fault { MatchResult result (λ _. proposal_fault (seen told) hold_time identifier expected ≡ None) (λ fault. proposal_fault (seen told) hold_time identifier expected ≡ Some fault) }
    ensures value { IfOk result (λ message. (message.hold_time ≡ hold_time) × (message.identifier ≡ identifier) × (message.asn ≡ expected.peer_asn)) }
{
    if !told.only_capabilities {
        return Err(OpenFault::UnsupportedParameter);
    }
    let Some(asn) = told.asn else {
        return Err(OpenFault::UnsupportedCapability(expected.own_asn));
    };
    if asn != expected.peer_asn {
        return Err(OpenFault::BadPeerAs);
    }
    if identifier == 0 || identifier == expected.own_identifier {
        return Err(OpenFault::BadIdentifier);
    }
    if hold_time == 1 || hold_time == 2 {
        return Err(OpenFault::UnacceptableHoldTime);
    }
    Ok(Open {
        asn,
        hold_time,
        identifier,
    })
}

// The optional parameters; none where one is cut off or holds a malformed list of capabilities.
#[tactic(auto, unfolding(crate::specs::OpenParts::parameters_of))]
fn read_parameters(octets: &[u8]) -> Option<Parameters>
    ensures { option_map seen result ≡ parameters_of octets.now }
{
    let mut told = Parameters {
        only_capabilities: true,
        asn: None,
    };
    let mut rest = octets;
    while !rest.is_empty() {
        let (kind, value, behind) = split_part(rest)?;
        told = read_parameter(told, kind, value)?;
        rest = behind;
    }
    Some(told)
}

// What the parameters tell with one more.
fn read_parameter(told: Parameters, kind: u8, value: &[u8]) -> Option<Parameters>
    ensures { option_map seen result ≡ parameter_behind (seen told) (record { kind = kind; value = value.now }) }
{
    if kind != CAPABILITIES {
        return Some(Parameters {
            only_capabilities: false,
            asn: told.asn,
        });
    }
    let asn = read_capabilities(value, told.asn)?;
    Some(Parameters {
        only_capabilities: told.only_capabilities,
        asn,
    })
}

// The AS that was found before, or else the one that the capabilities tell first; none where one is cut off.
fn read_capabilities(octets: &[u8], known: Option<Asn>) -> Option<Option<Asn>>
    ensures { option_map (option_map number) result ≡ asn_behind (option_map number known) (parts_of octets.now) }
{
    let mut found = known;
    let mut rest = octets;
    while !rest.is_empty() {
        let (code, value, behind) = split_part(rest)?;
        found = first_asn_of(found, code, value);
        rest = behind;
    }
    Some(found)
}

// The AS that was found before, or else the one that the capability tells.
fn first_asn_of(known: Option<Asn>, code: u8, value: &[u8]) -> Option<Asn>
    ensures { option_map number result ≡ or_else (option_map number known) (asn_told (record { kind = code; value = value.now })) }
{
    if known.is_some() || code != FOUR_OCTET_AS {
        return known;
    }
    asn_of(value)
}

// The AS number that four octets tell.
fn asn_of(value: &[u8]) -> Option<Asn>
    ensures { option_map number result ≡ asn_in value.now }
{
    if value.len() != 4 {
        return None;
    }
    Some(Asn(BigEndian::read_u32(value)))
}

// A parameter or capability at the front: its type, its value, and the octets behind it.
fn split_part(octets: &[u8]) -> Option<(u8, &[u8], &[u8])>
    ensures part { part_at octets.now ≡ option_map (λ part. (record { kind = part.0; value = part.1.now }, part.2.now)) result }
    ensures shorter { IfSome result (λ part. length part.2.now < length octets.now) }
{
    let [kind, length, rest @ ..] = octets else {
        return None;
    };
    let (value, behind) = rest.split_at_checked(usize::from(*length))?;
    Some((*kind, value, behind))
}
