//! The message at the front of a stream of octets (RFC 4271 section 4.1).
ghost use Rattle.std.specs.Prelude.{◌≡◌, ◌≤◌, ◌<◌, ◌+◌, ◌↔◌, MatchResult, Some, None, length, slice_index};
ghost use Rattle.bgp_msg.specs.MessageSpelling.{kind_at, kind_octet, is_lawful_length, told_length, has_marker};
ghost use Rattle.bgp_msg.specs.MessageFaults.{header_fault};
ghost use Rattle.bgp_msg.specs.MessageStream.{Tells, Wants, IsSpelled, IsFront, needed_of};
ghost use Rattle.bgp_msg.specs.MessageLimits.{max_message};

use crate::fault::HeaderFault;
use byteorder::{BigEndian, ByteOrder};

/// The most octets of a message, the header among them.
pub const MAX_MESSAGE: usize = 4096;

/// The octets of a header: 16 of the marker, 2 of the length, 1 of the type.
pub const HEADER_OCTETS: usize = 19;

const MARKER_OCTETS: usize = 16;

/// What a message is (RFC 4271 section 4.1).
#[derive(Clone, Copy, Debug, PartialEq, Eq)]
pub enum MessageType {
    Open,
    Update,
    Notification,
    Keepalive,
    /// The peer asks for routes again (RFC 2918 section 3).
    RouteRefresh,
}

/// A whole message: its type, and the octets behind its header.
#[derive(Clone, Copy, Debug, PartialEq, Eq)]
pub struct Frame<'a> {
    pub kind: MessageType,
    pub body: &'a [u8],
}

/// What stands at the front of a stream.
#[derive(Clone, Copy, Debug, PartialEq, Eq)]
pub enum Step<'a> {
    /// No whole message yet, and no fault so far.
    Need,
    /// A message, and how many octets it takes.
    Message(Frame<'a>, usize),
    /// A header that begins no message.
    Faulty(HeaderFault),
}

// A header without a fault.
#[derive(Clone, Copy)]
struct Header {
    kind: MessageType,
    length: usize,
}

impl MessageType {
    /// The type of this octet.
    pub fn from_octet(octet: u8) -> Option<MessageType>
        ensures { result ≡ kind_at octet }
    {
        match octet {
            1 => Some(MessageType::Open),
            2 => Some(MessageType::Update),
            3 => Some(MessageType::Notification),
            4 => Some(MessageType::Keepalive),
            5 => Some(MessageType::RouteRefresh),
            _ => None,
        }
    }

    /// The octet of this type.
    pub fn octet(self) -> u8
        ensures { result ≡ kind_octet self }
    {
        match self {
            MessageType::Open => 1,
            MessageType::Update => 2,
            MessageType::Notification => 3,
            MessageType::Keepalive => 4,
            MessageType::RouteRefresh => 5,
        }
    }

    // Whether a message of this type may have this length.
    fn allows(self, length: usize) -> bool
        ensures { result ≡ is_lawful_length self length }
    {
        match self {
            MessageType::Open => length >= 29,
            MessageType::Update => length >= 23,
            MessageType::Notification => length >= 21,
            MessageType::Keepalive => length == 19,
            MessageType::RouteRefresh => length == 23,
        }
    }
}

/// The message at the front of the octets. A header is judged once its 19 octets are there, and then the whole
/// message is waited for (RFC 4271 section 6.1).
pub fn read(octets: &[u8]) -> Step<'_>
    ensures tells { Tells octets.now result }
    ensures spelled { IsSpelled octets.now result }
    ensures stream { IsFront octets.now result }
{
    front(octets)
}

/// How many more octets the message at the front wants before `read` answers anything but `Need`: up to the
/// end of its header, then to its end. 0 where `read` answers already.
pub fn needed(octets: &[u8]) -> usize
    ensures value { result ≡ needed_of octets.now }
    ensures wants { (1 ≤ result) ↔ Wants octets.now }
    ensures fits { 1 ≤ result → length octets.now + result ≤ max_message }
{
    if octets.len() < HEADER_OCTETS {
        return HEADER_OCTETS - octets.len();
    }
    match read_header(octets) {
        Ok(header) => header.length.saturating_sub(octets.len()),
        Err(_) => 0,
    }
}

// What the header at the front tells, and the octets behind it.
fn front(octets: &[u8]) -> Step<'_>
    ensures { Tells octets.now result }
{
    if octets.len() < HEADER_OCTETS {
        return Step::Need;
    }
    let header = match read_header(octets) {
        Ok(header) => header,
        Err(fault) => return Step::Faulty(fault),
    };
    if octets.len() < header.length {
        return Step::Need;
    }
    let body = &octets[HEADER_OCTETS..header.length];
    Step::Message(
        Frame {
            kind: header.kind,
            body,
        },
        header.length,
    )
}

// The header at the front, or its first fault.
#[tactic(auto, unfolding(crate::specs::MessageFaults::header_fault))]
fn read_header(octets: &[u8]) -> Result<Header, HeaderFault>
    requires { 19 ≤ length octets.now }
    ensures fault { MatchResult result (λ _. header_fault octets.now ≡ None) (λ fault. header_fault octets.now ≡ Some fault) }
    ensures kind { MatchResult result (λ header. kind_at (slice_index octets.now 18) ≡ Some header.kind) (λ _. Unit {0}) }
    ensures length { MatchResult result (λ header. (header.length ≡ told_length octets.now) × (19 ≤ header.length) × (header.length ≤ max_message)) (λ _. Unit {0}) }
{
    if !begins_with_marker(octets) {
        return Err(HeaderFault::ConnectionNotSynchronized);
    }
    let told = BigEndian::read_u16(&octets[MARKER_OCTETS..]);
    let length = usize::from(told);
    if length < HEADER_OCTETS || length > MAX_MESSAGE {
        return Err(HeaderFault::BadMessageLength(told));
    }
    let Some(kind) = MessageType::from_octet(octets[18]) else {
        return Err(HeaderFault::BadMessageType(octets[18]));
    };
    if !kind.allows(length) {
        return Err(HeaderFault::BadMessageLength(told));
    }
    Ok(Header { kind, length })
}

// Whether all bits of the first 16 octets are set.
#[tactic(auto, using(std::proofs::lemmas::List::Folds::list_all_kept), unfolding(crate::specs::MessageSpelling::has_marker))]
fn begins_with_marker(octets: &[u8]) -> bool
    requires { 16 ≤ length octets.now }
    ensures { result ≡ has_marker octets.now }
{
    for octet in &octets[..MARKER_OCTETS] {
        if *octet != 255 {
            return false;
        }
    }
    true
}
