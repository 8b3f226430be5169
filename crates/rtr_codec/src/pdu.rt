//! PDUs.

use crate::intervals::Intervals;
use net_prefix::Vrp;

/// A PDU (RFC 8210 section 5).
#[derive(Clone, Copy, Debug, PartialEq, Eq)]
pub enum Pdu<'a> {
    SerialNotify {
        session: u16,
        serial: u32,
    },
    SerialQuery {
        session: u16,
        serial: u32,
    },
    ResetQuery,
    CacheResponse {
        session: u16,
    },
    /// An IPv4 Prefix with the flag of an announcement.
    Announcement(Vrp),
    /// An IPv4 Prefix without it.
    Withdrawal(Vrp),
    /// An IPv6 Prefix: the octets behind the header, which are not read.
    Ipv6Prefix(&'a [u8]),
    EndOfData {
        session: u16,
        serial: u32,
        intervals: Intervals,
    },
    CacheReset,
    /// A Router Key: the octets behind the header, which are not read.
    RouterKey(&'a [u8]),
    /// The error code, and what it quotes of the PDU at fault.
    ErrorReport {
        code: u16,
        quoted: &'a [u8],
    },
}
