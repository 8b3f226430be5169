//! IPv4 prefixes, AS numbers and payloads: their order, their cover, their octets and their text.
//!
//! One prefix covers another where it is no longer and both addresses, divided by 2^(32 - length), give one
//! quotient (RFC 6811 section 2). What a prefix covers is one stretch of the order, which it begins, and of two that
//! cover a third one covers the other. `read_prefix` reads the octets of RFC 4271 section 4.3 and `Prefix::parse` the
//! text of RFC 4632 section 3.1; each says exactly which fault comes when, and reads back what `to_octets` and
//! `Display` write. A `Vrp` is a validated payload, whose maximum length lies between the prefix length and 32; a
//! set of payloads is a `BTreeSet<Vrp>`, by prefix, maximum length and AS. No call takes memory, and there are no
//! IPv6 prefixes.
#![tactic(auto)]

mod asn;
mod cover_laws;
mod fault;
mod payload;
mod payload_set;
mod prefix;
mod spelling;
mod text;
mod transport;

pub use asn::Asn;
pub use cover_laws::{covered_are_one_stretch, covering_are_nested};
pub use fault::PrefixFault;
pub use payload::Vrp;
pub use payload_set::{payloads_are_ordered, sets_are_their_members};
pub use prefix::Prefix;
pub use spelling::{read_prefix, written_is_read};
pub use text::printed_is_parsed;
pub use transport::Transport;
