//! PDUs of the RPKI-to-Router protocol, version 1: cut out of a stream of octets, read and written (RFC 8210
//! sections 5 and 12).
//!
//! A stream is its PDUs one after another and then what is unread, and it is so in no other way; the pieces in which
//! it comes are no part of that, and a fault ends it. `read` answers what stands at the front of a stream for the end
//! that reads it: the first PDU, its fault, or that more octets are needed. A `Receiver` keeps what came and no PDU has
//! taken. What `write` writes is read again as that PDU, whatever follows it, and octets are read as a PDU exactly where
//! they spell it, field by field (`specs/SpelledPdus.antt`). What a cache answers a query with is defined here too: a
//! response leads from the old set to that of its version. Nothing here takes memory or sends.
#![tactic(auto)]

mod fault;
mod header;
mod intervals;
mod pdu;
mod place;
mod reading;
mod receiving;
mod responses;
mod stream;
mod writing;

pub use fault::{ErrorCode, PduFault};
pub use header::{HEADER_OCTETS, MAX_PDU, PduType};
pub use intervals::Intervals;
pub use pdu::Pdu;
pub use place::{End, Place};
pub use reading::{Step, needed, read};
pub use receiving::Receiver;
pub use responses::{response_gives_the_version, response_is_short};
pub use stream::{
    fault_ends_the_stream, items_are_pdus_or_faults, no_pdu_begins_another, only_pdus,
    pdu_is_spelled, pieces_are_the_stream, spelling_length, stream_goes_on, wanted_is_unread,
    written_is_read,
};
pub use writing::write;
