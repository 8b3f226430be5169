//! What happens to a client.

use rtr_codec::{Pdu, PduFault};

/// What happens to a client.
#[derive(Clone, Copy, Debug, PartialEq, Eq)]
pub enum Input<'a> {
    /// The connection stands.
    Up,
    /// The connection, or the attempt, has failed.
    Fail,
    /// A PDU has come, with its octets.
    Heard { pdu: Pdu<'a>, octets: &'a [u8] },
    /// A faulty PDU has come, with the octets at fault.
    Faulty { fault: PduFault, octets: &'a [u8] },
    /// A moment has come.
    Tick,
    /// The query that the last row said finds too little room.
    NoRoom,
}
