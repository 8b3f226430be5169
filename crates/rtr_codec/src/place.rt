//! Where on a connection a PDU stands.

/// An end of a connection.
#[derive(Clone, Copy, Debug, PartialEq, Eq)]
pub enum End {
    Cache,
    Client,
}

/// What the fault of a PDU depends on beside its octets.
#[derive(Clone, Copy, Debug, PartialEq, Eq)]
pub struct Place {
    /// The end that reads.
    pub end: End,
    /// Whether no PDU came before it on its connection.
    pub is_first: bool,
    /// Whether a Cache Response came before it on its connection.
    pub has_response: bool,
}
