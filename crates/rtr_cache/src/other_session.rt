//! What a Serial Query of another session is answered with.

/// What a cache answers a Serial Query of another session with.
#[derive(Clone, Copy, Debug, PartialEq, Eq)]
pub enum OtherSession {
    /// An Error Report of corrupt data, behind which the connection closes (RFC 8210 section 5.1).
    Report,
    /// A Cache Reset, as where the serial isn't kept (RFC 8210 section 5.9). Own choice: DECISIONS.md, "Another session
    /// may be answered by a Cache Reset".
    Reset,
}
