//! What the transport of a session does.

/// What stands between a session and its connection: a function of the session's state.
#[derive(Clone, Copy, Debug, PartialEq, Eq)]
pub enum Transport {
    /// There is no connection, and none is awaited.
    None,
    /// A connection attempt of our own has begun.
    Opening,
    /// The other side's connection is awaited.
    Listening,
    /// The connection carries the session.
    Open,
    /// The session has ended. What is queued can still be taken, and what comes is dropped.
    Closing,
}
