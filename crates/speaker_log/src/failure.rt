//! Attempts at a connection that fail.

use connect_faults::ConnectFault;
use watched_wires::Seen;
use wires::Parting;

/// Why no connection came of an attempt.
#[derive(Clone, Copy, Debug, PartialEq, Eq)]
pub enum Failure {
    /// None could be begun.
    NoAttempt,
    /// It failed.
    Failed(ConnectFault),
    /// The connection that came was closed.
    Refused(Parting),
    /// It ended otherwise.
    Ended(Parting),
}

/// What was seen, where it says that no connection came of an attempt.
pub fn failure_of(seen: Seen) -> Option<Failure> {
    match seen {
        Seen::NoAttempt => Some(Failure::NoAttempt),
        Seen::AttemptFailed(cause) => Some(Failure::Failed(cause)),
        Seen::Refused(parting) => Some(Failure::Refused(parting)),
        Seen::AttemptEnded(parting) => Some(Failure::Ended(parting)),
        Seen::Ended(_) | Seen::Received(_) | Seen::Sent(_) => None,
    }
}
