//! What waits of a prefix.

/// What waits of a prefix for a peer.
#[derive(Clone, Copy, Debug, PartialEq, Eq)]
pub enum Owed {
    Withdrawal,
    Announcement,
}
