//! Readings of the list that operators ask for.

/// A reading of the list that an operator asks for.
#[derive(Clone, Copy, Debug, PartialEq, Eq)]
pub enum Reading {
    /// The list is read at once.
    Reread,
    /// It is read at once, and served in spite of the guards where it is as large as the one that they refused last.
    Accept,
}
