//! What ends the turns.
use thiserror::Error;

/// Why a turn can't be made. It ends the program.
#[derive(Clone, Copy, Debug, PartialEq, Eq, Error)]
pub enum LoopFault {
    /// The wire can't accept connections.
    #[error("connections can't be accepted")]
    Accept,
}
