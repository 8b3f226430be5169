//! What a wire sees of routers.
use std::net::SocketAddr;
use thiserror::Error;
use wires::Parting;

/// What a wire sees of routers.
#[derive(Clone, Copy, Debug, PartialEq, Eq, Error)]
pub enum RouterEvent {
    /// One has come.
    #[error("router {0} came")]
    Came(SocketAddr),
    /// One has gone.
    #[error("router {0} went: {1}")]
    Went(SocketAddr, Parting),
    /// There are no descriptors for those that come.
    #[error("routers can't come: there are no descriptors for them")]
    NoDescriptors,
}
