//! The inputs that the session table has rows for.

use crate::timers::Timer;
use bgp_msg::{Notification, Open};

/// An input of a session (the events of RFC 4271 section 8.1 that this profile has). A NOTIFICATION borrows
/// its data, which may be a whole attribute.
#[derive(Debug, Drop)]
pub enum Input<'a> {
    /// The operator enables the peer.
    Start,
    /// The operator disables the peer.
    Disable,
    /// The operator removes the peer.
    Remove,
    /// The connection stands.
    Up,
    /// The connection, or the attempt, has failed.
    Fail,
    /// An OPEN without fault has come to a session that awaits it.
    Open(Open),
    /// An OPEN has come to a session that doesn't await it; its body isn't read.
    UnexpectedOpen,
    /// A KEEPALIVE has come.
    Keepalive,
    /// An UPDATE has come: without fault, or to a session that isn't Established, and then its body isn't read.
    Update,
    /// A ROUTE-REFRESH has come (RFC 2918 section 3), and whether it asks for IPv4 unicast.
    RouteRefresh(bool),
    /// A NOTIFICATION has come, and this is what it says.
    Notification(Notification<'a>),
    /// A faulty message has come, and this tells its fault.
    Fault(Notification<'a>),
    /// Memory was refused to what the session needs.
    NoMemory,
    /// A timer has ended.
    Expires(Timer),
}
