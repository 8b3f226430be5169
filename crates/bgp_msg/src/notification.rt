//! The NOTIFICATION message: what it tells of each fault (RFC 4271 sections 4.5 and 6, RFC 4486).
ghost use Rattle.std.specs.Prelude.{◌≡◌, ◌≤◌, length, take};
ghost use Rattle.bgp_msg.specs.Notifications.{NotificationBody, error_code, error_subcode, error_notification, fault_notification, notification_body, notification_told, telling};

use crate::fault::Fault;
use crate::frame::MAX_MESSAGE;
use crate::writing::append;
use arrayvec::ArrayVec;
use std::marker::Model;

/// The most octets of the data of a NOTIFICATION: a message without its header, its code and its subcode.
pub(crate) const MAX_DATA: usize = 4075;

/// An error that ends a session and that no message holds (RFC 4271 sections 6.5 to 6.7, RFC 4486).
#[derive(Clone, Copy, Debug, PartialEq, Eq)]
pub enum SessionError {
    HoldTimerExpired,
    /// A message of a type that the state doesn't expect: the error of the finite state machine.
    UnexpectedMessage,
    AdministrativeShutdown,
    PeerDeconfigured,
    OutOfResources,
}

/// What a NOTIFICATION says: the code of an error, its subcode, and data that show it.
#[derive(Debug, Drop)]
pub struct Notification<'a> {
    code: u8,
    subcode: u8,
    // The data.
    octets: &'a [u8],
}

impl<'a> Model for Notification<'a> {
    ghost use Rattle.bgp_msg.specs.Notifications.{NotificationBody};

    ghost Value = { NotificationBody };

    ghost view = { λ n. record { code = n.code; subcode = n.subcode; octets = n.octets.now } };
}

impl SessionError {
    /// The error code.
    pub fn code(self) -> u8
        ensures { result ≡ error_code self }
    {
        match self {
            SessionError::HoldTimerExpired => 4,
            SessionError::UnexpectedMessage => 5,
            SessionError::AdministrativeShutdown
            | SessionError::PeerDeconfigured
            | SessionError::OutOfResources => 6,
        }
    }

    /// The error subcode.
    pub fn subcode(self) -> u8
        ensures { result ≡ error_subcode self }
    {
        match self {
            SessionError::HoldTimerExpired | SessionError::UnexpectedMessage => 0,
            SessionError::AdministrativeShutdown => 2,
            SessionError::PeerDeconfigured => 3,
            SessionError::OutOfResources => 8,
        }
    }
}

impl<'a> Notification<'a> {
    /// What tells an error that no message holds.
    pub fn of_error(error: SessionError) -> Self
        ensures { result ≡ error_notification error }
    {
        Notification {
            code: error.code(),
            subcode: error.subcode(),
            octets: &[],
        }
    }

    /// What tells a fault. Its data are written to `room`: of a longer attribute than any message holds, as much as one
    /// has room for. Want of memory is told as want of resources.
    pub fn of_fault(fault: &Fault<'_>, room: &'a mut ArrayVec<u8, MAX_MESSAGE>) -> Self
        ensures { result ≡ fault_notification fault.now }
    {
        match fault {
            Fault::Header(fault) => {
                let shown = fault.data();
                tell(fault.code(), fault.subcode(), shown.as_slice(), room)
            }
            Fault::Open(fault) => {
                let shown = fault.data();
                tell(fault.code(), fault.subcode(), shown.as_slice(), room)
            }
            Fault::Update(fault) => match (fault.code(), fault.subcode()) {
                (Some(code), Some(subcode)) => tell(code, subcode, fault.data(), room),
                _ => Notification::of_error(SessionError::OutOfResources),
            },
        }
    }

    /// What a NOTIFICATION says that has come, whose octets behind the header are these (RFC 4271 section 4.5). Its data are
    /// written to `room`.
    pub fn read(body: &[u8], room: &'a mut ArrayVec<u8, MAX_MESSAGE>) -> Self
        ensures told { result ≡ notification_told body.now }
        ensures written { (told : NotificationBody) → body.now ≡ notification_body told → result ≡ telling told.code told.subcode told.octets }
    {
        match body {
            [code, subcode, shown @ ..] => tell(*code, *subcode, shown, room),
            [code] => tell(*code, 0, &[], room),
            [] => tell(0, 0, &[], room),
        }
    }

    /// The same once more, over the same data.
    pub fn share(&self) -> Self
        ensures { result ≡ self.now }
    {
        Notification {
            code: self.code,
            subcode: self.subcode,
            octets: self.octets,
        }
    }

    /// The error code.
    pub fn code(&self) -> u8
        ensures { result ≡ self.now.code }
    {
        self.code
    }

    /// The error subcode.
    pub fn subcode(&self) -> u8
        ensures { result ≡ self.now.subcode }
    {
        self.subcode
    }

    /// The data.
    pub fn data(&self) -> &[u8]
        ensures { result.now ≡ self.now.octets }
    {
        self.octets
    }
}

// A code, a subcode, and what these octets show.
fn tell<'a>(
    code: u8,
    subcode: u8,
    shown: &[u8],
    room: &'a mut ArrayVec<u8, MAX_MESSAGE>,
) -> Notification<'a>
    ensures { result ≡ telling code subcode shown.now }
{
    room.clear();
    append(front(shown, MAX_DATA), room);
    Notification {
        code,
        subcode,
        octets: room.as_slice(),
    }
}

/// The first octets, so many of them at most.
pub(crate) fn front(octets: &[u8], most: usize) -> &[u8]
    ensures value { result.now ≡ take most octets.now }
    ensures short { length result.now ≤ most }
{
    &octets[..octets.len().min(most)]
}
