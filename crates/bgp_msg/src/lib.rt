//! BGP-4 messages: cut out of a stream of octets, read and written (RFC 4271 sections 4 and 6).
//!
//! A stream is its messages one after another and then what is unread; the pieces in which it comes are no part of
//! that, and a faulty header ends it. `read` answers what stands at the front of a stream: the first message, the
//! fault of its header, or that more octets are needed, and says what is behind it. `read_open` and `read_update`
//! read a body to what it spells (RFC 5492, RFC 6793) or to the first fault of a list of tests. What the writers
//! write is read again as that message, whatever follows it. Nothing here keeps a state, and nothing here sends.
#![tactic(auto)]

mod fault;
mod frame;
mod notification;
mod open_message;
mod refresh;
mod stream;
mod update;
mod writing;

pub use fault::{Fault, HeaderFault, OpenFault};
pub use frame::{Frame, HEADER_OCTETS, MAX_MESSAGE, MessageType, Step, needed, read};
pub use notification::{Notification, SessionError};
pub use open_message::{Expected, Open, OwnOpen, only_parts, read_open};
pub use refresh::is_ipv4_unicast;
pub use stream::{
    keepalive_is_read, no_message_begins_another, notification_is_read, one_more_octet,
    one_spelling, only_messages, open_is_read, pieces_are_the_stream, stream_goes_on,
    update_is_read, written_is_read,
};
pub use update::{
    Prefixes, Update, only_prefixes, only_update, read_update, written_prefixes_are_read,
    written_update_is_read,
};
pub use writing::{
    write_announcement, write_keepalive, write_notification, write_open, write_withdrawal,
};
