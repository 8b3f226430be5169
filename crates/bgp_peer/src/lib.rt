//! One slot: its session, the unread rest of its stream and its output ring.
//!
//! What each thing that happens to a slot makes of it is one definition of `specs/Slot.antt`: the peer is enabled,
//! disabled or removed, its connection stands or fails, a timer of it ends, memory is refused, octets come, a message is
//! taken for an input, a message is queued, octets are handed out. The session's rows are those of `bgp_fsm`, the
//! messages those of `bgp_msg`. What a row says is queued only where `ROOM_FOR_UPDATE` octets are free, but for a
//! NOTIFICATION, which is queued whatever is free: it always fits, since nothing else leaves fewer than 4,096 octets, and
//! a session that told one says nothing more on its connection. Only `Peer::new` takes memory.
//!
//! A history is all that happened to a slot. `specs/SessionInputs.antt` says what it is to the session,
//! `specs/SentMessages.antt` what was queued and handed out. Each call keeps the slot as any history leaves it
//! (`PeerAgrees` of `specs/Agreement.antt`): the history goes on by what the call did.
#![tactic(auto)]

mod laws;
mod peer;

pub use laws::{
    nothing_is_left_untaken, octets_are_ignored, octets_are_messages, pieces_join,
    queued_is_read_last, rows_say_no_update, sent_are_messages, written_is_update,
};
pub use peer::{Peer, RING_OCTETS, ROOM_FOR_UPDATE};
