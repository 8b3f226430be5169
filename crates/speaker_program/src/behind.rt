//! What a log sees of a loop behind a turn.

use crate::standing::{payload_count, route_count};
use bgp_fsm::State;
use decision::Book;
use rtr_client::ClientState;
use speaker_log::Shown;
use speaker_turns::SpeakerLoop;
use std::alloc::Global;
use watched_wires::{Watched, WireEvent};
use wires::Wire;

/// A loop behind a turn.
#[derive(Drop)]
pub(crate) struct Behind<'a, W: Wire, B: Book<Global>> {
    pub served: &'a SpeakerLoop<W, Global, B>,
}

impl<W: Wire + Watched + Drop, B: Book<Global>> Shown for Behind<'_, W, B> {
    fn session(&self, slot: u8) -> Option<State> {
        self.served.speaker().session(slot)
    }

    fn cache_session(&self) -> Option<ClientState> {
        self.served.speaker().cache_session()
    }

    fn has_payloads(&self) -> bool {
        self.served.speaker().payloads().next().is_some()
    }

    fn payloads(&self) -> u64 {
        payload_count(self.served.speaker())
    }

    fn routes(&self) -> u64 {
        route_count(self.served.speaker())
    }

    fn lost(&self) -> u64 {
        self.served.lost()
    }

    fn closed(&self) -> u64 {
        self.served.closed()
    }

    fn octets_in(&self) -> u64 {
        self.served.wire().octets_in()
    }

    fn octets_out(&self) -> u64 {
        self.served.wire().octets_out()
    }

    fn seen(&self) -> &[WireEvent] {
        self.served.wire().seen()
    }

    fn left_out(&self) -> u64 {
        self.served.wire().left_out()
    }
}
