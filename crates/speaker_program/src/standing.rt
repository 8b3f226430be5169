//! How a loop stands behind a turn.

use bgp_conf::PEER_SLOTS;
use bgp_fsm::State;
use decision::Book;
use rtr_client::ClientState;
use speaker::Speaker;
use speaker_figures::{CacheStates, SessionStates};
use speaker_turns::SpeakerLoop;
use speaker_watch::Standing;
use std::alloc::Global;
use watched_wires::Watched;
use wires::Wire;

// More rows than a table has, since each takes memory.
const MAX_ROWS: usize = usize::MAX;

/// How it stands, as far as that is told without going over its routes.
pub(crate) fn standing_of<W: Wire + Watched + Drop, B: Book<Global>>(
    served: &SpeakerLoop<W, Global, B>,
) -> Standing {
    let wire = served.wire();
    Standing {
        sessions: sessions_of(served.speaker()),
        cache: cache_of(served.speaker().cache_session()),
        octets_in: wire.octets_in(),
        octets_out: wire.octets_out(),
        lost: served.lost(),
        closed: served.closed(),
    }
}

// How many sessions of peers are in each state.
fn sessions_of<B: Book<Global>>(speaker: &Speaker<Global, B>) -> SessionStates {
    let mut states = SessionStates::NONE;
    for slot in 0..PEER_SLOTS {
        if let Some(state) = speaker.session(slot) {
            let count = match state {
                State::Idle => &mut states.idle,
                State::Connect => &mut states.connect,
                State::Active => &mut states.active,
                State::OpenSent => &mut states.open_sent,
                State::OpenConfirm => &mut states.open_confirm,
                State::Established => &mut states.established,
            };
            *count = count.saturating_add(1);
        }
    }
    states
}

// The state of the session with the cache.
fn cache_of(state: Option<ClientState>) -> CacheStates {
    let mut states = CacheStates::NONE;
    match state {
        None => {}
        Some(ClientState::Off) => states.off = 1,
        Some(ClientState::Opening) => states.opening = 1,
        Some(ClientState::Asked) => states.asked = 1,
        Some(ClientState::Loading) => states.loading = 1,
        Some(ClientState::Synced) => states.synced = 1,
        Some(ClientState::Wait) => states.wait = 1,
    }
    states
}

/// How many payloads are in force.
pub(crate) fn payload_count<B: Book<Global>>(speaker: &Speaker<Global, B>) -> u64 {
    let mut count = 0u64;
    for _payload in speaker.payloads().take(MAX_ROWS) {
        count = count.saturating_add(1);
    }
    count
}

/// How many prefixes have a best route.
pub(crate) fn route_count<B: Book<Global>>(speaker: &Speaker<Global, B>) -> u64 {
    let mut count = 0u64;
    for _route in speaker.loc_rib().take(MAX_ROWS) {
        count = count.saturating_add(1);
    }
    count
}
