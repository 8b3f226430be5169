//! Since when sessions are in their states.

use bgp_conf::PEER_SLOTS;
use decision::Book;
use speaker::{Speaker, State};
use std::alloc::{AllocError, Global};

// The state of a slot's session when it was last looked at, and since when it is in it. A slot that isn't configured has none.
#[derive(Clone, Copy)]
struct StateTime {
    state: Option<State>,
    since: u64,
}

/// Since when each slot's session is in its state.
#[derive(Drop)]
pub struct StateTimes {
    times: Vec<StateTime>,
}

impl StateTimes {
    /// No session was looked at.
    pub fn new(alloc: Global) -> Result<StateTimes, AllocError> {
        let times = vec![in alloc; StateTime {
            state: None,
            since: 0
        }; usize::from(PEER_SLOTS)]?;
        Ok(StateTimes { times })
    }

    /// Looks at each session at this moment.
    pub fn look<B: Book<Global>>(&mut self, speaker: &Speaker<Global, B>, now: u64) {
        for slot in 0..PEER_SLOTS {
            let state = speaker.session(slot);
            if let Some(time) = self.times.get_mut(usize::from(slot)) {
                if time.state != state {
                    *time = StateTime { state, since: now };
                }
            }
        }
    }

    /// For how many seconds the slot's session has been in this state: none, where it was in another one when it was looked at.
    pub(crate) fn seconds(&self, slot: u8, state: State, now: u64) -> u64 {
        match self.times.get(usize::from(slot)) {
            Some(time) if time.state == Some(state) => now.saturating_sub(time.since),
            _ => 0,
        }
    }
}
