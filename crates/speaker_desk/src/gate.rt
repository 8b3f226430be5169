//! Peers that wait for payloads.
ghost use Rattle.std.specs.Prelude.{◌≡◌, false};
ghost use Rattle.speaker_desk.specs.Waiting.{is_synced, none_waits, opens, others};

use rtr_client::ClientState;
use std::alloc::Global;
use std::marker::Model;
use std::mem;

/// Slots whose peers wait until the session with the cache is synced, or for a moment. Once they may go they may.
#[derive(Drop)]
pub struct Gate {
    slots: Vec<u8>,
    until: u64,
    is_open: bool,
}

impl Model for Gate {
    ghost use Rattle.speaker_desk.specs.Waiting.{Waiting};

    ghost Value = { Waiting };

    ghost view = { λ gate. record { slots = gate.slots.items; until = gate.until; is_open = gate.is_open } };
}

impl Gate {
    /// The peers of these slots wait until this moment at most.
    pub fn new(slots: Vec<u8>, until: u64) -> Gate
        ensures { result ≡ record { slots = slots.items; until = until; is_open = false } }
    {
        Gate {
            slots,
            until,
            is_open: false,
        }
    }

    /// Whether they may go at this moment, at which the session with the cache stands so. From then on they may.
    pub(crate) fn open(&mut self, now: u64, session: Option<ClientState>) -> bool
        ensures result { result ≡ opens now session self.old }
        ensures open { self.new ≡ record self.old { is_open = opens now session self.old } }
    {
        self.is_open = self.is_open || is_synced(session) || self.until <= now;
        self.is_open
    }

    /// Those that wait, of which none does any more.
    pub(crate) fn take(&mut self, alloc: Global) -> Vec<u8>
        ensures taken { result.items ≡ self.old.slots }
        ensures left { self.new ≡ none_waits self.old }
    {
        mem::replace(&mut self.slots, Vec::new(alloc))
    }

    /// The peer of this slot doesn't wait.
    pub(crate) fn forget(&mut self, slot: u8)
        ensures { self.new ≡ record self.old { slots = others slot self.old.slots } }
    {
        self.slots.retain(|other| *other != slot);
    }

    /// None does.
    pub(crate) fn forget_all(&mut self)
        ensures { self.new ≡ none_waits self.old }
    {
        self.slots.clear();
    }
}

// Whether the session with the cache has all payloads.
fn is_synced(session: Option<ClientState>) -> bool
    ensures { result ≡ is_synced session }
{
    session == Some(ClientState::Synced)
}
