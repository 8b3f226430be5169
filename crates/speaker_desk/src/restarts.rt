//! Sessions that are to begin again.
ghost use Rattle.std.specs.Prelude.{◌≡◌, IfOk, get_or, set, false};
ghost use Rattle.speaker_desk.specs.Restarts.{none_again, none_of};

use bgp_conf::PEER_SLOTS;
use std::alloc::{AllocError, Global};
use std::marker::Model;

/// Of each slot whether its peer is enabled again once its connection is gone.
#[derive(Drop)]
pub(crate) struct Restarts {
    slots: Vec<bool>,
}

impl Model for Restarts {
    ghost use Rattle.std.specs.Prelude.{Bool, List};

    ghost Value = { List Bool };

    ghost view = { λ restarts. restarts.slots.items };
}

impl Restarts {
    /// None is.
    pub(crate) fn none(alloc: Global) -> Result<Restarts, AllocError>
        ensures { IfOk result (λ restarts. restarts ≡ none_again) }
    {
        let slots = vec![in alloc; false; usize::from(PEER_SLOTS)]?;
        Ok(Restarts { slots })
    }

    /// Whether the peer of this slot is.
    pub(crate) fn has(&self, slot: u8) -> bool
        ensures { result ≡ get_or self.now slot false }
    {
        match self.slots.get(usize::from(slot)) {
            Some(again) => *again,
            None => false,
        }
    }

    /// From now on it is, or isn't.
    pub(crate) fn set(&mut self, slot: u8, again: bool)
        ensures { self.new ≡ set self.old slot again }
    {
        if let Some(place) = self.slots.get_mut(usize::from(slot)) {
            *place = again;
        }
    }

    /// From now on none is.
    pub(crate) fn forget_all(&mut self)
        ensures { self.new ≡ none_of self.old }
    {
        self.slots.as_mut_slice().fill(false);
    }
}
