//! A slot's place at a prefix, and how its candidate stands.
ghost use Rattle.std.specs.Prelude.{◌≡◌};
ghost use Rattle.live_book.specs.NeighborBests.{empty_place, is_behind, is_kept, leads};

use decision::Candidate;
use std::marker::Model;

/// How a candidate stands among those of its neighbor AS.
#[derive(Clone, Copy)]
pub enum Standing {
    /// Another one is better.
    Behind,
    /// It is to be compared.
    Open,
    /// It is the best one, and was so before the latest change.
    Leads,
    /// It became the best one by the latest change.
    Won,
}

impl Standing {
    // Whether it is the best one.
    pub(crate) fn leads(self) -> bool
        ensures { result ≡ leads self }
    {
        match self {
            Standing::Leads | Standing::Won => true,
            Standing::Behind | Standing::Open => false,
        }
    }

    // Whether it is the best one, as before.
    pub(crate) fn is_kept(self) -> bool
        ensures { result ≡ is_kept self }
    {
        match self {
            Standing::Leads => true,
            Standing::Won | Standing::Behind | Standing::Open => false,
        }
    }

    // Whether another one is better.
    pub(crate) fn is_behind(self) -> bool
        ensures { result ≡ is_behind self }
    {
        match self {
            Standing::Behind => true,
            Standing::Leads | Standing::Won | Standing::Open => false,
        }
    }
}

/// A slot that has a place, with its candidate and how that stands.
#[derive(Clone, Copy)]
pub struct Place {
    state: State,
}

// The slot and the standing stand beside the tag, where they take no octet more.
#[derive(Clone, Copy)]
enum State {
    Vacant(u8, Standing),
    Taken(u8, Standing, Candidate),
}

impl Model for Place {
    ghost use Rattle.live_book.specs.Places.{Place as Shown};
    ghost use Rattle.live_book.specs.PlaceStates.{same_state, shown, state_of};

    ghost Value = { Shown };

    ghost view = { λ p. shown p.state };

    ghost inverse = { λ p. record { state = state_of p } };

    ghost inverse_ok = { λ p h. same_state (λ s. record { state = s }) p.state };
}

impl Place {
    pub(crate) fn new(slot: u8, standing: Standing, candidate: Option<Candidate>) -> Place
        ensures { result ≡ record { slot = slot; standing = standing; candidate = candidate } }
    {
        let state = match candidate {
            Some(candidate) => State::Taken(slot, standing, candidate),
            None => State::Vacant(slot, standing),
        };
        Place { state }
    }

    // A place without a candidate.
    pub(crate) fn of(slot: u8) -> Place
        ensures { result ≡ empty_place slot }
    {
        Place::new(slot, Standing::Behind, None)
    }

    pub(crate) fn slot(&self) -> u8
        ensures { result ≡ self.now.slot }
    {
        match self.state {
            State::Vacant(slot, _) | State::Taken(slot, _, _) => slot,
        }
    }

    pub(crate) fn standing(&self) -> Standing
        ensures { result ≡ self.now.standing }
    {
        match self.state {
            State::Vacant(_, standing) | State::Taken(_, standing, _) => standing,
        }
    }

    pub(crate) fn candidate(&self) -> Option<Candidate>
        ensures { result ≡ self.now.candidate }
    {
        match self.state {
            State::Vacant(_, _) => None,
            State::Taken(_, _, candidate) => Some(candidate),
        }
    }
}
