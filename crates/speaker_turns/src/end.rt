//! The sessions of a speaker.
ghost use Rattle.std.specs.Prelude.{◌≡◌};
ghost use Rattle.speaker_turns.specs.Ends.{end_at, place_of};

use bgp_conf::PEER_SLOTS;

/// How many places there are: one for each slot, and one for the cache.
pub(crate) const PLACES: usize = 65;

/// A session of the speaker: that of a slot, or that with the cache.
#[derive(Clone, Copy, Debug, PartialEq, Eq)]
pub enum End {
    Peer(u8),
    Cache,
}

impl End {
    /// That which belongs to this place: the slots in order, and the cache behind them.
    pub(crate) fn at(place: usize) -> End
        ensures { result ≡ end_at place }
    {
        match u8::try_from(place) {
            Ok(slot) if slot < PEER_SLOTS => End::Peer(slot),
            _ => End::Cache,
        }
    }

    /// The place to which it belongs; that of a slot that isn't there is none.
    pub(crate) fn place(self) -> usize
        ensures { result ≡ place_of self }
    {
        match self {
            End::Peer(slot) if slot < PEER_SLOTS => slot as usize,
            End::Peer(_) => PLACES,
            End::Cache => PEER_SLOTS as usize,
        }
    }
}
