//! The states of a client.
ghost use Rattle.std.specs.Prelude.{Some};
ghost use Rattle.rtr_client.specs.StateNames.{name_of};

use std::fmt;

/// Where a client stands, as operators see it.
#[derive(Clone, Copy, Debug, PartialEq, Eq)]
pub enum ClientState {
    /// There is no session, or its connection is still to be closed.
    Off,
    /// A connection attempt has begun.
    Opening,
    /// A query was sent.
    Asked,
    /// A response is being read.
    Loading,
    /// The payloads in force are those of the cache, as far as it has told.
    Synced,
    /// The cache has no data yet.
    Wait,
}

impl fmt::Display for ClientState {
    ghost output = { λ state. Some (name_of state) };

    fn fmt<W: fmt::Write>(&self, f: &mut fmt::Formatter<W>) -> fmt::Result {
        f.write_str(match self {
            ClientState::Off => "Off",
            ClientState::Opening => "Opening",
            ClientState::Asked => "Asked",
            ClientState::Loading => "Loading",
            ClientState::Synced => "Synced",
            ClientState::Wait => "Wait",
        })
    }
}
