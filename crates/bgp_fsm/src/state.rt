//! The states of a session.
ghost use Rattle.std.specs.Prelude.{Some};
ghost use Rattle.bgp_fsm.specs.StateNames.{name_of};

use std::fmt;

/// A state of RFC 4271 section 8.2.2.
#[derive(Clone, Copy, Debug, PartialEq, Eq)]
pub enum State {
    Idle,
    Connect,
    Active,
    OpenSent,
    OpenConfirm,
    Established,
}

impl fmt::Display for State {
    ghost output = { λ state. Some (name_of state) };

    fn fmt<W: fmt::Write>(&self, f: &mut fmt::Formatter<W>) -> fmt::Result {
        f.write_str(match self {
            State::Idle => "Idle",
            State::Connect => "Connect",
            State::Active => "Active",
            State::OpenSent => "OpenSent",
            State::OpenConfirm => "OpenConfirm",
            State::Established => "Established",
        })
    }
}
