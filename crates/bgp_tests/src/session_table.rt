//! The rows of the session table that no script reaches, which are want of memory and inputs that a speaker refuses.

use bgp_attr::Mode;
use bgp_fsm::{Input, Outgoing, PeerTimers, Session, State};
use bgp_msg::OwnOpen;
use net_prefix::{Asn, Transport};

const OWN: OwnOpen = OwnOpen {
    asn: Asn(65000),
    hold_time: 180,
    identifier: 0xC000_0201,
    multiprotocol: false,
};

// What comes to a session.
#[derive(Clone, Copy)]
enum Came {
    Up,
    Fail,
    Refresh,
    NoMemory,
}

// The mode of the peer, the state before, what comes, the state and the transport after, and the code and subcode of the
// NOTIFICATION that is queued, if one is.
type Row = (Mode, State, Came, State, Transport, Option<(u8, u8)>);

#[rattlefmt::skip]
const ROWS: [Row; 10] = [
    (Mode::Passive, State::Idle,        Came::Fail,     State::Idle,   Transport::None,      None),
    (Mode::Passive, State::Idle,        Came::Up,       State::Idle,   Transport::None,      None),
    (Mode::Active,  State::Active,      Came::Up,       State::Active, Transport::None,      None),
    (Mode::Passive, State::Idle,        Came::Refresh,  State::Idle,   Transport::None,      None),
    (Mode::Passive, State::Active,      Came::Refresh,  State::Active, Transport::Listening, None),
    (Mode::Passive, State::Idle,        Came::NoMemory, State::Idle,   Transport::None,      None),
    (Mode::Passive, State::Active,      Came::NoMemory, State::Active, Transport::Listening, None),
    (Mode::Passive, State::OpenSent,    Came::NoMemory, State::Idle,   Transport::Closing,   Some((6, 8))),
    (Mode::Passive, State::OpenConfirm, Came::NoMemory, State::Idle,   Transport::Closing,   Some((6, 8))),
    (Mode::Passive, State::Established, Came::NoMemory, State::Idle,   Transport::Closing,   Some((6, 8))),
];

fn input_of(came: Came) -> Input<'static> {
    match came {
        Came::Up => Input::Up,
        Came::Fail => Input::Fail,
        Came::Refresh => Input::RouteRefresh(true),
        Came::NoMemory => Input::NoMemory,
    }
}

fn session_in(mode: Mode, state: State) -> Session {
    Session {
        state,
        ..Session::new(OWN, mode, PeerTimers::USUAL)
    }
}

// Whether the message is just the NOTIFICATION of this code and subcode, or none is there.
fn is_said(message: &Option<Outgoing<'_>>, said: Option<(u8, u8)>) -> bool {
    match message {
        None => said.is_none(),
        Some(Outgoing::Notification(told)) => said == Some((told.code(), told.subcode())),
        Some(_) => false,
    }
}

// What it makes of a session in this state, which is left just where it was Established and goes to Idle.
fn is_row(row: &Row) -> bool {
    let (mode, before, came, state, transport, said) = *row;
    let mut session = session_in(mode, before);
    let effects = session.input(input_of(came), 0);
    is_said(&effects.message, said)
        && effects.left == (before == State::Established)
        && session.state() == state
        && session.transport() == transport
}

#[test]
fn each_row_is_as_the_table_says(rt: HostRuntime) {
    for row in &ROWS {
        assert!(rt; is_row(row));
    }
}
