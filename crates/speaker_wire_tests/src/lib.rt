//! Tests alone: speakers over the system's sockets, with a cache and with one another, and one over a wire in memory each of
//! whose calls fails once, alone and with an operator beside, and with peers that wait.
#![tactic(auto)]

#[cfg(test)]
mod asked_turns;
#[cfg(test)]
mod bgp_loopback;
#[cfg(test)]
mod clock_jump;
#[cfg(test)]
mod made;
#[cfg(test)]
mod speaker_wire;
#[cfg(test)]
mod waiting_peers;
