//! Tests alone: what the system's sockets tell and what faults of `accept` mean, a cache over them and over a wire in memory,
//! alone and with an operator beside, what routers hold and those that are silent, a cache that resets another session, and a
//! set that is withdrawn.
#![tactic(auto)]

#[cfg(test)]
mod accept_faults;
#[cfg(test)]
mod asked_turns;
#[cfg(test)]
mod held_serials;
#[cfg(test)]
mod loopback;
#[cfg(test)]
mod made;
#[cfg(test)]
mod memory_wire;
#[cfg(test)]
mod other_session;
#[cfg(test)]
mod over_loopback;
#[cfg(test)]
mod patience;
#[cfg(test)]
mod ready_sockets;
#[cfg(test)]
mod withdrawal;
