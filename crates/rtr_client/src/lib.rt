//! A router's end of the RPKI-to-Router protocol: what it asks a cache for, and the payloads that are in force
//! (RFC 8210).
//!
//! A `Client` is a value, and `Client::step` is one row of the client's table (`ClientTable.antt` in the definitions of
//! rtr_codec): what a PDU, a fault, the end of a connection, a moment or want of room makes of it. The payloads of a load
//! are in force once its End of Data has come, whole or not at all, and until they are flushed or expire. A load in
//! progress is kept as a change of what is in force, so that each PDU takes the time of one look-up. What a step changed is
//! `changed`; a `Keeper` that is handed in follows it. The octets and the ring stand above.
#![tactic(auto)]

mod acts;
mod client;
mod input;
mod laws;
mod load;
mod payloads;
mod rows;
mod session;
mod state;

pub use acts::Acts;
pub use client::Client;
pub use input::Input;
pub use laws::a_tick_says_one_pdu;
pub use payloads::Base;
pub use state::ClientState;
