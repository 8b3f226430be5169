//! How long payloads are in force, by what happened alone (RFC 8210 sections 5.8 and 6).
//!
//! A client counts by a timer of its own when its payloads expire. Here the same is read off the history of its session, as
//! `rtr_session` has it: the octet that completed the load, the moment at which that came, the expire interval that its End
//! of Data told, and the moments handed in since (`specs/PayloadTimes.antt`). No timer of the client is in a statement. Which
//! payloads they are is read off the PDUs that came (`specs/ToldPayloads.antt`).
#![tactic(auto)]

mod laws;

pub use laws::{
    expired_payloads_are_gone, payloads_are_fresh, payloads_are_told, payloads_are_unexpired,
};
