//! What waits for peers, on the way to their Adj-RIBs-Out, and the words for what they were sent (RFC 4271 section 3.2).
//!
//! What the peers hold is kept by the crate `holdings` above. Here are its words (`Held`), sets of slots, and:
//!
//! `Waiting` is two queues for each slot: the withdrawals that wait for it and the announcements, each in the order of
//! prefixes, so that the next is found soon. A queue takes memory as it grows. Where that is refused, the slot's queues are
//! lost until they are cleared, as they are at the end of the slot's session: until then whoever asks has to find out from
//! the tables themselves what waits.
//!
//! `AlikePrefixes` lists what waits to be announced to each slot by a number of the octets of attributes that are to be
//! sent, so that the prefixes of one UPDATE (RFC 4271 section 4.3) are found soon and in order. Other octets may have the
//! same number: whoever looks for prefixes with the same attributes compares the octets besides. Listing one never fails:
//! where memory is refused, the slot's list is no longer whole until it begins anew, and is to be done without.
//!
//! What is sent, and when, is decided above.
#![tactic(auto)]

mod alike;
mod marks;
mod queues;
mod slot_list;
pub mod slots;
mod waiting;

pub use alike::AlikePrefixes;
pub use marks::Owed;
pub use waiting::Waiting;
