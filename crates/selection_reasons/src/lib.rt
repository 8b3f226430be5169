//! Why a candidate isn't the best of its prefix (RFC 4271 sections 9.1.1 and 9.1.2.2).
//!
//! `fell_at` answers the step of the selection at which a candidate fell: the steps before it left the candidate, and one of
//! those that they left beats it there. The candidate that falls at none is the one that crate decision's `choose` answers, and
//! no other one is (`specs/Reasons.antt`). MULTI_EXIT_DISC is compared within a neighbor AS alone, so the step is said of all
//! candidates together and not of two.
#![tactic(auto)]

mod reason;
mod step;

pub use reason::fell_at;
pub use step::Step;
