//! The origin of a route, judged by the payloads that cover its prefix (RFC 6811).
//!
//! `PayloadTrie` keeps the validated payloads by prefix, seen as their set. `state` says of a prefix and of the AS that
//! its route comes from what all of them say: Valid where some payload matches, Invalid where some covers the prefix
//! and none matches, NotFound where none covers it (RFC 6811 section 2). A payload of AS 0 matches nothing, and so does
//! a route that comes from no one AS. It looks at the payloads alone that cover the prefix, and takes no memory. The
//! payloads follow those of a cache as a `Keeper`: a change is made whole, or not at all where memory is refused.
//! `affected` names the prefixes of a change that no other one of them covers, in rising order: a prefix whose state
//! may have changed lies in just one of these stretches, and any other prefix keeps its state. There are no IPv6
//! payloads.
//!
//! Local exceptions (RFC 8416) lie between the payloads that are kept and the states: `state_under` judges by what they
//! make of the payloads, `affected` leaves out the payloads of which they say something, and `affected_by` names the
//! stretches of a filter that comes or goes.
#![tactic(auto)]

mod payload_trie;
mod prefix_payloads;
mod states_under;
mod stretch_laws;
mod stretches;
mod validity;
mod validity_laws;

pub use payload_trie::PayloadTrie;
pub use stretch_laws::{
    changed_states_lie_in_stretches, stretches_are_disjoint, stretches_are_what_changes_cover,
};
pub use stretches::{Stretches, affected, affected_by};
pub use validity::Validity;
pub use validity_laws::{as_0_and_none_match_nothing, states_are_by_payloads};
