//! All that is kept of each prefix: its routes with the candidates that they make, and what the peers hold of it.
//!
//! A `Row` is the routes to a prefix by slot, and a book with a place for the candidate of each, so that a change of
//! candidates takes no memory, and a candidate goes with its route. A `Record` is the row of a prefix, where it has routes,
//! beside what the peers hold of the prefix. The records stand in a map by prefix, so that a call finds all of a prefix by
//! one look-up. A record goes when its prefix has no route and no peer holds it. Where memory is refused all stays as it
//! was, but that `ready_in` may leave a record that nobody needs.
#![tactic(auto)]

mod record;
mod record_map;
mod row;
mod sent_map;

pub use record::Record;
pub use record_map::{
    RecordMap, RecordRange, announce_in, bring_in, change_in, first_best, first_of_slot,
    first_routed, withdraw_in,
};
pub use row::Row;
pub use sent_map::{ask_in, clear_in, drop_in, first_held, hold_in, ready_in, renew_in, tidy_in};
