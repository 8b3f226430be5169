//! Payload lists: the comma-separated values of a validator, read whole or refused.
//!
//! `read_list` answers the set of the payloads of a list's rows, how many rows there are and how many of them are
//! skipped as IPv6, or the first fault with its row (the format is our own, as validators write it). What is a
//! record of the text is said by `csv`; this crate says what the records mean. Nothing of a list is kept where one
//! row is refused. `read_list_at` skips rows that have expired too (`specs/ExpiredRows.antt`).
#![tactic(auto)]

mod fault;
mod header;
mod list;
mod meaning;
mod row;

pub use fault::{CsvFault, RowFault};
pub use list::{Loaded, read_list, read_list_at};
pub use meaning::records_mean_one_thing;
pub use row::{is_over, read_asn, read_number, read_second};
