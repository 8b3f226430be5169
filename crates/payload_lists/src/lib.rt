//! Payload lists in either format: comma-separated values (crate `vrp_csv`) or JSON (crate `vrp_json`).
//!
//! `read_payloads` reads a list on to its first octet that is no white space of JSON, which tells the format
//! (`vrp_json::format_of`), and then takes it as a list of that format is taken. Comma-separated values are read row by
//! row; a list in JSON is read whole first, and may say when it was written.
#![tactic(auto)]

mod fault;
mod front;
mod list;

pub use fault::PayloadListFault;
pub use list::{Listed, read_payloads};
