//! Tests alone, of payload lists, payload versions and PDUs: what no answer of a script shows, lists whose device fails, a
//! trie, what no end looks at or calls, and each growth refused in turn. A file is named for what it tests.
//!
//! They stand above the crates that they test, so that those are proved once. Octets, rows of tables, loads, lists and the
//! states of routes are scripts of the crate play_scripts.
#![tactic(auto)]

#[cfg(test)]
mod clients;
#[cfg(test)]
mod deltas;
#[cfg(test)]
mod formats;
#[cfg(test)]
mod lists;
#[cfg(test)]
mod origins;
#[cfg(test)]
mod pdus;
#[cfg(test)]
mod prefixes;
#[cfg(test)]
mod sets;
#[cfg(test)]
mod tries;
#[cfg(test)]
mod version_memory;
