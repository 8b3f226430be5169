//! Tests alone, of messages and sessions: what no script reaches, what logs show of a NOTIFICATION, and want of memory. A file is
//! named for what it tests.
#![tactic(auto)]

#[cfg(test)]
mod messages;
#[cfg(test)]
mod notices;
#[cfg(test)]
mod session_table;
#[cfg(test)]
mod want_of_memory;
