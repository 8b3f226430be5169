//! Tests alone, of a router's session with its cache, and of both ends together. They stand above the crates that they
//! test, so that those are proved once.
#![tactic(auto)]

#[cfg(test)]
mod cache_sessions;
#[cfg(test)]
mod router;
#[cfg(test)]
mod two_ends;
