//! Scrapers at a TCP port.
//!
//! `MetricsSocket` listens at an address, and has a place for each of 16 scrapers, who lose theirs behind their answer or 10
//! seconds after they came. Nothing in it waits: a turn lets in one and visits each once. What is read and written on the
//! system's sockets is shown by tests.
#![tactic(auto)]

mod metrics_socket;

pub use metrics_socket::MetricsSocket;
