//! All scrapers.

use std::net::SocketAddr;

/// How many scrapers may be there at once (own choice).
pub const SCRAPERS: usize = 16;

/// Scrapers at whatever they connect to.
pub trait Scrapers {
    /// Where they connect, if that can be told.
    fn address(&self) -> Option<SocketAddr>;

    /// Lets in one who has come, where there is a place, and visits each once.
    fn turn(&mut self, now: u64);

    /// Whether one waits for the figures.
    fn are_waiting(&self) -> bool;

    /// Tells the figures to each who waits for them.
    fn tell(&mut self, figures: &[u8]);
}
