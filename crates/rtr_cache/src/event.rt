//! What happens to a cache, and what it answers.
ghost use Rattle.std.specs.Prelude.{◌≡◌};
ghost use Rattle.rtr_cache.specs.CacheState.{tells_client, tells_serial};

use net_prefix::Vrp;
use std::alloc::{Allocator, Global};
use std::collections::BTreeSet;

/// What happens to a cache.
pub enum CacheEvent<'a, B: Allocator = Global> {
    /// The operator's set of payloads is this one from now on.
    Load(&'a BTreeSet<Vrp, B>),
    /// The set of payloads is withdrawn: until one is loaded, be it the same, queries are answered as where there is none,
    /// and nobody is notified. A response that has begun goes on.
    Withdraw,
    /// A router has connected.
    Up,
    /// Octets of the client of this key.
    Bytes(u64, &'a [u8]),
    /// The connection of the client of this key is gone.
    Down(u64),
    /// The moment, in seconds from any beginning.
    Tick(u64),
}

/// What an event led to.
#[derive(Clone, Copy, Debug, PartialEq, Eq)]
pub struct CacheReport {
    /// The key of the client that has come up.
    pub client: Option<u64>,
    /// The serial of the set that was loaded.
    pub serial: Option<u32>,
}

impl CacheReport {
    /// Nothing to tell.
    pub(crate) const NOTHING: CacheReport = CacheReport {
        client: None,
        serial: None,
    };

    pub(crate) fn of_client(key: u64) -> CacheReport
        ensures { result ≡ tells_client key }
    {
        CacheReport {
            client: Some(key),
            serial: None,
        }
    }

    pub(crate) fn of_serial(serial: u32) -> CacheReport
        ensures { result ≡ tells_serial serial }
    {
        CacheReport {
            client: None,
            serial: Some(serial),
        }
    }
}
