//! What routers hold.
ghost use Rattle.std.specs.Prelude.{◌≡◌, ◌+◌, ◌-◌, ◌<◌, ◌^◌};
ghost use Rattle.cache_turns.specs.Holding.{counting, held_from, holding_of};

use rtr_cache::Cache;
use std::alloc::Allocator;

/// How many routers hold what: for each the serial of the last End of Data that was handed out whole for it.
#[derive(Clone, Copy, Debug, PartialEq, Eq)]
pub struct Holding {
    /// They hold the serial that was asked for.
    pub current: usize,
    /// They hold another one.
    pub behind: usize,
    /// They hold none.
    pub without: usize,
}

impl Holding {
    const NOBODY: Holding = Holding {
        current: 0,
        behind: 0,
        without: 0,
    };

    // One more that holds this.
    fn with(self, held: Option<u32>, serial: u32) -> Holding
        requires { self.current + (self.behind + self.without) < 2 ^ 64 - 1 }
        ensures { result ≡ counting serial held self }
    {
        let mut counted = self;
        match held {
            Some(held) if held == serial => counted.current += 1,
            Some(_) => counted.behind += 1,
            None => counted.without += 1,
        }
        counted
    }
}

/// What the clients hold at whose keys something stands.
pub(crate) fn holding_of<T, A: Allocator + Clone>(
    cache: &Cache<A>,
    places: &[Option<T>],
    serial: u32,
) -> Holding
    ensures { result ≡ holding_of serial (held_from cache.now 0 places.now) }
{
    let mut holding = Holding::NOBODY;
    for client in 0..places.len() {
        if places[client].is_some() {
            holding = holding.with(cache.held_serial(client as u64), serial);
        }
    }
    holding
}
