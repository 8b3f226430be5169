//! A router's session with a cache, and what follows its payloads.
ghost use Rattle.std.specs.Prelude.{◌≡◌, ◌<◌, ◌≤◌, length};
ghost use Rattle.net_prefix.specs.declared.transport.Transport.TheVariants.{Open as Connected};
ghost use Rattle.rtr_codec.specs.ClientTable.{in_force, transport_of};

use net_prefix::{Transport, Vrp};
use rtr_codec::Intervals;
use rtr_session::{CacheSession, Hearing};
use std::alloc::{AllocError, Allocator};
use std::collections::BTreeSet;

/// A session, and a set that follows its payloads in force.
#[derive(Drop)]
pub struct Router<A: Allocator> {
    pub session: CacheSession<A>,
    kept: BTreeSet<Vrp, A>,
    ghost follows: { kept.keys ≡ in_force session.client },
}

impl<A: Allocator + Clone> Router<A> {
    pub fn new(alloc: A) -> Result<Self, AllocError> {
        let kept = BTreeSet::new(alloc.clone()?);
        let session = CacheSession::new(alloc, Intervals::USUAL.retry)?;
        Ok(Router { session, kept })
    }

    pub fn up(&mut self, now: u64) {
        self.session.up(now, &mut self.kept);
    }

    pub fn fail(&mut self, now: u64) {
        self.session.fail(now, &mut self.kept);
    }

    pub fn tick(&mut self, now: u64) -> bool {
        self.session.tick(now, &mut self.kept)
    }

    pub fn hear_next(&mut self, octets: &[u8], now: u64) -> Hearing
        requires { transport_of self.old.session.client ≡ Connected }
        ensures fits { result.count ≤ length octets.now }
        ensures goes_on { 0 < length octets.now → 0 < result.count }
    {
        self.session.hear_next(octets, now, &mut self.kept)
    }

    /// Octets come while the connection stands. Answers whether all of them were taken, and no memory was refused.
    pub fn hear(&mut self, octets: &[u8], now: u64) -> bool {
        let mut rest = octets;
        while self.session.transport() == Transport::Open && !rest.is_empty() {
            let heard = self.hear_next(rest, now);
            if heard.starved {
                return false;
            }
            rest = &rest[heard.count..];
        }
        rest.is_empty()
    }

    /// Whether just these payloads are in force, and the set that follows has them too.
    pub fn has(&self, payloads: &[Vrp]) -> bool {
        self.session.payloads().iter().eq(payloads) && self.kept.iter().eq(payloads)
    }

    /// Whether the last call took just these payloads out of force, and put just these into it.
    pub fn has_changed(&self, withdrawn: &[Vrp], announced: &[Vrp]) -> bool {
        let changed = self.session.changed();
        changed.withdrawn.iter().eq(withdrawn) && changed.announced.iter().eq(announced)
    }
}
