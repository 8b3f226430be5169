//! What happens to the cache session: its connection stands or fails, octets and moments come, octets are handed out. Where
//! the loaded payloads change, the routes that this concerns are judged again, behind the local exceptions.
ghost use Rattle.std.specs.Prelude.{◌≡◌, ◌≢◌, ◌≤◌, ◌<◌, ◌++◌, ℕ, List, [], ◌∷◌, Some, None, IfOk, false, true, if◌then◌else◌, length, min, take, drop};
ghost use Rattle.std.specs.Option.{IsSome};
ghost use Rattle.bgp_peer.specs.SessionInputs.{Ticked};
ghost use Rattle.net_prefix.specs.declared.payload.Vrp.{Vrp as ThePayload};
ghost use Rattle.rtr_session.specs.SessionHistory.{opens_at};
ghost use Rattle.rtr_session.specs.SessionState.{Session as TheSession, configured};
ghost use Rattle.runs.specs.Agreement.{Agrees, CacheHears, CacheHearsUntil, Holds, HoldsBy};
ghost use Rattle.speaker.specs.CacheMoves.{RevalidatesFrom, KeepsCache, last_change};
ghost use Rattle.runs.specs.Choices.{choices_cached};
ghost use Rattle.runs.specs.Runs.{Cache_fail_call, Cache_take_call, Cache_up_call, Run, Tick_call, cache_history, configuration_of, history, turn};
ghost use Rattle.runs.specs.declared.config.Config.{Config as TheConfig};
ghost use Rattle.rtr_session.specs.SessionHistory as cached;
ghost use Rattle.vrp_delta.specs.Delta.{change_between};

use crate::step::Speaker;
use decision::Book;
use net_prefix::Transport;
use rtr_session::CacheSession;
use runs::Config;
use std::alloc::{AllocError, Allocator};

impl<A: Allocator + Clone, B: Book<A>> Speaker<A, B> {
    /// The connection of the cache session is there.
    pub(crate) fn cache_up(&mut self)
        requires { IsSome self.old.cache }
        ensures holds { (config : TheConfig) (r : Run) → Holds config r self.old → self.old.chosen ≤ self.old.chosen_before → Holds config (turn Cache_up_call [] ∷ r) self.new }
        ensures counted { self.new.chosen_before ≡ self.old.chosen_before }
        ensures rises { self.old.chosen ≤ self.new.chosen }
    {
        let Some(session) = &mut self.cache else {
            return;
        };
        session.up(self.moment, self.routes.payloads_mut());
        self.choose_touched();
    }

    /// The connection of the cache session, or the attempt at one, has failed.
    pub(crate) fn cache_fail(&mut self)
        requires { IsSome self.old.cache }
        ensures holds { (config : TheConfig) (r : Run) → Holds config r self.old → self.old.chosen ≤ self.old.chosen_before → Holds config (turn Cache_fail_call [] ∷ r) self.new }
        ensures counted { self.new.chosen_before ≡ self.old.chosen_before }
        ensures rises { self.old.chosen ≤ self.new.chosen }
    {
        let Some(session) = &mut self.cache else {
            return;
        };
        session.fail(self.moment, self.routes.payloads_mut());
        self.choose_touched();
    }

    /// A moment comes to the cache session, before it comes to the slots. Answers whether its connection attempt begins.
    pub(crate) fn cache_tick(&mut self, now: u64) -> bool
        ensures ticks { (config : TheConfig) (r : Run) → HoldsBy config (configuration_of config r) now (cache_history r) (λ slot. Ticked now ∷ history config slot r) 0 self.old
            → HoldsBy config (configuration_of config r) now (cache_history (turn (Tick_call now) [] ∷ r)) (λ slot. Ticked now ∷ history config slot r) (choices_cached config r (cache_history r) (cached.Ticked now)) self.new
            × (result ≡ opens_at config.cache_retry now (cache_history r)) }
        ensures moment { self.new.moment ≡ self.old.moment }
        ensures counted { self.new.chosen_before ≡ self.old.chosen_before }
        ensures rises { self.old.chosen ≤ self.new.chosen }
    {
        let Some(session) = &mut self.cache else {
            return false;
        };
        let opened = session.tick(now, self.routes.payloads_mut());
        self.choose_touched();
        opened
    }

    /// Takes octets that come on the connection of the cache session, PDU by PDU. What comes behind the close of the session
    /// is dropped. Answers whether it was closed for want of memory.
    pub(crate) fn hear_cache(&mut self, octets: &[u8]) -> bool
        requires { IsSome self.old.cache }
        ensures heard { result ≡ false → CacheHears octets.now self.old self.new }
        ensures starved { result ≡ true → CacheHearsUntil octets.now self.old self.new }
        ensures counted { self.new.chosen_before ≡ self.old.chosen_before }
        ensures rises { self.old.chosen ≤ self.new.chosen }
    {
        let mut rest = octets;
        while !rest.is_empty() {
            let (taken, starved) = self.hear_cache_next(rest);
            if starved {
                return true;
            }
            let (_, behind) = rest.split_at(taken);
            rest = behind;
        }
        false
    }

    // Takes octets up to the end of the PDU at the front, and that PDU; answers how many, and whether memory was refused to it.
    // Where no connection stands all of them are dropped.
    fn hear_cache_next(&mut self, octets: &[u8]) -> (usize, bool)
        requires { IsSome self.old.cache }
        ensures within { result.0 ≤ length octets.now }
        ensures goes_on { 0 < length octets.now → 0 < result.0 }
        ensures heard { result.1 ≡ false → CacheHears (take result.0 octets.now) self.old self.new }
        ensures starved { result.1 ≡ true → CacheHearsUntil octets.now self.old self.new }
        ensures there { IsSome self.new.cache }
        ensures counted { self.new.chosen_before ≡ self.old.chosen_before }
        ensures rises { self.old.chosen ≤ self.new.chosen }
    {
        let Some(session) = &mut self.cache else {
            return (octets.len(), false);
        };
        let Transport::Open = session.transport() else {
            return (octets.len(), false);
        };
        let heard = session.hear_next(octets, self.moment, self.routes.payloads_mut());
        self.choose_touched();
        (heard.count, heard.starved)
    }

    // Judges the routes again that the last change of the loaded payloads concerns, behind the local exceptions.
    fn choose_touched(&mut self)
        ensures touched { (before : List ThePayload) → last_change self.old.cache ≡ change_between before self.old.payloads → RevalidatesFrom before self.old self.new }
        ensures keeps { KeepsCache self.old self.new }
        ensures rises { self.old.chosen ≤ self.new.chosen }
    {
        if let Some(session) = &self.cache {
            self.routes.payloads_changed(session.changed());
        }
    }

    /// Hands out the first octets of the ring of the cache session, as many as there are and fit, and answers how many; none
    /// where there is no such session.
    pub fn take_cache(&mut self, buf: &mut [u8]) -> usize
        ensures none { self.old.cache ≡ None → (result ≡ 0) × (buf.new ≡ buf.old) }
        // The ring's first octets are handed out, as many as are there and fit.
        ensures handed { (s : TheSession) → self.old.cache ≡ Some s → (result ≡ min (length buf.old) (length s.ring)) × (buf.new ≡ take result s.ring ++ drop result buf.old) }
        // For every run that the speaker agrees with, it agrees with that run followed by this call.
        ensures agrees { (config : TheConfig) (r : Run) → Agrees config r self.old → Agrees config (turn (Cache_take_call (take result buf.new)) [] ∷ r) self.new }
        // What was chosen stays as it was counted.
        ensures counted { self.new.chosen_before ≡ self.old.chosen_before }
        ensures chosen { self.new.chosen ≡ self.old.chosen }
    {
        match &mut self.cache {
            Some(session) => session.take(buf),
            None => 0,
        }
    }
}

/// The session with a cache, where one is asked for.
pub(crate) fn session_for<A: Allocator + Clone + Copy>(
    alloc: A,
    config: &Config,
) -> Result<Option<CacheSession<A>>, AllocError>
    ensures { IfOk result (λ session. session ≡ (if config.now.cache then Some (configured config.now.cache_retry) else None)) }
{
    if !config.cache {
        return Ok(None);
    }
    Ok(Some(CacheSession::new(alloc, config.cache_retry)?))
}
