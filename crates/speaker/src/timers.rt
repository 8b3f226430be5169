//! A moment comes: the timers of each slot that have ended.
ghost use Rattle.std.specs.Prelude.{◌≡◌, ◌≤◌, [], ◌∷◌};
ghost use Rattle.bgp_peer.specs.SessionInputs.{timers};
ghost use Rattle.runs.specs.Agreement.{EndsAll, EndsTimers, Holds};
ghost use Rattle.runs.specs.Runs.{Run, Tick_call, report_of, turn};
ghost use Rattle.runs.specs.declared.config.Config.{Config as TheConfig};

use crate::step::Speaker;
use bgp_conf::PEER_SLOTS;
use bgp_fsm::{Input, Timer};
use decision::Book;
use runs::{Report, slot_bit};
use std::alloc::Allocator;

impl<A: Allocator + Clone, B: Book<A>> Speaker<A, B> {
    /// A moment comes to the cache session, and then to each slot, in rising order. Answers whose connection attempt begins.
    pub(crate) fn tick(&mut self, now: u64) -> Report
        ensures ticks { (config : TheConfig) (r : Run) → Holds config r self.old → self.old.chosen ≤ self.old.chosen_before
            → Holds config (turn (Tick_call now) [] ∷ r) self.new × (result ≡ report_of config r (turn (Tick_call now) [])) }
        ensures counted { self.new.chosen_before ≡ self.old.chosen_before }
        ensures rises { self.old.chosen ≤ self.new.chosen }
    {
        self.moment = now;
        let mut report = Report::nothing();
        report.cache_opened = self.cache_tick(now);
        report.opened = self.end_all_timers();
        report
    }

    // The timers of each slot that have ended end.
    fn end_all_timers(&mut self) -> u64
        ensures ends { EndsAll result self.old self.new }
        ensures counted { self.new.chosen_before ≡ self.old.chosen_before }
        ensures rises { self.old.chosen ≤ self.new.chosen }
    {
        let mut opened = 0;
        for slot in 0..PEER_SLOTS {
            if self.end_timers(slot) {
                opened = slot_bit(slot) | opened;
            }
        }
        opened
    }

    // The timers of a slot that have ended end, one after another. Answers whether its connection attempt begins.
    fn end_timers(&mut self, slot: u8) -> bool
        ensures ends { EndsTimers timers slot result self.old self.new }
        ensures counted { self.new.chosen_before ≡ self.old.chosen_before }
        ensures rises { self.old.chosen ≤ self.new.chosen }
    {
        let hold = self.end_timer(slot, Timer::Hold);
        let connect_retry = self.end_timer(slot, Timer::ConnectRetry);
        let idle_hold = self.end_timer(slot, Timer::IdleHold);
        let keepalive = self.end_timer(slot, Timer::Keepalive);
        hold | connect_retry | idle_hold | keepalive
    }

    fn end_timer(&mut self, slot: u8, timer: Timer) -> bool
        ensures ends { EndsTimers (timer ∷ []) slot result self.old self.new }
        ensures counted { self.new.chosen_before ≡ self.old.chosen_before }
        ensures rises { self.old.chosen ≤ self.new.chosen }
    {
        let Some(found) = self.routes.peer(slot) else {
            return false;
        };
        if !found.has_ended(timer, self.moment) {
            return false;
        }
        self.input(slot, Input::Expires(timer))
    }
}
