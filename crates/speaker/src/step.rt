//! The speaker and its calls.
ghost use Rattle.std.specs.Prelude.{◌≡◌, ◌≤◌, ◌<◌, ◌⊎◌, ◌↔◌, ◌++◌, [], ◌∷◌, true, false, length, min, take, drop, MatchOption, MatchResult, IfErr, IsOk, IfOk, None, Some};
ghost use Rattle.std.specs.Option.{option_map};
ghost use Rattle.bgp_conf.specs.FirstRefusal.{first_refusal};
ghost use Rattle.bgp_fsm.specs.Transports.{transport_of};
ghost use Rattle.speaker.specs.Moves.{Hands};
ghost use Rattle.runs.specs.Runs.{Call, Run, Turn, turn, asked, call_of, report_of, Take_call};
ghost use Rattle.runs.specs.Agreement.{Agrees, Holds, IsFair, IsThrifty};
ghost use Rattle.runs.specs.declared.config.Config.{Config as TheConfig};
ghost use Rattle.runs.specs.FirstRefusal.{awaits_up, closes, closing_for, is_open, may_bring_octets, may_fail, refused_at};
ghost use Rattle.routing.specs.Tables.{configured_session, link_at, session_at};
ghost use Rattle.routing.specs.Linked.{Linked};
ghost use Rattle.runs.specs.Queueing.{Queue, starved_in};
ghost use Rattle.speaker.specs.Ready.{IsReady, is_command};
ghost use Rattle.runs.specs.SpeakerState.{is_out_of_range};

use crate::cache_session::session_for;
use bgp_conf::{Command, PEER_SLOTS, Refusal};
use bgp_fsm::Input;
use decision::Book;
use live_book::LiveBook;
use net_prefix::{Asn, Transport};
use routes::Routes;
use rtr_session::CacheSession;
use runs::{Config, Event, Report, slot_bit};
use std::alloc::{AllocError, Allocator, Global};
use std::marker::Model;

/// A BGP speaker (RFC 4271): its peers' sessions, Adj-RIB-In, Loc-RIB and what each peer was sent.
#[derive(Drop)]
pub struct Speaker<A: Allocator + Clone = Global, B: Book<A> = LiveBook<A>> {
    pub(crate) alloc: A,
    pub(crate) config: Config,
    pub(crate) cache: Option<CacheSession<A>>,
    pub(crate) routes: Routes<A, B>,
    // The moment of the last tick.
    pub(crate) moment: u64,
    // How often a best route was chosen before the last `step` or `take` that wasn't refused.
    pub(crate) chosen_before: u64,
}

impl<A: Allocator + Clone, B: Book<A>> Model for Speaker<A, B> {
    ghost use Rattle.decision.specs.BookContents.{rows_of};
    ghost use Rattle.std.specs.Prelude.{◌≡◌};
    ghost use Rattle.runs.specs.SpeakerState.{SpeakerState, payloads_in};

    ghost Value = { SpeakerState };

    ghost view = { λ s. record {
      config = s.config;
      moment = s.moment;
      conf = s.routes.conf;
      cache = s.cache;
      payloads = s.routes.payloads;
      links = s.routes.links;
      adj_in = s.routes.adj_in;
      book = s.routes.book;
      loc_rib = rows_of s.routes.book;
      chosen = s.routes.chosen;
      chosen_before = s.chosen_before;
    } };

    // The loaded payloads are those of the cache session.
    ghost invariant = { λ s. s.routes.payloads ≡ payloads_in s.cache };
}

// Whether a speaker of this configuration is refused by 33.
pub(crate) fn is_out_of_range(config: &Config) -> bool
    ensures { result ≡ is_out_of_range config.now }
{
    config.asn == Asn(0)
        || config.identifier == 0
        || !config.timers.are_lawful()
        || !config.has_retry()
}

impl<A: Allocator + Clone + Copy, B: Book<A>> Speaker<A, B> {
    ghost use Rattle.runs.specs.SpeakerState.{started, is_out_of_range};

    /// A speaker without peers, whose cache session, where one is asked for, has begun its first connection attempt. Refused by
    /// 33 where the AS, the identifier or a timer of a peer is 0 or `cache_retry` isn't from 1 to 7,200, and by 44.
    pub fn new(alloc: A, config: Config) -> Result<Self, Refusal>
        ensures ok { IfOk result (λ s. s ≡ started config) }
        // It agrees with the run of no calls.
        ensures agrees { IfOk result (λ s. Agrees config [] s) }
        ensures range { (result ≡ Err Refusal.Range) ↔ (is_out_of_range config ≡ true) }
        ensures err { IfErr result (λ why. (why ≡ Refusal.Range) ⊎ (why ≡ Refusal.NoMemory)) }
    {
        if is_out_of_range(&config) {
            return Err(Refusal::Range);
        }
        match Speaker::empty(alloc, config) {
            Ok(speaker) => Ok(speaker),
            Err(_) => Err(Refusal::NoMemory),
        }
    }

    fn empty(alloc: A, config: Config) -> Result<Self, AllocError>
        ensures { IfOk result (λ s. s ≡ started config) }
    {
        let cache = session_for(alloc, &config)?;
        let routes = Routes::new(alloc, config.asn)?;
        Ok(Speaker {
            alloc,
            config,
            cache,
            routes,
            moment: 0,
            chosen_before: 0,
        })
    }
}

impl<A: Allocator + Clone, B: Book<A>> Speaker<A, B> {
    ghost use Rattle.runs.specs.SpeakerState.{tables_of};
    ghost use Rattle.runs.specs.FirstRefusal.{cache_transport_of, refusal_of, take_refusal_of, LacksMemory};

    /// One event. A refusal leaves the speaker as it was. Where memory is refused to what a session needs, that
    /// session is closed, its routes go, and the report names its slot.
    pub fn step(&mut self, event: Event<'_>) -> Result<Report, Refusal>
        // The first refusal is the answer, and the speaker stays as it was; where there is none, only want of memory is.
        ensures refused { MatchOption (refusal_of self.old event.entry)
            (IfErr result (λ why. (why ≡ Refusal.NoMemory) × LacksMemory event.entry self.old self.new))
            (λ why. (result ≡ Err why) × (self.new ≡ self.old)) }
        // For every run that the speaker agrees with, it agrees with that run followed by this event and what it did at its
        // end, with each want of memory, and this turn is what it reports.
        ensures agrees { IfOk result (λ report. (config : TheConfig) (r : Run) → Agrees config r self.old
            → (now : Turn) × (asked now.call ≡ call_of event.entry) × (report ≡ report_of config r now) × Agrees config (now ∷ r) self.new) }
        // The count of the calls before has all choices up to this one, and no choice is taken back.
        ensures counted { IfOk result (λ _. self.new.chosen_before ≡ self.old.chosen) }
        ensures rises { IfOk result (λ _. self.old.chosen ≤ self.new.chosen) }
    {
        self.check(&event)?;
        self.take_event(event)
    }

    // An event that isn't refused.
    fn take_event(&mut self, event: Event<'_>) -> Result<Report, Refusal>
        requires { refusal_of self.old event ≡ None }
        ensures memory { IfErr result (λ why. (why ≡ Refusal.NoMemory) × LacksMemory event.entry self.old self.new) }
        ensures agrees { IfOk result (λ report. (config : TheConfig) (r : Run) → Agrees config r self.old
            → (now : Turn) × (asked now.call ≡ call_of event.entry) × (report ≡ report_of config r now) × Agrees config (now ∷ r) self.new) }
        ensures counted { IfOk result (λ _. self.new.chosen_before ≡ self.old.chosen) }
        ensures rises { IfOk result (λ _. self.old.chosen ≤ self.new.chosen) }
    {
        let mut report = Report::nothing();
        match event {
            Event::Command(command) => match self.obey(&command) {
                Ok(slots) => report.opened = slots,
                Err(_) => return Err(Refusal::NoMemory),
            },
            _ => {
                self.begin_count();
                report = self.take_signal(event);
            }
        }
        report.starved |= self.settle();
        Ok(report)
    }

    // An event that is no command and isn't refused, up to the end of its step: what it makes of the sessions. Answers what
    // it reports so far.
    fn take_signal(&mut self, event: Event<'_>) -> Report
        requires accepted { refusal_of self.old event ≡ None }
        requires signals { is_command event ≡ false }
        ensures ready { (config : TheConfig) (r : Run) → Holds config r self.old → self.old.chosen ≤ self.old.chosen_before
            → IsReady config r (call_of event.entry) result self.new }
        ensures counted { self.new.chosen_before ≡ self.old.chosen_before }
        ensures rises { self.old.chosen ≤ self.new.chosen }
    {
        let mut report = Report::nothing();
        match event {
            Event::Command(_) => unreachable!(),
            Event::Up(slot) => {
                self.input(slot, Input::Up);
            }
            Event::Fail(slot) => self.fail(slot),
            Event::Bytes(slot, octets) => {
                // What comes to a connection that is still to be closed is dropped.
                if self.is_open(slot) {
                    if self.hear(slot, octets).is_err() {
                        report.starved = slot_bit(slot);
                    }
                }
            }
            Event::CacheUp => self.cache_up(),
            Event::CacheFail => self.cache_fail(),
            Event::CacheBytes(octets) => {
                report.cache_starved = self.hear_cache(octets);
            }
            Event::Tick(now) => {
                report = self.tick(now);
            }
        }
        report
    }

    fn is_open(&self, slot: u8) -> bool
        ensures { (l : Linked) → link_at self.now.links slot ≡ Some l → result ≡ is_open (transport_of l.peer.session) }
    {
        match self.transport_at(slot) {
            Some(Transport::Open) => true,
            _ => false,
        }
    }

    // A call that isn't refused begins: what is chosen from now on is chosen in it.
    pub(crate) fn begin_count(&mut self)
        ensures { self.new ≡ record self.old { chosen_before = self.old.chosen } }
    {
        self.chosen_before = self.routes.chosen();
    }

    /// Hands out the first octets of a slot's ring, as many as there are and fit, and queues again. Refused by 40
    /// where the slot isn't there. Where memory is refused to what a session is owed, that session is closed,
    /// and the report names its slot.
    pub fn take(&mut self, slot: u8, buf: &mut [u8]) -> Result<(usize, Report), Refusal>
        // The first refusal is the answer, and all stays as it was; where there is none, octets are handed out.
        ensures refused { MatchOption (take_refusal_of self.old slot) (IsOk result) (λ why. (result ≡ Err why) × (self.new ≡ self.old) × (buf.new ≡ buf.old)) }
        // The ring's first octets are handed out, as many as are there and fit.
        ensures handed { IfOk result (λ taken. (l : Linked) → link_at self.old.links slot ≡ Some l
            → (taken.0 ≡ min (length buf.old) (length l.peer.ring)) × (buf.new ≡ take taken.0 l.peer.ring ++ drop taken.0 buf.old)) }
        // For every run that the speaker agrees with, it agrees with that run followed by this call and what it did at its
        // end, with each want of memory, and this turn is what it reports.
        ensures agrees { IfOk result (λ taken. (config : TheConfig) (r : Run) → Agrees config r self.old
            → (queue : Queue) × (taken.1 ≡ report_of config r (turn (Take_call slot (take taken.0 buf.new)) queue))
            × Agrees config (turn (Take_call slot (take taken.0 buf.new)) queue ∷ r) self.new) }
        // The count of the calls before has all choices up to this one, and no choice is taken back.
        ensures counted { IfOk result (λ _. self.new.chosen_before ≡ self.old.chosen) }
        ensures rises { IfOk result (λ _. self.old.chosen ≤ self.new.chosen) }
    {
        let Some(taken) = self.hand_out(slot, buf) else {
            return Err(Refusal::BadSlot);
        };
        self.begin_count();
        let mut report = Report::nothing();
        report.starved = self.queue_updates();
        Ok((taken, report))
    }

    // Hands out the first octets of the ring of a slot, and answers how many.
    fn hand_out(&mut self, slot: u8, buf: &mut [u8]) -> Option<usize>
        ensures none { link_at self.old.links slot ≡ None → (result ≡ None) × (self.new ≡ self.old) × (buf.new ≡ buf.old) }
        ensures some { (l : Linked) → link_at self.old.links slot ≡ Some l
            → MatchOption result ⊥ (λ taken. (taken ≡ min (length buf.old) (length l.peer.ring)) × (buf.new ≡ take taken l.peer.ring ++ drop taken buf.old)
            × Hands slot l taken self.old self.new) }
    {
        self.routes.take(slot, buf)
    }

    // The first refusal of an event, if there is one.
    fn check(&self, event: &Event<'_>) -> Result<(), Refusal>
        ensures { MatchResult result (λ _. refusal_of self.now event.now ≡ None) (λ why. refusal_of self.now event.now ≡ Some why) }
    {
        match *event {
            Event::Up(slot) => self.check_up(slot),
            Event::Fail(slot) => self.check_fail(slot),
            Event::Bytes(slot, _) => self.check_octets(slot),
            Event::CacheUp => match self.transport_to_cache() {
                Some(Transport::Listening | Transport::Opening) => Ok(()),
                _ => Err(Refusal::NotExpected),
            },
            Event::CacheFail => match self.transport_to_cache() {
                Some(Transport::Opening | Transport::Open | Transport::Closing) => Ok(()),
                _ => Err(Refusal::NotExpected),
            },
            Event::CacheBytes(_) => match self.transport_to_cache() {
                Some(Transport::Open | Transport::Closing) => Ok(()),
                _ => Err(Refusal::NotExpected),
            },
            Event::Tick(now) if now < self.moment => Err(Refusal::ClockBack),
            Event::Tick(_) => Ok(()),
            Event::Command(command) => self.check_command(&command),
        }
    }

    // The first refusal of a command, if there is one.
    fn check_command(&self, command: &Command<'_>) -> Result<(), Refusal>
        ensures { MatchResult result (λ _. first_refusal self.now.conf (closing_for (tables_of self.now) command.now) command.now ≡ None)
            (λ why. first_refusal self.now.conf (closing_for (tables_of self.now) command.now) command.now ≡ Some why) }
    {
        self.routes.conf().check(command, self.closing_for(command))
    }

    // The first refusal of a connection of a slot that comes up, if there is one.
    fn check_up(&self, slot: u8) -> Result<(), Refusal>
        ensures { MatchResult result (λ _. refused_at (configured_session (tables_of self.now) slot) awaits_up ≡ None) (λ why. refused_at (configured_session (tables_of self.now) slot) awaits_up ≡ Some why) }
    {
        match self.configured_transport(slot) {
            Some(Transport::Opening | Transport::Listening) => Ok(()),
            Some(_) => Err(Refusal::NotExpected),
            None => Err(Refusal::BadSlot),
        }
    }

    // The first refusal of a failure of a slot's connection, or of its attempt at one, if there is one.
    fn check_fail(&self, slot: u8) -> Result<(), Refusal>
        ensures { MatchResult result (λ _. refused_at (session_at self.now.links slot) may_fail ≡ None) (λ why. refused_at (session_at self.now.links slot) may_fail ≡ Some why) }
    {
        match self.transport_at(slot) {
            Some(Transport::Opening | Transport::Open | Transport::Closing) => Ok(()),
            Some(_) => Err(Refusal::NotExpected),
            None => Err(Refusal::BadSlot),
        }
    }

    // The first refusal of octets on a slot's connection, if there is one.
    fn check_octets(&self, slot: u8) -> Result<(), Refusal>
        ensures { MatchResult result (λ _. refused_at (session_at self.now.links slot) may_bring_octets ≡ None) (λ why. refused_at (session_at self.now.links slot) may_bring_octets ≡ Some why) }
    {
        match self.transport_at(slot) {
            Some(Transport::Open | Transport::Closing) => Ok(()),
            Some(_) => Err(Refusal::NotExpected),
            None => Err(Refusal::BadSlot),
        }
    }

    // The transport of the cache session, where there is one.
    pub(crate) fn transport_to_cache(&self) -> Option<Transport>
        ensures { result ≡ cache_transport_of self.now }
    {
        match &self.cache {
            Some(session) => Some(session.transport()),
            None => None,
        }
    }

    // The slot that a command would give to a peer, as a set of slots, where a connection of it is still to be closed.
    fn closing_for(&self, command: &Command<'_>) -> u64
        ensures { result ≡ closing_for (tables_of self.now) command.now }
    {
        match *command {
            Command::AddPeer(slot, _) if slot < PEER_SLOTS && self.is_closing(slot) => slot_bit(
                slot,
            ),
            _ => 0,
        }
    }

    // Whether a connection of the slot is still to be closed.
    pub(crate) fn is_closing(&self, slot: u8) -> bool
        ensures { result ≡ closes (session_at self.now.links slot) }
    {
        match self.transport_at(slot) {
            Some(Transport::Closing) => true,
            _ => false,
        }
    }

    // The transport of a slot whose peer is configured.
    fn configured_transport(&self, slot: u8) -> Option<Transport>
        ensures { result ≡ option_map transport_of (configured_session (tables_of self.now) slot) }
    {
        match self.routes.conf().peer(slot) {
            Some(_) => self.transport_at(slot),
            None => None,
        }
    }

    // The transport of a slot that is there.
    fn transport_at(&self, slot: u8) -> Option<Transport>
        ensures { result ≡ option_map transport_of (session_at self.now.links slot) }
    {
        match self.routes.peer(slot) {
            Some(found) => Some(found.transport()),
            None => None,
        }
    }

    // The end of each step: the peers are queued what they are owed. Answers the slots to which memory is refused.
    fn settle(&mut self) -> u64
        ensures agrees { (config : TheConfig) (call : Call) (r : Run) → Holds config (turn call [] ∷ r) self.old → IsFair config r call → IsThrifty config r
            → (queue : Queue) × (starved_in queue ≡ result) × Agrees config (turn call queue ∷ r) self.new }
        ensures counted { self.new.chosen_before ≡ self.old.chosen_before }
        ensures rises { self.old.chosen ≤ self.new.chosen }
    {
        self.routes.is_chosen();
        self.queue_updates()
    }
}
