//! What each line is answered.
ghost use Rattle.std.specs.Prelude.{◌≡◌, IfOk, None};
ghost use Rattle.std.specs.Bool.{OnTrue};
ghost use Rattle.speaker_desk.specs.Answering.{AnswersLine, AnswersText, ClearsSlot, Commands, IsCleared, IsObeyed, IsToldWhere, Stops, StopsBelow, settled};
ghost use Rattle.speaker_desk.specs.Attended.{AttendsBelow, AttendsWish, BeginsBelow, BeginsIf, EnablesAll, HasStopped, IsTold, LetsThrough, StopsAt, may_begin};
ghost use Rattle.speaker_desk.specs.Restarts.{is_gone, none_again};
ghost use Rattle.speaker_turns.specs.Sessions.{transport_of};
ghost use Rattle.speaker_turns.specs.declared.end.End.TheVariants.{Peer as PeerEnd};
ghost use Rattle.speaker_desk.specs.Waiting.{decided_by};

use crate::answers::{say_bad_line, say_done, say_no_peer, say_refused};
use crate::exchange::Exchange;
use crate::gate::Gate;
use crate::line::{added_by, ascii_text, decided_by, line_of, remote_of, without_return};
use crate::restarts::Restarts;
use bgp_conf::{Command, PEER_SLOTS, Refusal};
use command_lines::words_of;
use control_lines::{OPERATORS, Operators, Wish};
use decision::Book;
use net_prefix::Transport;
use scenario::{Line, LineFault, SpeakerLine};
use speaker::{Report, Speaker};
use speaker_tables::{Rest, Scene, Shown, StateTimes, shown_by, write_piece};
use speaker_turns::{End, SpeakerLoop};
use std::alloc::{AllocError, Global};
use std::io::{self, Write};
use std::marker::Model;
use std::net::SocketAddr;
use wires::Wire;

/// For how many seconds at most sessions are still served behind `stop`, so that what was said to their peers goes out
/// (own choice).
pub(crate) const STOPPING_SECONDS: u64 = 5;

// What is still to be said to an operator behind a piece.
type Left = Option<Rest>;

// What an answer leads to.
#[derive(Clone, Copy)]
enum Said {
    /// It is whole.
    Whole,
    /// More of a table is to come.
    More(Rest),
}

/// What is kept of operators' lines between turns, and peers that wait.
#[derive(Drop)]
pub struct Desk<'a> {
    alloc: Global,
    // Where the peers of the settings are.
    remotes: &'a [(u8, SocketAddr)],
    gate: Gate,
    restarts: Restarts,
    exchange: &'a Exchange,
    // What is being said, and what is left of the table of each operator.
    page: Vec<u8>,
    left: Vec<Left>,
    // When `stop` was said.
    stopped: Option<u64>,
    // Since when sessions are in their states.
    times: StateTimes,
}

impl<'a> Model for Desk<'a> {
    ghost use Rattle.speaker_desk.specs.Standing.{DeskState};

    ghost Value = { DeskState };

    ghost view = { λ desk. record { remotes = desk.remotes.now; waiting = desk.gate; again = desk.restarts; stopped = desk.stopped } };
}

impl<'a> Desk<'a> {
    /// Nothing was asked yet. The peers of the settings are there, those of the gate wait, and what operators command is noted.
    pub fn new(
        alloc: Global,
        remotes: &'a [(u8, SocketAddr)],
        gate: Gate,
        exchange: &'a Exchange,
    ) -> Result<Desk<'a>, AllocError>
        ensures { IfOk result (λ desk. desk ≡ record { remotes = remotes.now; waiting = gate; again = none_again; stopped = None }) }
    {
        Ok(Desk {
            alloc,
            remotes,
            gate,
            restarts: Restarts::none(alloc)?,
            exchange,
            page: Vec::new(alloc),
            left: nothing_left(alloc)?,
            stopped: None,
            times: StateTimes::new(alloc)?,
        })
    }

    /// Notes the states of the sessions behind a turn of this moment, to tell since when they are in them.
    pub fn note_states<B: Book<Global>>(&mut self, speaker: &Speaker<Global, B>, now: u64)
        ensures { self.new ≡ self.old }
    {
        self.times.look(speaker, now);
    }

    /// Enables the peers that wait, where they may go: from the first turn on behind which the session with the cache is synced,
    /// or whose moment is theirs.
    #[tactic(auto, using(crate::proofs::Attended::lets_none, crate::proofs::Attended::lets_all))]
    pub fn let_through<W: Wire + Drop, B: Book<Global>>(
        &mut self,
        served: &mut SpeakerLoop<W, Global, B>,
        now: u64,
    )
        ensures { LetsThrough now (record { served = served.old; desk = self.old }) (record { served = served.new; desk = self.new }) }
    {
        if !self.gate.open(now, served.speaker().cache_session()) {
            return;
        }
        let slots = self.gate.take(self.alloc);
        self.enable_all(served, slots.as_slice());
    }

    // Enables the peers of these slots, one after another.
    fn enable_all<W: Wire + Drop, B: Book<Global>>(
        &mut self,
        served: &mut SpeakerLoop<W, Global, B>,
        slots: &[u8],
    )
        ensures all { EnablesAll slots.now served.old served.new }
        ensures same { self.new ≡ self.old }
    {
        for slot in slots {
            let _taken = served.obey(Command::Enable(*slot));
            self.note_let(*slot);
        }
    }

    /// Enables the peers that were cleared and whose connections are gone by now, each once, so that their sessions begin at
    /// once.
    #[tactic(auto, using(crate::proofs::Attended::begins_first, crate::proofs::Attended::begins_more, crate::proofs::Attended::begins_all))]
    pub fn begin_again<W: Wire + Drop, B: Book<Global>>(
        &mut self,
        served: &mut SpeakerLoop<W, Global, B>,
    )
        ensures { BeginsBelow 64 (record { served = served.old; desk = self.old }) (record { served = served.new; desk = self.new }) }
    {
        for slot in 0..PEER_SLOTS {
            self.begin_slot(served, slot);
        }
    }

    #[tactic(auto, using(crate::proofs::Attended::begins_none, crate::proofs::Attended::begins_one))]
    fn begin_slot<W: Wire + Drop, B: Book<Global>>(
        &mut self,
        served: &mut SpeakerLoop<W, Global, B>,
        slot: u8,
    )
        ensures { BeginsIf (may_begin slot (record { served = served.old; desk = self.old })) slot (record { served = served.old; desk = self.old }) (record { served = served.new; desk = self.new }) }
    {
        if !self.restarts.has(slot) || !is_gone(served.speaker(), slot) {
            return;
        }
        let _taken = served.obey(Command::Enable(slot));
        self.note_let(slot);
        self.restarts.set(slot, false);
    }

    // A log has it as an operator's command.
    fn note_let(&mut self, slot: u8)
        ensures { self.new ≡ self.old }
    {
        self.page.clear();
        let _said = write!(self.page, "enable {slot}");
        self.exchange.note(self.page.as_slice(), b"ok\n");
    }

    /// Answers each operator that waits for something, in rising order of their keys.
    pub fn attend<W: Wire + Drop, B: Book<Global>, O: Operators>(
        &mut self,
        served: &mut SpeakerLoop<W, Global, B>,
        operators: &mut O,
        now: u64,
    )
        ensures { AttendsBelow O.wish O.line O.turns O.hears 16 now (record { stand = record { served = served.old; desk = self.old }; operators = operators.old })
            (record { stand = record { served = served.new; desk = self.new }; operators = operators.new }) }
    {
        for key in 0..OPERATORS {
            self.attend_one(served, operators, key, now);
        }
    }

    // Answers the operator at this place, who may wait for something.
    fn attend_one<W: Wire + Drop, B: Book<Global>, O: Operators>(
        &mut self,
        served: &mut SpeakerLoop<W, Global, B>,
        operators: &mut O,
        key: usize,
        now: u64,
    )
        ensures { AttendsWish O.wish O.line O.turns O.hears (O.wish operators.old key) key now (record { stand = record { served = served.old; desk = self.old }; operators = operators.old })
            (record { stand = record { served = served.new; desk = self.new }; operators = operators.new }) }
    {
        match operators.wish(key) {
            Wish::Nothing => {}
            Wish::Answer => self.answer(served, operators, key, now),
            Wish::More => self.go_on(served.speaker(), operators, key, now),
        }
    }

    /// Whether the program has stopped: `stop` was said, and neither sessions nor operators have anything to say any more, or
    /// so much time has passed, behind which it has.
    pub fn has_stopped<B: Book<Global>>(
        &self,
        speaker: &Speaker<Global, B>,
        is_busy: bool,
        now: u64,
    ) -> bool
        ensures stopped { OnTrue result (HasStopped self.now.stopped) }
        ensures ends { StopsAt self.now.stopped now result }
    {
        let Some(since) = self.stopped else {
            return false;
        };
        now.saturating_sub(since) >= STOPPING_SECONDS || !is_busy && is_silent(speaker)
    }

    // Answers the line of an operator.
    fn answer<W: Wire + Drop, B: Book<Global>, O: Operators>(
        &mut self,
        served: &mut SpeakerLoop<W, Global, B>,
        operators: &mut O,
        key: usize,
        now: u64,
    )
        ensures answers { AnswersLine (O.line operators.old key) now (record { served = served.old; desk = self.old }) (record { served = served.new; desk = self.new }) }
        ensures tells { IsTold O.hears key operators.old operators.new }
    {
        self.turn_page();
        let said = self.say(served, operators.line(key), now);
        self.note(operators.line(key));
        self.put(operators, key, said);
    }

    // Nothing is said yet.
    fn turn_page(&mut self)
        ensures { self.new ≡ self.old }
    {
        self.page.clear();
    }

    // Notes what the line was answered.
    fn note(&self, line: &[u8]) {
        self.exchange.note(line, self.page.as_slice());
    }

    // Shows an operator the next piece of its table.
    fn go_on<B: Book<Global>, O: Operators>(
        &mut self,
        speaker: &Speaker<Global, B>,
        operators: &mut O,
        key: usize,
        now: u64,
    )
        ensures same { self.new ≡ self.old }
        ensures tells { IsTold O.hears key operators.old operators.new }
    {
        self.turn_page();
        let said = match self.left.get(key).copied() {
            Some(Some(rest)) => self.show(speaker, rest, now),
            _ => Ok(Said::Whole),
        };
        self.put(operators, key, said);
    }

    // Hands what is said to the operator. What memory refused is cut.
    fn put<O: Operators>(&mut self, operators: &mut O, key: usize, said: io::Result<Said>)
        ensures same { self.new ≡ self.old }
        ensures tells { IsTold O.hears key operators.old operators.new }
    {
        let rest = match said {
            Ok(Said::More(rest)) => Some(rest),
            Ok(Said::Whole) | Err(_) => None,
        };
        operators.say(key, self.page.as_slice(), rest.is_some());
        if let Some(left) = self.left.get_mut(key) {
            *left = rest;
        }
    }

    // Says what the line is answered.
    #[tactic(auto, using(crate::proofs::Attended::line_stops, crate::proofs::Attended::line_says, crate::proofs::Attended::line_none))]
    fn say<W: Wire + Drop, B: Book<Global>>(
        &mut self,
        served: &mut SpeakerLoop<W, Global, B>,
        line: &[u8],
        now: u64,
    ) -> io::Result<Said>
        ensures { AnswersLine line.now now (record { served = served.old; desk = self.old }) (record { served = served.new; desk = self.new }) }
    {
        let line = without_return(line);
        if line == b"stop".as_slice() {
            return self.stop(served, now);
        }
        match ascii_text(line) {
            Some(text) => self.say_text(served, text, now),
            None => self.bad_line(""),
        }
    }

    // Stops the program: disables each peer, of whom none waits or is to begin again any more.
    fn stop<W: Wire + Drop, B: Book<Global>>(
        &mut self,
        served: &mut SpeakerLoop<W, Global, B>,
        now: u64,
    ) -> io::Result<Said>
        ensures { Stops now (record { served = served.old; desk = self.old }) (record { served = served.new; desk = self.new }) }
    {
        stop_all(served);
        self.gate.forget_all();
        self.restarts.forget_all();
        self.stopped = Some(now);
        writeln!(self.page, "ok")?;
        Ok(Said::Whole)
    }

    // Says what the text of a line is answered.
    #[tactic(auto, using(crate::proofs::Attended::commands_none))]
    fn say_text<W: Wire + Drop, B: Book<Global>>(
        &mut self,
        served: &mut SpeakerLoop<W, Global, B>,
        text: &str,
        now: u64,
    ) -> io::Result<Said>
        ensures { Commands text.now (record { served = served.old; desk = self.old }) (record { served = served.new; desk = self.new }) }
    {
        if let Some(shown) = shown_by(text) {
            return self.begin(served.speaker(), shown, now);
        }
        if text.starts_with("clear ") {
            return self.clear(served, text);
        }
        self.say_line(served, text, now)
    }

    // Says what a line is answered that scripts have too.
    #[tactic(auto, using(crate::proofs::Attended::commands_none))]
    fn say_line<W: Wire + Drop, B: Book<Global>>(
        &mut self,
        served: &mut SpeakerLoop<W, Global, B>,
        text: &str,
        now: u64,
    ) -> io::Result<Said>
        ensures { Commands text.now (record { served = served.old; desk = self.old }) (record { served = served.new; desk = self.new }) }
    {
        match Line::parse(self.alloc, text) {
            Ok(Line::Drive(SpeakerLine::Obey(line))) => self.obey(served, line.command()),
            Ok(Line::Drive(SpeakerLine::Show(table))) => {
                self.begin(served.speaker(), Shown::Table(table), now)
            }
            Ok(_) => self.bad_line(text),
            Err(fault) => self.refuse_line(fault, text),
        }
    }

    fn bad_line(&mut self, text: &str) -> io::Result<Said>
        ensures { self.new ≡ self.old }
    {
        say_bad_line(self.alloc, &mut self.page, text)?;
        Ok(Said::Whole)
    }

    fn refuse_line(&mut self, fault: LineFault, text: &str) -> io::Result<Said>
        ensures { self.new ≡ self.old }
    {
        match fault {
            LineFault::BadLine => self.bad_line(text),
            LineFault::NoMemory => self.refuse(Refusal::NoMemory),
        }
    }

    fn refuse(&mut self, refusal: Refusal) -> io::Result<Said>
        ensures { self.new ≡ self.old }
    {
        say_refused(&mut self.page, refusal)?;
        Ok(Said::Whole)
    }

    // Hands the command to the speaker. Of a peer that is configured so it is told where it is, and one whose session it decides
    // on neither waits nor is to begin again any longer.
    #[tactic(auto, using(crate::proofs::Attended::obeys_ok, crate::proofs::Attended::obeys_err))]
    fn obey<W: Wire + Drop, B: Book<Global>>(
        &mut self,
        served: &mut SpeakerLoop<W, Global, B>,
        command: Command<'_>,
    ) -> io::Result<Said>
        ensures { IsObeyed command.entry (record { served = served.old; desk = self.old }) (record { served = served.new; desk = self.new }) }
    {
        match served.obey(command) {
            Ok(report) => {
                self.tell_remote(served, command);
                self.decide(command);
                self.say_obeyed(&command, &report)
            }
            Err(refusal) => self.refuse(refusal),
        }
    }

    fn say_obeyed(&mut self, command: &Command<'_>, report: &Report) -> io::Result<Said>
        ensures { self.new ≡ self.old }
    {
        say_done(&mut self.page, command, report)?;
        Ok(Said::Whole)
    }

    #[tactic(auto, using(crate::proofs::Attended::told_some, crate::proofs::Attended::told_none))]
    fn tell_remote<W: Wire + Drop, B: Book<Global>>(
        &self,
        served: &mut SpeakerLoop<W, Global, B>,
        command: Command<'_>,
    )
        ensures { IsToldWhere self.now.remotes command.entry served.old served.new }
    {
        match added_by(&command) {
            Some((slot, address)) => {
                let remote = remote_of(self.remotes, slot, address);
                served.set_remote(End::Peer(slot), remote);
            }
            None => {}
        }
    }

    // The peer on whose session a command decides neither waits nor is to begin again any longer.
    fn decide(&mut self, command: Command<'_>)
        ensures { self.new ≡ settled (decided_by command.entry) self.old }
    {
        match decided_by(&command) {
            Some(slot) => {
                self.gate.forget(slot);
                self.restarts.set(slot, false);
            }
            None => {}
        }
    }

    // Ends the session of a slot by an administrative shutdown (RFC 4486 section 4), behind which it begins again.
    #[tactic(auto, using(crate::proofs::Attended::commands_none, crate::proofs::Attended::commands_clears))]
    fn clear<W: Wire + Drop, B: Book<Global>>(
        &mut self,
        served: &mut SpeakerLoop<W, Global, B>,
        text: &str,
    ) -> io::Result<Said>
        ensures { Commands text.now (record { served = served.old; desk = self.old }) (record { served = served.new; desk = self.new }) }
    {
        let Ok(words) = words_of(self.alloc, text) else {
            return self.refuse(Refusal::NoMemory);
        };
        match words.as_slice() {
            ["clear", slot] => self.clear_slot(served, slot),
            _ => self.bad_line(text),
        }
    }

    // The same of the slot that a word names.
    #[tactic(auto, using(crate::proofs::Attended::clears_none))]
    fn clear_slot<W: Wire + Drop, B: Book<Global>>(
        &mut self,
        served: &mut SpeakerLoop<W, Global, B>,
        word: &str,
    ) -> io::Result<Said>
        ensures { ClearsSlot word.now (record { served = served.old; desk = self.old }) (record { served = served.new; desk = self.new }) }
    {
        let line = match line_of(self.alloc, "disable", word) {
            Ok(line) => line,
            Err(fault) => return self.refuse_line(fault, ""),
        };
        match line.command() {
            Command::Disable(slot) => self.restart(served, slot),
            _ => self.bad_line(""),
        }
    }

    // Disables the peer of a slot, which is enabled again once its connection is gone.
    #[tactic(auto, using(crate::proofs::Attended::cleared_ok, crate::proofs::Attended::cleared_err))]
    fn restart<W: Wire + Drop, B: Book<Global>>(
        &mut self,
        served: &mut SpeakerLoop<W, Global, B>,
        slot: u8,
    ) -> io::Result<Said>
        ensures { IsCleared slot (record { served = served.old; desk = self.old }) (record { served = served.new; desk = self.new }) }
    {
        let command = Command::Disable(slot);
        match served.obey(command) {
            Ok(report) => {
                self.gate.forget(slot);
                self.restarts.set(slot, true);
                self.say_obeyed(&command, &report)
            }
            Err(why) => self.refuse(why),
        }
    }

    // Shows the first piece of a table, unless it is of a slot without a peer.
    fn begin<B: Book<Global>>(
        &mut self,
        speaker: &Speaker<Global, B>,
        shown: Shown,
        now: u64,
    ) -> io::Result<Said>
        ensures { self.new ≡ self.old }
    {
        if let Some(slot) = slot_without_peer(speaker, shown) {
            say_no_peer(&mut self.page, slot)?;
            return Ok(Said::Whole);
        }
        self.show(speaker, Rest::whole(shown), now)
    }

    // Shows the next piece of a table.
    fn show<B: Book<Global>>(
        &mut self,
        speaker: &Speaker<Global, B>,
        rest: Rest,
        now: u64,
    ) -> io::Result<Said>
        ensures { self.new ≡ self.old }
    {
        let scene = Scene {
            speaker,
            times: &self.times,
            now,
        };
        match write_piece(&scene, rest, &mut self.page)? {
            Some(rest) => Ok(Said::More(rest)),
            None => Ok(Said::Whole),
        }
    }
}

// Whether the slot's session has no connection, and awaits none.
fn is_gone<B: Book<Global>>(speaker: &Speaker<Global, B>, slot: u8) -> bool
    ensures { result ≡ is_gone (transport_of speaker.now (PeerEnd slot)) }
{
    speaker.transport(slot) == Transport::None
}

// The slot of whose peer a table is, where there is no such peer.
fn slot_without_peer<B: Book<Global>>(speaker: &Speaker<Global, B>, shown: Shown) -> Option<u8> {
    let slot = shown.slot()?;
    match speaker.session(slot) {
        Some(_) => None,
        None => Some(slot),
    }
}

fn nothing_left(alloc: Global) -> Result<Vec<Left>, AllocError> {
    let mut left = Vec::new(alloc);
    for _ in 0..OPERATORS {
        left.push(None)?;
    }
    Ok(left)
}

// Disables each peer: its session ends by an administrative shutdown (RFC 4486 section 4).
#[tactic(auto, using(crate::proofs::Attended::stops_first, crate::proofs::Attended::stops_more, crate::proofs::Attended::stops_all))]
fn stop_all<W: Wire + Drop, B: Book<Global>>(served: &mut SpeakerLoop<W, Global, B>)
    ensures { StopsBelow 64 served.old served.new }
{
    for slot in 0..PEER_SLOTS {
        let _taken = served.obey(Command::Disable(slot));
    }
}

// Whether no session of a peer has a connection any more.
fn is_silent<B: Book<Global>>(speaker: &Speaker<Global, B>) -> bool {
    for slot in 0..PEER_SLOTS {
        if speaker.transport(slot) != Transport::None {
            return false;
        }
    }
    true
}
