//! Who answers operators.
ghost use Rattle.std.specs.Prelude.{◌≡◌, ◌<◌, IfOk, Some, if◌then◌else◌, is_some};
ghost use Rattle.cache_desk.specs.Clerks.{state_of};
ghost use Rattle.cache_desk.specs.Desks.{AnswersLine, AsksIf, Attends, AttendsBelow, AttendsBy, IsAnswered, IsAnsweredWholly, StopsAt, Tells, ToldBelow, Visits, nothing_asked};
ghost use Rattle.cache_desk.specs.Readings.{has_sense, is_refused, may_ask};

use crate::line::{Line, line_of};
use crate::reading::Reading;
use crate::tables::{Rest, Scene, Shown, write_piece};
use cache_watch::Reread;
use control_lines::{OPERATORS, Operators, Wish};
use std::alloc::{AllocError, Global};
use std::io::{self, Write};
use wires::Wire;

/// For how many seconds at most the program goes on behind `stop`, so that operators take what was said to them (own choice).
pub(crate) const STOPPING_SECONDS: u64 = 5;

// What is still to be said to an operator behind a piece.
type Left = Option<Rest>;

/// The operators, and what is kept of their lines between turns.
#[derive(Drop)]
pub(crate) struct Clerk<P> {
    operators: P,
    // What is being said, and what is left of the table of each operator.
    page: Vec<u8>,
    left: Vec<Left>,
    // Which reading is asked for next, and who is told what it leads to.
    asking: Option<Reading>,
    askers: [bool; OPERATORS],
    // When a reading was asked for last.
    asked: Option<u64>,
    // What the last reading led to.
    last: Option<Reread>,
    // When `stop` was said.
    stopped: Option<u64>,
}

impl<P: Operators> Clerk<P> {
    /// Nothing was asked yet.
    pub(crate) fn new(alloc: Global, operators: P) -> Result<Clerk<P>, AllocError>
    where
        P: Drop,
        ensures { IfOk result (λ clerk. state_of clerk ≡ nothing_asked operators) }
    {
        let left = nothing_left(alloc)?;
        Ok(Clerk {
            operators,
            page: Vec::new(alloc),
            left,
            asking: None,
            askers: [false; OPERATORS],
            asked: None,
            last: None,
            stopped: None,
        })
    }

    /// Lets in an operator who has come, and visits each. Answers whether one waits for something.
    pub(crate) fn visit(&mut self, now: u64) -> bool
        ensures { Visits P.turns P.wish now result (state_of self.old) (state_of self.new) }
    {
        self.operators.turn(now);
        for key in 0..OPERATORS {
            if self.operators.wish(key) != Wish::Nothing {
                return true;
            }
        }
        false
    }

    /// Answers each operator that waits for something, but for readings, of which the first is answered here.
    pub(crate) fn attend<W: Wire + Drop>(&mut self, scene: &Scene<'_, W>) -> Option<Reading>
        ensures { Attends P.wish P.line P.hears scene.entry.now.now result (state_of self.old) (state_of self.new) }
    {
        for key in 0..OPERATORS {
            self.attend_one(scene, key);
        }
        self.note_asked(scene.now)
    }

    // Which reading is asked for: in this second, if one is.
    fn note_asked(&mut self, now: u64) -> Option<Reading>
        ensures reading { result ≡ self.old.asking }
        ensures noted { state_of self.new ≡ record (state_of self.old) { asked = if is_some self.old.asking then Some now else self.old.asked } }
    {
        if self.asking.is_some() {
            self.asked = Some(now);
        }
        self.asking
    }

    // Answers the operator of this key, who may wait for something.
    fn attend_one<W: Wire + Drop>(&mut self, scene: &Scene<'_, W>, key: usize)
        requires { key < 16 }
        ensures { AttendsBy P.hears (P.wish self.old.operators key) (P.line self.old.operators key) scene.entry.now.now key (state_of self.old) (state_of self.new) }
    {
        match self.operators.wish(key) {
            Wish::Nothing => {}
            Wish::Answer => self.answer(scene, key),
            Wish::More => self.go_on(scene, key),
        }
    }

    /// Notes what reading the list has led to, and tells it to those who asked for it.
    pub(crate) fn tell(&mut self, led: Reread, payloads: usize)
        ensures { Tells P.hears led (state_of self.old) (state_of self.new) }
    {
        self.page.clear();
        let _said = write_outcome(led, payloads, &mut self.page);
        self.tell_askers();
        self.last = Some(led);
        self.asking = None;
        self.askers = [false; OPERATORS];
    }

    // Says what stands on the page to all who asked.
    fn tell_askers(&mut self)
        ensures told { ToldBelow P.hears self.old.askers self.old.page.items 16 self.old.operators self.new.operators }
        ensures same { state_of self.new ≡ record (state_of self.old) { operators = self.new.operators } }
    {
        for key in 0..OPERATORS {
            if self.askers[key] {
                self.hand_out(key, None);
            }
        }
    }

    /// Whether octets of operators came or went, or something was said, since the last visit.
    pub(crate) fn is_busy(&self) -> bool {
        self.operators.is_busy()
    }

    /// Whether `stop` was said, and no operator moves anything any more, or so much time has passed.
    pub(crate) fn has_stopped(&self, now: u64) -> bool
        ensures { StopsAt self.now.stopped now result }
    {
        let Some(since) = self.stopped else {
            return false;
        };
        now.saturating_sub(since) >= STOPPING_SECONDS || !self.is_busy()
    }

    fn answer<W: Wire + Drop>(&mut self, scene: &Scene<'_, W>, key: usize)
        requires { key < 16 }
        ensures { AnswersLine P.hears scene.entry.now.now key (P.line self.old.operators key) (state_of self.old) (state_of self.new) }
    {
        match line_of(self.operators.line(key)) {
            Line::Show(shown) => self.begin(scene, key, shown),
            Line::Read(reading) => self.ask(scene.now, key, reading),
            Line::Stop => {
                self.stopped = Some(scene.now);
                self.say(key, "ok");
            }
            Line::Bad => self.say(key, "bad line"),
        }
    }

    // Notes a reading that is asked for. Where another one is already, or one was asked for in this second, the operator waits.
    fn ask(&mut self, now: u64, key: usize, reading: Reading)
        requires { key < 16 }
        ensures { AsksIf P.hears (has_sense reading self.old.last) now key reading (state_of self.old) (state_of self.new) }
    {
        if reading == Reading::Accept && !is_refused(self.last) {
            self.say(
                key,
                "refused: no guard refused the list when it was read last",
            );
            return;
        }
        if !may_ask(self.asking, reading, self.asked, now) {
            return;
        }
        self.asking = Some(reading);
        self.askers[key] = true;
    }

    fn begin<W: Wire + Drop>(&mut self, scene: &Scene<'_, W>, key: usize, shown: Shown)
        ensures { IsAnswered P.hears key (state_of self.old) (state_of self.new) }
    {
        let rest = Rest {
            shown,
            behind: None,
        };
        self.show(scene, key, rest);
    }

    // Shows an operator the next piece of its table.
    fn go_on<W: Wire + Drop>(&mut self, scene: &Scene<'_, W>, key: usize)
        ensures { IsAnswered P.hears key (state_of self.old) (state_of self.new) }
    {
        match self.left.get(key).copied() {
            Some(Some(rest)) => self.show(scene, key, rest),
            _ => self.say(key, "end"),
        }
    }

    // What memory refused is cut.
    fn show<W: Wire + Drop>(&mut self, scene: &Scene<'_, W>, key: usize, rest: Rest)
        ensures { IsAnswered P.hears key (state_of self.old) (state_of self.new) }
    {
        self.page.clear();
        let left = write_piece(scene, self.last, rest, &mut self.page);
        self.hand_out(key, left.unwrap_or(None));
    }

    fn say(&mut self, key: usize, text: &str)
        ensures { IsAnsweredWholly P.hears key (state_of self.old) (state_of self.new) }
    {
        self.page.clear();
        let _said = writeln!(self.page, "{text}");
        self.hand_out(key, None);
    }

    // Hands what stands on the page to the operator, of whose table this is left.
    fn hand_out(&mut self, key: usize, rest: Left)
        ensures said { P.hears key self.old.page.items (is_some rest) self.old.operators self.new.operators }
        ensures page { self.new.page ≡ self.old.page }
        ensures same { state_of self.new ≡ record (state_of self.old) { operators = self.new.operators } }
    {
        self.operators
            .say(key, self.page.as_slice(), rest.is_some());
        if let Some(left) = self.left.get_mut(key) {
            *left = rest;
        }
    }
}

// Whether a reading may be asked for now: one a second is, and those who ask for the same one at once share it (own choice).
fn may_ask(asking: Option<Reading>, reading: Reading, asked: Option<u64>, now: u64) -> bool
    ensures { result ≡ may_ask asking reading asked now }
{
    match (asking, reading, asked) {
        (None, _, None) => true,
        (None, _, Some(asked)) => asked != now,
        (Some(Reading::Reread), Reading::Reread, _) => true,
        (Some(_), _, _) => false,
    }
}

// Whether a list was refused that may be accepted.
fn is_refused(last: Option<Reread>) -> bool
    ensures { result ≡ is_refused last }
{
    match last {
        Some(Reread::Refused(why)) => why.payloads().is_some(),
        _ => false,
    }
}

fn write_outcome(led: Reread, payloads: usize, page: &mut Vec<u8>) -> io::Result<()> {
    match led {
        Reread::Refused(why) => writeln!(page, "refused: {why}"),
        Reread::Same | Reread::Unchanged => { writeln!(page, "ok the same {payloads} payloads") }
        Reread::Published(serial) => writeln!(page, "ok serial {serial} payloads {payloads}"),
    }
}

fn nothing_left(alloc: Global) -> Result<Vec<Left>, AllocError> {
    let mut left = Vec::new(alloc);
    for _ in 0..OPERATORS {
        left.push(None)?;
    }
    Ok(left)
}
