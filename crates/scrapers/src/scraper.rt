//! One scraper's connection.
ghost use Rattle.std.specs.Prelude.{◌≡◌, []};
ghost use Rattle.prometheus_text.specs.Answers.{answer_of};
ghost use Rattle.prometheus_text.specs.Requests.{AsksFor};
ghost use Rattle.scrapers.specs.Scraping.{Follows, IsSaying, Moves, Visits, is_late};

use arrayvec::ArrayVec;
use prometheus_text::{Asked, MOST_OCTETS, judge_request, write_answer};
use std::alloc::Global;
use std::io::{ErrorKind, Read, Write};
use std::marker::Model;

/// How many seconds a scraper has from its coming until it has taken its answer (own choice).
pub const SCRAPE_SECONDS: u64 = 10;

// How many octets are read at once.
const READ_AT_ONCE: usize = 1_024;

/// How far a scraper is.
#[derive(Clone, Copy, Debug, PartialEq, Eq)]
pub enum Stage {
    /// Its request isn't whole yet.
    Asking,
    /// It waits for the figures.
    Waiting,
    /// It is told its answer.
    Answered,
    /// It is gone, or is to go.
    Over,
}

/// One scraper's connection, which doesn't wait.
#[derive(Drop)]
pub struct Scraper<S> {
    stream: S,
    came: u64,
    stage: Stage,
    // The octets of its request, as far as they have come.
    request: ArrayVec<u8, MOST_OCTETS>,
    // What it is told, and how much of that is written.
    answer: Vec<u8>,
    written: usize,
}

impl<S> Model for Scraper<S> {
    ghost use Rattle.std.specs.Prelude.{drop};
    ghost use Rattle.scrapers.specs.Scraping.{IsHeard, Scrape};

    ghost Value = { Scrape };

    ghost view = { λ s. record { came = s.came; stage = s.stage; request = s.request.items; unsaid = drop s.written s.answer.items } };

    ghost invariant = { λ s. IsHeard s.stage s.request.items };
}

impl<S: Read + Write + Drop> Scraper<S> {
    /// One who has come at this moment.
    pub fn new(alloc: Global, stream: S, now: u64) -> Self
        ensures { result ≡ record { came = now; stage = Stage.Asking; request = []; unsaid = [] } }
    {
        Scraper {
            stream,
            came: now,
            stage: Stage::Asking,
            request: ArrayVec::new(),
            answer: Vec::new(alloc),
            written: 0,
        }
    }

    /// How far it is.
    pub fn stage(&self) -> Stage
        ensures { result ≡ self.now.stage }
    {
        self.stage
    }

    /// Reads what has come of its request, or writes its answer as far as that is taken. One that is here for 10 seconds is
    /// over.
    pub fn visit(&mut self, now: u64)
        ensures came { self.new.came ≡ self.old.came }
        ensures visits { Visits (is_late now self.old) self.old self.new }
    {
        if self.is_late(now) {
            self.give_up();
            return;
        }
        match self.stage {
            Stage::Asking => self.read(),
            Stage::Answered => self.write(),
            Stage::Waiting | Stage::Over => {}
        }
    }

    /// Tells the figures to one who waits for them. Where there is no memory for its answer, it is over.
    pub fn tell(&mut self, figures: &[u8])
        ensures came { self.new.came ≡ self.old.came }
        ensures told { self.old.stage ≡ Stage.Waiting → IsSaying (answer_of Asked.Metrics figures.now) self.new }
        ensures other { ¬ (self.old.stage ≡ Stage.Waiting) → self.new ≡ self.old }
    {
        if self.stage == Stage::Waiting {
            self.reply(Asked::Metrics, figures);
        }
    }

    // Whether it is here for too long.
    fn is_late(&self, now: u64) -> bool
        ensures { result ≡ is_late now self.now }
    {
        now >= self.came && now - self.came >= SCRAPE_SECONDS
    }

    // It is over. Where its request isn't whole, it is told so, as far as it takes that at once.
    fn give_up(&mut self)
        ensures came { self.new.came ≡ self.old.came }
        ensures over { self.new.stage ≡ Stage.Over }
    {
        if self.stage == Stage::Asking {
            self.reply(Asked::More, &[]);
        }
        self.stage = Stage::Over;
    }

    // Begins to say what is answered to what was asked for.
    fn reply(&mut self, asked: Asked, figures: &[u8])
        ensures came { self.new.came ≡ self.old.came }
        ensures request { self.new.request ≡ self.old.request }
        ensures says { IsSaying (answer_of asked figures.now) self.new }
    {
        self.answer.clear();
        self.written = 0;
        match write_answer(&mut self.answer, asked, figures) {
            Ok(()) => self.write(),
            Err(_) => self.stage = Stage::Over,
        }
    }

    // Writes its answer as far as that is taken.
    fn write(&mut self)
        ensures came { self.new.came ≡ self.old.came }
        ensures request { self.new.request ≡ self.old.request }
        ensures says { IsSaying self.old.unsaid self.new }
    {
        self.stage = Stage::Answered;
        let Some(rest) = self.answer.as_slice().get(self.written..) else {
            self.stage = Stage::Over;
            return;
        };
        match self.stream.write(rest) {
            Ok(0) => self.stage = Stage::Over,
            Ok(count) => self.pass(count),
            Err(error) if is_of_now(error.kind()) => {}
            Err(_) => self.stage = Stage::Over,
        }
    }

    // So much more of its answer is written: behind all of it the connection is over.
    fn pass(&mut self, count: usize)
        requires { self.old.stage ≡ Stage.Answered }
        ensures came { self.new.came ≡ self.old.came }
        ensures request { self.new.request ≡ self.old.request }
        ensures says { IsSaying self.old.unsaid self.new }
    {
        match self.written.checked_add(count) {
            Some(written) if written < self.answer.len() => self.written = written,
            _ => self.stage = Stage::Over,
        }
    }

    // Reads what has come of its request.
    fn read(&mut self)
        requires { self.old.stage ≡ Stage.Asking }
        ensures came { self.new.came ≡ self.old.came }
        ensures moves { Moves Stage.Asking self.old self.new }
    {
        let mut buf = [0; READ_AT_ONCE];
        let most = READ_AT_ONCE.min(MOST_OCTETS - self.request.len());
        match self.stream.read(&mut buf[..most]) {
            Ok(0) => self.stage = Stage::Over,
            Ok(count) => self.hear(&buf[..count]),
            Err(error) if is_of_now(error.kind()) => {}
            Err(_) => self.stage = Stage::Over,
        }
    }

    // Takes octets of its request, unless it has no room for them, and does what follows.
    fn hear(&mut self, octets: &[u8])
        requires { self.old.stage ≡ Stage.Asking }
        ensures came { self.new.came ≡ self.old.came }
        ensures moves { Moves Stage.Asking self.old self.new }
    {
        if self.request.try_extend_from_slice(octets).is_err() {
            self.stage = Stage::Over;
            return;
        }
        let asked = judge_request(self.request.as_slice());
        self.follow(asked);
    }

    // Answers what was asked for, or waits for the figures, or goes on asking.
    fn follow(&mut self, asked: Asked)
        requires asking { self.old.stage ≡ Stage.Asking }
        requires asks { AsksFor self.old.request asked }
        ensures came { self.new.came ≡ self.old.came }
        ensures request { self.new.request ≡ self.old.request }
        ensures follows { Follows asked self.new }
    {
        match asked {
            Asked::More => {}
            Asked::Metrics => self.stage = Stage::Waiting,
            Asked::OtherTarget => self.reply(Asked::OtherTarget, &[]),
            Asked::OtherMethod => self.reply(Asked::OtherMethod, &[]),
            Asked::NoRequest => self.reply(Asked::NoRequest, &[]),
            Asked::TooMuch => self.reply(Asked::TooMuch, &[]),
        }
    }
}

// Whether an error of a stream that doesn't wait says that it would have to.
fn is_of_now(kind: ErrorKind) -> bool {
    matches!(kind, ErrorKind::WouldBlock | ErrorKind::Interrupted)
}
