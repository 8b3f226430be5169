//! One operator's connection.
ghost use Rattle.std.specs.Prelude.{◌≡◌, ◌&&◌, [], IfOk, IfSome, false};
ghost use Rattle.control_lines.specs.Talks.{Exchanges, Listening, SaysIf, Stays, Visits, Writing, has_begun, is_late, shown_wish, silent};

use crate::stream::Stream;
use crate::talk::{Talk, Wish};
use std::alloc::{AllocError, Global};
use std::io::ErrorKind;

/// For how many seconds an operator may move nothing: no line begins, one that has begun isn't whole, or none of what is said
/// is taken (own choice).
pub const SILENT_SECONDS: u64 = 60;

/// One operator's connection, which doesn't wait.
#[derive(Drop)]
pub struct Operator<S> {
    stream: S,
    talk: Talk,
    // When octets last came or went, but for those with which a line goes on.
    moved: u64,
}

impl<S: Stream + Drop> Operator<S> {
    /// One who has come at this moment.
    pub fn new(alloc: Global, stream: S, now: u64) -> Result<Self, AllocError>
        ensures talk { IfOk result (λ operator. operator.talk ≡ silent) }
        ensures moved { IfOk result (λ operator. operator.moved ≡ now) }
        ensures stream { IfOk result (λ operator. operator.stream ≡ stream) }
    {
        Ok(Operator {
            stream,
            talk: Talk::new(alloc)?,
            moved: now,
        })
    }

    /// What the operator waits for.
    pub fn wish(&self) -> Wish
        ensures { result ≡ shown_wish self.now.talk }
    {
        if self.talk.is_written() && !self.talk.is_leaving {
            self.talk.wish
        } else {
            Wish::Nothing
        }
    }

    /// Its line.
    pub fn line(&self) -> &[u8]
        ensures { result.now ≡ self.now.talk.line }
    {
        self.talk.line.octets()
    }

    /// This is said to the operator, whose line is answered: wholly, or with more that is still to come. Where there is no
    /// memory for it, the operator is to go. To one who waits for nothing nothing is said.
    pub fn say(&mut self, octets: &[u8], goes_on: bool)
        ensures said { SaysIf (shown_wish self.old.talk) goes_on octets.now self.old.talk self.new.talk }
        ensures same { (self.new.moved ≡ self.old.moved) × (self.new.stream ≡ self.old.stream) }
    {
        if self.wish() == Wish::Nothing {
            return;
        }
        self.talk.wish = match goes_on {
            true => Wish::More,
            false => Wish::Nothing,
        };
        self.talk.line.clear();
        self.talk.put(octets);
    }

    /// Writes what was said as far as it is taken, or else reads where a line is still to come. Answers whether octets came or
    /// went, and nothing where the operator is gone, or has moved nothing for too long: a line has to be whole so many seconds
    /// after its first octet, however many come.
    #[tactic(auto, using(crate::proofs::Resting::visited))]
    pub fn visit(&mut self, now: u64) -> Option<bool>
        ensures { Visits result now self.old.moved self.new.moved self.old.talk self.new.talk (S.remaining self.old.stream) (S.remaining self.new.stream) (S.contents self.old.stream) (S.contents self.new.stream) }
    {
        let had_begun = self.talk.has_begun();
        let has_moved = self.exchange()?;
        self.stay(had_begun, has_moved, now)
    }

    // Answers whether octets came or went, and nothing where that is too long ago, also where the line that had begun goes on.
    fn stay(&mut self, had_begun: bool, has_moved: bool, now: u64) -> Option<bool>
        ensures stays { Stays result has_moved (had_begun && has_begun self.old.talk) now self.old.moved self.new.moved }
        ensures same { (self.new.talk ≡ self.old.talk) × (self.new.stream ≡ self.old.stream) }
    {
        if has_moved && !(had_begun && self.talk.has_begun()) {
            self.moved = now;
        } else if is_late(self.moved, now) {
            return None;
        }
        Some(has_moved)
    }

    // Writes or reads. Answers whether octets came or went, and nothing where the operator is gone, or is to go.
    #[tactic(auto, using(crate::proofs::Resting::exchanged_by_writing, crate::proofs::Resting::exchanged_by_listening, crate::proofs::Resting::rests))]
    fn exchange(&mut self) -> Option<bool>
        ensures exchanges { Exchanges result self.old.talk self.new.talk (S.remaining self.old.stream) (S.remaining self.new.stream) (S.contents self.old.stream) (S.contents self.new.stream) }
        ensures same { self.new.moved ≡ self.old.moved }
    {
        if !self.talk.is_written() {
            return self.write();
        }
        if self.talk.is_leaving {
            return None;
        }
        match self.talk.wish {
            Wish::Nothing => self.listen(),
            Wish::Answer | Wish::More => Some(false),
        }
    }

    #[tactic(auto, using(crate::proofs::Coming::written, crate::proofs::Resting::none_taken))]
    fn write(&mut self) -> Option<bool>
        ensures writes { Writing result self.old.talk self.new.talk (S.remaining self.old.stream) (S.remaining self.new.stream) (S.contents self.old.stream) (S.contents self.new.stream) }
        ensures same { self.new.moved ≡ self.old.moved }
    {
        match self.stream.write(self.talk.saying.octets()) {
            Ok(0) => None,
            Ok(count) => {
                self.talk.saying.wrote(count);
                Some(true)
            }
            Err(error) => unless_it_waits(error.kind()),
        }
    }

    // Goes on with the line: by what was read already, or else by what has come.
    fn listen(&mut self) -> Option<bool>
        ensures listens { Listening result self.old.talk self.new.talk (S.remaining self.old.stream) (S.remaining self.new.stream) (S.contents self.old.stream) (S.contents self.new.stream) }
        ensures same { self.new.moved ≡ self.old.moved }
    {
        if self.talk.chunk.is_empty() {
            return self.read();
        }
        self.talk.hear();
        Some(true)
    }

    fn read(&mut self) -> Option<bool>
        requires { self.old.talk.chunk ≡ [] }
        ensures listens { Listening result self.old.talk self.new.talk (S.remaining self.old.stream) (S.remaining self.new.stream) (S.contents self.old.stream) (S.contents self.new.stream) }
        ensures same { self.new.moved ≡ self.old.moved }
    {
        match self.talk.chunk.fill(&mut self.stream) {
            Ok(0) => None,
            Ok(_) => {
                self.talk.hear();
                Some(true)
            }
            Err(error) => unless_it_waits(error.kind()),
        }
    }
}

// Whether so long ago is too long.
fn is_late(moved: u64, now: u64) -> bool
    ensures { result ≡ is_late moved now }
{
    now.saturating_sub(moved) >= SILENT_SECONDS
}

// What an error of a stream that doesn't wait is to it.
fn unless_it_waits(kind: ErrorKind) -> Option<bool>
    ensures { IfSome result (λ moved. moved ≡ false) }
{
    match kind {
        ErrorKind::WouldBlock | ErrorKind::Interrupted => Some(false),
        _ => None,
    }
}
