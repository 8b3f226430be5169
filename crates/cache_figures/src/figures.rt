//! What a cache serves and what its routers hold, and what a run has counted.
ghost use Rattle.std.specs.Prelude.{◌≡◌};
ghost use Rattle.cache_figures.specs.RunCounts.{counting, none_counted};

use std::fmt::{self, Display, Formatter, Write};

/// What a cache serves at a moment, to how many routers, and how many of them hold it, another list, and none; how many octets
/// came and went and how many connections ended since the start; how many seconds ago a list was read that could be had; and
/// whether it is withdrawn.
#[derive(Clone, Copy, Debug, PartialEq, Eq)]
pub struct CacheFigures {
    pub serial: u32,
    pub payloads: usize,
    pub routers: usize,
    pub current: usize,
    pub behind: usize,
    pub without: usize,
    pub octets_in: u64,
    pub octets_out: u64,
    pub lost: u64,
    pub closed: u64,
    pub read: u64,
    pub withdrawn: bool,
}

impl Display for CacheFigures {
    fn fmt<W: Write>(&self, f: &mut Formatter<W>) -> fmt::Result {
        write_served(self, f)?;
        write_held(self, f)?;
        let CacheFigures {
            octets_in,
            octets_out,
            ..
        } = self;
        write!(f, ", octets {octets_in} in, {octets_out} out")
    }
}

fn write_served<W: Write>(figures: &CacheFigures, f: &mut Formatter<W>) -> fmt::Result {
    let CacheFigures {
        serial,
        payloads,
        routers,
        withdrawn,
        ..
    } = figures;
    write!(f, "serial {serial}, payloads {payloads}")?;
    if *withdrawn {
        f.write_str(" withdrawn")?;
    }
    write!(f, ", routers {routers}")
}

fn write_held<W: Write>(figures: &CacheFigures, f: &mut Formatter<W>) -> fmt::Result {
    let CacheFigures {
        current,
        behind,
        without,
        ..
    } = figures;
    write!(
        f,
        " ({current} current, {behind} behind, {without} without)"
    )
}

/// What reading the list again has led to.
#[derive(Clone, Copy, Debug, PartialEq, Eq)]
pub enum Outcome {
    /// Another list is served.
    Taken,
    /// It is the one that is served.
    Same,
    /// Its files are unchanged, and weren't read.
    Unchanged,
    /// It can't be had.
    Refused,
}

/// What a run has counted: its turns, and how often the list was looked at behind the first, by what each led to. A count stays
/// at the greatest u64.
#[derive(Clone, Copy, Debug, PartialEq, Eq)]
pub struct RunFigures {
    pub session: u16,
    pub turns: u64,
    pub taken: u64,
    pub same: u64,
    pub unchanged: u64,
    pub refused: u64,
}

impl RunFigures {
    /// A run of this session id begins.
    pub fn new(session: u16) -> RunFigures
        ensures { result ≡ none_counted session }
    {
        RunFigures {
            session,
            turns: 0,
            taken: 0,
            same: 0,
            unchanged: 0,
            refused: 0,
        }
    }

    /// One more turn, and what reading the list again has led to before it, where it was due.
    pub fn count(&mut self, led: Option<Outcome>)
        ensures { self.new ≡ counting led self.old }
    {
        self.turns = self.turns.saturating_add(1);
        match led {
            None => {}
            Some(Outcome::Taken) => self.taken = self.taken.saturating_add(1),
            Some(Outcome::Same) => self.same = self.same.saturating_add(1),
            Some(Outcome::Unchanged) => self.unchanged = self.unchanged.saturating_add(1),
            Some(Outcome::Refused) => self.refused = self.refused.saturating_add(1),
        }
    }
}
