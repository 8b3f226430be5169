//! What ends a case.
ghost use Rattle.std.specs.Prelude.{⊤};

use std::alloc::AllocError;
use std::{fmt, io};

/// What is wrong at a call.
#[derive(Clone, Copy)]
pub enum Wrong {
    Begins,
    Otherwise,
    Short,
    EndlessRequests,
    EndlessCalls,
    OtherEnd,
    OtherwiseWhereRefused,
    ChangedMore,
    OtherwiseAgain,
    OtherwiseBehind,
    OtherwiseWhereClosed,
    PeerUntold,
    PeerAway,
    OtherwiseWhereCacheClosed,
    CacheUntold,
    ClientAway,
    Asks,
}

impl Wrong {
    /// The call of this number is wrong so, unless this holds.
    pub fn unless(self, holds: bool, number: u64) -> Result<(), Fault> {
        if holds {
            Ok(())
        } else {
            Err(Fault::Wrong(self, number))
        }
    }

    fn words(self) -> &'static str {
        match self {
            Wrong::Begins => "begins a connection attempt",
            Wrong::Otherwise => "isn't answered as told",
            Wrong::Short => "more is told than answered",
            Wrong::EndlessRequests => "makes no end of requests",
            Wrong::EndlessCalls => "makes no end of calls",
            Wrong::OtherEnd => "has left another end",
            Wrong::OtherwiseWhereRefused => "is answered otherwise where a request is refused",
            Wrong::ChangedMore => "has changed more where a request is refused",
            Wrong::OtherwiseAgain => "isn't answered as told when it comes again",
            Wrong::OtherwiseBehind => "is answered otherwise behind a refusal",
            Wrong::OtherwiseWhereClosed => "isn't answered as told where a session is closed",
            Wrong::PeerUntold => "doesn't tell the closed peer why",
            Wrong::PeerAway => "doesn't let the closed peer come again",
            Wrong::OtherwiseWhereCacheClosed => {
                "isn't answered as told where the cache is closed"
            }
            Wrong::CacheUntold => "doesn't tell the cache why",
            Wrong::ClientAway => "doesn't let the closed client come again",
            Wrong::Asks => "asks for memory, which it is to do without",
        }
    }
}

/// What ends a case before its end.
#[derive(Clone, Copy)]
pub enum Fault {
    /// What was wrong at the call of this number.
    Wrong(Wrong, u64),
    /// A row of the case isn't met.
    Row(u64),
    /// A line of the script is bad.
    BadLine(u64),
    /// A file can't be read, or memory is wanting outside the speaker and the cache.
    Device,
}

impl fmt::Display for Fault {
    fn fmt<W: fmt::Write>(&self, f: &mut fmt::Formatter<W>) -> fmt::Result {
        match *self {
            Fault::Wrong(wrong, number) => write_wrong(f, number, wrong.words()),
            Fault::Row(number) => write!(f, "row {number} isn't met"),
            Fault::BadLine(number) => write!(f, "a bad line at call {number}"),
            Fault::Device => f.write_str("device"),
        }
    }
}

fn write_wrong<W: fmt::Write>(f: &mut fmt::Formatter<W>, number: u64, words: &str) -> fmt::Result {
    write!(f, "call {number}: {words}")
}

impl From<AllocError> for Fault {
    ghost from_gives = { λ _ _. ⊤ };

    fn from(_error: AllocError) -> Fault {
        Fault::Device
    }
}

impl From<io::Error> for Fault {
    ghost from_gives = { λ _ _. ⊤ };

    fn from(_error: io::Error) -> Fault {
        Fault::Device
    }
}
