//! Plays the scripts of its data, and compares what they answer with what is told.
//!
//! The file `scripts` names them, one a line; empty lines and lines that begin with `#` are passed over. The lines of
//! `NAME.in` are handed to `scenario::play`, over a speaker with a `PlainBook` and over one with a `LiveBook`. Both must
//! answer alike, and the answers must be `NAME.out`, octet for octet, where the bad line that ends a script is its last one. A
//! file may have several cases, and messages that are cut at each octet (`script_files`). Each play is made once more with one
//! request for memory refused, another one each time (`refused.rt`). Each name has a line on standard output, and the last line
//! counts them.
//!
//! Exit status 0 where all answer as told; 1 where one doesn't; 2 where a file can't be read or memory is wanting.
#![tactic(auto)]

mod refused;

ghost use Rattle.std.specs.Prelude.{◌≤◌, ⊤};

use crate::refused::is_well_refused;
use decision::{Book, PlainBook};
use live_book::LiveBook;
use scenario::{PlayFault, play};
use script_files::{Player, Shelf, Tally, Unplayed, play_listed};
use std::alloc::{AllocGlobal, Global};
use std::cell::Cell;
use std::fs;
use std::io::{self, LineWriter, Write};
use std::process::ExitCode;
use std::rt::Files;

/// The speaker and the cache of the scenario's language.
#[derive(Drop)]
struct Scenario {
    alloc: Global,
    // How many scripts were played.
    plays: Cell<u64>,
}

// The requests that are refused: the first in the first play, the eighth in the second, and so on, over as many.
const STRIDE: u64 = 7;

const REQUESTS: u64 = 43;

impl Scenario {
    // Which request is refused in this play.
    fn next_request(&self) -> u64
        ensures { 1 ≤ result }
    {
        let plays = self.plays.get();
        self.plays.set(plays.wrapping_add(1));
        (plays.wrapping_mul(STRIDE) % REQUESTS).saturating_add(1)
    }
}

impl Player for Scenario {
    // What it answers, its scripts show.
    ghost answers = { λ player script found. ⊤ };

    fn play(&self, script: &[u8]) -> Result<Vec<u8>, Unplayed> {
        let mut answers = played::<PlainBook>(self.alloc, script)?;
        let live = played::<LiveBook>(self.alloc, script)?;
        if live.as_slice() != answers.as_slice() {
            writeln!(answers, "otherwise over LiveBook")?;
        }
        let nth = self.next_request();
        if !is_well_refused(self.alloc, script, live.as_slice(), nth)? {
            writeln!(answers, "otherwise where request {nth} is refused")?;
        }
        Ok(answers)
    }
}

// What a script answers over a speaker with such a book.
fn played<B: Book<Global>>(alloc: Global, script: &[u8]) -> Result<Vec<u8>, Unplayed> {
    let mut written = Vec::new(alloc);
    match play::<B, _, _>(alloc, script, &mut written) {
        Ok(()) => Ok(written),
        Err(PlayFault::BadLine(number)) => {
            let fault = PlayFault::BadLine(number);
            writeln!(written, "{fault}")?;
            Ok(written)
        }
        Err(_) => Err(Unplayed),
    }
}

/// The files of the data, `NAME.in` and `NAME.out` for each name.
#[derive(Drop)]
struct Data<'a, R> {
    rt: &'a R,
}

impl<'a, R: Files + AllocGlobal> Shelf for Data<'a, R> {
    // What a file has is the system's.
    ghost scripts = { λ shelf name text. ⊤ };

    ghost told_texts = { λ shelf name text. ⊤ };

    fn script(&self, name: &[u8]) -> Result<Vec<u8>, Unplayed> {
        read(self.rt, name, "in")
    }

    fn told(&self, name: &[u8]) -> Result<Vec<u8>, Unplayed> {
        read(self.rt, name, "out")
    }
}

fn read<R: Files + AllocGlobal>(rt: &R, name: &[u8], ending: &str) -> Result<Vec<u8>, Unplayed> {
    let Ok(name) = str::from_utf8(name) else {
        return Err(Unplayed);
    };
    let path = format!(in rt.alloc(); "{name}.{ending}")?;
    Ok(fs::read(rt, path.as_str())?)
}

fn run(rt: &HostRuntime) -> Result<Tally, Unplayed> {
    let mut output = LineWriter::new(rt.alloc(), io::writer(rt))?;
    let list = fs::read(rt, "scripts")?;
    let player = Scenario {
        alloc: rt.alloc(),
        plays: Cell::new(0),
    };
    let shelf = Data { rt };
    let tally = play_listed(rt.alloc(), &player, &shelf, list.as_slice(), &mut output)?;
    let (scripts, as_told) = (tally.scripts(), tally.as_told);
    writeln!(output, "{scripts} scripts, {as_told} as told")?;
    Ok(tally)
}

fn main(rt: HostRuntime) -> io::Result<ExitCode> {
    match run(&rt) {
        Ok(tally) => Ok(ExitCode::from(tally.status())),
        Err(Unplayed) => {
            eprintln!(rt; "play_scripts: device")?;
            Ok(ExitCode::from(2))
        }
    }
}
