//! Loads the payload lists of its data, and compares what that answers with what is told.
//!
//! The file `lists` names them, and `expired` those that are read at one second since 1970, one a line; empty lines and lines
//! that begin with `#` are passed over. Each `NAME.in` has several lists, each behind a line `# case`; `NAME.out` has the
//! answers to each. A list is read as JSON or as comma-separated values, by `format_of`. It answers how many rows there are and
//! how many are skipped, with the second at which it says that it was written, if it does, and then each payload of its set, a
//! line each; or why it is refused. Each name has a line on standard output, and a line behind each of the two files counts
//! them.
//!
//! Exit status 0 where all answer as told; 1 where one doesn't; 2 where a file can't be read or memory is wanting.
#![tactic(auto)]

ghost use Rattle.std.specs.Prelude.{⊤};

use script_files::{Player, Shelf, Tally, Unplayed, play_listed};
use std::alloc::{AllocGlobal, Global};
use std::fs;
use std::io::{self, LineWriter, Write};
use std::process::ExitCode;
use std::rt::Files;
use vrp_csv::Loaded;
use vrp_json::{ListFormat, Written, format_of, read_written};

/// The readers of payload lists, at a second since 1970 where what has expired is left out.
#[derive(Drop)]
struct Readers {
    alloc: Global,
    second: Option<u64>,
}

impl Player for Readers {
    // What they answer, the files show.
    ghost answers = { λ player script found. ⊤ };

    fn play(&self, script: &[u8]) -> Result<Vec<u8>, Unplayed> {
        let mut answer = Vec::new(self.alloc);
        match format_of(script) {
            ListFormat::Json => match vrp_json::read_list_at(self.alloc, script, self.second) {
                Ok(loaded) => tell(&loaded, read_written(self.alloc, script)?, &mut answer)?,
                Err(fault) => writeln!(answer, "refused: {fault}")?,
            },
            ListFormat::Csv => match vrp_csv::read_list_at(self.alloc, script, self.second) {
                Ok(loaded) => tell(&loaded, Written::Untold, &mut answer)?,
                Err(fault) => writeln!(answer, "refused: {fault}")?,
            },
        }
        Ok(answer)
    }
}

// Tells what was loaded, and when it was written, where it says so.
fn tell<W: Write>(loaded: &Loaded, written: Written, answer: &mut W) -> io::Result<()> {
    let (rows, skipped) = (loaded.rows, loaded.skipped);
    write!(answer, "rows {rows} skipped {skipped}")?;
    match written {
        Written::Untold => writeln!(answer)?,
        Written::At(second) => writeln!(answer, " written {second}")?,
        Written::Unread => writeln!(answer, " written at no time")?,
    }
    for payload in loaded.set.iter() {
        writeln!(answer, "{payload}")?;
    }
    Ok(())
}

/// The files of the data, `NAME.in` and `NAME.out` for each name.
#[derive(Drop)]
struct Data<'a, R> {
    rt: &'a R,
}

impl<'a, R: Files + AllocGlobal> Shelf for Data<'a, R> {
    // What a file has is the system's.
    ghost scripts = { λ shelf name text. ⊤ };

    ghost told_texts = { λ shelf name text. ⊤ };

    fn script(&self, name: &[u8]) -> Result<Vec<u8>, Unplayed> {
        read(self.rt, name, "in")
    }

    fn told(&self, name: &[u8]) -> Result<Vec<u8>, Unplayed> {
        read(self.rt, name, "out")
    }
}

fn read<R: Files + AllocGlobal>(rt: &R, name: &[u8], ending: &str) -> Result<Vec<u8>, Unplayed> {
    let Ok(name) = str::from_utf8(name) else {
        return Err(Unplayed);
    };
    let path = format!(in rt.alloc(); "{name}.{ending}")?;
    Ok(fs::read(rt, path.as_str())?)
}

// The second at which the lists of `expired` are read.
const SECOND: u64 = 1_795_800_300;

// Plays the files that this one names, whose lists are read at this second.
fn run(rt: &HostRuntime, names: &str, second: Option<u64>) -> Result<Tally, Unplayed> {
    let mut output = LineWriter::new(rt.alloc(), io::writer(rt))?;
    let list = fs::read(rt, names)?;
    let alloc = rt.alloc();
    let player = Readers { alloc, second };
    let shelf = Data { rt };
    let tally = play_listed(rt.alloc(), &player, &shelf, list.as_slice(), &mut output)?;
    let (lists, as_told) = (tally.scripts(), tally.as_told);
    writeln!(output, "{lists} files, {as_told} as told")?;
    Ok(tally)
}

fn run_all(rt: &HostRuntime) -> Result<u8, Unplayed> {
    let lists = run(rt, "lists", None)?;
    let expired = run(rt, "expired", Some(SECOND))?;
    Ok(lists.status().max(expired.status()))
}

fn main(rt: HostRuntime) -> io::Result<ExitCode> {
    match run_all(&rt) {
        Ok(status) => Ok(ExitCode::from(status)),
        Err(Unplayed) => {
            eprintln!(rt; "play_lists: device")?;
            Ok(ExitCode::from(2))
        }
    }
}
