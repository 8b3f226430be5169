//! Plays scripts to a speaker or a cache that is refused one request for memory, each request in turn.
//!
//! Each line of standard input names a case, whose files lie in `data`: NAME.in is a script as `ovplay` plays it, and
//! NAME.out what it answers where no request is refused. The script is played so first. Then it is played with the
//! first request of the speaker or the cache refused, with the second, and so on until it makes no such request; beside
//! each such run goes one to which nothing is refused. What a refused request may come to, and what must stay as it was,
//! crate `paired_plays` says. NAME.again has what peers and clients do that were closed and come again, and NAME.rows what
//! must have come of the refused requests.
//!
//! For each case a line says how often each of these came; or where it went wrong.
#![tactic(auto)]

mod lent;
mod plays;
mod staged;

use crate::plays::play_case;
use paired_plays::{Case, Counts, Fault};
use std::fs;
use std::io::{self, BufRead, BufReader, Write};
use std::process::ExitCode;

// The file of a case that has this ending.
fn file_of(rt: &HostRuntime, name: &str, ending: &str) -> Result<Vec<u8>, Fault> {
    let path = format!(in rt.alloc(); "{name}.{ending}")?;
    Ok(fs::read(rt, path.as_str())?)
}

// What the files of a case hold.
#[derive(Drop)]
struct Files {
    script: Vec<u8>,
    told: Vec<u8>,
    again: Vec<u8>,
    rows: Vec<u8>,
}

impl Files {
    fn read(rt: &HostRuntime, name: &str) -> Result<Files, Fault> {
        let script = file_of(rt, name, "in")?;
        let told = file_of(rt, name, "out")?;
        let again = file_of(rt, name, "again")?;
        let rows = file_of(rt, name, "rows")?;
        Ok(Files {
            script,
            told,
            again,
            rows,
        })
    }

    fn case(&self) -> Case<'_> {
        Case {
            script: self.script.as_slice(),
            told: self.told.as_slice(),
            again: self.again.as_slice(),
            rows: self.rows.as_slice(),
        }
    }
}

fn play_files(rt: &HostRuntime, name: &str) -> Result<Counts, Fault> {
    let files = Files::read(rt, name)?;
    play_case(rt.alloc(), files.case())
}

// Plays the case of this name, and says what came of it.
fn play_named<W: Write>(rt: &HostRuntime, name: &str, output: &mut W) -> io::Result<()> {
    match play_files(rt, name) {
        Ok(counts) => writeln!(output, "{name}: {counts}"),
        Err(fault) => writeln!(output, "{name}: {fault}"),
    }
}

fn play_line<W: Write>(
    rt: &HostRuntime,
    name: io::Result<String>,
    output: &mut W,
) -> io::Result<()> {
    match name {
        Ok(name) => play_named(rt, name.as_str(), output),
        Err(error) => Err(error),
    }
}

fn play_all<W: Write>(rt: &HostRuntime, output: &mut W) -> io::Result<()> {
    let input = BufReader::new(rt.alloc(), rt.reader())?;
    for name in input.lines(rt.alloc()) {
        play_line(rt, name, output)?;
    }
    Ok(())
}

fn main(rt: HostRuntime) -> io::Result<ExitCode> {
    let mut output = io::writer(&rt);
    let played = play_all(&rt, &mut output);
    Ok(ExitCode::from(if played.is_ok() { 0 } else { 2 }))
}
