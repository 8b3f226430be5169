//! Reads the SLURM files of its data, and compares what that answers with what is told.
//!
//! The file `files` names them, one a line; empty lines and lines that begin with `#` are passed over. Each `NAME.in` has
//! several SLURM files, each behind a line `# case`; `NAME.out` has the answers to each: the filters and assertions, a
//! line each, and how many entries are skipped; or why the file is refused. Each name has a line on standard output, and
//! the last line counts them.
//!
//! Exit status 0 where all answer as told; 1 where one doesn't; 2 where a file can't be read or memory is wanting.
#![tactic(auto)]

ghost use Rattle.std.specs.Prelude.{⊤};

use local_exceptions::Filter;
use script_files::{Player, Shelf, Tally, Unplayed, play_listed};
use slurm_files::{SlurmFile, read_slurm};
use std::alloc::{AllocGlobal, Global};
use std::fs;
use std::io::{self, LineWriter, Write};
use std::process::ExitCode;
use std::rt::Files;

/// The reader of SLURM files.
#[derive(Drop)]
struct SlurmReader {
    alloc: Global,
}

impl Player for SlurmReader {
    // What it answers, the files show.
    ghost answers = { λ player script found. ⊤ };

    fn play(&self, script: &[u8]) -> Result<Vec<u8>, Unplayed> {
        let mut answer = Vec::new(self.alloc);
        match read_slurm(self.alloc, script) {
            Ok(file) => tell(&file, &mut answer)?,
            Err(fault) => writeln!(answer, "refused: {fault}")?,
        }
        Ok(answer)
    }
}

// Tells what a file says.
fn tell<W: Write>(file: &SlurmFile, answer: &mut W) -> io::Result<()> {
    for filter in file.exceptions.filters() {
        match filter {
            Filter::Prefix(prefix) => writeln!(answer, "filter prefix {prefix}")?,
            Filter::As(asn) => writeln!(answer, "filter as {asn}")?,
            Filter::Both(prefix, asn) => writeln!(answer, "filter both {prefix} {asn}")?,
        }
    }
    for payload in file.exceptions.assertions() {
        writeln!(answer, "assert {payload}")?;
    }
    let (ipv6, bgpsec) = (file.ipv6, file.bgpsec);
    writeln!(answer, "skipped {ipv6} of IPv6, {bgpsec} of BGPsec")
}

/// The files of the data, `NAME.in` and `NAME.out` for each name.
#[derive(Drop)]
struct Data<'a, R> {
    rt: &'a R,
}

impl<'a, R: Files + AllocGlobal> Shelf for Data<'a, R> {
    // What a file has is the system's.
    ghost scripts = { λ shelf name text. ⊤ };

    ghost told_texts = { λ shelf name text. ⊤ };

    fn script(&self, name: &[u8]) -> Result<Vec<u8>, Unplayed> {
        read(self.rt, name, "in")
    }

    fn told(&self, name: &[u8]) -> Result<Vec<u8>, Unplayed> {
        read(self.rt, name, "out")
    }
}

fn read<R: Files + AllocGlobal>(rt: &R, name: &[u8], ending: &str) -> Result<Vec<u8>, Unplayed> {
    let Ok(name) = str::from_utf8(name) else {
        return Err(Unplayed);
    };
    let path = format!(in rt.alloc(); "{name}.{ending}")?;
    Ok(fs::read(rt, path.as_str())?)
}

fn run(rt: &HostRuntime) -> Result<Tally, Unplayed> {
    let mut output = LineWriter::new(rt.alloc(), io::writer(rt))?;
    let list = fs::read(rt, "files")?;
    let player = SlurmReader { alloc: rt.alloc() };
    let shelf = Data { rt };
    let tally = play_listed(rt.alloc(), &player, &shelf, list.as_slice(), &mut output)?;
    let (files, as_told) = (tally.scripts(), tally.as_told);
    writeln!(output, "{files} files, {as_told} as told")?;
    Ok(tally)
}

fn main(rt: HostRuntime) -> io::Result<ExitCode> {
    match run(&rt) {
        Ok(tally) => Ok(ExitCode::from(tally.status())),
        Err(Unplayed) => {
            eprintln!(rt; "play_slurm: device")?;
            Ok(ExitCode::from(2))
        }
    }
}
