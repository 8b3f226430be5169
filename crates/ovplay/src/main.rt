//! Plays a script of scenario lines from standard input, and answers on standard output.
//!
//! Exit status 0 at the end of the script; 1 where the words are others than `--help` or `--version`, or at a bad line, with
//! its number on standard error; 2 where input or output fails, or where memory is wanting outside the speaker.
#![tactic(auto)]

mod play_main;
#[cfg(test)]
mod tests;

use crate::play_main::main_play;
use std::io::{BufReader, LineWriter};
use std::process::ExitCode;
use std::{env, io};

// The words behind the program's name.
fn words(rt: &HostRuntime) -> io::Result<Vec<String>> {
    Ok(env::args(rt)?.skip(1).collect(rt.alloc())?)
}

fn run(rt: &HostRuntime) -> io::Result<u8> {
    let words = words(rt)?;
    let input = BufReader::new(rt.alloc(), rt.reader())?;
    let mut output = LineWriter::new(rt.alloc(), io::writer(rt))?;
    let mut errors = rt.stderr();
    let status = main_play(rt, words.as_slice(), input, &mut output, &mut errors);
    Ok(status)
}

fn main(rt: HostRuntime) -> io::Result<ExitCode> {
    let Ok(status) = run(&rt) else {
        eprintln!(rt; "ovplay: device: there is no memory")?;
        return Ok(ExitCode::from(2));
    };
    Ok(ExitCode::from(status))
}
