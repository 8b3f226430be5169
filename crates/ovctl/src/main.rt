//! Asks a running `ovbgpd`: `ovctl SOCKET WORDS..`.
//!
//! Exit status 0 where the answer is `ok` or a table, 1 where the words are wrong or the line is refused, 2 where the socket
//! fails, with the cause on standard error.
#![tactic(auto)]

mod answer_end;
mod control_main;

use crate::control_main::main_control;
use std::io::LineWriter;
use std::process::ExitCode;
use std::{env, io};

// The words behind the program's name.
fn words(rt: &HostRuntime) -> io::Result<Vec<String>> {
    Ok(env::args(rt)?.skip(1).collect(rt.alloc())?)
}

fn run(rt: &HostRuntime) -> io::Result<u8> {
    let words = words(rt)?;
    let mut output = LineWriter::new(rt.alloc(), io::writer(rt))?;
    let mut errors = rt.stderr();
    let status = main_control(rt, words.as_slice(), &mut output, &mut errors);
    Ok(status)
}

fn main(rt: HostRuntime) -> io::Result<ExitCode> {
    let Ok(status) = run(&rt) else {
        eprintln!(rt; "ovctl: device: there is no memory")?;
        return Ok(ExitCode::from(2));
    };
    Ok(ExitCode::from(status))
}
