//! Speaks BGP with the peers of its settings: `ovbgpd SETTINGS [TURNS]`.
//!
//! Exit status 0 after the turns, when Loc-RIB stands on standard output; 1 where the words, the settings or the commands are
//! refused; 2 where a file, the network, the clock or standard output fails, or where memory is wanting. What was wrong, and
//! why, stands on standard error.
#![tactic(auto)]

use file_paths::SystemFiles;
use live_book::LiveBook;
use speaker_program::main_bgp;
use std::io::LineWriter;
use std::process::ExitCode;
use std::{env, io};

// The words behind the program's name.
fn words(rt: &HostRuntime) -> io::Result<Vec<String>> {
    Ok(env::args(rt)?.skip(1).collect(rt.alloc())?)
}

fn run(rt: &HostRuntime) -> io::Result<u8> {
    let words = words(rt)?;
    let mut output = LineWriter::new(rt.alloc(), io::writer(rt))?;
    let mut errors = rt.stderr();
    let files = SystemFiles::new(rt);
    let words = words.as_slice();
    let status = main_bgp::<LiveBook, _, _, _, _>(rt, &files, words, &mut output, &mut errors);
    Ok(status)
}

fn main(rt: HostRuntime) -> io::Result<ExitCode> {
    let Ok(status) = run(&rt) else {
        eprintln!(rt; "ovbgpd: device: there is no memory")?;
        return Ok(ExitCode::from(2));
    };
    Ok(ExitCode::from(status))
}
