//! Serves a payload list to routers: `ovcache SETTINGS [TURNS]`.
//!
//! Exit status 0 after the turns; 1 where the words, the settings or the list are refused; 2 where a file, the network
//! or the clock fails, or where memory is wanting. What was wrong, and why, stands on standard error. Where the settings ask
//! for a log, it stands on standard output.
#![tactic(auto)]

use cache_program::main_cache;
use std::process::ExitCode;
use std::{env, io};

// The words behind the program's name.
fn words(rt: &HostRuntime) -> io::Result<Vec<String>> {
    Ok(env::args(rt)?.skip(1).collect(rt.alloc())?)
}

fn main(rt: HostRuntime) -> io::Result<ExitCode> {
    let Ok(words) = words(&rt) else {
        eprintln!(rt; "ovcache: device: there is no memory")?;
        return Ok(ExitCode::from(2));
    };
    let mut output = io::writer(&rt);
    let mut errors = rt.stderr();
    let status = main_cache(&rt, words.as_slice(), &mut output, &mut errors);
    Ok(ExitCode::from(status))
}
