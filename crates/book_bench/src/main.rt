//! Changes of candidates over either book: a program that makes as many as it is told, so that they can be timed, and tests
//! of both books side by side and of the selection anew, in which one chooses what the others do.
//!
//! `book_bench BOOK PREFIXES CANDIDATES NEIGHBORS WHAT CHANGES`: so many candidates, by so many neighbor ASes in turn, are
//! offered to a `plain` or a `live` book for each of the prefixes. Then the `best` or the `worst` candidate of a prefix goes
//! and comes, or the `med` of the best changes, as often as it is told, from prefix to prefix. It prints how often a best
//! route was chosen. Exit status 0; 1 where the words are wrong, also where a prefix would have more candidates than slots; 2
//! where memory is wanting or standard output fails.
#![tactic(auto)]

mod books;
mod changes;
#[cfg(test)]
mod drawn;
#[cfg(test)]
mod drawn_changes;
#[cfg(test)]
mod given;
#[cfg(test)]
mod memory;
mod plan;
#[cfg(test)]
mod three_routes;

use crate::changes::measure;
use crate::plan::{Kind, Plan};
use decision::PlainBook;
use live_book::LiveBook;
use std::alloc::AllocGlobal;
use std::env;
use std::io::{self, Write};
use std::process::ExitCode;

// The words behind the program's name.
fn words(rt: &HostRuntime) -> io::Result<Vec<String>> {
    Ok(env::args(rt)?.skip(1).collect(rt.alloc())?)
}

fn run(rt: &HostRuntime, plan: &Plan) -> io::Result<()> {
    let count = match plan.kind {
        Kind::Plain => measure::<PlainBook>(rt.alloc(), plan)?,
        Kind::Live => measure::<LiveBook>(rt.alloc(), plan)?,
    };
    let mut output = io::writer(rt);
    writeln!(output, "{count} choices")?;
    output.flush()
}

fn main(rt: HostRuntime) -> io::Result<ExitCode> {
    let words = words(&rt)?;
    let Some(plan) = Plan::read(words.as_slice()) else {
        eprintln!(&rt; "book_bench: arguments")?;
        return Ok(ExitCode::from(1));
    };
    if run(&rt, &plan).is_err() {
        eprintln!(&rt; "book_bench: device")?;
        return Ok(ExitCode::from(2));
    }
    Ok(ExitCode::from(0))
}
