//! Obeying a file of commands.
ghost use Rattle.std.specs.Prelude.{◌≡◌, ◌∷◌, [], ℕ, List, Some, IfErr, is_ok, if◌then◌else◌};
ghost use Rattle.scenario.specs.CommandFaults.{CountsFromOne, IsOutside, NamesLine, TellsRefusal, fault_of, unread_at};
ghost use Rattle.scenario.specs.FileLines.{lines};
ghost use Rattle.scenario.specs.ObeyedCommands.{IsFaultOf, IsRefusalOf, Obeys, ObeysSome, ObeysUpTo, Takes};

use crate::reading::{ascii_text, is_passed_over, is_want_of_memory, read_line, without_line_end};
use bgp_conf::{Command, Refusal};
use command_lines::{CommandLine, LineFault};
use decision::Book;
use speaker::{Event, Speaker};
use std::alloc::Global;
use std::io::{self, BufRead};
use thiserror::Error;

/// What ends a file of commands before its end.
#[derive(Clone, Copy, Debug, PartialEq, Eq, Error)]
pub enum CommandsFault {
    /// The line of this number, counted from 1, is no command.
    #[error("line {0}: bad line")]
    BadLine(u64),
    /// The speaker refuses the command on the line of this number.
    #[error("line {0}: refused {number}", number = .1.number())]
    Refused(u64, Refusal),
    /// The file can't be read.
    #[error("device")]
    Device,
    /// There is no memory for a line, or for what it commands.
    #[error("no memory")]
    NoMemory,
}

impl From<io::Error> for CommandsFault {
    ghost from_gives = { λ _ fault. IsOutside fault };

    fn from(error: io::Error) -> CommandsFault {
        if is_want_of_memory(&error) {
            CommandsFault::NoMemory
        } else {
            CommandsFault::Device
        }
    }
}

/// Hands the commands of a file to the speaker, line by line, up to the first that is none or is refused. Empty lines and lines
/// that begin with `#` are passed over.
pub fn obey_lines<R: BufRead + Drop, B: Book<Global>>(
    alloc: Global,
    mut reader: R,
    speaker: &mut Speaker<Global, B>,
) -> Result<(), CommandsFault>
    ensures each { (text : List ℕ) → R.remaining reader ≡ Some text → ObeysUpTo (lines text) result speaker.old speaker.new }
    ensures some { ObeysSome speaker.old speaker.new }
    ensures line { IfErr result CountsFromOne }
{
    let mut text = Vec::new(alloc);
    obey_each(alloc, &mut reader, &mut text, speaker)
}

// Obeys the lines, each read into the text.
fn obey_each<R: BufRead + Drop, B: Book<Global>>(
    alloc: Global,
    reader: &mut R,
    text: &mut Vec<u8>,
    speaker: &mut Speaker<Global, B>,
) -> Result<(), CommandsFault>
    ensures each { (octets : List ℕ) → R.remaining reader.old ≡ Some octets → ObeysUpTo (lines octets) result speaker.old speaker.new }
    ensures some { ObeysSome speaker.old speaker.new }
    ensures line { IfErr result CountsFromOne }
{
    for number in 1..u64::MAX {
        if !read_line(reader, text)? {
            return Ok(());
        }
        obey_line(alloc, number, text.as_slice(), speaker)?;
    }
    Err(CommandsFault::Device)
}

fn obey_line<B: Book<Global>>(
    alloc: Global,
    number: u64,
    line: &[u8],
    speaker: &mut Speaker<Global, B>,
) -> Result<(), CommandsFault>
    ensures obeys { Obeys (if is_ok result then line.now ∷ [] else []) speaker.old speaker.new }
    ensures line { IfErr result (NamesLine number) }
    ensures fault { IfErr result (IsFaultOf line.now speaker.new) }
{
    if is_passed_over(line) {
        return Ok(());
    }
    let Some(text) = ascii_text(without_line_end(line)) else {
        return Err(CommandsFault::BadLine(number));
    };
    match CommandLine::parse(alloc, text) {
        Ok(said) => obey(speaker, number, said.command()),
        Err(fault) => Err(unread(number, fault)),
    }
}

// What it is that the words of the line of this number weren't read.
fn unread(number: u64, fault: LineFault) -> CommandsFault
    ensures { result ≡ unread_at number fault }
{
    match fault {
        LineFault::BadLine => CommandsFault::BadLine(number),
        LineFault::NoMemory => CommandsFault::NoMemory,
    }
}

fn obey<B: Book<Global>>(
    speaker: &mut Speaker<Global, B>,
    number: u64,
    command: Command<'_>,
) -> Result<(), CommandsFault>
    ensures obeys { Takes command.entry result speaker.old speaker.new }
    ensures line { IfErr result (NamesLine number) }
    ensures fault { IfErr result (IsRefusalOf command.entry speaker.new) }
{
    match speaker.step(Event::Command(command)) {
        Ok(_) => Ok(()),
        Err(refusal) => Err(refused(number, refusal)),
    }
}

// What it is that the command on the line of this number was refused so.
fn refused(number: u64, refusal: Refusal) -> CommandsFault
    ensures value { result ≡ fault_of number refusal }
    ensures told { TellsRefusal refusal result }
{
    match refusal {
        Refusal::NoMemory => CommandsFault::NoMemory,
        _ => CommandsFault::Refused(number, refusal),
    }
}
