//! What a play answers to a call.

use crate::calls::Call;
use crate::fault::Fault;
use crate::lines::{Lines, number_at, row_of};
use crate::play::Play;
use net_prefix::Transport;
use std::alloc::Global;
use std::io::{self, Write};

// More slots than there are peers.
const SLOTS: u8 = 64;

// More rings than a slot fills.
const MOST_RINGS: u32 = 1_000;

// Where nothing is handed out, or it is refused.
const NOTHING_OUT: &[u8] = b"refused 40\n";

/// Plays the lines of a call, and puts in what they answer in the place of what the text was.
pub fn answer<P: Play>(play: &mut P, call: Call<'_>, text: &mut Vec<u8>) -> Result<(), Fault> {
    text.clear();
    for line in Lines::of(call.text) {
        answer_line(play, call.with(line), text)?;
    }
    Ok(())
}

/// Has all octets of a slot handed out at this call.
pub fn take_all<P: Play>(
    play: &mut P,
    call: Call<'_>,
    slot: u8,
    alloc: Global,
    text: &mut Vec<u8>,
) -> Result<(), Fault> {
    let line = format!(in alloc; "take {slot} 65536")?;
    answer(play, call.with(line.as_str().as_bytes()), text)
}

/// The session of a slot ends and begins anew, and each slot has all of its octets handed out.
pub fn begin_anew<P: Play>(
    play: &mut P,
    call: Call<'_>,
    slot: u8,
    alloc: Global,
    text: &mut Vec<u8>,
) -> Result<(), Fault> {
    let lines = format!(in alloc; "disable {slot}\nfail {slot}\nenable {slot}\n")?;
    answer(play, call.with(lines.as_str().as_bytes()), text)?;
    for slot in 0..SLOTS {
        drain(play, call, slot, alloc, text)?;
    }
    Ok(())
}

// What is handed out makes room for more.
fn drain<P: Play>(
    play: &mut P,
    call: Call<'_>,
    slot: u8,
    alloc: Global,
    text: &mut Vec<u8>,
) -> Result<(), Fault> {
    for _ in 0..MOST_RINGS {
        take_all(play, call, slot, alloc, text)?;
        if text.len() <= NOTHING_OUT.len() {
            break;
        }
    }
    Ok(())
}

/// A client of the cache goes, and another comes in its place.
pub fn replace_client<P: Play>(
    play: &mut P,
    call: Call<'_>,
    key: u64,
    alloc: Global,
    text: &mut Vec<u8>,
) -> Result<(), Fault> {
    let lines = format!(in alloc; "cdown {key}\ncup\n")?;
    answer(play, call.with(lines.as_str().as_bytes()), text)
}

fn answer_line<P: Play>(play: &mut P, line: Call<'_>, text: &mut Vec<u8>) -> Result<(), Fault> {
    if is_look(line.text) {
        look(play, line.text, text).map_err(Fault::from)
    } else {
        play.play_line(line, text)
    }
}

/// Whether the line asks for what no other line shows: how often a best route was chosen in the speaker's last call, the
/// slots whose connection attempts began in it, or the transport of a slot.
pub fn is_look(line: &[u8]) -> bool {
    line == b"chosen\n".as_slice()
        || line == b"opened\n".as_slice()
        || line.starts_with(b"transport ")
}

fn look<P: Play>(play: &P, line: &[u8], text: &mut Vec<u8>) -> io::Result<()> {
    if !play.has_speaker() {
        return Ok(());
    }
    if line == b"chosen\n".as_slice() {
        return write_chosen(play.chosen(), text);
    }
    match number_at(row_of(line), 1) {
        Some(slot) => write_transport(play.transport(slot_of(slot)), text),
        None => write_opened(play.opened().slots, text),
    }
}

// A slot that isn't there, where the number is too large.
fn slot_of(number: u64) -> u8 {
    u8::try_from(number).unwrap_or(u8::MAX)
}

fn write_chosen(chosen: u64, text: &mut Vec<u8>) -> io::Result<()> {
    writeln!(text, "chosen {chosen}")
}

fn write_transport(transport: Transport, text: &mut Vec<u8>) -> io::Result<()> {
    writeln!(text, "{transport:?}")
}

fn write_opened(opened: u64, text: &mut Vec<u8>) -> io::Result<()> {
    write!(text, "opened")?;
    for slot in 0..64u8 {
        if (opened >> slot) & 1 == 1 {
            write!(text, " {slot}")?;
        }
    }
    writeln!(text)
}
