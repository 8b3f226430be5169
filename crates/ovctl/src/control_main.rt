//! What the main of `ovctl` does.
ghost use Rattle.std.specs.Prelude.{◌≤◌};

use crate::answer_end::{AnswerLine, answer_line};
use program_endings::{Aside, ExitFault, FilePath, aside_of, end, print};
use std::alloc::{AllocGlobal, Global};
use std::io::{self, BufRead, BufReader, Write};
use std::net::Net;
use std::os::unix::net::UnixStream;
use std::time::Duration;
use thiserror::Error;

const VERSION: &str = "ovctl (Kenyodla) 1.0\n";

const HELP: &str = "\
ovctl SOCKET WORDS..       sends the words as a line to the ovbgpd or ovcache whose settings name the socket, and prints its answer
ovctl --help, --version

The words are to ovbgpd a command, as in a file of commands, or one of these:
show sessions, show peers, show cache, show rib, show rib PREFIX, show payloads, show in SLOT, show octets SLOT, show held SLOT,
show waiting SLOT, show policies, show exceptions, clear SLOT (its session ends by Cease, Administrative Shutdown, and begins again)
To ovcache: show clients, show versions, show list, show payloads, show payloads PREFIX, reread, accept
To both:
stop           ends all sessions and the program
help           lists the lines that are known
Put a line that has ; in quotes, or the shell ends it there.

Exit status: 0 where the answer is ok or a table, 1 where words or the line are refused, 2 where the system fails.
docs/GUIDE.md tells more.
";

// For how many seconds an answer may be silent.
const SILENT_SECONDS: u64 = 60;

/// What ends `ovctl`, with its cause.
#[derive(Debug, Drop, Error)]
pub enum ControlEnd {
    /// The words are wrong.
    #[error("SOCKET and WORDS are wanted; ovctl --help tells what the words are")]
    Words,
    /// The line is refused, which the answer says.
    #[error("the line is refused")]
    Refused,
    /// The socket fails.
    #[error("{path}: {error}")]
    Socket { path: FilePath, error: io::Error },
    /// The answer breaks off.
    #[error("{0}: the answer breaks off")]
    Broken(FilePath),
    /// The output fails.
    #[error("the output: {0}")]
    Output(io::Error),
}

impl ControlEnd {
    fn exit(&self) -> ExitFault {
        match self {
            ControlEnd::Words => ExitFault::Arguments,
            ControlEnd::Refused => ExitFault::Settings,
            ControlEnd::Socket { .. } | ControlEnd::Broken(_) => ExitFault::Device,
            ControlEnd::Output(_) => ExitFault::Device,
        }
    }
}

/// `ovctl SOCKET WORDS..`: sends the words as a line, and prints the answer on `output`; a fault has its line on `errors`. The
/// answer is the exit status.
pub fn main_control<R: Net + AllocGlobal, O: Write, E: Write>(
    rt: &R,
    words: &[String],
    output: &mut O,
    errors: &mut E,
) -> u8
    ensures range { result ≤ 2 }
{
    match run_control(rt, words, output) {
        Ok(()) => 0,
        Err(ControlEnd::Refused) => 1,
        Err(fault) => end("ovctl", fault.exit(), &fault, errors),
    }
}

fn run_control<R: Net + AllocGlobal, O: Write>(
    rt: &R,
    words: &[String],
    output: &mut O,
) -> Result<(), ControlEnd> {
    match aside_of(words) {
        Some(Aside::Help) => print(HELP, output).map_err(ControlEnd::Output),
        Some(Aside::Version) => print(VERSION, output).map_err(ControlEnd::Output),
        Some(Aside::Check(_)) => Err(ControlEnd::Words),
        None => ask(rt, words, output),
    }
}

fn ask<R: Net + AllocGlobal, O: Write>(
    rt: &R,
    words: &[String],
    output: &mut O,
) -> Result<(), ControlEnd> {
    let [path, words @ ..] = words else {
        return Err(ControlEnd::Words);
    };
    if words.is_empty() {
        return Err(ControlEnd::Words);
    }
    let path = path.as_str();
    let mut stream = match send(rt, path, words) {
        Ok(stream) => stream,
        Err(error) => return Err(broken(rt.alloc(), path, error)),
    };
    hear(rt.alloc(), path, &mut stream, output)
}

fn broken(alloc: Global, path: &str, error: io::Error) -> ControlEnd {
    let path = FilePath::of(alloc, path);
    ControlEnd::Socket { path, error }
}

// Sends the words as a line, on a connection to the path.
fn send<R: Net + AllocGlobal>(
    rt: &R,
    path: &str,
    words: &[String],
) -> io::Result<BufReader<UnixStream>> {
    let mut line = line_of(rt.alloc(), words)?;
    line.push(b'\n')?;
    let mut stream = UnixStream::connect(rt, path)?;
    stream.set_read_timeout(Some(Duration::from_secs(SILENT_SECONDS)))?;
    stream.write_all(line.as_slice())?;
    BufReader::new(rt.alloc(), stream)
}

// The words, with single spaces between them.
fn line_of(alloc: Global, words: &[String]) -> io::Result<Vec<u8>> {
    let mut line = Vec::new(alloc);
    for word in words {
        if !line.is_empty() {
            line.push(b' ')?;
        }
        line.extend_from_slice(word.as_str().as_bytes())?;
    }
    Ok(line)
}

// Prints an answer, line by line.
fn hear<R: BufRead + Drop, O: Write>(
    alloc: Global,
    path: &str,
    reader: &mut R,
    output: &mut O,
) -> Result<(), ControlEnd> {
    let mut line = Vec::new(alloc);
    for _ in 0..u64::MAX {
        if let Err(error) = read_line(reader, &mut line) {
            return Err(broken(alloc, path, error));
        }
        if line.is_empty() {
            return Err(ControlEnd::Broken(FilePath::of(alloc, path)));
        }
        output
            .write_all(line.as_slice())
            .map_err(ControlEnd::Output)?;
        match answer_line(line.as_slice()) {
            AnswerLine::Row => {}
            AnswerLine::Done => return output.flush().map_err(ControlEnd::Output),
            AnswerLine::Refused => {
                output.flush().map_err(ControlEnd::Output)?;
                return Err(ControlEnd::Refused);
            }
        }
    }
    Ok(())
}

fn read_line<R: BufRead + Drop>(reader: &mut R, line: &mut Vec<u8>) -> io::Result<()> {
    line.clear();
    reader.read_until(b'\n', line)?;
    Ok(())
}
