//! What the main of `ovplay` does.
ghost use Rattle.std.specs.Prelude.{◌≡◌, ◌≤◌, ◌<◌, length};
ghost use Rattle.std.specs.Result.{IsErrAnd};
ghost use Rattle.program_endings.specs.Asides.{Asks};
ghost use Rattle.program_endings.specs.declared.aside.Aside.{Aside};
ghost use Rattle.ovplay.specs.Exits.{IsOfWords, exit_of_fault};

use live_book::LiveBook;
use program_endings::{Aside, ExitFault, aside_of, end, print};
use scenario::{PlayFault, play};
use std::alloc::AllocGlobal;
use std::io::{BufRead, Write};
use thiserror::Error;

const VERSION: &str = "ovplay (Kenyodla) 1.0\n";

const HELP: &str = "\
ovplay                     plays the script on its input, and answers each line on its output
ovplay --help, --version

Exit status: 0 at the end of the script, 1 where words or a line are refused, 2 where the system fails.
docs/GUIDE.md tells more, and docs/PROTOCOL.md each line.
";

/// What ends `ovplay`, with its cause.
#[derive(Debug, Drop, Error)]
pub enum PlayEnd {
    /// There are words.
    #[error("it takes none but --help or --version, and its script on the input")]
    Words,
    /// The script ends it.
    #[error("{words}", words = words_of(*.0))]
    Script(PlayFault),
    /// The output fails.
    #[error("the output fails")]
    Output,
}

// Why a script ends the program.
fn words_of(fault: PlayFault) -> &'static str {
    match fault {
        PlayFault::BadLine(_) => "the line is none of a script",
        PlayFault::Device => "the input or the output fails",
        PlayFault::NoMemory => "there is no memory",
    }
}

impl PlayEnd {
    // What this is to whoever started the program.
    fn exit(&self) -> ExitFault
        ensures { result ≡ exit_of_fault self.now }
    {
        match self {
            PlayEnd::Words => ExitFault::Arguments,
            PlayEnd::Script(PlayFault::BadLine(line)) => ExitFault::BadLine(*line),
            PlayEnd::Script(PlayFault::Device | PlayFault::NoMemory) => ExitFault::Device,
            PlayEnd::Output => ExitFault::Device,
        }
    }
}

/// `ovplay`: plays a script, and answers on `output`. It takes no words but `--help` and `--version`, which it answers there; a
/// fault has its line on `errors`. The answer is the exit status.
pub fn main_play<R: AllocGlobal, I: BufRead + Drop, O: Write, E: Write>(
    rt: &R,
    words: &[String],
    input: I,
    output: &mut O,
    errors: &mut E,
) -> u8
    ensures words { 0 < length words.now → ((aside : Aside) → ¬ (Asks words.now aside)) → result ≡ 1 }
    ensures range { result ≤ 2 }
    ensures output { 0 < length words.now → ((aside : Aside) → ¬ (Asks words.now aside)) → output.new ≡ output.old }
    ensures silent { result ≡ 0 → errors.new ≡ errors.old }
{
    match run_play(rt, words, input, output) {
        Ok(()) => 0,
        Err(fault) => end("ovplay", fault.exit(), &fault, errors),
    }
}

fn run_play<R: AllocGlobal, I: BufRead + Drop, O: Write>(
    rt: &R,
    words: &[String],
    input: I,
    output: &mut O,
) -> Result<(), PlayEnd>
    ensures wrong { 0 < length words.now → ((aside : Aside) → ¬ (Asks words.now aside)) → IsErrAnd result IsOfWords }
    ensures output { 0 < length words.now → ((aside : Aside) → ¬ (Asks words.now aside)) → output.new ≡ output.old }
{
    match aside_of(words) {
        Some(aside) => answer(aside, output),
        None if !words.is_empty() => Err(PlayEnd::Words),
        None => play::<LiveBook, _, _>(rt.alloc(), input, output).map_err(PlayEnd::Script),
    }
}

// Answers what is asked besides playing. There are no settings to check.
fn answer<O: Write>(aside: Aside<'_>, output: &mut O) -> Result<(), PlayEnd> {
    let text = match aside {
        Aside::Help => HELP,
        Aside::Version => VERSION,
        Aside::Check(_) => return Err(PlayEnd::Words),
    };
    print(text, output).map_err(|_| PlayEnd::Output)
}
