//! What the main of `ovbgpd` does.
ghost use Rattle.clocks.specs.Moments.{moments_of};
ghost use Rattle.std.specs.Prelude.{◌≡◌, ◌≢◌, [], ◌≤◌, ℕ, List, Vec, Ok, Err, Some, IfErr, IfOk, MatchResult, ⊤};
ghost use Rattle.std.specs.Fn.{FnOnceReturnsAt, FnReturnsAt};
ghost use Rattle.std.specs.Global.{Global as TheGlobal};
ghost use Rattle.toml.specs.Data.{Members};
ghost use Rattle.speaker_program.specs.Checked.{IsCheckedBy, IsUncheckedBy};
ghost use Rattle.speaker_program.specs.Exits.{exit_of_fault};
ghost use Rattle.speaker_program.specs.Unbegun.{IsUnservedAt, IsUnservedBy};
ghost use Rattle.speaker_program.specs.declared.fault.SpeakerFault.{SpeakerFault as TheFault};
ghost use Rattle.program_endings.specs.Exits.{status_of};
ghost use Rattle.runs.specs.SpeakerState.{SpeakerState};
ghost use Rattle.speaker_program.specs.Commanded.{IsSpeakerOf, TextAt};
ghost use Rattle.speaker_program.specs.Endings.{EndsSo, IsEnded, IsOfWords, status_at_end};
ghost use Rattle.program_endings.specs.Asides.{Asks};
ghost use Rattle.program_endings.specs.declared.aside.Aside.{Aside};
ghost use Rattle.std.specs.Result.{IsErrAnd};
ghost use Rattle.speaker_program.specs.Begun.{AttendsOperators, AttendsSocket, IsServed, StateFrom, is_watched};
ghost use Rattle.speaker_settings.specs.declared.settings.SpeakerSettings.{SpeakerSettings};
ghost use Rattle.speaker_settings.specs.ToldSettings.{IsToldBy};
ghost use Rattle.settings_keys.specs.Keys.{IsTableOf};
ghost use Rattle.speaker_turns.specs.Turns.{Turns};
ghost use Rattle.program_endings.specs.Words.{IsCall};
ghost use Rattle.wires.specs.Wires.{nothing_told};
ghost use Rattle.speaker_program.specs.Files.{AreOctetsAt, AreSettingsOf, IsGiven};

use crate::checking::answer;
use crate::fault::SpeakerFault;
use crate::files::{lines_of, octets_at};
use crate::serving::serve;
use crate::settings_file::read_settings;
use clocks::{MonotonicClock, SecondsClock};
use control_lines::Operators;
use control_sockets::ControlSocket;
use decision::Book;
use file_paths::OpensFiles;
use metrics_sockets::MetricsSocket;
use net_wires::NetWire;
use program_endings::{Aside, aside_of, end, read_words};
use scrapers::Scrapers;
use speaker_settings::SpeakerSettings;
use speaker_turns::SpeakerLoop;
use std::alloc::{AllocGlobal, Global};
use std::io::{self, BufRead, Write};
use std::net::{Net, SocketAddr, TcpListener, TcpStream};
use std::rt::{Clock, Files};
use watched_wires::{Watched, WatchedWire};
use wires::Wire;

/// `ovbgpd SETTINGS [TURNS]`: a speaker that obeys the commands of its settings and then serves its sessions for so many turns.
/// What `files` opens is read, and nothing else. Behind the turns its Loc-RIB stands on `output`; a fault has its line on `errors`.
/// `--help`, `--version` and `--check SETTINGS` are answered on the output, and nothing is served then. The answer is the exit status.
pub fn main_bgp<B: Book<Global>, R, P: OpensFiles, O: Write, E: Write>(
    rt: &R,
    files: &P,
    words: &[String],
    output: &mut O,
    errors: &mut E,
) -> u8
where
    R: Net<Listener = TcpListener, Stream = TcpStream> + Files + Clock + AllocGlobal,
    ensures words { ((path : List ℕ) (turns : ℕ) → ¬ (IsCall words.now path turns)) → ((aside : Aside) → ¬ (Asks words.now aside)) → result ≡ 1 }
    ensures range { result ≤ 2 }
    ensures output { ((path : List ℕ) (turns : ℕ) → ¬ (IsCall words.now path turns)) → ((aside : Aside) → ¬ (Asks words.now aside)) → output.new ≡ output.old }
    ensures silent { result ≡ 0 → errors.new ≡ errors.old }
    // The status is 0 only where the settings of a file that was opened at the path of the words were served for just the turns
    // of the words, or where the operators of a socket that was opened at their `control` are attended to between turns for so
    // many or for fewer behind one who stopped them, each answered what its own line asks for, with peers that are to wait let
    // through when they may go: with the exceptions and the commands of files that were opened at their paths, over a wire that was opened where they
    // listen, and that listens there still, at the moments of the instants that the system's clock answered.
    ensures serves { ((aside : Aside) → ¬ (Asks words.now aside)) → result ≡ 0 → (path : List ℕ) × (turns : ℕ) × (settings : SpeakerSettings) × (instants : List ℕ) × (served : Turns)
        × IsCall words.now path turns × AreSettingsOf (AreOctetsAt P.opened path) settings
        × IsServed P.opened (λ wire. wire ≡ nothing_told settings.listen) AttendsSocket settings turns [] (moments_of instants) served × (served.counts.wire.listens ≡ settings.listen) }
    // Where they are to be checked, it is 0 only where a file that was opened at their path tells settings, and the exceptions
    // and the commands of files that were opened at theirs leave a speaker of them with just their slots.
    ensures checks { (aside : Aside) → Asks words.now aside → result ≡ 0 → IsCheckedBy P.opened aside }
    // Any other status is that of a fault for which, by what was opened and what wasn't, settings aren't served well, or don't pass a check.
    ensures fails { ((aside : Aside) → ¬ (Asks words.now aside)) → result ≢ 0 → (fault : TheFault) × (result ≡ status_of (exit_of_fault fault)) × IsEnded (IsUnservedBy P.opened P.refused ⊤) words.now fault }
    ensures unchecked { (aside : Aside) → Asks words.now aside → result ≢ 0 → (fault : TheFault) × (result ≡ status_of (exit_of_fault fault)) × IsUncheckedBy P.opened P.refused aside fault }
{
    match aside_of(words) {
        None => main_serving::<B, _, _, _, _>(rt, files, words, output, errors),
        Some(aside) => conclude(answer::<B, _, _>(rt.alloc(), files, aside, output), errors),
    }
}

// The same of words that ask for nothing else.
fn main_serving<B: Book<Global>, R, P: OpensFiles, O: Write, E: Write>(
    rt: &R,
    files: &P,
    words: &[String],
    output: &mut O,
    errors: &mut E,
) -> u8
where
    R: Net<Listener = TcpListener, Stream = TcpStream> + Files + Clock + AllocGlobal,
    ensures words { ((path : List ℕ) (turns : ℕ) → ¬ (IsCall words.now path turns)) → result ≡ 1 }
    ensures range { result ≤ 2 }
    ensures output { ((path : List ℕ) (turns : ℕ) → ¬ (IsCall words.now path turns)) → output.new ≡ output.old }
    ensures silent { result ≡ 0 → errors.new ≡ errors.old }
    ensures serves { result ≡ 0 → (path : List ℕ) × (turns : ℕ) × (settings : SpeakerSettings) × (instants : List ℕ) × (served : Turns)
        × IsCall words.now path turns × AreSettingsOf (AreOctetsAt P.opened path) settings
        × IsServed P.opened (λ wire. wire ≡ nothing_told settings.listen) AttendsSocket settings turns [] (moments_of instants) served × (served.counts.wire.listens ≡ settings.listen) }
    ensures fails { result ≢ 0 → (fault : TheFault) × (result ≡ status_of (exit_of_fault fault)) × IsEnded (IsUnservedBy P.opened P.refused ⊤) words.now fault }
{
    let mut clock = MonotonicClock::new(rt);
    let served = serve_words::<B, _, _, _, _>(rt, files, words, output, &mut clock);
    conclude(ending(served), errors)
}

// The exit status of the program that has ended so; a fault has its line on `errors`.
fn conclude<E: Write>(ended: Result<(), SpeakerFault>, errors: &mut E) -> u8
    ensures status { result ≡ status_at_end ended }
    ensures range { result ≤ 2 }
    ensures silent { result ≡ 0 → errors.new ≡ errors.old }
{
    match ended {
        Ok(()) => 0,
        Err(fault) => end("ovbgpd", fault.exit(), &fault, errors),
    }
}

// What the words ask for, by these files and the system's sockets.
fn serve_words<'a, B: Book<Global>, R, P: OpensFiles, O: Write, C: SecondsClock>(
    rt: &'a R,
    files: &P,
    words: &[String],
    output: &mut O,
    clock: &mut C,
) -> Result<SpeakerLoop<WatchedWire<NetWire<'a, R>>, Global, B>, SpeakerFault>
where
    R: Net<Listener = TcpListener, Stream = TcpStream> + Files + Clock + AllocGlobal,
    ensures wrong { ((path : List ℕ) (turns : ℕ) → ¬ (IsCall words.now path turns)) → IsErrAnd result IsOfWords }
    ensures output { IsErrAnd result IsOfWords → output.new ≡ output.old }
    ensures serves { IfOk result (λ served. (path : List ℕ) × (turns : ℕ) × (settings : SpeakerSettings)
        × IsCall words.now path turns × AreSettingsOf (AreOctetsAt P.opened path) settings
        × IsServed P.opened (λ wire. wire ≡ nothing_told settings.listen) AttendsSocket settings turns (C.readings clock.old) (C.readings clock.new) served × (served.counts.wire.listens ≡ settings.listen)) }
    ensures fails { IfErr result (IsEnded (IsUnservedBy P.opened P.refused (C.readings clock.new ≡ C.readings clock.old)) words.now) }
{
    run_bgp(
        rt,
        words,
        output,
        clock,
        |path: &str| octets_at(rt.alloc(), files, path),
        &|path: &str| lines_of(rt.alloc(), files, path),
        |listen, log| open_wire(rt, listen, log),
        |path: &str| ControlSocket::open(rt, path),
        |address| MetricsSocket::open(rt, address),
    )
}

// The system's sockets, which listen where an address is given, and are watched where a log is asked for.
fn open_wire<R>(
    rt: &R,
    listen: Option<SocketAddr>,
    log: bool,
) -> io::Result<WatchedWire<NetWire<'_, R>>>
where
    R: Net<Listener = TcpListener, Stream = TcpStream> + AllocGlobal,
    ensures { IfOk result (λ wire. wire.wire ≡ nothing_told listen) }
{
    let wire = NetWire::open(rt, listen)?;
    let listens = wire.local_address();
    Ok(WatchedWire::new(rt.alloc(), wire, listens, log))
}

// How serving ended.
fn ending<T: Drop>(served: Result<T, SpeakerFault>) -> Result<(), SpeakerFault>
    ensures { EndsSo served result }
{
    match served {
        Ok(_) => Ok(()),
        Err(fault) => Err(fault),
    }
}

// What the words ask for, by what reading files and opening the wire gives, and by this clock.
fn run_bgp<
    R: Clock + AllocGlobal,
    B: Book<Global>,
    O: Write,
    C: SecondsClock,
    L: BufRead + Drop,
    W: Wire + Watched + Drop,
    P: Operators + Drop,
    Q: Scrapers + Drop,
    S,
    M,
    F,
    D,
    E,
>(
    rt: &R,
    words: &[String],
    output: &mut O,
    clock: &mut C,
    reads: S,
    texts: &M,
    opens: F,
    controls: D,
    scrapes: E,
) -> Result<SpeakerLoop<W, Global, B>, SpeakerFault>
where
    S: FnOnce(&str) -> io::Result<Vec<u8>>,
    M: Fn(&str) -> io::Result<L>,
    F: FnOnce(Option<SocketAddr>, bool) -> io::Result<W>,
    D: FnOnce(&str) -> io::Result<P>,
    E: FnOnce(SocketAddr) -> io::Result<Q>,
    requires reads { S.IsAlwaysCallable reads }
    requires texts { M.IsAlwaysCallable texts.now }
    requires opens { (settings : SpeakerSettings) (speaker : SpeakerState) → IsSpeakerOf (TextAt (λ path lines. FnReturnsAt M.Fn texts.now path (Ok lines)) L.remaining) settings speaker → F.pre opens settings.listen (is_watched settings) }
    requires controls { D.IsAlwaysCallable controls }
    requires scrapes { E.IsAlwaysCallable scrapes }
    ensures wrong { ((path : List ℕ) (turns : ℕ) → ¬ (IsCall words.now path turns)) → IsErrAnd result IsOfWords }
    ensures output { IsErrAnd result IsOfWords → output.new ≡ output.old }
    // The speaker of the settings that the file of the words tells has obeyed just the exceptions and then the commands of the files
    // of the settings, it was told their remotes, and has taken just the turns of the words over the wire that was opened where they listen.
    ensures serves { IfOk result (λ served. (path : List ℕ) × (turns : ℕ) × (octets : Vec ℕ TheGlobal) × (table : Members) × (settings : SpeakerSettings)
        × IsCall words.now path turns × FnOnceReturnsAt S.FnOnce reads path (Ok octets) × IsTableOf octets.items table × IsToldBy table settings
        × IsServed (TextAt (λ path lines. FnReturnsAt M.Fn texts.now path (Ok lines)) L.remaining)
        (StateFrom (λ wire. F.post opens settings.listen (is_watched settings) (Ok wire)) W.state)
        (AttendsOperators P.wish P.line P.turns P.hears (λ path there. FnOnceReturnsAt D.FnOnce controls path (Ok there))) settings turns (C.readings clock.old) (C.readings clock.new) served) }
    ensures fails { IfErr result (IsEnded (IsUnservedAt (TextAt (λ path lines. FnReturnsAt M.Fn texts.now path (Ok lines)) L.remaining) (λ path error. FnReturnsAt M.Fn texts.now path (Err error))
        (λ path. IsGiven (λ octets. FnOnceReturnsAt S.FnOnce reads path (Ok octets))) (λ path error. FnOnceReturnsAt S.FnOnce reads path (Err error))
        (λ settings error. F.post opens settings.listen (is_watched settings) (Err error)) (λ settings. StateFrom (λ wire. F.post opens settings.listen (is_watched settings) (Ok wire)) W.state) (C.readings clock.new ≡ C.readings clock.old)) words.now) }
{
    let (path, turns) = call_of(words)?;
    let settings = read_settings(rt.alloc(), path, reads)?;
    serve(
        rt, &settings, turns, output, clock, texts, opens, controls, scrapes,
    )
}

// The path of the settings and the number of turns.
fn call_of(words: &[String]) -> Result<(&str, u64), SpeakerFault>
    ensures { MatchResult result (λ read. IsCall words.now read.0.now read.1) (λ fault. IsOfWords fault × ((path : List ℕ) (turns : ℕ) → ¬ (IsCall words.now path turns))) }
{
    match read_words(words) {
        Ok(call) => Ok(call),
        Err(why) => Err(SpeakerFault::Words(why)),
    }
}
