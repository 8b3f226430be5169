//! What the main of `ovcache` does.
ghost use Rattle.std.specs.Prelude.{◌≡◌, ◌≤◌, [], ◌∷◌, ℕ, List, Ok, Some, IfErr, IfOk, MatchResult, OnErr, OnOk, Option, None, false};
ghost use Rattle.clocks.specs.Moments.{IsNotBefore, moments_of};
ghost use Rattle.std.specs.Fn.{FnOnceReturnsAt, FnReturnsAt};
ghost use Rattle.std.specs.Result.{IsErrAnd};
ghost use Rattle.program_endings.specs.Asides.{Asks};
ghost use Rattle.program_endings.specs.declared.aside.Aside.{Aside};
ghost use Rattle.payload_sources.specs.PayloadSources.{SourceTexts};
ghost use Rattle.cache_program.specs.Endings.{EndsSo, IsOfWords, status_at_end};
ghost use Rattle.cache_program.specs.Checked.{IsChecked, IsCheckedBy};
ghost use Rattle.cache_program.specs.FirstList.{Passes};
ghost use Rattle.cache_desk.specs.Desks.{AtDesk, TellsIf};
ghost use Rattle.cache_program.specs.AttendedTurns.{AttendsOperators, AttendsSocket, AttendsTurns, HearsAt, IsDeskOf};
ghost use Rattle.cache_program.specs.Opened.{Ages, AnySecond, AreSettingsAt, Gives, GivesAt, IsOpenedAt, Listens, SystemAges, SystemGives};
ghost use Rattle.cache_program.specs.Intervals.{is_due_at, since_after};
ghost use Rattle.cache_program.specs.Rereads.{Served};
ghost use Rattle.cache_program.specs.ServedTurns.{IsBegun, IsServed, ServesOnce, ServesSoMany, oldest_of};
ghost use Rattle.cache_settings.specs.declared.settings.CacheSettings.{CacheSettings};
ghost use Rattle.cache_watch.specs.declared.reread.Reread.{Reread};
ghost use Rattle.cache_watch.specs.declared.telling.FileAge.{FileAge};
ghost use Rattle.cache_turns.specs.Turns.{idle};
ghost use Rattle.program_endings.specs.Words.{IsCall};
ghost use Rattle.wires.specs.Wires.{WireState, nothing_told};

use crate::fault::CacheFault;
use crate::files::{open_at, open_stamped_at, path_of, slurm_path};
use crate::help::{HELP, VERSION};
use crate::interval::Interval;
use crate::loading::{first_set, load_cache, opened_files, session_id};
use crate::served_list::{ServedList, age_told};
use crate::settings_file::read_settings;
use cache_desk::{Desk, ListState, Reading, Scene};
use cache_settings::{CacheSettings, Stale};
use cache_turns::CacheLoop;
use cache_watch::{
    FileAge, LogLine, ROUTER_LINES, Reread, Watch, Watched, age_of, file_age, tell_list,
    tell_listening, tell_metrics, tell_routers, tell_status,
};
use clocks::{MonotonicClock, SecondsClock, SecondsSince1970, SystemSeconds};
use control_lines::Operators;
use control_sockets::ControlSocket;
use file_paths::Steady;
use list_guards::ListAge;
use log_limits::LineLimit;
use log_lines::{Every, log};
use metrics_sockets::MetricsSocket;
use net_wires::{NetWire, REST_MILLISECONDS};
use payload_sources::SourceSet;
use program_endings::{Aside, aside_of, end, print, read_words};
use rtr_cache::Cache;
use scrapers::Scrapers;
use std::alloc::{AllocGlobal, Global};
use std::io::{self, Read, Write};
use std::net::{Net, SocketAddr, TcpListener, TcpStream};
use std::rt::{Clock, Files};
use std::time::Duration;
use wires::Wire;

/// `ovcache SETTINGS [TURNS]`: a cache that serves the list of its settings for so many turns. Its output is the log, and
/// stays as it is where the settings ask for none; a fault has its line on `errors`. `--help`, `--version` and `--check
/// SETTINGS` are answered on the output, and nothing is served then. The answer is the exit status.
pub fn main_cache<R, O: Write, E: Write>(
    rt: &R,
    words: &[String],
    output: &mut O,
    errors: &mut E,
) -> u8
where
    R: Net<Listener = TcpListener, Stream = TcpStream> + Files + Clock + AllocGlobal,
    ensures words { ((path : List ℕ) (turns : ℕ) → ¬ (IsCall words.now path turns)) → ((aside : Aside) → ¬ (Asks words.now aside)) → result ≡ 1 }
    ensures range { result ≤ 2 }
    ensures output { ((path : List ℕ) (turns : ℕ) → ¬ (IsCall words.now path turns)) → ((aside : Aside) → ¬ (Asks words.now aside)) → output.new ≡ output.old }
    ensures silent { result ≡ 0 → errors.new ≡ errors.old }
    // The status is 0 only where the settings that a file tells were served for just the turns of the words, a file that was
    // opened at the path of the words: with the lists of files that were opened at their paths, over a wire that was opened
    // where they listen, and that listens there still, at the moments of the instants that the system's clock answered, and
    // with operators at a socket attended to at each moment, where they have a path for one.
    ensures serves { ((aside : Aside) → ¬ (Asks words.now aside)) → result ≡ 0 → (path : List ℕ) × (turns : ℕ) × (settings : CacheSettings) × (instants : List ℕ) × (served : Served)
        × IsCall words.now path turns × AreSettingsAt (IsOpenedAt path) (λ file. file.text) settings
        × IsServed (SystemGives settings) (SystemAges settings) (λ wire. wire ≡ nothing_told (Some settings.listen)) AnySecond AttendsSocket settings turns [] (moments_of instants) served × (served.turns.counts.wire.listens ≡ Some settings.listen) }
    // Where they are to be checked, it is 0 only where a file that was opened at their path tells settings whose guards let the
    // list of the files that were opened at theirs be served.
    ensures checks { (aside : Aside) → Asks words.now aside → result ≡ 0 → IsCheckedBy aside }
{
    match aside_of(words) {
        None => main_serving(rt, words, output, errors),
        Some(aside) => ending(answer(rt, aside, output), errors),
    }
}

// The same of words that ask for nothing else.
fn main_serving<R, O: Write, E: Write>(
    rt: &R,
    words: &[String],
    output: &mut O,
    errors: &mut E,
) -> u8
where
    R: Net<Listener = TcpListener, Stream = TcpStream> + Files + Clock + AllocGlobal,
    ensures words { ((path : List ℕ) (turns : ℕ) → ¬ (IsCall words.now path turns)) → result ≡ 1 }
    ensures range { result ≤ 2 }
    ensures output { ((path : List ℕ) (turns : ℕ) → ¬ (IsCall words.now path turns)) → output.new ≡ output.old }
    ensures silent { result ≡ 0 → errors.new ≡ errors.old }
    ensures serves { result ≡ 0 → (path : List ℕ) × (turns : ℕ) × (settings : CacheSettings) × (instants : List ℕ) × (served : Served)
        × IsCall words.now path turns × AreSettingsAt (IsOpenedAt path) (λ file. file.text) settings
        × IsServed (SystemGives settings) (SystemAges settings) (λ wire. wire ≡ nothing_told (Some settings.listen)) AnySecond AttendsSocket settings turns [] (moments_of instants) served × (served.turns.counts.wire.listens ≡ Some settings.listen) }
{
    let mut clock = MonotonicClock::new(rt);
    let served = serve_words(rt, words, output, &mut clock);
    ending(ended(served), errors)
}

// How serving ended.
fn ended<T: Drop>(served: Result<T, CacheFault>) -> Result<(), CacheFault>
    ensures { EndsSo served result }
{
    match served {
        Ok(_) => Ok(()),
        Err(fault) => Err(fault),
    }
}

// What the words ask for, by the system's files, sockets and second.
fn serve_words<'a, R, O: Write, C: SecondsClock>(
    rt: &'a R,
    words: &[String],
    output: &mut O,
    clock: &mut C,
) -> Result<ServedList<NetWire<'a, R>>, CacheFault>
where
    R: Net<Listener = TcpListener, Stream = TcpStream> + Files + Clock + AllocGlobal,
    ensures wrong { ((path : List ℕ) (turns : ℕ) → ¬ (IsCall words.now path turns)) → IsErrAnd result IsOfWords }
    ensures output { IsErrAnd result IsOfWords → output.new ≡ output.old }
    ensures serves { IfOk result (λ served. (path : List ℕ) × (turns : ℕ) × (settings : CacheSettings)
        × IsCall words.now path turns × AreSettingsAt (IsOpenedAt path) (λ file. file.text) settings
        × IsServed (SystemGives settings) (SystemAges settings) (λ wire. wire ≡ nothing_told (Some settings.listen)) AnySecond AttendsSocket settings turns (C.readings clock.old) (C.readings clock.new) served × (served.turns.counts.wire.listens ≡ Some settings.listen)) }
{
    run_cache(
        rt,
        words,
        output,
        clock,
        |path: &str| open_stamped_at(rt, path),
        |path: &str| file_age(rt, path),
        |listen: SocketAddr| NetWire::listening(rt, listen),
        |address: SocketAddr| MetricsSocket::open(rt, address),
        |path: &str| ControlSocket::open(rt, path),
        &mut SystemSeconds::new(rt),
    )
}

// The exit status of the program that has ended so; a fault has its line on `errors`.
fn ending<E: Write>(ended: Result<(), CacheFault>, errors: &mut E) -> u8
    ensures status { result ≡ status_at_end ended }
    ensures range { result ≤ 2 }
    ensures silent { result ≡ 0 → errors.new ≡ errors.old }
{
    match ended {
        Ok(()) => 0,
        Err(fault) => end("ovcache", fault.exit(), &fault, errors),
    }
}

// Answers what is asked besides serving.
fn answer<R, O: Write>(rt: &R, aside: Aside<'_>, output: &mut O) -> Result<(), CacheFault>
where
    R: Files + Clock + AllocGlobal,
    ensures { OnOk result (IsCheckedBy aside.entry) }
{
    match aside {
        Aside::Help => print(HELP, output).map_err(CacheFault::Output),
        Aside::Version => print(VERSION, output).map_err(CacheFault::Output),
        Aside::Check(path) => check(rt, path, output),
    }
}

// Reads the settings of this path and their files, and tells what they are.
fn check<R, O: Write>(rt: &R, path: &str, output: &mut O) -> Result<(), CacheFault>
where
    R: Files + Clock + AllocGlobal,
    ensures { OnOk result (IsChecked path.now) }
{
    let settings = settings_at(rt, path)?;
    let read = checked_files(rt, &settings)?;
    let address = settings.listen;
    if let Err(error) = writeln!(output, "{path}: settings that listen at {address}") {
        return Err(CacheFault::Output(error));
    }
    let csv = settings.csv.as_str();
    let told = read.tell(csv, slurm_path(&settings), output);
    told.map_err(CacheFault::Output)
}

// The settings that the file at this path tells.
fn settings_at<R>(rt: &R, path: &str) -> Result<CacheSettings, CacheFault>
where
    R: Files + AllocGlobal,
    ensures told { IfOk result (AreSettingsAt (IsOpenedAt path.now) (λ file. file.text)) }
{
    read_settings(rt.alloc(), path, &|path: &str| open_at(rt, path))
}

// The set of the settings' files, which may be served first.
fn checked_files<R>(rt: &R, settings: &CacheSettings) -> Result<SourceSet, CacheFault>
where
    R: Files + Clock + AllocGlobal,
    ensures { IfOk result (λ read. (sources : SourceTexts) × SystemGives settings.now (Ok sources) × Passes settings.now.guards sources read.set.keys) }
{
    let second = expiring_second(rt, settings)?;
    let files = opened_files(
        rt.alloc(),
        settings,
        second,
        &|path: &str| open_at(rt, path),
    )?;
    match first_set(rt.alloc(), &settings.guards, files) {
        Ok(read) => Ok(read),
        Err(why) => {
            let path = path_of(settings, why.file());
            Err(CacheFault::bad_list(rt.alloc(), path, why))
        }
    }
}

// What the words ask for, by these clocks: a file is what opening its path answers, and the wire what listening at an address
// does.
fn run_cache<
    R,
    O: Write,
    C: SecondsClock,
    L: Read + Steady + Drop,
    W: Wire + Watched + Drop,
    P: Scrapers + Drop,
    Q: Operators + Drop,
    F,
    A,
    G,
    D,
    K,
    S: SecondsSince1970,
>(
    rt: &R,
    words: &[String],
    output: &mut O,
    clock: &mut C,
    opens: F,
    ages: A,
    listens: G,
    scrapes: D,
    controls: K,
    seconds: &mut S,
) -> Result<ServedList<W>, CacheFault>
where
    R: Files + Clock + AllocGlobal,
    F: Fn(&str) -> io::Result<L>,
    A: Fn(&str) -> FileAge,
    G: FnOnce(SocketAddr) -> io::Result<W>,
    D: FnOnce(SocketAddr) -> io::Result<P>,
    K: FnOnce(&str) -> io::Result<Q>,
    requires opens { F.IsAlwaysCallable opens }
    requires ages { A.IsAlwaysCallable ages }
    requires listens { G.IsAlwaysCallable listens }
    requires scrapes { D.IsAlwaysCallable scrapes }
    requires controls { K.IsAlwaysCallable controls }
    ensures wrong { ((path : List ℕ) (turns : ℕ) → ¬ (IsCall words.now path turns)) → IsErrAnd result IsOfWords }
    ensures right { (path : List ℕ) (turns : ℕ) → IsCall words.now path turns → ¬ (IsErrAnd result IsOfWords) }
    ensures output { IsErrAnd result IsOfWords → output.new ≡ output.old }
    // The settings of the file that opening the path of the words gave were served for just the turns of the words.
    ensures serves { IfOk result (λ served. (path : List ℕ) × (turns : ℕ) × (settings : CacheSettings)
        × IsCall words.now path turns × AreSettingsAt (FnReturnsAt F.Fn opens path) L.remaining settings
        × IsServed (Gives (FnReturnsAt F.Fn opens) L.remaining L.stamp settings) (Ages (FnReturnsAt A.Fn ages) settings) (Listens (G.post listens settings.listen) W.state) (λ second. S.told seconds.new ≡ Some second)
        (AttendsOperators Q.wish Q.line Q.turns Q.hears (λ path there. FnOnceReturnsAt K.FnOnce controls path (Ok there))) settings turns (C.readings clock.old) (C.readings clock.new) served) }
{
    let (path, turns) = call_of(words)?;
    let settings = read_settings(rt.alloc(), path, &opens)?;
    serve_cache(
        rt, &settings, turns, output, clock, opens, ages, listens, scrapes, controls, seconds,
    )
}

// The path of the settings and the number of turns.
fn call_of(words: &[String]) -> Result<(&str, u64), CacheFault>
    ensures { MatchResult result (λ read. IsCall words.now read.0.now read.1) (λ fault. IsOfWords fault × ((path : List ℕ) (turns : ℕ) → ¬ (IsCall words.now path turns))) }
{
    match read_words(words) {
        Ok(call) => Ok(call),
        Err(why) => Err(CacheFault::Words(why)),
    }
}

// The moment.
fn read_clock<C: SecondsClock>(clock: &mut C) -> Result<u64, CacheFault>
    ensures fault { IfErr result (λ fault. ¬ (IsOfWords fault)) }
    ensures told { IfOk result (λ now. C.readings clock.new ≡ now ∷ C.readings clock.old) }
    ensures forward { IfOk result (λ now. IsNotBefore now (C.readings clock.old)) }
    ensures failed { OnErr result (C.readings clock.new ≡ C.readings clock.old) }
{
    match clock.read() {
        Ok(now) => Ok(now),
        Err(error) => Err(CacheFault::Clock(error)),
    }
}

/// Serves the list of these settings for so many turns, each at the moment that the clock tells for it: the list is read
/// before the first, and again between two of them, as `ServedList::serve` says of each, under the exceptions of the SLURM
/// file where there is one. The files are what `opens` answers at their paths, and the list's is as old as `ages` answers; the
/// wire is what `listens` answers at the address where the settings listen, and `seconds` tells the second of the start.
/// Scrapers are what `scrapes` answers at the address where the settings have them ask for figures, if they do: they are
/// attended to between turns, and change nothing of what is served. Operators are what `controls` answers at the path where
/// the settings have them ask, if they do: each is visited at each moment and answered, between turns they have the list read,
/// under the guards of the settings or, where one accepts what these refuse, without, or the program stopped, and change
/// nothing else (`specs/AttendedTurns.antt`). Answers what is served behind the last turn. Nothing is written to the output
/// where the settings ask for no log.
pub fn serve_cache<
    R,
    O: Write,
    C: SecondsClock,
    L: Read + Steady + Drop,
    W: Wire + Watched + Drop,
    P: Scrapers + Drop,
    Q: Operators + Drop,
    F,
    A,
    G,
    D,
    K,
    S: SecondsSince1970,
>(
    rt: &R,
    settings: &CacheSettings,
    turns: u64,
    output: &mut O,
    clock: &mut C,
    opens: F,
    ages: A,
    listens: G,
    scrapes: D,
    controls: K,
    seconds: &mut S,
) -> Result<ServedList<W>, CacheFault>
where
    R: Files + Clock + AllocGlobal,
    F: Fn(&str) -> io::Result<L>,
    A: Fn(&str) -> FileAge,
    G: FnOnce(SocketAddr) -> io::Result<W>,
    D: FnOnce(SocketAddr) -> io::Result<P>,
    K: FnOnce(&str) -> io::Result<Q>,
    requires opens { F.IsAlwaysCallable opens }
    requires ages { A.IsAlwaysCallable ages }
    requires listens { G.IsAlwaysCallable listens }
    requires scrapes { D.IsAlwaysCallable scrapes }
    requires controls { K.IsAlwaysCallable controls }
    ensures fault { IfErr result (λ fault. ¬ (IsOfWords fault)) }
    ensures quiet { settings.now.log ≡ false → output.new ≡ output.old }
    ensures serves { IfOk result (IsServed (Gives (FnReturnsAt F.Fn opens) L.remaining L.stamp settings.now) (Ages (FnReturnsAt A.Fn ages) settings.now) (Listens (G.post listens settings.now.listen) W.state) (λ second. S.told seconds.new ≡ Some second)
        (AttendsOperators Q.wish Q.line Q.turns Q.hears (λ path there. FnOnceReturnsAt K.FnOnce controls path (Ok there))) settings.now turns (C.readings clock.old) (C.readings clock.new)) }
{
    let second = second_of(seconds)?;
    let mut served = begin(rt, settings, second, output, &opens, &ages, listens)?;
    let session = session_id(settings.session, second);
    let mut watch = watch_of(rt, settings, session, output, scrapes)?;
    let mut desk = desk_of(rt.alloc(), settings, controls)?;
    // The moment 0, from which the list is read again.
    let _start = read_clock(clock)?;
    take_turns(
        rt,
        settings,
        &mut served,
        turns,
        output,
        clock,
        &opens,
        &ages,
        &mut watch,
        &mut desk,
    )?;
    Ok(served)
}

// What operators see of the run. Scrapers may come where the settings say that they ask for figures.
fn watch_of<R: Clock, O: Write, P: Scrapers + Drop, D>(
    rt: &R,
    settings: &CacheSettings,
    session: u16,
    output: &mut O,
    scrapes: D,
) -> Result<Watch<P>, CacheFault>
where
    D: FnOnce(SocketAddr) -> io::Result<P>,
    requires { D.IsAlwaysCallable scrapes }
    ensures fault { IfErr result (λ fault. ¬ (IsOfWords fault)) }
    ensures quiet { settings.now.log ≡ false → output.new ≡ output.old }
{
    let Some(address) = settings.metrics else {
        return Ok(Watch::new(session, None));
    };
    let scrapers = match scrapes(address) {
        Ok(scrapers) => scrapers,
        Err(error) => return Err(CacheFault::Metrics { address, error }),
    };
    tell_metrics(rt, settings.log, &scrapers, output);
    Ok(Watch::new(session, Some(scrapers)))
}

// Where operators ask: where the settings say so, or nowhere.
fn desk_of<Q: Operators + Drop, K>(
    alloc: Global,
    settings: &CacheSettings,
    controls: K,
) -> Result<Desk<Q>, CacheFault>
where
    K: FnOnce(&str) -> io::Result<Q>,
    requires { K.IsAlwaysCallable controls }
    ensures fault { IfErr result (λ fault. ¬ (IsOfWords fault)) }
    ensures open { IfOk result (IsDeskOf (λ path there. FnOnceReturnsAt K.FnOnce controls path (Ok there)) settings.now.control) }
{
    let Some(path) = &settings.control else {
        return Ok(Desk::closed());
    };
    let path = path.as_str();
    match controls(path) {
        Ok(operators) => Ok(Desk::open(alloc, operators)?),
        Err(error) => Err(CacheFault::unread(alloc, path, error)),
    }
}

// The list of the settings, begun in this second, before its first turn.
fn begin<R, O: Write, L: Read + Steady + Drop, W: Wire + Watched + Drop, F, A, G>(
    rt: &R,
    settings: &CacheSettings,
    second: u64,
    output: &mut O,
    opens: &F,
    ages: &A,
    listens: G,
) -> Result<ServedList<W>, CacheFault>
where
    R: Clock + AllocGlobal,
    F: Fn(&str) -> io::Result<L>,
    A: Fn(&str) -> FileAge,
    G: FnOnce(SocketAddr) -> io::Result<W>,
    requires opens { F.IsAlwaysCallable opens.now }
    requires ages { A.IsAlwaysCallable ages.now }
    requires listens { G.IsAlwaysCallable listens }
    ensures fault { IfErr result (λ fault. ¬ (IsOfWords fault)) }
    ensures begins { IfOk result (IsBegun (Gives (FnReturnsAt F.Fn opens.now) L.remaining L.stamp settings.now) (Ages (FnReturnsAt A.Fn ages.now) settings.now) (Listens (G.post listens settings.now.listen) W.state) (λ told. told ≡ second) settings.now) }
    ensures quiet { settings.now.log ≡ false → output.new ≡ output.old }
{
    let file = list_age(settings, ages);
    let (cache, serial, read) = load_cache(rt, settings, second, output, opens)?;
    let age = age_told(read.written, file);
    let turns = over_wire(rt.alloc(), settings, cache, listens)?;
    tell_listening(rt, settings.log, turns.wire(), output);
    let served = ServedList::new(turns, settings.guards, serial, read.set, read.written);
    let aged = served.aged(age, oldest_of(settings));
    Ok(aged.known_by(read.stamps))
}

// How old a list may be to be served: as old as it is, unless the settings have one that is too old withdrawn.
fn oldest_of(settings: &CacheSettings) -> Option<u32>
    ensures { result ≡ oldest_of settings.now }
{
    match settings.stale {
        Stale::Serve => None,
        Stale::Withdraw => settings.max_age,
    }
}

// How old the file of the list is, where that matters.
fn list_age<A>(settings: &CacheSettings, ages: &A) -> FileAge
where
    A: Fn(&str) -> FileAge,
    requires { A.IsAlwaysCallable ages.now }
    ensures { Ages (FnReturnsAt A.Fn ages.now) settings.now result }
{
    match settings.stale {
        Stale::Serve => FileAge::NEW,
        Stale::Withdraw => ages(settings.csv.as_str()),
    }
}

// The second of the start.
fn second_of<S: SecondsSince1970>(seconds: &mut S) -> Result<u64, CacheFault>
    ensures fault { IfErr result (λ fault. ¬ (IsOfWords fault)) }
    ensures told { IfOk result (λ second. S.told seconds.new ≡ Some second) }
{
    match seconds.second() {
        Ok(second) => Ok(second),
        Err(error) => Err(CacheFault::Clock(error)),
    }
}

// The second since 1970, where what has expired is left out of a list; else 0.
fn expiring_second<R: Clock>(rt: &R, settings: &CacheSettings) -> Result<u64, CacheFault>
    ensures { IfErr result (λ fault. ¬ (IsOfWords fault)) }
{
    if !settings.expires {
        return Ok(0);
    }
    second_of(&mut SystemSeconds::new(rt))
}

// The turns of a cache where the settings say that it listens.
fn over_wire<W: Wire + Drop, G>(
    alloc: Global,
    settings: &CacheSettings,
    cache: Cache,
    listens: G,
) -> Result<CacheLoop<W>, CacheFault>
where
    G: FnOnce(SocketAddr) -> io::Result<W>,
    requires { G.IsAlwaysCallable listens }
    ensures fault { IfErr result (λ fault. ¬ (IsOfWords fault)) }
    ensures idle { IfOk result (λ turns. (wire : WireState) × Listens (G.post listens settings.now.listen) W.state wire × (turns ≡ idle settings.now.patience cache wire)) }
{
    let address = settings.listen;
    let wire = match listens(address) {
        Ok(wire) => wire,
        Err(error) => return Err(CacheFault::Listen { address, error }),
    };
    Ok(CacheLoop::with_patience(alloc, wire, cache, settings.patience)?)
}

// So many turns, each at the moment that is read for it, or fewer where an operator stops them.
fn take_turns<
    R,
    O: Write,
    C: SecondsClock,
    L: Read + Steady + Drop,
    W: Wire + Watched + Drop,
    P: Scrapers + Drop,
    Q: Operators + Drop,
    F,
    A,
>(
    rt: &R,
    settings: &CacheSettings,
    served: &mut ServedList<W>,
    turns: u64,
    output: &mut O,
    clock: &mut C,
    opens: &F,
    ages: &A,
    watch: &mut Watch<P>,
    desk: &mut Desk<Q>,
) -> Result<(), CacheFault>
where
    R: Files + Clock + AllocGlobal,
    F: Fn(&str) -> io::Result<L>,
    A: Fn(&str) -> FileAge,
    requires opens { F.IsAlwaysCallable opens.now }
    requires ages { A.IsAlwaysCallable ages.now }
    ensures fault { IfErr result (λ fault. ¬ (IsOfWords fault)) }
    ensures quiet { settings.now.log ≡ false → output.new ≡ output.old }
    ensures turns { OnOk result (ServesSoMany (Gives (FnReturnsAt F.Fn opens.now) L.remaining L.stamp settings.now) (Ages (FnReturnsAt A.Fn ages.now) settings.now) (AttendsTurns Q.wish Q.line Q.turns Q.hears desk.old desk.new) settings.now.reread turns
        (C.readings clock.old) (C.readings clock.new) served.old served.new) }
{
    let mut reread = Interval::new(settings.reread);
    let mut status = Every::new(settings.status);
    let mut limit = LineLimit::new(ROUTER_LINES);
    for _ in 0..turns {
        let now = read_clock(clock)?;
        let second = expiring_second(rt, settings)?;
        let asked = hear(rt, settings, served, now, desk);
        serve_once(
            rt,
            settings,
            served,
            now,
            asked,
            second,
            &mut reread,
            watch,
            desk,
            output,
            opens,
            ages,
        )?;
        let wire = served.turns().wire();
        tell_routers(rt, settings.log, wire, now, &mut limit, output);
        attend(rt, settings, served, now, watch);
        if desk.has_stopped(now) {
            return Ok(());
        }
        tell_if_due(rt, settings, served, now, status.is_due(now), output);
        served.wait(rest_of(desk));
    }
    Ok(())
}

// The operators' turn: those who wait are answered by what is there to see. Answers which reading of the list one asks for.
#[tactic(auto, using(crate::proofs::Attending::heard_none, crate::proofs::Attending::heard_all))]
fn hear<R: Files + Clock, W: Wire + Drop, Q: Operators + Drop>(
    rt: &R,
    settings: &CacheSettings,
    served: &ServedList<W>,
    now: u64,
    desk: &mut Desk<Q>,
) -> Option<Reading>
    ensures { HearsAt Q.wish Q.line Q.turns Q.hears now result desk.old desk.new }
{
    if !desk.visit(now) {
        return None;
    }
    let path = settings.csv.as_str();
    let list = ListState {
        path,
        figures: served.figures(now),
        age: ListAge(age_of(rt, path, served.written())),
        accepted: served.accepted(),
    };
    let scene = Scene {
        turns: served.turns(),
        list,
        now,
    };
    desk.attend(&scene)
}

// For how long the sockets may rest behind a turn: not where operators move anything.
fn rest_of<Q: Operators + Drop>(desk: &Desk<Q>) -> Duration {
    match desk.is_busy() {
        true => Duration::ZERO,
        false => Duration::from_millis(REST_MILLISECONDS),
    }
}

// The status is told where it is due.
fn tell_if_due<R: Files + Clock, W: Wire + Drop, O: Write>(
    rt: &R,
    settings: &CacheSettings,
    served: &ServedList<W>,
    now: u64,
    is_due: bool,
    output: &mut O,
)
    ensures { settings.now.log ≡ false → output.new ≡ output.old }
{
    if is_due {
        let figures = served.figures(now);
        let age = age_of(rt, settings.csv.as_str(), served.written());
        tell_status(rt, settings.log, figures, age, settings.max_age, output);
    }
}

// The turn of the scrapers: those who wait for the figures are told what is served now.
fn attend<R: Files + Clock + AllocGlobal, W: Wire + Drop, P: Scrapers>(
    rt: &R,
    settings: &CacheSettings,
    served: &ServedList<W>,
    now: u64,
    watch: &mut Watch<P>,
) {
    if watch.attend(now) {
        let age = age_of(rt, settings.csv.as_str(), served.written());
        watch.tell(rt.alloc(), &served.figures(now), age);
    }
}

// What is done at a moment, and what the log says of it.
fn serve_once<
    R,
    O: Write,
    L: Read + Steady + Drop,
    W: Wire + Drop,
    P: Scrapers,
    Q: Operators + Drop,
    F,
    A,
>(
    rt: &R,
    settings: &CacheSettings,
    served: &mut ServedList<W>,
    now: u64,
    asked: Option<Reading>,
    second: u64,
    reread: &mut Interval,
    watch: &mut Watch<P>,
    desk: &mut Desk<Q>,
    output: &mut O,
    opens: &F,
    ages: &A,
) -> Result<(), CacheFault>
where
    R: Clock + AllocGlobal,
    F: Fn(&str) -> io::Result<L>,
    A: Fn(&str) -> FileAge,
    requires opens { F.IsAlwaysCallable opens.now }
    requires ages { A.IsAlwaysCallable ages.now }
    ensures fault { IfErr result (λ fault. ¬ (IsOfWords fault)) }
    ensures quiet { settings.now.log ≡ false → output.new ≡ output.old }
    ensures serves { OnOk result ((age : FileAge) × (led : Option Reread) × Ages (FnReturnsAt A.Fn ages.now) settings.now age × AtDesk (TellsIf Q.hears led) desk.old desk.new
        × ServesOnce (GivesAt (FnReturnsAt F.Fn opens.now) L.remaining L.stamp settings.now second) (is_due_at reread.old.seconds reread.old.since now) (record { now = now; age = age; asked = asked; led = led }) served.old served.new
        × (reread.new ≡ record reread.old { since = since_after reread.old.since now led })) }
{
    tell_asked(rt, settings, asked, output);
    let age = list_age(settings, ages);
    let was_withdrawn = served.is_withdrawn();
    let (led, turned) = served.serve(rt.alloc(), now, age, asked, reread, settings, second, opens);
    watch.count(led);
    desk.tell(led, served.payloads());
    if let Some(led) = led {
        tell_led(rt, settings, led, served.payloads(), output);
    }
    tell_withdrawal(rt, settings, served, now, was_withdrawn, led, output);
    turned?;
    Ok(())
}

// The log tells which reading operators ask for.
fn tell_asked<R: Clock, O: Write>(
    rt: &R,
    settings: &CacheSettings,
    asked: Option<Reading>,
    output: &mut O,
)
    ensures { settings.now.log ≡ false → output.new ≡ output.old }
{
    let line = match asked {
        None => return,
        Some(Reading::Reread) => LogLine::Reread,
        Some(Reading::Accept) => LogLine::Accept,
    };
    log(rt, settings.log, output, &line);
}

// The log tells what reading the list has led to.
fn tell_led<R: Clock, O: Write>(
    rt: &R,
    settings: &CacheSettings,
    led: Reread,
    payloads: usize,
    output: &mut O,
)
    ensures { settings.now.log ≡ false → output.new ≡ output.old }
{
    let path = match led {
        Reread::Refused(why) => path_of(settings, why.file()),
        Reread::Same | Reread::Unchanged | Reread::Published(_) => settings.csv.as_str(),
    };
    tell_list(rt, settings.log, led, payloads, path, output);
}

// The log tells where the list was withdrawn, and where it is served again as it was.
fn tell_withdrawal<R: Clock, W: Wire + Drop, O: Write>(
    rt: &R,
    settings: &CacheSettings,
    served: &ServedList<W>,
    now: u64,
    was_withdrawn: bool,
    led: Option<Reread>,
    output: &mut O,
)
    ensures { settings.now.log ≡ false → output.new ≡ output.old }
{
    let line = match (was_withdrawn, served.is_withdrawn()) {
        (false, true) => LogLine::Withdrawn {
            seconds: served.age_at(now),
            most: settings.max_age.unwrap_or(0),
        },
        (true, false) if led == Some(Reread::Same) => LogLine::Loaded {
            serial: served.serial(),
            payloads: served.payloads(),
        },
        _ => return,
    };
    log(rt, settings.log, output, &line);
}
