//! The turns of the settings.
ghost use Rattle.std.specs.Prelude.{◌≡◌, Ok, Err, IfErr, IfOk, OnOk, false};
ghost use Rattle.std.specs.Fn.{FnOnceReturnsAt, FnReturnsAt};
ghost use Rattle.runs.specs.SpeakerState.{SpeakerState};
ghost use Rattle.speaker_program.specs.Commanded.{IsSpeakerOf, TextAt};
ghost use Rattle.speaker_program.specs.Endings.{IsOfRun};
ghost use Rattle.speaker_program.specs.HeldBack.{waits};
ghost use Rattle.speaker_program.specs.declared.fault.SpeakerFault.TheVariants.{Output as OutputFails};
ghost use Rattle.std.specs.declared.io.Error.{Error as IoError};
ghost use Rattle.speaker_program.specs.Unbegun.{IsUnserved};
ghost use Rattle.speaker_program.specs.Begun.{AttendsOperators, IsServed, StateFrom, TakesTurnsOf, has_commands, is_watched};

use crate::attending::attend_all;
use crate::beginning::begin;
use crate::fault::SpeakerFault;
use crate::journal::LoopJournal;
use crate::taking::take_turns;
use crate::waiting::waits;
use clocks::SecondsClock;
use control_lines::Operators;
use decision::Book;
use scenario::{Table, show};
use scrapers::Scrapers;
use speaker_desk::Exchange;
use speaker_settings::SpeakerSettings;
use speaker_turns::SpeakerLoop;
use speaker_watch::Watch;
use std::alloc::{AllocGlobal, Global};
use std::io::{self, BufRead, Write};
use std::net::SocketAddr;
use std::rt::Clock;
use watched_wires::Watched;
use wires::Wire;

/// So many turns of these settings, behind which Loc-RIB is printed.
pub(crate) fn serve<
    R: Clock + AllocGlobal,
    B: Book<Global>,
    O: Write,
    C: SecondsClock,
    L: BufRead + Drop,
    W: Wire + Watched + Drop,
    P: Operators + Drop,
    Q: Scrapers + Drop,
    M,
    F,
    D,
    E,
>(
    rt: &R,
    settings: &SpeakerSettings,
    turns: u64,
    output: &mut O,
    clock: &mut C,
    texts: &M,
    opens: F,
    controls: D,
    scrapes: E,
) -> Result<SpeakerLoop<W, Global, B>, SpeakerFault>
where
    M: Fn(&str) -> io::Result<L>,
    F: FnOnce(Option<SocketAddr>, bool) -> io::Result<W>,
    D: FnOnce(&str) -> io::Result<P>,
    E: FnOnce(SocketAddr) -> io::Result<Q>,
    requires texts { M.IsAlwaysCallable texts.now }
    requires opens { (speaker : SpeakerState) → IsSpeakerOf (TextAt (λ path lines. FnReturnsAt M.Fn texts.now path (Ok lines)) L.remaining) settings.now speaker → F.pre opens settings.now.listen (is_watched settings.now) }
    requires controls { D.IsAlwaysCallable controls }
    requires scrapes { E.IsAlwaysCallable scrapes }
    ensures serves { IfOk result (λ served. IsServed (TextAt (λ path lines. FnReturnsAt M.Fn texts.now path (Ok lines)) L.remaining)
        (StateFrom (λ wire. F.post opens settings.now.listen (is_watched settings.now) (Ok wire)) W.state)
        (AttendsOperators P.wish P.line P.turns P.hears (λ path there. FnOnceReturnsAt D.FnOnce controls path (Ok there))) settings.now turns (C.readings clock.old) (C.readings clock.new) served) }
    ensures unserved { IfErr result (IsUnserved (TextAt (λ path lines. FnReturnsAt M.Fn texts.now path (Ok lines)) L.remaining) (λ path error. FnReturnsAt M.Fn texts.now path (Err error))
        (λ error. F.post opens settings.now.listen (is_watched settings.now) (Err error)) (StateFrom (λ wire. F.post opens settings.now.listen (is_watched settings.now) (Ok wire)) W.state) (C.readings clock.new ≡ C.readings clock.old) settings.now) }
{
    let mut served = begin(rt, settings, output, texts, opens)?;
    match serve_and_show(
        rt,
        settings,
        turns,
        output,
        clock,
        &mut served,
        controls,
        scrapes,
    ) {
        Ok(()) => Ok(served),
        Err(fault) => Err(fault),
    }
}

// The same of a loop that has begun.
fn serve_and_show<
    R: Clock + AllocGlobal,
    B: Book<Global>,
    O: Write,
    C: SecondsClock,
    W: Wire + Watched + Drop,
    P: Operators + Drop,
    Q: Scrapers + Drop,
    D,
    E,
>(
    rt: &R,
    settings: &SpeakerSettings,
    turns: u64,
    output: &mut O,
    clock: &mut C,
    served: &mut SpeakerLoop<W, Global, B>,
    controls: D,
    scrapes: E,
) -> Result<(), SpeakerFault>
where
    D: FnOnce(&str) -> io::Result<P>,
    E: FnOnce(SocketAddr) -> io::Result<Q>,
    requires controls { D.IsAlwaysCallable controls }
    requires scrapes { E.IsAlwaysCallable scrapes }
    ensures fault { IfErr result (IsOfRun settings.now) }
    ensures turns { OnOk result (TakesTurnsOf (AttendsOperators P.wish P.line P.turns P.hears (λ path there. FnOnceReturnsAt D.FnOnce controls path (Ok there))) (has_commands settings.now) settings.now turns (C.readings clock.old) (C.readings clock.new) served.old served.new) }
{
    serve_turns(
        rt, settings, turns, output, clock, served, controls, scrapes,
    )?;
    show_routes(served, output)
}

// Prints Loc-RIB.
fn show_routes<B: Book<Global>, W: Wire + Drop, O: Write>(
    served: &SpeakerLoop<W, Global, B>,
    output: &mut O,
) -> Result<(), SpeakerFault>
    ensures { IfErr result (λ fault. (error : IoError) × (fault ≡ OutputFails error)) }
{
    show(served.speaker(), Table::Rib, output).map_err(SpeakerFault::Output)?;
    output.flush().map_err(SpeakerFault::Output)
}

// So many turns, with commands between them where the settings let them come, and with the log and the scrapers that they ask
// for.
fn serve_turns<
    R: Clock + AllocGlobal,
    B: Book<Global>,
    O: Write,
    C: SecondsClock,
    W: Wire + Watched + Drop,
    P: Operators + Drop,
    Q: Scrapers + Drop,
    D,
    E,
>(
    rt: &R,
    settings: &SpeakerSettings,
    turns: u64,
    output: &mut O,
    clock: &mut C,
    served: &mut SpeakerLoop<W, Global, B>,
    controls: D,
    scrapes: E,
) -> Result<(), SpeakerFault>
where
    D: FnOnce(&str) -> io::Result<P>,
    E: FnOnce(SocketAddr) -> io::Result<Q>,
    requires controls { D.IsAlwaysCallable controls }
    requires scrapes { E.IsAlwaysCallable scrapes }
    ensures fault { IfErr result (IsOfRun settings.now) }
    ensures turns { OnOk result (TakesTurnsOf (AttendsOperators P.wish P.line P.turns P.hears (λ path there. FnOnceReturnsAt D.FnOnce controls path (Ok there))) (has_commands settings.now) settings.now turns (C.readings clock.old) (C.readings clock.new) served.old served.new) }
    ensures quiet { settings.now.log ≡ false → output.new ≡ output.old }
{
    let exchange = Exchange::new(rt.alloc());
    let watch = watch_of(settings, scrapes)?;
    let mut journal = LoopJournal::begin(
        rt,
        rt.alloc(),
        settings,
        served,
        &exchange,
        watch,
        output,
    )?;
    match has_commands(settings) {
        false => take_turns(rt, clock, served, turns, &mut journal, output),
        true => attend_all(
            rt,
            settings,
            controls,
            clock,
            served,
            turns,
            &exchange,
            &mut journal,
            output,
        ),
    }
}

// Whether commands may come between turns.
fn has_commands(settings: &SpeakerSettings) -> bool
    ensures { result ≡ has_commands settings.now }
{
    settings.control.is_some() || waits(settings)
}

// What the run counts, and the scrapers at the address where the settings have them connect, if they do.
fn watch_of<Q: Scrapers + Drop, E>(
    settings: &SpeakerSettings,
    scrapes: E,
) -> Result<Watch<Q>, SpeakerFault>
where
    E: FnOnce(SocketAddr) -> io::Result<Q>,
    requires { E.IsAlwaysCallable scrapes }
    ensures fault { IfErr result (IsOfRun settings.now) }
{
    let Some(address) = settings.metrics else {
        return Ok(Watch::new(None));
    };
    match scrapes(address) {
        Ok(scrapers) => Ok(Watch::new(Some(scrapers))),
        Err(error) => Err(SpeakerFault::Metrics { address, error }),
    }
}
