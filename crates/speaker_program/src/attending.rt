//! Turns with commands between them.
ghost use Rattle.std.specs.Prelude.{◌≡◌, Ok, None, IfErr, IfOk, OnOk, false};
ghost use Rattle.std.specs.Fn.{FnOnceReturnsAt};
ghost use Rattle.speaker_desk.specs.Restarts.{none_again};
ghost use Rattle.speaker_program.specs.Begun.{AreOperatorsOf, AttendsOperators};
ghost use Rattle.speaker_program.specs.Endings.{IsOfRun, IsOfTurns};
ghost use Rattle.speaker_program.specs.declared.fault.SpeakerFault.TheVariants.{NoMemory};

use crate::fault::SpeakerFault;
use crate::waiting::{hold_back, wait_of};
use clocks::SecondsClock;
use control_lines::Operators;
use decision::Book;
use log_lines::Onlooker;
use net_wires::REST_MILLISECONDS;
use speaker_desk::{AttendFault, Desk, Exchange, Gate, attended_turns};
use speaker_settings::SpeakerSettings;
use speaker_turns::SpeakerLoop;
use std::alloc::{AllocGlobal, Global};
use std::io::{self, Write};
use std::net::SocketAddr;
use std::rt::Clock;
use std::time::Duration;
use wires::Wire;

/// The turns with the operators of the settings' path between them, if there is one, and with peers that wait where the
/// settings have them wait.
pub(crate) fn attend_all<
    R: Clock + AllocGlobal,
    B: Book<Global>,
    C: SecondsClock,
    W: Wire + Drop,
    P: Operators + Drop,
    D,
    N: Onlooker<SpeakerLoop<W, Global, B>>,
    O: Write,
>(
    rt: &R,
    settings: &SpeakerSettings,
    controls: D,
    clock: &mut C,
    served: &mut SpeakerLoop<W, Global, B>,
    turns: u64,
    exchange: &Exchange,
    journal: &mut N,
    output: &mut O,
) -> Result<(), SpeakerFault>
where
    D: FnOnce(&str) -> io::Result<P>,
    requires controls { D.IsAlwaysCallable controls }
    ensures fault { IfErr result (IsOfRun settings.now) }
    ensures turns { OnOk result (AttendsOperators P.wish P.line P.turns P.hears (λ path there. FnOnceReturnsAt D.FnOnce controls path (Ok there)) settings.now turns (C.readings clock.old) (C.readings clock.new) served.old served.new) }
    ensures silent { N.writes journal.old ≡ false → output.new ≡ output.old }
{
    let mut operators = operators_of(rt.alloc(), settings, controls)?;
    let slots = hold_back(rt.alloc(), settings, served)?;
    let gate = Gate::new(slots, wait_of(settings));
    let remotes = settings.peers.as_slice();
    let mut desk = desk_at(rt.alloc(), remotes, gate, exchange)?;
    let rest = Duration::from_millis(REST_MILLISECONDS);
    let ended = attended_turns(
        rt,
        clock,
        served,
        &mut desk,
        &mut operators,
        turns,
        rest,
        journal,
        output,
    );
    of_attending(ended)
}

// A desk at which nothing was asked yet.
fn desk_at<'a>(
    alloc: Global,
    remotes: &'a [(u8, SocketAddr)],
    gate: Gate,
    exchange: &'a Exchange,
) -> Result<Desk<'a>, SpeakerFault>
    ensures desk { IfOk result (λ desk. desk ≡ record { remotes = remotes.now; waiting = gate; again = none_again; stopped = None }) }
    ensures memory { IfErr result (λ fault. fault ≡ NoMemory) }
{
    match Desk::new(alloc, remotes, gate, exchange) {
        Ok(desk) => Ok(desk),
        Err(_) => Err(SpeakerFault::NoMemory),
    }
}

// The operators at the path of the settings, if there is one.
fn operators_of<P: Operators + Drop, D>(
    alloc: Global,
    settings: &SpeakerSettings,
    controls: D,
) -> Result<Option<P>, SpeakerFault>
where
    D: FnOnce(&str) -> io::Result<P>,
    requires { D.IsAlwaysCallable controls }
    ensures given { IfOk result (λ operators. AreOperatorsOf (λ path there. FnOnceReturnsAt D.FnOnce controls path (Ok there)) settings.now.control operators) }
    ensures fault { IfErr result (IsOfRun settings.now) }
{
    let Some(path) = &settings.control else {
        return Ok(None);
    };
    match controls(path.as_str()) {
        Ok(operators) => Ok(Some(operators)),
        Err(error) => Err(SpeakerFault::unread(alloc, path.as_str(), error)),
    }
}

// How turns with operators ended, to the program.
fn of_attending(ended: Result<(), AttendFault>) -> Result<(), SpeakerFault>
    ensures well { OnOk result (ended ≡ Ok tt) }
    ensures fault { IfErr result IsOfTurns }
{
    match ended {
        Ok(()) => Ok(()),
        Err(AttendFault::Clock(error)) => Err(SpeakerFault::Clock(error)),
        Err(AttendFault::Turn(why)) => Err(SpeakerFault::Turn(why)),
    }
}
