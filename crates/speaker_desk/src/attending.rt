//! Turns with operators between them.
ghost use Rattle.std.specs.Prelude.{◌≡◌, ◌∷◌, IfOk, OnErr, false};
ghost use Rattle.clocks.specs.Moments.{IsNotBefore};
ghost use Rattle.speaker_desk.specs.Attended.{AttendsTurns, TakesOrStops};

use crate::desk::Desk;
use clocks::SecondsClock;
use control_lines::Operators;
use decision::Book;
use log_lines::Onlooker;
use speaker_turns::SpeakerLoop;
use std::alloc::Global;
use std::io::{self, Write};
use std::rt::Clock;
use std::time::Duration;
use thiserror::Error;
use wires::{LoopFault, Wire};

/// What ends turns before so many were taken.
#[derive(Debug, Drop, Error)]
pub enum AttendFault {
    /// The clock fails.
    #[error("the clock: {0}")]
    Clock(io::Error),
    /// A turn fails.
    #[error("{0}")]
    Turn(LoopFault),
}

/// So many turns, or fewer where an operator stops them, each at the moment that is read for it, with the operators' lines
/// between them; peers that wait are enabled where they may go, and those that were cleared once their connections are gone. The
/// journal looks on behind each turn, and writes to the output. Between turns the program rests until one may find something to
/// do, or so long.
pub fn attended_turns<
    R: Clock,
    W: Wire + Drop,
    B: Book<Global>,
    P: Operators,
    C: SecondsClock,
    N: Onlooker<SpeakerLoop<W, Global, B>>,
    O: Write,
>(
    rt: &R,
    clock: &mut C,
    served: &mut SpeakerLoop<W, Global, B>,
    desk: &mut Desk<'_>,
    operators: &mut P,
    turns: u64,
    rest: Duration,
    journal: &mut N,
    output: &mut O,
) -> Result<(), AttendFault>
    ensures turns { AttendsTurns P.wish P.line P.turns P.hears turns result (C.readings clock.old) (C.readings clock.new)
        (record { stand = record { served = served.old; desk = desk.old }; operators = operators.old }) (record { stand = record { served = served.new; desk = desk.new }; operators = operators.new }) }
    ensures silent { N.writes journal.old ≡ false → output.new ≡ output.old }
{
    for _ in 0..turns {
        let now = read_clock(clock)?;
        take_turn(served, now)?;
        desk.note_states(served.speaker(), now);
        journal.look(rt, served, now, output);
        operators.turn(now);
        if desk.has_stopped(served.speaker(), operators.is_busy(), now) {
            return Ok(());
        }
        desk.let_through(served, now);
        desk.begin_again(served);
        desk.attend(served, operators, now);
        served.wait(rest_of(operators, rest));
    }
    Ok(())
}

fn read_clock<C: SecondsClock>(clock: &mut C) -> Result<u64, AttendFault>
    ensures told { IfOk result (λ now. C.readings clock.new ≡ now ∷ C.readings clock.old) }
    ensures forward { IfOk result (λ now. IsNotBefore now (C.readings clock.old)) }
    ensures failed { OnErr result (C.readings clock.new ≡ C.readings clock.old) }
{
    match clock.read() {
        Ok(now) => Ok(now),
        Err(error) => Err(AttendFault::Clock(error)),
    }
}

fn take_turn<W: Wire + Drop, B: Book<Global>>(
    served: &mut SpeakerLoop<W, Global, B>,
    now: u64,
) -> Result<(), AttendFault>
    ensures { TakesOrStops now served.old result served.new }
{
    match served.turn(now) {
        Ok(()) => Ok(()),
        Err(why) => Err(AttendFault::Turn(why)),
    }
}

// Behind a turn in which operators moved anything there is no rest.
fn rest_of<O: Operators>(operators: &O, rest: Duration) -> Duration {
    match operators.is_busy() {
        true => Duration::ZERO,
        false => rest,
    }
}
