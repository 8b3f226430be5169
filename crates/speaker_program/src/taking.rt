//! Turns without operators.
ghost use Rattle.std.specs.Prelude.{◌≡◌, ◌∷◌, Ok, IfErr, IfOk, OnErr, false};
ghost use Rattle.clocks.specs.Moments.{IsNotBefore};
ghost use Rattle.speaker_program.specs.Commanded.{TakesSoMany};
ghost use Rattle.speaker_program.specs.Endings.{IsOfTurns};

use crate::fault::SpeakerFault;
use clocks::SecondsClock;
use decision::Book;
use log_lines::Onlooker;
use net_wires::REST_MILLISECONDS;
use speaker_turns::SpeakerLoop;
use std::alloc::Global;
use std::io::Write;
use std::rt::Clock;
use std::time::Duration;
use wires::Wire;

/// So many turns, each at the moment that is read for it; the journal looks on behind each.
pub(crate) fn take_turns<
    R: Clock,
    B: Book<Global>,
    C: SecondsClock,
    W: Wire + Drop,
    N: Onlooker<SpeakerLoop<W, Global, B>>,
    O: Write,
>(
    rt: &R,
    clock: &mut C,
    served: &mut SpeakerLoop<W, Global, B>,
    turns: u64,
    journal: &mut N,
    output: &mut O,
) -> Result<(), SpeakerFault>
    ensures fault { IfErr result IsOfTurns }
    ensures turns { TakesSoMany turns result (C.readings clock.old) (C.readings clock.new) served.old served.new }
    ensures silent { N.writes journal.old ≡ false → output.new ≡ output.old }
{
    for _ in 0..turns {
        let now = read_clock(clock)?;
        served.turn(now)?;
        journal.look(rt, served, now, output);
        served.wait(Duration::from_millis(REST_MILLISECONDS));
    }
    Ok(())
}

// The moment.
fn read_clock<C: SecondsClock>(clock: &mut C) -> Result<u64, SpeakerFault>
    ensures fault { IfErr result IsOfTurns }
    ensures told { IfOk result (λ now. C.readings clock.new ≡ now ∷ C.readings clock.old) }
    ensures forward { IfOk result (λ now. IsNotBefore now (C.readings clock.old)) }
    ensures failed { OnErr result (C.readings clock.new ≡ C.readings clock.old) }
{
    match clock.read() {
        Ok(now) => Ok(now),
        Err(error) => Err(SpeakerFault::Clock(error)),
    }
}
