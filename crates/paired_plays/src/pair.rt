//! Two runs of a script beside each other: one to which requests are refused, and one to which none are.

use crate::answers::{answer, begin_anew, replace_client, take_all};
use crate::calls::Call;
use crate::endings::{Ending, is_told_and_closed};
use crate::fault::{Fault, Wrong};
use crate::play::Play;
use crate::views::{Scope, shows_alike};
use std::alloc::Global;

/// Two runs, whatever they are made of: to know that makes each proof dear, and none needs it. Where a call doesn't go
/// well its answer is false, and the runs keep the first fault.
pub trait Runs {
    /// The first plays a call.
    fn play(&mut self, call: Call<'_>) -> bool;

    /// The other plays it.
    fn play_whole(&mut self, call: Call<'_>) -> bool;

    /// The first hands out all that it has for a slot.
    fn take_all(&mut self, call: Call<'_>, slot: u8) -> bool;

    /// Both have the session of a slot end and begin anew, and hand out all that they have.
    fn begin_anew(&mut self, call: Call<'_>, slot: u8) -> bool;

    /// Both have a client of the cache go, and another come in its place.
    fn replace_client(&mut self, call: Call<'_>, key: u64) -> bool;

    /// The call is wrong so, unless this holds.
    fn expect(&mut self, holds: bool, wrong: Wrong, number: u64) -> bool;

    /// The call is wrong so, unless the first answered this.
    fn expect_answer(&mut self, told: &[u8], wrong: Wrong, number: u64) -> bool;

    /// What the first answered last.
    fn answer(&self) -> &[u8];

    /// Whether both answered alike, and the same connection attempts began.
    fn is_as_told(&self) -> bool;

    /// Whether the first answered what the other did, and a closing behind it.
    fn is_told_and_closed(&self) -> bool;

    /// Both show the same behind the call of this number, but for what the ending leaves.
    fn shows_alike(&mut self, ending: Ending, scope: Scope, number: u64) -> bool;
}

/// The two, and what each answered last.
#[derive(Drop)]
pub struct Pair<'a, P, Q> {
    alloc: Global,
    tested: &'a mut P,
    whole: &'a mut Q,
    answer: Vec<u8>,
    told: Vec<u8>,
    fault: Option<Fault>,
}

impl<'a, P: Play, Q: Play> Pair<'a, P, Q> {
    pub fn of(alloc: Global, tested: &'a mut P, whole: &'a mut Q) -> Self {
        Pair {
            alloc,
            tested,
            whole,
            answer: Vec::new(alloc),
            told: Vec::new(alloc),
            fault: None,
        }
    }

    /// What was wrong first.
    pub fn fault(&self) -> Option<Fault> {
        self.fault
    }

    // Whether it went well.
    fn keep(&mut self, went: Result<(), Fault>) -> bool {
        match went {
            Ok(()) => true,
            Err(fault) => {
                self.fault = self.fault.or(Some(fault));
                false
            }
        }
    }
}

impl<P: Play, Q: Play> Runs for Pair<'_, P, Q> {
    fn play(&mut self, call: Call<'_>) -> bool {
        let played = answer(self.tested, call, &mut self.answer);
        self.keep(played)
    }

    fn play_whole(&mut self, call: Call<'_>) -> bool {
        let played = answer(self.whole, call, &mut self.told);
        self.keep(played)
    }

    fn take_all(&mut self, call: Call<'_>, slot: u8) -> bool {
        let taken = take_all(self.tested, call, slot, self.alloc, &mut self.answer);
        self.keep(taken)
    }

    fn begin_anew(&mut self, call: Call<'_>, slot: u8) -> bool {
        let tested = begin_anew(self.tested, call, slot, self.alloc, &mut self.answer);
        let whole = begin_anew(self.whole, call, slot, self.alloc, &mut self.told);
        self.keep(tested) && self.keep(whole)
    }

    fn replace_client(&mut self, call: Call<'_>, key: u64) -> bool {
        let tested = replace_client(self.tested, call, key, self.alloc, &mut self.answer);
        let whole = replace_client(self.whole, call, key, self.alloc, &mut self.told);
        self.keep(tested) && self.keep(whole)
    }

    fn expect(&mut self, holds: bool, wrong: Wrong, number: u64) -> bool {
        let held = wrong.unless(holds, number);
        self.keep(held)
    }

    fn expect_answer(&mut self, told: &[u8], wrong: Wrong, number: u64) -> bool {
        let holds = self.answer.as_slice() == told;
        self.expect(holds, wrong, number)
    }

    fn answer(&self) -> &[u8] {
        self.answer.as_slice()
    }

    fn is_as_told(&self) -> bool {
        self.answer.as_slice() == self.told.as_slice()
            && self.tested.opened() == self.whole.opened()
    }

    fn is_told_and_closed(&self) -> bool {
        is_told_and_closed(self.answer.as_slice(), self.told.as_slice())
    }

    fn shows_alike(&mut self, ending: Ending, scope: Scope, number: u64) -> bool {
        match shows_alike(self.alloc, self.tested, self.whole, ending, scope) {
            Ok(holds) => self.expect(holds, scope.wrong(), number),
            Err(fault) => self.keep(Err(fault)),
        }
    }
}
