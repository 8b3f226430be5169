//! Operators' lines, and what they are answered.
ghost use Rattle.std.specs.Prelude.{◌==◌, ◌&&◌, if◌then◌else◌, length, ⊤};
ghost use Rattle.control_lines.specs.declared.talk.Wish.TheVariants.{Answer, Nothing};

use crate::rereads::{FIRST, is_published, serving_none};
use cache_desk::{Desk, ListState, Reading, Scene};
use cache_program::{ListFault, Reread, ServedList};
use control_lines::{Operators, Wish};
use list_guards::{GuardFault, Guards, ListAge};
use net_wires::NetWire;
use program_stages::lend;
use std::alloc::Global;
use std::test::Fail;
use wires::Wire;

// One operator, who has sent a line, and what is said to it.
#[derive(Drop)]
struct Asker<'a> {
    line: &'a str,
    said: &'a mut Vec<u8>,
}

impl<'a> Operators for Asker<'a> {
    ghost wish = { λ asker key. if key == 0 && length asker.said.now.items == 0 then Answer else Nothing };

    ghost line = { λ asker key. asker.line.now };

    ghost turns = { λ now old new. ⊤ };

    ghost hears = { λ key octets goes_on old new. ⊤ };

    fn turn(&mut self, _now: u64) {}

    fn wish(&self, key: usize) -> Wish {
        match key == 0 && self.said.is_empty() {
            true => Wish::Answer,
            false => Wish::Nothing,
        }
    }

    fn line(&self, _key: usize) -> &[u8] {
        self.line.as_bytes()
    }

    fn say(&mut self, _key: usize, octets: &[u8], _goes_on: bool) {
        let _said = self.said.extend_from_slice(octets);
    }

    fn is_busy(&self) -> bool {
        false
    }
}

// What was read last, what the line asks for, what that leads to, and what is said.
type Asked<'a> = (
    Option<Reread>,
    &'a str,
    Option<Reading>,
    Option<Reread>,
    &'a str,
);

const TOO_FEW: Reread = Reread::Refused(ListFault::Guard(GuardFault::TooFew {
    payloads: 0,
    wanted: 1,
}));

#[rattlefmt::skip]
const ASKED: [Asked<'static>; 11] = [
    (None, "show list", None, None, "the-list written 5 seconds ago, read 9 seconds ago: serial 1, payloads 1, routers 0 (0 current, 0 behind, 0 without), octets 0 in, 0 out\nend\n"),
    (None, "show versions", None, None, "serial 1 payloads 1\nend\n"),
    (None, "show clients", None, None, "end\n"),
    (None, "show payloads", None, None, "10.0.0.0/16-24 AS65002\nend\n"),
    (None, "show payloads 10.0.1.0/24", None, None, "10.0.0.0/16-24 AS65002\nend\n"),
    (None, "show payloads 10.1.0.0/16", None, None, "end\n"),
    (None, "show payloads 10.1.0.0", None, None, "bad line\n"),
    (None, "reread\r", Some(Reading::Reread), Some(Reread::Published(2)), "ok serial 2 payloads 1\n"),
    (None, "accept", None, None, "refused: no guard refused the list when it was read last\n"),
    (Some(TOO_FEW), "accept", Some(Reading::Accept), Some(Reread::Same), "ok the same 1 payloads\n"),
    (Some(TOO_FEW), "reread", Some(Reading::Reread), Some(TOO_FEW), "refused: it has 0 payloads, and 1 are wanted\n"),
];

// Whether the line asks for this, and is answered so.
fn is_answered<W: Wire + Drop>(
    alloc: Global,
    served: &ServedList<W>,
    asked: Asked<'_>,
) -> Result<bool, Fail> {
    let (last, line, reading, led, text) = asked;
    let mut said = Vec::new(alloc);
    let asks = reading_at(alloc, served, last, line, led, &mut said)?;
    Ok(asks == reading && said.as_slice() == text.as_bytes())
}

// Which reading the line asks for at the moment 9.
fn reading_at<W: Wire + Drop>(
    alloc: Global,
    served: &ServedList<W>,
    last: Option<Reread>,
    line: &str,
    led: Option<Reread>,
    said: &mut Vec<u8>,
) -> Result<Option<Reading>, Fail> {
    let mut desk = Desk::open(alloc, Asker { line, said })?;
    desk.tell(last, 1);
    let scene = Scene {
        turns: served.turns(),
        list: ListState {
            path: "the-list",
            figures: served.figures(9),
            age: ListAge(Some(5)),
            accepted: served.accepted(),
        },
        now: 9,
    };
    let asks = match desk.visit(9) {
        true => desk.attend(&scene),
        false => None,
    };
    desk.tell(led, served.payloads());
    Ok(asks)
}

// Whether each is.
fn are_answered<W: Wire + Drop>(alloc: Global, served: &mut ServedList<W>) -> Result<bool, Fail> {
    if !is_published(alloc, served, FIRST, 1) {
        return Ok(false);
    }
    for asked in &ASKED {
        if !is_answered(alloc, served, *asked)? {
            return Ok(false);
        }
    }
    Ok(true)
}

#[test]
fn operators_are_answered(rt: HostRuntime) -> Result<(), Fail> {
    let served = serving_none(rt.alloc(), NetWire::new(&rt)?, Guards::NONE)?;
    assert!(rt; lend(served, |served| are_answered(rt.alloc(), served))?);
    Ok(())
}
