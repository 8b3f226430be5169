//! Lines that come slowly.

use crate::{Operator, Stream, Wish};
use std::io;
use std::test::Fail;

// A connection on which an octet comes at each visit, and a line feed where these are used up.
#[derive(Drop)]
struct Drip {
    left: u8,
}

impl Stream for Drip {
    fn read(&mut self, buf: &mut [u8]) -> io::Result<usize> {
        let Some(octet) = buf.first_mut() else {
            return Ok(0);
        };
        *octet = if self.left == 0 { b'\n' } else { b'a' };
        self.left = self.left.saturating_sub(1);
        Ok(1)
    }

    fn write(&mut self, buf: &[u8]) -> io::Result<usize> {
        Ok(buf.len())
    }
}

// Whether octets come at the first two moments, and the place is lost at the third.
fn is_lost_at(operator: &mut Operator<Drip>, begins: u64, goes_on: u64, late: u64) -> bool {
    operator.visit(begins) == Some(true)
        && operator.visit(goes_on) == Some(true)
        && operator.visit(late).is_none()
}

// Whether a line of two octets is whole at the third moment, and the next one may take as long.
fn is_whole(operator: &mut Operator<Drip>) -> bool {
    let is_heard = operator.visit(50) == Some(true)
        && operator.visit(70) == Some(true)
        && operator.visit(109) == Some(true)
        && operator.wish() == Wish::Answer
        && operator.line() == b"aa".as_slice();
    operator.say(b"ok", false);
    is_heard && operator.visit(110) == Some(true) && operator.visit(160) == Some(true)
}

#[test]
fn a_line_is_whole_a_minute_after_its_first_octet(rt: HostRuntime) -> Result<(), Fail> {
    let mut slow = Operator::new(rt.alloc(), Drip { left: 200 }, 0)?;
    assert!(rt; is_lost_at(&mut slow, 30, 89, 90));
    let mut whole = Operator::new(rt.alloc(), Drip { left: 2 }, 0)?;
    assert!(rt; is_whole(&mut whole));
    Ok(())
}
