//! One end's reading of a connection.
ghost use Rattle.std.specs.Prelude.{◌≡◌, ◌≤◌, ◌<◌, ◌||◌, ℕ, List, [], false, min, length, take};
ghost use Rattle.rtr_codec.specs.PduSpelling.{content_of};
ghost use Rattle.rtr_codec.specs.PduStream.{Tells, Wants, WholePdu, is_cache_response, meaning, needed_of};
ghost use Rattle.rtr_codec.specs.Receiving.{Reception, UsesAll, beginning, emptied, item_shown, passed, passed_by, received};

use crate::header::MAX_PDU;
use crate::pdu::Pdu;
use crate::place::{End, Place};
use crate::reading::{Step, needed, read};
use arrayvec::ArrayVec;
use std::marker::Model;

/// What came on a connection and no PDU has taken: at most one PDU or fault, however the stream is cut.
#[derive(Drop)]
pub struct Receiver {
    place: Place,
    part: ArrayVec<u8, MAX_PDU>,
}

impl Model for Receiver {
    ghost use Rattle.rtr_codec.specs.Receiving.{Reception, IsOneAtMost};

    ghost Value = { Reception };

    ghost view = { λ r. record { place = r.place; part = r.part.items } };

    ghost invariant = { λ r. IsOneAtMost (record { place = r.place; part = r.part.items }) };
}

impl Receiver {
    /// The beginning of a connection, for the end that reads.
    pub fn new(end: End) -> Self
        ensures { result ≡ beginning end }
    {
        let place = Place {
            end,
            is_first: true,
            has_response: false,
        };
        Receiver {
            place,
            part: ArrayVec::new(),
        }
    }

    /// Where on the connection the PDU at the front stands.
    pub fn place(&self) -> Place
        ensures { result ≡ self.now.place }
    {
        self.place
    }

    /// Takes octets that come, up to the end of the PDU at the front, and answers how many.
    pub fn push(&mut self, octets: &[u8]) -> usize
        ensures count { result ≡ min (needed_of self.old.place self.old.part) (length octets.now) }
        ensures exact { self.new ≡ received self.old (take result octets.now) }
        ensures goes_on { Wants self.old.place self.old.part → 0 < length octets.now → 0 < result }
    {
        let count = needed(self.part.as_slice(), self.place).min(octets.len());
        let _fits = self.part.try_extend_from_slice(&octets[..count]);
        count
    }

    /// What stands at the front of what came.
    pub fn front(&self) -> Step<'_>
        ensures item { meaning self.now.place self.now.part ≡ item_shown self.now.part result }
        ensures all { UsesAll self.now.part result }
        ensures tells { Tells self.now.place self.now.part result }
    {
        read(self.part.as_slice(), self.place)
    }

    /// What came and no PDU has taken: all octets of the PDU or fault at the front, where one stands there.
    pub fn octets(&self) -> &[u8]
        ensures { result.now ≡ self.now.part }
    {
        self.part.as_slice()
    }

    /// Goes on behind the PDU or fault at the front, where one stands there.
    pub fn pass(&mut self)
        ensures { self.new ≡ passed_by self.old (meaning self.old.place self.old.part) }
    {
        let is_response = match self.front() {
            Step::Need => return,
            Step::Whole(pdu, _) => says_response(&pdu),
            Step::Faulty(..) => false,
        };
        self.go_on(is_response);
    }

    /// Goes on behind a PDU that `read` has found where nothing of it was pushed. What was pushed is dropped.
    pub fn pass_whole(&mut self, pdu: &Pdu<'_>)
        ensures { (octets : List ℕ) → self.new ≡ passed self.old (WholePdu (content_of pdu.now) octets) }
    {
        self.go_on(says_response(pdu));
    }

    // Goes on behind a PDU or fault.
    fn go_on(&mut self, is_response: bool)
        ensures { self.new ≡ record { place = record { end = self.old.place.end; is_first = false; has_response = is_response || self.old.place.has_response }; part = [] } }
    {
        self.clear();
        self.place = Place {
            end: self.place.end,
            is_first: false,
            has_response: is_response || self.place.has_response,
        };
    }

    /// Drops what came and no PDU has taken.
    pub fn clear(&mut self)
        ensures { self.new ≡ emptied self.old }
    {
        self.part.clear();
    }
}

fn says_response(pdu: &Pdu<'_>) -> bool
    ensures { result ≡ is_cache_response (content_of pdu.now) }
{
    matches!(pdu, Pdu::CacheResponse { .. })
}
