//! What was handed out to a client, as its router reads it (RFC 8210 section 5.8).
ghost use Rattle.std.specs.Prelude.{◌≡◌, ◌<◌, IsSome, List, MatchOption, is_some, length, ℕ};
ghost use Rattle.rtr_cache.specs.HandedOut.{handing, is_fault, nothing_handed, serial_behind, serial_by};
ghost use Rattle.rtr_codec.specs.PduSpelling.{content_of};
ghost use Rattle.rtr_codec.specs.Receiving.{item_shown};

use rtr_codec::{End, Pdu, Receiver, Step, read};
use std::marker::Model;

/// How a router stands that has read all that was handed out to it.
#[derive(Drop)]
pub struct HandedOut {
    receiver: Receiver,
    // Nothing is read behind a fault.
    is_faulty: bool,
    // That of the last End of Data.
    serial: Option<u32>,
}

impl Model for HandedOut {
    ghost use Rattle.rtr_cache.specs.HandedOut.{Handed, IsReading, unless_faulty};

    ghost Value = { Handed };

    ghost view = { λ h. record { reading = unless_faulty h.is_faulty h.receiver; serial = h.serial } };

    ghost invariant = { λ h. IsReading h.is_faulty h.receiver };
}

impl HandedOut {
    /// Nothing was handed out.
    pub fn new() -> Self
        ensures { result ≡ nothing_handed }
    {
        HandedOut {
            receiver: Receiver::new(End::Client),
            is_faulty: false,
            serial: None,
        }
    }

    /// The serial of the last End of Data that was handed out whole.
    pub fn serial(&self) -> Option<u32>
        ensures { result ≡ self.now.serial }
    {
        self.serial
    }

    /// More octets are handed out.
    pub fn read(&mut self, octets: &[u8])
        ensures { self.new ≡ handing octets.now self.old }
    {
        let mut rest = octets;
        while self.is_sound() && !rest.is_empty() {
            rest = self.read_next(rest);
        }
    }

    // Whether no fault was read.
    fn is_sound(&self) -> bool
        ensures { result ≡ is_some self.now.reading }
    {
        !self.is_faulty
    }

    // Reads what stands at the front of the octets, and answers those behind.
    fn read_next<'a>(&mut self, octets: &'a [u8]) -> &'a [u8]
        requires sound { IsSome self.old.reading }
        requires some { 0 < length octets.now }
        ensures moves { length result.now < length octets.now }
        ensures goes_on { handing octets.now self.old ≡ handing result.now self.new }
    {
        match self.read_whole(octets) {
            Some(rest) => rest,
            None => self.read_part(octets),
        }
    }

    // Reads a PDU that stands whole in the octets, with nothing of it before them, and answers those behind.
    fn read_whole<'a>(&mut self, octets: &'a [u8]) -> Option<&'a [u8]>
        requires { IsSome self.old.reading }
        ensures { MatchOption result (self.new ≡ self.old) (λ rest. (length rest.now < length octets.now) × (handing octets.now self.old ≡ handing rest.now self.new)) }
    {
        if !self.receiver.octets().is_empty() {
            return None;
        }
        let Step::Whole(pdu, used) = read(octets, self.receiver.place()) else {
            return None;
        };
        self.serial = serial_by(&pdu, self.serial);
        self.receiver.pass_whole(&pdu);
        Some(&octets[used..])
    }

    // Takes octets up to the end of the PDU at the front, reads it where it is whole, and answers the octets behind.
    fn read_part<'a>(&mut self, octets: &'a [u8]) -> &'a [u8]
        requires sound { IsSome self.old.reading }
        requires some { 0 < length octets.now }
        ensures moves { length result.now < length octets.now }
        ensures goes_on { handing octets.now self.old ≡ handing result.now self.new }
    {
        let count = self.receiver.push(octets);
        let front = self.receiver.front();
        self.is_faulty = is_fault(&front);
        self.serial = serial_behind(&front, self.serial);
        self.receiver.pass();
        &octets[count..]
    }
}

// Whether a fault stands at the front.
fn is_fault(front: &Step<'_>) -> bool
    ensures { (part : List ℕ) → result ≡ is_fault (item_shown part front.now) }
{
    matches!(front, Step::Faulty(..))
}

// The serial of the last End of Data, once what stands at the front is read.
fn serial_behind(front: &Step<'_>, before: Option<u32>) -> Option<u32>
    ensures { (part : List ℕ) → result ≡ serial_behind (item_shown part front.now) before }
{
    match front {
        Step::Whole(pdu, _) => serial_by(pdu, before),
        _ => before,
    }
}

fn serial_by(pdu: &Pdu<'_>, before: Option<u32>) -> Option<u32>
    ensures { result ≡ serial_by (content_of pdu.now) before }
{
    match pdu {
        Pdu::EndOfData { serial, .. } => Some(*serial),
        _ => before,
    }
}
