//! What a cache says on one connection.
ghost use Rattle.std.specs.Prelude.{◌≡◌, ◌≤◌, ◌+◌, ◌++◌, Bool, ℕ, List, IfOk, length, min, take, drop, true, false};
ghost use Rattle.std.specs.Option.{option_map};
ghost use Rattle.rtr_cache.specs.CacheLimits.{longest_pdu, quoted_octets, ring_octets, room_for_pdu, room_for_report};
ghost use Rattle.rtr_cache.specs.CacheTable.{answers, closed, fails, has_room, is_due, is_news, notified, pumped, quoted_of, wants_notify};
ghost use Rattle.rtr_codec.specs.PduSpelling.{Error_report, content_of, length_of};
ghost use Rattle.rtr_codec.specs.PduFaults.{number_of};
ghost use Rattle.rtr_codec.specs.declared.fault.ErrorCode.TheVariants.{NoDataAvailable};
ghost use Rattle.vrp_delta.specs.Versions.{Version, newest_serial};
ghost use Rattle.rtr_cache.specs.Sending.{IsNext, behind_pdu, conn_of, fresh_sending, put, said, taken};

use crate::handed_out::HandedOut;
use crate::publisher::Publisher;
use crate::response::Response;
use arrayvec::ArrayVec;
use circular_buffer::HeapCircularBuffer;
use rtr_codec::{ErrorCode, Pdu, write};
use std::alloc::{AllocError, Allocator, Global};
use std::marker::Model;

/// The octets that the ring of a client holds.
pub const RING_OCTETS: usize = 65_536;

/// The free octets of the ring without which no PDU is queued.
pub const ROOM_FOR_PDU: usize = 128;

/// The seconds from one Serial Notify to the next (RFC 8210 section 5.2).
const SECONDS_BETWEEN_NOTIFIES: u64 = 60;

/// The most octets of a PDU that an Error Report quotes (own choice).
const QUOTED_OCTETS: usize = 32;

/// All of one client's end but what it has not yet read.
#[derive(Drop)]
pub struct Sender<A: Allocator = Global> {
    is_open: bool,
    // What is queued and not yet taken.
    ring: HeapCircularBuffer<u8, A>,
    pub response: Option<Response<A>>,
    // The serial that the client was told last.
    told: Option<u32>,
    // The moment of the last Serial Notify.
    notified: Option<u64>,
    // What was taken.
    handed: HandedOut,
}

impl<A: Allocator> Model for Sender<A> {
    ghost use Rattle.rtr_cache.specs.Sending.{IsInOrder, Sending};
    ghost use Rattle.rtr_cache.specs.Unsaid.{left_of};

    ghost Value = { Sending };

    ghost view = { λ s. record { is_open = s.is_open; ring = s.ring.items; left = left_of s.response; told = s.told; notified = s.notified; handed = s.handed } };

    ghost invariant = { λ s. IsInOrder s.is_open s.ring.items s.ring.capacity s.response };
}

impl<A: Allocator> Sender<A> {
    /// The beginning of a connection.
    pub fn new(alloc: A) -> Result<Self, AllocError>
        ensures { IfOk result (λ s. s ≡ fresh_sending) }
    {
        let ring = HeapCircularBuffer::with_capacity(alloc, RING_OCTETS)?;
        Ok(Sender {
            is_open: true,
            ring,
            response: None,
            told: None,
            notified: None,
            handed: HandedOut::new(),
        })
    }

    /// Whether the cache has not closed the connection.
    pub fn is_open(&self) -> bool
        ensures { result ≡ self.now.is_open }
    {
        self.is_open
    }

    /// Hands out the first octets of the ring, as many as there are and fit, and answers how many.
    pub fn take(&mut self, buf: &mut [u8]) -> usize
        ensures count { result ≡ min (length buf.old) (length self.old.ring) }
        ensures octets { buf.new ≡ take result self.old.ring ++ drop result buf.old }
        ensures exact { self.new ≡ taken result self.old }
    {
        let count = self.ring.read_into(buf);
        self.handed.read(&buf[..count]);
        count
    }

    /// The serial of the last End of Data that was handed out whole.
    pub fn held_serial(&self) -> Option<u32>
        ensures { result ≡ self.now.handed.serial }
    {
        self.handed.serial()
    }

    /// Queues what the response has left while there is room.
    pub fn pump(&mut self)
        ensures { (is_first : Bool) (unread : List ℕ) → conn_of is_first unread self.new ≡ pumped (conn_of is_first unread self.old) }
    {
        while self.has_room() {
            let Some(pdu) = self.next_pdu() else {
                return;
            };
            self.say(&pdu);
        }
    }

    // The next PDU of the response in progress.
    fn next_pdu(&mut self) -> Option<Pdu<'static>>
        ensures { IsNext self.old self.new (option_map content_of result) }
    {
        let response = self.response.take()?;
        let (pdu, rest) = response.next();
        self.response = rest;
        Some(pdu)
    }

    fn has_room(&self) -> bool
        ensures { result ≡ has_room self.now.ring }
    {
        self.ring.len() + ROOM_FOR_PDU <= RING_OCTETS
    }

    /// Nothing more is read or said. What is queued can still be taken.
    pub fn close(&mut self)
        ensures exact { behind_pdu self.new ≡ closed (behind_pdu self.old) }
        ensures room { self.old.is_open ≡ true → length self.new.ring + room_for_report ≤ ring_octets }
    {
        self.is_open = false;
        self.response = None;
    }

    /// Closes with an Error Report.
    pub fn fail(&mut self, code: ErrorCode, octets: &[u8])
        requires { self.old.is_open ≡ true }
        ensures { behind_pdu self.new ≡ fails (behind_pdu self.old) code (quoted_of octets.now) }
    {
        self.close();
        let code = code.number();
        let quoted = quoted_of(octets);
        self.put(&Pdu::ErrorReport { code, quoted });
    }

    /// An answer of one PDU, after which the connection stays where there is room for it.
    pub fn answer(&mut self, pdu: &Pdu<'_>)
        requires { length_of (content_of pdu.now) ≤ longest_pdu }
        ensures { behind_pdu self.new ≡ answers (behind_pdu self.old) (content_of pdu.now) }
    {
        if self.has_room() {
            self.put(pdu);
        } else {
            self.close();
        }
    }

    // Queues a PDU that may tell a serial.
    fn say(&mut self, pdu: &Pdu<'_>)
        requires short { length_of (content_of pdu.now) ≤ longest_pdu }
        requires room { length self.old.ring + room_for_pdu ≤ ring_octets }
        ensures { self.new ≡ said self.old (content_of pdu.now) }
    {
        match pdu {
            Pdu::EndOfData { serial, .. } | Pdu::SerialNotify { serial, .. } => {
                self.told = Some(*serial);
            }
            _ => {}
        }
        self.put(pdu);
    }

    fn put(&mut self, pdu: &Pdu<'_>)
        requires short { length_of (content_of pdu.now) ≤ longest_pdu }
        requires fits { length self.old.ring + length_of (content_of pdu.now) ≤ ring_octets }
        requires room { self.old.is_open ≡ true → length self.old.ring + room_for_pdu ≤ ring_octets }
        ensures { self.new ≡ put self.old (content_of pdu.now) }
    {
        let mut octets = ArrayVec::new();
        write(pdu, &mut octets);
        self.ring.fill_from_slice(octets.as_slice());
    }
}

impl<A: Allocator + Clone> Sender<A> {
    /// At a Load and at a Tick: queues a Serial Notify where the client is to get one.
    pub fn notify(&mut self, publisher: &Publisher<A>)
        ensures { (is_first : Bool) (unread : List ℕ) → conn_of is_first unread self.new ≡ notified publisher.now (conn_of is_first unread self.old) }
    {
        if self.wants_notify(publisher) {
            self.say(&publisher.notify());
            self.notified = Some(publisher.now());
        }
    }

    /// There is no version to tell. The connection stays where there is room for it.
    pub fn answer_no_data(&mut self, octets: &[u8])
        ensures { behind_pdu self.new ≡ answers (behind_pdu self.old) (Error_report (number_of NoDataAvailable) (quoted_of octets.now)) }
    {
        let code = ErrorCode::NoDataAvailable.number();
        let quoted = quoted_of(octets);
        self.answer(&Pdu::ErrorReport { code, quoted });
    }

    fn wants_notify(&self, publisher: &Publisher<A>) -> bool
        ensures { result ≡ wants_notify publisher.now (behind_pdu self.now) }
    {
        self.is_open
            && !publisher.is_withdrawn()
            && self.is_news(publisher.newest_serial())
            && self.response.is_none()
            && self.is_due(publisher.now())
            && self.has_room()
    }

    // A client that was told no serial waits for its first response.
    fn is_news(&self, newest: u32) -> bool
        ensures { (kept : List Version) → newest ≡ newest_serial kept → result ≡ is_news kept self.now.told }
    {
        match self.told {
            Some(serial) => newest != serial,
            None => false,
        }
    }

    fn is_due(&self, now: u64) -> bool
        ensures { result ≡ is_due now self.now.notified }
    {
        match self.notified {
            Some(moment) => now.saturating_sub(moment) >= SECONDS_BETWEEN_NOTIFIES,
            None => true,
        }
    }
}

// What an Error Report quotes of a PDU.
#[tactic(auto, using(crate::proofs::Quoting::quoted_min))]
fn quoted_of(octets: &[u8]) -> &[u8]
    ensures octets { result.now ≡ quoted_of octets.now }
    ensures short { length result.now ≤ quoted_octets }
{
    &octets[..octets.len().min(QUOTED_OCTETS)]
}
