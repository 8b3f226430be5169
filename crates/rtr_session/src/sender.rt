//! What a session says on one connection.
ghost use Rattle.std.specs.Prelude.{◌≡◌, ◌≢◌, ◌≤◌, ◌+◌, ◌++◌, Bool, ℕ, List, [], Some, None, IfOk, length, min, take, drop, true, false, if◌then◌else◌};
ghost use Rattle.std.specs.Option.{option_map};
ghost use Rattle.std.specs.Bool.{OnTrue};
ghost use Rattle.net_prefix.specs.declared.transport.Transport.TheVariants.{Open as Connected};
ghost use Rattle.rtr_client.specs.Following.{can_starve, input_of, served};
ghost use Rattle.rtr_codec.specs.ClientTable.{Starved, Up, in_force, row, transport_of};
ghost use Rattle.rtr_codec.specs.PduSpelling.{content_of, length_of};
ghost use Rattle.rtr_codec.specs.PduStream.{meaning};
ghost use Rattle.rtr_session.specs.Sending.{IsSayable, heard_front, silent, taken};
ghost use Rattle.rtr_session.specs.SessionLimits.{ring_octets, room_for_report};
ghost use Rattle.rtr_session.specs.SessionState.{MayStarve, finds_room, is_query, said, settled};
ghost use Rattle.vrp_delta.specs.Delta.{change_between};

use arrayvec::ArrayVec;
use circular_buffer::HeapCircularBuffer;
use rtr_client::{Client, Input};
use rtr_codec::{Pdu, Receiver, Step, write};
use std::alloc::{AllocError, Allocator, Global};
use std::marker::Model;
use vrp_delta::{Delta, Keeper};

/// The octets that the ring of the session holds.
pub const RING_OCTETS: usize = 4096;

/// The free octets of the ring without which no query is queued.
pub const ROOM_FOR_QUERY: usize = 128;

/// What an input led to.
#[derive(Clone, Copy)]
pub struct Outcome {
    /// An attempt to open a connection begins.
    pub opened: bool,
    /// Memory was refused.
    pub starved: bool,
}

/// All of a session but what was read.
#[derive(Drop)]
pub struct Sender<A: Allocator = Global> {
    client: Client<A>,
    // What is queued and not yet taken.
    ring: HeapCircularBuffer<u8, A>,
}

impl<A: Allocator> Model for Sender<A> {
    ghost use Rattle.rtr_session.specs.Sending.{IsInOrder, Sending};

    ghost Value = { Sending };

    ghost view = { λ s. record { client = s.client.client; ring = s.ring.items; changed = s.client.changed } };

    ghost invariant = { λ s. IsInOrder s.client.client s.ring.items s.ring.capacity };
}

impl<A: Allocator> Sender<A> {
    /// The client.
    pub fn client(&self) -> &Client<A>
        ensures { result.now ≡ record { client = self.now.client; changed = self.now.changed } }
    {
        &self.client
    }

    /// Hands out the first octets of the ring, as many as there are and fit, and answers how many.
    pub fn take(&mut self, buf: &mut [u8]) -> usize
        ensures count { result ≡ min (length buf.old) (length self.old.ring) }
        ensures octets { buf.new ≡ take result self.old.ring ++ drop result buf.old }
        ensures exact { self.new ≡ record { client = self.old.client; ring = drop result self.old.ring; changed = self.old.changed } }
    {
        self.ring.read_into(buf)
    }

    /// Drops what is queued.
    pub fn clear(&mut self)
        ensures { self.new ≡ record { client = self.old.client; ring = []; changed = self.old.changed } }
    {
        self.ring.clear();
    }
}

impl<A: Allocator + Clone> Sender<A> {
    /// A client that has begun to open its connection, with this Retry Interval, and nothing to say.
    pub fn new(alloc: A, retry: u32) -> Result<Self, AllocError>
        ensures { IfOk result (λ s. s ≡ silent retry) }
    {
        let ring = HeapCircularBuffer::with_capacity(alloc.clone()?, RING_OCTETS)?;
        let client = Client::new(alloc, retry)?;
        Ok(Sender { client, ring })
    }

    /// Hears what stands at the front of what came, and answers whether memory was refused.
    pub fn hear_front<K: Keeper>(&mut self, receiver: &Receiver, now: u64, keeper: &mut K) -> bool
        requires open { transport_of self.old.client ≡ Connected }
        requires kept { K.kept keeper.old ≡ in_force self.old.client }
        ensures exact { self.new ≡ heard_front now result (meaning receiver.now.place receiver.now.part) self.old }
        ensures kept { K.kept keeper.new ≡ in_force self.new.client }
        ensures starved { OnTrue result (MayStarve self.old.client (meaning receiver.now.place receiver.now.part)) }
    {
        match receiver.front() {
            Step::Need => {
                self.client.forget_changes();
                false
            }
            Step::Whole(pdu, _) => {
                let octets = receiver.octets();
                self.take_input(Input::Heard { pdu, octets }, now, keeper)
                    .starved
            }
            Step::Faulty(fault, octets) => {
                self.take_input(Input::Faulty { fault, octets }, now, keeper)
                    .starved
            }
        }
    }

    /// The client takes an input, and what its row says is queued.
    pub fn take_input<K: Keeper>(&mut self, input: Input<'_>, now: u64, keeper: &mut K) -> Outcome
        requires standing { input_of input ≡ Up → self.old.ring ≡ [] }
        requires kept { K.kept keeper.old ≡ in_force self.old.client }
        ensures exact { self.new ≡ taken now (served result.starved (input_of input.entry)) self.old }
        ensures opened { result.opened ≡ (row now self.old.client (served result.starved (input_of input.entry))).opened }
        ensures starved { OnTrue result.starved (can_starve self.old.client (input_of input.entry) ≡ true) }
        ensures kept { K.kept keeper.new ≡ in_force self.new.client }
    {
        let acts = self.client.step(input, now, keeper);
        self.say(&acts.pdu, now);
        Outcome {
            opened: acts.opened,
            starved: acts.starved,
        }
    }

    // Queues what a row says: an Error Report whatever is free, a query where there is room. Without it the session closes.
    fn say(&mut self, pdu: &Option<Pdu<'_>>, now: u64)
        requires { IsSayable (option_map content_of pdu.now) self.old.client self.old.ring }
        ensures client { self.new.client ≡ settled now (option_map content_of pdu.now) self.old.ring self.old.client }
        ensures ring { self.new.ring ≡ self.old.ring ++ said (option_map content_of pdu.now) self.old.ring }
        ensures changed { self.new.changed ≡ self.old.changed }
    {
        let Some(pdu) = pdu else {
            return;
        };
        if !self.finds_room(pdu) {
            self.client.no_room(now);
            return;
        }
        let mut octets = ArrayVec::new();
        write(pdu, &mut octets);
        self.ring.fill_from_slice(octets.as_slice());
    }

    fn finds_room(&self, pdu: &Pdu<'_>) -> bool
        ensures { result ≡ finds_room (content_of pdu.now) self.now.ring }
    {
        !is_query(pdu) || self.ring.len() + ROOM_FOR_QUERY <= RING_OCTETS
    }
}

fn is_query(pdu: &Pdu<'_>) -> bool
    ensures { result ≡ is_query (content_of pdu.now) }
{
    matches!(pdu, Pdu::SerialQuery { .. } | Pdu::ResetQuery)
}
