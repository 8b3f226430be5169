//! One client's end of a connection.
ghost use Rattle.std.specs.Prelude.{◌≡◌, ◌≤◌, ◌<◌, ◌++◌, Bool, ℕ, List, IfOk, length, min, take, drop, true, false, if◌then◌else◌};
ghost use Rattle.net_prefix.specs.declared.transport.Transport.TheVariants.{Open as Connected, Closing};
ghost use Rattle.rtr_cache.specs.CacheTable.{fresh_conn, hands_out, hears_octets, notified, pumped};

use crate::publisher::Publisher;
use crate::sender::Sender;
use net_prefix::Transport;
use rtr_codec::{End, Receiver};
use std::alloc::{AllocError, Allocator, Global};
use std::marker::Model;

/// One client.
#[derive(Drop)]
pub struct ServedClient<A: Allocator = Global> {
    receiver: Receiver,
    sender: Sender<A>,
}

impl<A: Allocator> Model for ServedClient<A> {
    ghost use Rattle.rtr_cache.specs.CacheTable.{Conn};
    ghost use Rattle.rtr_cache.specs.Sending.{IsReceiving, conn_of};

    ghost Value = { Conn };

    ghost view = { λ c. conn_of c.receiver.place.is_first c.receiver.part c.sender };

    ghost invariant = { λ c. IsReceiving c.receiver c.sender };
}

impl<A: Allocator + Clone> ServedClient<A> {
    /// A client whose connection has just come up.
    pub fn new(alloc: A) -> Result<Self, AllocError>
        ensures { IfOk result (λ c. c ≡ fresh_conn) }
    {
        let sender = Sender::new(alloc)?;
        Ok(ServedClient {
            receiver: Receiver::new(End::Cache),
            sender,
        })
    }

    /// What stands between the client and its connection.
    pub fn transport(&self) -> Transport
        ensures { result ≡ (if self.now.is_open then Connected else Closing) }
    {
        if self.is_open() {
            Transport::Open
        } else {
            Transport::Closing
        }
    }

    /// Whether no PDU of it was read.
    pub fn awaits_first_pdu(&self) -> bool
        ensures { result ≡ self.now.is_first }
    {
        self.receiver.place().is_first
    }

    /// Octets came: each PDU that they complete is heard, and what is to be said is queued.
    pub fn receive(&mut self, publisher: &mut Publisher<A>, octets: &[u8])
        ensures shared { publisher.new ≡ publisher.old }
        ensures heard { (refused : List Bool) × (self.new ≡ pumped (hears_octets publisher.old refused self.old octets.now)) }
    {
        self.hear(publisher, octets);
        self.sender.pump();
    }

    /// At a Load and at a Tick.
    pub fn notify(&mut self, publisher: &Publisher<A>)
        ensures { self.new ≡ pumped (notified publisher.now self.old) }
    {
        self.sender.notify(publisher);
        self.sender.pump();
    }

    /// Hands out the first octets of the ring, as many as there are and fit, and answers how many. What is to be said
    /// takes their place.
    pub fn take(&mut self, buf: &mut [u8]) -> usize
        ensures count { result ≡ min (length buf.old) (length self.old.ring) }
        ensures octets { buf.new ≡ take result self.old.ring ++ drop result buf.old }
        ensures rest { self.new ≡ pumped (hands_out result self.old) }
    {
        let count = self.sender.take(buf);
        self.sender.pump();
        count
    }

    /// The serial of the last End of Data that was handed out whole.
    pub fn held_serial(&self) -> Option<u32>
        ensures { result ≡ self.now.handed.serial }
    {
        self.sender.held_serial()
    }

    fn is_open(&self) -> bool
        ensures { result ≡ self.now.is_open }
    {
        self.sender.is_open()
    }

    fn hear(&mut self, publisher: &mut Publisher<A>, octets: &[u8])
        ensures shared { publisher.new ≡ publisher.old }
        ensures heard { (refused : List Bool) × (self.new ≡ hears_octets publisher.old refused self.old octets.now) }
    {
        let mut rest = octets;
        while self.is_open() && !rest.is_empty() {
            rest = self.hear_next(publisher, rest);
        }
    }

    // Takes octets up to the end of the PDU at the front, hears it where it is whole, and answers the octets behind.
    fn hear_next<'a>(&mut self, publisher: &mut Publisher<A>, octets: &'a [u8]) -> &'a [u8]
        requires open { self.old.is_open ≡ true }
        requires some { 0 < length octets.now }
        ensures shared { publisher.new ≡ publisher.old }
        ensures moves { length result.now < length octets.now }
        ensures goes_on { (later : List Bool) → (refused : List Bool) × (hears_octets publisher.old refused self.old octets.now ≡ hears_octets publisher.old later self.new result.now) }
    {
        let count = self.receiver.push(octets);
        self.sender.hear_front(publisher, &self.receiver);
        self.receiver.pass();
        &octets[count..]
    }
}
