//! A slot: its session, the rest and the ring.
ghost use Rattle.std.specs.Prelude.{◌≡◌, ◌≢◌, ◌+◌, ◌≤◌, ◌<◌, length, take, drop, min, ◌∷◌, ◌++◌, IfOk, ℕ, List, None, Some, true, false};
ghost use Rattle.net_prefix.specs.declared.asn.Asn.{Asn};
ghost use Rattle.net_prefix.specs.declared.transport.Transport.TheVariants.{Open as Connected};
ghost use Rattle.bgp_fsm.specs.SessionTable.{effects_of};
ghost use Rattle.bgp_fsm.specs.TimerMoments.{has_ended};
ghost use Rattle.bgp_fsm.specs.Transports.{transport_of};
ghost use Rattle.bgp_fsm.specs.declared.state.State.{State};
ghost use Rattle.bgp_fsm.specs.StateTests.{is_message, is_notification};
ghost use Rattle.bgp_msg.specs.MessageStream.{Item, Tells, Wants, meaning, needed_of};
ghost use Rattle.bgp_peer.specs.Agreement.{PeerAgrees, IsHearing, IsUpdateMessage};
ghost use Rattle.bgp_peer.specs.SessionInputs.{Event, Configured, Signalled, Queued, Handed, terms_of, input_of, moment_of, onto};
ghost use Rattle.bgp_peer.specs.Slot.{Slot, configured, pushed, kept, rest_after, taken_input, octets_of, said, queued, handed, IsWholeRest, HoldsOnly, item_of_step};
ghost use Rattle.bgp_peer.specs.PeerLimits.{ring_octets, room_for_update};
ghost use Rattle.bgp_msg.specs.MessageLimits.{max_message};

use arrayvec::ArrayVec;
use bgp_attr::Mode;
use bgp_fsm::{Effects, Input, Outgoing, PeerTimers, Session, State, Timer};
use bgp_msg::{
    MAX_MESSAGE, OwnOpen, Step, needed, read, write_keepalive, write_notification, write_open,
};
use circular_buffer::HeapCircularBuffer;
use net_prefix::Transport;
use std::alloc::{AllocError, Allocator, Global};
use std::cmp::min;
use std::marker::Model;

/// The octets that the ring of a slot holds.
pub const RING_OCTETS: usize = 65_536;

/// The free octets of the ring without which nothing but a NOTIFICATION is queued.
pub const ROOM_FOR_UPDATE: usize = 8_192;

/// One slot.
#[derive(Drop)]
pub struct Peer<A: Allocator = Global> {
    session: Session,
    // What has come of the message that is being received.
    rest: ArrayVec<u8, MAX_MESSAGE>,
    // What is queued and not yet taken.
    ring: HeapCircularBuffer<u8, A>,
}

impl<A: Allocator> Model for Peer<A> {
    ghost use Rattle.bgp_peer.specs.Slot.{Slot, IsInOrder};

    ghost Value = { Slot };

    ghost view = { λ p. record { session = p.session; rest = p.rest.items; ring = p.ring.items } };

    ghost invariant = { λ p. IsInOrder p.session p.rest.items p.ring.items p.ring.capacity };
}

impl<A: Allocator> Peer<A> {
    /// A slot whose peer is configured and not enabled. `own` is the OPEN that this side sends, `times` are those of its timers
    /// that the peer's operator may set.
    pub fn new(alloc: A, own: OwnOpen, mode: Mode, times: PeerTimers) -> Result<Self, AllocError>
        ensures exact { IfOk result (λ p. p ≡ configured own mode times) }
        ensures agrees { IfOk result (λ p. (h : List Event) (peer_asn : Asn) → PeerAgrees (Configured (record { own = own; mode = mode; peer_asn = peer_asn }) times ∷ h) p) }
    {
        let ring = HeapCircularBuffer::with_capacity(alloc, RING_OCTETS)?;
        Ok(Peer {
            session: Session::new(own, mode, times),
            rest: ArrayVec::new(),
            ring,
        })
    }

    /// The state of the session.
    pub fn state(&self) -> State
        ensures { result ≡ self.now.session.state }
    {
        self.session.state()
    }

    /// What stands between the session and its connection.
    pub fn transport(&self) -> Transport
        ensures { result ≡ transport_of self.now.session }
    {
        self.session.transport()
    }

    /// The BGP Identifier that the peer's OPEN has told on this connection, 0 before it.
    pub fn identifier(&self) -> u32
        ensures { result ≡ self.now.session.identifier }
    {
        self.session.identifier()
    }

    /// Whether a timer of the session has ended at this moment, in seconds.
    pub fn has_ended(&self, timer: Timer, now: u64) -> bool
        ensures { result ≡ has_ended timer now self.now.session.timers }
    {
        self.session.has_ended(timer, now)
    }

    /// How many octets may still be queued: while the connection stands, a NOTIFICATION among them.
    pub fn free(&self) -> usize
        ensures free { result + length self.now.ring ≡ ring_octets }
        ensures told { transport_of self.now.session ≡ Connected → max_message ≤ result }
    {
        RING_OCTETS - self.ring.len()
    }

    /// Takes octets that come, up to the end of the message at the front, and answers how many. However the stream
    /// was cut, the rest holds what was not yet taken of it.
    pub fn push(&mut self, octets: &[u8]) -> usize
        ensures count { result ≡ min (needed_of self.old.rest) (length octets.now) }
        ensures exact { self.new ≡ pushed self.old (take result octets.now) }
        ensures goes_on { Wants self.old.rest → 0 < length octets.now → 0 < result }
        ensures short { length self.new.rest ≤ max_message }
        ensures agrees { (h : List Event) → PeerAgrees h self.old → transport_of self.old.session ≡ Connected → meaning self.new.rest ≡ None → PeerAgrees (onto (take result octets.now) h) self.new }
        ensures hears { (h : List Event) (item : Item) → PeerAgrees h self.old → transport_of self.old.session ≡ Connected → meaning self.new.rest ≡ Some item → IsHearing (onto (take result octets.now) h) item self.new }
    {
        let count = wanted(self.rest.as_slice(), octets.len());
        append(&octets[..count], &mut self.rest);
        count
    }

    /// What stands at the front of what has come. A message is all of it.
    pub fn front(&self) -> Step<'_>
        ensures tells { Tells self.now.rest result }
        ensures whole { IsWholeRest self.now.rest result }
        ensures only { HoldsOnly self.now.rest result }
        ensures item { meaning self.now.rest ≡ item_of_step result }
    {
        read(self.rest.as_slice())
    }

    /// The session takes an input at this moment, in seconds: of the operator, of the connection, of a timer that has
    /// ended, want of memory, or the message at the front. A message is dropped, also one that is being received where
    /// memory is refused, what was queued or came on another connection too, and what the row says is queued.
    pub fn input<'a>(&mut self, input: Input<'a>, now: u64) -> Effects<'a>
        ensures exact { self.new ≡ taken_input now self.old input.entry }
        ensures effects { result ≡ effects_of input.entry self.old.session }
        ensures signalled { (h : List Event) → PeerAgrees h self.old → moment_of h ≡ now → is_message input.entry ≡ false → PeerAgrees (Signalled input.entry ∷ h) self.new }
        ensures heard { (h : List Event) (item : Item) → IsHearing h item self.old → moment_of h ≡ now → input.entry ≡ input_of self.old.session.state (terms_of h) item → PeerAgrees h self.new }
    {
        self.make_way(&input);
        let effects = self.session.input(input, now);
        self.say(&effects.message);
        effects
    }

    /// Queues a message that leaves room for a NOTIFICATION.
    pub fn queue(&mut self, message: &[u8])
        requires { length self.old.ring + length message.now + max_message ≤ ring_octets }
        ensures exact { self.new ≡ queued self.old message.now }
        ensures agrees { (h : List Event) → PeerAgrees h self.old → self.old.session.state ≡ State.Established → IsUpdateMessage message.now
            → length self.old.ring + room_for_update ≤ ring_octets → PeerAgrees (Queued message.now ∷ h) self.new }
    {
        self.ring.fill_from_slice(message);
    }

    /// Hands out the first octets of the ring, as many as there are and fit, and answers how many.
    pub fn take(&mut self, buf: &mut [u8]) -> usize
        ensures count { result ≡ min (length buf.old) (length self.old.ring) }
        ensures octets { buf.new ≡ take result self.old.ring ++ drop result buf.old }
        ensures exact { self.new ≡ handed self.old result }
        ensures agrees { (h : List Event) → PeerAgrees h self.old → PeerAgrees (Handed (take result buf.new) ∷ h) self.new }
    {
        self.ring.read_into(buf)
    }

    // Drops what an input ends.
    fn make_way(&mut self, input: &Input<'_>)
        ensures { self.new ≡ record { session = self.old.session; rest = rest_after input.now self.old.rest; ring = kept input.now self.old.ring } }
    {
        match input {
            Input::Start | Input::Disable | Input::Remove | Input::Expires(_) => {}
            Input::Up | Input::Fail => {
                self.rest.clear();
                self.ring.clear();
            }
            _ => self.rest.clear(),
        }
    }

    // Queues what a row says: a NOTIFICATION whatever is free, anything else where an UPDATE would find room.
    fn say(&mut self, message: &Option<Outgoing<'_>>)
        requires fits { is_notification message.now ≡ true → length self.old.ring + max_message ≤ ring_octets }
        requires closed { is_notification message.now ≡ true → transport_of self.old.session ≢ Connected }
        ensures { self.new ≡ queued self.old (said message.now self.old.ring) }
    {
        let Some(message) = message else {
            return;
        };
        if !matches!(message, Outgoing::Notification(_)) && self.free() < ROOM_FOR_UPDATE {
            return;
        }
        let mut octets = ArrayVec::new();
        write_message(message, &mut octets);
        self.ring.fill_from_slice(octets.as_slice());
    }
}

// Writes what a row says.
fn write_message(message: &Outgoing<'_>, out: &mut ArrayVec<u8, MAX_MESSAGE>)
    ensures octets { out.new.items ≡ octets_of (Some message.now) }
    ensures most { length out.new.items ≤ max_message }
{
    match message {
        Outgoing::Open(own) => write_open(own, out),
        Outgoing::Keepalive => write_keepalive(out),
        Outgoing::Notification(told) => write_notification(told, out),
    }
}

// How many of so many octets belong to the message at the front.
fn wanted(rest: &[u8], available: usize) -> usize
    requires { length rest.now ≤ max_message }
    ensures count { result ≡ min (needed_of rest.now) available }
    ensures within { result ≤ available }
    ensures fits { length rest.now + result ≤ max_message }
{
    min(needed(rest), available)
}

fn append(octets: &[u8], rest: &mut ArrayVec<u8, MAX_MESSAGE>)
    requires { length rest.old.items + length octets.now ≤ max_message }
    ensures { rest.new.items ≡ rest.old.items ++ octets.now }
{
    let _fits = rest.try_extend_from_slice(octets);
}
