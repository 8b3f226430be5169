//! A whole message of a slot's connection: what it is to the session, and the routes that an UPDATE brings.
ghost use Rattle.std.specs.Prelude.{◌≡◌, ◌≤◌, ◌+◌, ℕ, List, Some, None, OnOk, OnErr, IfOk, if◌then◌else◌};
ghost use Rattle.std.specs.Option.{option_map, option_and_then};
ghost use Rattle.bgp_fsm.specs.declared.state.State.TheVariants.{Established};
ghost use Rattle.bgp_fsm.specs.declared.input.Input.TheVariants.{Fault as FaultInput};
ghost use Rattle.bgp_msg.specs.MessageFaults.{open_fault};
ghost use Rattle.bgp_msg.specs.Notifications.{fault_notification};
ghost use Rattle.bgp_msg.specs.MessageStream.{WholeMessage, meaning};
ghost use Rattle.bgp_msg.specs.UpdateMeaning.{update_fault};
ghost use Rattle.bgp_msg.specs.declared.frame.MessageType.TheVariants.{Update as UpdateMessage};
ghost use Rattle.bgp_peer.specs.SessionInputs.{Terms, expected_of, input_of, open_input, update_input};
ghost use Rattle.decision.specs.BookContents.{offer_at};
ghost use Rattle.routing.specs.Updates.{NeedsMemory, sound_update};
ghost use Rattle.routing.specs.Heard.{AreOf, IsHeard, KeepsUnnamed, TakesMemoryAt, update_heard};
ghost use Rattle.routing.specs.Chosen.{named_if};
ghost use Rattle.routing.specs.RoutingState.{StayWhole};
ghost use Rattle.routing.specs.MarksIn.{AreMarkedIn};
ghost use Rattle.routing.specs.Sent.{linked_as};
ghost use Rattle.routing.specs.Tables.{payloads_under};
ghost use Rattle.routing.specs.Offers.{IsSound, KeepsHeard};

use crate::exports::Octets;
use crate::routing::{Links, Routing};
use crate::updates::{Sender, take_update};
use bgp_attr::{PeerKind, UpdateFault};
use bgp_conf::Conf;
use bgp_fsm::{Input, State};
use bgp_msg::{
    Expected, Fault, Frame, MessageType, Notification, Step, is_ipv4_unicast, read_open,
    read_update,
};
use bgp_peer::Peer;
use decision::Book;
use origin_valid::PayloadTrie;
use std::alloc::{AllocError, Allocator};

/// What a peer's messages are judged by: what kind of peer it is to us, and what its OPEN is to say.
#[derive(Clone, Copy)]
pub struct Standard {
    pub kind: PeerKind,
    pub expected: Expected,
}

/// What stands at the front of a slot's rest is to the session: nothing yet, or an input. The routes of an
/// UPDATE of an Established session are taken, all or none. What a NOTIFICATION shows of a faulty message is written to `room`.
pub fn take_front<'r, A: Allocator + Clone, B: Book<A>>(
    alloc: &A,
    conf: &Conf<A>,
    payloads: &PayloadTrie<A>,
    links: &Links<A>,
    routing: &mut Routing<A, B>,
    sender: Sender,
    standard: Standard,
    peer: &Peer<A>,
    room: &'r mut Octets,
) -> Result<Option<Input<'r>>, AllocError>
    requires sound { IsSound conf.now (offer_at routing.old.book) }
    requires marked { AreMarkedIn conf.now links.now.entries routing.old }
    ensures sound { IsSound conf.now (offer_at routing.new.book) }
    ensures marked { AreMarkedIn conf.now links.now.entries routing.new }
    ensures sent { routing.new.sent ≡ routing.old.sent }
    ensures input { IfOk result (λ found. (terms : Terms) → AreOf terms standard
        → found ≡ option_map (input_of peer.now.session.state terms) (meaning peer.now.rest)) }
    ensures routes { OnOk result ((terms : Terms) → AreOf terms standard
        → IsHeard sender.slot (option_and_then (update_heard peer.now.session.state terms) (meaning peer.now.rest)) routing.old.adj_in routing.new.adj_in) }
    ensures unnamed { OnOk result ((terms : Terms) → AreOf terms standard
        → KeepsUnnamed sender.slot (option_and_then (update_heard peer.now.session.state terms) (meaning peer.now.rest)) routing.old.book routing.new.book) }
    ensures kept { OnOk result (KeepsHeard conf.now (payloads_under conf.now payloads.now) sender peer.now.session.state routing.old routing.new) }
    ensures refused { OnErr result (StayWhole routing.old.adj_in routing.new.adj_in routing.old.book routing.new.book routing.old.chosen routing.new.chosen) }
    ensures memory { OnErr result (TakesMemoryAt standard.kind (linked_as routing.old.sent sender.slot peer.now)) }
    ensures chosen { OnOk result ((terms : Terms) → AreOf terms standard
        → routing.new.chosen ≤ routing.old.chosen + named_if (option_and_then (update_heard peer.now.session.state terms) (meaning peer.now.rest))) }
    ensures rises { routing.old.chosen ≤ routing.new.chosen }
{
    match peer.front() {
        Step::Need => Ok(None),
        Step::Faulty(fault) => Ok(Some(tell(&Fault::Header(fault), room))),
        Step::Message(frame, _) => {
            let state = peer.state();
            let input = judge(
                alloc, conf, payloads, links, routing, sender, standard, state, frame, room,
            )?;
            Ok(Some(input))
        }
    }
}

// A message. A type that the state doesn't expect is judged without its body being read.
fn judge<'r, A: Allocator + Clone, B: Book<A>>(
    alloc: &A,
    conf: &Conf<A>,
    payloads: &PayloadTrie<A>,
    links: &Links<A>,
    routing: &mut Routing<A, B>,
    sender: Sender,
    standard: Standard,
    state: State,
    frame: Frame<'_>,
    room: &'r mut Octets,
) -> Result<Input<'r>, AllocError>
    requires sound { IsSound conf.now (offer_at routing.old.book) }
    requires marked { AreMarkedIn conf.now links.now.entries routing.old }
    ensures sound { IsSound conf.now (offer_at routing.new.book) }
    ensures marked { AreMarkedIn conf.now links.now.entries routing.new }
    ensures sent { routing.new.sent ≡ routing.old.sent }
    ensures input { IfOk result (λ found. (terms : Terms) → AreOf terms standard
        → found ≡ input_of state terms (WholeMessage frame.entry.kind frame.entry.body.now)) }
    ensures routes { OnOk result ((terms : Terms) → AreOf terms standard
        → IsHeard sender.slot (update_heard state terms (WholeMessage frame.entry.kind frame.entry.body.now)) routing.old.adj_in routing.new.adj_in) }
    ensures unnamed { OnOk result ((terms : Terms) → AreOf terms standard
        → KeepsUnnamed sender.slot (update_heard state terms (WholeMessage frame.entry.kind frame.entry.body.now)) routing.old.book routing.new.book) }
    ensures kept { OnOk result (KeepsHeard conf.now (payloads_under conf.now payloads.now) sender state routing.old routing.new) }
    ensures refused { OnErr result (StayWhole routing.old.adj_in routing.new.adj_in routing.old.book routing.new.book routing.old.chosen routing.new.chosen) }
    ensures memory { OnErr result ((state ≡ Established) × (frame.entry.kind ≡ UpdateMessage) × NeedsMemory standard.kind frame.entry.body.now) }
    ensures chosen { OnOk result ((terms : Terms) → AreOf terms standard
        → routing.new.chosen ≤ routing.old.chosen + named_if (update_heard state terms (WholeMessage frame.entry.kind frame.entry.body.now))) }
    ensures rises { routing.old.chosen ≤ routing.new.chosen }
{
    match (frame.kind, state) {
        (MessageType::Open, State::OpenSent) => Ok(judge_open(frame.body, standard.expected, room)),
        (MessageType::Open, _) => Ok(Input::UnexpectedOpen),
        (MessageType::Update, State::Established) => {
            judge_update(
                alloc, conf, payloads, links, routing, sender, standard, frame.body, room,
            )
        }
        (MessageType::Update, _) => Ok(Input::Update),
        (MessageType::Keepalive, _) => Ok(Input::Keepalive),
        (MessageType::Notification, _) => Ok(Input::Notification(Notification::read(
            frame.body, room,
        ))),
        (MessageType::RouteRefresh, _) => Ok(Input::RouteRefresh(is_ipv4_unicast(frame.body))),
    }
}

fn judge_open<'r>(body: &[u8], expected: Expected, room: &'r mut Octets) -> Input<'r>
    ensures { (terms : Terms) → expected ≡ expected_of terms → result ≡ open_input terms body.now (open_fault body.now expected) }
{
    match read_open(body, expected) {
        Ok(message) => Input::Open(message),
        Err(fault) => tell(&Fault::Open(fault), room),
    }
}

// A fault is told by its NOTIFICATION.
fn tell<'r>(fault: &Fault<'_>, room: &'r mut Octets) -> Input<'r>
    ensures { result ≡ FaultInput (fault_notification fault.now) }
{
    Input::Fault(Notification::of_fault(fault, room))
}

#[tactic(auto, using(crate::proofs::NeededMemory::needs))]
fn judge_update<'r, A: Allocator + Clone, B: Book<A>>(
    alloc: &A,
    conf: &Conf<A>,
    payloads: &PayloadTrie<A>,
    links: &Links<A>,
    routing: &mut Routing<A, B>,
    sender: Sender,
    standard: Standard,
    body: &[u8],
    room: &'r mut Octets,
) -> Result<Input<'r>, AllocError>
    requires sound { IsSound conf.now (offer_at routing.old.book) }
    requires marked { AreMarkedIn conf.now links.now.entries routing.old }
    ensures sound { IsSound conf.now (offer_at routing.new.book) }
    ensures marked { AreMarkedIn conf.now links.now.entries routing.new }
    ensures sent { routing.new.sent ≡ routing.old.sent }
    ensures input { IfOk result (λ found. found ≡ update_input (update_fault standard.kind body.now)) }
    ensures routes { OnOk result (IsHeard sender.slot (sound_update standard.kind body.now (update_fault standard.kind body.now)) routing.old.adj_in routing.new.adj_in) }
    ensures unnamed { OnOk result (KeepsUnnamed sender.slot (sound_update standard.kind body.now (update_fault standard.kind body.now)) routing.old.book routing.new.book) }
    ensures kept { OnOk result (KeepsHeard conf.now (payloads_under conf.now payloads.now) sender Established routing.old routing.new) }
    ensures refused { OnErr result (StayWhole routing.old.adj_in routing.new.adj_in routing.old.book routing.new.book routing.old.chosen routing.new.chosen) }
    ensures memory { OnErr result (NeedsMemory standard.kind body.now) }
    ensures chosen { OnOk result (routing.new.chosen ≤ routing.old.chosen + named_if (sound_update standard.kind body.now (update_fault standard.kind body.now))) }
    ensures rises { routing.old.chosen ≤ routing.new.chosen }
{
    match read_update(alloc, body, standard.kind) {
        Ok(update) => {
            take_update(alloc, conf, payloads, links, routing, sender, update)?;
            Ok(Input::Update)
        }
        Err(UpdateFault::NoMemory) => Err(AllocError),
        Err(fault) => Ok(tell(&Fault::Update(fault), room)),
    }
}
