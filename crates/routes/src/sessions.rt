//! What happens to a slot's session, and what its routes make of it.
ghost use Rattle.std.specs.Prelude.{◌≡◌, ◌≤◌, ◌<◌, ◌+◌, ◌++◌, ◌==◌, ◌&&◌, ℕ, List, None, Some, Ok, true, false, MatchOption, OnOk, OnErr, IfOk, length, min, take, drop, if◌then◌else◌};
ghost use Rattle.std.specs.Option.{option_and_then, option_map};
ghost use Rattle.bgp_conf.specs.Configuration.{peer_at};
ghost use Rattle.bgp_fsm.specs.SessionTable.{effects_of};
ghost use Rattle.bgp_msg.specs.MessageStream.{WholeMessage, meaning};
ghost use Rattle.bgp_msg.specs.UpdateMeaning.{update_fault};
ghost use Rattle.bgp_msg.specs.declared.frame.MessageType.TheVariants.{Update as UpdateMessage};
ghost use Rattle.bgp_peer.specs.SessionInputs.{Terms, input_of};
ghost use Rattle.bgp_peer.specs.Slot.{handed, pushed};
ghost use Rattle.decision.specs.BookContents.{offer_at};
ghost use Rattle.net_prefix.specs.declared.prefix.Prefix.{Prefix as ThePrefix};
ghost use Rattle.rib_in.specs.LatestRoutes.{route_at};
ghost use Rattle.routing.specs.Chosen.{Ends, named_if};
ghost use Rattle.routing.specs.Heard.{AreOf, IsHeard, KeepsUnnamed, TakesMemoryAt, update_heard};
ghost use Rattle.routing.specs.Linked.{Linked, taken_of};
ghost use Rattle.routing.specs.RoutingState.{StayWhole};
ghost use Rattle.routing.specs.MarksIn.{AreMarkedIn, IsFollowedIn};
ghost use Rattle.routing.specs.RoutesState.{IsSet, StaysKept, TakesInput};
ghost use Rattle.routing.specs.Tables.{link_at};
ghost use Rattle.routing.specs.Updates.{sound_update};

use crate::routes::Routes;
use bgp_conf::Conf;
use bgp_fsm::{Effects, Input};
use bgp_peer::Peer;
use decision::Book;
use net_prefix::Transport;
use routing::{Links, Octets, Routing, Sender, Standard, take_front};
use std::alloc::{AllocError, Allocator};

impl<A: Allocator + Clone, B: Book<A>> Routes<A, B> {
    /// A slot's session takes an input. Where it leaves Established, its routes go, and nothing is owed to its peer any
    /// more; where it enters it, its peer is owed all that is exported to it; where its peer asks for all routes again, it is
    /// owed what it holds. Answers whether its connection attempt begins.
    pub fn input(&mut self, slot: u8, input: Input<'_>, now: u64) -> bool
        ensures moves { (l : Linked) → link_at self.old.links slot ≡ Some l → TakesInput slot l now input.entry self.old self.new }
        ensures opened { (l : Linked) → link_at self.old.links slot ≡ Some l → result ≡ (effects_of input.entry l.peer.session).opened }
        ensures none { link_at self.old.links slot ≡ None → (result ≡ false) × (self.new ≡ self.old) }
        ensures conf { self.new.conf ≡ self.old.conf }
        ensures payloads { self.new.payloads ≡ self.old.payloads }
        ensures rises { self.old.chosen ≤ self.new.chosen }
    {
        let Some(peer) = self.links.get_mut(&slot) else {
            return false;
        };
        let was_asked = self.routing.held(slot).is_all_asked();
        let effects = peer.input(input, now);
        let asks = effects.refreshed && !was_asked;
        self.routing.follow(slot, &effects);
        follow(
            &self.conf,
            &self.links,
            &mut self.routing,
            slot,
            &effects,
            asks,
        );
        effects.opened
    }

    /// Takes octets up to the end of the message at the front of an open connection, and answers how many; none where the
    /// slot isn't there.
    pub fn push(&mut self, slot: u8, octets: &[u8]) -> usize
        ensures none { link_at self.old.links slot ≡ None → (result ≡ 0) × (self.new ≡ self.old) }
        ensures within { result ≤ length octets.now }
        ensures count { (l : Linked) → link_at self.old.links slot ≡ Some l → result ≡ taken_of l.peer octets.now }
        ensures puts { (l : Linked) → link_at self.old.links slot ≡ Some l → IsSet slot (Some (record { peer = pushed l.peer (take result octets.now); adj_out = l.adj_out })) self.old self.new }
        ensures rest { self.new ≡ record self.old { links = self.new.links } }
        ensures payloads { self.new.payloads ≡ self.old.payloads }
    {
        let Some(peer) = self.links.get_mut(&slot) else {
            return 0;
        };
        push_open(peer, octets)
    }

    /// Hands out the first octets of a slot's ring, as many as there are and fit, and answers how many; none where the slot
    /// isn't there.
    pub fn take(&mut self, slot: u8, buf: &mut [u8]) -> Option<usize>
        ensures none { link_at self.old.links slot ≡ None → (result ≡ None) × (self.new ≡ self.old) × (buf.new ≡ buf.old) }
        ensures some { (l : Linked) → link_at self.old.links slot ≡ Some l
            → MatchOption result ⊥ (λ taken. (taken ≡ min (length buf.old) (length l.peer.ring)) × (buf.new ≡ take taken l.peer.ring ++ drop taken buf.old)
            × IsSet slot (Some (record { peer = handed l.peer taken; adj_out = l.adj_out })) self.old self.new) }
        ensures rest { self.new ≡ record self.old { links = self.new.links } }
        ensures payloads { self.new.payloads ≡ self.old.payloads }
    {
        let peer = self.links.get_mut(&slot)?;
        Some(peer.take(buf))
    }

    /// A slot without a peer isn't there any more.
    pub fn let_go(&mut self, slot: u8)
        requires { peer_at self.old.conf slot ≡ None }
        ensures gone { IsSet slot None self.old self.new }
        ensures rest { self.new ≡ record self.old { links = self.new.links } }
        ensures payloads { self.new.payloads ≡ self.old.payloads }
    {
        self.links.remove(&slot);
        self.routing.forget(slot);
    }

    /// What stands at the front of a slot's rest is to the session: nothing yet, or an input. The routes of an UPDATE of an
    /// Established session are taken, all or none. What a NOTIFICATION shows of a
    /// faulty message is written to `room`.
    pub fn judge_front<'r>(
        &mut self,
        alloc: &A,
        slot: u8,
        standard: Standard,
        room: &'r mut Octets,
    ) -> Result<Option<Input<'r>>, AllocError>
        requires { (terms : Terms) × AreOf terms standard }
        ensures none { link_at self.old.links slot ≡ None → (result ≡ Ok None) × (self.new ≡ self.old) }
        ensures input { IfOk result (λ found. (terms : Terms) (l : Linked) → AreOf terms standard → link_at self.old.links slot ≡ Some l
            → found ≡ option_map (input_of l.peer.session.state terms) (meaning l.peer.rest)) }
        ensures routes { OnOk result ((terms : Terms) (l : Linked) → AreOf terms standard → link_at self.old.links slot ≡ Some l
            → IsHeard slot (option_and_then (update_heard l.peer.session.state terms) (meaning l.peer.rest)) self.old.adj_in self.new.adj_in) }
        ensures unnamed { OnOk result ((terms : Terms) (l : Linked) → AreOf terms standard → link_at self.old.links slot ≡ Some l
            → KeepsUnnamed slot (option_and_then (update_heard l.peer.session.state terms) (meaning l.peer.rest)) self.old.book self.new.book) }
        ensures kept { OnOk result (StaysKept self.old self.new) }
        ensures chosen { OnOk result ((terms : Terms) (l : Linked) → AreOf terms standard → link_at self.old.links slot ≡ Some l
            → self.new.chosen ≤ self.old.chosen + named_if (option_and_then (update_heard l.peer.session.state terms) (meaning l.peer.rest))) }
        ensures refused { OnErr result (StayWhole self.old.adj_in self.new.adj_in self.old.book self.new.book self.old.chosen self.new.chosen) }
        ensures memory { OnErr result ((l : Linked) → link_at self.old.links slot ≡ Some l → TakesMemoryAt standard.kind l) }
        ensures within { OnErr result (slot < 64) }
        ensures rest { self.new ≡ record self.old { adj_in = self.new.adj_in; book = self.new.book; chosen = self.new.chosen } }
        ensures payloads { self.new.payloads ≡ self.old.payloads }
        ensures rises { self.old.chosen ≤ self.new.chosen }
    {
        let Some(peer) = self.links.get(&slot) else {
            return Ok(None);
        };
        let sender = Sender {
            slot,
            identifier: peer.identifier(),
        };
        take_front(
            alloc,
            &self.conf,
            &self.payloads,
            &self.links,
            &mut self.routing,
            sender,
            standard,
            peer,
            room,
        )
    }
}

// Takes octets up to the end of the message at the front, where the connection is open, and answers how many.
fn push_open<A: Allocator>(peer: &mut Peer<A>, octets: &[u8]) -> usize
    ensures within { result ≤ length octets.now }
    ensures count { result ≡ taken_of peer.old octets.now }
    ensures peer { peer.new ≡ pushed peer.old (take result octets.now) }
{
    if peer.transport() != Transport::Open {
        return 0;
    }
    peer.push(octets)
}

// Leaving Established removes all routes of the session, with the candidates that they make, and nothing waits for its
// peer any more. Entering it, the peer waits for all that is exported to it. A peer that asks for all routes again, of which
// it hadn't asked for each already, waits for what it holds.
fn follow<A: Allocator + Clone, B: Book<A>>(
    conf: &Conf<A>,
    links: &Links<A>,
    routing: &mut Routing<A, B>,
    slot: u8,
    effects: &Effects<'_>,
    asks: bool,
)
    requires { IsFollowedIn conf.now links.now.entries slot effects.now asks routing.old }
    ensures marked { AreMarkedIn conf.now links.now.entries routing.new }
    ensures sent { routing.new.sent ≡ routing.old.sent }
    ensures routes { (s : ℕ) (prefix : ThePrefix) → route_at routing.new.adj_in s prefix ≡ (if effects.now.left && s == slot then None else route_at routing.old.adj_in s prefix) }
    ensures offers { (s : ℕ) (prefix : ThePrefix) → offer_at routing.new.book s prefix ≡ (if effects.now.left && s == slot then None else offer_at routing.old.book s prefix) }
    ensures chosen { effects.now.left ≡ true → Ends slot routing.old.adj_in routing.old.chosen routing.new.chosen }
    ensures stays { effects.now.left ≡ false → routing.new.chosen ≡ routing.old.chosen }
    ensures rises { routing.old.chosen ≤ routing.new.chosen }
{
    if effects.left {
        routing.clear(slot);
        routing.drop_slot(conf, links, slot);
    } else if effects.entered {
        routing.clear(slot);
        routing.enter(conf, links, slot);
    } else if asks {
        routing.mark_slot(conf, links, slot);
    }
}
