//! What the peers are owed: the UPDATEs that make what each was sent its export of Loc-RIB, and those that a peer has asked for
//! again (RFC 2918 section 4).
ghost use Rattle.std.specs.Prelude.{◌≡◌, ◌≢◌, ◌≤◌, ◌<◌, ◌+◌, ◌-◌, ◌==◌, ◌↔◌, ℕ, true, false, Some, None, OnOk, OnErr, IfSome, IfNone, IsTrue, length, if◌then◌else◌};
ghost use Rattle.std.specs.Bool.{OnTrue};
ghost use Rattle.std.specs.Option.{IsSome, option_map};
ghost use Rattle.bgp_conf.specs.Configuration.{peer_at};
ghost use Rattle.bgp_fsm.specs.declared.state.State.TheVariants.{Established};
ghost use Rattle.export_rules.specs.Export.{most_attributes};
ghost use Rattle.rib_out.specs.Held.{asked_at, held_at, is_among};
ghost use Rattle.runs.specs.Agreement.{QueuesAll, QueuesOn, QueuesStarved};
ghost use Rattle.routing.specs.Export.{export_peer_of};
ghost use Rattle.speaker.specs.Export.{export_to};
ghost use Rattle.routing.specs.Linked.{Linked};
ghost use Rattle.speaker.specs.Serving.{AreServedBelow, IsServedBy, IsServedAt, IsShortAt, IsUpAt, HasRoomAt, IsOfSlot, IsStill, IsToldAt, Serves, Stand, IsDoneAt, IsGone, IsHad, is_standing};
ghost use Rattle.routing.specs.Packing.{IsDue, IsFrom, IsNewTo, IsPack, most_named};
ghost use Rattle.net_prefix.specs.declared.prefix.Prefix.{Prefix as ThePrefix};
ghost use Rattle.routing.specs.Owing.{IsNext, announced_of, withdrawn_of};
ghost use Rattle.routing.specs.Told.{HasRoom};
ghost use Rattle.routing.specs.Tables.{link_at};

use crate::step::Speaker;
use bgp_fsm::{Input, State};
use bgp_peer::{Peer, ROOM_FOR_UPDATE};
use decision::Book;
use export_rules::ExportPeer;
use net_prefix::Prefix;
use routes::Draft;
use routing::{Octets, place};
use runs::slot_bit;
use std::alloc::{AllocError, Allocator};

// Room in which an UPDATE is made. It is taken at the first that is owed, since to fill it costs more than to find that none is.
#[derive(Drop)]
struct Room {
    // What is exported of the least prefix.
    octets: Octets,
    draft: Draft,
}

impl Room {
    // Nothing is written yet.
    fn new() -> Self {
        Room {
            octets: Octets::new(),
            draft: Draft::new(),
        }
    }
}

impl<A: Allocator + Clone, B: Book<A>> Speaker<A, B> {
    /// Queues to each Established peer the UPDATEs that it is owed, while its ring has room. Where memory is refused to
    /// what a peer is owed, its session is closed; all peers are then served again, since its routes have gone. Answers
    /// the slots of such peers, a bit each.
    pub(crate) fn queue_updates(&mut self) -> u64
        ensures queues { QueuesAll result self.old self.new }
        ensures served { (slot : ℕ) → slot < 64 → IsServedAt self.new slot }
        ensures counted { self.new.chosen_before ≡ self.old.chosen_before }
        ensures rises { self.old.chosen ≤ self.new.chosen }
    {
        let mut starved = 0;
        let mut room = None;
        while let Some(slot) = self.pass(&mut room) {
            self.starve(slot);
            starved = slot_bit(slot) | starved;
        }
        starved
    }

    // For each Established slot in rising order, queues the UPDATEs that it is owed. Answers the first to which memory
    // is refused.
    fn pass(&mut self, room: &mut Option<Room>) -> Option<u8>
        ensures stand { Stand self.old self.new }
        ensures queues { QueuesOn self.old self.new }
        ensures served { IfNone result ((slot : ℕ) → slot < 64 → IsServedAt self.new slot) }
        ensures short { IfSome result (λ slot. IsShortAt self.new slot) }
        ensures counted { self.new.chosen_before ≡ self.old.chosen_before }
        ensures rises { self.old.chosen ≤ self.new.chosen }
    {
        for slot in 0..self.routes.slots_end() {
            if self.serve_slot(slot, room).is_err() {
                return Some(slot);
            }
        }
        None
    }

    // Memory is refused to what the slot's peer is owed: its session is closed, and its routes go.
    fn starve(&mut self, slot: u8)
        requires { IsShortAt self.old slot }
        ensures queues { QueuesStarved slot self.old self.new }
        ensures stand { (s : ℕ) → is_standing (link_at self.new.links s) ≡ (if s == slot then false else is_standing (link_at self.old.links s)) }
        ensures counted { self.new.chosen_before ≡ self.old.chosen_before }
        ensures rises { self.old.chosen ≤ self.new.chosen }
    {
        self.input(slot, Input::NoMemory);
        self.routes.is_chosen();
    }

    // Queues what a slot's peer is owed, withdrawals before announcements and each in rising order, while its
    // ring has room for an UPDATE.
    fn serve_slot(&mut self, slot: u8, room: &mut Option<Room>) -> Result<(), AllocError>
        requires slot { slot < 64 }
        requires below { AreServedBelow self.old slot }
        ensures only { IsOfSlot slot self.old self.new }
        ensures stand { Stand self.old self.new }
        ensures queues { QueuesOn self.old self.new }
        ensures served { OnOk result (IsServedAt self.new slot) }
        ensures short { OnErr result (IsShortAt self.new slot) }
    {
        self.renew_queue(slot);
        self.serve_in_order(slot, room)
    }

    // What waits for the slot is kept in order again, if memory was refused to that and nothing is owed to its peer.
    fn renew_queue(&mut self, slot: u8)
        requires { slot < 64 }
        ensures { self.new ≡ self.old }
    {
        self.routes.renew_queue(slot);
    }

    // The same where what waits is kept in order if it can be.
    fn serve_in_order(&mut self, slot: u8, room: &mut Option<Room>) -> Result<(), AllocError>
        requires slot { slot < 64 }
        requires below { AreServedBelow self.old slot }
        ensures only { IsOfSlot slot self.old self.new }
        ensures stand { Stand self.old self.new }
        ensures queues { QueuesOn self.old self.new }
        ensures served { OnOk result (IsServedAt self.new slot) }
        ensures short { OnErr result (IsShortAt self.new slot) }
    {
        let Some(peer) = self.routes.export_peer(slot) else {
            return Ok(());
        };
        if !self.is_up(slot) {
            return Ok(());
        }
        self.withdraw_all(slot, &peer, room);
        self.announce_all(slot, &peer, room)
    }

    // Withdraws what the peer holds and what isn't exported to it any more.
    fn withdraw_all(&mut self, slot: u8, peer: &ExportPeer, room: &mut Option<Room>)
        requires slot { slot < 64 }
        requires peer { Some peer.now ≡ option_map (export_peer_of self.old.conf slot) (peer_at self.old.conf slot) }
        requires up { IsUpAt self.old slot }
        requires below { AreServedBelow self.old slot }
        ensures serves { Serves slot self.old self.new }
        ensures done { IsDoneAt (IsGone (export_to self.old slot)) self.new slot }
    {
        let mut after = None;
        while let Some(prefix) = self.withdrawal_after(slot, after) {
            if !self.has_room(slot) {
                return;
            }
            let Room { draft, .. } = room.get_or_insert_with(Room::new);
            self.withdraw_from(slot, prefix, draft);
            // Places rise, so the walk ends.
            let _place = place(prefix);
            after = Some(prefix);
        }
    }

    // Announces what is exported to the peer and what it doesn't hold just so, or has asked for again.
    fn announce_all(
        &mut self,
        slot: u8,
        peer: &ExportPeer,
        room: &mut Option<Room>,
    ) -> Result<(), AllocError>
        requires slot { slot < 64 }
        requires peer { Some peer.now ≡ option_map (export_peer_of self.old.conf slot) (peer_at self.old.conf slot) }
        requires up { IsUpAt self.old slot }
        requires gone { IsDoneAt (IsGone (export_to self.old slot)) self.old slot }
        requires below { AreServedBelow self.old slot }
        ensures serves { Serves slot self.old self.new }
        ensures done { OnOk result (IsDoneAt (IsHad (export_to self.old slot)) self.new slot) }
        ensures short { OnErr result (IsShortAt self.new slot) }
    {
        let mut after = None;
        while let Some(prefix) = self.announcement_after(slot, after) {
            if !self.has_room(slot) {
                return Ok(());
            }
            let Room { octets, draft } = room.get_or_insert_with(Room::new);
            if self.routes.export(peer, prefix, octets) {
                self.announce_from(slot, peer, prefix, octets, draft)?;
            }
            // Places rise, so the walk ends.
            let _place = place(prefix);
            after = Some(prefix);
        }
        Ok(())
    }

    fn is_up(&self, slot: u8) -> bool
        ensures up { OnTrue result (IsUpAt self.now slot) }
        ensures down { result ≡ false → (l : Linked) → link_at self.now.links slot ≡ Some l → l.peer.session.state ≢ Established }
    {
        match self.routes.peer(slot) {
            Some(found) => is_established(found),
            None => false,
        }
    }

    fn has_room(&self, slot: u8) -> bool
        ensures { (l : Linked) → link_at self.now.links slot ≡ Some l → IsTrue result ↔ HasRoom l }
    {
        match self.routes.peer(slot) {
            Some(found) => found.free() >= ROOM_FOR_UPDATE,
            None => false,
        }
    }

    // The least prefix above the given one, or of all, that an Established peer holds and that isn't exported to it.
    fn withdrawal_after(&self, slot: u8, after: Option<Prefix>) -> Option<Prefix>
        requires { slot < 64 }
        ensures { (l : Linked) → IsServedBy self.now slot l → IsNext (λ q. withdrawn_of (export_to self.now slot q) (held_at l.adj_out q)) after result }
    {
        self.routes.withdrawal_after(slot, after)
    }

    // The least prefix above the given one, or of all, that is exported to an Established peer and that it doesn't
    // hold just so, or has asked for again.
    fn announcement_after(&self, slot: u8, after: Option<Prefix>) -> Option<Prefix>
        requires { slot < 64 }
        ensures { (l : Linked) → IsServedBy self.now slot l → IsNext (λ q. announced_of (export_to self.now slot q) (held_at l.adj_out q) (asked_at l.adj_out q)) after result }
    {
        self.routes.announcement_after(slot, after)
    }

    fn withdraw_from(&mut self, slot: u8, least: Prefix, draft: &mut Draft)
        requires slot { slot < 64 }
        requires up { IsUpAt self.old slot }
        requires room { HasRoomAt self.old slot }
        requires gone { export_to self.old slot least ≡ None }
        requires held { (l : Linked) → IsServedBy self.old slot l → IsSome (held_at l.adj_out least) }
        requires peer { IsSome (peer_at self.old.conf slot) }
        ensures told { IsToldAt slot draft.new.named.items None self.old self.new }
        ensures least { is_among least draft.new.named.items ≡ true }
        ensures packed { (l : Linked) → link_at self.old.links slot ≡ Some l → IsPack (IsFrom least (IsDue (export_to self.old slot) None l)) most_named draft.new.named.items }
    {
        self.routes.tell_withdrawals(slot, least, draft);
    }

    fn announce_from(
        &mut self,
        slot: u8,
        peer: &ExportPeer,
        least: Prefix,
        octets: &Octets,
        draft: &mut Draft,
    ) -> Result<(), AllocError>
        requires slot { slot < 64 }
        requires up { IsUpAt self.old slot }
        requires room { HasRoomAt self.old slot }
        requires small { length octets.now.items ≤ most_attributes }
        requires exported { export_to self.old slot least ≡ Some octets.now.items }
        requires news { (l : Linked) → link_at self.old.links slot ≡ Some l → IsNewTo l least (Some octets.now.items) }
        requires peer { Some peer.now ≡ option_map (export_peer_of self.old.conf slot) (peer_at self.old.conf slot) }
        ensures told { OnOk result (IsToldAt slot draft.new.named.items (Some octets.now.items) self.old self.new) }
        ensures least { is_among least draft.new.named.items ≡ true }
        ensures each { (q : ThePrefix) → is_among q draft.new.named.items ≡ true → export_to self.old slot q ≡ Some octets.now.items }
        ensures packed { (l : Linked) → link_at self.old.links slot ≡ Some l → IsPack (IsFrom least (IsDue (export_to self.old slot) (Some octets.now.items) l)) (most_named - length octets.now.items) draft.new.named.items }
        ensures err { OnErr result (IsStill self.old self.new) }
        ensures short { OnErr result ((l : Linked) → link_at self.old.links slot ≡ Some l → (q : ThePrefix) × (is_among q draft.new.named.items ≡ true) × (export_to self.old slot q ≡ Some octets.now.items) × (held_at l.adj_out q ≢ Some octets.now.items)) }
    {
        self.routes
            .tell_announcements(slot, peer, least, octets, draft)
    }
}

// Whether the peer's session is Established.
fn is_established<A: Allocator + Clone>(peer: &Peer<A>) -> bool
    ensures { IsTrue result ↔ (peer.now.session.state ≡ Established) }
{
    peer.state() == State::Established
}
