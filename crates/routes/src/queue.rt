//! What a slot's peer is owed, and that it is told.
ghost use Rattle.std.specs.Prelude.{◌≡◌, ◌≢◌, ◌≤◌, ◌<◌, ◌-◌, ℕ, true, None, Some, OnOk, OnErr, length};
ghost use Rattle.std.specs.Option.{IfSome, IsSome, option_map};
ghost use Rattle.bgp_conf.specs.Configuration.{peer_at};
ghost use Rattle.bgp_conf.specs.declared.conf.ConfiguredPeer.{ConfiguredPeer};
ghost use Rattle.bgp_fsm.specs.declared.state.State.TheVariants.{Established};
ghost use Rattle.export_rules.specs.Export.{most_attributes};
ghost use Rattle.net_prefix.specs.PrefixOrder.{IsAbove};
ghost use Rattle.net_prefix.specs.declared.prefix.Prefix.{Prefix as ThePrefix};
ghost use Rattle.rib_out.specs.Held.{asked_at, held_at, is_among};
ghost use Rattle.routing.specs.Export.{export_peer_of};
ghost use Rattle.routing.specs.Linked.{Linked};
ghost use Rattle.routing.specs.Owing.{IsNext, IsServed, announced_of, withdrawn_of};
ghost use Rattle.routing.specs.Packing.{IsDue, IsFrom, IsNewTo, IsPack, most_named};
ghost use Rattle.routing.specs.RoutesState.{TellsSlot, export_of};
ghost use Rattle.routing.specs.Tables.{link_at};
ghost use Rattle.routing.specs.Told.{HasRoom, update_saying};

use crate::packing::Draft;
use crate::routes::Routes;
use decision::Book;
use export_rules::ExportPeer;
use net_prefix::Prefix;
use rib_out::Owed;
use routing::{Octets, announce, withdraw};
use std::alloc::{AllocError, Allocator};

impl<A: Allocator + Clone, B: Book<A>> Routes<A, B> {
    /// The least prefix above the given one, or of all, that an Established peer holds and that isn't exported to it.
    pub fn withdrawal_after(&self, slot: u8, after: Option<Prefix>) -> Option<Prefix>
        requires { slot < 64 }
        ensures above { IfSome result (λ p. IsAbove after p) }
        ensures none { (IsServed self.now.conf self.now.links slot → ⊥) → result ≡ None }
        ensures next { (peer : ConfiguredPeer) (l : Linked) → peer_at self.now.conf slot ≡ Some peer → link_at self.now.links slot ≡ Some l → l.peer.session.state ≡ Established
            → IsNext (λ q. withdrawn_of (export_of self.now slot q) (held_at l.adj_out q)) after result }
    {
        self.routing
            .next(&self.conf, &self.links, slot, Owed::Withdrawal, after)
    }

    /// The least prefix above the given one, or of all, that is exported to an Established peer and that it doesn't hold
    /// just so, or has asked for again.
    pub fn announcement_after(&self, slot: u8, after: Option<Prefix>) -> Option<Prefix>
        requires { slot < 64 }
        ensures above { IfSome result (λ p. IsAbove after p) }
        ensures none { (IsServed self.now.conf self.now.links slot → ⊥) → result ≡ None }
        ensures next { (peer : ConfiguredPeer) (l : Linked) → peer_at self.now.conf slot ≡ Some peer → link_at self.now.links slot ≡ Some l → l.peer.session.state ≡ Established
            → IsNext (λ q. announced_of (export_of self.now slot q) (held_at l.adj_out q) (asked_at l.adj_out q)) after result }
    {
        self.routing
            .next(&self.conf, &self.links, slot, Owed::Announcement, after)
    }

    /// Tells an Established peer withdrawals: of the prefixes that it holds and that aren't exported to it, from this one
    /// on, the longest beginning that one UPDATE holds. The UPDATE is written to `draft`.
    pub fn tell_withdrawals(&mut self, slot: u8, least: Prefix, draft: &mut Draft)
        requires slot { slot < 64 }
        requires up { (l : Linked) × (link_at self.old.links slot ≡ Some l) × (l.peer.session.state ≡ Established) }
        requires room { (l : Linked) → link_at self.old.links slot ≡ Some l → HasRoom l }
        requires gone { export_of self.old slot least ≡ None }
        requires held { (l : Linked) → link_at self.old.links slot ≡ Some l → IsSome (held_at l.adj_out least) }
        requires peer { IsSome (peer_at self.old.conf slot) }
        ensures told { TellsSlot slot draft.new.named.items None self.old self.new }
        ensures least { is_among least draft.new.named.items ≡ true }
        ensures packed { (l : Linked) → link_at self.old.links slot ≡ Some l → IsPack (IsFrom least (IsDue (export_of self.old slot) None l)) most_named draft.new.named.items }
        ensures message { draft.new.message.items ≡ update_saying draft.new.named.items None }
        ensures payloads { self.new.payloads ≡ self.old.payloads }
    {
        self.name_withdrawals(slot, least, &mut draft.named);
        let Some(told) = self.links.get_mut(&slot) else {
            return;
        };
        withdraw(
            told,
            &mut self.routing,
            slot,
            draft.named.as_slice(),
            &mut draft.message,
        );
        self.routing.told_all(slot, draft.named.as_slice());
    }

    /// Tells an Established peer announcements with the attributes that are exported to it of this prefix: of the
    /// prefixes that wait with the same, from this one on, the longest beginning that one UPDATE holds. Memory is taken
    /// only where it holds others, and where that is refused, nothing changes. The UPDATE is written to `draft`.
    pub fn tell_announcements(
        &mut self,
        slot: u8,
        peer: &ExportPeer,
        least: Prefix,
        octets: &Octets,
        draft: &mut Draft,
    ) -> Result<(), AllocError>
        requires slot { slot < 64 }
        requires up { (l : Linked) × (link_at self.old.links slot ≡ Some l) × (l.peer.session.state ≡ Established) }
        requires room { (l : Linked) → link_at self.old.links slot ≡ Some l → HasRoom l }
        requires small { length octets.now.items ≤ most_attributes }
        requires exported { export_of self.old slot least ≡ Some octets.now.items }
        requires news { (l : Linked) → link_at self.old.links slot ≡ Some l → IsNewTo l least (Some octets.now.items) }
        requires peer { Some peer.now ≡ option_map (export_peer_of self.old.conf slot) (peer_at self.old.conf slot) }
        ensures told { OnOk result (TellsSlot slot draft.new.named.items (Some octets.now.items) self.old self.new) }
        ensures least { is_among least draft.new.named.items ≡ true }
        ensures each { (q : ThePrefix) → is_among q draft.new.named.items ≡ true → export_of self.old slot q ≡ Some octets.now.items }
        ensures packed { (l : Linked) → link_at self.old.links slot ≡ Some l → IsPack (IsFrom least (IsDue (export_of self.old slot) (Some octets.now.items) l)) (most_named - length octets.now.items) draft.new.named.items }
        ensures message { OnOk result (draft.new.message.items ≡ update_saying draft.new.named.items (Some octets.now.items)) }
        ensures err { OnErr result ((s : ℕ) → link_at self.new.links s ≡ link_at self.old.links s) }
        ensures short { OnErr result ((l : Linked) → link_at self.old.links slot ≡ Some l → (q : ThePrefix) × (is_among q draft.new.named.items ≡ true) × (export_of self.old slot q ≡ Some octets.now.items) × (held_at l.adj_out q ≢ Some octets.now.items)) }
        ensures rest { self.new ≡ record self.old { links = self.new.links } }
        ensures payloads { self.new.payloads ≡ self.old.payloads }
    {
        self.name_announcements(
            slot,
            peer,
            least,
            octets,
            &mut draft.named,
            &mut draft.other,
        );
        let Some(told) = self.links.get_mut(&slot) else {
            return Ok(());
        };
        announce(
            told,
            &mut self.routing,
            &self.conf,
            peer,
            least,
            slot,
            &mut self.recent,
            draft.named.as_slice(),
            octets,
            &mut draft.message,
        )?;
        self.routing
            .announced_all(slot, octets.as_slice(), draft.named.as_slice());
        Ok(())
    }

    /// Where memory was refused to what waits for the slot and nothing is owed to its peer any more, what waits is kept in
    /// order again. Nothing that is shown changes.
    pub fn renew_queue(&mut self, slot: u8)
        requires { slot < 64 }
        ensures same { self.new ≡ self.old }
        ensures payloads { self.new.payloads ≡ self.old.payloads }
    {
        self.routing.renew_queue(&self.conf, &self.links, slot);
    }
}
