//! Which prefixes one UPDATE names (RFC 4271 section 4.3).
ghost use Rattle.std.specs.Prelude.{◌≡◌, ◌≢◌, ◌≤◌, ◌<◌, ◌-◌, ◌^◌, ℕ, List, [], All, true, None, Some, IfSome, length};
ghost use Rattle.std.specs.Bool.{OnFalse, OnTrue};
ghost use Rattle.std.specs.Option.{IsSome, option_map};
ghost use Rattle.bgp_conf.specs.Configuration.{peer_at};
ghost use Rattle.bgp_fsm.specs.declared.state.State.TheVariants.{Established};
ghost use Rattle.bgp_msg.specs.MessageSpelling.{wire_form};
ghost use Rattle.export_rules.specs.Export.{most_attributes};
ghost use Rattle.net_prefix.specs.declared.prefix.Prefix.{Prefix as ThePrefix};
ghost use Rattle.rib_out.specs.Held.{held_at, is_among};
ghost use Rattle.routing.specs.Export.{export_peer_of};
ghost use Rattle.routing.specs.Linked.{Linked};
ghost use Rattle.routing.specs.Packing.{IsBehind, IsDue, IsFrom, IsNewTo, IsPack, most_named};
ghost use Rattle.routing.specs.Places.{rank_of};
ghost use Rattle.routing.specs.RoutesState.{export_of};
ghost use Rattle.routing.specs.Tables.{link_at};

use crate::routes::Routes;
use arrayvec::ArrayVec;
use decision::Book;
use export_rules::ExportPeer;
use loc_rib::AdjOut;
use net_prefix::Prefix;
use routing::{Octets, place};
use std::alloc::Allocator;

/// The octets that an UPDATE has for prefixes and attributes: 4,096 without 19 of the header and 4 of the two lengths.
pub const MAX_NAMED: usize = 4073;

/// The prefixes of one message. None takes less than one octet.
pub type Prefixes = ArrayVec<Prefix, MAX_NAMED>;

/// An UPDATE in the making.
#[derive(Drop)]
pub struct Draft {
    /// The prefixes that it names.
    pub named: Prefixes,
    /// The message.
    pub message: Octets,
    /// What is exported of a prefix that may be named beside the first.
    pub other: Octets,
}

impl Draft {
    /// An UPDATE of which nothing is written yet.
    pub fn new() -> Self
        ensures named { result.named.items ≡ [] }
        ensures message { result.message.items ≡ [] }
        ensures other { result.other.items ≡ [] }
    {
        Draft {
            named: Prefixes::new(),
            message: Octets::new(),
            other: Octets::new(),
        }
    }
}

impl<A: Allocator + Clone, B: Book<A>> Routes<A, B> {
    // Names the withdrawals of one UPDATE: those that wait for the slot from this one on, as many as there is room for.
    pub(crate) fn name_withdrawals(&self, slot: u8, least: Prefix, named: &mut Prefixes)
        requires slot { slot < 64 }
        requires up { (l : Linked) × (link_at self.now.links slot ≡ Some l) × (l.peer.session.state ≡ Established) }
        requires gone { export_of self.now slot least ≡ None }
        requires held { (l : Linked) → link_at self.now.links slot ≡ Some l → IsSome (held_at l.adj_out least) }
        requires peer { IsSome (peer_at self.now.conf slot) }
        ensures least { is_among least named.new.items ≡ true }
        ensures places { All (λ p. rank_of p < 2 ^ 38) named.new.items }
        ensures packed { (l : Linked) → link_at self.now.links slot ≡ Some l → IsPack (IsFrom least (IsDue (export_of self.now slot) None l)) most_named named.new.items }
        ensures fits { length (wire_form named.new.items) ≤ most_named }
    {
        named.clear();
        let mut room = MAX_NAMED;
        let mut next = Some(least);
        while let Some(prefix) = next {
            let octets = prefix.to_octets().len();
            if octets > room {
                return;
            }
            let _place = place(prefix);
            room -= octets;
            named.push(prefix);
            next = self.withdrawal_after(slot, Some(prefix));
        }
    }

    // Names the announcements of one UPDATE: of those that wait for the slot with these octets of attributes, from this
    // one on, as many as there is room for.
    pub(crate) fn name_announcements(
        &self,
        slot: u8,
        peer: &ExportPeer,
        least: Prefix,
        octets: &Octets,
        named: &mut Prefixes,
        other: &mut Octets,
    )
        requires slot { slot < 64 }
        requires up { (l : Linked) × (link_at self.now.links slot ≡ Some l) × (l.peer.session.state ≡ Established) }
        requires small { length octets.now.items ≤ most_attributes }
        requires exported { export_of self.now slot least ≡ Some octets.now.items }
        requires news { (l : Linked) → link_at self.now.links slot ≡ Some l → IsNewTo l least (Some octets.now.items) }
        requires peer { Some peer.now ≡ option_map (export_peer_of self.now.conf slot) (peer_at self.now.conf slot) }
        ensures least { is_among least named.new.items ≡ true }
        ensures places { All (λ p. rank_of p < 2 ^ 38) named.new.items }
        ensures each { (q : ThePrefix) → is_among q named.new.items ≡ true → export_of self.now slot q ≡ Some octets.now.items }
        ensures packed { (l : Linked) → link_at self.now.links slot ≡ Some l → IsPack (IsFrom least (IsDue (export_of self.now slot) (Some octets.now.items) l)) (most_named - length octets.now.items) named.new.items }
        ensures fits { length (wire_form named.new.items) ≤ most_named - length octets.now.items }
    {
        named.clear();
        let mut room = MAX_NAMED - octets.len();
        let mut next = Some(least);
        while let Some(prefix) = next {
            let taken = prefix.to_octets().len();
            if taken > room {
                return;
            }
            let _place = place(prefix);
            room -= taken;
            named.push(prefix);
            next = self.alike_after(slot, peer, octets, prefix, other);
        }
    }

    // The least prefix above the given one that waits for the slot to be announced with these octets.
    fn alike_after(
        &self,
        slot: u8,
        peer: &ExportPeer,
        octets: &Octets,
        after: Prefix,
        other: &mut Octets,
    ) -> Option<Prefix>
        requires slot { slot < 64 }
        requires peer { Some peer.now ≡ option_map (export_peer_of self.now.conf slot) (peer_at self.now.conf slot) }
        ensures due { (l : Linked) → link_at self.now.links slot ≡ Some l → l.peer.session.state ≡ Established → IfSome result (IsDue (export_of self.now slot) (Some octets.now.items) l) }
        ensures above { IfSome result (λ p. rank_of after < rank_of p) }
        ensures behind { (l : Linked) → link_at self.now.links slot ≡ Some l → l.peer.session.state ≡ Established → IsBehind (IsDue (export_of self.now slot) (Some octets.now.items) l) after result }
    {
        let mut last = after;
        while let Some(prefix) = self.possible_after(slot, octets, last) {
            if self.is_alike(slot, peer, prefix, octets, other) {
                return Some(prefix);
            }
            // Places rise, so the walk ends.
            let _place = place(prefix);
            last = prefix;
        }
        None
    }

    // A prefix above the given one, below which none waits for the slot to be announced with these octets.
    fn possible_after(&self, slot: u8, octets: &Octets, last: Prefix) -> Option<Prefix>
        requires { slot < 64 }
        ensures above { IfSome result (λ p. rank_of last < rank_of p) }
        ensures behind { (l : Linked) → link_at self.now.links slot ≡ Some l → l.peer.session.state ≡ Established → IsBehind (IsDue (export_of self.now slot) (Some octets.now.items) l) last result }
    {
        self.routing
            .possible_after(&self.conf, &self.links, slot, octets.as_slice(), last)
    }

    // Whether the prefix waits for the slot to be announced with these octets.
    fn is_alike(
        &self,
        slot: u8,
        peer: &ExportPeer,
        prefix: Prefix,
        octets: &Octets,
        other: &mut Octets,
    ) -> bool
        requires slot { slot < 64 }
        requires peer { Some peer.now ≡ option_map (export_peer_of self.now.conf slot) (peer_at self.now.conf slot) }
        ensures due { OnTrue result ((l : Linked) → link_at self.now.links slot ≡ Some l → l.peer.session.state ≡ Established → IsDue (export_of self.now slot) (Some octets.now.items) l prefix) }
        ensures other { OnFalse result ((l : Linked) → link_at self.now.links slot ≡ Some l → l.peer.session.state ≡ Established → IsDue (export_of self.now slot) (Some octets.now.items) l prefix → ⊥) }
    {
        if !self.is_exported_so(slot, peer, prefix, octets, other) {
            return false;
        }
        is_new_to(&self.routing.held(slot), prefix, octets)
    }

    // Whether just these octets are exported of the prefix to the slot's peer.
    fn is_exported_so(
        &self,
        slot: u8,
        peer: &ExportPeer,
        prefix: Prefix,
        octets: &Octets,
        other: &mut Octets,
    ) -> bool
        requires { Some peer.now ≡ option_map (export_peer_of self.now.conf slot) (peer_at self.now.conf slot) }
        ensures same { OnTrue result (export_of self.now slot prefix ≡ Some octets.now.items) }
        ensures other { OnFalse result (export_of self.now slot prefix ≢ Some octets.now.items) }
    {
        self.export(peer, prefix, other) && other.as_slice() == octets.as_slice()
    }
}

// Whether these octets of the prefix are new to the slot's peer: it doesn't hold just them, or has asked for them again.
fn is_new_to<A: Allocator + Clone, B: Book<A>>(
    adj_out: &AdjOut<'_, A, B>,
    prefix: Prefix,
    octets: &Octets,
) -> bool
    ensures yes { OnTrue result ((l : Linked) → l.adj_out ≡ adj_out.now → IsNewTo l prefix (Some octets.now.items)) }
    ensures no { OnFalse result ((l : Linked) → l.adj_out ≡ adj_out.now → IsNewTo l prefix (Some octets.now.items) → ⊥) }
{
    !adj_out.has_just(prefix, octets.as_slice())
}
