//! The tables that routes go through: the routes that came with Loc-RIB, and what waits of each prefix for each peer.
ghost use Rattle.std.specs.Prelude.{IsTrue, ◌↔◌, ◌≡◌, ◌==◌, ◌&&◌, ◌||◌, Option, ◌<◌, ◌≤◌, ◌+◌, ◌-◌, ◌≢◌, ◌⊎◌, not, ℕ, Bool, List, [], All, IfOk, OnOk, OnErr, IfSome, IfNone, None, Some, true, false, if◌then◌else◌};
ghost use Rattle.std.specs.Option.{IsSome, option_copied};
ghost use Rattle.std.specs.Ordering.{is_gt};
ghost use Rattle.bgp_conf.specs.Configuration.{peer_at};
ghost use Rattle.bgp_conf.specs.PeerPolicies.{exports_by};
ghost use Rattle.policy.specs.PolicyNames.{is_policy_name, name_of};
ghost use Rattle.decision.specs.BookContents.{AreApart, BookState, changed, is_prefix, offer_at, rows_of};
ghost use Rattle.net_prefix.specs.PrefixOrder.{IsAbove, prefix_cmp};
ghost use Rattle.net_prefix.specs.declared.prefix.Prefix.{Prefix as ThePrefix};
ghost use Rattle.rib_in.specs.LatestRoutes.{RouteTable, is_route, route_at};
ghost use Rattle.rib_out.specs.Alike.{IsListed, is_listed};
ghost use Rattle.rib_out.specs.Slots.{has_slot};
ghost use Rattle.rib_out.specs.Held.{held_at, is_among};
ghost use Rattle.rib_out.specs.Waiting.{IsAwaited};
ghost use Rattle.rib_out.specs.declared.marks.Owed.TheVariants.{Announcement};
ghost use Rattle.routing.specs.Chosen.{Ends};
ghost use Rattle.routing.specs.Linked.{Linked, adj_out_after};
ghost use Rattle.rib_out.specs.declared.marks.Owed.{Owed as TheOwed};
ghost use Rattle.routing.specs.Marks.{IsMarked, IsMarkedSo, IsNextOf, lesser, mark_of};
ghost use Rattle.routing.specs.MarksIn.{AreFewIn, AreMarkedButIn, AreMarkedForIn, AreMarkedIn, IsNextMarkedIn, IsNextOwedIn, IsUnmarkedIn, mark_in};
ghost use Rattle.loc_rib.specs.SentTables.{sent_to};
ghost use Rattle.routing.specs.Sent.{linked, peer_in};
ghost use Rattle.bgp_peer.specs.Slot.{Slot};
ghost use Rattle.routing.specs.RoutingState.{started, with_waiting};
ghost use Rattle.routing.specs.Export.{chosen_in};
ghost use Rattle.routing.specs.Tables.{best_at, link_at};

use crate::exports::{Chosen, Octets, chosen_route, export, export_chosen, export_peer, place};
use bgp_attr::Attrs;
use bgp_conf::Conf;
use bgp_fsm::{Effects, State};
use bgp_peer::Peer;
use decision::{Book, Candidate, Change};
use loc_rib::{AdjOut, Ribs};
use net_prefix::Prefix;
use rib_out::{AlikePrefixes, Owed, Waiting};
use std::alloc::{AllocError, Allocator};
use std::collections::BTreeMap;
use std::marker::Model;
use std::rc::Rc;

/// The slots, by their numbers.
pub type Links<A> = BTreeMap<u8, Peer<A>, A>;

/// The routes that came, the candidates that they make with Loc-RIB, what each peer was sent, and what waits for each
/// Established peer: of each prefix a withdrawal, an announcement or nothing. What waits to be announced is listed by the
/// octets that are written. Where memory was refused to a slot's queue, what waits for it is found in the tables.
#[derive(Drop)]
pub struct Routing<A: Allocator + Clone, B: Book<A>> {
    pub(crate) ribs: Ribs<A, B>,
    waiting: Waiting<A>,
    alike: AlikePrefixes<A>,
    // What is exported of a prefix while it is marked.
    exported: Octets,
}

impl<A: Allocator + Clone, B: Book<A>> Model for Routing<A, B> {
    ghost use Rattle.routing.specs.RoutingState.{RoutingState};

    ghost Value = { RoutingState };

    ghost view = { λ t. record { adj_in = t.ribs.adj_in; book = t.ribs.book; chosen = t.ribs.chosen; sent = t.ribs.sent; waiting = t.waiting; alike = t.alike } };
}

impl<A: Allocator + Clone, B: Book<A>> Routing<A, B> {
    /// No routes, and nothing waits.
    pub fn new(alloc: A) -> Result<Self, AllocError>
        ensures state { IfOk result (λ t. t ≡ started t.sent t.waiting t.alike) }
        ensures sent { IfOk result (λ t. (s : ℕ) → sent_to t.sent s ≡ []) }
        ensures waiting { IfOk result (λ t. (s : ℕ) (p : ThePrefix) → IsAwaited t.waiting s p None) }
        ensures none { IfOk result (λ t. (s : ℕ) (o : List ℕ) (p : ThePrefix) → is_listed t.alike s o p ≡ false) }
        ensures whole { IfOk result (λ t. (s : ℕ) → s < 64 → has_slot t.alike.whole s ≡ true) }
    {
        let waiting = Waiting::new(alloc.clone()?)?;
        let alike = AlikePrefixes::new(alloc.clone()?)?;
        let ribs = Ribs::new(alloc)?;
        Ok(Routing {
            ribs,
            waiting,
            alike,
            exported: Octets::new(),
        })
    }

    /// The slot's route to the prefix is this one from now on, and makes this candidate; each Established peer waits
    /// for what it is owed of it. Where memory is refused, all is as before.
    pub fn announce(
        &mut self,
        conf: &Conf<A>,
        links: &Links<A>,
        slot: u8,
        prefix: Prefix,
        attrs: Rc<Attrs<A>, A>,
        candidate: Option<Candidate>,
    ) -> Result<(), AllocError>
        requires named { IfSome candidate (λ c. c.slot ≡ slot) }
        requires apart { AreApart (λ s. if slot == s then candidate else offer_at self.old.book s prefix) }
        requires marked { AreMarkedIn conf.now links.now.entries self.old }
        ensures routes { OnOk result ((s : ℕ) (p : ThePrefix) → route_at self.new.adj_in s p ≡ (if is_route slot prefix s p then Some attrs.value else route_at self.old.adj_in s p)) }
        ensures offers { OnOk result ((s : ℕ) (p : ThePrefix) → offer_at self.new.book s p ≡ (if is_route slot prefix s p then candidate else offer_at self.old.book s p)) }
        ensures err { OnErr result (((s : ℕ) (p : ThePrefix) → route_at self.new.adj_in s p ≡ route_at self.old.adj_in s p) × ((s : ℕ) (p : ThePrefix) → offer_at self.new.book s p ≡ offer_at self.old.book s p) × (rows_of self.new.book ≡ rows_of self.old.book)) }
        // A route that replaces another takes no memory.
        ensures absent { OnErr result (route_at self.old.adj_in slot prefix ≡ None) }
        // A best route is chosen once at most, and never where the candidate stays or memory is refused.
        ensures chosen { self.new.chosen ≤ self.old.chosen + 1 }
        ensures same { offer_at self.old.book slot prefix ≡ candidate → self.new.chosen ≡ self.old.chosen }
        ensures refused { OnErr result (self.new.chosen ≡ self.old.chosen) }
        ensures rises { self.old.chosen ≤ self.new.chosen }
        ensures sent { self.new.sent ≡ self.old.sent }
        ensures marked { AreMarkedIn conf.now links.now.entries self.new }
    {
        self.unlist(conf, links, prefix);
        let announced = self.ribs.announce(slot, prefix, attrs, candidate);
        self.mark_peers(conf, links, prefix);
        announced
    }

    /// A slot without a route to the prefix has this one from now on, which makes no candidate yet. Where it has one nothing
    /// changes, and the attributes come back. Where memory is refused, all is as before.
    pub fn bring(
        &mut self,
        conf: &Conf<A>,
        links: &Links<A>,
        slot: u8,
        prefix: Prefix,
        attrs: Rc<Attrs<A>, A>,
    ) -> Result<Option<Rc<Attrs<A>, A>>, AllocError>
        requires marked { AreMarkedIn conf.now links.now.entries self.old }
        ensures absent { IfOk result (λ back. IfNone back (route_at self.old.adj_in slot prefix ≡ None)) }
        ensures routes { IfOk result (λ back. IfNone back ((s : ℕ) (p : ThePrefix) → route_at self.new.adj_in s p ≡ (if is_route slot prefix s p then Some attrs.value else route_at self.old.adj_in s p))) }
        ensures back { IfOk result (λ back. IfSome back (λ other. (self.new ≡ self.old) × (other.value ≡ attrs.value) × IsSome (route_at self.old.adj_in slot prefix))) }
        ensures err { OnErr result ((s : ℕ) (p : ThePrefix) → route_at self.new.adj_in s p ≡ route_at self.old.adj_in s p) }
        // A slot that has a route takes no memory.
        ensures lacked { OnErr result (route_at self.old.adj_in slot prefix ≡ None) }
        ensures offers { (s : ℕ) (p : ThePrefix) → offer_at self.new.book s p ≡ offer_at self.old.book s p }
        ensures chosen { self.new.chosen ≡ self.old.chosen }
        ensures sent { self.new.sent ≡ self.old.sent }
        ensures marked { AreMarkedIn conf.now links.now.entries self.new }
    {
        self.ribs.bring(slot, prefix, attrs)
    }

    /// The slot has no route to the prefix any more.
    pub fn withdraw(&mut self, conf: &Conf<A>, links: &Links<A>, slot: u8, prefix: Prefix)
        requires { AreMarkedIn conf.now links.now.entries self.old }
        ensures routes { (s : ℕ) (p : ThePrefix) → route_at self.new.adj_in s p ≡ (if is_route slot prefix s p then None else route_at self.old.adj_in s p) }
        ensures offers { (s : ℕ) (p : ThePrefix) → offer_at self.new.book s p ≡ (if is_route slot prefix s p then None else offer_at self.old.book s p) }
        ensures chosen { self.new.chosen ≤ self.old.chosen + 1 }
        ensures unrouted { route_at self.old.adj_in slot prefix ≡ None → self.new.chosen ≡ self.old.chosen }
        ensures never { offer_at self.old.book slot prefix ≡ None → self.new.chosen ≡ self.old.chosen }
        ensures rises { self.old.chosen ≤ self.new.chosen }
        ensures sent { self.new.sent ≡ self.old.sent }
        ensures marked { AreMarkedIn conf.now links.now.entries self.new }
    {
        if self.ribs.route(slot, prefix).is_none() {
            return;
        }
        self.unlist(conf, links, prefix);
        self.ribs.withdraw(slot, prefix);
        self.mark_peers(conf, links, prefix);
    }

    /// The slot's session has ended: none of its routes is kept.
    pub fn drop_slot(&mut self, conf: &Conf<A>, links: &Links<A>, slot: u8)
        requires { AreMarkedIn conf.now links.now.entries self.old }
        ensures routes { (s : ℕ) (p : ThePrefix) → route_at self.new.adj_in s p ≡ (if s == slot then None else route_at self.old.adj_in s p) }
        ensures offers { (s : ℕ) (p : ThePrefix) → offer_at self.new.book s p ≡ (if s == slot then None else offer_at self.old.book s p) }
        // A best route is chosen once at most for each prefix to which the slot had a route.
        ensures chosen { Ends slot self.old.adj_in self.old.chosen self.new.chosen }
        ensures rises { self.old.chosen ≤ self.new.chosen }
        ensures sent { self.new.sent ≡ self.old.sent }
        ensures marked { AreMarkedIn conf.now links.now.entries self.new }
    {
        let mut after = None;
        while let Some(prefix) = self.ribs.slot_prefix_after(slot, after) {
            self.withdraw(conf, links, slot, prefix);
            // Places rise, so the walk ends.
            let _place = place(prefix);
            after = Some(prefix);
        }
        // No candidate is left without a route.
        self.ribs.is_chosen();
    }

    /// Changes candidates of routes to a prefix, and chooses its best one again.
    pub fn change(&mut self, conf: &Conf<A>, links: &Links<A>, prefix: Prefix, changes: &[Change])
        requires routed { All (λ c. IsSome (route_at self.old.adj_in c.slot prefix)) changes.now }
        requires named { All (λ c. IfSome c.candidate (λ route. route.slot ≡ c.slot)) changes.now }
        requires apart { AreApart (λ s. changed changes.now s (offer_at self.old.book s prefix)) }
        requires marked { AreMarkedIn conf.now links.now.entries self.old }
        ensures routes { self.new.adj_in ≡ self.old.adj_in }
        ensures offers { (s : ℕ) (p : ThePrefix) → offer_at self.new.book s p ≡ (if is_prefix prefix p then changed changes.now s (offer_at self.old.book s p) else offer_at self.old.book s p) }
        ensures chosen { self.new.chosen ≤ self.old.chosen + 1 }
        ensures same { ((s : ℕ) → changed changes.now s (offer_at self.old.book s prefix) ≡ offer_at self.old.book s prefix) → self.new.chosen ≡ self.old.chosen }
        ensures rises { self.old.chosen ≤ self.new.chosen }
        ensures sent { self.new.sent ≡ self.old.sent }
        ensures marked { AreMarkedIn conf.now links.now.entries self.new }
    {
        self.unlist(conf, links, prefix);
        self.ribs.change(prefix, changes);
        self.mark_peers(conf, links, prefix);
    }

    /// What the slot's peer holds.
    pub fn held(&self, slot: u8) -> AdjOut<'_, A, B>
        requires { slot < 64 }
        ensures { result ≡ sent_to self.now.sent slot }
    {
        self.ribs.adj_out(slot)
    }

    /// The slot's peer holds nothing.
    pub fn forget(&mut self, slot: u8)
        ensures sent { (s : ℕ) → sent_to self.new.sent s ≡ (if s == slot then [] else sent_to self.old.sent s) }
        ensures rest { self.new ≡ record self.old { sent = self.new.sent } }
    {
        self.ribs.clear_sent(slot);
    }

    /// The slot's session has taken an input with these effects: entering Established begins with nothing sent, and leaving
    /// it forgets what was sent. A peer that asks for all routes again asks for each prefix that it holds.
    pub fn follow(&mut self, slot: u8, effects: &Effects<'_>)
        requires { slot < 64 }
        ensures sent { (s : ℕ) → sent_to self.new.sent s ≡ (if s == slot then adj_out_after effects.now (sent_to self.old.sent s) else sent_to self.old.sent s) }
        ensures rest { self.new ≡ record self.old { sent = self.new.sent } }
    {
        if effects.left || effects.entered {
            self.ribs.clear_sent(slot);
        } else if effects.refreshed {
            self.ribs.ask_sent(slot);
        }
    }

    /// Nothing waits for the slot.
    pub fn clear(&mut self, slot: u8)
        requires { slot < 64 }
        ensures none { (p : ThePrefix) → IsAwaited self.new.waiting slot p None }
        ensures others { (s : ℕ) (p : ThePrefix) (w : Option TheOwed) → s ≢ slot → IsAwaited self.old.waiting s p w → IsAwaited self.new.waiting s p w }
        ensures listed { (s : ℕ) (o : List ℕ) (p : ThePrefix) → s ≢ slot → IsListed self.old.alike s o p → IsListed self.new.alike s o p }
        ensures rest { self.new ≡ record self.old { waiting = self.new.waiting; alike = self.new.alike } }
    {
        self.waiting.clear(slot);
        self.alike.clear(slot);
    }

    /// The slot's session has entered Established: its peer waits for all that is exported to it.
    pub fn enter(&mut self, conf: &Conf<A>, links: &Links<A>, slot: u8)
        requires slot { slot < 64 }
        requires fresh { (l : Linked) → link_at (linked links.now.entries self.old.sent) slot ≡ Some l → l.adj_out ≡ [] }
        requires unmarked { IsUnmarkedIn conf.now links.now.entries slot self.old }
        ensures rest { self.new ≡ record self.old { waiting = self.new.waiting; alike = self.new.alike } }
        ensures marked { AreMarkedIn conf.now links.now.entries self.new }
    {
        self.mark_slot(conf, links, slot);
    }

    /// The peers that are told routes by the policy of this name wait for what they are owed by its rules.
    pub fn mark_exporters(&mut self, conf: &Conf<A>, links: &Links<A>, name: &str)
        requires name { is_policy_name name.now ≡ true }
        requires marked { AreMarkedForIn (λ s. not (exports_by conf.now s (name_of name.now))) conf.now links.now.entries self.old }
        ensures rest { self.new ≡ record self.old { waiting = self.new.waiting; alike = self.new.alike } }
        ensures marked { AreMarkedIn conf.now links.now.entries self.new }
    {
        for slot in 0..slots_end(links) {
            self.mark_exporter(conf, links, slot, name);
        }
    }

    // The same of one slot's peer, where it is told routes by that policy.
    fn mark_exporter(&mut self, conf: &Conf<A>, links: &Links<A>, slot: u8, name: &str)
        requires name { is_policy_name name.now ≡ true }
        requires slot { slot < 64 }
        ensures rest { self.new ≡ record self.old { waiting = self.new.waiting; alike = self.new.alike } }
        ensures marked { (done : ℕ → Bool) → (exports_by conf.now slot (name_of name.now) ≡ false → done slot ≡ true) → AreMarkedForIn done conf.now links.now.entries self.old
            → AreMarkedForIn (λ s. s == slot || done s) conf.now links.now.entries self.new }
    {
        if conf.exports_by(slot, name) {
            self.mark_slot(conf, links, slot);
        }
    }

    /// The slot's peer waits for what it is owed of each prefix with a best route, whatever was marked.
    pub fn mark_slot(&mut self, conf: &Conf<A>, links: &Links<A>, slot: u8)
        requires { slot < 64 }
        ensures rest { self.new ≡ record self.old { waiting = self.new.waiting; alike = self.new.alike } }
        ensures marked { (done : ℕ → Bool) → AreMarkedForIn done conf.now links.now.entries self.old
            → AreMarkedForIn (λ s. s == slot || done s) conf.now links.now.entries self.new }
    {
        self.alike.clear(slot);
        let mut octets = Octets::new();
        let mut after = None;
        while let Some(prefix) = self.ribs.prefix_after(after) {
            self.mark(conf, links, slot, prefix, &mut octets);
            // Places rise, so the walk ends.
            let _place = place(prefix);
            after = Some(prefix);
        }
    }

    /// The slot's peer was told what it was owed of these prefixes.
    pub fn told_all(&mut self, slot: u8, prefixes: &[Prefix])
        requires slot { slot < 64 }
        ensures told { (p : ThePrefix) → is_among p prefixes.now ≡ true → IsAwaited self.new.waiting slot p None }
        ensures others { (s : ℕ) (p : ThePrefix) (w : Option TheOwed) → (s == slot && is_among p prefixes.now) ≡ false → IsAwaited self.old.waiting s p w → IsAwaited self.new.waiting s p w }
        ensures rest { self.new ≡ record self.old { waiting = self.new.waiting } }
    {
        for prefix in prefixes {
            self.waiting.set(slot, *prefix, None);
        }
    }

    /// The slot's peer was told routes to these prefixes with these octets of attributes.
    pub fn announced_all(&mut self, slot: u8, octets: &[u8], prefixes: &[Prefix])
        requires slot { slot < 64 }
        ensures told { (p : ThePrefix) → is_among p prefixes.now ≡ true → IsAwaited self.new.waiting slot p None }
        ensures others { (s : ℕ) (p : ThePrefix) (w : Option TheOwed) → (s == slot && is_among p prefixes.now) ≡ false → IsAwaited self.old.waiting s p w → IsAwaited self.new.waiting s p w }
        // What still waits to be announced is still listed.
        ensures listed { (s : ℕ) (o : List ℕ) (p : ThePrefix) → (s == slot && is_among p prefixes.now) ≡ false → IsAwaited self.new.waiting s p (Some Announcement) → IsListed self.old.alike s o p → IsListed self.new.alike s o p }
        ensures rest { self.new ≡ record self.old { waiting = self.new.waiting; alike = self.new.alike } }
    {
        self.told_all(slot, prefixes);
        self.alike.unlist_all(slot, octets, prefixes);
        self.renew_list(slot);
    }

    // Where memory was refused to the slot's list, it begins anew as soon as nothing waits to be announced.
    fn renew_list(&mut self, slot: u8)
        requires { slot < 64 }
        ensures listed { (s : ℕ) (o : List ℕ) (p : ThePrefix) → IsAwaited self.old.waiting s p (Some Announcement) → IsListed self.old.alike s o p → IsListed self.new.alike s o p }
        ensures rest { self.new ≡ record self.old { alike = self.new.alike } }
    {
        if self.alike.is_whole(slot) {
            return;
        }
        if !self.waiting.is_whole(slot) {
            return;
        }
        if self.waiting.next(slot, Owed::Announcement, None).is_none() {
            self.alike.clear(slot);
        }
    }

    /// The least prefix above the given one, or of all, of which this waits for the slot. It is found soon in the slot's
    /// queue. Where that was lost, all that has a best route or is held is gone through.
    pub fn next(
        &self,
        conf: &Conf<A>,
        links: &Links<A>,
        slot: u8,
        owed: Owed,
        after: Option<Prefix>,
    ) -> Option<Prefix>
        requires slot { slot < 64 }
        requires marked { AreMarkedIn conf.now links.now.entries self.now }
        ensures { IsNextOwedIn conf.now links.now.entries self.now slot owed after result }
    {
        if self.waiting.is_whole(slot) {
            self.waiting.next(slot, owed, after)
        } else {
            self.next_of_all(conf, links, slot, owed, after)
        }
    }

    // The same, where all that has a best route or is held is gone through.
    fn next_of_all(
        &self,
        conf: &Conf<A>,
        links: &Links<A>,
        slot: u8,
        wanted: Owed,
        after: Option<Prefix>,
    ) -> Option<Prefix>
        requires { slot < 64 }
        ensures { IsNextOwedIn conf.now links.now.entries self.now slot wanted after result }
    {
        let peer = links.get(&slot)?;
        let adj_out = self.ribs.adj_out(slot);
        let mut octets = Octets::new();
        let mut last = after;
        while let Some(prefix) = self.possible(&adj_out, last) {
            let chosen = chosen_route(&self.ribs, prefix);
            let due = owed(
                conf,
                chosen.as_ref(),
                slot,
                peer,
                &adj_out,
                prefix,
                &mut octets,
            );
            if is_wanted(due, wanted) {
                return Some(prefix);
            }
            // Places rise, so the walk ends.
            let _place = place(prefix);
            last = Some(prefix);
        }
        None
    }

    // The least prefix above the given one, or of all, that has a best route or is held.
    fn possible(&self, adj_out: &AdjOut<'_, A, B>, after: Option<Prefix>) -> Option<Prefix>
        ensures { IsNextOf (λ q. IsSome (best_at (rows_of self.now.book) q) ⊎ IsSome (held_at adj_out.now q)) after result }
    {
        lesser(self.ribs.prefix_after(after), adj_out.prefix_after(after))
    }

    /// The least prefix above the given one, or of all, of which something waits for the slot.
    pub fn next_owed(
        &self,
        conf: &Conf<A>,
        links: &Links<A>,
        slot: u8,
        after: Option<Prefix>,
    ) -> Option<Prefix>
        requires slot { slot < 64 }
        requires marked { AreMarkedIn conf.now links.now.entries self.now }
        ensures { IsNextMarkedIn conf.now links.now.entries self.now slot after result }
    {
        lesser(
            self.next(conf, links, slot, Owed::Withdrawal, after),
            self.next(conf, links, slot, Owed::Announcement, after),
        )
    }

    /// Where the slot's queue was lost and nothing is owed to its peer any more, it is whole again.
    pub fn renew_queue(&mut self, conf: &Conf<A>, links: &Links<A>, slot: u8)
        requires slot { slot < 64 }
        requires marked { AreMarkedIn conf.now links.now.entries self.old }
        ensures marked { AreMarkedIn conf.now links.now.entries self.new }
        ensures rest { self.new ≡ record self.old { waiting = self.new.waiting } }
    {
        if self.waiting.is_whole(slot) {
            return;
        }
        if self.next_owed(conf, links, slot, None).is_none() {
            self.waiting.clear(slot);
        }
    }

    /// A prefix above the given one, below which none waits to be announced to the slot with these octets of attributes:
    /// the next that is listed by them, or the next that waits at all, where the slot's list isn't whole.
    pub fn possible_after(
        &self,
        conf: &Conf<A>,
        links: &Links<A>,
        slot: u8,
        octets: &[u8],
        after: Prefix,
    ) -> Option<Prefix>
        requires slot { slot < 64 }
        requires marked { AreMarkedIn conf.now links.now.entries self.now }
        ensures above { IfSome result (λ p. IsAbove (Some after) p) }
        ensures least { IfSome result (λ p. (q : ThePrefix) → IsAbove (Some after) q → IsMarkedSo (mark_in conf.now links.now.entries self.now slot q) octets.now → is_gt (prefix_cmp p q) ≡ false) }
        ensures none { IfNone result ((q : ThePrefix) → IsAbove (Some after) q → IsMarkedSo (mark_in conf.now links.now.entries self.now slot q) octets.now → ⊥) }
    {
        if self.alike.is_whole(slot) {
            self.alike.next(slot, octets, after)
        } else {
            self.next(conf, links, slot, Owed::Announcement, Some(after))
        }
    }

    /// Adj-RIB-In with Loc-RIB, and what each peer was sent.
    pub fn ribs(&self) -> &Ribs<A, B>
        ensures { result.now ≡ record { adj_in = self.now.adj_in; book = self.now.book; chosen = self.now.chosen; sent = self.now.sent } }
    {
        &self.ribs
    }

    /// How often a best route was chosen so far, up to 2^64 - 1.
    pub fn chosen(&self) -> u64
        ensures { result ≡ self.now.chosen }
    {
        self.ribs.chosen()
    }

    // Where the prefix waits to be announced, it isn't listed any more by what is exported of it.
    fn unlist(&mut self, conf: &Conf<A>, links: &Links<A>, prefix: Prefix)
        requires { AreFewIn links.now.entries self.old }
        ensures listed { (s : ℕ) (o : List ℕ) (p : ThePrefix) → is_prefix prefix p ≡ false → IsListed self.old.alike s o p → IsListed self.new.alike s o p }
        ensures rest { self.new ≡ record self.old { alike = self.new.alike } }
    {
        for slot in 0..slots_end(links) {
            if self.waiting.is_queued(slot, Owed::Announcement, prefix) {
                self.unlist_for(conf, slot, prefix);
            }
        }
    }

    // The same of one slot.
    fn unlist_for(&mut self, conf: &Conf<A>, slot: u8, prefix: Prefix)
        requires { slot < 64 }
        ensures listed { (s : ℕ) (o : List ℕ) (p : ThePrefix) → is_prefix prefix p ≡ false → IsListed self.old.alike s o p → IsListed self.new.alike s o p }
        ensures rest { self.new ≡ record self.old { alike = self.new.alike } }
    {
        let Some(peer) = export_peer(conf, slot) else {
            return;
        };
        let mut octets = Octets::new();
        if export(conf, &self.ribs, &peer, prefix, &mut octets) {
            self.alike.unlist(slot, octets.as_slice(), prefix);
        }
    }

    // What the prefix's new routes and best one make wait for each peer.
    fn mark_peers(&mut self, conf: &Conf<A>, links: &Links<A>, prefix: Prefix)
        requires { AreMarkedButIn prefix conf.now links.now.entries self.old }
        ensures marked { AreMarkedIn conf.now links.now.entries self.new }
        ensures rest { self.new ≡ record self.old { waiting = self.new.waiting; alike = self.new.alike } }
    {
        mark_each(
            &self.ribs,
            &mut self.waiting,
            &mut self.alike,
            conf,
            links,
            prefix,
            &mut self.exported,
        );
    }

    // What of the prefix waits for the slot's peer, where there is one. What waits to be announced is listed.
    fn mark(
        &mut self,
        conf: &Conf<A>,
        links: &Links<A>,
        slot: u8,
        prefix: Prefix,
        octets: &mut Octets,
    )
        requires { slot < 64 }
        ensures here { IsMarked (mark_in conf.now links.now.entries self.old slot prefix) self.new slot prefix }
        ensures others { (s : ℕ) (p : ThePrefix) (w : Option TheOwed) → (s == slot && is_prefix prefix p) ≡ false → IsAwaited self.old.waiting s p w → IsAwaited self.new.waiting s p w }
        ensures listed { (s : ℕ) (o : List ℕ) (p : ThePrefix) → IsListed self.old.alike s o p → IsListed self.new.alike s o p }
        ensures rest { self.new ≡ record self.old { waiting = self.new.waiting; alike = self.new.alike } }
    {
        let chosen = chosen_route(&self.ribs, prefix);
        let owed = list(
            &mut self.alike,
            conf,
            links,
            &self.ribs,
            slot,
            prefix,
            chosen.as_ref(),
            octets,
        );
        self.waiting.set(slot, prefix, owed);
    }
}

/// The number behind that of the last slot; 0 where there is none.
pub fn slots_end<A: Allocator + Clone>(links: &Links<A>) -> u8
    requires { (s : ℕ) (l : Slot) → peer_in links.now.entries s ≡ Some l → s < 64 }
    ensures none { (s : ℕ) → result ≤ s → s < 64 → peer_in links.now.entries s ≡ None }
    ensures last { 0 < result → IsSome (peer_in links.now.entries (result - 1)) }
    ensures within { result ≤ 64 }
{
    match links.last_key_value() {
        Some((slot, _)) => *slot + 1,
        None => 0,
    }
}

// What the prefix's routes and its best one make wait for each peer.
fn mark_each<A: Allocator + Clone, B: Book<A>>(
    ribs: &Ribs<A, B>,
    waiting: &mut Waiting<A>,
    alike: &mut AlikePrefixes<A>,
    conf: &Conf<A>,
    links: &Links<A>,
    prefix: Prefix,
    octets: &mut Octets,
)
    requires { AreMarkedButIn prefix conf.now links.now.entries (with_waiting ribs.now waiting.old alike.old) }
    ensures { AreMarkedIn conf.now links.now.entries (with_waiting ribs.now waiting.new alike.new) }
{
    let chosen = chosen_route(ribs, prefix);
    for slot in 0..slots_end(links) {
        let owed = list(
            alike,
            conf,
            links,
            ribs,
            slot,
            prefix,
            chosen.as_ref(),
            octets,
        );
        waiting.set(slot, prefix, owed);
    }
}

// What of the prefix, with this best route, is owed to the slot's peer, where there is one. What is to be announced is listed.
fn list<A: Allocator + Clone, B: Book<A>>(
    alike: &mut AlikePrefixes<A>,
    conf: &Conf<A>,
    links: &Links<A>,
    ribs: &Ribs<A, B>,
    slot: u8,
    prefix: Prefix,
    chosen: Option<&Chosen<'_, A>>,
    octets: &mut Octets,
) -> Option<Owed>
    requires { slot < 64 }
    ensures owed { (adj_in : RouteTable) (book : BookState) → option_copied chosen.entry ≡ chosen_in (best_at (rows_of book)) adj_in prefix
        → result ≡ (mark_of conf.now adj_in book slot prefix (peer_at conf.now slot) (link_at (linked links.now.entries ribs.now.sent) slot)).owed }
    ensures here { (adj_in : RouteTable) (book : BookState) → option_copied chosen.entry ≡ chosen_in (best_at (rows_of book)) adj_in prefix
        → result ≡ Some Announcement → IsListed alike.new slot (mark_of conf.now adj_in book slot prefix (peer_at conf.now slot) (link_at (linked links.now.entries ribs.now.sent) slot)).octets prefix }
    ensures listed { (s : ℕ) (o : List ℕ) (p : ThePrefix) → IsListed alike.old s o p → IsListed alike.new s o p }
{
    let peer = links.get(&slot)?;
    let adj_out = ribs.adj_out(slot);
    let owed = owed(conf, chosen, slot, peer, &adj_out, prefix, octets);
    if owed == Some(Owed::Announcement) {
        alike.list(slot, octets.as_slice(), prefix);
    }
    owed
}

// What of the prefix, with this best route, is owed to the slot's peer: nothing, where its session isn't Established. Where it
// is to be announced, `octets` are what is exported.
fn owed<A: Allocator + Clone, B: Book<A>>(
    conf: &Conf<A>,
    chosen: Option<&Chosen<'_, A>>,
    slot: u8,
    peer: &Peer<A>,
    adj_out: &AdjOut<'_, A, B>,
    prefix: Prefix,
    octets: &mut Octets,
) -> Option<Owed>
    ensures owed { (adj_in : RouteTable) (book : BookState) → option_copied chosen.entry ≡ chosen_in (best_at (rows_of book)) adj_in prefix
        → result ≡ (mark_of conf.now adj_in book slot prefix (peer_at conf.now slot) (Some (record { peer = peer.now; adj_out = adj_out.now }))).owed }
    ensures octets { (adj_in : RouteTable) (book : BookState) → option_copied chosen.entry ≡ chosen_in (best_at (rows_of book)) adj_in prefix
        → result ≡ Some Announcement → octets.new.items ≡ (mark_of conf.now adj_in book slot prefix (peer_at conf.now slot) (Some (record { peer = peer.now; adj_out = adj_out.now }))).octets }
{
    let export_peer = export_peer(conf, slot)?;
    if peer.state() != State::Established {
        return None;
    }
    let is_exported = match chosen {
        Some(chosen) => export_chosen(conf, chosen, &export_peer, prefix, octets),
        None => false,
    };
    if !is_exported {
        if adj_out.is_held(prefix) {
            return Some(Owed::Withdrawal);
        }
        return None;
    }
    if adj_out.holds(prefix, octets.as_slice()) && !adj_out.is_asked(prefix) {
        return None;
    }
    Some(Owed::Announcement)
}

// Whether this is owed.
fn is_wanted(owed: Option<Owed>, wanted: Owed) -> bool
    ensures { IsTrue result ↔ (owed ≡ Some wanted) }
{
    match owed {
        Some(found) => found == wanted,
        None => false,
    }
}

// The lesser of two prefixes, or the one that there is.
fn lesser(one: Option<Prefix>, other: Option<Prefix>) -> Option<Prefix>
    ensures { result ≡ lesser one other }
{
    let Some(first) = one else {
        return other;
    };
    let Some(second) = other else {
        return one;
    };
    if second < first { other } else { one }
}
