//! Adj-RIB-In, Loc-RIB and Adj-RIB-Out (RFC 4271 section 3.2): the peers' latest routes, the candidates that they make,
//! the best route of each prefix, and what the peers hold.
ghost use Rattle.std.specs.Prelude.{◌≡◌, ◌≢◌, ◌<◌, ◌==◌, ℕ, [], true, false, All, IfOk, IsTrue, MatchBool, OnOk, OnErr, None, Some, length, if◌then◌else◌};
ghost use Rattle.std.specs.List.Sorted.{IsStrictlySortedBy};
ghost use Rattle.std.specs.Map.{keys_of, lookup};
ghost use Rattle.std.specs.Option.{IfNone, IfSome, IsSome, option_copied};
ghost use Rattle.std.specs.Ordering.{is_gt};
ghost use Rattle.std.specs.declared.cmp.Ordering.TheVariants.{Less};
ghost use Rattle.decision.specs.BookContents.{AreApart, IsBestOf, best_at, changed, first_after, is_prefix, kept_at, offer_at, rows_of};
ghost use Rattle.decision.specs.declared.candidate.Candidate.{Candidate as TheCandidate};
ghost use Rattle.net_prefix.specs.PrefixOrder.{IsAbove, prefix_cmp};
ghost use Rattle.net_prefix.specs.declared.prefix.Prefix.{Prefix as ThePrefix};
ghost use Rattle.rib_in.specs.LatestRoutes.{HasRoute, is_route, route_at, routes_of};
ghost use Rattle.prefix_trie.specs.TrieMap.{IsRising, found};
ghost use Rattle.prefix_trie.specs.TrieWalks.{IsNext, all_after};
ghost use Rattle.rib_out.specs.Held.{all_asked, asked_at, held_at, is_among};
ghost use Rattle.holdings.specs.Holdings.{held_by};
ghost use Rattle.prefix_table.specs.Picked.{picked};
ghost use Rattle.rib_rows.specs.PrefixRows.{adj_in_of, book_of};
ghost use Rattle.rib_rows.specs.Records.{routed};
ghost use Rattle.loc_rib.specs.RibTables.{CountsAnother, CountsOne, RisesBy, started};
ghost use Rattle.loc_rib.specs.SentTables.{sent_to};

use crate::adj_out::AdjOut;
use crate::rows::Rows;
use crate::sent::{drop_all, hold_all, ready_all, renew_all, tidy_all};
use crate::sent_marks::SentMarks;
use crate::slot_routes::SlotRoutes;
use bgp_attr::Attrs;
use decision::{Book, Candidate, Change, Meter};
use holdings::SentAttributes;
use net_prefix::Prefix;
use rib_rows::{
    RecordMap, RecordRange, announce_in, ask_in, bring_in, change_in, clear_in, first_best,
    first_of_slot, first_routed, withdraw_in,
};
use std::alloc::{AllocError, Allocator};
use std::marker::Model;
use std::rc::Rc;

/// The routes that came, the candidates that they make, the best of each prefix, and what the peers hold.
#[derive(Drop)]
pub struct Ribs<A: Allocator + Clone, B: Book<A>> {
    rows: RecordMap<A, B>,
    // Of the records, and of the routes to one prefix and what is held of it but the first.
    alloc: A,
    meter: Meter,
    marks: SentMarks,
}

impl<A: Allocator + Clone, B: Book<A>> Model for Ribs<A, B> {
    ghost use Rattle.rib_rows.specs.PrefixRows.{adj_in_of, book_of};
    ghost use Rattle.rib_rows.specs.Records.{AreRecords, routed, sent_of};
    ghost use Rattle.loc_rib.specs.RibTables.{RibTables};
    ghost use Rattle.loc_rib.specs.SentTables.{AreMarked};

    ghost Value = { RibTables };

    ghost view = { λ r. record {
      adj_in = adj_in_of (routed r.rows.entries);
      book = book_of (routed r.rows.entries);
      chosen = r.meter.count;
      sent = sent_of r.rows.entries;
    } };

    ghost invariant = { λ r. AreRecords r.rows.entries × AreMarked (sent_of r.rows.entries) r.marks.holders r.marks.askers r.marks.all_asked };
}

impl<A: Allocator + Clone, B: Book<A>> Ribs<A, B> {
    /// No routes, and no peer holds anything.
    pub fn new(alloc: A) -> Result<Self, AllocError>
        ensures { IfOk result (λ ribs. (ribs ≡ record started { sent = ribs.sent }) × ((s : ℕ) → sent_to ribs.sent s ≡ [])) }
    {
        let rows = RecordMap::<A, B>::new(alloc.clone()?)?;
        Ok(Ribs {
            rows,
            alloc,
            meter: Meter::new(),
            marks: SentMarks::new(),
        })
    }

    /// The slot's route to the prefix is this one from now on, and makes this candidate. Where memory is refused, all
    /// is as before.
    pub fn announce(
        &mut self,
        slot: u8,
        prefix: Prefix,
        attrs: Rc<Attrs<A>, A>,
        candidate: Option<Candidate>,
    ) -> Result<(), AllocError>
        requires named { IfSome candidate (λ c. c.slot ≡ slot) }
        requires apart { AreApart (λ s. if slot == s then candidate else offer_at self.old.book s prefix) }
        ensures routes { OnOk result ((s : ℕ) (p : ThePrefix) → route_at self.new.adj_in s p ≡ (if is_route slot prefix s p then Some attrs.value else route_at self.old.adj_in s p)) }
        ensures offers { OnOk result ((s : ℕ) (p : ThePrefix) → offer_at self.new.book s p ≡ (if is_route slot prefix s p then candidate else offer_at self.old.book s p)) }
        ensures err { OnErr result (((s : ℕ) (p : ThePrefix) → route_at self.new.adj_in s p ≡ route_at self.old.adj_in s p) × ((s : ℕ) (p : ThePrefix) → offer_at self.new.book s p ≡ offer_at self.old.book s p) × (rows_of self.new.book ≡ rows_of self.old.book)) }
        ensures others { (p : ThePrefix) → is_prefix prefix p ≡ false → best_at (rows_of self.new.book) p ≡ best_at (rows_of self.old.book) p }
        // A route that replaces another takes no memory.
        ensures absent { OnErr result (route_at self.old.adj_in slot prefix ≡ None) }
        // A best route is chosen once at most, and never where the candidate stays or memory is refused.
        ensures chosen { RisesBy 1 self.old self.new }
        ensures another { OnOk result (CountsAnother prefix self.old self.new) }
        ensures same { offer_at self.old.book slot prefix ≡ candidate → self.new.chosen ≡ self.old.chosen }
        ensures made { OnOk result (offer_at self.old.book slot prefix ≢ candidate → CountsOne self.old self.new) }
        ensures refused { OnErr result (self.new.chosen ≡ self.old.chosen) }
        ensures sent { self.new.sent ≡ self.old.sent }
    {
        announce_in(
            &mut self.rows,
            &self.alloc,
            &mut self.meter,
            slot,
            prefix,
            attrs,
            candidate,
        )
    }

    /// A slot without a route to the prefix has this one from now on, which makes no candidate yet. Where it has one nothing
    /// changes, and the attributes come back. Where memory is refused, all is as before.
    pub fn bring(
        &mut self,
        slot: u8,
        prefix: Prefix,
        attrs: Rc<Attrs<A>, A>,
    ) -> Result<Option<Rc<Attrs<A>, A>>, AllocError>
        ensures absent { IfOk result (λ back. IfNone back (route_at self.old.adj_in slot prefix ≡ None)) }
        ensures routes { IfOk result (λ back. IfNone back ((s : ℕ) (p : ThePrefix) → route_at self.new.adj_in s p ≡ (if is_route slot prefix s p then Some attrs.value else route_at self.old.adj_in s p))) }
        ensures back { IfOk result (λ back. IfSome back (λ other. (self.new ≡ self.old) × (other.value ≡ attrs.value) × IsSome (route_at self.old.adj_in slot prefix))) }
        ensures err { OnErr result ((s : ℕ) (p : ThePrefix) → route_at self.new.adj_in s p ≡ route_at self.old.adj_in s p) }
        // A slot that has a route takes no memory.
        ensures lacked { OnErr result (route_at self.old.adj_in slot prefix ≡ None) }
        ensures offers { (s : ℕ) (p : ThePrefix) → offer_at self.new.book s p ≡ offer_at self.old.book s p }
        ensures rows { rows_of self.new.book ≡ rows_of self.old.book }
        ensures other { IfOk result (λ back. IfNone back (IfSome (best_at (rows_of self.old.book) prefix) (λ c. c.slot ≢ slot))) }
        ensures chosen { self.new.chosen ≡ self.old.chosen }
        ensures sent { self.new.sent ≡ self.old.sent }
    {
        bring_in(&mut self.rows, &self.alloc, slot, prefix, attrs)
    }

    /// The slot has no route to the prefix any more.
    pub fn withdraw(&mut self, slot: u8, prefix: Prefix)
        ensures routes { (s : ℕ) (p : ThePrefix) → route_at self.new.adj_in s p ≡ (if is_route slot prefix s p then None else route_at self.old.adj_in s p) }
        ensures offers { (s : ℕ) (p : ThePrefix) → offer_at self.new.book s p ≡ (if is_route slot prefix s p then None else offer_at self.old.book s p) }
        ensures others { (p : ThePrefix) → is_prefix prefix p ≡ false → best_at (rows_of self.new.book) p ≡ best_at (rows_of self.old.book) p }
        // Nothing is kept of a prefix whose last route goes.
        ensures forgotten { ((s : ℕ) → route_at self.new.adj_in s prefix ≡ None) → kept_at self.new.book prefix ≡ None }
        // A best route is chosen once at most, and never where there was no route, or one that made no candidate.
        ensures chosen { RisesBy 1 self.old self.new }
        ensures another { CountsAnother prefix self.old self.new }
        ensures unrouted { route_at self.old.adj_in slot prefix ≡ None → self.new.chosen ≡ self.old.chosen }
        ensures never { offer_at self.old.book slot prefix ≡ None → self.new.chosen ≡ self.old.chosen }
        ensures gone { offer_at self.old.book slot prefix ≢ None → CountsOne self.old self.new }
        ensures sent { self.new.sent ≡ self.old.sent }
    {
        withdraw_in(&mut self.rows, &mut self.meter, slot, prefix);
    }

    /// Changes candidates of routes to a prefix, and chooses its best one again where one of them is another now.
    pub fn change(&mut self, prefix: Prefix, changes: &[Change])
        requires routed { All (λ c. IsSome (route_at self.old.adj_in c.slot prefix)) changes.now }
        requires named { All (λ c. IfSome c.candidate (λ route. route.slot ≡ c.slot)) changes.now }
        requires apart { AreApart (λ s. changed changes.now s (offer_at self.old.book s prefix)) }
        ensures routes { self.new.adj_in ≡ self.old.adj_in }
        ensures offers { (s : ℕ) (p : ThePrefix) → offer_at self.new.book s p ≡ (if is_prefix prefix p then changed changes.now s (offer_at self.old.book s p) else offer_at self.old.book s p) }
        ensures others { (p : ThePrefix) → is_prefix prefix p ≡ false → best_at (rows_of self.new.book) p ≡ best_at (rows_of self.old.book) p }
        ensures chosen { RisesBy 1 self.old self.new }
        ensures another { CountsAnother prefix self.old self.new }
        ensures same { ((s : ℕ) → changed changes.now s (offer_at self.old.book s prefix) ≡ offer_at self.old.book s prefix) → self.new.chosen ≡ self.old.chosen }
        ensures made { (s : ℕ) → changed changes.now s (offer_at self.old.book s prefix) ≢ offer_at self.old.book s prefix → CountsOne self.old self.new }
        ensures sent { self.new.sent ≡ self.old.sent }
    {
        change_in(&mut self.rows, &mut self.meter, prefix, changes);
    }

    /// The attributes of the latest route of the slot to the prefix.
    pub fn route(&self, slot: u8, prefix: Prefix) -> Option<&Attrs<A>>
        ensures route { option_copied result ≡ route_at self.now.adj_in slot prefix }
        // A candidate is always one of a route.
        ensures routed { (s : ℕ) (p : ThePrefix) → IsSome (offer_at self.now.book s p) → IsSome (route_at self.now.adj_in s p) }
    {
        match self.rows.get(prefix) {
            Some(record) => record.get(slot),
            None => None,
        }
    }

    /// Whether some slot has a route to the prefix.
    pub fn is_routed(&self, prefix: Prefix) -> bool
        ensures { MatchBool result (HasRoute self.now.adj_in prefix) ((s : ℕ) → route_at self.now.adj_in s prefix ≡ None) }
    {
        match self.rows.get(prefix) {
            Some(record) => record.is_routed(),
            None => false,
        }
    }

    /// The least prefix above the given one to which a slot has a route, or the least of all.
    pub fn routed_after(&self, after: Option<Prefix>) -> Option<Prefix>
        ensures has { IfSome result (λ p. HasRoute self.now.adj_in p) }
        ensures above { IfSome result (λ p. IsAbove after p) }
        ensures least { IfSome result (λ p. (s : ℕ) (q : ThePrefix) → IsAbove after q → IsSome (route_at self.now.adj_in s q) → is_gt (prefix_cmp p q) ≡ false) }
        ensures none { IfNone result ((s : ℕ) (q : ThePrefix) → IsAbove after q → route_at self.now.adj_in s q ≡ None) }
    {
        self.rises();
        first_routed(self.records_after(after))
    }

    /// The least prefix above the given one, or of all, to which the slot has a route. It is found by going along the
    /// prefixes, as far as the next one of the slot.
    pub fn slot_prefix_after(&self, slot: u8, after: Option<Prefix>) -> Option<Prefix>
        ensures has { IfSome result (λ p. IsSome (route_at self.now.adj_in slot p)) }
        ensures above { IfSome result (λ p. IsAbove after p) }
        ensures least { IfSome result (λ p. (q : ThePrefix) → IsAbove after q → IsSome (route_at self.now.adj_in slot q) → is_gt (prefix_cmp p q) ≡ false) }
        ensures none { IfNone result ((q : ThePrefix) → IsAbove after q → route_at self.now.adj_in slot q ≡ None) }
    {
        self.rises();
        first_of_slot(self.records_after(after), slot)
    }

    /// The routes of a slot, in rising order of prefix.
    pub fn routes_of(&self, slot: u8) -> SlotRoutes<'_, A, B>
        ensures all { result ≡ routes_of slot self.now.adj_in }
        ensures rising { IsStrictlySortedBy prefix_cmp (keys_of result) }
        ensures found { (p : ThePrefix) → lookup (is_prefix p) result ≡ route_at self.now.adj_in slot p }
    {
        self.rises();
        SlotRoutes::behind(self, slot, None)
    }

    /// The routes of a slot to prefixes above the given one, or all, in rising order of prefix.
    pub fn routes_after(&self, slot: u8, after: Option<Prefix>) -> SlotRoutes<'_, A, B>
        ensures all { result ≡ all_after after (routes_of slot self.now.adj_in) }
        ensures rising { IsStrictlySortedBy prefix_cmp (keys_of result) }
    {
        self.rises();
        SlotRoutes::behind(self, slot, after)
    }

    /// The slot's route to the least prefix above the given one, or of all, to which it has one.
    pub(crate) fn route_after(&self, slot: u8, after: Option<Prefix>) -> Option<(Prefix, &Attrs<A>)>
        ensures { IsNext result after (routes_of slot self.now.adj_in) }
    {
        self.rises();
        let prefix = self.slot_prefix_after(slot, after)?;
        let attrs = self.route(slot, prefix)?;
        Some((prefix, attrs))
    }

    // The prefixes with routes rise.
    fn rises(&self)
        ensures rising { IsRising self.now.adj_in }
        ensures routed { (p : ThePrefix) → IsSome (found self.now.adj_in p) → HasRoute self.now.adj_in p }
    {
        self.rows.rises();
    }

    // The records of prefixes above the given one, or all.
    pub(crate) fn records_after(&self, after: Option<Prefix>) -> RecordRange<'_, A, B>
        ensures adj_in { adj_in_of (routed result) ≡ all_after after self.now.adj_in }
        ensures book { book_of (routed result) ≡ all_after after self.now.book }
        ensures sent { (s : ℕ) → picked (λ r. held_by r.sent s) result ≡ all_after after (sent_to self.now.sent s) }
        ensures rising { (s : ℕ) → IsRising (sent_to self.now.sent s) }
    {
        self.rows.range_after(after)
    }

    /// The best route of a prefix.
    pub fn best(&self, prefix: Prefix) -> Option<Candidate>
        ensures { result ≡ best_at (rows_of self.now.book) prefix }
    {
        match self.rows.get(prefix) {
            Some(record) => record.best(),
            None => None,
        }
    }

    /// The best route of a prefix, with its attributes.
    pub fn best_route(&self, prefix: Prefix) -> Option<(Candidate, &Rc<Attrs<A>, A>)>
        ensures none { IfNone result (best_at (rows_of self.now.book) prefix ≡ None) }
        ensures some { IfSome result (λ r. (best_at (rows_of self.now.book) prefix ≡ Some r.0) × (route_at self.now.adj_in r.0.slot prefix ≡ Some r.1.now.value)) }
    {
        match self.rows.get(prefix) {
            Some(record) => record.best_route(),
            None => None,
        }
    }

    /// Loc-RIB has the best of each prefix's candidates, and nothing is kept of a prefix without routes.
    pub fn is_chosen(&self)
        ensures best { (p : ThePrefix) → IsBestOf (λ s. offer_at self.now.book s p) (best_at (rows_of self.now.book) p) }
        ensures rising { IsStrictlySortedBy prefix_cmp (keys_of (rows_of self.now.book)) }
        ensures needed { (p : ThePrefix) → IsSome (kept_at self.now.book p) → HasRoute self.now.adj_in p }
        // A candidate is always one of a route.
        ensures routed { (s : ℕ) (p : ThePrefix) → IsSome (offer_at self.now.book s p) → IsSome (route_at self.now.adj_in s p) }
    {
        self.rows.rises();
    }

    /// How often a best route was chosen so far, up to 2^64 - 1.
    pub fn chosen(&self) -> u64
        ensures { result ≡ self.now.chosen }
    {
        self.meter.count()
    }

    /// The least prefix above the given one that has a best route, or the least of all.
    pub fn prefix_after(&self, after: Option<Prefix>) -> Option<Prefix>
        ensures has { IfSome result (λ p. IsSome (best_at (rows_of self.now.book) p)) }
        ensures routed { IfSome result (λ p. (s : ℕ) × IsSome (route_at self.now.adj_in s p)) }
        ensures above { IfSome result (λ p. IsAbove after p) }
        ensures least { IfSome result (λ p. (q : ThePrefix) → IsAbove after q → IsSome (best_at (rows_of self.now.book) q) → is_gt (prefix_cmp p q) ≡ false) }
        ensures none { IfNone result ((q : ThePrefix) → IsAbove after q → best_at (rows_of self.now.book) q ≡ None) }
    {
        self.is_chosen();
        match self.row_after(after) {
            Some((prefix, _)) => Some(prefix),
            None => None,
        }
    }

    // The least prefix above the given one that has a best route, or the least of all, with it.
    pub(crate) fn row_after(&self, after: Option<Prefix>) -> Option<(Prefix, Candidate)>
        ensures { result ≡ first_after after (rows_of self.now.book) }
    {
        first_best(self.records_after(after))
    }

    /// Loc-RIB, row by row in rising order.
    pub fn rows(&self) -> Rows<'_, A, B>
        ensures all { result ≡ rows_of self.now.book }
        ensures rising { IsStrictlySortedBy prefix_cmp (keys_of result) }
    {
        self.is_chosen();
        Rows::behind(self, None)
    }

    /// The rows of Loc-RIB above the given prefix, or all, in rising order.
    pub fn rows_after(&self, after: Option<Prefix>) -> Rows<'_, A, B>
        ensures all { result ≡ all_after after (rows_of self.now.book) }
        ensures rising { IsStrictlySortedBy prefix_cmp (keys_of result) }
    {
        self.is_chosen();
        Rows::behind(self, after)
    }

    /// What the slot's peer holds: its Adj-RIB-Out.
    pub fn adj_out(&self, slot: u8) -> AdjOut<'_, A, B>
        requires { slot < 64 }
        ensures { result ≡ sent_to self.now.sent slot }
    {
        AdjOut::of(self, slot)
    }

    // The attributes of a prefix that the slot's peer holds, and whether it has asked for them again.
    pub(crate) fn held(&self, slot: u8, prefix: Prefix) -> Option<(&SentAttributes<A>, bool)>
        requires { slot < 64 }
        ensures some { IfSome result (λ r. found (sent_to self.now.sent slot) prefix ≡ Some (record { octets = r.0.now; asked = r.1 })) }
        ensures none { IfNone result (found (sent_to self.now.sent slot) prefix ≡ None) }
    {
        let record = self.rows.get(prefix)?;
        let sent = record.held(slot)?;
        Some((sent, record.is_asked(slot)))
    }

    // Whether it is known that the slot's peer has asked again for each prefix that it holds.
    pub(crate) fn is_all_asked(&self, slot: u8) -> bool
        requires { slot < 64 }
        ensures { IsTrue result → all_asked (sent_to self.now.sent slot) ≡ sent_to self.now.sent slot }
    {
        self.marks.is_all_asked(slot)
    }

    // Whether it is known that the slot's peer has asked again for nothing that it holds.
    pub(crate) fn is_none_asked(&self, slot: u8) -> bool
        requires { slot < 64 }
        ensures { IsTrue result → (q : ThePrefix) → asked_at (sent_to self.now.sent slot) q ≡ false }
    {
        !self.marks.may_ask(slot)
    }

    /// The slot's peer holds nothing.
    pub fn clear_sent(&mut self, slot: u8)
        ensures sent { (s : ℕ) → sent_to self.new.sent s ≡ (if s == slot then [] else sent_to self.old.sent s) }
        ensures rest { self.new ≡ record self.old { sent = self.new.sent } }
    {
        if !self.marks.may_hold(slot) {
            return;
        }
        clear_in(&mut self.rows, slot);
        self.marks.clear(slot);
    }

    /// The slot's peer asks again for each prefix that it holds (RFC 2918 section 4). It takes no memory.
    pub fn ask_sent(&mut self, slot: u8)
        requires { slot < 64 }
        ensures sent { (s : ℕ) → sent_to self.new.sent s ≡ (if s == slot then all_asked (sent_to self.old.sent s) else sent_to self.old.sent s) }
        ensures rest { self.new ≡ record self.old { sent = self.new.sent } }
    {
        if self.marks.is_all_asked(slot) {
            return;
        }
        ask_in(&mut self.rows, slot);
        self.marks.ask(slot);
    }

    /// The slot's peer holds these prefixes no more, and has asked for none of them again.
    pub fn withdraw_sent(&mut self, slot: u8, prefixes: &[Prefix])
        requires { slot < 64 }
        ensures held { (q : ThePrefix) → held_at (sent_to self.new.sent slot) q ≡ (if is_among q prefixes.now then None else held_at (sent_to self.old.sent slot) q) }
        ensures asked { (q : ThePrefix) → asked_at (sent_to self.new.sent slot) q ≡ (if is_among q prefixes.now then false else asked_at (sent_to self.old.sent slot) q) }
        ensures others { (s : ℕ) → s ≢ slot → sent_to self.new.sent s ≡ sent_to self.old.sent s }
        ensures rest { self.new ≡ record self.old { sent = self.new.sent } }
    {
        drop_all(&mut self.rows, slot, prefixes);
    }

    /// The slot's peer has asked for none of these prefixes again. It takes no memory.
    pub fn renew_sent(&mut self, slot: u8, prefixes: &[Prefix])
        requires { slot < 64 }
        ensures held { (q : ThePrefix) → held_at (sent_to self.new.sent slot) q ≡ held_at (sent_to self.old.sent slot) q }
        ensures asked { (q : ThePrefix) → asked_at (sent_to self.new.sent slot) q ≡ (if is_among q prefixes.now then false else asked_at (sent_to self.old.sent slot) q) }
        ensures others { (s : ℕ) → s ≢ slot → sent_to self.new.sent s ≡ sent_to self.old.sent s }
        ensures rest { self.new ≡ record self.old { sent = self.new.sent } }
    {
        if !self.marks.may_ask(slot) {
            return;
        }
        renew_all(&mut self.rows, slot, prefixes);
        self.marks.send(slot);
    }

    /// The slot's peer holds these attributes of these prefixes, and has asked for none of them again. Where memory is
    /// refused, nothing changes.
    pub fn announce_sent(
        &mut self,
        slot: u8,
        prefixes: &[Prefix],
        attrs: &SentAttributes<A>,
    ) -> Result<(), AllocError>
        requires { slot < 64 }
        ensures held { OnOk result ((q : ThePrefix) → held_at (sent_to self.new.sent slot) q ≡ (if is_among q prefixes.now then Some attrs.now else held_at (sent_to self.old.sent slot) q)) }
        ensures asked { OnOk result ((q : ThePrefix) → asked_at (sent_to self.new.sent slot) q ≡ (if is_among q prefixes.now then false else asked_at (sent_to self.old.sent slot) q)) }
        ensures others { (s : ℕ) → s ≢ slot → sent_to self.new.sent s ≡ sent_to self.old.sent s }
        ensures err { OnErr result ((s : ℕ) → sent_to self.new.sent s ≡ sent_to self.old.sent s) }
        ensures rest { self.new ≡ record self.old { sent = self.new.sent } }
    {
        if ready_all(&mut self.rows, &self.alloc, prefixes, attrs).is_err() {
            tidy_all(&mut self.rows, prefixes);
            return Err(AllocError);
        }
        hold_all(&mut self.rows, slot, prefixes, attrs);
        self.marks.send(slot);
        Ok(())
    }
}
