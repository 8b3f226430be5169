//! The record of one prefix.
ghost use Rattle.std.specs.Prelude.{◌≡◌, ◌≢◌, ◌<◌, ◌≤◌, ◌+◌, ◌-◌, ◌^◌, ◌==◌, ◌||◌, ℕ, None, Some, true, false, All, IfNone, IfOk, IfSome, IsSome, IsTrue, OnErr, OnOk, is_some, min, option_map, if◌then◌else◌};
ghost use Rattle.std.specs.Option.{option_copied};
ghost use Rattle.std.specs.Result.{is_ok};
ghost use Rattle.decision.specs.BookContents.{AreApart, changed};
ghost use Rattle.holdings.specs.Bounded.{IsCompact};
ghost use Rattle.holdings.specs.Holdings.{IsReady, held_by, holds_any, octets_by};
ghost use Rattle.rib_out.specs.Slots.{has_slot};
ghost use Rattle.rib_rows.specs.PrefixRows.{IsRow, best_of, first_route, offer_of, route_of};
ghost use Rattle.rib_rows.specs.Records.{IsSound, asked_again, renewed};

use crate::row::Row;
use bgp_attr::Attrs;
use decision::{Book, Candidate, Change, Meter};
use holdings::{Holdings, SentAttributes};
use std::alloc::{AllocError, Allocator};
use std::marker::Model;
use std::rc::Rc;

/// The row of a prefix, where it has routes, and what the peers hold of it.
#[derive(Drop)]
pub struct Record<A: Allocator + Clone, B: Book<A>> {
    row: Option<Row<A, B>>,
    sent: Holdings<A>,
}

impl<A: Allocator + Clone, B: Book<A>> Model for Record<A, B> {
    ghost use Rattle.rib_rows.specs.Records.{PrefixRecord};

    ghost Value = { PrefixRecord };

    ghost view = { λ r. record { row = r.row; sent = r.sent } };
}

impl<A: Allocator + Clone, B: Book<A>> Record<A, B> {
    /// No routes, and no peer holds anything.
    pub(crate) fn new() -> Self
        ensures row { result.row ≡ None }
        ensures sent { holds_any result.sent ≡ false }
        ensures compact { IsCompact result.sent.holdings }
    {
        Record {
            row: None,
            sent: Holdings::new(),
        }
    }

    /// A prefix's first route, which makes no candidate yet. No peer holds anything.
    pub(crate) fn of(alloc: &A, slot: u8, attrs: Rc<Attrs<A>, A>) -> Result<Self, AllocError>
        ensures row { IfOk result (λ r. r.row ≡ Some (first_route slot attrs.value)) }
        ensures sent { IfOk result (λ r. holds_any r.sent ≡ false) }
        ensures compact { IfOk result (λ r. IsCompact r.sent.holdings) }
    {
        let row = Row::of(alloc, slot, attrs)?;
        Ok(Record {
            row: Some(row),
            sent: Holdings::new(),
        })
    }

    /// The attributes of the slot's route.
    pub fn get(&self, slot: u8) -> Option<&Attrs<A>>
        ensures { option_copied result ≡ route_of self.now.row slot }
    {
        match &self.row {
            Some(row) => row.get(slot),
            None => None,
        }
    }

    /// Whether some slot has a route.
    pub fn is_routed(&self) -> bool
        ensures { result ≡ is_some self.now.row }
    {
        self.row.is_some()
    }

    /// The best candidate.
    pub fn best(&self) -> Option<Candidate>
        ensures { result ≡ best_of self.now.row }
    {
        match &self.row {
            Some(row) => row.best(),
            None => None,
        }
    }

    /// The best candidate, and the attributes of its route.
    pub fn best_route(&self) -> Option<(Candidate, &Rc<Attrs<A>, A>)>
        ensures none { IfNone result (best_of self.now.row ≡ None) }
        ensures some { IfSome result (λ r. (best_of self.now.row ≡ Some r.0) × (route_of self.now.row r.0.slot ≡ Some r.1.now.value)) }
    {
        match &self.row {
            Some(row) => row.best_route(),
            None => None,
        }
    }

    /// The attributes that the slot's peer holds.
    pub fn held(&self, slot: u8) -> Option<&SentAttributes<A>>
        requires { slot < 64 }
        ensures { option_copied result ≡ octets_by self.now.sent slot }
    {
        self.sent.get(slot)
    }

    /// Whether the slot's peer has asked for what it holds again.
    pub fn is_asked(&self, slot: u8) -> bool
        requires { slot < 64 }
        ensures { result ≡ has_slot self.now.sent.asked slot }
    {
        self.sent.is_asked(slot)
    }

    /// Whether some slot has a route, or some peer holds something.
    pub(crate) fn is_needed(&self) -> bool
        ensures { result ≡ (is_some self.now.row || holds_any self.now.sent) }
    {
        self.row.is_some() || self.sent.is_held()
    }

    /// A slot without a route has this one from now on, which makes no candidate yet. Where it has one nothing changes, and
    /// the attributes come back.
    pub(crate) fn bring(
        &mut self,
        alloc: &A,
        slot: u8,
        attrs: Rc<Attrs<A>, A>,
    ) -> Result<Option<Rc<Attrs<A>, A>>, AllocError>
        ensures brought { IfOk result (λ back. IfNone back ((route_of self.old.row slot ≡ None) × IsSome self.new.row × ((s : ℕ) → route_of self.new.row s ≡ (if slot == s then Some attrs.value else route_of self.old.row s)))) }
        ensures back { IfOk result (λ back. IfSome back (λ other. (self.new ≡ self.old) × (other.value ≡ attrs.value) × IsSome (route_of self.old.row slot))) }
        ensures offers { (s : ℕ) → offer_of self.new.row s ≡ offer_of self.old.row s }
        ensures best { best_of self.new.row ≡ best_of self.old.row }
        ensures err { OnErr result (self.new ≡ self.old) }
        // A slot that has a route takes no memory.
        ensures lacked { OnErr result (route_of self.old.row slot ≡ None) }
        ensures row { IsSound self.old → IsSound self.new }
        ensures sent { self.new.sent ≡ self.old.sent }
    {
        if self.get(slot).is_some() {
            return Ok(Some(attrs));
        }
        self.put(alloc, slot, attrs)?;
        Ok(None)
    }

    /// The slot has this route from now on. If it had none, this one makes no candidate yet.
    pub(crate) fn put(
        &mut self,
        alloc: &A,
        slot: u8,
        attrs: Rc<Attrs<A>, A>,
    ) -> Result<(), AllocError>
        ensures ok { OnOk result (IsSome self.new.row × ((s : ℕ) → route_of self.new.row s ≡ (if slot == s then Some attrs.value else route_of self.old.row s))) }
        ensures offers { (s : ℕ) → offer_of self.new.row s ≡ offer_of self.old.row s }
        ensures best { best_of self.new.row ≡ best_of self.old.row }
        ensures err { OnErr result (self.new ≡ self.old) }
        // Replacing a route takes no memory.
        ensures absent { OnErr result (route_of self.old.row slot ≡ None) }
        ensures row { IsSound self.new }
        ensures sent { self.new.sent ≡ self.old.sent }
    {
        match &mut self.row {
            Some(row) => row.put(alloc, slot, attrs),
            None => {
                self.row = Some(Row::of(alloc, slot, attrs)?);
                Ok(())
            }
        }
    }

    /// The slot has this route from now on, which makes this candidate.
    pub(crate) fn announce(
        &mut self,
        alloc: &A,
        meter: &mut Meter,
        slot: u8,
        attrs: Rc<Attrs<A>, A>,
        candidate: Option<Candidate>,
    ) -> Result<(), AllocError>
        requires named { IfSome candidate (λ c. c.slot ≡ slot) }
        requires apart { AreApart (λ s. if slot == s then candidate else offer_of self.old.row s) }
        ensures routes { OnOk result (IsSome self.new.row × ((s : ℕ) → route_of self.new.row s ≡ (if slot == s then Some attrs.value else route_of self.old.row s))) }
        ensures offers { OnOk result ((s : ℕ) → offer_of self.new.row s ≡ (if slot == s then candidate else offer_of self.old.row s)) }
        ensures err { OnErr result ((self.new ≡ self.old) × (meter.new.count ≡ meter.old.count)) }
        ensures absent { OnErr result (route_of self.old.row slot ≡ None) }
        ensures counted { (meter.old.count ≤ meter.new.count) × (meter.new.count ≤ meter.old.count + 1) }
        ensures another { best_of self.new.row ≢ best_of self.old.row → meter.new.count ≡ min (meter.old.count + 1) (2 ^ 64 - 1) }
        ensures same { offer_of self.old.row slot ≡ candidate → meter.new.count ≡ meter.old.count }
        ensures made { OnOk result (offer_of self.old.row slot ≢ candidate → meter.new.count ≡ min (meter.old.count + 1) (2 ^ 64 - 1)) }
        ensures row { IsSound self.new }
        ensures sent { self.new.sent ≡ self.old.sent }
    {
        self.put(alloc, slot, attrs)?;
        self.offer(meter, slot, candidate);
        Ok(())
    }

    /// The slot's route makes this candidate from now on.
    pub(crate) fn offer(&mut self, meter: &mut Meter, slot: u8, candidate: Option<Candidate>)
        requires routed { IsSome (route_of self.old.row slot) }
        requires named { IfSome candidate (λ c. c.slot ≡ slot) }
        requires apart { AreApart (λ s. if slot == s then candidate else offer_of self.old.row s) }
        ensures routes { option_map (λ r. r.routes) self.new.row ≡ option_map (λ r. r.routes) self.old.row }
        ensures offers { (s : ℕ) → offer_of self.new.row s ≡ (if slot == s then candidate else offer_of self.old.row s) }
        ensures counted { (meter.old.count ≤ meter.new.count) × (meter.new.count ≤ meter.old.count + 1) }
        ensures another { best_of self.new.row ≢ best_of self.old.row → meter.new.count ≡ min (meter.old.count + 1) (2 ^ 64 - 1) }
        ensures same { offer_of self.old.row slot ≡ candidate → meter.new.count ≡ meter.old.count }
        ensures made { offer_of self.old.row slot ≢ candidate → meter.new.count ≡ min (meter.old.count + 1) (2 ^ 64 - 1) }
        ensures row { IsSound self.new }
        ensures sent { self.new.sent ≡ self.old.sent }
    {
        let change = Change { slot, candidate };
        self.change(meter, &[change]);
    }

    /// Makes these changes of candidates of the routes.
    pub(crate) fn change(&mut self, meter: &mut Meter, changes: &[Change])
        requires routed { All (λ c. IsSome (route_of self.old.row c.slot)) changes.now }
        requires named { All (λ c. IfSome c.candidate (λ route. route.slot ≡ c.slot)) changes.now }
        requires apart { AreApart (λ s. changed changes.now s (offer_of self.old.row s)) }
        ensures routes { option_map (λ r. r.routes) self.new.row ≡ option_map (λ r. r.routes) self.old.row }
        ensures offers { (s : ℕ) → offer_of self.new.row s ≡ changed changes.now s (offer_of self.old.row s) }
        ensures counted { (meter.old.count ≤ meter.new.count) × (meter.new.count ≤ meter.old.count + 1) }
        ensures another { best_of self.new.row ≢ best_of self.old.row → meter.new.count ≡ min (meter.old.count + 1) (2 ^ 64 - 1) }
        ensures same { ((s : ℕ) → changed changes.now s (offer_of self.old.row s) ≡ offer_of self.old.row s) → meter.new.count ≡ meter.old.count }
        ensures made { (s : ℕ) → changed changes.now s (offer_of self.old.row s) ≢ offer_of self.old.row s → meter.new.count ≡ min (meter.old.count + 1) (2 ^ 64 - 1) }
        ensures row { IsSound self.new }
        ensures sent { self.new.sent ≡ self.old.sent }
    {
        let Some(row) = &mut self.row else {
            return;
        };
        row.change(meter, changes);
    }

    /// The slot has no route any more. The row goes with its last route.
    pub(crate) fn withdraw(&mut self, meter: &mut Meter, slot: u8)
        requires { IsSound self.old }
        ensures routes { (s : ℕ) → route_of self.new.row s ≡ (if slot == s then None else route_of self.old.row s) }
        ensures offers { (s : ℕ) → offer_of self.new.row s ≡ (if slot == s then None else offer_of self.old.row s) }
        ensures counted { (meter.old.count ≤ meter.new.count) × (meter.new.count ≤ meter.old.count + 1) }
        ensures another { best_of self.new.row ≢ best_of self.old.row → meter.new.count ≡ min (meter.old.count + 1) (2 ^ 64 - 1) }
        ensures never { offer_of self.old.row slot ≡ None → meter.new.count ≡ meter.old.count }
        ensures gone { offer_of self.old.row slot ≢ None → meter.new.count ≡ min (meter.old.count + 1) (2 ^ 64 - 1) }
        ensures row { IsSound self.new }
        ensures sent { self.new.sent ≡ self.old.sent }
    {
        let Some(row) = &mut self.row else {
            return;
        };
        if !row.is_only(slot) {
            row.leave(meter, slot);
            return;
        }
        if let Some(row) = self.row.take() {
            row.end(meter, slot);
        }
    }

    /// Makes a place for these attributes, where they have none. What the peers hold stays.
    pub(crate) fn make_ready(
        &mut self,
        alloc: &A,
        sent: &SentAttributes<A>,
    ) -> Result<(), AllocError>
        ensures ready { OnOk result (IsReady sent.now self.new.sent) }
        ensures held { (s : ℕ) → held_by self.new.sent s ≡ held_by self.old.sent s }
        ensures any { holds_any self.new.sent ≡ holds_any self.old.sent }
        ensures kept { IsReady sent.now self.old.sent → (self.new ≡ self.old) × IsTrue (is_ok result) }
        ensures refused { OnErr result (IsCompact self.new.sent.holdings) }
        ensures row { self.new.row ≡ self.old.row }
    {
        self.sent.make_ready(alloc, sent)
    }

    /// The slot's peer holds these attributes from now on, which have a place, and hasn't asked for them again.
    pub(crate) fn hold(&mut self, slot: u8, sent: &SentAttributes<A>)
        requires slot { slot < 64 }
        requires ready { IsReady sent.now self.old.sent }
        ensures held { (s : ℕ) → held_by self.new.sent s ≡ (if s == slot then Some (record { octets = sent.now; asked = false }) else held_by self.old.sent s) }
        ensures ready { IsReady sent.now self.new.sent }
        ensures any { holds_any self.new.sent ≡ true }
        ensures compact { IsCompact self.new.sent.holdings }
        ensures row { self.new.row ≡ self.old.row }
    {
        self.sent.hold(slot, sent);
    }

    /// The slot's peer holds nothing any more.
    pub(crate) fn drop_slot(&mut self, slot: u8)
        requires { slot < 64 }
        ensures held { (s : ℕ) → held_by self.new.sent s ≡ (if s == slot then None else held_by self.old.sent s) }
        ensures compact { IsCompact self.new.sent.holdings }
        ensures row { self.new.row ≡ self.old.row }
    {
        self.sent.drop_slot(slot);
    }

    /// The slot's peer hasn't asked for what it holds again.
    pub(crate) fn renew(&mut self, slot: u8)
        requires { slot < 64 }
        ensures held { (s : ℕ) → held_by self.new.sent s ≡ (if s == slot then option_map renewed (held_by self.old.sent s) else held_by self.old.sent s) }
        ensures any { holds_any self.new.sent ≡ holds_any self.old.sent }
        ensures stays { self.new.sent.holdings ≡ self.old.sent.holdings }
        ensures row { self.new.row ≡ self.old.row }
    {
        self.sent.renew(slot);
    }

    /// The slot's peer asks for what it holds again.
    pub(crate) fn ask(&mut self, slot: u8)
        requires { slot < 64 }
        ensures held { (s : ℕ) → held_by self.new.sent s ≡ (if s == slot then option_map asked_again (held_by self.old.sent s) else held_by self.old.sent s) }
        ensures any { holds_any self.new.sent ≡ holds_any self.old.sent }
        ensures stays { self.new.sent.holdings ≡ self.old.sent.holdings }
        ensures row { self.new.row ≡ self.old.row }
    {
        self.sent.ask(slot);
    }

    /// Gives up the places that nobody needs.
    pub(crate) fn tidy(&mut self)
        ensures held { (s : ℕ) → held_by self.new.sent s ≡ held_by self.old.sent s }
        ensures any { holds_any self.new.sent ≡ holds_any self.old.sent }
        ensures compact { IsCompact self.new.sent.holdings }
        ensures row { self.new.row ≡ self.old.row }
    {
        self.sent.tidy();
    }
}
