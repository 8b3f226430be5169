//! The row of one prefix.
ghost use Rattle.std.specs.Prelude.{◌≡◌, ◌≢◌, ◌≤◌, ◌+◌, ◌-◌, ◌^◌, ◌==◌, ℕ, None, true, false, All, IfNone, IfOk, IfSome, IsSome, OnErr, OnOk, min, if◌then◌else◌};
ghost use Rattle.std.specs.Option.{option_copied};
ghost use Rattle.decision.specs.BookContents.{AreApart, candidate_of, changed};
ghost use Rattle.rib_in.specs.LatestRoutes.{route_in};
ghost use Rattle.rib_in.specs.PrefixRoutes.{IsAnnounced, is_only};
ghost use Rattle.rib_rows.specs.PrefixRows.{IsRow, first_route};

use bgp_attr::Attrs;
use decision::{Book, Candidate, Change, Meter};
use rib_in::PrefixRoutes;
use std::alloc::{AllocError, Allocator};
use std::marker::Model;
use std::rc::Rc;

/// The routes to a prefix, and the book of the candidates that they make.
#[derive(Drop)]
pub struct Row<A: Allocator + Clone, B: Book<A>> {
    routes: PrefixRoutes<A>,
    book: B,
}

impl<A: Allocator + Clone, B: Book<A>> Model for Row<A, B> {
    ghost use Rattle.rib_rows.specs.PrefixRows.{IsRow, PrefixRow};

    ghost Value = { PrefixRow };

    ghost view = { λ r. record { routes = r.routes; kept = B.kept r.book } };

    ghost invariant = { λ r. IsRow (record { routes = r.routes; kept = B.kept r.book }) };
}

impl<A: Allocator + Clone, B: Book<A>> Row<A, B> {
    /// A prefix's first route, which makes no candidate yet.
    pub(crate) fn of(alloc: &A, slot: u8, attrs: Rc<Attrs<A>, A>) -> Result<Self, AllocError>
        ensures { IfOk result (λ row. row ≡ first_route slot attrs.value) }
    {
        let book = B::of(alloc, slot)?;
        let routes = PrefixRoutes::one(slot, attrs);
        Ok(Row { routes, book })
    }

    /// The attributes of the slot's route.
    pub(crate) fn get(&self, slot: u8) -> Option<&Attrs<A>>
        ensures { option_copied result ≡ route_in self.now.routes slot }
    {
        match self.routes.get(slot) {
            Some(attrs) => Some(attrs),
            None => None,
        }
    }

    /// Whether no other slot has a route.
    pub(crate) fn is_only(&self, slot: u8) -> bool
        ensures { result ≡ is_only slot self.now.routes }
    {
        self.routes.is_only(slot)
    }

    /// The best candidate.
    pub(crate) fn best(&self) -> Option<Candidate>
        ensures { result ≡ self.now.kept.best }
    {
        self.book.best()
    }

    /// The best candidate, and the attributes of its route.
    pub(crate) fn best_route(&self) -> Option<(Candidate, &Rc<Attrs<A>, A>)>
        ensures none { IfNone result (self.now.kept.best ≡ None) }
        ensures some { IfSome result (λ r. (self.now.kept.best ≡ Some r.0) × (route_in self.now.routes r.0.slot ≡ Some r.1.now.value)) }
    {
        let best = self.book.best()?;
        let attrs = self.routes.get(best.slot)?;
        Some((best, attrs))
    }

    /// The slot has this route from now on. If it had none, this one makes no candidate yet.
    pub(crate) fn put(
        &mut self,
        alloc: &A,
        slot: u8,
        attrs: Rc<Attrs<A>, A>,
    ) -> Result<(), AllocError>
        ensures ok { OnOk result (IsAnnounced slot attrs.value self.old.routes self.new.routes) }
        ensures offers { (s : ℕ) → candidate_of self.new.kept.places s ≡ candidate_of self.old.kept.places s }
        ensures best { self.new.kept.best ≡ self.old.kept.best }
        ensures err { OnErr result (self.new ≡ self.old) }
        // Replacing a route takes no memory.
        ensures absent { OnErr result (route_in self.old.routes slot ≡ None) }
        ensures row { IsRow self.new }
    {
        let Err(attrs) = self.routes.replace(slot, attrs) else {
            return Ok(());
        };
        let route = PrefixRoutes::boxed(alloc, slot, attrs)?;
        self.book.add(slot)?;
        self.routes.put(route);
        Ok(())
    }

    /// Makes these changes of candidates of the routes.
    pub(crate) fn change(&mut self, meter: &mut Meter, changes: &[Change])
        requires routed { All (λ c. IsSome (route_in self.old.routes c.slot)) changes.now }
        requires named { All (λ c. IfSome c.candidate (λ route. route.slot ≡ c.slot)) changes.now }
        requires apart { AreApart (λ s. changed changes.now s (candidate_of self.old.kept.places s)) }
        ensures routes { self.new.routes ≡ self.old.routes }
        ensures offers { (s : ℕ) → candidate_of self.new.kept.places s ≡ changed changes.now s (candidate_of self.old.kept.places s) }
        ensures counted { (meter.old.count ≤ meter.new.count) × (meter.new.count ≤ meter.old.count + 1) }
        ensures another { self.new.kept.best ≢ self.old.kept.best → meter.new.count ≡ min (meter.old.count + 1) (2 ^ 64 - 1) }
        ensures same { ((s : ℕ) → changed changes.now s (candidate_of self.old.kept.places s) ≡ candidate_of self.old.kept.places s) → meter.new.count ≡ meter.old.count }
        ensures made { (s : ℕ) → changed changes.now s (candidate_of self.old.kept.places s) ≢ candidate_of self.old.kept.places s → meter.new.count ≡ min (meter.old.count + 1) (2 ^ 64 - 1) }
        ensures row { IsRow self.new }
    {
        self.book.change(meter, changes);
    }

    /// The slot's route goes, and its candidate with it, where another slot has a route.
    pub(crate) fn leave(&mut self, meter: &mut Meter, slot: u8)
        requires { is_only slot self.old.routes ≡ false }
        ensures routes { (s : ℕ) → route_in self.new.routes s ≡ (if slot == s then None else route_in self.old.routes s) }
        ensures offers { (s : ℕ) → candidate_of self.new.kept.places s ≡ (if slot == s then None else candidate_of self.old.kept.places s) }
        ensures counted { (meter.old.count ≤ meter.new.count) × (meter.new.count ≤ meter.old.count + 1) }
        ensures another { self.new.kept.best ≢ self.old.kept.best → meter.new.count ≡ min (meter.old.count + 1) (2 ^ 64 - 1) }
        ensures never { candidate_of self.old.kept.places slot ≡ None → meter.new.count ≡ meter.old.count }
        ensures gone { candidate_of self.old.kept.places slot ≢ None → meter.new.count ≡ min (meter.old.count + 1) (2 ^ 64 - 1) }
        ensures row { IsRow self.new }
    {
        self.book.leave(meter, slot);
        self.routes.withdraw(slot);
    }

    /// The slot's route goes, which was the only one, and the row with it.
    pub(crate) fn end(self, meter: &mut Meter, slot: u8)
        requires { is_only slot self.routes ≡ true }
        ensures counted { (meter.old.count ≤ meter.new.count) × (meter.new.count ≤ meter.old.count + 1) }
        ensures another { self.kept.best ≢ None → meter.new.count ≡ min (meter.old.count + 1) (2 ^ 64 - 1) }
        ensures never { candidate_of self.kept.places slot ≡ None → meter.new.count ≡ meter.old.count }
        ensures gone { candidate_of self.kept.places slot ≢ None → meter.new.count ≡ min (meter.old.count + 1) (2 ^ 64 - 1) }
    {
        let mut book = self.book;
        book.leave(meter, slot);
    }
}
