//! The routes to one prefix.
ghost use Rattle.std.specs.Prelude.{◌≡◌, ◌<◌, true, [], ◌∷◌, OnErr, IfErr, IfOk, is_ok};
ghost use Rattle.std.specs.Option.{option_copied, option_map, is_some};
ghost use Rattle.std.specs.Map.{set_value};
ghost use Rattle.std.specs.BTreeMap.{is_at};
ghost use Rattle.std.specs.Ordering.{nat_cmp};
ghost use Rattle.bgp_attr.specs.PathAttributes.{PathAttributes};
ghost use Rattle.rib_in.specs.LatestRoutes.{RouteList, route_in};
ghost use Rattle.rib_in.specs.PrefixRoutes.{IsLeft, is_next_only, is_only, with_first};

use bgp_attr::Attrs;
use std::alloc::{AllocError, Allocator, Global};
use std::cmp::Ordering;
use std::marker::Model;
use std::mem;
use std::rc::Rc;

/// The routes to one prefix, in rising order of slot: at least one.
#[cycle(routes)]
#[derive(Drop)]
pub struct PrefixRoutes<A: Allocator = Global> {
    // Shared with the other routes of the UPDATE.
    attrs: Rc<Attrs<A>, A>,
    chain: Chain<A>,
}

// The slot of a route, and the routes of higher slots. In one value both take 16 octets, apart they would take 24.
#[cycle(routes)]
#[derive(Drop)]
enum Chain<A: Allocator> {
    Last(u8),
    Before(u8, Box<PrefixRoutes<A>, A>),
}

impl<A: Allocator> Model for PrefixRoutes<A> {
    ghost use Rattle.std.specs.Prelude.{◌∷◌, length};
    ghost use Rattle.rib_in.specs.LatestRoutes.{RouteList};

    ghost Value = { RouteList };

    ghost use Rattle.rib_in.specs.PrefixRoutes.{AreRoutes, higher_of};
    ghost use Rattle.rib_in.specs.Chains.{behind, slot_of};

    ghost view = { λ r. (slot_of r.chain, r.attrs.value) ∷ higher_of (behind r.chain) };

    ghost invariant = { λ r. AreRoutes (slot_of r.chain) r.attrs.value (behind r.chain) };

    ghost size = { length };

    ghost use Rattle.rib_in.specs.RoutesFall.{falls};

    ghost size_decreases = { λ r h. falls (record { dealloc_token = A.dealloc_token }) r };
}

impl<A: Allocator> PrefixRoutes<A> {
    /// One route.
    pub fn one(slot: u8, attrs: Rc<Attrs<A>, A>) -> Self
        ensures { result ≡ (slot, attrs.value) ∷ [] }
    {
        PrefixRoutes {
            attrs,
            chain: Chain::Last(slot),
        }
    }

    /// Takes memory for one route, to be put among others.
    pub fn boxed(alloc: &A, slot: u8, attrs: Rc<Attrs<A>, A>) -> Result<Box<Self, A>, AllocError>
    where
        A: Clone,
        ensures { IfOk result (λ boxed. boxed.value ≡ (slot, attrs.value) ∷ []) }
    {
        let boxed = Box::new(alloc.clone()?, PrefixRoutes::one(slot, attrs))?;
        Ok(boxed)
    }

    /// The attributes of the slot's route.
    pub fn get(&self, slot: u8) -> Option<&Rc<Attrs<A>, A>>
        ensures { option_map (λ attrs. attrs.value) (option_copied result) ≡ route_in self.now slot }
    {
        if self.slot() == slot {
            return Some(&self.attrs);
        }
        match &self.chain {
            Chain::Before(_, higher) => higher.get(slot),
            Chain::Last(_) => None,
        }
    }

    /// Whether no other slot has a route.
    pub fn is_only(&self, slot: u8) -> bool
        ensures { result ≡ is_only slot self.now }
    {
        match &self.chain {
            Chain::Last(own) => *own == slot,
            Chain::Before(_, _) => false,
        }
    }

    /// Replaces the slot's route. Where it has none the attributes come back.
    pub fn replace(&mut self, slot: u8, attrs: Rc<Attrs<A>, A>) -> Result<(), Rc<Attrs<A>, A>>
        ensures new { self.new ≡ set_value (is_at (nat_cmp slot)) self.old attrs.value }
        ensures err { OnErr result (self.new ≡ self.old) }
        ensures back { IfErr result (λ back. back.value ≡ attrs.value) }
        ensures there { is_ok result ≡ is_some (route_in self.old slot) }
    {
        if self.slot() == slot {
            self.attrs = attrs;
            return Ok(());
        }
        let Chain::Before(_, higher) = &mut self.chain else {
            return Err(attrs);
        };
        higher.replace(slot, attrs)
    }

    /// Puts the first of some routes in.
    pub fn put(&mut self, mut route: Box<PrefixRoutes<A>, A>)
        ensures { self.new ≡ with_first self.old route.value }
    {
        let (slot, own) = (route.slot(), self.slot());
        match slot.cmp(&own) {
            Ordering::Less => {
                mem::swap(self, &mut *route);
                self.chain = Chain::Before(slot, route);
            }
            Ordering::Equal => {
                let PrefixRoutes { attrs, .. } = Box::into_inner(route);
                self.attrs = attrs;
            }
            Ordering::Greater => match &mut self.chain {
                Chain::Before(_, higher) => higher.put(route),
                Chain::Last(_) => {
                    route.chain = Chain::Last(slot);
                    self.chain = Chain::Before(own, route);
                }
            },
        }
    }

    /// Takes out the slot's route, where another slot has one. The only route stays.
    pub fn withdraw(&mut self, slot: u8)
        ensures left { IsLeft slot self.old self.new }
        ensures only { is_only slot self.old ≡ true → self.new ≡ self.old }
    {
        if self.slot() == slot {
            let Chain::Before(_, higher) = mem::replace(&mut self.chain, Chain::Last(slot)) else {
                return;
            };
            *self = Box::into_inner(higher);
            return;
        }
        if self.is_next_only(slot) {
            self.chain = Chain::Last(self.slot());
            return;
        }
        let Chain::Before(_, higher) = &mut self.chain else {
            return;
        };
        higher.withdraw(slot);
    }

    // Whether there is just one higher route, of that slot.
    fn is_next_only(&self, slot: u8) -> bool
        ensures { result ≡ is_next_only slot self.now }
    {
        match &self.chain {
            Chain::Before(_, higher) => higher.is_only(slot),
            Chain::Last(_) => false,
        }
    }

    // The lowest slot that has a route.
    fn slot(&self) -> u8
        ensures { (attrs : PathAttributes) × (more : RouteList) × (self.now ≡ (result, attrs) ∷ more) }
    {
        match &self.chain {
            Chain::Last(slot) => *slot,
            Chain::Before(slot, _) => *slot,
        }
    }
}
