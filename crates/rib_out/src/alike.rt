//! What waits to be announced, by the octets that it is announced with.
ghost use Rattle.std.specs.Prelude.{◌≡◌, ◌≢◌, ◌<◌, ◌==◌, ◌&&◌, ◌||◌, ◌⊎◌, ℕ, List, Some, IfOk, IfSome, IfNone, replicate, true, false};
ghost use Rattle.std.specs.Ordering.{is_gt};
ghost use Rattle.net_prefix.specs.PrefixOrder.{prefix_cmp, IsAbove};
ghost use Rattle.net_prefix.specs.declared.prefix.Prefix.{Prefix};
ghost use Rattle.rib_out.specs.Alike.{IsListed, alike, is_entry, is_listed, no_list, octets_number};
ghost use Rattle.rib_out.specs.Held.{is_among, is_prefix};
ghost use Rattle.rib_out.specs.Slots.{has_slot};
ghost use Rattle.rib_out.specs.declared.slot_list.Alike.{Alike as Entry};

use crate::slot_list::{Alike, SlotList};
use crate::slots::{self, SLOTS};
use net_prefix::Prefix;
use std::alloc::{AllocError, Allocator, Global};
use std::hash::{DefaultHasher, Hasher};
use std::marker::Model;

// How long the octets are at most whose number is kept.
const LONGEST_KEPT: usize = 256;

// The octets whose number was made last, with that number: many prefixes in a row wait with the same octets.
#[derive(Drop)]
struct LastNumber {
    // These octets, and others behind them.
    octets: [u8; LONGEST_KEPT],
    length: usize,
    number: u64,
}

impl Model for LastNumber {
    ghost use Rattle.std.specs.Prelude.{⊤, ◌≡◌, ◌≤◌, take};
    ghost use Rattle.rib_out.specs.Alike.{octets_number};

    ghost Value = { ⊤ };

    ghost view = { λ _. tt };

    ghost invariant = { λ last. (last.length ≤ 256) × (last.number ≡ octets_number (take last.length last.octets)) };
}

impl LastNumber {
    // The number of no octets.
    fn new() -> Self {
        LastNumber {
            octets: [0; LONGEST_KEPT],
            length: 0,
            number: number_of(&[]),
        }
    }

    // The number of some octets, made anew only where they are others than the last.
    fn number_of(&self, octets: &[u8]) -> u64
        ensures { result ≡ octets_number octets.now }
    {
        if &self.octets[..self.length] == octets {
            self.number
        } else {
            number_of(octets)
        }
    }

    // The same, and those are the last ones from now on, if they aren't too long.
    fn keep_number_of(&mut self, octets: &[u8]) -> u64
        ensures { result ≡ octets_number octets.now }
    {
        if &self.octets[..self.length] == octets {
            return self.number;
        }
        let number = number_of(octets);
        if octets.len() <= LONGEST_KEPT {
            self.octets[..octets.len()].copy_from_slice(octets);
            self.length = octets.len();
            self.number = number;
        }
        number
    }
}

/// The prefixes that wait to be announced to each slot, by a number of the octets of attributes that they are announced
/// with, so that those that share an UPDATE are found soon and in order. Different octets may have one number. Where memory
/// is refused to it, a slot's list is no longer whole until it begins anew.
#[derive(Drop)]
pub struct AlikePrefixes<A: Allocator = Global> {
    lists: Vec<SlotList<A>, A>,
    // The slots whose list is whole, a bit each.
    whole: u64,
    last: LastNumber,
}

impl<A: Allocator> Model for AlikePrefixes<A> {
    ghost use Rattle.std.specs.Prelude.{◌≡◌, length};
    ghost use Rattle.rib_out.specs.Alike.{AlikeState};

    ghost Value = { AlikeState };

    ghost view = { λ lists. record { lists = lists.lists.items; whole = lists.whole } };

    ghost invariant = { λ lists. length lists.lists.items ≡ 64 };
}

impl<A: Allocator + Clone> AlikePrefixes<A> {
    /// The lists of all slots are empty, and whole. The error is memory that is refused, or an allocator that can't be cloned.
    pub fn new(alloc: A) -> Result<Self, AllocError>
        ensures none { IfOk result (λ l. (s : ℕ) (o : List ℕ) (p : Prefix) → is_listed l s o p ≡ false) }
        ensures whole { IfOk result (λ l. (s : ℕ) → s < 64 → has_slot l.whole s ≡ true) }
    {
        Ok(AlikePrefixes {
            lists: all_empty(alloc)?,
            whole: u64::MAX,
            last: LastNumber::new(),
        })
    }

    /// The prefix waits to be announced to the slot with these octets of attributes. Where memory is refused, the slot's
    /// list is lost.
    pub fn list(&mut self, slot: u8, octets: &[u8], prefix: Prefix)
        requires slot { slot < 64 }
        ensures listed { IsListed self.new slot octets.now prefix }
        ensures only { (s : ℕ) (a : Entry) → is_entry self.new s a ≡ true → (is_entry self.old s a ≡ true) ⊎ (a ≡ alike (octets_number octets.now) prefix) }
        ensures kept { (s : ℕ) (o : List ℕ) (p : Prefix) → IsListed self.old s o p → IsListed self.new s o p }
        ensures others { (s : ℕ) → s ≢ slot → (has_slot self.new.whole s ≡ has_slot self.old.whole s) × ((a : Entry) → is_entry self.new s a ≡ is_entry self.old s a) }
    {
        if !slots::has(self.whole, slot) {
            return;
        }
        let number = self.last.keep_number_of(octets);
        let list = &mut self.lists[usize::from(slot)];
        if list.insert(Alike { number, prefix }).is_err() {
            list.clear();
            self.whole = slots::without(self.whole, slot);
        }
    }

    /// The prefix doesn't wait any more to be announced to the slot with these octets.
    pub fn unlist(&mut self, slot: u8, octets: &[u8], prefix: Prefix)
        requires slot { slot < 64 }
        ensures gone { is_listed self.new slot octets.now prefix ≡ false }
        ensures fewer { (s : ℕ) (a : Entry) → is_entry self.new s a ≡ true → is_entry self.old s a ≡ true }
        ensures others { (s : ℕ) (a : Entry) → (s ≢ slot) ⊎ (a ≢ alike (octets_number octets.now) prefix) → is_entry self.new s a ≡ is_entry self.old s a }
        ensures whole { self.new.whole ≡ self.old.whole }
        ensures kept { (s : ℕ) (o : List ℕ) (p : Prefix) → (s == slot && is_prefix prefix p) ≡ false → IsListed self.old s o p → IsListed self.new s o p }
    {
        let number = self.last.keep_number_of(octets);
        self.lists[usize::from(slot)].remove(number, prefix);
    }

    /// None of these prefixes waits any more to be announced to the slot with these octets.
    pub fn unlist_all(&mut self, slot: u8, octets: &[u8], prefixes: &[Prefix])
        requires slot { slot < 64 }
        ensures gone { (p : Prefix) → is_among p prefixes.now ≡ true → is_listed self.new slot octets.now p ≡ false }
        ensures fewer { (s : ℕ) (a : Entry) → is_entry self.new s a ≡ true → is_entry self.old s a ≡ true }
        ensures others { (s : ℕ) (a : Entry) → (s ≢ slot) ⊎ (a.number ≢ octets_number octets.now) → is_entry self.new s a ≡ is_entry self.old s a }
        ensures whole { self.new.whole ≡ self.old.whole }
        ensures kept { (s : ℕ) (o : List ℕ) (p : Prefix) → (s == slot && is_among p prefixes.now) ≡ false → IsListed self.old s o p → IsListed self.new s o p }
    {
        let number = self.last.keep_number_of(octets);
        self.lists[usize::from(slot)].remove_all(number, prefixes);
    }

    /// The slot's list begins anew: empty, and whole. It takes no memory.
    pub fn clear(&mut self, slot: u8)
        requires slot { slot < 64 }
        ensures none { (a : Entry) → is_entry self.new slot a ≡ false }
        ensures others { (s : ℕ) (a : Entry) → s ≢ slot → is_entry self.new s a ≡ is_entry self.old s a }
        ensures whole { (s : ℕ) → has_slot self.new.whole s ≡ (s == slot || has_slot self.old.whole s) }
        ensures kept { (s : ℕ) (o : List ℕ) (p : Prefix) → s ≢ slot → IsListed self.old s o p → IsListed self.new s o p }
    {
        self.lists[usize::from(slot)].clear();
        self.whole = slots::with(self.whole, slot);
    }

    /// Whether the slot's list is whole.
    pub fn is_whole(&self, slot: u8) -> bool
        requires slot { slot < 64 }
        ensures { result ≡ has_slot self.now.whole slot }
    {
        slots::has(self.whole, slot)
    }

    /// The least prefix above the given one that is listed for the slot with octets of the same number. Other octets may
    /// have that number too.
    pub fn next(&self, slot: u8, octets: &[u8], after: Prefix) -> Option<Prefix>
        requires slot { slot < 64 }
        ensures has { IfSome result (λ p. is_listed self.now slot octets.now p ≡ true) }
        ensures above { IfSome result (λ p. IsAbove (Some after) p) }
        ensures least { has_slot self.now.whole slot ≡ true → IfSome result (λ p. (q : Prefix) → IsAbove (Some after) q → IsListed self.now slot octets.now q → is_gt (prefix_cmp p q) ≡ false) }
        ensures none { has_slot self.now.whole slot ≡ true → IfNone result ((q : Prefix) → IsAbove (Some after) q → IsListed self.now slot octets.now q → ⊥) }
    {
        let number = self.last.number_of(octets);
        self.lists[usize::from(slot)].next(number, after)
    }
}

// The lists of all slots, empty.
fn all_empty<A: Allocator + Clone>(alloc: A) -> Result<Vec<SlotList<A>, A>, AllocError>
    ensures { IfOk result (λ lists. lists.items ≡ replicate 64 no_list) }
{
    let mut lists = Vec::with_capacity(alloc.clone()?, SLOTS)?;
    for _ in 0..SLOTS {
        lists.push_reserved(SlotList::new(alloc.clone()?));
    }
    Ok(lists)
}

// The number of some octets.
fn number_of(octets: &[u8]) -> u64
    ensures { result ≡ octets_number octets.now }
{
    let mut hasher = DefaultHasher::new();
    hasher.write(octets);
    hasher.finish()
}
