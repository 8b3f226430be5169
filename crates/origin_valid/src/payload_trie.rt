//! The payloads by prefix.
ghost use Rattle.std.specs.Prelude.{◌≡◌, ◌≢◌, ◌||◌, ◌&&◌, [], false, filter, not, OnOk, OnErr};
ghost use Rattle.local_exceptions.specs.ExceptionSets.{under};
ghost use Rattle.net_prefix.specs.PayloadSets.{IsPayloadSet, has, out, put};
ghost use Rattle.net_prefix.specs.declared.payload.Vrp.{Vrp as Payload};
ghost use Rattle.origin_valid.specs.KeptPayloads.{IsNextPayloads};
ghost use Rattle.origin_valid.specs.StatesUnder.{is_kept};
ghost use Rattle.origin_valid.specs.Validity.{validity};

use crate::prefix_payloads::PrefixPayloads;
use crate::states_under::asserted_state;
use crate::validity::{Validity, both};
use local_exceptions::Exceptions;
use net_prefix::{Asn, Prefix, Vrp};
use prefix_trie::{Covering, Trie};
use std::alloc::{AllocError, Allocator, Global};
use std::collections::BTreeSet;
use std::marker::Model;
use vrp_delta::{Delta, Keeper};

/// The payloads by prefix: what a route's origin is judged by. They are seen in payload order.
#[derive(Drop)]
pub struct PayloadTrie<A: Allocator = Global> {
    prefixes: Trie<PrefixPayloads<A>, A>,
    // Of the payloads of one prefix but the first. There is none where the allocator couldn't be cloned.
    alloc: Option<A>,
}

impl<A: Allocator> Model for PayloadTrie<A> {
    ghost use Rattle.std.specs.Prelude.{List};
    ghost use Rattle.net_prefix.specs.declared.payload.Vrp.{Vrp};
    ghost use Rattle.origin_valid.specs.KeptPayloads.{AreByPrefix, payloads_of};

    ghost Value = { List Vrp };

    ghost view = { λ t. payloads_of t.prefixes };

    ghost invariant = { λ t. AreByPrefix t.prefixes };
}

impl<A: Allocator> PayloadTrie<A> {
    /// Whether the payload is kept.
    pub fn contains(&self, payload: &Vrp) -> bool
        ensures { result ≡ has self.now payload.now }
    {
        match self.prefixes.get(&payload.prefix) {
            Some(payloads) => payloads.has(payload),
            None => false,
        }
    }

    /// The state of a route's origin (RFC 6811 section 2): of the prefix, and of the AS that the route comes from, if
    /// it is one AS. It takes no memory, and looks at the payloads alone that cover the prefix.
    pub fn state(&self, prefix: &Prefix, origin: Option<Asn>) -> Validity
        ensures { result ≡ validity self.now prefix.now origin }
    {
        let mut covering = self.prefixes.covering(prefix);
        let mut state = Validity::NotFound;
        while let Some(payloads) = next_payloads(&mut covering) {
            if payloads.has_match(prefix, origin) {
                return Validity::Valid;
            }
            state = Validity::Invalid;
        }
        state
    }

    /// The state of a route's origin by what the exceptions make of the payloads (RFC 8416 section 3). It takes no memory.
    /// Where there are no exceptions it does what `state` does; else it looks each payload that covers the prefix up among
    /// the filters, and each of the at most 33 prefixes that cover it among the assertions.
    pub fn state_under<B: Allocator>(
        &self,
        exceptions: &Exceptions<B>,
        prefix: &Prefix,
        origin: Option<Asn>,
    ) -> Validity
        ensures { result ≡ validity (under exceptions.now self.now) prefix.now origin }
    {
        if exceptions.is_empty() {
            return self.state(prefix, origin);
        }
        both(
            self.kept_state(exceptions, prefix, origin),
            asserted_state(exceptions.assertions(), prefix, origin),
        )
    }

    // The state by the payloads that no filter matches.
    fn kept_state<B: Allocator>(
        &self,
        exceptions: &Exceptions<B>,
        prefix: &Prefix,
        origin: Option<Asn>,
    ) -> Validity
        ensures { result ≡ validity (filter (is_kept exceptions.now) self.now) prefix.now origin }
    {
        let mut covering = self.prefixes.covering(prefix);
        let mut state = Validity::NotFound;
        while let Some(payloads) = next_payloads(&mut covering) {
            state = both(state, payloads.kept_state(exceptions, prefix, origin));
        }
        state
    }

    // The payloads rise.
    fn rises(&self)
        ensures { IsPayloadSet self.now }
    {
        let _ = &self.prefixes;
    }

    // Takes out the payload, if it is there. It takes no memory.
    fn take_out(&mut self, payload: &Vrp)
        ensures { self.new ≡ out payload.now self.old }
    {
        let Some(payloads) = self.prefixes.get(&payload.prefix) else {
            return;
        };
        if payloads.is_only(payload) {
            self.prefixes.remove(&payload.prefix);
        } else {
            self.prefixes
                .update(&payload.prefix, |payloads| payloads.take_out(payload));
        }
    }

    // Takes out each of these payloads that is there. It takes no memory.
    fn take_out_all<B: Allocator>(&mut self, withdrawn: &BTreeSet<Vrp, B>)
        ensures { (q : Payload) → has self.new q ≡ (has self.old q && not (has withdrawn.now.keys q)) }
    {
        for payload in withdrawn {
            self.take_out(payload);
        }
    }
}

impl<A: Allocator + Clone> PayloadTrie<A> {
    /// No payloads.
    pub fn new(alloc: A) -> Self
        ensures { result ≡ [] }
    {
        let more = alloc.clone().ok();
        PayloadTrie {
            prefixes: Trie::new(alloc),
            alloc: more,
        }
    }

    // Puts the payload in. Where memory is refused, nothing changes.
    fn put(&mut self, payload: Vrp) -> Result<(), AllocError>
        ensures ok { OnOk result (self.new ≡ put payload self.old) }
        ensures err { OnErr result (self.new ≡ self.old) }
    {
        if self.prefixes.get(&payload.prefix).is_none() {
            let payloads = PrefixPayloads::one(self.memory()?, payload);
            return match self.prefixes.insert(payload.prefix, payloads) {
                Ok(_) => Ok(()),
                Err(_) => Err(AllocError),
            };
        }
        self.prefixes
            .update(&payload.prefix, |payloads| payloads.put(payload));
        if self.contains(&payload) {
            Ok(())
        } else {
            Err(AllocError)
        }
    }

    fn memory(&self) -> Result<A, AllocError> {
        match &self.alloc {
            Some(alloc) => alloc.clone(),
            None => Err(AllocError),
        }
    }

    // Puts these payloads in. Where memory is refused, some of them are in, and nothing else has changed.
    fn put_all<B: Allocator>(&mut self, announced: &BTreeSet<Vrp, B>) -> Result<(), AllocError>
        ensures ok { OnOk result ((q : Payload) → has self.new q ≡ (has self.old q || has announced.now.keys q)) }
        ensures err { OnErr result ((q : Payload) → has announced.now.keys q ≡ false → has self.new q ≡ has self.old q) }
        ensures needs { OnErr result (announced.now.keys ≢ []) }
    {
        for payload in announced {
            self.put(*payload)?;
        }
        Ok(())
    }
}

impl<A: Allocator + Clone> Keeper for PayloadTrie<A> {
    ghost kept = { λ t. t };

    fn change<B: Allocator>(&mut self, delta: &Delta<B>) -> Result<(), AllocError> {
        self.rises();
        if let Err(refused) = self.put_all(&delta.announced) {
            self.take_out_all(&delta.announced);
            self.rises();
            return Err(refused);
        }
        self.take_out_all(&delta.withdrawn);
        self.rises();
        Ok(())
    }

    fn clear(&mut self) {
        self.prefixes.clear();
    }
}

// The payloads of the next prefix that covers, if one is left.
fn next_payloads<'a, A: Allocator>(
    covering: &mut Covering<'a, PrefixPayloads<A>, A>,
) -> Option<&'a PrefixPayloads<A>>
    ensures { IsNextPayloads result covering.old.left covering.new.left }
{
    match covering.next() {
        Some((_, payloads)) => Some(payloads),
        None => None,
    }
}
