//! The states by what exceptions make of payloads: by those that no filter matches, and by the assertions.
ghost use Rattle.std.specs.Prelude.{◌≡◌, ◌≤◌, [], ◌∷◌, true, filter};
ghost use Rattle.prefix_trie.specs.CoverWalks.{covers};
ghost use Rattle.origin_valid.specs.StatesUnder.{is_kept, is_long};
ghost use Rattle.origin_valid.specs.Validity.{validity};

use crate::validity::{Validity, both, state_by};
use local_exceptions::Exceptions;
use net_prefix::{Asn, Prefix, Vrp};
use std::alloc::Allocator;
use std::collections::BTreeSet;

/// The state by a payload, if no filter matches it.
pub(crate) fn kept_by<B: Allocator>(
    payload: &Vrp,
    exceptions: &Exceptions<B>,
    prefix: &Prefix,
    origin: Option<Asn>,
) -> Validity
    ensures { result ≡ validity (filter (is_kept exceptions.now) (payload.now ∷ [])) prefix.now origin }
{
    if exceptions.is_filtered(payload) {
        Validity::NotFound
    } else {
        state_by(payload, prefix, origin)
    }
}

/// The state by those payloads of a set that no filter matches.
pub(crate) fn kept_state<A: Allocator, B: Allocator>(
    payloads: &BTreeSet<Vrp, A>,
    exceptions: &Exceptions<B>,
    prefix: &Prefix,
    origin: Option<Asn>,
) -> Validity
    ensures { result ≡ validity (filter (is_kept exceptions.now) payloads.now.keys) prefix.now origin }
{
    let mut state = Validity::NotFound;
    for payload in payloads {
        state = both(state, kept_by(payload, exceptions, prefix, origin));
    }
    state
}

/// The state by asserted payloads: each is of one of the at most 33 prefixes that cover the route's, and so looked up.
pub(crate) fn asserted_state<B: Allocator>(
    asserted: &BTreeSet<Vrp, B>,
    prefix: &Prefix,
    origin: Option<Asn>,
) -> Validity
    ensures { result ≡ validity asserted.now.keys prefix.now origin }
{
    if asserted.is_empty() {
        return Validity::NotFound;
    }
    let mut state = Validity::NotFound;
    for len in 0..prefix.len + 1 {
        state = both(state, asserted_at(asserted, len, prefix, origin));
    }
    state
}

// The state by the asserted payloads whose prefix has this length.
fn asserted_at<B: Allocator>(
    asserted: &BTreeSet<Vrp, B>,
    len: u8,
    prefix: &Prefix,
    origin: Option<Asn>,
) -> Validity
    requires { len ≤ prefix.now.len }
    ensures { result ≡ validity (filter (is_long len) asserted.now.keys) prefix.now origin }
{
    match Prefix::masked(prefix.bits, len) {
        Ok(outer) => asserted_of(asserted, outer, prefix, origin),
        Err(_) => Validity::NotFound,
    }
}

// The same, where this is the prefix of the length that covers the route's.
fn asserted_of<B: Allocator>(
    asserted: &BTreeSet<Vrp, B>,
    outer: Prefix,
    prefix: &Prefix,
    origin: Option<Asn>,
) -> Validity
    requires { covers outer prefix.now ≡ true }
    ensures { result ≡ validity (filter (is_long outer.len) asserted.now.keys) prefix.now origin }
{
    let least = Vrp {
        prefix: outer,
        max_len: outer.len,
        asn: Asn(0),
    };
    let mut state = Validity::NotFound;
    for payload in asserted.range(least..) {
        if payload.prefix != outer {
            return state;
        }
        state = both(state, state_by(payload, prefix, origin));
    }
    state
}
