//! The nodes of a trie.
ghost use Rattle.std.specs.Prelude.{◌≡◌, ◌≤◌, ◌<◌, ◌++◌, ◌%◌, ℕ, [], ◌∷◌, None, Some, IfOk, IfErr, OnErr, MatchBool, is_ok, length, if◌then◌else◌};
ghost use Rattle.std.specs.Fn.{FnOnceReturnsAtMut};
ghost use Rattle.std.specs.Option.{option_copied};
ghost use Rattle.net_prefix.specs.Cover.{block_size};
ghost use Rattle.net_prefix.specs.declared.prefix.Prefix.{Prefix};
ghost use Rattle.prefix_trie.specs.Nodes.{all_of, shape, AreParts, AreSides, IsInserted, IsPut, IsRemoved, IsTrie, IsUpdated, ChangesValue, RootIs};
ghost use Rattle.prefix_trie.specs.Places.{IsInside};
ghost use Rattle.prefix_trie.specs.Shape.{no_shape, one_shape};
ghost use Rattle.prefix_trie.specs.TrieMap.{found, with_entry, without};

use crate::places::{Place, fork_of, place_of};
use net_prefix::Prefix;
use std::alloc::{AllocFailed, Allocator};
use std::marker::Model;
use std::mem;

/// What is kept below one prefix.
#[cycle(tree)]
#[derive(Drop)]
pub(crate) struct Tree<V: Drop, A: Allocator> {
    pub(crate) root: Link<V, A>,
}

#[cycle(tree)]
#[derive(Drop)]
pub(crate) enum Link<V: Drop, A: Allocator> {
    Empty,
    Fork(Box<Node<V, A>, A>),
}

#[cycle(tree)]
#[derive(Drop)]
pub(crate) struct Node<V: Drop, A: Allocator> {
    pub(crate) prefix: Prefix,
    pub(crate) value: Option<V>,
    pub(crate) low: Tree<V, A>,
    pub(crate) high: Tree<V, A>,
}

impl<V: Drop, A: Allocator> Model for Tree<V, A> {
    ghost use Rattle.prefix_trie.specs.Shape.{Shape};

    ghost Value = { Shape V };

    ghost use Rattle.prefix_trie.specs.Nodes.{shape, IsTrie, depth};

    ghost view = { λ t. shape t.root };

    ghost invariant = { λ t. IsTrie t.root };

    ghost size = { λ s. depth s.root };

    ghost use Rattle.prefix_trie.specs.Falls.{falls};

    ghost size_decreases = { λ t h. falls (record { dealloc_token = A.dealloc_token }) t.root h };
}

impl<V: Drop, A: Allocator> Tree<V, A> {
    /// Nothing.
    pub(crate) fn empty() -> Self
        ensures { result ≡ no_shape }
    {
        Tree { root: Link::Empty }
    }

    /// The value at the prefix.
    pub(crate) fn get(&self, key: Prefix) -> Option<&V>
        ensures { option_copied result ≡ found self.now.entries key }
    {
        match &self.root {
            Link::Empty => None,
            Link::Fork(node) => match place_of(node.prefix, key) {
                Place::Same => node.value.as_ref(),
                Place::Low => node.low.get(key),
                Place::High => node.high.get(key),
                Place::OverLow | Place::OverHigh | Place::Before | Place::Behind => None,
            },
        }
    }
}

// A node without sides.
fn bare<V: Drop, A: Allocator + Clone>(
    alloc: &A,
    prefix: Prefix,
    value: Option<V>,
) -> Result<Box<Node<V, A>, A>, AllocFailed<Option<V>>>
    ensures prefix { IfOk result (λ node. node.value.prefix ≡ prefix) }
    ensures value { IfOk result (λ node. node.value.value ≡ value) }
    ensures returned { IfErr result (λ failed. failed.value ≡ value) }
{
    let Ok(alloc) = alloc.clone() else {
        return Err(AllocFailed { value });
    };
    let node = Node {
        prefix,
        value,
        low: Tree::empty(),
        high: Tree::empty(),
    };
    match Box::new(alloc, node) {
        Ok(node) => Ok(node),
        Err(failed) => Err(AllocFailed {
            value: value_in(failed.value),
        }),
    }
}

// The value of a node that goes.
fn value_in<V: Drop, A: Allocator>(node: Node<V, A>) -> Option<V>
    ensures { result ≡ node.value }
{
    let Node { value, .. } = node;
    value
}

// The node with these sides.
fn joined<V: Drop, A: Allocator>(
    mut node: Box<Node<V, A>, A>,
    low: Tree<V, A>,
    high: Tree<V, A>,
) -> Tree<V, A>
    requires { AreParts node.value.prefix node.value.value low high }
    ensures entries { result.entries ≡ all_of node.value.prefix node.value.value low high }
    ensures root { result.root ≡ Some node.value.prefix }
{
    node.low = low;
    node.high = high;
    gathered(node)
}

// The node, as a part of a trie.
fn gathered<V: Drop, A: Allocator>(node: Box<Node<V, A>, A>) -> Tree<V, A>
    requires { AreParts node.value.prefix node.value.value node.value.low node.value.high }
    ensures entries { result.entries ≡ all_of node.value.prefix node.value.value node.value.low node.value.high }
    ensures root { result.root ≡ Some node.value.prefix }
{
    Tree {
        root: Link::Fork(node),
    }
}

// The node, or what it has on its sides where it has become needless.
fn mended<V: Drop, A: Allocator>(node: Box<Node<V, A>, A>) -> Tree<V, A>
    requires { AreSides node.value.prefix node.value.value node.value.low node.value.high }
    ensures entries { result.entries ≡ all_of node.value.prefix node.value.value node.value.low node.value.high }
    ensures inside { (base len : ℕ) → IsInside base len node.value.prefix → RootIs (IsInside base len) result.root }
{
    if node.value.is_none() {
        if node.low.is_empty() {
            let Node { high, .. } = Box::into_inner(node);
            return high;
        }
        if node.high.is_empty() {
            let Node { low, .. } = Box::into_inner(node);
            return low;
        }
    }
    gathered(node)
}

impl<V: Drop, A: Allocator> Tree<V, A> {
    // Takes it apart.
    fn open(self) -> Link<V, A>
        ensures same { shape result ≡ self }
        ensures whole { IsTrie result }
    {
        self.root
    }

    fn is_empty(&self) -> bool
        ensures { MatchBool result (self.now ≡ no_shape) (0 < length self.now.entries) }
    {
        matches!(&self.root, Link::Empty)
    }

    /// Takes out the value at the prefix.
    pub(crate) fn remove(&mut self, key: Prefix) -> Option<V>
        ensures { IsRemoved result self.old self.new key }
    {
        let Link::Fork(mut node) = mem::replace(self, Tree::empty()).open() else {
            return None;
        };
        match place_of(node.prefix, key) {
            Place::Same => {
                let removed = node.value.take();
                *self = mended(node);
                removed
            }
            Place::Low => {
                let removed = node.low.remove(key);
                *self = mended(node);
                removed
            }
            Place::High => {
                let removed = node.high.remove(key);
                *self = mended(node);
                removed
            }
            Place::OverLow | Place::OverHigh | Place::Before | Place::Behind => {
                *self = gathered(node);
                None
            }
        }
    }
}

// Changes a value.
fn applied<V, F: FnOnce(&mut V)>(value: &mut V, change: F)
    requires { F.IsAlwaysCallable change }
    ensures { FnOnceReturnsAtMut F.FnOnce change value.old tt value.new }
{
    change(value);
}

// Changes a value, if there is one.
fn changed<V, F: FnOnce(&mut V)>(value: &mut Option<V>, change: F) -> bool
    requires { F.IsAlwaysCallable change }
    ensures { ChangesValue (λ v w. FnOnceReturnsAtMut F.FnOnce change v tt w) result value.old value.new }
{
    match value {
        Some(value) => {
            applied(value, change);
            true
        }
        None => false,
    }
}

impl<V: Drop, A: Allocator> Tree<V, A> {
    /// Changes the value at the prefix, if there is one.
    pub(crate) fn update<F: FnOnce(&mut V)>(&mut self, key: Prefix, change: F) -> bool
        requires { F.IsAlwaysCallable change }
        ensures { IsUpdated (λ v w. FnOnceReturnsAtMut F.FnOnce change v tt w) result self.old self.new key }
    {
        let Link::Fork(mut node) = mem::replace(self, Tree::empty()).open() else {
            return false;
        };
        match place_of(node.prefix, key) {
            Place::Same => {
                let updated = changed(&mut node.value, change);
                *self = gathered(node);
                updated
            }
            Place::Low => {
                let updated = node.low.update(key, change);
                *self = gathered(node);
                updated
            }
            Place::High => {
                let updated = node.high.update(key, change);
                *self = gathered(node);
                updated
            }
            Place::OverLow | Place::OverHigh | Place::Before | Place::Behind => {
                *self = gathered(node);
                false
            }
        }
    }
}

impl<V: Drop, A: Allocator + Clone> Tree<V, A> {
    /// Puts the value at the prefix, and answers the one before.
    pub(crate) fn insert(
        &mut self,
        alloc: &A,
        key: Prefix,
        value: V,
    ) -> Result<Option<V>, AllocFailed<V>>
        ensures { IsInserted result self.old self.new key value }
    {
        let Link::Fork(mut node) = mem::replace(self, Tree::empty()).open() else {
            *self = leaf(alloc, key, value)?;
            return Ok(None);
        };
        match place_of(node.prefix, key) {
            Place::Same => {
                let before = node.value.replace(value);
                *self = gathered(node);
                Ok(before)
            }
            Place::Low => {
                let result = node.low.insert(alloc, key, value);
                *self = gathered(node);
                result
            }
            Place::High => {
                let result = node.high.insert(alloc, key, value);
                *self = gathered(node);
                result
            }
            Place::OverLow => {
                *self = gathered(node);
                self.put_over_low(alloc, key, value)
            }
            Place::OverHigh => {
                *self = gathered(node);
                self.put_over_high(alloc, key, value)
            }
            Place::Before => {
                let fork = fork_of(key, node.prefix);
                *self = gathered(node);
                self.put_before(alloc, fork, key, value)
            }
            Place::Behind => {
                let fork = fork_of(node.prefix, key);
                *self = gathered(node);
                self.put_behind(alloc, fork, key, value)
            }
        }
    }

    // Puts a prefix over all that is here, which its lower half covers.
    fn put_over_low(
        &mut self,
        alloc: &A,
        key: Prefix,
        value: V,
    ) -> Result<Option<V>, AllocFailed<V>>
        requires { AreParts key (Some value) self.old no_shape }
        ensures { IsPut result self.old self.new value key (all_of key (Some value) self.old no_shape) }
    {
        let node = held(alloc, key, value)?;
        let old = mem::replace(self, Tree::empty());
        *self = joined(node, old, Tree::empty());
        Ok(None)
    }

    // Puts a prefix over all that is here, which its upper half covers.
    fn put_over_high(
        &mut self,
        alloc: &A,
        key: Prefix,
        value: V,
    ) -> Result<Option<V>, AllocFailed<V>>
        requires { AreParts key (Some value) no_shape self.old }
        ensures { IsPut result self.old self.new value key (all_of key (Some value) no_shape self.old) }
    {
        let node = held(alloc, key, value)?;
        let old = mem::replace(self, Tree::empty());
        *self = joined(node, Tree::empty(), old);
        Ok(None)
    }

    // Puts a prefix before all that is here, below one that covers both.
    fn put_before(
        &mut self,
        alloc: &A,
        fork: Prefix,
        key: Prefix,
        value: V,
    ) -> Result<Option<V>, AllocFailed<V>>
        requires { AreParts {V = V} fork None (one_shape key value) self.old }
        ensures { IsPut result self.old self.new value fork (all_of fork None (one_shape key value) self.old) }
    {
        let (node, leaf) = forked(alloc, fork, key, value)?;
        let old = mem::replace(self, Tree::empty());
        *self = joined(node, leaf, old);
        Ok(None)
    }

    // Puts a prefix behind all that is here, below one that covers both.
    fn put_behind(
        &mut self,
        alloc: &A,
        fork: Prefix,
        key: Prefix,
        value: V,
    ) -> Result<Option<V>, AllocFailed<V>>
        requires { AreParts {V = V} fork None self.old (one_shape key value) }
        ensures { IsPut result self.old self.new value fork (all_of fork None self.old (one_shape key value)) }
    {
        let (node, leaf) = forked(alloc, fork, key, value)?;
        let old = mem::replace(self, Tree::empty());
        *self = joined(node, old, leaf);
        Ok(None)
    }
}

// A node with a value and without sides.
fn held<V: Drop, A: Allocator + Clone>(
    alloc: &A,
    prefix: Prefix,
    value: V,
) -> Result<Box<Node<V, A>, A>, AllocFailed<V>>
    ensures prefix { IfOk result (λ node. node.value.prefix ≡ prefix) }
    ensures value { IfOk result (λ node. node.value.value ≡ Some value) }
    ensures returned { IfErr result (λ failed. failed.value ≡ value) }
{
    match bare(alloc, prefix, Some(value)) {
        Ok(node) => Ok(node),
        Err(failed) => match failed.value {
            Some(value) => Err(AllocFailed { value }),
            None => unreachable!(),
        },
    }
}

// One value alone.
fn leaf<V: Drop, A: Allocator + Clone>(
    alloc: &A,
    prefix: Prefix,
    value: V,
) -> Result<Tree<V, A>, AllocFailed<V>>
    ensures ok { IfOk result (λ tree. tree ≡ one_shape prefix value) }
    ensures returned { IfErr result (λ failed. failed.value ≡ value) }
{
    let node = held(alloc, prefix, value)?;
    Ok(joined(node, Tree::empty(), Tree::empty()))
}

// A node without a value and without sides, and one value alone.
fn forked<V: Drop, A: Allocator + Clone>(
    alloc: &A,
    fork: Prefix,
    prefix: Prefix,
    value: V,
) -> Result<(Box<Node<V, A>, A>, Tree<V, A>), AllocFailed<V>>
    ensures prefix { IfOk result (λ made. made.0.value.prefix ≡ fork) }
    ensures value { IfOk result (λ made. made.0.value.value ≡ None) }
    ensures leaf { IfOk result (λ made. made.1 ≡ one_shape prefix value) }
    ensures returned { IfErr result (λ failed. failed.value ≡ value) }
{
    let Ok(node) = bare(alloc, fork, None) else {
        return Err(AllocFailed { value });
    };
    let leaf = leaf(alloc, prefix, value)?;
    Ok((node, leaf))
}
