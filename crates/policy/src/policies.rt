//! The policies by their names.
ghost use Rattle.std.specs.Prelude.{slice_get, ◌≡◌, [], None, Some, MatchResult, OnErr, OnOk};
ghost use Rattle.std.specs.List.{list_all};
ghost use Rattle.std.specs.Option.{option_map};
ghost use Rattle.policy.specs.PolicyNames.{name_of};
ghost use Rattle.policy.specs.PolicyRefusals.{IsRefusedFor, drop_refusal, is_full, is_in_range, set_refusal};
ghost use Rattle.policy.specs.PolicyTable.{is_known, policy_action, with_policy, without_policy};

use crate::name::PolicyName;
use crate::refusal::PolicyRefusal;
use crate::rule::{Action, Rule, action_by};
use crate::seen::SeenRoute;
use indexmap::IndexMap;
use std::alloc::{Allocator, Global};
use std::hash::{BuildHasherDefault, FoldHasher};
use std::marker::Model;

/// The most policies, the two built-in ones among them.
pub const MAX_POLICIES: usize = 64;

/// The most rules in a policy.
pub const MAX_RULES: usize = 256;

// The policies that are built in.
const BUILT_IN: usize = 2;

// What `all` makes of each route.
const ACCEPT: Action = Action::Accept {
    degree: None,
    med: None,
    prepend: None,
};

/// The policies that operators have set, by their names.
#[derive(Drop)]
pub struct Policies<A: Allocator = Global> {
    policies: IndexMap<PolicyName, Vec<Rule, A>, BuildHasherDefault<FoldHasher>, A>,
    // Of the rules.
    alloc: A,
}

impl<A: Allocator> Model for Policies<A> {
    ghost use Rattle.policy.specs.PolicyTable.{NamesDiffer, PolicyTable, table_of};

    ghost Value = { PolicyTable };

    ghost view = { λ p. table_of p.policies.entries };

    ghost invariant = { λ p. NamesDiffer (table_of p.policies.entries) };
}

impl<A: Allocator + Clone + Copy> Policies<A> {
    /// The built-in policies alone.
    pub fn new(alloc: A) -> Self
        ensures { result ≡ [] }
    {
        Policies {
            policies: IndexMap::new(alloc),
            alloc,
        }
    }
}

impl<A: Allocator + Clone> Policies<A> {
    /// Whether there is a policy of the name, built in or set.
    #[tactic(auto, unfolding(crate::specs::PolicyTable::rules_of))]
    pub fn knows(&self, name: PolicyName) -> bool
        ensures { result ≡ is_known self.now name }
    {
        name.is_built_in() || self.policies.contains_key(&name)
    }

    /// The name and the rules of the policy that was set behind so many others.
    pub fn nth(&self, index: usize) -> Option<(PolicyName, &[Rule])>
        ensures { option_map (λ policy. (policy.0, policy.1.now)) result ≡ slice_get self.now index }
    {
        let (name, rules) = self.policies.get_index(index)?;
        Some((*name, rules.as_slice()))
    }

    /// Why the policy can't be set, if it can't. Memory may be refused as well.
    pub fn check_set(&self, name: &str, rules: &[Rule]) -> Result<(), PolicyRefusal>
        ensures { MatchResult result
            (λ _. set_refusal self.now name.now rules.now ≡ None)
            (λ why. set_refusal self.now name.now rules.now ≡ Some why) }
    {
        self.settable(name, rules)?;
        Ok(())
    }

    /// Why the policy can't be dropped, if it can't.
    pub fn check_drop(&self, name: &str, in_use: bool) -> Result<(), PolicyRefusal>
        ensures { MatchResult result
            (λ _. drop_refusal self.now name.now in_use ≡ None)
            (λ why. drop_refusal self.now name.now in_use ≡ Some why) }
    {
        self.droppable(name, in_use)?;
        Ok(())
    }

    /// Sets the rules of a policy, in place of those that it has. Where that is refused, nothing changes.
    pub fn set(&mut self, name: &str, rules: &[Rule]) -> Result<(), PolicyRefusal>
        ensures refusal { MatchResult result
            (λ _. set_refusal self.old name.now rules.now ≡ None)
            (λ why. IsRefusedFor (set_refusal self.old name.now rules.now) why) }
        ensures ok { OnOk result (self.new ≡ with_policy self.old (name_of name.now) rules.now) }
        ensures err { OnErr result (self.new ≡ self.old) }
    {
        let name = self.settable(name, rules)?;
        let rules = self.copied(rules)?;
        match self.policies.insert(name, rules) {
            Ok(_) => Ok(()),
            Err(_) => Err(PolicyRefusal::NoMemory),
        }
    }

    /// Drops a policy that isn't used. It takes no memory.
    pub fn drop_name(&mut self, name: &str, in_use: bool) -> Result<(), PolicyRefusal>
        ensures refusal { MatchResult result
            (λ _. drop_refusal self.old name.now in_use ≡ None)
            (λ why. drop_refusal self.old name.now in_use ≡ Some why) }
        ensures ok { OnOk result (self.new ≡ without_policy self.old (name_of name.now)) }
        ensures err { OnErr result (self.new ≡ self.old) }
    {
        let name = self.droppable(name, in_use)?;
        self.policies.shift_remove(&name);
        Ok(())
    }

    /// What becomes of a route that a peer announced, by its import policy. It takes no memory.
    pub fn import(&self, name: PolicyName, route: &SeenRoute<'_, A>) -> Action
        ensures { result ≡ policy_action self.now name route.now }
    {
        self.action(&name, route)
    }

    /// What becomes of a route that is to be announced to a peer, by its export policy. It takes no memory.
    pub fn export(&self, name: PolicyName, route: &SeenRoute<'_, A>) -> Action
        ensures { result ≡ policy_action self.now name route.now }
    {
        self.action(&name, route)
    }

    #[tactic(auto, unfolding(crate::specs::PolicyTable::policy_action, crate::specs::PolicyTable::rules_of))]
    fn action(&self, name: &PolicyName, route: &SeenRoute<'_, A>) -> Action
        ensures { result ≡ policy_action self.now name.now route.now }
    {
        if name.is_all() {
            return ACCEPT;
        }
        if name.is_none() {
            return Action::Reject;
        }
        match self.policies.get(name) {
            Some(rules) => action_by(rules.as_slice(), route),
            None => Action::Reject,
        }
    }

    // The name of a policy that can be set.
    #[tactic(auto, unfolding(crate::specs::PolicyRefusals::set_refusal))]
    fn settable(&self, text: &str, rules: &[Rule]) -> Result<PolicyName, PolicyRefusal>
        ensures { MatchResult result
            (λ name. (set_refusal self.now text.now rules.now ≡ None) × (name ≡ name_of text.now))
            (λ why. set_refusal self.now text.now rules.now ≡ Some why) }
    {
        let name = PolicyName::new(text)?;
        if !are_in_range(rules) {
            return Err(PolicyRefusal::Range);
        }
        if rules.len() > MAX_RULES || !self.knows(name) && self.is_full() {
            return Err(PolicyRefusal::TooMany);
        }
        if name.is_built_in() {
            return Err(PolicyRefusal::InUse);
        }
        Ok(name)
    }

    // The name of a policy that can be dropped.
    #[tactic(auto, unfolding(crate::specs::PolicyRefusals::drop_refusal))]
    fn droppable(&self, text: &str, in_use: bool) -> Result<PolicyName, PolicyRefusal>
        ensures { MatchResult result
            (λ name. (drop_refusal self.now text.now in_use ≡ None) × (name ≡ name_of text.now))
            (λ why. drop_refusal self.now text.now in_use ≡ Some why) }
    {
        let name = PolicyName::new(text)?;
        if !self.knows(name) {
            return Err(PolicyRefusal::UnknownName);
        }
        if name.is_built_in() || in_use {
            return Err(PolicyRefusal::InUse);
        }
        Ok(name)
    }

    // Whether there is no room for a further policy.
    fn is_full(&self) -> bool
        ensures { result ≡ is_full self.now }
    {
        self.policies.len() >= MAX_POLICIES - BUILT_IN
    }

    // Takes memory for the rules.
    fn copied(&self, rules: &[Rule]) -> Result<Vec<Rule, A>, PolicyRefusal>
        ensures { MatchResult result (λ copy. copy.items ≡ rules.now) (λ why. why ≡ PolicyRefusal.NoMemory) }
    {
        let Ok(alloc) = self.alloc.clone() else {
            return Err(PolicyRefusal::NoMemory);
        };
        let mut copy = Vec::new(alloc);
        match copy.extend_from_slice(rules) {
            Ok(()) => Ok(copy),
            Err(_) => Err(PolicyRefusal::NoMemory),
        }
    }
}

fn are_in_range(rules: &[Rule]) -> bool
    ensures { result ≡ list_all is_in_range rules.now }
{
    rules.iter().all(|rule| rule.is_in_range())
}
