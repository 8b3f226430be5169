//! A refused growth of the policies.
ghost use Rattle.std.specs.Prelude.{◌≤◌};

use net_prefix::Prefix;
use origin_valid::Validity;
use policy::{Action, Condition, Policies, PolicyName, PolicyRefusal, Rule, SeenRoute};
use refusing::Refusing;
use std::alloc::{Allocator, Global};
use std::process::Abort;

// Asks nothing of a route.
const ANY: Condition = Condition {
    prefix: None,
    state: None,
    origin: None,
    path: None,
    from: None,
};

const ACCEPT: Action = Action::Accept {
    degree: None,
    med: None,
    prepend: None,
};

const ACCEPT_ALL: Rule = Rule {
    condition: ANY,
    action: ACCEPT,
};

const REJECT_ALL: Rule = Rule {
    condition: ANY,
    action: Action::Reject,
};

// What the policy of this name makes of a local network.
fn of_network<A: Allocator + Clone>(policies: &Policies<A>, name: PolicyName) -> Action {
    let route = SeenRoute {
        prefix: Prefix::default(),
        state: Validity::NotFound,
        origin: None,
        path: None,
        from: None,
    };
    policies.export(name, &route)
}

// The names of policies in the order in which they are set, and whether each then accepts any route, or rejects it.
#[rattlefmt::skip]
const SETTINGS: [(&str, bool); 7] = [
    ("a", true),
    ("b", true),
    ("c", true),
    ("d", true),
    ("e", true),
    ("b", false),
    ("e", false),
];

// Whether the name is known, and what its policy makes of a local network, is as before, where memory was wanting.
fn is_left<A: Allocator + Clone>(
    policies: &Policies<A>,
    name: PolicyName,
    refusal: PolicyRefusal,
    before: (bool, Action),
) -> bool {
    refusal.number() == 44
        && policies.knows(name) == before.0
        && of_network(policies, name) == before.1
}

// Sets a policy of one rule, and again where a growth is refused. Answers whether one was.
fn is_set_again<A: Allocator + Clone>(
    rt: &impl Abort,
    policies: &mut Policies<A>,
    text: &str,
    rule: Rule,
) -> bool {
    let name = name_of(rt, text);
    let before = (policies.knows(name), of_network(policies, name));
    let refusal = policies.set(text, &[rule]).err();
    if let Some(refusal) = refusal {
        assert!(rt; is_left(policies, name, refusal, before));
        assert!(rt; policies.set(text, &[rule]).is_ok());
    }
    assert!(rt; of_network(policies, name) == rule.action);
    refusal.is_some()
}

// The name of this text, which is one.
fn name_of(rt: &impl Abort, text: &str) -> PolicyName {
    match PolicyName::new(text) {
        Ok(name) => name,
        Err(_) => panic!(rt; "no name"),
    }
}

// Sets policies, and some again with other rules. Answers how often a growth was refused.
fn set_all<A: Allocator + Clone>(rt: &impl Abort, policies: &mut Policies<A>) -> u32 {
    let mut refused = 0u32;
    for (text, accepts) in &SETTINGS {
        let rule = if *accepts { ACCEPT_ALL } else { REJECT_ALL };
        if is_set_again(rt, policies, text, rule) {
            refused = refused.saturating_add(1);
        }
    }
    refused
}

// Does so, looks at the first one, and drops one. Answers how often a growth was refused.
fn fill<A: Allocator + Clone>(rt: &impl Abort, policies: &mut Policies<A>) -> u32 {
    let refused = set_all(rt, policies);
    let first = of_network(policies, name_of(rt, "a"));
    assert!(rt; first == ACCEPT && policies.drop_name("b", false).is_ok());
    refused
}

// Fills the policies, and answers how often a growth was refused.
fn refusals_in<A: Allocator + Clone>(rt: &impl Abort, mut policies: Policies<A>) -> u32 {
    fill(rt, &mut policies)
}

// Sets policies from a heap that refuses the nth request. Answers whether it did.
fn is_filled(rt: &impl Abort, alloc: Global, nth: u64) -> bool
    requires { 1 ≤ nth }
{
    let heap = Refusing::new(alloc, nth);
    let refused = refusals_in(rt, Policies::new(&heap));
    let left = heap.has_refused();
    assert!(rt; refused == u32::from(left));
    left
}

#[test]
fn a_refused_growth_leaves_the_policies(rt: HostRuntime) {
    let mut last = 0u64;
    for nth in 1..1_000u64 {
        if !is_filled(&rt, rt.alloc(), nth) {
            last = nth;
            break;
        }
    }
    assert!(rt; last > 7);
}
