//! What the definitions say, as laws.
ghost use Rattle.std.specs.Prelude.{◌≡◌, ◌≢◌, ℕ, List, None, Some, false, true};
ghost use Rattle.policy.specs.FirstRule.{IsDecided};
ghost use Rattle.policy.specs.PolicyMeaning.{Route, action_by};
ghost use Rattle.policy.specs.PolicyNames.{all_name, is_built_in, is_policy_name, name_of, none_name};
ghost use Rattle.policy.specs.PolicyTable.{PolicyTable, is_known, policy_action, rules_of, with_policy, without_policy};
ghost use Rattle.policy.specs.declared.name.PolicyName.{PolicyName};
ghost use Rattle.policy.specs.declared.rule.Action.TheVariants.{Accept, Reject};
ghost use Rattle.policy.specs.declared.rule.Rule.{Rule};

/// The action is that of the rule with the least index among those that match. Where none matches, the route is rejected.
pub fn the_first_rule_decides()
    ensures { (rules : List Rule) (route : Route) → IsDecided rules route (action_by rules route) }
{}

/// Different texts are different names.
pub fn names_are_texts()
    ensures { (text other : List ℕ) → is_policy_name text ≡ true → is_policy_name other ≡ true → name_of text ≡ name_of other → text ≡ other }
{}

/// `all` accepts each route and sets nothing, `none` rejects each, and so does a policy that isn't known.
pub fn built_in_policies_do_one_thing()
    ensures all { (table : PolicyTable) (route : Route) → policy_action table all_name route ≡ Accept None None None }
    ensures none { (table : PolicyTable) (route : Route) → policy_action table none_name route ≡ Reject }
    ensures unknown { (table : PolicyTable) (name : PolicyName) (route : Route) → is_known table name ≡ false → policy_action table name route ≡ Reject }
{}

/// A policy that is set has its rules, and one that is dropped is unknown. The policies of other names stay as they are.
pub fn policies_go_by_their_names()
    ensures set { (table : PolicyTable) (name : PolicyName) (rules : List Rule) → is_built_in name ≡ false → rules_of (with_policy table name rules) name ≡ Some rules }
    ensures not_set { (table : PolicyTable) (name other : PolicyName) (rules : List Rule) → name ≢ other → rules_of (with_policy table name rules) other ≡ rules_of table other }
    ensures dropped { (table : PolicyTable) (name : PolicyName) → is_built_in name ≡ false → rules_of (without_policy table name) name ≡ None }
    ensures not_dropped { (table : PolicyTable) (name other : PolicyName) → name ≢ other → rules_of (without_policy table name) other ≡ rules_of table other }
{}
