//! The rules of a policy.
ghost use Rattle.std.specs.Prelude.{◌≡◌, ◌≢◌, ◌∷◌, ◌≤◌, ◌<◌, ◌^◌, ℕ, List, Option, Some, IfOk, IfSome, IsSomeAnd, MatchOption, codes, map};
ghost use Rattle.std.specs.List.{slice_split};
ghost use Rattle.command_lines.specs.RuleWords.{AreNoRules, AreRules, IsAction, IsNumbered, IsPrefixTest, IsRule, IsStateTest, are_apart, number_of, rule_groups};
ghost use Rattle.command_lines.specs.Words.{Begin, Finds, Reads};
ghost use Rattle.origin_valid.specs.declared.validity.Validity.{Validity as State};
ghost use Rattle.policy.specs.declared.rule.PrefixRange.{PrefixRange as Range};

use crate::command_line::LineFault;
use crate::fields::{is_word, long, octet, prefix_of};
use crate::words::first_word;
use bgp_conf::{Action, Condition, PrefixRange, Rule};
use net_prefix::Asn;
use origin_valid::Validity;
use std::alloc::{AllocError, Global};

/// The rules between the words `;`: at least one.
pub(crate) fn rules_of(alloc: Global, words: &[&str]) -> Result<Vec<Rule>, LineFault>
    ensures { Reads (λ rules. AreRules (rule_groups (map (λ word. word.now) words.now)) rules.items) (AreNoRules (rule_groups (map (λ word. word.now) words.now))) result }
{
    let groups = groups_of(alloc, words)?;
    each_rule(alloc, groups.as_slice())
}

// The words of each rule.
fn groups_of<'w, 'a>(alloc: Global, words: &'w [&'a str]) -> Result<Vec<&'w [&'a str]>, AllocError>
    ensures { IfOk result (λ groups. map (λ group. group.now) groups.items ≡ slice_split (λ word. are_apart word.now) words.now) }
{
    words.split(|word| is_apart(word)).collect(alloc)
}

// Whether rules stand apart by this word.
fn is_apart(word: &&str) -> bool
    ensures { result ≡ are_apart word.now.now }
{
    *word == ";"
}

fn each_rule(alloc: Global, groups: &[&[&str]]) -> Result<Vec<Rule>, LineFault>
    ensures { Reads (λ rules. AreRules (map (λ group. map (λ word. word.now) group.now) groups.now) rules.items) (AreNoRules (map (λ group. map (λ word. word.now) group.now) groups.now)) result }
{
    let mut rules = Vec::new(alloc);
    for words in groups {
        let Some(rule) = rule_of(words) else {
            return Err(LineFault::BadLine);
        };
        if rules.push(rule).is_err() {
            return Err(LineFault::NoMemory);
        }
    }
    Ok(rules)
}

// The rule that these words are: tests and then an action, each part at most once and in its order.
fn rule_of(words: &[&str]) -> Option<Rule>
    ensures { Finds (IsRule (map (λ word. word.now) words.now)) result }
{
    let (prefix, words) = prefix_test(words)?;
    let (state, words) = state_test(words)?;
    let (origin, words) = numbered("origin", words)?;
    let (path, words) = numbered("path", words)?;
    let (from, words) = numbered("from", words)?;
    let condition = Condition {
        prefix,
        state,
        origin: asn(origin),
        path: asn(path),
        from: slot(from)?,
    };
    Some(Rule {
        condition,
        action: action_of(words)?,
    })
}

// `prefix P G L`
fn prefix_test<'w, 'a>(words: &'w [&'a str]) -> Option<(Option<PrefixRange>, &'w [&'a str])>
    ensures some { IfSome result (λ read. IsPrefixTest (map (λ word. word.now) words.now) read.0 (map (λ word. word.now) read.1.now)) }
    ensures only { (range : Option Range) (rest : List (List ℕ)) → IsPrefixTest (map (λ word. word.now) words.now) range rest → ¬ (Begin rest (codes "prefix")) → IsSomeAnd result (λ read. map (λ word. word.now) read.1.now ≡ rest) }
{
    let Some((prefix, from, to, rest)) = words_of_prefix(words) else {
        return Some((None, words));
    };
    let range = PrefixRange {
        prefix: prefix_of(prefix)?,
        from: octet(from)?,
        to: octet(to)?,
    };
    Some((Some(range), rest))
}

// The three words behind `prefix`, and those behind them.
fn words_of_prefix<'w, 'a>(
    words: &'w [&'a str],
) -> Option<(&'a str, &'a str, &'a str, &'w [&'a str])>
    ensures { MatchOption result ((prefix from to : List ℕ) (rest : List (List ℕ)) → map (λ word. word.now) words.now ≢ codes "prefix" ∷ prefix ∷ from ∷ to ∷ rest) (λ cut. map (λ word. word.now) words.now ≡ codes "prefix" ∷ cut.0.now ∷ cut.1.now ∷ cut.2.now ∷ map (λ word. word.now) cut.3.now) }
{
    match words {
        ["prefix", prefix, from, to, rest @ ..] => Some((*prefix, *from, *to, rest)),
        _ => None,
    }
}

// `state valid|invalid|notfound`
fn state_test<'w, 'a>(words: &'w [&'a str]) -> Option<(Option<Validity>, &'w [&'a str])>
    ensures some { IfSome result (λ read. IsStateTest (map (λ word. word.now) words.now) read.0 (map (λ word. word.now) read.1.now)) }
    ensures only { (state : Option State) (rest : List (List ℕ)) → IsStateTest (map (λ word. word.now) words.now) state rest → ¬ (Begin rest (codes "state")) → IsSomeAnd result (λ read. map (λ word. word.now) read.1.now ≡ rest) }
{
    match words {
        ["state", "valid", rest @ ..] => Some((Some(Validity::Valid), rest)),
        ["state", "invalid", rest @ ..] => Some((Some(Validity::Invalid), rest)),
        ["state", "notfound", rest @ ..] => Some((Some(Validity::NotFound), rest)),
        ["state", ..] => None,
        words => Some((None, words)),
    }
}

// The name of a test or of a part of an action, and its number.
fn numbered<'w, 'a>(name: &str, words: &'w [&'a str]) -> Option<(Option<u32>, &'w [&'a str])>
    ensures some { IfSome result (λ read. IsNumbered 32 name.now (map (λ word. word.now) words.now) read.0 (map (λ word. word.now) read.1.now)) }
    ensures only { (number : Option ℕ) (rest : List (List ℕ)) → IsNumbered 32 name.now (map (λ word. word.now) words.now) number rest → ¬ (Begin rest name.now) → IsSomeAnd result (λ read. (map (λ word. word.now) read.1.now ≡ rest) × (read.0 ≡ number)) }
{
    match words {
        [word, value, rest @ ..] if is_word(word, name) => Some((Some(long(value)?), rest)),
        words => Some((None, words)),
    }
}

// The AS of a number.
fn asn(number: Option<u32>) -> Option<Asn>
    ensures { number_of result ≡ number }
{
    match number {
        Some(number) => Some(Asn(number)),
        None => None,
    }
}

// A slot is a number of one octet.
fn slot(number: Option<u32>) -> Option<Option<u8>>
    ensures { MatchOption result ((n : ℕ) × (number ≡ Some n) × (2 ^ 8 ≤ n)) (λ slot. (slot ≡ number) × IfSome slot (λ n. n < 2 ^ 8)) }
{
    match number {
        Some(number) => Some(Some(u8::try_from(number).ok()?)),
        None => Some(None),
    }
}

// `reject`, or `accept` with any of `degree N`, `med N`, `prepend N`
fn action_of(words: &[&str]) -> Option<Action>
    ensures { Finds (IsAction (map (λ word. word.now) words.now)) result }
{
    match words {
        ["reject"] => Some(Action::Reject),
        ["accept", words @ ..] => accept(words),
        _ => None,
    }
}

fn accept(words: &[&str]) -> Option<Action>
    ensures { Finds (IsAction (codes "accept" ∷ map (λ word. word.now) words.now)) result }
{
    let (degree, words) = numbered("degree", words)?;
    let (med, words) = numbered("med", words)?;
    let (prepend, words) = numbered("prepend", words)?;
    match first_word(words) {
        Some(_) => None,
        None => Some(Action::Accept {
            degree,
            med,
            prepend: slot(prepend)?,
        }),
    }
}
