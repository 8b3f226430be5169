//! Why words are no rules.

use crate::forms::misfit_at_front;
use crate::line_cause::LineCause;
use crate::parts::Part;
use crate::rule_words::RuleWord;
use crate::shown_word::ShownWord;

/// Why the words behind `policy` are no name and rules.
pub(crate) fn policy_cause<'a>(words: &[&'a str]) -> Option<LineCause<'a>> {
    let [_, rules @ ..] = words else {
        return Some(LineCause::Missing(Part::Name));
    };
    if rules.is_empty() {
        return Some(LineCause::Missing(Part::Rule));
    }
    for (before, rule) in rules.split(|word| is_apart(word)).enumerate() {
        if let Some(cause) = rule_cause(rule, before.saturating_add(1)) {
            return Some(cause);
        }
    }
    None
}

// Whether rules stand apart by this word.
fn is_apart(word: &&str) -> bool {
    *word == ";"
}

// Why the words are no rule, which is the one of this number.
fn rule_cause<'a>(words: &[&'a str], rule: usize) -> Option<LineCause<'a>> {
    let mut at = 0usize;
    let mut before = None;
    // Each step takes a word at least.
    for _ in 0..words.len() {
        match part_at(words, at, before, rule) {
            Ok(None) => break,
            Ok(Some((word, count))) => {
                before = Some(word);
                at = at.saturating_add(count);
            }
            Err(cause) => return Some(cause),
        }
    }
    end_cause(before, rule)
}

// Why a rule can't end behind this word.
fn end_cause<'a>(before: Option<RuleWord>, rule: usize) -> Option<LineCause<'a>> {
    match before {
        Some(word) if word.may_end() => None,
        _ => Some(LineCause::MissingInRule(rule, Part::Action)),
    }
}

// The part that begins with the word at this place, and of how many words it is; none behind the last word.
fn part_at<'a>(
    words: &[&'a str],
    at: usize,
    before: Option<RuleWord>,
    rule: usize,
) -> Result<Option<(RuleWord, usize)>, LineCause<'a>> {
    let Some(first) = words.get(at) else {
        return Ok(None);
    };
    let rest = words.get(at.saturating_add(1)..).unwrap_or(&[]);
    let word = part_of(first, rest, before, rule)?;
    Ok(Some((word, word.form().len().saturating_add(1))))
}

// The part that begins with this word, behind which stand these.
fn part_of<'a>(
    first: &'a str,
    rest: &[&'a str],
    before: Option<RuleWord>,
    rule: usize,
) -> Result<RuleWord, LineCause<'a>> {
    let Some(word) = RuleWord::of(first) else {
        return Err(LineCause::NoRuleWord(rule, ShownWord(first)));
    };
    if !word.may_follow(before) {
        return Err(LineCause::OutOfOrder(rule, ShownWord(first)));
    }
    match misfit_at_front(rest, word.form()) {
        Some(cause) => Err(cause.in_rule(rule)),
        None => Ok(word),
    }
}
