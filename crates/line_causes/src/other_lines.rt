//! Lines that are known beside commands.

use crate::forms::misfit;
use crate::line_cause::LineCause;
use crate::nearest::nearest;
use crate::parts::Part;
use crate::shown_word::ShownWord;
use std::alloc::{AllocError, Global};

/// A line that is known beside commands: its first words, and what stands behind them.
#[derive(Clone, Copy)]
pub struct OtherLine {
    pub first: &'static str,
    pub second: Option<&'static str>,
    pub form: &'static [Part],
}

const SLOT: [Part; 1] = [Part::Slot];

const PREFIX: [Part; 1] = [Part::Prefix];

/// The lines of an operator of a speaker that command nothing.
#[rattlefmt::skip]
pub const OPERATOR_LINES: [OtherLine; 14] = [
    OtherLine { first: "show", second: Some("sessions"), form: &[] },
    OtherLine { first: "show", second: Some("peers"), form: &[] },
    OtherLine { first: "show", second: Some("cache"), form: &[] },
    OtherLine { first: "show", second: Some("rib"), form: &PREFIX },
    OtherLine { first: "show", second: Some("payloads"), form: &[] },
    OtherLine { first: "show", second: Some("in"), form: &SLOT },
    OtherLine { first: "show", second: Some("octets"), form: &SLOT },
    OtherLine { first: "show", second: Some("held"), form: &SLOT },
    OtherLine { first: "show", second: Some("waiting"), form: &SLOT },
    OtherLine { first: "show", second: Some("policies"), form: &[] },
    OtherLine { first: "show", second: Some("exceptions"), form: &[] },
    OtherLine { first: "clear", second: None, form: &SLOT },
    OtherLine { first: "stop", second: None, form: &[] },
    OtherLine { first: "help", second: None, form: &[] },
];

/// The nearest of their first words from which few edits lead to this one, with how many, if there is one.
pub(crate) fn nearest_first(
    alloc: Global,
    word: &str,
    others: &[OtherLine],
) -> Result<Option<(usize, &'static str)>, AllocError> {
    let mut found: Option<(usize, &'static str)> = None;
    for line in others {
        let near = nearest(alloc, word, &[line.first])?;
        found = nearer(found, near);
    }
    Ok(found)
}

// The one with fewer edits, or the first of them.
fn nearer(
    one: Option<(usize, &'static str)>,
    two: Option<(usize, &'static str)>,
) -> Option<(usize, &'static str)> {
    match (one, two) {
        (Some((edits, _)), Some((fewer, _))) if fewer < edits => two,
        (Some(_), _) => one,
        (None, _) => two,
    }
}

/// Why the words behind this first one are none of these lines.
pub(crate) fn other_cause<'a>(
    first: &'a str,
    rest: &[&'a str],
    others: &[OtherLine],
) -> LineCause<'a> {
    match rest {
        [second, behind @ ..] => match form_behind(first, second, others) {
            Some(form) => cause_behind(first, behind, form),
            None => alone_cause(first, rest, others),
        },
        [] => alone_cause(first, rest, others),
    }
}

// What stands behind these two words.
fn form_behind(first: &str, second: &str, others: &[OtherLine]) -> Option<&'static [Part]> {
    let line = others
        .iter()
        .find(|line| line.first == first && has_second(line, second))?;
    Some(line.form)
}

fn has_second(line: &OtherLine, word: &str) -> bool {
    match line.second {
        Some(second) => second == word,
        None => false,
    }
}

// The cause where the first word stands alone in its line, or no line has the second one.
fn alone_cause<'a>(first: &'a str, rest: &[&'a str], others: &[OtherLine]) -> LineCause<'a> {
    let alone = others
        .iter()
        .find(|line| line.first == first && line.second.is_none());
    match (alone, rest) {
        (Some(line), _) => cause_behind(first, rest, line.form),
        (None, [second, ..]) => LineCause::SecondWord(ShownWord(first), ShownWord(second)),
        (None, []) => LineCause::OtherWords(ShownWord(first)),
    }
}

fn cause_behind<'a>(first: &'a str, words: &[&'a str], form: &[Part]) -> LineCause<'a> {
    match misfit(words, form) {
        Some(cause) => cause,
        None => LineCause::OtherWords(ShownWord(first)),
    }
}
