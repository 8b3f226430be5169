//! Causes.

use crate::parts::Part;
use crate::shown_word::ShownWord;
use command_lines::{address, number};
use net_prefix::{Prefix, PrefixFault};
use thiserror::Error;

/// Why a line commands nothing.
#[derive(Clone, Copy, Debug, PartialEq, Eq, Error)]
pub enum LineCause<'a> {
    #[error("words stand apart by single spaces, and none stands at an end of the line")]
    Spaces,
    #[error("an octet of it is outside ASCII")]
    NotAscii,
    /// No line begins with the first word; the nearest one with which one does, if any is near.
    #[error("no line begins with {0}")]
    FirstWord(ShownWord<'a>),
    #[error("no line begins with {0}, the nearest word is '{1}'")]
    NearWord(ShownWord<'a>, &'static str),
    /// No line has the second word behind the first one.
    #[error("no line begins with {0} and {1}")]
    SecondWord(ShownWord<'a>, ShownWord<'a>),
    #[error("behind {0} stand other words than it takes")]
    OtherWords(ShownWord<'a>),
    #[error("at its end is wanted {0}")]
    Missing(Part),
    #[error("{0} is a word too many")]
    Surplus(ShownWord<'a>),
    #[error("{0} isn't {1}")]
    Wrong(ShownWord<'a>, Part),
    #[error("{0} has bits behind its length, its prefix is {1}")]
    HostBits(ShownWord<'a>, Prefix),
    #[error("{0} is longer than 32 bits")]
    LongPrefix(ShownWord<'a>),
    /// A rule ends where the word is wanted, or another word stands there.
    #[error("rule {0}: at its end is wanted {1}")]
    MissingInRule(usize, Part),
    #[error("rule {0}: {1} isn't {2}")]
    WrongInRule(usize, ShownWord<'a>, Part),
    #[error("rule {0}: {1} is no word of rules: prefix, state, origin, path, from, reject, accept, degree, med, prepend")]
    NoRuleWord(usize, ShownWord<'a>),
    #[error("rule {0}: {1} is out of order: prefix, state, origin, path, from, then reject, or accept, degree, med, prepend")]
    OutOfOrder(usize, ShownWord<'a>),
    #[error("the line is no command")]
    NoCommand,
}

impl<'a> LineCause<'a> {
    /// The word isn't what is wanted at its place.
    pub(crate) fn wrong(word: &'a str, part: Part) -> LineCause<'a> {
        let shown = ShownWord(word);
        if part != Part::Prefix {
            return LineCause::Wrong(shown, part);
        }
        match Prefix::parse(word) {
            Err(PrefixFault::LenOver32) => LineCause::LongPrefix(shown),
            Err(PrefixFault::HostBits) => match masked(word) {
                Some(prefix) => LineCause::HostBits(shown, prefix),
                None => LineCause::Wrong(shown, part),
            },
            _ => LineCause::Wrong(shown, part),
        }
    }

    /// The same of a word of the rule of this number, counted from 1.
    pub(crate) fn in_rule(self, rule: usize) -> LineCause<'a> {
        match self {
            LineCause::Missing(part) => LineCause::MissingInRule(rule, part),
            LineCause::Wrong(word, part) => LineCause::WrongInRule(rule, word, part),
            cause => cause,
        }
    }
}

// The prefix of an address with bits behind the length.
fn masked(word: &str) -> Option<Prefix> {
    let (bits, length) = word.split_once('/')?;
    Prefix::masked(address(bits)?, number(length)?).ok()
}
