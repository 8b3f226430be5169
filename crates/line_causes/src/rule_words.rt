//! The words with which parts of a rule begin.

use crate::parts::Part;

/// A word with which a part of a rule begins.
#[derive(Clone, Copy, Debug, PartialEq, Eq)]
pub(crate) enum RuleWord {
    Prefix,
    State,
    Origin,
    Path,
    From,
    Reject,
    Accept,
    Degree,
    Med,
    Prepend,
}

const RANGE: [Part; 3] = [Part::Prefix, Part::LeastLength, Part::GreatestLength];

const STATE: [Part; 1] = [Part::State];

const AS: [Part; 1] = [Part::As];

const SLOT: [Part; 1] = [Part::Slot];

const LONG: [Part; 1] = [Part::Long];

const OCTET: [Part; 1] = [Part::Octet];

impl RuleWord {
    /// Which one this word is.
    pub fn of(word: &str) -> Option<RuleWord> {
        match word {
            "prefix" => Some(RuleWord::Prefix),
            "state" => Some(RuleWord::State),
            "origin" => Some(RuleWord::Origin),
            "path" => Some(RuleWord::Path),
            "from" => Some(RuleWord::From),
            "reject" => Some(RuleWord::Reject),
            "accept" => Some(RuleWord::Accept),
            "degree" => Some(RuleWord::Degree),
            "med" => Some(RuleWord::Med),
            "prepend" => Some(RuleWord::Prepend),
            _ => None,
        }
    }

    /// What stands behind it.
    pub fn form(self) -> &'static [Part] {
        match self {
            RuleWord::Prefix => &RANGE,
            RuleWord::State => &STATE,
            RuleWord::Origin | RuleWord::Path => &AS,
            RuleWord::From => &SLOT,
            RuleWord::Reject | RuleWord::Accept => &[],
            RuleWord::Degree | RuleWord::Med => &LONG,
            RuleWord::Prepend => &OCTET,
        }
    }

    /// Whether it may stand behind this one, or at the front of a rule.
    pub fn may_follow(self, before: Option<RuleWord>) -> bool {
        match before {
            None => self.place() <= ACTION,
            Some(RuleWord::Reject) => false,
            Some(before) if before.place() < ACTION => {
                before.place() < self.place() && self.place() <= ACTION
            }
            Some(before) => before.place() < self.place(),
        }
    }

    /// Whether a rule may end behind it.
    pub fn may_end(self) -> bool {
        self.place() >= ACTION
    }

    // Its place in the order.
    fn place(self) -> u8 {
        match self {
            RuleWord::Prefix => 0,
            RuleWord::State => 1,
            RuleWord::Origin => 2,
            RuleWord::Path => 3,
            RuleWord::From => 4,
            RuleWord::Reject | RuleWord::Accept => ACTION,
            RuleWord::Degree => 6,
            RuleWord::Med => 7,
            RuleWord::Prepend => 8,
        }
    }
}

// The place of `reject` and `accept`.
const ACTION: u8 = 5;
