//! What stands at a place of a line.

use command_lines::{address, number};
use net_prefix::Prefix;
use thiserror::Error;

/// What is wanted at a place of a line.
#[derive(Clone, Copy, Debug, PartialEq, Eq, Error)]
pub enum Part {
    #[error("SLOT, a number of 0 to 63")]
    Slot,
    #[error("AS, a number of 0 to 4294967295")]
    As,
    #[error("ADDRESS, as 192.0.2.1")]
    Address,
    #[error("LOCAL, an address as 192.0.2.1")]
    Local,
    #[error("active or passive")]
    Mode,
    #[error("HOLD, a number of 0 to 65535")]
    Hold,
    #[error("IMPORT, the name of a policy")]
    Import,
    #[error("EXPORT, the name of a policy")]
    Export,
    #[error("NAME, the name of a policy")]
    Name,
    #[error("in or out")]
    Direction,
    #[error("PREFIX, as 192.0.2.0/24")]
    Prefix,
    #[error("COST, a number of 0 to 4294967295")]
    Cost,
    #[error("prefix, as or both")]
    FilterKind,
    #[error("MAX, a number of 0 to 32")]
    MaxLength,
    #[error("the least length of the prefixes, a number of 0 to 32")]
    LeastLength,
    #[error("the greatest length of the prefixes, a number of 0 to 32")]
    GreatestLength,
    #[error("valid, invalid or notfound")]
    State,
    #[error("a number of 0 to 4294967295")]
    Long,
    #[error("a number of 0 to 255")]
    Octet,
    #[error("a rule: tests, and then reject or accept")]
    Rule,
    #[error("reject or accept, in which each rule ends")]
    Action,
}

impl Part {
    /// Whether the word is what is wanted here.
    pub(crate) fn is_met_by(self, word: &str) -> bool {
        match self {
            Part::Slot | Part::MaxLength | Part::LeastLength | Part::GreatestLength | Part::Octet =>
                number::<u8>(word).is_some(),
            Part::As | Part::Cost | Part::Long => number::<u32>(word).is_some(),
            Part::Hold => number::<u16>(word).is_some(),
            Part::Address | Part::Local => address(word).is_some(),
            Part::Mode => matches!(word, "active" | "passive"),
            Part::Import | Part::Export | Part::Name => !word.is_empty(),
            Part::Direction => matches!(word, "in" | "out"),
            Part::Prefix => Prefix::parse(word).is_ok(),
            Part::FilterKind => matches!(word, "prefix" | "as" | "both"),
            Part::State => matches!(word, "valid" | "invalid" | "notfound"),
            Part::Rule | Part::Action => false,
        }
    }
}
