//! What operators are shown.

use command_lines::number;
use net_prefix::Prefix;
use scenario::Table;

/// What an operator is shown.
#[derive(Clone, Copy)]
pub enum Shown {
    /// A table that scripts show too.
    Table(Table),
    /// The routes of a slot, in words.
    Received(u8),
    /// The routes to a prefix.
    Prefix(Prefix),
    /// The peers.
    Peers,
    /// The policies that were set.
    Policies,
    /// The local exceptions.
    Exceptions,
    /// The cache session.
    Cache,
    /// The lines that are known.
    Lines,
}

impl Shown {
    /// The slot of whose peer it is.
    pub fn slot(self) -> Option<u8> {
        match self {
            Shown::Received(slot) => Some(slot),
            Shown::Table(Table::In(slot) | Table::Held(slot) | Table::Waiting(slot)) => Some(slot),
            Shown::Table(Table::Sessions | Table::Rib | Table::Payloads) => None,
            Shown::Prefix(_) | Shown::Peers | Shown::Policies => None,
            Shown::Exceptions | Shown::Cache | Shown::Lines => None,
        }
    }
}

/// What the text asks to be shown beyond what scripts show, if that is what it asks for. Words are separated by single spaces.
pub fn shown_by(text: &str) -> Option<Shown> {
    match text {
        "help" => Some(Shown::Lines),
        "show peers" => Some(Shown::Peers),
        "show policies" => Some(Shown::Policies),
        "show exceptions" => Some(Shown::Exceptions),
        "show cache" => Some(Shown::Cache),
        _ => named_by(text),
    }
}

// What the text asks to be shown of a slot or a prefix that it names.
fn named_by(text: &str) -> Option<Shown> {
    if let Some(prefix) = text.strip_prefix("show rib ") {
        return Some(Shown::Prefix(Prefix::parse(prefix).ok()?));
    }
    if let Some(slot) = text.strip_prefix("show in ") {
        return Some(Shown::Received(number(slot)?));
    }
    if let Some(slot) = text.strip_prefix("show octets ") {
        return Some(Shown::Table(Table::In(number(slot)?)));
    }
    None
}
