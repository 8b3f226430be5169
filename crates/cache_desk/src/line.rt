//! The lines of operators.
ghost use Rattle.std.specs.Prelude.{List, ℕ};
ghost use Rattle.cache_desk.specs.Readings.{AsksAsItSays, IsNoWord, IsTextOf};

use crate::reading::Reading;
use crate::tables::Shown;
use net_prefix::Prefix;
use std::str;

/// What an operator's line asks for.
#[derive(Clone, Copy, Debug, PartialEq, Eq)]
pub(crate) enum Line {
    /// A table.
    Show(Shown),
    /// A reading of the list.
    Read(Reading),
    /// The end of the program.
    Stop,
    /// Nothing that is known.
    Bad,
}

/// What the octets of a line ask for, of which a carriage return at the end is no part. Words are separated by single spaces.
pub(crate) fn line_of(octets: &[u8]) -> Line
    ensures { (text : List ℕ) × IsTextOf octets.now text × AsksAsItSays text result }
{
    match octets.strip_suffix(b"\r") {
        Some(front) => line_by(front),
        None => line_by(octets),
    }
}

fn line_by(octets: &[u8]) -> Line
    ensures { AsksAsItSays octets.now result }
{
    match str::from_utf8(octets) {
        Ok(text) => line_in(text),
        Err(_) => Line::Bad,
    }
}

fn line_in(text: &str) -> Line
    ensures { AsksAsItSays text.now result }
{
    match text {
        "reread" => Line::Read(Reading::Reread),
        "accept" => Line::Read(Reading::Accept),
        "stop" => Line::Stop,
        other => shown_by(other),
    }
}

fn shown_by(text: &str) -> Line
    requires { IsNoWord text.now }
    ensures { AsksAsItSays text.now result }
{
    match text {
        "help" => Line::Show(Shown::Lines),
        "show clients" => Line::Show(Shown::Clients),
        "show versions" => Line::Show(Shown::Versions),
        "show list" => Line::Show(Shown::List),
        "show payloads" => Line::Show(Shown::Payloads(None)),
        other => payloads_at(other),
    }
}

fn payloads_at(text: &str) -> Line
    requires { IsNoWord text.now }
    ensures { AsksAsItSays text.now result }
{
    let Some(prefix) = text.strip_prefix("show payloads ") else {
        return Line::Bad;
    };
    match Prefix::parse(prefix) {
        Ok(prefix) => Line::Show(Shown::Payloads(Some(prefix))),
        Err(_) => Line::Bad,
    }
}
