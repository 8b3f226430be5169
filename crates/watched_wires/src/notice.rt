//! What a log shows of a NOTIFICATION.
ghost use Rattle.std.specs.Prelude.{◌≡◌, ℕ, List, MatchOption, drop, take};
ghost use Rattle.watched_wires.specs.NoticeText.{TellsText, kept_of};

use crate::kept_data::{KEPT_OCTETS, KeptData};
use crate::names::{error_name, subcode_name};
use crate::shutdown_text::{Quoted, communication_in, is_of_shutdown};
use std::fmt::{self, Display, Formatter};

/// How many octets of the data of a NOTIFICATION are shown at most, where they are no text (own choice).
pub const SHOWN_OCTETS: usize = 32;

/// The code, the subcode and the first data of a NOTIFICATION (RFC 4271 section 4.5).
#[derive(Clone, Copy, Debug, PartialEq, Eq)]
pub struct Notice {
    pub code: u8,
    pub subcode: u8,
    // The first of its data.
    first: KeptData,
    // How many more it has.
    left: usize,
}

impl Notice {
    /// That of a body whose first octets are these, with so many more behind them; a code that isn't there is 0.
    pub fn of(body: &[u8], left: usize) -> Notice
        ensures { kept_of result ≡ take 256 (drop 2 body.now) }
    {
        match body {
            [code, subcode, rest @ ..] => told(*code, *subcode, rest, left),
            [code] => told(*code, 0, &[], left),
            [] => told(0, 0, &[], left),
        }
    }

    /// The text of its Shutdown Communication, if its data are one.
    pub fn text(&self) -> Option<&str>
        ensures { MatchOption result ((text : List ℕ) → ¬ (TellsText self.now text)) (λ text. TellsText self.now text.now) }
    {
        if !is_of_shutdown(self.code, self.subcode) || self.left > 0 {
            return None;
        }
        communication_in(self.first.octets())
    }
}

fn told(code: u8, subcode: u8, data: &[u8], left: usize) -> Notice
    ensures { kept_of result ≡ take 256 «data».now }
{
    Notice {
        code,
        subcode,
        first: KeptData::of(data),
        left: left.saturating_add(data.len().saturating_sub(KEPT_OCTETS)),
    }
}

impl Display for Notice {
    fn fmt<W: fmt::Write>(&self, f: &mut Formatter<W>) -> fmt::Result {
        write!(f, "{}/{}", self.code, self.subcode)?;
        write_names(f, self.code, self.subcode)?;
        match self.text() {
            Some(text) => write!(f, ", {}", Quoted(text)),
            None => write_data(f, self.first.octets(), self.left),
        }
    }
}

fn write_names<W: fmt::Write>(f: &mut Formatter<W>, code: u8, subcode: u8) -> fmt::Result {
    if let Some(name) = error_name(code) {
        write!(f, " {name}")?;
    }
    if let Some(name) = subcode_name(code, subcode) {
        write!(f, ", {name}")?;
    }
    Ok(())
}

fn write_data<W: fmt::Write>(f: &mut Formatter<W>, kept: &[u8], left: usize) -> fmt::Result {
    if kept.is_empty() {
        return Ok(());
    }
    let shown = kept.len().min(SHOWN_OCTETS);
    f.write_str(", data ")?;
    for octet in &kept[..shown] {
        write!(f, "{octet:02x}")?;
    }
    match left.saturating_add(kept.len() - shown) {
        0 => Ok(()),
        left => write!(f, " and {left} octets more"),
    }
}
