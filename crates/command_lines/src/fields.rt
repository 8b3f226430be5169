//! Numbers, addresses, names and other words of a line.
ghost use Rattle.std.specs.Prelude.{◌≡◌, ◌≢◌, Ok, Err, IsTrue, ◌↔◌, IsSome, IsNone, IfSome, MatchOption};
ghost use Rattle.std.specs.List.{AllPass};
ghost use Rattle.std.specs.Bool.{MatchBool};
ghost use Rattle.std.specs.Char.{is_ascii_digit};
ghost use Rattle.command_lines.specs.CommandWords.{WritesPrefix};
ghost use Rattle.command_lines.specs.Words.{Finds, IsName, WritesAddress, WritesBits, mode_word};

use bgp_attr::Mode;
use net_prefix::{Asn, Prefix};
use std::net::Ipv4Addr;
use std::str::FromStr;

// Whether a text has digits alone.
fn is_digits(text: &str) -> bool
    ensures { IsTrue result ↔ AllPass is_ascii_digit text.now }
{
    text.as_bytes().iter().all(|octet| octet.is_ascii_digit())
}

/// The number that digits alone write, where it is in the range of its type. Leading zeros pass.
pub fn number<N: FromStr>(text: &str) -> Option<N>
where
    N::Err: Drop,
    ensures digits { IsSome result → AllPass is_ascii_digit text.now }
    ensures value { IfSome result (λ n. N.from_str_gives text.now (Ok n)) }
    ensures none { IsNone result → AllPass is_ascii_digit text.now → (why : N.Err) × N.from_str_gives text.now (Err why) }
{
    if !is_digits(text) {
        return None;
    }
    text.parse().ok()
}

/// A number of 8 bits.
pub(crate) fn octet(text: &str) -> Option<u8>
    ensures { Finds (WritesBits 8 text.now) result }
{
    number(text)
}

/// A number of 16 bits.
pub(crate) fn short(text: &str) -> Option<u16>
    ensures { Finds (WritesBits 16 text.now) result }
{
    number(text)
}

/// A number of 32 bits.
pub(crate) fn long(text: &str) -> Option<u32>
    ensures { Finds (WritesBits 32 text.now) result }
{
    number(text)
}

/// The AS of a number.
pub(crate) fn asn_of(text: &str) -> Option<Asn>
    ensures { Finds (λ asn. WritesBits 32 text.now asn.0) result }
{
    Some(Asn(long(text)?))
}

/// Whether a word is this one.
pub(crate) fn is_word(word: &str, other: &str) -> bool
    ensures { MatchBool result (word.now ≡ other.now) (word.now ≢ other.now) }
{
    word == other
}

/// The address of four numbers of at most 255 without leading zeros.
pub fn address(text: &str) -> Option<u32>
    ensures { Finds (WritesAddress text.now) result }
{
    let address: Ipv4Addr = text.parse().ok()?;
    Some(address.to_bits())
}

/// The prefix that a text writes.
pub(crate) fn prefix_of(text: &str) -> Option<Prefix>
    ensures { Finds (WritesPrefix text.now) result }
{
    Prefix::parse(text).ok()
}

/// A word that may name something: not an empty one.
pub(crate) fn name_of<'a>(word: &'a str) -> Option<&'a str>
    ensures { MatchOption result (¬ (IsName word.now)) (λ name. (name.now ≡ word.now) × IsName name.now) }
{
    if word.is_empty() {
        return None;
    }
    Some(word)
}

/// Which side connects.
pub(crate) fn mode_of(text: &str) -> Option<Mode>
    ensures { Finds (λ mode. text.now ≡ mode_word mode) result }
{
    match text {
        "active" => Some(Mode::Active),
        "passive" => Some(Mode::Passive),
        _ => None,
    }
}
