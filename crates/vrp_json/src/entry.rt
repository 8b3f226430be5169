//! The entries of a payload list.
ghost use Rattle.std.specs.Prelude.{◌≡◌, ◌↔◌, ℕ, Err, IsTrue, MatchOption, MatchResult, option_map};
ghost use Rattle.json.specs.Value.{value_view};
ghost use Rattle.vrp_json.specs.ExpiredEntries.{IsEntryAt, IsExpired, expires_word};
ghost use Rattle.vrp_json.specs.PayloadEntries.{GivesAsn, GivesMax, IsEntry, asn_word, is_object, max_word, prefix_word};

use crate::fault::EntryFault;
use json::Value;
use net_prefix::{Asn, Prefix, Vrp};

// The most digits of a maximum length.
const MAX_DIGITS: usize = 2;

/// What an entry says at this second since 1970: its payload, or none where it is skipped or has expired; without a second
/// nothing expires. An entry that has expired may be at fault too.
pub(crate) fn read_entry_at(
    entry: &Value<'_>,
    second: Option<u64>,
) -> Result<Option<Vrp>, EntryFault>
    ensures { MatchResult result (λ answer. IsEntryAt second (value_view entry.now) answer) (λ fault. IsEntry (value_view entry.now) (Err fault)) }
{
    let said = read_entry(entry)?;
    let Some(second) = second else {
        return Ok(said);
    };
    if is_expired(entry, second) {
        return Ok(None);
    }
    Ok(said)
}

// Whether the entry has expired at this second.
fn is_expired(entry: &Value<'_>, second: u64) -> bool
    ensures { IsTrue result ↔ IsExpired second (value_view entry.now) }
{
    match expires_word(entry) {
        Some(word) => vrp_csv::is_over(word.as_bytes(), second),
        None => false,
    }
}

// What the member `expires` has, which is a number.
fn expires_word<'a>(entry: &Value<'a>) -> Option<&'a str>
    ensures { option_map (λ s. s.now) result ≡ expires_word (value_view entry.now) }
{
    match entry.get("expires") {
        Some(value) => value.as_number(),
        None => None,
    }
}

// What an entry says: its payload, or none where it is skipped. The first fault of: it is no object; the AS; the prefix;
// the maximum length. A skipped entry's maximum length isn't looked at.
fn read_entry(entry: &Value<'_>) -> Result<Option<Vrp>, EntryFault>
    ensures { IsEntry (value_view entry.now) result }
{
    if !is_object(entry) {
        return Err(EntryFault::Object);
    }
    let Some(asn) = read_asn(entry) else {
        return Err(EntryFault::Asn);
    };
    let Some(text) = prefix_word(entry) else {
        return Err(EntryFault::Prefix);
    };
    if text.as_bytes().contains(&b':') {
        return Ok(None);
    }
    let Ok(prefix) = Prefix::parse(text) else {
        return Err(EntryFault::Prefix);
    };
    let Some(max_len) = read_max(entry) else {
        return Err(EntryFault::Max);
    };
    match Vrp::new(prefix, max_len, asn) {
        Ok(payload) => Ok(Some(payload)),
        Err(_) => Err(EntryFault::Max),
    }
}

fn is_object(entry: &Value<'_>) -> bool
    ensures { result ≡ is_object (value_view entry.now) }
{
    matches!(entry, Value::Object(_))
}

// The AS of an entry.
fn read_asn(entry: &Value<'_>) -> Option<Asn>
    ensures { MatchOption result ((asn : ℕ) → ¬ (GivesAsn (value_view entry.now) asn)) (λ asn. GivesAsn (value_view entry.now) asn.0) }
{
    let Some(word) = asn_word(entry) else {
        return None;
    };
    vrp_csv::read_asn(word.as_bytes())
}

// What the member `asn` has: a text, or a number as it is written.
fn asn_word<'a>(entry: &Value<'a>) -> Option<&'a str>
    ensures { option_map (λ s. s.now) result ≡ asn_word (value_view entry.now) }
{
    let Some(value) = entry.get("asn") else {
        return None;
    };
    match value.as_number() {
        Some(word) => Some(word),
        None => value.as_str(),
    }
}

// What the member `prefix` has, which is a text.
fn prefix_word<'a>(entry: &Value<'a>) -> Option<&'a str>
    ensures { option_map (λ s. s.now) result ≡ prefix_word (value_view entry.now) }
{
    match entry.get("prefix") {
        Some(value) => value.as_str(),
        None => None,
    }
}

// The maximum length of an entry.
#[tactic(auto, using(vrp_csv::proofs::Digits::two_digits))]
fn read_max(entry: &Value<'_>) -> Option<u8>
    ensures { MatchOption result ((max_len : ℕ) → ¬ (GivesMax (value_view entry.now) max_len)) (λ max_len. GivesMax (value_view entry.now) max_len) }
{
    let Some(word) = max_word(entry) else {
        return None;
    };
    match vrp_csv::read_number(word.as_bytes(), MAX_DIGITS) {
        Some(number) => Some(number as u8),
        None => None,
    }
}

// What the member `maxLength` has, which is a number.
fn max_word<'a>(entry: &Value<'a>) -> Option<&'a str>
    ensures { option_map (λ s. s.now) result ≡ max_word (value_view entry.now) }
{
    match entry.get("maxLength") {
        Some(value) => value.as_number(),
        None => None,
    }
}
