//! The rows of a payload list.
ghost use Rattle.std.specs.Prelude.{◌≡◌, ◌≢◌, ◌≤◌, ◌<◌, ◌+◌, ◌^◌, ◌↔◌, ℕ, Err, IsTrue, MatchOption, MatchResult, length};
ghost use Rattle.csv.specs.Records.{fields_of};
ghost use Rattle.net_prefix.specs.PrefixText.{Writes};
ghost use Rattle.net_prefix.specs.declared.prefix.Prefix.{Prefix};
ghost use Rattle.vrp_csv.specs.ExpiredRows.{IsExpired, IsOver, IsRowAt};
ghost use Rattle.vrp_csv.specs.PayloadRows.{IsRow, WritesAsn, WritesMax, WritesNumber, field_of, front_of, without_letters};

use crate::fault::RowFault;
use csv::ByteRecord;
use net_prefix::{Asn, Prefix, Vrp};
use std::str;

// The most digits of an AS and of a maximum length.
const ASN_DIGITS: usize = 10;

const MAX_DIGITS: usize = 2;

// The most digits of a second since 1970.
const SECOND_DIGITS: usize = 20;

// How many fields a row has under a header that names `Expires`, and which of them that is.
const EXPIRING_WIDTH: usize = 5;

const EXPIRES: usize = 4;

/// What a row under a header of this width says at this second since 1970: its payload, or none where it is skipped or has
/// expired; without a second nothing expires. A row that has expired may be at fault too.
pub(crate) fn read_row_at(
    fields: &ByteRecord,
    width: usize,
    second: Option<u64>,
) -> Result<Option<Vrp>, RowFault>
    requires { 3 ≤ width }
    ensures { MatchResult result (λ answer. IsRowAt second width (fields_of fields.now) answer) (λ fault. IsRow width (fields_of fields.now) (Err fault)) }
{
    let said = read_row(fields, width)?;
    let Some(second) = second else {
        return Ok(said);
    };
    if is_expired(fields, width, second) {
        return Ok(None);
    }
    Ok(said)
}

// Whether the row has expired at this second.
fn is_expired(fields: &ByteRecord, width: usize, second: u64) -> bool
    ensures { IsTrue result ↔ IsExpired second width (fields_of fields.now) }
{
    if width != EXPIRING_WIDTH {
        return false;
    }
    match fields.get(EXPIRES) {
        Some(text) => is_over(text, second),
        None => false,
    }
}

/// Whether the text writes a second since 1970, in up to 20 digits, that is before this one.
pub fn is_over(text: &[u8], second: u64) -> bool
    ensures { IsTrue result ↔ IsOver second text.now }
{
    match read_second(text) {
        Some(last) => last < second,
        None => false,
    }
}

/// The second since 1970 that the text writes, in up to 20 digits.
pub fn read_second(text: &[u8]) -> Option<u64>
    ensures { MatchOption result ((number : ℕ) → number < 2 ^ 64 → ¬ (WritesNumber 20 text.now number)) (λ number. WritesNumber 20 text.now number) }
{
    // `parse` passes over a plus.
    if text.len() > SECOND_DIGITS || text.first() == Some(&b'+') {
        return None;
    }
    let Ok(text) = str::from_utf8(text) else {
        return None;
    };
    match text.parse::<u64>() {
        Ok(number) => Some(number),
        Err(_) => None,
    }
}

/// What a row under a header of this width says: its payload, or none where it is skipped. The first fault of:
/// another number of fields; the AS; the prefix; the maximum length. A skipped row's maximum length isn't looked at.
pub(crate) fn read_row(fields: &ByteRecord, width: usize) -> Result<Option<Vrp>, RowFault>
    requires { 3 ≤ width }
    ensures { IsRow width (fields_of fields.now) result }
{
    let Some((asn, prefix, max_len)) = first_fields(fields, width) else {
        return Err(RowFault::Fields);
    };
    let Some(asn) = read_asn(asn) else {
        return Err(RowFault::Asn);
    };
    if prefix.contains(&b':') {
        return Ok(None);
    }
    let Some(prefix) = read_prefix(prefix) else {
        return Err(RowFault::Prefix);
    };
    let Some(max_len) = read_max(max_len, prefix.len) else {
        return Err(RowFault::Max);
    };
    match Vrp::new(prefix, max_len, asn) {
        Ok(payload) => Ok(Some(payload)),
        Err(_) => Err(RowFault::Max),
    }
}

// The AS, the prefix and the maximum length of a row of so many fields.
#[tactic(auto, using(crate::proofs::Rows::no_field))]
fn first_fields(fields: &ByteRecord, width: usize) -> Option<(&[u8], &[u8], &[u8])>
    requires { 3 ≤ width }
    ensures { MatchOption result (length (fields_of fields.now) ≢ width) (λ first. (length (fields_of fields.now) ≡ width) × (first.0.now ≡ field_of (fields_of fields.now) (front_of width)) × (first.1.now ≡ field_of (fields_of fields.now) (front_of width + 1)) × (first.2.now ≡ field_of (fields_of fields.now) (front_of width + 2))) }
{
    if fields.len() != width {
        return None;
    }
    let front = front_of(width);
    let Some(asn) = fields.get(front) else {
        return None;
    };
    let Some(prefix) = fields.get(front + 1) else {
        return None;
    };
    let Some(max_len) = fields.get(front + 2) else {
        return None;
    };
    Some((asn, prefix, max_len))
}

// How many fields stand in front of a payload's in rows of so many.
fn front_of(width: usize) -> usize
    ensures { result ≡ front_of width }
{
    if width == 6 { 1 } else { 0 }
}

/// The AS that the text writes: `AS` in either case or nothing, then digits.
pub fn read_asn(text: &[u8]) -> Option<Asn>
    ensures { MatchOption result ((asn : ℕ) → ¬ (WritesAsn text.now asn)) (λ asn. WritesAsn text.now asn.0) }
{
    match read_number(without_letters(text), ASN_DIGITS) {
        Some(number) => Some(Asn(number)),
        None => None,
    }
}

// The text without the letters `AS` at its front.
fn without_letters(text: &[u8]) -> &[u8]
    ensures { result.now ≡ without_letters text.now }
{
    match text {
        [a, s, digits @ ..] if a.eq_ignore_ascii_case(&b'A') && s.eq_ignore_ascii_case(&b'S') => {
            digits
        }
        _ => text,
    }
}

// The prefix that the text writes.
fn read_prefix(text: &[u8]) -> Option<Prefix>
    ensures { MatchOption result ((prefix : Prefix) → ¬ (Writes text.now prefix.bits prefix.len)) (λ prefix. Writes text.now prefix.bits prefix.len) }
{
    let Ok(text) = str::from_utf8(text) else {
        return None;
    };
    match Prefix::parse(text) {
        Ok(prefix) => Some(prefix),
        Err(_) => None,
    }
}

// The maximum length that the text writes, which is the prefix length where the text is empty.
#[tactic(auto, using(crate::proofs::Digits::two_digits))]
fn read_max(text: &[u8], len: u8) -> Option<u8>
    ensures { MatchOption result ((max_len : ℕ) → ¬ (WritesMax len text.now max_len)) (λ max_len. WritesMax len text.now max_len) }
{
    if text.is_empty() {
        return Some(len);
    }
    match read_number(text, MAX_DIGITS) {
        Some(number) => Some(number as u8),
        None => None,
    }
}

/// The number that the text writes in one decimal digit or more, and no more than so many.
pub fn read_number(text: &[u8], most: usize) -> Option<u32>
    ensures { MatchOption result ((number : ℕ) → number < 2 ^ 32 → ¬ (WritesNumber most text.now number)) (λ number. WritesNumber most text.now number) }
{
    // `parse` passes over a plus.
    if text.len() > most || text.first() == Some(&b'+') {
        return None;
    }
    let Ok(text) = str::from_utf8(text) else {
        return None;
    };
    match text.parse::<u32>() {
        Ok(number) => Some(number),
        Err(_) => None,
    }
}
