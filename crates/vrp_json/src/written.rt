//! When a list says that it was written.
ghost use Rattle.std.specs.Prelude.{◌≡◌, ◌<◌, ◌^◌, ℕ, Some, IfOk, MatchOption};
ghost use Rattle.std.specs.Str.{IsUtf8};
ghost use Rattle.json.specs.Json.{Json, Members, document};
ghost use Rattle.json.specs.Value.{value_view};
ghost use Rattle.vrp_json.specs.Places.{IsAtMembers, IsAtValue};
ghost use Rattle.vrp_json.specs.WrittenTimes.{IsSecond, IsTimeText, IsToldBy, IsToldIn, IsWritten, WritesTime, metadata_of};

use crate::walk::{MEMBER_DEPTH, find_member, open_object};
use jiff::Timestamp;
use json::{Reader, Scratch, Value};
use std::alloc::{AllocError, Global};
use std::str;

/// When a list says that it was written.
#[derive(Clone, Copy, Debug, PartialEq, Eq)]
pub enum Written {
    /// It doesn't say.
    Untold,
    /// In this second since 1970.
    At(u64),
    /// It has something for a time that is none.
    Unread,
}

/// When the list of these octets, a text that is one value of JSON, says that it was written, by its first member
/// `metadata`: by the first of `buildtime`, `generated` and `generatedTime` that this has. Fails where there is no memory.
pub fn read_written(alloc: Global, octets: &[u8]) -> Result<Written, AllocError>
    ensures { IfOk result (λ written. IsUtf8 octets.now → (value : Json) → document octets.now ≡ Some value → IsWritten value written) }
{
    let Ok(text) = str::from_utf8(octets) else {
        return Ok(Written::Untold);
    };
    let mut scratch = Scratch::new(alloc);
    let mut reader = Reader::new(text, &mut scratch)?;
    written_at(alloc, &mut reader)
}

// What the value of a checked text says.
fn written_at(alloc: Global, reader: &mut Reader<'_>) -> Result<Written, AllocError>
    ensures { IfOk result (λ written. (j : Json) → IsAtValue j reader.old → IsWritten j written) }
{
    if !open_object(reader) {
        return Ok(Written::Untold);
    }
    written_of(alloc, reader)
}

// What the members of its object say.
fn written_of(alloc: Global, reader: &mut Reader<'_>) -> Result<Written, AllocError>
    ensures { IfOk result (λ written. (ms : Members) → IsAtMembers ms reader.old → IsToldIn (metadata_of ms) written) }
{
    if !find_member(reader, "metadata") {
        return Ok(Written::Untold);
    }
    // The text was checked, so that memory alone can be wanting.
    match Value::read(alloc, reader, MEMBER_DEPTH) {
        Ok(metadata) => Ok(told_by(&metadata)),
        Err(_) => Err(AllocError),
    }
}

// What metadata tell.
fn told_by(metadata: &Value<'_>) -> Written
    ensures { IsToldBy (value_view metadata.now) result }
{
    if let Some(time) = metadata.get("buildtime") {
        return time_in(time);
    }
    if let Some(second) = metadata.get("generated") {
        return second_in(second);
    }
    match metadata.get("generatedTime") {
        Some(time) => time_in(time),
        None => Written::Untold,
    }
}

// What a value tells that is to be a text with a time.
fn time_in(value: &Value<'_>) -> Written
    ensures { IsTimeText (value_view value.now) result }
{
    let Some(text) = value.as_str() else {
        return Written::Unread;
    };
    match second_of(text) {
        Some(second) => Written::At(second),
        None => Written::Unread,
    }
}

// The second of the time that the text writes.
fn second_of(text: &str) -> Option<u64>
    ensures { MatchOption result ((second : ℕ) → ¬ (WritesTime text.now second)) (λ second. WritesTime text.now second) }
{
    let Ok(time) = text.parse::<Timestamp>() else {
        return None;
    };
    let second = time.as_second();
    if second < 0 {
        return None;
    }
    Some(second as u64)
}

// What a value tells that is to be a number of seconds.
fn second_in(value: &Value<'_>) -> Written
    ensures { IsSecond (value_view value.now) result }
{
    let Some(word) = value.as_number() else {
        return Written::Unread;
    };
    match vrp_csv::read_second(word.as_bytes()) {
        Some(second) => Written::At(second),
        None => Written::Unread,
    }
}
