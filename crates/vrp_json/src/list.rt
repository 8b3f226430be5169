//! A payload list in JSON, read entry by entry.
ghost use Rattle.std.specs.Prelude.{◌≡◌, ◌≤◌, ◌<◌, ◌+◌, ◌^◌, ◌⊎◌, ℕ, Option, None, Ok, Err, IsSome, IfErr, IfOk, OnOk, MatchOption, MatchResult};
ghost use Rattle.std.specs.Str.{IsUtf8};
ghost use Rattle.json.specs.Json.{Items, Json, Members, document};
ghost use Rattle.json.specs.Value.{value_view};
ghost use Rattle.net_prefix.specs.declared.payload.Vrp.{Vrp};
ghost use Rattle.vrp_csv.specs.TakenIn.{TakesIn};
ghost use Rattle.vrp_json.specs.ExpiredEntries.{IsEntryAt, IsLoadAt, IsLoadOfValueAt, LoadsAt};
ghost use Rattle.vrp_json.specs.PayloadDocument.{AreRefused, IsLoad, IsNoJson, IsRefused, IsRefusedValue};
ghost use Rattle.vrp_json.specs.PayloadEntries.{IsEntry};
ghost use Rattle.vrp_json.specs.Places.{IsAtItems, IsAtMemberValue, IsAtMembers, IsAtValue, ReadsItems, ReadsValue};

use crate::entry::read_entry_at;
use crate::fault::{EntryFault, JsonFault};
use crate::walk::{MEMBER_DEPTH, find_roas, open_array, open_object};
use json::{MAX_DEPTH, Reader, Scratch, Value};
use std::alloc::{AllocError, Global};
use std::collections::BTreeSet;
use std::str;
use vrp_csv::Loaded;

// How deep an entry may nest.
const ENTRY_DEPTH: usize = MEMBER_DEPTH - 1;

/// The set of the payloads of a list's entries, or the first fault of the list: that the text is no JSON; that its value
/// is no list of payloads; the first faulty entry; that a second member `roas` stands behind them.
pub fn read_list(alloc: Global, octets: &[u8]) -> Result<Loaded, JsonFault>
    ensures { MatchResult result (λ loaded. IsLoad octets.now loaded) (λ fault. IsRefused octets.now fault) }
{
    read_list_at(alloc, octets, None)
}

/// The same at this second since 1970: an entry whose `expires` is before it is skipped. Without a second nothing expires.
/// Entries that have expired are checked as all others are.
pub fn read_list_at(alloc: Global, octets: &[u8], second: Option<u64>) -> Result<Loaded, JsonFault>
    ensures { MatchResult result (λ loaded. IsLoadAt second octets.now loaded) (λ fault. IsRefused octets.now fault) }
{
    let mut scratch = Scratch::new(alloc);
    let text = checked_text(octets, &mut scratch)?;
    let Ok(mut reader) = Reader::new(text, &mut scratch) else {
        return Err(JsonFault::NoMemory);
    };
    read_value(alloc, &mut reader, second)
}

// The octets as a text that is one value of JSON.
fn checked_text<'a>(octets: &'a [u8], scratch: &mut Scratch) -> Result<&'a str, JsonFault>
    ensures ok { IfOk result (λ text. IsUtf8 octets.now × (text.now ≡ octets.now) × IsSome (document octets.now)) }
    ensures err { IfErr result (λ fault. (fault ≡ JsonFault.NoMemory) ⊎ ((octet : ℕ) × (fault ≡ JsonFault.Text octet) × IsNoJson octets.now octet)) }
{
    let text = match str::from_utf8(octets) {
        Ok(text) => text,
        Err(fault) => return Err(JsonFault::Text(fault.valid_up_to() as u64)),
    };
    match json_end(text, scratch) {
        Ok(None) => Ok(text),
        Ok(Some(octet)) => Err(JsonFault::Text(octet as u64)),
        Err(_) => Err(JsonFault::NoMemory),
    }
}

// The octet at which the text stops being one value of JSON, or none where it is one.
fn json_end(text: &str, scratch: &mut Scratch) -> Result<Option<usize>, AllocError>
    ensures { IfOk result (λ found. MatchOption found (IsSome (document text.now)) (λ octet. document text.now ≡ None)) }
{
    let mut reader = Reader::new(text, scratch)?;
    if reader.skip_value(MAX_DEPTH).is_ok() && reader.next().is_none() {
        return Ok(None);
    }
    Ok(Some(reader.offset()))
}

// The list that the value of a checked text is.
fn read_value(
    alloc: Global,
    reader: &mut Reader<'_>,
    second: Option<u64>,
) -> Result<Loaded, JsonFault>
    ensures { (j : Json) → IsAtValue j reader.old → MatchResult result (λ loaded. IsLoadOfValueAt second j loaded) (λ fault. IsRefusedValue j fault) }
{
    if !open_object(reader) {
        return Err(JsonFault::NotObject);
    }
    read_members(alloc, reader, second)
}

// The list that the members of its object are.
fn read_members(
    alloc: Global,
    reader: &mut Reader<'_>,
    second: Option<u64>,
) -> Result<Loaded, JsonFault>
    ensures { (ms : Members) → IsAtMembers ms reader.old → MatchResult result (λ loaded. LoadsAt second ms loaded) (λ fault. AreRefused ms fault) }
{
    if !find_roas(reader) {
        return Err(JsonFault::NoRoas);
    }
    let loaded = match read_roas(alloc, reader, second) {
        Ok(loaded) => loaded,
        Err(fault) => return Err(fault),
    };
    if find_roas(reader) {
        return Err(JsonFault::SecondRoas);
    }
    Ok(loaded)
}

// The list that the value of the member `roas` is.
fn read_roas(
    alloc: Global,
    reader: &mut Reader<'_>,
    second: Option<u64>,
) -> Result<Loaded, JsonFault>
    ensures { (j : Json) (behind : Members) → IsAtMemberValue j behind reader.old → ReadsValue second j behind result reader.new }
{
    if !open_array(reader) {
        return Err(JsonFault::NotArray);
    }
    read_entries(alloc, reader, second)
}

// The list that the items of its array are.
fn read_entries(
    alloc: Global,
    reader: &mut Reader<'_>,
    second: Option<u64>,
) -> Result<Loaded, JsonFault>
    ensures { (js : Items) (behind : Members) → IsAtItems js behind reader.old → ReadsItems second js behind result reader.new }
{
    let mut loaded = Loaded {
        set: BTreeSet::new(alloc),
        rows: 0,
        skipped: 0,
    };
    for place in 0..u64::MAX {
        if reader.take_end_array() {
            return Ok(loaded);
        }
        // The text was checked, so that memory alone can be wanting.
        let Ok(entry) = Value::read(alloc, reader, ENTRY_DEPTH) else {
            return Err(JsonFault::NoMemory);
        };
        if let Err(fault) = add(&mut loaded, &entry, place, second) {
            return Err(fault);
        }
    }
    // No further entry can be counted.
    Err(JsonFault::NoMemory)
}

// Takes in what the entry at this place says at this second.
fn add(
    loaded: &mut Loaded,
    entry: &Value<'_>,
    place: u64,
    second: Option<u64>,
) -> Result<(), JsonFault>
    requires room { loaded.old.rows + 1 < 2 ^ 64 }
    requires skipped { loaded.old.skipped ≤ loaded.old.rows }
    ensures ok { OnOk result ((answer : Option Vrp) × IsEntryAt second (value_view entry.now) answer × TakesIn answer loaded.old loaded.new) }
    ensures err { IfErr result (λ fault. ((why : EntryFault) × (fault ≡ JsonFault.Entry place why) × IsEntry (value_view entry.now) (Err why)) ⊎ (fault ≡ JsonFault.NoMemory)) }
{
    match read_entry_at(entry, second) {
        Ok(Some(payload)) => {
            if loaded.set.insert(payload).is_err() {
                return Err(JsonFault::NoMemory);
            }
        }
        Ok(None) => loaded.skipped += 1,
        Err(why) => return Err(JsonFault::Entry(place, why)),
    }
    loaded.rows += 1;
    Ok(())
}
