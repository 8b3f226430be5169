//! A payload list in either format.
ghost use Rattle.std.specs.Prelude.{◌≡◌, ◌++◌, ℕ, List, Some, MatchResult};
ghost use Rattle.std.specs.Str.{IsUtf8};
ghost use Rattle.json.specs.Json.{Json, document};
ghost use Rattle.payload_lists.specs.PayloadLists.{IsListOf, IsListedIn, IsRefusedAs, IsRefusedIn};
ghost use Rattle.vrp_json.specs.WrittenTimes.{IsWritten};
ghost use Rattle.vrp_json.specs.declared.format.ListFormat.{ListFormat as SpecFormat};

use crate::fault::PayloadListFault;
use crate::front::read_front;
use std::alloc::Global;
use std::io::{ErrorKind, Read};
use vrp_csv::{CsvFault, Loaded};
use vrp_json::{JsonFault, ListFormat, Written, format_of, read_written};

/// A list that was read.
#[derive(Drop)]
pub struct Listed {
    /// What it has.
    pub loaded: Loaded,
    /// When it says that it was written. Comma-separated values don't.
    pub written: Written,
}

/// The set of the payloads of a list, in the format that its first octet tells, or why it is refused as a list of that
/// format. At a second since 1970 what has expired before it is skipped, by the column or member that tells so; without one
/// nothing expires. Where reading stops before the format is told, it is refused as comma-separated values are at row 0.
pub fn read_payloads<L: Read + Drop>(
    alloc: Global,
    list: L,
    second: Option<u64>,
) -> Result<Listed, PayloadListFault>
    ensures { (text : List ℕ) → L.remaining list ≡ Some text → MatchResult result (λ listed. IsListOf second text listed) (λ fault. IsRefusedAs text fault) }
{
    let mut list = list;
    let front = match read_front(alloc, &mut list) {
        Ok(front) => front,
        Err(fault) => return Err(PayloadListFault::Row(CsvFault { fault, row: 0 })),
    };
    match format_of(front.as_slice()) {
        ListFormat::Csv => read_rows(alloc, front.as_slice(), list, second),
        ListFormat::Json => read_json(alloc, front, list, second),
    }
}

// The comma-separated values of which this front was read.
fn read_rows<L: Read + Drop>(
    alloc: Global,
    front: &[u8],
    list: L,
    second: Option<u64>,
) -> Result<Listed, PayloadListFault>
    ensures { (rest : List ℕ) → L.remaining list ≡ Some rest → MatchResult result (λ listed. IsListedIn second SpecFormat.Csv (front.now ++ rest) listed) (λ fault. IsRefusedIn SpecFormat.Csv (front.now ++ rest) fault) }
{
    match vrp_csv::read_list_at(alloc, front.chain(list), second) {
        Ok(loaded) => Ok(Listed {
            loaded,
            written: Written::Untold,
        }),
        Err(refused) => Err(PayloadListFault::Row(refused)),
    }
}

// The list in JSON of which this front was read.
fn read_json<L: Read + Drop>(
    alloc: Global,
    front: Vec<u8>,
    list: L,
    second: Option<u64>,
) -> Result<Listed, PayloadListFault>
    ensures { (rest : List ℕ) → L.remaining list ≡ Some rest → MatchResult result (λ listed. IsListedIn second SpecFormat.Json (front.items ++ rest) listed) (λ fault. IsRefusedIn SpecFormat.Json (front.items ++ rest) fault) }
{
    let mut list = list;
    let mut octets = front;
    if let Err(error) = list.read_to_end(&mut octets) {
        return Err(fault_of(error.kind()));
    }
    let text = octets.as_slice();
    match vrp_json::read_list_at(alloc, text, second) {
        Ok(loaded) => with_time(alloc, text, loaded),
        Err(fault) => Err(PayloadListFault::Json(fault)),
    }
}

// The list that these octets load, with the time that they tell.
fn with_time(alloc: Global, octets: &[u8], loaded: Loaded) -> Result<Listed, PayloadListFault>
    ensures { MatchResult result (λ listed. (listed.loaded ≡ loaded) × (IsUtf8 octets.now → (value : Json) → document octets.now ≡ Some value → IsWritten value listed.written)) (λ fault. fault ≡ PayloadListFault.Json JsonFault.NoMemory) }
{
    match read_written(alloc, octets) {
        Ok(written) => Ok(Listed { loaded, written }),
        Err(_) => Err(PayloadListFault::Json(JsonFault::NoMemory)),
    }
}

// What the fault of a read means for a list in JSON.
fn fault_of(kind: ErrorKind) -> PayloadListFault
    ensures { (text : List ℕ) → IsRefusedIn SpecFormat.Json text result }
{
    match kind {
        ErrorKind::OutOfMemory => PayloadListFault::Json(JsonFault::NoMemory),
        _ => PayloadListFault::Io,
    }
}
