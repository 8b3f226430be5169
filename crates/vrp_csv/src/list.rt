//! A payload list, read row by row.
ghost use Rattle.std.specs.Prelude.{◌≡◌, ◌≤◌, ◌<◌, ◌+◌, ◌^◌, ℕ, List, Option, Ok, Err, Some, IfOk, IfErr, OnOk, MatchResult, ◌∷◌, ◌⊎◌, length};
ghost use Rattle.csv.specs.Reading.{default_config, error_kind, records, strip_bom};
ghost use Rattle.csv.specs.Records.{fields_of};
ghost use Rattle.net_prefix.specs.declared.payload.Vrp.{Vrp};
ghost use Rattle.vrp_csv.specs.ExpiredRows.{IsLoadAt, IsLoadOfAt, IsRowAt};
ghost use Rattle.vrp_csv.specs.PayloadList.{HasNoHeader, IsLoad, IsRefused, IsRefusedBehind, IsStop};
ghost use Rattle.vrp_csv.specs.PayloadRows.{IsHeader, IsRow};
ghost use Rattle.vrp_csv.specs.RecordsLeft.{IsNext, IsPlain, read_fault_of, records_left};
ghost use Rattle.vrp_csv.specs.TakenIn.{TakesIn};

use crate::fault::{CsvFault, RowFault};
use crate::header::header_width;
use crate::row::read_row_at;
use csv::{ByteRecord, Error, ErrorKind, Reader, ReaderBuilder};
use net_prefix::Vrp;
use std::alloc::Global;
use std::collections::BTreeSet;
use std::io::Read;

/// A list that was read.
#[derive(Drop)]
pub struct Loaded {
    /// The payloads of the rows.
    pub set: BTreeSet<Vrp>,
    /// How many rows there are, the skipped ones among them.
    pub rows: u64,
    /// How many rows are skipped, since they are of IPv6 or have expired.
    pub skipped: u64,
}

/// The set of the payloads of a list's rows, or the first fault with its row: each of the first row, of the next one,
/// and so on. A list whose device fails, or for which memory runs out, is refused at the row that was to be read.
pub fn read_list<R: Read + Drop>(alloc: Global, reader: R) -> Result<Loaded, CsvFault>
    ensures { (text : List ℕ) → R.remaining reader ≡ Some text → MatchResult result (λ loaded. IsLoad (records default_config (strip_bom text)) loaded) (λ refused. IsRefused (records default_config (strip_bom text)) refused.fault refused.row) }
{
    read_list_at(alloc, reader, None)
}

/// The same at this second since 1970: a row whose own `Expires` is before it is skipped, where the header names that column.
/// Without a second nothing expires. Rows that have expired are checked as all others are.
pub fn read_list_at<R: Read + Drop>(
    alloc: Global,
    reader: R,
    second: Option<u64>,
) -> Result<Loaded, CsvFault>
    ensures { (text : List ℕ) → R.remaining reader ≡ Some text → MatchResult result (λ loaded. IsLoadAt second (records default_config (strip_bom text)) loaded) (λ refused. IsRefused (records default_config (strip_bom text)) refused.fault refused.row) }
{
    let mut reader = ReaderBuilder::new()
        .has_headers(false)
        .flexible(true)
        .from_reader(alloc, reader);
    let mut fields = ByteRecord::new(alloc);
    let width = match read_header(&mut reader, &mut fields) {
        Ok(width) => width,
        Err(fault) => return Err(CsvFault { fault, row: 0 }),
    };
    read_rows(alloc, &mut reader, &mut fields, width, second)
}

// How many fields each row has under the header that comes next.
#[tactic(auto, using(crate::proofs::Headers::wide_header))]
fn read_header<R: Read>(reader: &mut Reader<R>, fields: &mut ByteRecord) -> Result<usize, RowFault>
    requires { IsPlain reader.old }
    ensures plain { OnOk result (IsPlain reader.new) }
    ensures wide { IfOk result (λ width. 3 ≤ width) }
    ensures header { (rows : List (List (List ℕ))) → records_left R.remaining reader.old ≡ Some rows → MatchResult result (λ width. (header : List (List ℕ)) × (rest : List (List (List ℕ))) × (rows ≡ header ∷ rest) × IsHeader header × (width ≡ length header) × (records_left R.remaining reader.new ≡ Some rest)) (λ fault. IsStop fault ⊎ ((fault ≡ RowFault.Header) × HasNoHeader rows)) }
{
    if !next_record(reader, fields)? {
        return Err(RowFault::Header);
    }
    match header_width(fields) {
        Some(width) => Ok(width),
        None => Err(RowFault::Header),
    }
}

// The rows behind the header.
fn read_rows<R: Read>(
    alloc: Global,
    reader: &mut Reader<R>,
    fields: &mut ByteRecord,
    width: usize,
    second: Option<u64>,
) -> Result<Loaded, CsvFault>
    requires width { 3 ≤ width }
    requires plain { IsPlain reader.old }
    ensures { (rows : List (List (List ℕ))) → records_left R.remaining reader.old ≡ Some rows → MatchResult result (λ loaded. IsLoadOfAt second width rows loaded) (λ refused. (count : ℕ) × IsRefusedBehind width rows refused.fault count × (refused.row ≡ count + 1)) }
{
    let mut loaded = Loaded {
        set: BTreeSet::new(alloc),
        rows: 0,
        skipped: 0,
    };
    for row in 1..u64::MAX {
        let found = match next_record(reader, fields) {
            Ok(found) => found,
            Err(fault) => return Err(CsvFault { fault, row }),
        };
        if !found {
            return Ok(loaded);
        }
        if let Err(fault) = loaded.add(fields, width, second) {
            return Err(CsvFault { fault, row });
        }
    }
    // No further row can be counted.
    Err(CsvFault {
        fault: RowFault::NoMemory,
        row: u64::MAX,
    })
}

impl Loaded {
    // Takes in what the next row says at this second.
    fn add(
        &mut self,
        fields: &ByteRecord,
        width: usize,
        second: Option<u64>,
    ) -> Result<(), RowFault>
        requires width { 3 ≤ width }
        requires room { self.old.rows + 1 < 2 ^ 64 }
        requires skipped { self.old.skipped ≤ self.old.rows }
        ensures ok { OnOk result ((answer : Option Vrp) × IsRowAt second width (fields_of fields.now) answer × TakesIn answer self.old self.new) }
        ensures err { IfErr result (λ fault. IsRow width (fields_of fields.now) (Err fault) ⊎ (fault ≡ RowFault.NoMemory)) }
    {
        match read_row_at(fields, width, second)? {
            Some(payload) => {
                if self.set.insert(payload).is_err() {
                    return Err(RowFault::NoMemory);
                }
            }
            None => self.skipped += 1,
        }
        self.rows += 1;
        Ok(())
    }
}

// The next record, and whether there was one.
fn next_record<R: Read>(reader: &mut Reader<R>, fields: &mut ByteRecord) -> Result<bool, RowFault>
    requires { IsPlain reader.old }
    ensures plain { OnOk result (IsPlain reader.new) }
    ensures next { IfOk result (λ found. (rows : List (List (List ℕ))) → records_left R.remaining reader.old ≡ Some rows → IsNext rows found (fields_of fields.new) (records_left R.remaining reader.new)) }
    ensures stop { IfErr result IsStop }
{
    match reader.read_byte_record(fields) {
        Ok(found) => Ok(found),
        Err(error) => Err(fault_of(error)),
    }
}

// What the fault of a read means for the list.
fn fault_of(error: Error) -> RowFault
    ensures { result ≡ read_fault_of (error_kind error) }
{
    match error.into_kind() {
        ErrorKind::Io(_) => RowFault::Io,
        ErrorKind::OutOfMemory => RowFault::NoMemory,
        _ => RowFault::Csv,
    }
}
