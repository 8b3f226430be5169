//! How a list begins.
ghost use Rattle.std.specs.Prelude.{◌≡◌, ◌++◌, ◌⊎◌, ℕ, List, true, IfErr, IfOk};
ghost use Rattle.std.specs.Io.KnownBytes.{Consumes, IsAtEnd};
ghost use Rattle.payload_lists.specs.Fronts.{IsFront, tells_format};
ghost use Rattle.vrp_csv.specs.PayloadList.{IsStop};
ghost use Rattle.vrp_json.specs.ListFormats.{is_space};

use std::alloc::Global;
use std::io::Read;
use vrp_csv::RowFault;

// How many octets are read at once.
const PIECE: usize = 4_096;

/// Reads a list until its format is told, or to its end, and answers what was read.
pub(crate) fn read_front<L: Read>(alloc: Global, list: &mut L) -> Result<Vec<u8>, RowFault>
    ensures front { IfOk result (λ front. IsFront (L.remaining list.old) front.items (L.remaining list.new)) }
    ensures stop { IfErr result IsStop }
{
    let mut front = Vec::new(alloc);
    for _ in 0..u64::MAX {
        if reads_on(list, &mut front)? {
            return Ok(front);
        }
    }
    // No further piece can be counted.
    Err(RowFault::NoMemory)
}

// Reads a piece, and whether the format is told by it, or the list is at its end.
fn reads_on<L: Read>(list: &mut L, front: &mut Vec<u8>) -> Result<bool, RowFault>
    ensures piece { IfOk result (λ is_front. (piece : List ℕ) × (front.new.items ≡ front.old.items ++ piece) × Consumes (L.remaining list.old) (L.remaining list.new) piece × (is_front ≡ true → IsAtEnd (L.remaining list.new) ⊎ (tells_format piece ≡ true))) }
    ensures stop { IfErr result IsStop }
{
    let mut buf = [0; PIECE];
    let Ok(count) = list.read(&mut buf) else {
        return Err(RowFault::Io);
    };
    let piece = &buf[..count];
    if front.extend_from_slice(piece).is_err() {
        return Err(RowFault::NoMemory);
    }
    Ok(count == 0 || tells_format(piece))
}

// Whether one of the octets is no white space.
fn tells_format(octets: &[u8]) -> bool
    ensures { result ≡ tells_format octets.now }
{
    let mut rest = octets;
    while let [octet, more @ ..] = rest {
        if !is_space(*octet) {
            return true;
        }
        rest = more;
    }
    false
}

// Whether the octet is white space of JSON (RFC 8259 section 2).
fn is_space(octet: u8) -> bool
    ensures { result ≡ is_space octet }
{
    matches!(octet, b' ' | b'\t' | b'\n' | b'\r')
}
