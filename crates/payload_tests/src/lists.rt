//! Lists whose device fails, and faults that no text brings. Lists are among the scripts of play_scripts and play_lists.

use std::alloc::Global;
use std::io;
use std::io::Read;
use vrp_csv::{CsvFault, RowFault, read_list};

// A device that gives its octets one by one, and then fails.
#[derive(Drop)]
pub(crate) struct Failing<'a> {
    pub(crate) octets: &'a [u8],
}

impl<'a> Read for Failing<'a> {
    fn read(&mut self, buf: &mut [u8]) -> io::Result<usize> {
        let Some((first, rest)) = self.octets.split_first() else {
            return Err(io::Error::from(io::ErrorKind::BrokenPipe));
        };
        let Some(place) = buf.first_mut() else {
            return Ok(0);
        };
        *place = *first;
        self.octets = rest;
        Ok(1)
    }
}

// Why a device that gives these octets and then fails is refused: the number and the row.
fn refusal_behind(alloc: Global, octets: &[u8]) -> Option<(u8, u64)> {
    let refused = read_list(alloc, Failing { octets }).err()?;
    Some((refused.number(), refused.row()))
}

const CUT_OFF: &[u8] =
    b"ASN,IP Prefix,Max Length,Trust Anchor\nAS1,10.0.0.0/8,9,ta\nAS2,10.0.0.0/8,";

// How many octets come before the device fails, and the row then.
const FAILURES: [(usize, u64); 4] = [(0, 0), (9, 0), (40, 1), (CUT_OFF.len(), 2)];

#[test]
fn a_failing_device_is_told_from_a_faulty_list(rt: HostRuntime) {
    for (end, row) in &FAILURES {
        let octets = &CUT_OFF[..(*end).min(CUT_OFF.len())];
        assert!(rt; refusal_behind(rt.alloc(), octets) == Some((15, *row)));
    }
}

// The faults that no text brings, with their numbers: the device's, want of memory's, the dialect's.
const OTHERS: [(RowFault, u8); 3] = [
    (RowFault::Io, 15),
    (RowFault::NoMemory, 16),
    (RowFault::Csv, 17),
];

fn has_number(fault: RowFault, number: u8) -> bool {
    let refused = CsvFault { fault, row: 3 };
    refused.number() == number && refused.row() == 3
}

#[test]
fn a_fault_that_no_text_brings_has_its_number(rt: HostRuntime) {
    for (fault, number) in &OTHERS {
        assert!(rt; has_number(*fault, *number));
    }
}
