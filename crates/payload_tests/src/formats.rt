//! Lists in either format, of a device that gives its octets one by one.

use crate::lists::Failing;
use payload_lists::{PayloadListFault, read_payloads};
use std::alloc::Global;
use std::io::Read;
use vrp_csv::{CsvFault, RowFault};

const ROWS: &[u8] = b"ASN,IP Prefix,Max Length,Trust Anchor\nAS1,10.0.0.0/8,9,ta\n";

const JSON: &[u8] =
    b" \t\r\n {\"roas\": [{\"asn\": 1, \"prefix\": \"10.0.0.0/8\", \"maxLength\": 9}]}\n";

// Whether a list whose device ends behind these octets has one row, and one payload.
fn has_one_row(alloc: Global, octets: &[u8]) -> bool {
    let device = Failing { octets }.take(octets.len() as u64);
    match read_payloads(alloc, device, None) {
        Ok(listed) => listed.loaded.rows == 1 && listed.loaded.set.len() == 1,
        Err(_) => false,
    }
}

const LISTS: [&[u8]; 2] = [ROWS, JSON];

#[test]
fn a_list_may_come_octet_by_octet(rt: HostRuntime) {
    for octets in &LISTS {
        assert!(rt; has_one_row(rt.alloc(), octets));
    }
}

const FAILS_AT_ROW_0: PayloadListFault = PayloadListFault::Row(CsvFault {
    fault: RowFault::Io,
    row: 0,
});

const FAILS_AT_ROW_2: PayloadListFault = PayloadListFault::Row(CsvFault {
    fault: RowFault::Io,
    row: 2,
});

// Lists whose device fails behind these octets, and why they are refused.
#[rattlefmt::skip]
const FAILING: [(&[u8], PayloadListFault); 6] = [
    (b"",          FAILS_AT_ROW_0),
    (b" \r\n\t",   FAILS_AT_ROW_0),
    (b"ASN,IP",    FAILS_AT_ROW_0),
    (ROWS,         FAILS_AT_ROW_2),
    (b"\n{",       PayloadListFault::Io),
    (JSON,         PayloadListFault::Io),
];

fn refusal<L: Read + Drop>(alloc: Global, list: L) -> Option<PayloadListFault> {
    read_payloads(alloc, list, None).err()
}

#[test]
fn a_failing_device_is_told_in_either_format(rt: HostRuntime) {
    for (octets, fault) in &FAILING {
        assert!(rt; refusal(rt.alloc(), Failing { octets: *octets }) == Some(*fault));
    }
}
