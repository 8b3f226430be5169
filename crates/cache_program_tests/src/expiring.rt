//! Payloads that expire while a list is served.

use crate::day::{are_removed, is_told_on_a_file, writes_lists};
use program_stages::Stage;
use std::net::TcpListener;
use std::test::Fail;

// The last second before 2026, then 20, 39 and 400 seconds of it.
const LIST: &str = "ASN,IP Prefix,Max Length,Trust Anchor,Expires
AS65002,10.0.0.0/16,24,ta,1767225599
AS65002,10.1.0.0/16,24,ta,1767225620
AS65002,10.2.0.0/16,24,ta,1767225639
AS65002,10.3.0.0/16,24,ta,1767226000
";

// The list's path leads to it at each opening of the first minute.
const LISTS: [&str; 7] = [LIST; 7];

// The log before the listener's address and behind it: a payload stands to the end of its second.
const LOG: [&str; 2] = [
    "2026-01-01T00:00:00Z list loaded: serial 1, payloads 3\n2026-01-01T00:00:00Z listens at ",
    "
2026-01-01T00:00:21Z list loaded: serial 2, payloads 2
2026-01-01T00:00:43Z list loaded: serial 3, payloads 1
2026-01-01T00:01:00Z status: serial 3, payloads 1, routers 0 (0 current, 0 behind, 0 without), octets 0 in, 0 out, list written at a time that can't be told, read 6 seconds ago
2026-01-01T00:01:00Z list old: when it was written can't be told
2026-01-01T00:01:16Z list refused: the file can't be opened
",
];

// Whether a day of lists in files is told by the log, where what has expired is left out.
fn is_told_on_files(rt: &HostRuntime, listener: &TcpListener, log: &str) -> bool {
    let mut paths = Vec::new(rt.alloc());
    writes_lists(rt, "expiring", &LISTS, &mut paths)
        && is_told_on_a_file(
            rt,
            "expiring",
            "expires = true\n",
            &Stage::new(rt, listener, paths.as_slice()),
            log,
        )
        && are_removed(rt, paths.as_slice())
}

#[test]
fn payloads_that_expire_are_no_longer_served(rt: HostRuntime) -> Result<(), Fail> {
    let listener = TcpListener::bind(&rt, "127.0.0.1:0")?;
    let [before, behind] = LOG;
    let address = listener.local_addr()?;
    let log = format!(in rt.alloc(); "{before}{address}{behind}")?;
    assert!(rt; is_told_on_files(&rt, &listener, log.as_str()));
    Ok(())
}
