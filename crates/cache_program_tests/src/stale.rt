//! A day of `ovcache` on which its list grows too old, and is withdrawn.

use crate::day::{Day, goes_by_on_files};
use std::net::TcpListener;
use std::test::Fail;

const SETTINGS: &str =
    "listen = \"127.0.0.1:0\"\nsession = 7\nreread = 10\nlog = true\nmax_age = 60\nstale = \"withdraw\"\ncsv = ";

const FIRST: &str = "ASN,IP Prefix,Max Length,Trust Anchor\nAS65002,10.0.0.0/16,24,ta\n";

// What the list's path leads to: a list, nothing that is one for a minute, and the same list.
const LISTS: [&str; 8] = [FIRST, "", "", "", "", "", "", FIRST];

// The first list. The same one is no news.
#[rattlefmt::skip]
const HEARD: [u8; 52] = [
    1, 3, 0, 7, 0, 0, 0, 8,
    1, 4, 0, 0, 0, 0, 0, 20, 1, 16, 24, 0, 10, 0, 0, 0, 0, 0, 0xFD, 0xEA,
    1, 7, 0, 7, 0, 0, 0, 24, 0, 0, 0, 1, 0, 0, 0x0E, 0x10, 0, 0, 2, 0x58, 0, 0, 0x1C, 0x20,
];

// When the list was written can't be told, so that its age counts from its reading.
const LOG: [&str; 3] = [
    "2026-01-01T00:00:00Z list loaded: serial 1, payloads 1\n2026-01-01T00:00:00Z listens at ",
    "\n2026-01-01T00:00:01Z router ",
    " came
2026-01-01T00:00:10Z list refused: row 0: the first row is not the header of a payload list
2026-01-01T00:00:21Z list refused: row 0: the first row is not the header of a payload list
2026-01-01T00:00:32Z list refused: row 0: the first row is not the header of a payload list
2026-01-01T00:00:43Z list refused: row 0: the first row is not the header of a payload list
2026-01-01T00:00:54Z list refused: row 0: the first row is not the header of a payload list
2026-01-01T00:01:01Z list withdrawn: written 61 seconds ago, and 60 may be
2026-01-01T00:01:05Z list refused: row 0: the first row is not the header of a payload list
2026-01-01T00:01:16Z list loaded: serial 1, payloads 1
",
];

#[test]
fn a_list_that_grows_too_old_is_withdrawn(rt: HostRuntime) -> Result<(), Fail> {
    let listener = TcpListener::bind(&rt, "127.0.0.1:0")?;
    let day = Day {
        name: "stale",
        settings: SETTINGS,
        lists: &LISTS,
        log: LOG,
        heard: &HEARD,
    };
    assert!(rt; goes_by_on_files(&rt, &day, &listener));
    Ok(())
}
