//! Lists in JSON.

use crate::day::{are_removed, is_told_on_a_file, writes_lists};
use crate::rereads::{FIRST, asking, hears, is_published, is_refused, is_same, list, serving_none};
use cache_program::ServedList;
use list_guards::Guards;
use net_wires::NetWire;
use program_stages::{Stage, lend};
use std::alloc::AllocGlobal;
use std::net::{Net, SocketAddr, TcpListener, TcpStream};
use std::test::Fail;
use wires::Wire;

// The first list as rpki-client writes it.
const FIRST_IN_JSON: &str = "{
  \"metadata\": {\"vrps\": 2},
  \"roas\": [
    {\"asn\": 65002, \"prefix\": \"10.0.0.0/16\", \"maxLength\": 24, \"ta\": \"ta\", \"expires\": 1767225600},
    {\"asn\": 65003, \"prefix\": \"2001:db8::/32\", \"maxLength\": 48, \"ta\": \"ta\", \"expires\": 1767225600}
  ]
}
";

// It breaks off behind an entry.
const BROKEN: &str =
    "{\"roas\": [{\"asn\": \"AS65002\", \"prefix\": \"10.2.0.0/16\", \"maxLength\": 24, \"ta\": \"ta\"}";

// Its second entry has a host bit.
const FAULTY: &str = "{\"roas\": [
    {\"asn\": \"AS65002\", \"prefix\": \"10.2.0.0/16\", \"maxLength\": 24, \"ta\": \"ta\"},
    {\"asn\": \"AS65002\", \"prefix\": \"10.3.0.1/16\", \"maxLength\": 24, \"ta\": \"ta\"}
]}";

// A list as Routinator writes it.
const SECOND_IN_JSON: &str =
    "{\"roas\": [{\"asn\": \"AS65002\", \"prefix\": \"10.1.0.0/16\", \"maxLength\": 24, \"ta\": \"ta\"}]}";

// The same, generated in the last second before 2026.
const TELLING_ITS_TIME: &str = "{
  \"metadata\": {\"generated\": 1767225599, \"generatedTime\": \"2025-12-31T23:59:59Z\"},
  \"roas\": [{\"asn\": \"AS65002\", \"prefix\": \"10.1.0.0/16\", \"maxLength\": 24, \"ta\": \"ta\"}]
}";

// Whether a list in JSON is served, and stays in force where a broken one comes behind it, or its payloads in the other format.
fn follows<R, W: Wire + Drop>(
    rt: &R,
    served: &mut ServedList<W>,
    address: Option<SocketAddr>,
) -> Result<bool, Fail>
where
    R: Net<Listener = TcpListener, Stream = TcpStream> + AllocGlobal,
{
    let address = address.ok_or("no address")?;
    let is_first = is_published(rt.alloc(), served, FIRST_IN_JSON, 1);
    let mut staying = asking(rt, address)?;
    Ok(
        is_first
            && hears(rt.alloc(), served, &mut staying, &list(0, 1))
            && is_refused(rt.alloc(), served, BROKEN)
            && is_same(rt.alloc(), served, FIRST)
            && is_same(rt.alloc(), served, FIRST_IN_JSON)
            && hears(rt.alloc(), served, &mut staying, &[]),
    )
}

#[test]
fn a_list_in_json_is_served(rt: HostRuntime) -> Result<(), Fail> {
    let wire = NetWire::listening(&rt, "127.0.0.1:0".parse()?)?;
    let address = wire.local_address();
    let served = serving_none(rt.alloc(), wire, Guards::NONE)?;
    assert!(rt; lend(served, |served| follows(&rt, served, address))?);
    Ok(())
}

// What the list's path leads to, one opening after another; behind that it leads to nothing.
const LISTS: [&str; 7] = [
    FIRST,
    FIRST_IN_JSON,
    BROKEN,
    FAULTY,
    SECOND_IN_JSON,
    TELLING_ITS_TIME,
    "{}",
];

// The log before the listener's address and behind it.
const LOG: [&str; 2] = [
    "2026-01-01T00:00:00Z list loaded: serial 1, payloads 1\n2026-01-01T00:00:00Z listens at ",
    "
2026-01-01T00:00:21Z list refused: octet 82: the text is no JSON
2026-01-01T00:00:32Z list refused: roas[1]: the member prefix is missing or no IPv4 prefix
2026-01-01T00:00:43Z list loaded: serial 2, payloads 1
2026-01-01T00:01:00Z status: serial 2, payloads 1, routers 0 (0 current, 0 behind, 0 without), octets 0 in, 0 out, list written 61 seconds ago, read 6 seconds ago
2026-01-01T00:01:00Z list old: written 61 seconds ago, and 60 may be
2026-01-01T00:01:05Z list refused: the list has no member roas
2026-01-01T00:01:16Z list refused: the file can't be opened
",
];

// Whether a day of lists in either format, in files, is told by the log.
fn is_told_on_files(rt: &HostRuntime, listener: &TcpListener, log: &str) -> bool {
    let mut paths = Vec::new(rt.alloc());
    writes_lists(rt, "formats", &LISTS, &mut paths)
        && is_told_on_a_file(
            rt,
            "formats",
            "",
            &Stage::new(rt, listener, paths.as_slice()),
            log,
        )
        && are_removed(rt, paths.as_slice())
}

#[test]
fn lists_in_either_format_are_told_by_the_log(rt: HostRuntime) -> Result<(), Fail> {
    let listener = TcpListener::bind(&rt, "127.0.0.1:0")?;
    let [before, behind] = LOG;
    let address = listener.local_addr()?;
    let log = format!(in rt.alloc(); "{before}{address}{behind}")?;
    assert!(rt; is_told_on_files(&rt, &listener, log.as_str()));
    Ok(())
}
