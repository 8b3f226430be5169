//! A day of `ovcache`: its list changes while a router is served, and the log tells it.

use cache_program::main_cache;
use program_stages::{Ending, LIST_PATH, Stage, ends, remove, write};
use std::alloc::{AllocGlobal, Global};
use std::io::{self, Read, Write};
use std::net::{SocketAddr, TcpListener, TcpStream};
use std::test::Fail;

const SETTINGS: &str =
    "listen = \"127.0.0.1:0\"\nsession = 7\nreread = 10\nlog = true\nstatus = 60\nmin_payloads = 1\nmax_shrink = 100\nmax_age = 60\ncsv = ";

const FIRST: &str = "ASN,IP Prefix,Max Length,Trust Anchor\nAS65002,10.0.0.0/16,24,ta\n";

const SECOND: &str = "ASN,IP Prefix,Max Length,Trust Anchor\nAS65002,10.1.0.0/16,24,ta\n";

// Its second row has a host bit.
const FAULTY: &str =
    "ASN,IP Prefix,Max Length,Trust Anchor\nAS65002,10.2.0.0/16,24,ta\nAS65002,10.3.0.1/16,24,ta\n";

const BOTH: &str =
    "ASN,IP Prefix,Max Length,Trust Anchor\nAS65002,10.0.0.0/16,24,ta\nAS65002,10.1.0.0/16,24,ta\n";

const NONE: &str = "ASN,IP Prefix,Max Length,Trust Anchor\n";

// What the list's path leads to, one opening after another; behind that it leads to nothing.
const LISTS: [&str; 7] = [FIRST, SECOND, SECOND, FAULTY, "", BOTH, NONE];

const RESET_QUERY: [u8; 8] = [1, 2, 0, 0, 0, 0, 0, 8];

// The first list, and a Serial Notify of each that is new: of serial 2, and a minute later of serial 3.
#[rattlefmt::skip]
const HEARD: [u8; 76] = [
    1, 3, 0, 7, 0, 0, 0, 8,
    1, 4, 0, 0, 0, 0, 0, 20, 1, 16, 24, 0, 10, 0, 0, 0, 0, 0, 0xFD, 0xEA,
    1, 7, 0, 7, 0, 0, 0, 24, 0, 0, 0, 1, 0, 0, 0x0E, 0x10, 0, 0, 2, 0x58, 0, 0, 0x1C, 0x20,
    1, 0, 0, 7, 0, 0, 0, 12, 0, 0, 0, 2,
    1, 0, 0, 7, 0, 0, 0, 12, 0, 0, 0, 3,
];

// The log before the listener's address, before the router's and behind it. A turn takes a second, and the ten to the next reading
// count from the first turn behind the last one.
const LOG: [&str; 3] = [
    "2026-01-01T00:00:00Z list loaded: serial 1, payloads 1\n2026-01-01T00:00:00Z listens at ",
    "\n2026-01-01T00:00:01Z router ",
    " came
2026-01-01T00:00:10Z list loaded: serial 2, payloads 1
2026-01-01T00:00:32Z list refused: row 2: the prefix is no IPv4 prefix
2026-01-01T00:00:43Z list refused: row 0: the first row is not the header of a payload list
2026-01-01T00:00:54Z list loaded: serial 3, payloads 2
2026-01-01T00:01:00Z status: serial 3, payloads 2, routers 1 (0 current, 1 behind, 0 without), octets 8 in, 64 out, list written at a time that can't be told, read 6 seconds ago
2026-01-01T00:01:00Z list old: when it was written can't be told
2026-01-01T00:01:05Z list refused: it has 0 payloads, and 1 are wanted
2026-01-01T00:01:16Z list refused: the file can't be opened
",
];

/// A day of the program: its settings, what the list's path leads to, one opening after another, what the log says before the
/// listener's address, before the router's and behind it, and what the router hears.
#[derive(Clone, Copy)]
pub(crate) struct Day<'a> {
    pub name: &'a str,
    pub settings: &'a str,
    pub lists: &'a [&'a str],
    pub log: [&'a str; 3],
    pub heard: &'a [u8],
}

// Writes a list to a file, and answers its path.
fn write_list(rt: &HostRuntime, day: &str, index: usize, list: &str) -> io::Result<String> {
    let name = format!(in rt.alloc(); "{day}-{index}")?;
    write(rt, name.as_str(), list)
}

// Whether the lists of a day are in files then, at these paths.
pub(crate) fn writes_lists(
    rt: &HostRuntime,
    day: &str,
    lists: &[&str],
    paths: &mut Vec<String>,
) -> bool {
    for (index, list) in lists.iter().enumerate() {
        let is_written = match write_list(rt, day, index, list) {
            Ok(path) => paths.push(path).is_ok(),
            Err(_) => false,
        };
        if !is_written {
            return false;
        }
    }
    true
}

pub(crate) fn are_removed(rt: &HostRuntime, paths: &[String]) -> bool {
    for path in paths {
        if remove(rt, path.as_str()).is_err() {
            return false;
        }
    }
    true
}

fn write_settings(rt: &HostRuntime, day: &str, more: &str, settings: &str) -> io::Result<String> {
    let text = format!(in rt.alloc(); "{more}{settings}\"{LIST_PATH}\"\n")?;
    let name = format!(in rt.alloc(); "{day}.toml")?;
    write(rt, name.as_str(), text.as_str())
}

// A router that has asked for the list.
fn asking(rt: &HostRuntime, address: SocketAddr) -> io::Result<TcpStream> {
    let mut router = TcpStream::connect(rt, address)?;
    router.write_all(&RESET_QUERY)?;
    Ok(router)
}

// Whether all that comes to the router is these octets.
fn hears(router: &mut TcpStream, heard: &mut Vec<u8>, octets: &[u8]) -> bool {
    let mut buf = [0; 500];
    for _ in 0..100 {
        match router.read(&mut buf) {
            Ok(0) => break,
            Ok(count) if heard.extend_from_slice(&buf[..count]).is_ok() => {}
            _ => return false,
        }
    }
    heard.as_slice() == octets
}

// Whether the router has heard its day.
fn is_heard(alloc: Global, router: &mut TcpStream, octets: &[u8]) -> bool {
    let mut heard = Vec::new(alloc);
    hears(router, &mut heard, octets)
}

// Whether 76 turns, a second each, are told by this log.
fn is_told(stage: &Stage<'_>, settings_path: &str, log: &str) -> bool {
    let words = [settings_path, "76"];
    let ending = Ending {
        status: 0,
        output: log,
        errors: "",
    };
    ends(stage.alloc(), &words, ending, |words, output, errors| {
        main_cache(stage, words, output, errors)
    }) == Ok(true)
}

// The same on the settings of a day in a file, which have these lines too.
pub(crate) fn is_told_on_a_file(
    rt: &HostRuntime,
    day: &str,
    more: &str,
    stage: &Stage<'_>,
    log: &str,
) -> bool {
    is_told_on(rt, day, more, SETTINGS, stage, log)
}

fn is_told_on(
    rt: &HostRuntime,
    day: &str,
    more: &str,
    settings: &str,
    stage: &Stage<'_>,
    log: &str,
) -> bool {
    match write_settings(rt, day, more, settings) {
        Ok(path) => is_told(stage, path.as_str(), log) && remove(rt, path.as_str()).is_ok(),
        Err(_) => false,
    }
}

// Whether the day of a router at this address is told so, by a cache that listens at that one.
fn is_logged(
    rt: &HostRuntime,
    day: &Day<'_>,
    stage: &Stage<'_>,
    listener: SocketAddr,
    address: SocketAddr,
) -> bool {
    let [before, between, behind] = day.log;
    match format!(in rt.alloc(); "{before}{listener}{between}{address}{behind}") {
        Ok(log) => is_told_on(rt, day.name, "", day.settings, stage, log.as_str()),
        Err(_) => false,
    }
}

// Whether a router's day on this stage is told, and heard.
fn goes_by(rt: &HostRuntime, day: &Day<'_>, stage: &Stage<'_>, router: &mut TcpStream) -> bool {
    match (router.peer_addr(), router.local_addr()) {
        (Ok(listener), Ok(address)) => {
            is_logged(rt, day, stage, listener, address) && is_heard(rt.alloc(), router, day.heard)
        }
        _ => false,
    }
}

// The same of a router that has come to a listener, with these lists.
fn goes_by_at(rt: &HostRuntime, day: &Day<'_>, listener: &TcpListener, lists: &[String]) -> bool {
    let router = match listener.local_addr() {
        Ok(address) => asking(rt, address),
        Err(error) => Err(error),
    };
    match router {
        Ok(mut router) => goes_by(rt, day, &Stage::new(rt, listener, lists), &mut router),
        Err(_) => false,
    }
}

/// The same of lists in files.
pub(crate) fn goes_by_on_files(rt: &HostRuntime, day: &Day<'_>, listener: &TcpListener) -> bool {
    let mut paths = Vec::new(rt.alloc());
    writes_lists(rt, day.name, day.lists, &mut paths)
        && goes_by_at(rt, day, listener, paths.as_slice())
        && are_removed(rt, paths.as_slice())
}

#[test]
fn a_day_is_told_by_the_log(rt: HostRuntime) -> Result<(), Fail> {
    let listener = TcpListener::bind(&rt, "127.0.0.1:0")?;
    let day = Day {
        name: "day",
        settings: SETTINGS,
        lists: &LISTS,
        log: LOG,
        heard: &HEARD,
    };
    assert!(rt; goes_by_on_files(&rt, &day, &listener));
    Ok(())
}
