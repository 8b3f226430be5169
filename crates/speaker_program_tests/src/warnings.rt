//! What `ovbgpd` warns of before its first turn.

use file_paths::SystemFiles;
use live_book::LiveBook;
use program_stages::{remove, write, write_settings};
use speaker_program::main_bgp;
use std::test::Fail;
use std::{io, str};

// All but the path of the commands: two peers, the first of them elsewhere, and of a cache only what it is to be waited for.
const SETTINGS: &str =
    "as = 65000\nidentifier = \"192.0.2.1\"\nlog = true\nwait_for_cache = 1\ncache_retry = 5\n[[peer]]\nslot = 0\nremote = \"192.0.2.12:179\"\n[[peer]]\nslot = 1\nremote = \"198.51.100.1:179\"\n";

const COMMANDS: &str =
    "reach 198.51.100.0/24 10\npolicy v state invalid reject ; accept\npolicy w accept\npeer 0 65001 192.0.2.11 192.0.2.1 passive 180 v all\npeer 1 65002 198.51.100.1 192.0.2.1 passive 180 all all\nenable 1\n";

// The lines of the log behind their times, and what is printed behind the turns.
const WARNINGS: [&str; 10] = [
    " warning: peer 0 192.0.2.12:179: no line of the commands enables it",
    " warning: wait_for_cache: there is no cache to wait for",
    " warning: cache_retry: there is no cache whose connection is tried again",
    " warning: peer 0 192.0.2.11: its remote 192.0.2.12:179 is at another address",
    " warning: peer 0 192.0.2.11: no reach entry covers its address, so no route with this next hop is chosen",
    " warning: peer 0 192.0.2.11: it is passive, and the settings have no 'listen'",
    " warning: peer 1 198.51.100.1: it is passive, and the settings have no 'listen'",
    " warning: policy v: a rule asks for a state, and without a cache no route is valid or invalid",
    " warning: policy w: no peer uses it",
    "end",
];

// What the program writes behind no turn, with these settings.
fn output_of(rt: &HostRuntime, path: &str) -> io::Result<Vec<u8>> {
    let words = [
        String::from_str(rt.alloc(), path)?,
        String::from_str(rt.alloc(), "0")?,
    ];
    let mut output = Vec::new(rt.alloc());
    let mut errors = Vec::new(rt.alloc());
    let files = SystemFiles::new(rt);
    let status = main_bgp::<LiveBook, _, _, _, _>(rt, &files, &words, &mut output, &mut errors);
    if status != 0 {
        output.clear();
    }
    Ok(output)
}

// Whether these are the warnings, a line each.
fn are_warnings(text: &str) -> bool {
    let mut lines = text.split('\n');
    for wanted in &WARNINGS {
        match lines.next() {
            Some(line) if line.ends_with(*wanted) => {}
            _ => return false,
        }
    }
    lines.next() == Some("") && lines.next().is_none()
}

#[test]
fn what_is_hardly_meant_is_warned_of(rt: HostRuntime) -> Result<(), Fail> {
    let commands_path = write(&rt, "warned", COMMANDS)?;
    let path = write_settings(&rt, "commands", commands_path.as_str(), SETTINGS)?;
    let output = output_of(&rt, path.as_str())?;
    assert!(rt;
        str::from_utf8(output.as_slice()).is_ok_and(are_warnings),
        "{path}"
    );
    remove(&rt, path.as_str())?;
    Ok(remove(&rt, commands_path.as_str())?)
}
