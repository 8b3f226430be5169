//! Each text of `ovbgpd` with its exit status.

use file_paths::SystemFiles;
use live_book::LiveBook;
use program_stages::{Ending, Stage, deaf_listener, ends, remove, write, write_settings};
use speaker_program::main_bgp;
use std::alloc::{AllocError, AllocGlobal, Global};
use std::net::{Net, SocketAddr, TcpListener, TcpStream};
use std::rt::{Clock, Files};
use std::test::Fail;

// All but the path of the commands.
const SETTINGS: &str = "as = 65000\nidentifier = \"192.0.2.1\"\n";

// With the table of slot 0.
const ONE_PEER: &str =
    "as = 65000\nidentifier = \"192.0.2.1\"\n[[peer]]\nslot = 0\nremote = \"192.0.2.11:179\"\n";

const PEER: &str = "peer 0 65001 192.0.2.11 192.0.2.1 passive 180 all all\n";

// It prints a Loc-RIB without routes.
const WELL: Ending<'static> = Ending {
    status: 0,
    output: "end\n",
    errors: "",
};

// How a program ends that writes nothing but these errors.
pub(crate) fn fails(status: u8, errors: &str) -> Ending<'_> {
    Ending {
        status,
        output: "",
        errors,
    }
}

// Whether the program ends so with these words.
pub(crate) fn ends_with<R>(rt: &R, words: &[&str], ending: Ending<'_>) -> bool
where
    R: Net<Listener = TcpListener, Stream = TcpStream> + Files + Clock + AllocGlobal,
{
    let files = SystemFiles::new(rt);
    ends(rt.alloc(), words, ending, |words, output, errors| {
        main_bgp::<LiveBook, _, _, _, _>(rt, &files, words, output, errors)
    }) == Ok(true)
}

fn is_removed(rt: &HostRuntime, path: &str) -> bool {
    remove(rt, path).is_ok()
}

// Whether it ends so behind these turns on settings of this path.
fn ends_there(rt: &HostRuntime, path: &str, turns: &str, ending: Ending<'_>) -> bool {
    let has_ended = ends_with(rt, &[path, turns], ending);
    is_removed(rt, path) && has_ended
}

// The same of settings that name the commands of this path.
fn ends_at(
    rt: &HostRuntime,
    commands_path: &str,
    settings: &str,
    turns: &str,
    ending: Ending<'_>,
) -> bool {
    let has_ended = match write_settings(rt, "commands", commands_path, settings) {
        Ok(path) => ends_there(rt, path.as_str(), turns, ending),
        Err(_) => false,
    };
    is_removed(rt, commands_path) && has_ended
}

// The same of a file with these commands.
fn ends_behind(
    rt: &HostRuntime,
    settings: &str,
    commands: &str,
    turns: &str,
    ending: Ending<'_>,
) -> bool {
    match write(rt, "commands", commands) {
        Ok(path) => ends_at(rt, path.as_str(), settings, turns, ending),
        Err(_) => false,
    }
}

// The same behind two turns.
fn ends_on(rt: &HostRuntime, settings: &str, commands: &str, ending: Ending<'_>) -> bool {
    ends_behind(rt, settings, commands, "2", ending)
}

// What ends a program: its status, the words behind its name, and the cause behind a path.
type Told<'a> = (u8, &'a str, &'a str);

// Whether it ends so behind two turns on settings of this path, and tells this of a file.
fn tells(rt: &HostRuntime, path: &str, file: &str, told: Told<'_>) -> bool {
    let (status, words, cause) = told;
    match format!(in rt.alloc(); "ovbgpd: {words}: {file}: {cause}\n") {
        Ok(errors) => ends_there(rt, path, "2", fails(status, errors.as_str())),
        Err(_) => false,
    }
}

// Which file is at fault.
#[derive(Clone, Copy)]
enum Fault {
    Settings,
    Commands,
}

// The same on settings that name the commands of this path.
fn tells_at(
    rt: &HostRuntime,
    commands: &str,
    settings: &str,
    fault: Fault,
    told: Told<'_>,
) -> bool {
    let has_told = match write_settings(rt, "commands", commands, settings) {
        Ok(path) => match fault {
            Fault::Settings => tells(rt, path.as_str(), path.as_str(), told),
            Fault::Commands => tells(rt, path.as_str(), commands, told),
        },
        Err(_) => false,
    };
    is_removed(rt, commands) && has_told
}

// The same of these commands.
fn tells_on(
    rt: &HostRuntime,
    settings: &str,
    commands: &str,
    fault: Fault,
    told: Told<'_>,
) -> bool {
    match write(rt, "told", commands) {
        Ok(path) => tells_at(rt, path.as_str(), settings, fault, told),
        Err(_) => false,
    }
}

const NO_SETTINGS: &str =
    "ovbgpd: arguments: SETTINGS is wanted; ovbgpd --help tells what the words are\n";

const NO_OPTION: &str =
    "ovbgpd: arguments: the word is no option; ovbgpd --help tells what the words are\n";

const NO_TURNS: &str =
    "ovbgpd: arguments: TURNS is no number from 0 to 18446744073709551615; ovbgpd --help tells what the words are\n";

const TOO_MANY: &str =
    "ovbgpd: arguments: there are more words than SETTINGS and TURNS; ovbgpd --help tells what the words are\n";

#[rattlefmt::skip]
const WRONG_WORDS: [(&[&str], &str); 8] = [
    (&[], NO_SETTINGS),
    (&["--check"], NO_OPTION),
    (&["--halp"], NO_OPTION),
    (&["no_such_file", "1", "2"], TOO_MANY),
    (&["no_such_file", ""], NO_TURNS),
    (&["no_such_file", "+1"], NO_TURNS),
    (&["no_such_file", "1a"], NO_TURNS),
    (&["no_such_file", "18446744073709551616"], NO_TURNS),
];

#[test]
fn wrong_words_are_arguments(rt: HostRuntime) {
    for (words, told) in &WRONG_WORDS {
        assert!(rt; ends_with(&rt, words, fails(1, told)), "{words:?}");
    }
}

// Without the number of turns, and to be checked.
#[test]
fn a_file_that_isnt_there_is_a_device(rt: HostRuntime) {
    let told = "ovbgpd: device: no_such_file: No such file or directory (os error 2)\n";
    assert!(rt; ends_with(&rt, &["no_such_file"], fails(2, told)));
    assert!(rt; ends_with(&rt, &["--check", "no_such_file"], fails(2, told)));
}

#[test]
fn the_version_is_told(rt: HostRuntime) {
    let told = Ending {
        status: 0,
        output: "ovbgpd (Kenyodla) 1.0\n",
        errors: "",
    };
    assert!(rt; ends_with(&rt, &["--version"], told));
}

// Settings but for the path of the commands, with commands that fill their slots.
#[rattlefmt::skip]
const GOOD_SETTINGS: [(&str, &str); 10] = [
    (SETTINGS, ""),
    ("as = 1\nidentifier = \"255.255.255.255\"\nmultiprotocol = false\nsend_hold = 1\nopen_wait = 4294967295\nlog = false\nstatus = 1\n", "# nothing\n\n"),
    ("as = 4294967295\nidentifier = \"0.0.0.1\"\nlisten = \"127.0.0.1:0\"\nmultiprotocol = true\n", "reach 192.0.2.0/24 10"),
    ("as = 65000\nidentifier = \"192.0.2.1\"\ncache = \"127.0.0.1:1\"\n", "policy v state invalid reject ; accept\r\n"),
    ("as = 65000\nidentifier = \"192.0.2.1\"\npeer = []\n", ""),
    (ONE_PEER, PEER),
    ("as = 65000\nidentifier = \"192.0.2.1\"\nmetrics = \"127.0.0.1:0\"\n", ""),
    ("as = 65000\nidentifier = \"192.0.2.1\"\ncache = \"127.0.0.1:1\"\ncache_retry = 7200\nwait_for_cache = 1\n[[peer]]\nslot = 0\nremote = \"127.0.0.1:1\"\n", "peer 0 65001 192.0.2.11 192.0.2.1 active 180 all all\nenable 0\n"),
    (
        "as = 65000\nidentifier = \"192.0.2.1\"\n[[peer]]\nslot = 63\nremote = \"127.0.0.1:1\"\n[[peer]]\nslot = 0\nremote = \"127.0.0.1:1\"\n",
        "peer 0 1 192.0.2.11 192.0.2.1 active 0 all all\nenable 0\npeer 63 2 192.0.2.12 192.0.2.1 active 3 none none\n",
    ),
    (
        "as = 65000\nidentifier = \"192.0.2.1\"\n[[peer]]\nslot = 63\nremote = \"127.0.0.1:1\"\nconnect_retry = 1\nidle_hold = 65535\n",
        "peer 63 1 192.0.2.11 192.0.2.1 active 0 all all\nenable 63\n",
    ),
];

#[rattlefmt::skip]
const BAD_SETTINGS: [(&str, &str); 46] = [
    ("as = 65000\nidentifier = \"192.0.2.1\"\nno toml", "line 4: key with no value, expected `=`"),
    ("identifier = \"192.0.2.1\"\n", "'as' isn't there"),
    ("as = 65000\n", "'identifier' isn't there"),
    ("as = 0\nidentifier = \"192.0.2.1\"\n", "as: 0 is no number from 1 to 4294967295"),
    ("as = -1\nidentifier = \"192.0.2.1\"\n", "as: -1 is no number from 1 to 4294967295"),
    ("as = 4294967296\nidentifier = \"192.0.2.1\"\n", "as: 4294967296 is no number from 1 to 4294967295"),
    ("as = \"65000\"\nidentifier = \"192.0.2.1\"\n", "as: '65000' is no number from 1 to 4294967295"),
    ("as = 65000\nidentifier = \"0.0.0.0\"\n", "identifier: '0.0.0.0' is no IPv4 address other than 0.0.0.0"),
    ("as = 65000\nidentifier = \"192.0.2\"\n", "identifier: '192.0.2' is no IPv4 address other than 0.0.0.0"),
    ("as = 65000\nidentifier = \"192.0.2.256\"\n", "identifier: '192.0.2.256' is no IPv4 address other than 0.0.0.0"),
    ("as = 65000\nidentifier = \"router\"\n", "identifier: 'router' is no IPv4 address other than 0.0.0.0"),
    ("as = 65000\nidentifier = 3221225985\n", "identifier: 3221225985 is no IPv4 address other than 0.0.0.0"),
    ("as = 65000\nidentifier = \"192.0.2.1\"\ncache = \"localhost:323\"\n", "cache: 'localhost:323' is no IP address and port"),
    ("as = 65000\nidentifier = \"192.0.2.1\"\ncache = 323\n", "cache: 323 is no IP address and port"),
    ("as = 65000\nidentifier = \"192.0.2.1\"\nslurm = true\n", "slurm: true is no text"),
    ("as = 65000\nidentifier = \"192.0.2.1\"\nmultiprotocol = 1\n", "multiprotocol: 1 is neither true nor false"),
    ("as = 65000\nidentifier = \"192.0.2.1\"\nlog = \"yes\"\n", "log: 'yes' is neither true nor false"),
    ("as = 65000\nidentifier = \"192.0.2.1\"\nstatus = 0\n", "status: 0 is no number from 1 to 4294967295"),
    ("as = 65000\nidentifier = \"192.0.2.1\"\nmetrics = 9848\n", "metrics: 9848 is no IP address and port"),
    ("as = 65000\nidentifier = \"192.0.2.1\"\nwait_for_cache = 0\n", "wait_for_cache: 0 is no number from 1 to 4294967295"),
    ("as = 65000\nidentifier = \"192.0.2.1\"\ncache_retry = 0\n", "cache_retry: 0 is no number from 1 to 7200"),
    ("as = 65000\nidentifier = \"192.0.2.1\"\ncache_retry = 7201\n", "cache_retry: 7201 is no number from 1 to 7200"),
    ("as = 65000\nidentifier = \"192.0.2.1\"\ncache_retry = \"5\"\n", "cache_retry: '5' is no number from 1 to 7200"),
    ("as = 65000\nidentifier = \"192.0.2.1\"\nlisten = \"127.0.0.1\"\n", "listen: '127.0.0.1' is no IP address and port"),
    ("as = 65000\nidentifier = \"192.0.2.1\"\nlisten = true\n", "listen: true is no IP address and port"),
    ("as = 65000\nidentifier = \"192.0.2.1\"\nsend_hold = 0\n", "send_hold: 0 is no number from 1 to 4294967295"),
    ("as = 65000\nidentifier = \"192.0.2.1\"\nopen_wait = \"30\"\n", "open_wait: '30' is no number from 1 to 4294967295"),
    ("as = 65000\nidentifier = \"192.0.2.1\"\npeer = 0\n", "peer: 0 is no array of tables"),
    ("as = 65000\nidentifier = \"192.0.2.1\"\npeer = [0]\n", "peer 1: peer: 0 is no table"),
    ("as = 65000\nidentifier = \"192.0.2.1\"\n[[peer]]\nslot = 0\n", "peer 1: 'remote' isn't there"),
    ("as = 65000\nidentifier = \"192.0.2.1\"\n[[peer]]\nremote = \"127.0.0.1:1\"\n", "peer 1: 'slot' isn't there"),
    ("as = 65000\nidentifier = \"192.0.2.1\"\n[[peer]]\nslot = 64\nremote = \"127.0.0.1:1\"\n", "peer 1: slot: 64 is no number from 0 to 63"),
    ("as = 65000\nidentifier = \"192.0.2.1\"\n[[peer]]\nslot = -1\nremote = \"127.0.0.1:1\"\n", "peer 1: slot: -1 is no number from 0 to 63"),
    ("as = 65000\nidentifier = \"192.0.2.1\"\n[[peer]]\nslot = \"0\"\nremote = \"127.0.0.1:1\"\n", "peer 1: slot: '0' is no number from 0 to 63"),
    ("as = 65000\nidentifier = \"192.0.2.1\"\n[[peer]]\nslot = 0\nremote = \"127.0.0.1\"\n", "peer 1: remote: '127.0.0.1' is no IP address and port"),
    ("as = 65000\nidentifier = \"192.0.2.1\"\n[[peer]]\nslot = 0\nremote = \"127.0.0.1:1\"\n[[peer]]\nslot = 1\nremote = \"localhost:179\"\n", "peer 2: remote: 'localhost:179' is no IP address and port"),
    ("as = 65000\nidentifier = \"192.0.2.1\"\n[[peer]]\nslot = 0\nremote = 1\n", "peer 1: remote: 1 is no IP address and port"),
    ("as = 65000\nidentifier = \"192.0.2.1\"\n[[peer]]\nslot = 0\nremote = \"127.0.0.1:1\"\n[[peer]]\nslot = 0\nremote = \"127.0.0.1:2\"\n", "peer 2: slot: 0 stands in an earlier table"),
    ("as = 65000\nidentifier = \"192.0.2.1\"\ncomands = \"x\"\n", "'comands' is no key of ovbgpd; the nearest is 'commands'"),
    ("as = 65000\nidentifier = \"192.0.2.1\"\n[[peers]]\nslot = 0\n", "'peers' is no key of ovbgpd; the nearest is 'peer'"),
    ("as = 65000\nidentifier = \"192.0.2.1\"\n[[peer]]\nslot = 0\nremote = \"127.0.0.1:1\"\n[[peer]]\nslot = 1\nremot = \"127.0.0.1:1\"\n", "peer 2: 'remot' is no key of a peer; the nearest is 'remote'"),
    ("as = 65000\nidentifier = \"192.0.2.1\"\n[[peer]]\nslot = 0\nremote = \"127.0.0.1:1\"\nslott = 1\n", "peer 1: 'slott' is no key of a peer; the nearest is 'slot'"),
    ("as = 65000\nidentifier = \"192.0.2.1\"\n[[peer]]\nslot = 0\nremote = \"127.0.0.1:1\"\nconnect_retry = 0\n", "peer 1: connect_retry: 0 is no number from 1 to 65535"),
    ("as = 65000\nidentifier = \"192.0.2.1\"\n[[peer]]\nslot = 0\nremote = \"127.0.0.1:1\"\nidle_hold = 65536\n", "peer 1: idle_hold: 65536 is no number from 1 to 65535"),
    ("as = 65000\nidentifier = \"192.0.2.1\"\n[[peer]]\nslot = 0\nremote = \"127.0.0.1:1\"\nidle_hold = \"30\"\n", "peer 1: idle_hold: '30' is no number from 1 to 65535"),
    ("as = 65000\nidentifier = \"192.0.2.1\"\nidle_hold = 30\n", "'idle_hold' is no key of ovbgpd; the nearest is 'send_hold'"),
];

#[test]
fn good_settings_end_well(rt: HostRuntime) {
    for (settings, commands) in &GOOD_SETTINGS {
        assert!(rt; ends_on(&rt, settings, commands, WELL), "{settings}");
    }
}

// Settings are judged before the commands are.
#[test]
fn bad_settings_are_told(rt: HostRuntime) {
    for (settings, cause) in &BAD_SETTINGS {
        assert!(rt;
            tells_on(
                &rt,
                settings,
                "no command",
                Fault::Settings,
                (1, "settings", cause)
            ),
            "{settings}"
        );
    }
}

// Lines that are no commands, though each but the last four is a line of a script, with the cause.
#[rattlefmt::skip]
const BAD_LINES: [(&str, &str); 22] = [
    ("speaker 65000 192.0.2.1 cache", "no line begins with 'speaker'"),
    ("up 0", "no line begins with 'up'"),
    ("fail 0", "no line begins with 'fail'"),
    ("bytes 0 00", "no line begins with 'bytes'"),
    ("rup", "no line begins with 'rup'"),
    ("rfail", "no line begins with 'rfail'"),
    ("rbytes 00", "no line begins with 'rbytes'"),
    ("rtake 1", "no line begins with 'rtake'"),
    ("tick 1", "no line begins with 'tick'"),
    ("take 0 1", "no line begins with 'take'"),
    ("show rib", "no line begins with 'show'"),
    ("cache 7 3600 600 7200", "no line begins with 'cache'"),
    ("load", "no line begins with 'load'"),
    ("cup", "no line begins with 'cup'"),
    ("cdown 0", "no line begins with 'cdown'"),
    ("cbytes 0 00", "no line begins with 'cbytes'"),
    ("ctick 1", "no line begins with 'ctick'"),
    ("ctake 0 1", "no line begins with 'ctake'"),
    ("no command", "no line begins with 'no'"),
    ("enable 0 ", "words stand apart by single spaces, and none stands at an end of the line"),
    ("enable 256", "'256' isn't SLOT, a number of 0 to 63"),
    ("reach 192.0.2.0/24 \u{661}", "an octet of it is outside ASCII"),
];

// Commands that are refused, with the number and its words.
#[rattlefmt::skip]
const REFUSED_LINES: [(&str, &str, &str); 11] = [
    ("noreach 192.0.2.0/24", "settings: line 3: refused 30", "the policy, network or reach entry is unknown"),
    ("use in 0 v", "settings: line 3: refused 30", "the policy, network or reach entry is unknown"),
    ("nopolicy all", "settings: line 3: refused 32", "the policy is built in, or in use"),
    ("peer 1 0 192.0.2.12 192.0.2.1 passive 180 all all", "settings: line 3: refused 33", "a value is out of its range"),
    ("peer 1 65002 192.0.2.12 127.0.0.1 passive 180 all all", "settings: line 3: refused 33", "a value is out of its range"),
    ("assert 10.0.0.0/16 15 65002", "settings: line 3: refused 33", "a value is out of its range"),
    ("nofilter as 65009", "settings: line 3: refused 34", "there is no such exception"),
    ("peer 64 65002 192.0.2.12 192.0.2.1 passive 180 all all", "settings: line 3: refused 40", "there is no such slot"),
    ("enable 1", "settings: line 3: refused 40", "there is no such slot"),
    ("peer 0 65002 192.0.2.12 192.0.2.1 passive 180 all all", "settings: line 3: refused 43", "the slot is taken"),
    ("peer 1 65002 192.0.2.11 192.0.2.1 passive 180 all all", "settings: line 3: refused 45", "another slot has the address"),
];

// Whether the line, behind a comment, a peer and an empty line, is told by its number, with its cause.
fn is_bad_line(rt: &HostRuntime, line: &str, cause: &str) -> bool {
    match format!(in rt.alloc(); "# A peer\n{PEER}\n{line}\nnopolicy all\n") {
        Ok(commands) => {
            let told = (1, "line 4: bad line", cause);
            tells_on(rt, ONE_PEER, commands.as_str(), Fault::Commands, told)
        }
        Err(_) => false,
    }
}

// Whether the line behind an empty line and a peer is refused so.
fn is_refused_line(rt: &HostRuntime, line: &str, words: &str, cause: &str) -> bool {
    match format!(in rt.alloc(); "\r\n{PEER}{line}\nno command") {
        Ok(commands) => tells_on(
            rt,
            ONE_PEER,
            commands.as_str(),
            Fault::Commands,
            (1, words, cause),
        ),
        Err(_) => false,
    }
}

#[test]
fn bad_lines_are_told_by_their_number(rt: HostRuntime) {
    for (line, cause) in &BAD_LINES {
        assert!(rt; is_bad_line(&rt, line, cause), "{line}");
    }
}

#[test]
fn refused_lines_are_told_by_their_number(rt: HostRuntime) {
    for (line, words, cause) in &REFUSED_LINES {
        assert!(rt; is_refused_line(&rt, line, words, cause), "{line}");
    }
}

const NOT_SLOT_0: &str =
    "slot 0 has a peer in the commands or a table in the settings, and not both";

const NOT_SLOT_1: &str =
    "slot 1 has a peer in the commands or a table in the settings, and not both";

// Commands behind which not just slot 0 has a peer, with what is told: none has, another one, two, and none any more.
#[rattlefmt::skip]
const OTHER_SLOTS: [(&str, &str); 4] = [
    ("", NOT_SLOT_0),
    ("peer 1 65001 192.0.2.11 192.0.2.1 passive 180 all all\n", NOT_SLOT_0),
    ("peer 0 65001 192.0.2.11 192.0.2.1 passive 180 all all\npeer 1 65002 192.0.2.12 192.0.2.1 passive 180 all all", NOT_SLOT_1),
    ("peer 0 65001 192.0.2.11 192.0.2.1 passive 180 all all\ndrop 0", NOT_SLOT_0),
];

const DROPPED_AND_BACK: &str =
    "peer 0 65001 192.0.2.11 192.0.2.1 passive 180 all all\ndrop 0\npeer 0 65001 192.0.2.11 192.0.2.1 passive 180 all all\n";

#[test]
fn other_slots_than_those_of_the_commands_are_settings(rt: HostRuntime) {
    for (commands, cause) in &OTHER_SLOTS {
        assert!(rt;
            tells_on(
                &rt,
                ONE_PEER,
                commands,
                Fault::Commands,
                (1, "settings", cause)
            ),
            "{commands}"
        );
    }
    assert!(rt; ends_on(&rt, ONE_PEER, DROPPED_AND_BACK, WELL));
}

// Behind the commands of two networks.
const TWO_NETWORKS: Ending<'static> = Ending {
    status: 0,
    output: "10.0.0.0/8 local NotFound 4294967296\n198.51.100.0/24 local NotFound 4294967296\nend\n",
    errors: "",
};

#[test]
fn loc_rib_is_printed_behind_the_turns(rt: HostRuntime) {
    let commands = "network 198.51.100.0/24\nnetwork 10.0.0.0/8\n";
    for turns in &["0", "3"] {
        assert!(rt;
            ends_behind(&rt, SETTINGS, commands, turns, TWO_NETWORKS),
            "{turns}"
        );
    }
}

// Whether a port that is taken is told of these settings.
fn is_taken(rt: &HostRuntime, settings: &str, address: SocketAddr) -> bool {
    match format!(in rt.alloc();
        "ovbgpd: device: listen {address}: Address already in use (os error 98)\n"
    ) {
        Ok(errors) => ends_on(rt, settings, "", fails(2, errors.as_str())),
        Err(_) => false,
    }
}

// Whether settings that listen where another listens are told, of slots without a peer before.
fn tells_slots_first(rt: &HostRuntime, address: SocketAddr) -> bool {
    let told = (1, "settings", NOT_SLOT_0);
    match format!(in rt.alloc(); "listen = \"{address}\"\n{SETTINGS}") {
        Ok(taken) => {
            tells_on(rt, taken.as_str(), PEER, Fault::Commands, told)
                && is_taken(rt, taken.as_str(), address)
        }
        Err(_) => false,
    }
}

#[test]
fn slots_are_told_before_the_port_is_taken(rt: HostRuntime) -> Result<(), Fail> {
    let holder = TcpListener::bind(&rt, "127.0.0.1:0")?;
    let address = holder.local_addr()?;
    assert!(rt; tells_slots_first(&rt, address));
    Ok(())
}

// Whether commands that aren't there are told, and settings without any.
fn is_missed(rt: &HostRuntime, path: &str) -> bool {
    let told = (2, "device", "No such file or directory (os error 2)");
    tells(rt, path, "no_such_file", told)
}

fn is_lacked(rt: &HostRuntime, path: &str) -> bool {
    tells(rt, path, path, (1, "settings", "'commands' isn't there"))
}

#[test]
fn commands_that_arent_there_are_told(rt: HostRuntime) -> Result<(), Fail> {
    let text = "commands = \"no_such_file\"\nas = 65000\nidentifier = \"192.0.2.1\"\n";
    let missed = write(&rt, "missed.toml", text)?;
    assert!(rt; is_missed(&rt, missed.as_str()));
    let lacked = write(&rt, "lacked.toml", SETTINGS)?;
    assert!(rt; is_lacked(&rt, lacked.as_str()));
    Ok(())
}

// What of them is hardly meant.
const UNREACHED: &str =
    "warning: peer 0 192.0.2.11: no reach entry covers its address, so no route with this next hop is chosen";

// Whether settings of this path with these commands are told to be good.
fn is_checked(rt: &HostRuntime, path: &str, commands: &str) -> bool {
    match format!(in rt.alloc();
        "{path}: settings of AS 65000 with 1 peers\n{commands}: commands that are obeyed\n{UNREACHED}\n"
    ) {
        Ok(output) => {
            let good = Ending {
                status: 0,
                output: output.as_str(),
                errors: "",
            };
            ends_with(rt, &["--check", path], good) && is_removed(rt, path)
        }
        Err(_) => false,
    }
}

// The same of settings that listen at this address.
fn is_checked_at(rt: &HostRuntime, commands: &str, address: SocketAddr) -> bool {
    let Ok(text) = format!(in rt.alloc(); "listen = \"{address}\"\n{ONE_PEER}") else {
        return false;
    };
    match write_settings(rt, "commands", commands, text.as_str()) {
        Ok(path) => is_checked(rt, path.as_str(), commands),
        Err(_) => false,
    }
}

// The port is taken.
#[test]
fn a_check_binds_nothing(rt: HostRuntime) -> Result<(), Fail> {
    let holder = TcpListener::bind(&rt, "127.0.0.1:0")?;
    let address = holder.local_addr()?;
    let commands = write(&rt, "checked", PEER)?;
    assert!(rt; is_checked_at(&rt, commands.as_str(), address));
    Ok(remove(&rt, commands.as_str())?)
}

// Settings that listen, but for the path of the commands.
const LISTENING: &str = "listen = \"127.0.0.1:0\"\nas = 65000\nidentifier = \"192.0.2.1\"\n";

// Whether all is well without a turn, and the program ends in the first one.
fn is_deaf(stage: &Stage<'_>, path: &str) -> bool {
    let told = "ovbgpd: device: connections can't be accepted\n";
    ends_with(stage, &[path, "0"], WELL) && ends_with(stage, &[path, "1"], fails(2, told))
}

// The same of a host whose listener can't accept.
fn ends_deaf(rt: &HostRuntime, path: &str) -> bool {
    match deaf_listener(rt) {
        Ok(deaf) => is_deaf(&Stage::new(rt, &deaf, &[]), path),
        Err(_) => false,
    }
}

// The same of settings that listen, beside the commands of this path.
fn ends_deaf_behind(rt: &HostRuntime, commands_path: &str) -> bool {
    match write_settings(rt, "commands", commands_path, LISTENING) {
        Ok(path) => ends_deaf(rt, path.as_str()) && is_removed(rt, path.as_str()),
        Err(_) => false,
    }
}

#[test]
fn a_turn_that_cant_accept_is_a_device(rt: HostRuntime) -> Result<(), Fail> {
    let commands_path = write(&rt, "deaf", "")?;
    assert!(rt; ends_deaf_behind(&rt, commands_path.as_str()));
    Ok(remove(&rt, commands_path.as_str())?)
}

// The exit status with these words, where the output takes so many octets.
fn status_with_room(rt: &HostRuntime, words: &[String], room: &mut [u8]) -> u8 {
    let mut output = room;
    let mut errors = Vec::new(rt.alloc());
    let files = SystemFiles::new(rt);
    main_bgp::<LiveBook, _, _, _, _>(rt, &files, words, &mut output, &mut errors)
}

// Whether the output of a turn fits into four octets, and fails where only three do.
fn is_full(rt: &HostRuntime, words: &[String]) -> bool {
    status_with_room(rt, words, &mut [0; 4]) == 0 && status_with_room(rt, words, &mut [0; 3]) == 2
}

// The words of a turn on settings of this path.
fn words_of(alloc: Global, path: &str) -> Result<[String; 2], AllocError> {
    Ok([
        String::from_str(alloc, path)?,
        String::from_str(alloc, "1")?,
    ])
}

// The same of settings of this path.
fn is_full_at(rt: &HostRuntime, path: &str) -> bool {
    match words_of(rt.alloc(), path) {
        Ok(words) => is_full(rt, &words),
        Err(_) => false,
    }
}

// The same of settings that listen, beside the commands of this path.
fn is_full_behind(rt: &HostRuntime, commands_path: &str) -> bool {
    match write_settings(rt, "commands", commands_path, LISTENING) {
        Ok(path) => is_full_at(rt, path.as_str()) && is_removed(rt, path.as_str()),
        Err(_) => false,
    }
}

#[test]
fn output_that_fails_is_a_device(rt: HostRuntime) -> Result<(), Fail> {
    let commands_path = write(&rt, "full", "")?;
    assert!(rt; is_full_behind(&rt, commands_path.as_str()));
    Ok(remove(&rt, commands_path.as_str())?)
}
