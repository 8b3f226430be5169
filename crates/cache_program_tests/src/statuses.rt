//! Each text of `ovcache` with its exit status.

use cache_program::main_cache;
use program_stages::{Ending, Stage, deaf_listener, ends, path_of, remove, write, write_settings};
use std::alloc::AllocGlobal;
use std::net::{Net, SocketAddr, TcpListener, TcpStream};
use std::rt::{Clock, Files};
use std::test::Fail;

const LIST: &str = "ASN,IP Prefix,Max Length,Trust Anchor\nAS65002,10.0.0.0/16,24,ta\n";

// All but the list's path.
const SETTINGS: &str = "listen = \"127.0.0.1:0\"\nsession = 7\n";

const WITHOUT_A_LIST: &str = "csv = \"no_such_list\"\nlisten = \"127.0.0.1:0\"\nsession = 7\n";

const WELL: Ending<'static> = Ending {
    status: 0,
    output: "",
    errors: "",
};

// Whether the program ends so with these words.
fn ends_with<R>(rt: &R, words: &[&str], ending: Ending<'_>) -> bool
where
    R: Net<Listener = TcpListener, Stream = TcpStream> + Files + Clock + AllocGlobal,
{
    ends(rt.alloc(), words, ending, |words, output, errors| {
        main_cache(rt, words, output, errors)
    }) == Ok(true)
}

// Whether it ends so behind two turns on settings of this path, which are removed then.
fn ends_there(rt: &HostRuntime, path: &str, ending: Ending<'_>) -> bool {
    let has_ended = ends_with(rt, &[path, "2"], ending);
    remove(rt, path).is_ok() && has_ended
}

// How a program ends that writes nothing but these errors.
fn fails(status: u8, errors: &str) -> Ending<'_> {
    Ending {
        status,
        output: "",
        errors,
    }
}

// What ends a program: its status, the words behind its name, and the cause behind a path.
type Told<'a> = (u8, &'a str, &'a str);

// Whether it ends so behind two turns on settings of this path, and tells this of a file.
fn tells(rt: &HostRuntime, path: &str, file: &str, told: Told<'_>) -> bool {
    let (status, words, cause) = told;
    match format!(in rt.alloc(); "ovcache: {words}: {file}: {cause}\n") {
        Ok(errors) => ends_there(rt, path, fails(status, errors.as_str())),
        Err(_) => false,
    }
}

// Which file is at fault.
#[derive(Clone, Copy)]
enum Fault {
    Settings,
    List,
}

// The same on settings that name the list of this path.
fn tells_at(rt: &HostRuntime, list: &str, settings: &str, fault: Fault, told: Told<'_>) -> bool {
    let has_told = match write_settings(rt, "csv", list, settings) {
        Ok(path) => match fault {
            Fault::Settings => tells(rt, path.as_str(), path.as_str(), told),
            Fault::List => tells(rt, path.as_str(), list, told),
        },
        Err(_) => false,
    };
    remove(rt, list).is_ok() && has_told
}

// The same of a list with this text.
fn tells_on(rt: &HostRuntime, settings: &str, list: &str, fault: Fault, told: Told<'_>) -> bool {
    match write(rt, "told", list) {
        Ok(path) => tells_at(rt, path.as_str(), settings, fault, told),
        Err(_) => false,
    }
}

// Whether it ends well on settings that name the list of this path.
fn ends_at(rt: &HostRuntime, list_path: &str, settings: &str, ending: Ending<'_>) -> bool {
    let has_ended = match write_settings(rt, "csv", list_path, settings) {
        Ok(path) => ends_there(rt, path.as_str(), ending),
        Err(_) => false,
    };
    remove(rt, list_path).is_ok() && has_ended
}

// The same of a list with this text, in a file of this name.
fn ends_on(rt: &HostRuntime, name: &str, settings: &str, list: &str, ending: Ending<'_>) -> bool {
    match write(rt, name, list) {
        Ok(list_path) => ends_at(rt, list_path.as_str(), settings, ending),
        Err(_) => false,
    }
}

// Whether it tells this of settings that are this text.
fn tells_alone(rt: &HostRuntime, text: &str, told: Told<'_>) -> bool {
    match write(rt, "alone.toml", text) {
        Ok(path) => tells(rt, path.as_str(), path.as_str(), told),
        Err(_) => false,
    }
}

const NO_SETTINGS: &str =
    "ovcache: arguments: SETTINGS is wanted; ovcache --help tells what the words are\n";

const NO_OPTION: &str =
    "ovcache: arguments: the word is no option; ovcache --help tells what the words are\n";

const NO_TURNS: &str =
    "ovcache: arguments: TURNS is no number from 0 to 18446744073709551615; ovcache --help tells what the words are\n";

const TOO_MANY: &str =
    "ovcache: arguments: there are more words than SETTINGS and TURNS; ovcache --help tells what the words are\n";

#[rattlefmt::skip]
const WRONG_WORDS: [(&[&str], &str); 13] = [
    (&[], NO_SETTINGS),
    (&["--chek"], NO_OPTION),
    (&["--check"], NO_OPTION),
    (&["-h"], NO_OPTION),
    (&["no_such_file", "1", "2"], TOO_MANY),
    (&["--check", "no_such_file", "2"], TOO_MANY),
    (&["no_such_file", ""], NO_TURNS),
    (&["no_such_file", "+1"], NO_TURNS),
    (&["no_such_file", "-1"], NO_TURNS),
    (&["no_such_file", " 1"], NO_TURNS),
    (&["no_such_file", "1a"], NO_TURNS),
    (&["no_such_file", "0x1"], NO_TURNS),
    (&["no_such_file", "18446744073709551616"], NO_TURNS),
];

#[test]
fn wrong_words_are_arguments(rt: HostRuntime) {
    for (words, told) in &WRONG_WORDS {
        assert!(rt; ends_with(&rt, words, fails(1, told)), "{words:?}");
    }
}

// Without the number of turns, and to be checked.
#[test]
fn a_file_that_isnt_there_is_a_device(rt: HostRuntime) {
    let told = "ovcache: device: no_such_file: No such file or directory (os error 2)\n";
    assert!(rt; ends_with(&rt, &["no_such_file"], fails(2, told)));
    assert!(rt; ends_with(&rt, &["--check", "no_such_file"], fails(2, told)));
}

#[test]
fn the_version_is_told(rt: HostRuntime) {
    let told = Ending {
        status: 0,
        output: "ovcache (Kenyodla) 1.0\n",
        errors: "",
    };
    assert!(rt; ends_with(&rt, &["--version"], told));
}

// Settings but for the list's path.
const GOOD_SETTINGS: [&str; 10] = [
    SETTINGS,
    "session = 0\nlisten = \"127.0.0.1:0\"\nrefresh = 1\nretry = 7200\nexpire = 172800\n",
    "session = 65535\nlisten = \"127.0.0.1:0\"\n",
    "session = \"clock\"\nlisten = \"127.0.0.1:0\"\nother_session = \"reset\"\n",
    "session = 7\nlisten = \"127.0.0.1:0\"\nother_session = \"report\"\n",
    "session = 7\nlisten = \"127.0.0.1:0\"\nreread = 1\nlog = false\nstatus = 4294967295\n",
    "session = 7\nlisten = \"127.0.0.1:0\"\nfirst = 1\nidle = 3601\n",
    "session = 7\nlisten = \"127.0.0.1:0\"\nmetrics = \"127.0.0.1:0\"\n",
    "session = 7\nlisten = \"127.0.0.1:0\"\nmin_payloads = 1\nmax_payloads = 1\nmax_shrink = 0\nmax_age = 1\n",
    "session = 7\nlisten = \"127.0.0.1:0\"\nmin_payloads = 0\nmax_payloads = 4294967295\nmax_shrink = 100\nmax_age = 4294967295\n",
];

#[rattlefmt::skip]
const BAD_SETTINGS: [(&str, &str); 46] = [
    ("listen = \"127.0.0.1:0\"\nsession = 7\nno toml", "line 4: key with no value, expected `=`"),
    ("listen = \"127.0.0.1:0\"\n", "'session' isn't there"),
    ("session = 7\n", "'listen' isn't there"),
    ("listen = \"127.0.0.1\"\nsession = 7\n", "listen: '127.0.0.1' is no IP address and port"),
    ("listen = \"localhost:323\"\nsession = 7\n", "listen: 'localhost:323' is no IP address and port"),
    ("listen = 323\nsession = 7\n", "listen: 323 is no IP address and port"),
    ("listen = \"127.0.0.1:0\"\nsession = 7\nmetrics = 9847\n", "metrics: 9847 is no IP address and port"),
    ("listen = \"127.0.0.1:0\"\nsession = 65536\n", "session: 65536 is neither a number from 0 to 65535 nor 'clock'"),
    ("listen = \"127.0.0.1:0\"\nsession = -1\n", "session: -1 is neither a number from 0 to 65535 nor 'clock'"),
    ("listen = \"127.0.0.1:0\"\nsession = \"7\"\n", "session: '7' is neither a number from 0 to 65535 nor 'clock'"),
    ("listen = \"127.0.0.1:0\"\nsession = \"Clock\"\n", "session: 'Clock' is neither a number from 0 to 65535 nor 'clock'"),
    ("listen = \"127.0.0.1:0\"\nsession = 7\nother_session = \"other\"\n", "other_session: 'other' is neither 'report' nor 'reset'"),
    ("listen = \"127.0.0.1:0\"\nsession = 7\nother_session = 1\n", "other_session: 1 is neither 'report' nor 'reset'"),
    ("listen = \"127.0.0.1:0\"\nsession = 7\nrefresh = 0\n", "refresh: 0 is no number from 1 to 86400"),
    ("listen = \"127.0.0.1:0\"\nsession = 7\nrefresh = \"1\"\n", "refresh: '1' is no number from 1 to 86400"),
    ("listen = \"127.0.0.1:0\"\nsession = 7\nretry = 7201\n", "retry: 7201 is no number from 1 to 7200"),
    ("listen = \"127.0.0.1:0\"\nsession = 7\nexpire = 599\n", "expire: 599 is no number from 600 to 172800"),
    ("listen = \"127.0.0.1:0\"\nsession = 7\nexpire = 4294967896\n", "expire: 4294967896 is no number from 600 to 172800"),
    ("listen = \"127.0.0.1:0\"\nsession = 7\nrefresh = 7200\nexpire = 7200\n", "expire: 7200 isn't greater than 'refresh', which is 7200"),
    ("listen = \"127.0.0.1:0\"\nsession = 7\nretry = 700\nexpire = 650\nrefresh = 1\n", "expire: 650 isn't greater than 'retry', which is 700"),
    ("listen = \"127.0.0.1:0\"\nsession = 7\nreread = 0\n", "reread: 0 is no number from 1 to 4294967295"),
    ("listen = \"127.0.0.1:0\"\nsession = 7\nreread = \"10\"\n", "reread: '10' is no number from 1 to 4294967295"),
    ("listen = \"127.0.0.1:0\"\nsession = 7\nreread = 4294967296\n", "reread: 4294967296 is no number from 1 to 4294967295"),
    ("listen = \"127.0.0.1:0\"\nsession = 7\nlog = \"yes\"\n", "log: 'yes' is neither true nor false"),
    ("listen = \"127.0.0.1:0\"\nsession = 7\nlog = 1\n", "log: 1 is neither true nor false"),
    ("listen = \"127.0.0.1:0\"\nsession = 7\nlog = true\nstatus = 0\n", "status: 0 is no number from 1 to 4294967295"),
    ("listen = \"127.0.0.1:0\"\nsession = 7\nfirst = 0\n", "first: 0 is no number from 1 to 4294967295"),
    ("listen = \"127.0.0.1:0\"\nsession = 7\nidle = 3600\n", "idle: 3600 isn't greater than 'refresh', which is 3600"),
    ("listen = \"127.0.0.1:0\"\nsession = 7\nidle = \"no\"\n", "idle: 'no' is no number from 1 to 4294967295"),
    ("listen = \"127.0.0.1:0\"\nsession = 7\nmin_payloads = -1\n", "min_payloads: -1 is no number from 0 to 4294967295"),
    ("listen = \"127.0.0.1:0\"\nsession = 7\nmin_payloads = \"1\"\n", "min_payloads: '1' is no number from 0 to 4294967295"),
    ("listen = \"127.0.0.1:0\"\nsession = 7\nmin_payloads = 4294967296\n", "min_payloads: 4294967296 is no number from 0 to 4294967295"),
    ("listen = \"127.0.0.1:0\"\nsession = 7\nmax_payloads = -1\n", "max_payloads: -1 is no number from 0 to 4294967295"),
    ("listen = \"127.0.0.1:0\"\nsession = 7\nmax_payloads = true\n", "max_payloads: true is no number from 0 to 4294967295"),
    ("listen = \"127.0.0.1:0\"\nsession = 7\nmax_shrink = 101\n", "max_shrink: 101 is no number from 0 to 100"),
    ("listen = \"127.0.0.1:0\"\nsession = 7\nmax_shrink = \"50\"\n", "max_shrink: '50' is no number from 0 to 100"),
    ("listen = \"127.0.0.1:0\"\nsession = 7\nmax_age = 0\n", "max_age: 0 is no number from 1 to 4294967295"),
    ("listen = \"127.0.0.1:0\"\nsession = 7\nmax_age = 1.5\n", "max_age: a number with a point is no number from 1 to 4294967295"),
    ("listen = \"127.0.0.1:0\"\nsession = 7\nmax_age = 1\nstale = \"withdrawn\"\n", "stale: 'withdrawn' is neither 'serve' nor 'withdraw'"),
    ("listen = \"127.0.0.1:0\"\nsession = 7\nmax_age = 1\nstale = true\n", "stale: true is neither 'serve' nor 'withdraw'"),
    ("listen = \"127.0.0.1:0\"\nsession = 7\nstale = \"withdraw\"\n", "'max_age' isn't there"),
    ("listen = \"127.0.0.1:0\"\nsession = 7\nrefesh = 60\n", "'refesh' is no key of ovcache; the nearest is 'refresh'"),
    ("listen = \"127.0.0.1:0\"\nsession = 7\nother = [1]\n", "'other' is no key of ovcache; the nearest is 'idle'"),
    ("listen = \"127.0.0.1:0\"\nsession = 7\nLog = true\nlgo = 1\n", "'Log' is no key of ovcache; the nearest is 'log'"),
    ("listen = \"127.0.0.1:0\"\nsession = 7\n[table]\nlog = true\n", "'table' is no key of ovcache; the nearest is 'stale'"),
    ("listen = \"127.0.0.1:0\"\nsession = 7\n\"a\\nb\" = 1\n", "'a\\nb' is no key of ovcache; the nearest is 'csv'"),
];

#[test]
fn good_settings_end_well(rt: HostRuntime) {
    for settings in &GOOD_SETTINGS {
        assert!(rt; ends_on(&rt, "good", settings, LIST, WELL), "{settings}");
    }
}

#[test]
fn bad_settings_are_told(rt: HostRuntime) {
    for (settings, cause) in &BAD_SETTINGS {
        assert!(rt;
            tells_on(
                &rt,
                settings,
                "no list",
                Fault::Settings,
                (1, "settings", cause)
            ),
            "{settings}"
        );
    }
}

#[test]
fn a_first_list_below_the_least_is_refused(rt: HostRuntime) {
    let settings = "listen = \"127.0.0.1:0\"\nsession = 7\nmin_payloads = 2\n";
    let told = (1, "settings", "it has 1 payloads, and 2 are wanted");
    assert!(rt; tells_on(&rt, settings, LIST, Fault::List, told));
}

#[test]
fn a_first_list_above_the_most_is_refused(rt: HostRuntime) {
    let settings = "listen = \"127.0.0.1:0\"\nsession = 7\nmax_payloads = 0\n";
    let told = (1, "settings", "it has 1 payloads, and 0 may be");
    assert!(rt; tells_on(&rt, settings, LIST, Fault::List, told));
}

// A list in JSON, and refused lists with the cause.
const GOOD_JSON: &str =
    " {\"roas\": [{\"prefix\": \"10.0.0.0/16\", \"maxLength\": 24, \"asn\": 65002}]}";

#[rattlefmt::skip]
const BAD_LISTS: [(&str, &str); 6] = [
    ("{", "octet 1: the text is no JSON"),
    ("{}", "the list has no member roas"),
    ("{\"roas\": {}}", "the member roas is no array"),
    ("{\"roas\": [{}]}", "roas[0]: the member asn is missing or no AS number"),
    ("no list", "row 0: the first row is not the header of a payload list"),
    ("ASN,IP Prefix,Max Length,Trust Anchor\nAS65002,10.0.0.0/16,8,ta\n", "row 1: the maximum length is no number from the prefix length to 32"),
];

#[test]
fn a_first_list_in_json_is_served(rt: HostRuntime) {
    assert!(rt; ends_on(&rt, "json", SETTINGS, GOOD_JSON, WELL));
}

#[test]
fn a_refused_first_list_is_told(rt: HostRuntime) {
    for (list, cause) in &BAD_LISTS {
        assert!(rt;
            tells_on(&rt, SETTINGS, list, Fault::List, (1, "settings", cause)),
            "{list}"
        );
    }
}

// Whether a port that is taken is told of these settings.
fn is_taken(rt: &HostRuntime, settings: &str, address: SocketAddr) -> bool {
    match format!(in rt.alloc();
        "ovcache: device: listen {address}: Address already in use (os error 98)\n"
    ) {
        Ok(errors) => ends_on(rt, "taken", settings, LIST, fails(2, errors.as_str())),
        Err(_) => false,
    }
}

// Whether a list is refused before a port that is taken is tried.
fn is_refused_first(rt: &HostRuntime, address: SocketAddr) -> bool {
    let told = (
        1,
        "settings",
        "row 0: the first row is not the header of a payload list",
    );
    match format!(in rt.alloc(); "listen = \"{address}\"\nsession = 7\n") {
        Ok(taken) => {
            tells_on(rt, taken.as_str(), "no list", Fault::List, told)
                && is_taken(rt, taken.as_str(), address)
        }
        Err(_) => false,
    }
}

#[test]
fn a_refused_list_is_told_before_the_port_is_taken(rt: HostRuntime) -> Result<(), Fail> {
    let holder = TcpListener::bind(&rt, "127.0.0.1:0")?;
    let address = holder.local_addr()?;
    assert!(rt; is_refused_first(&rt, address));
    Ok(())
}

// Whether a list that isn't there is told, of settings of this path.
fn is_without_a_list(rt: &HostRuntime, path: &str) -> bool {
    let told = (2, "device", "No such file or directory (os error 2)");
    tells(rt, path, "no_such_list", told)
}

#[test]
fn a_list_that_isnt_there_is_a_device(rt: HostRuntime) -> Result<(), Fail> {
    let path = write(&rt, "listless.toml", WITHOUT_A_LIST)?;
    assert!(rt; is_without_a_list(&rt, path.as_str()));
    let told = (1, "settings", "'csv' isn't there");
    assert!(rt; tells_alone(&rt, SETTINGS, told));
    Ok(())
}

// Whether settings of this path with this list are told to be good, and nothing is bound.
fn is_checked(rt: &HostRuntime, path: &str, list: &str, address: SocketAddr) -> bool {
    match format!(in rt.alloc();
        "{path}: settings that listen at {address}\n{list}: a list of 1 payloads\n"
    ) {
        Ok(output) => {
            let good = Ending {
                status: 0,
                output: output.as_str(),
                errors: "",
            };
            ends_with(rt, &["--check", path], good) && remove(rt, path).is_ok()
        }
        Err(_) => false,
    }
}

// The same of settings that listen at this address.
fn is_checked_at(rt: &HostRuntime, list: &str, address: SocketAddr) -> bool {
    let Ok(text) = format!(in rt.alloc(); "listen = \"{address}\"\nsession = 7\n") else {
        return false;
    };
    match write_settings(rt, "csv", list, text.as_str()) {
        Ok(path) => is_checked(rt, path.as_str(), list, address),
        Err(_) => false,
    }
}

// The port is taken.
#[test]
fn a_check_binds_nothing(rt: HostRuntime) -> Result<(), Fail> {
    let holder = TcpListener::bind(&rt, "127.0.0.1:0")?;
    let address = holder.local_addr()?;
    let list = write(&rt, "checked", LIST)?;
    assert!(rt; is_checked_at(&rt, list.as_str(), address));
    Ok(remove(&rt, list.as_str())?)
}

// Whether all is well without a turn, and the program ends in the first one.
fn ends_at_a_turn(stage: &Stage<'_>, path: &str) -> bool {
    let told = "ovcache: device: connections can't be accepted\n";
    ends_with(stage, &[path, "0"], WELL) && ends_with(stage, &[path, "1"], fails(2, told))
}

// The same with a listener that can't accept.
fn is_deaf(rt: &HostRuntime, path: &str) -> bool {
    match deaf_listener(rt) {
        Ok(deaf) => ends_at_a_turn(&Stage::new(rt, &deaf, &[]), path),
        Err(_) => false,
    }
}

// The same of settings that name the list of this path.
fn is_deaf_at(rt: &HostRuntime, list_path: &str) -> bool {
    match write_settings(rt, "csv", list_path, SETTINGS) {
        Ok(path) => is_deaf(rt, path.as_str()) && remove(rt, path.as_str()).is_ok(),
        Err(_) => false,
    }
}

#[test]
fn a_turn_that_cant_accept_is_a_device(rt: HostRuntime) -> Result<(), Fail> {
    let list_path = write(&rt, "deaf", LIST)?;
    assert!(rt; is_deaf_at(&rt, list_path.as_str()));
    Ok(remove(&rt, list_path.as_str())?)
}
