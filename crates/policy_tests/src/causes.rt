//! Which cause is told of a line that commands nothing.

use line_causes::{OPERATOR_LINES, cause_of, cause_of_octets};
use std::alloc::{AllocError, Global};

// Lines and their causes; a line without one commands something.
#[rattlefmt::skip]
const CAUSES: [(&str, &str); 66] = [
    ("drop 0", ""),
    ("", "words stand apart by single spaces, and none stands at an end of the line"),
    ("drop 0 ", "words stand apart by single spaces, and none stands at an end of the line"),
    ("drop  0", "words stand apart by single spaces, and none stands at an end of the line"),
    ("pear 0 65001", "no line begins with 'pear', the nearest word is 'peer'"),
    ("drop\t0", "no line begins with 'drop\\u{9}0', the nearest word is 'drop'"),
    ("shwo peers", "no line begins with 'shwo', the nearest word is 'show'"),
    ("halp", "no line begins with 'halp', the nearest word is 'help'"),
    ("configure terminal", "no line begins with 'configure'"),
    ("show", "behind 'show' stand other words than it takes"),
    ("show nothing", "no line begins with 'show' and 'nothing'"),
    ("show rib 10.0.0.1/8", "'10.0.0.1/8' has bits behind its length, its prefix is 10.0.0.0/8"),
    ("show in", "at its end is wanted SLOT, a number of 0 to 63"),
    ("show in 256", "'256' isn't SLOT, a number of 0 to 63"),
    ("show exceptions 10.0.0.0/8", "'10.0.0.0/8' is a word too many"),
    ("show peers 0", "'0' is a word too many"),
    ("clear all", "'all' isn't SLOT, a number of 0 to 63"),
    ("stop now", "'now' is a word too many"),
    ("drop", "at its end is wanted SLOT, a number of 0 to 63"),
    ("disable +1", "'+1' isn't SLOT, a number of 0 to 63"),
    ("enable 0 1", "'1' is a word too many"),
    ("nopolicy", "at its end is wanted NAME, the name of a policy"),
    ("use", "at its end is wanted in or out"),
    ("use at 0 a", "'at' isn't in or out"),
    ("use in 0", "at its end is wanted NAME, the name of a policy"),
    ("network", "at its end is wanted PREFIX, as 192.0.2.0/24"),
    ("network 10.0.0.0", "'10.0.0.0' isn't PREFIX, as 192.0.2.0/24"),
    ("network 10.0.0.1/8", "'10.0.0.1/8' has bits behind its length, its prefix is 10.0.0.0/8"),
    ("network 10.0.0.0/33", "'10.0.0.0/33' is longer than 32 bits"),
    ("nonetwork 10.0.0.0/8 1", "'1' is a word too many"),
    ("noreach 10.0/8", "'10.0/8' isn't PREFIX, as 192.0.2.0/24"),
    ("reach 10.0.0.0/8", "at its end is wanted COST, a number of 0 to 4294967295"),
    ("reach 10.0.0.0/8 4294967296", "'4294967296' isn't COST, a number of 0 to 4294967295"),
    ("filter", "at its end is wanted prefix, as or both"),
    ("nofilter 10.0.0.0/8", "'10.0.0.0/8' isn't prefix, as or both"),
    ("filter prefix", "at its end is wanted PREFIX, as 192.0.2.0/24"),
    ("filter prefix 10.0.0.0/8 65001", "'65001' is a word too many"),
    ("filter as", "at its end is wanted AS, a number of 0 to 4294967295"),
    ("nofilter as AS65001", "'AS65001' isn't AS, a number of 0 to 4294967295"),
    ("filter both 65001 10.0.0.0/8", "'65001' isn't PREFIX, as 192.0.2.0/24"),
    ("nofilter both 10.0.0.0/8", "at its end is wanted AS, a number of 0 to 4294967295"),
    ("assert 10.0.0.0/8", "at its end is wanted MAX, a number of 0 to 32"),
    ("assert 10.0.0.0/8 65001", "'65001' isn't MAX, a number of 0 to 32"),
    ("noassert 10.0.0.0/8 24", "at its end is wanted AS, a number of 0 to 4294967295"),
    ("peer 0 65001 192.0.2.256 192.0.2.1 passive 180 all all", "'192.0.2.256' isn't ADDRESS, as 192.0.2.1"),
    ("peer 0 65001 192.0.2.11 here passive 180 all all", "'here' isn't LOCAL, an address as 192.0.2.1"),
    ("peer 0 65001 192.0.2.11 192.0.2.1 pasive 180 all all", "'pasive' isn't active or passive"),
    ("peer 0 65001 192.0.2.11 192.0.2.1 passive 65536 all all", "'65536' isn't HOLD, a number of 0 to 65535"),
    ("peer 0 65001 192.0.2.11 192.0.2.1 passive 180", "at its end is wanted IMPORT, the name of a policy"),
    ("peer 0 65001 192.0.2.11 192.0.2.1 passive 180 all", "at its end is wanted EXPORT, the name of a policy"),
    ("peer 0 65001 192.0.2.11 192.0.2.1 passive 180 all all all", "'all' is a word too many"),
    ("policy a", "at its end is wanted a rule: tests, and then reject or accept"),
    ("policy a ;", "rule 1: at its end is wanted reject or accept, in which each rule ends"),
    ("policy a state invalid reject ; accept ;", "rule 3: at its end is wanted reject or accept, in which each rule ends"),
    ("policy a state invalid", "rule 1: at its end is wanted reject or accept, in which each rule ends"),
    ("policy a state unknown reject", "rule 1: 'unknown' isn't valid, invalid or notfound"),
    ("policy a state", "rule 1: at its end is wanted valid, invalid or notfound"),
    ("policy a deny", "rule 1: 'deny' is no word of rules: prefix, state, origin, path, from, reject, accept, degree, med, prepend"),
    ("policy a reject med 1", "rule 1: 'med' is out of order: prefix, state, origin, path, from, then reject, or accept, degree, med, prepend"),
    ("policy a accept ; origin 1 state valid reject", "rule 2: 'state' is out of order: prefix, state, origin, path, from, then reject, or accept, degree, med, prepend"),
    ("policy a state valid state valid reject", "rule 1: 'state' is out of order: prefix, state, origin, path, from, then reject, or accept, degree, med, prepend"),
    ("policy a degree 1 accept", "rule 1: 'degree' is out of order: prefix, state, origin, path, from, then reject, or accept, degree, med, prepend"),
    ("policy a prefix 10.0.0.0/8 reject", "rule 1: 'reject' isn't the least length of the prefixes, a number of 0 to 32"),
    ("policy a prefix 10.0.0.1/8 8 8 reject", "'10.0.0.1/8' has bits behind its length, its prefix is 10.0.0.0/8"),
    ("policy a from 256 reject", "rule 1: '256' isn't SLOT, a number of 0 to 63"),
    ("policy a accept prepend 256", "rule 1: '256' isn't a number of 0 to 255"),
];

// Whether this is told of the line.
fn is_told(alloc: Global, line: &str, wanted: &str) -> Result<bool, AllocError> {
    let told = match cause_of(alloc, line, &OPERATOR_LINES)? {
        Some(cause) => format!(in alloc; "{cause}")?,
        None => String::new(alloc),
    };
    Ok(told.as_str() == wanted)
}

#[test]
fn causes_of_lines_are_told(rt: HostRuntime) {
    for (line, wanted) in &CAUSES {
        assert!(rt; is_told(rt.alloc(), line, wanted) == Ok(true));
    }
}

// Octets of lines and their causes.
const OCTETS: [(&[u8], &str); 3] = [
    (b"drop 0", ""),
    (b"drop", "at its end is wanted SLOT, a number of 0 to 63"),
    (b"nopolicy \xC3\xBC", "an octet of it is outside ASCII"),
];

// Whether this is told of the octets.
fn is_told_of(alloc: Global, line: &[u8], wanted: &str) -> Result<bool, AllocError> {
    let told = match cause_of_octets(alloc, line, &[])? {
        Some(cause) => format!(in alloc; "{cause}")?,
        None => String::new(alloc),
    };
    Ok(told.as_str() == wanted)
}

#[test]
fn causes_of_octets_are_told(rt: HostRuntime) {
    for (line, wanted) in &OCTETS {
        assert!(rt; is_told_of(rt.alloc(), line, wanted) == Ok(true));
    }
}
