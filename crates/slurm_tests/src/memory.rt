//! Growths that are refused, each in turn: a file is taken whole, or refused for its own first fault or for want of memory.
ghost use Rattle.std.specs.Prelude.{◌≤◌};

use local_exceptions::Filter;
use net_prefix::{Asn, Prefix, Vrp};
use refusing::Refusing;
use slurm_files::{Cause, Part, SlurmFault, SlurmFile, read_slurm};
use std::alloc::{Allocator, Global};
use std::process::Abort;

const TEN: Prefix = Prefix {
    bits: 0x0a00_0000,
    len: 8,
};

// A file of filters of each kind, more of one than a node of a set has room for, of assertions, and of what is skipped.
// One text has an escape.
const FILE: &[u8] =
    b"{\"slurmVersion\":1,\"validationOutputFilters\":{\"prefixFilters\":[{\"prefix\":\"10.0.0.0/8\",\"comment\":\"a \\\"block\\\"\"},{\"asn\":1},{\"asn\":2},{\"asn\":3},{\"asn\":4},{\"asn\":5},{\"asn\":6},{\"asn\":7},{\"asn\":8},{\"asn\":9},{\"asn\":10},{\"asn\":11},{\"asn\":12},{\"prefix\":\"10.0.0.0/8\",\"asn\":1},{\"prefix\":\"2001:db8::/32\"}],\"bgpsecFilters\":[{\"asn\":64496}]},\"locallyAddedAssertions\":{\"prefixAssertions\":[{\"asn\":1,\"prefix\":\"10.0.0.0/8\"},{\"asn\":2,\"prefix\":\"10.0.0.0/8\",\"maxPrefixLength\":9}],\"bgpsecAssertions\":[{\"asn\":1,\"SKI\":\"a\",\"routerPublicKey\":\"b\"}]}}";

// What it says, the least first.
const FILTERS: [Filter; 14] = [
    Filter::Prefix(TEN),
    Filter::As(Asn(1)),
    Filter::As(Asn(2)),
    Filter::As(Asn(3)),
    Filter::As(Asn(4)),
    Filter::As(Asn(5)),
    Filter::As(Asn(6)),
    Filter::As(Asn(7)),
    Filter::As(Asn(8)),
    Filter::As(Asn(9)),
    Filter::As(Asn(10)),
    Filter::As(Asn(11)),
    Filter::As(Asn(12)),
    Filter::Both(TEN, Asn(1)),
];

const ASSERTED: [Vrp; 2] = [
    Vrp {
        prefix: TEN,
        max_len: 8,
        asn: Asn(1),
    },
    Vrp {
        prefix: TEN,
        max_len: 9,
        asn: Asn(2),
    },
];

// A file whose second filter has an AS over 32 bits.
const FAULTY: &[u8] =
    b"{\"slurmVersion\":1,\"validationOutputFilters\":{\"prefixFilters\":[{\"asn\":1},{\"asn\":4294967296}],\"bgpsecFilters\":[]},\"locallyAddedAssertions\":{\"prefixAssertions\":[],\"bgpsecAssertions\":[]}}";

// Texts, why each is refused where there is memory, and how many requests it makes at least.
#[rattlefmt::skip]
const TEXTS: [(&[u8], Option<SlurmFault>, u64); 4] = [
    (FILE,                  None,                                                            20),
    (FAULTY,                Some(SlurmFault::Entry(Part::PrefixFilters, 1, Cause::Asn)),     8),
    (b"[]",                 Some(SlurmFault::File(Cause::NotObject)),                        1),
    (b"{\"slurmVersion\":1,", Some(SlurmFault::Text(18)),                                    2),
];

// Whether a file says just what FILE does.
fn says_all<A: Allocator>(file: &SlurmFile<A>) -> bool {
    let has_filters = file.exceptions.filters().iter().eq(&FILTERS);
    let has_assertions = file.exceptions.assertions().iter().eq(&ASSERTED);
    has_filters && has_assertions && file.ipv6 == 1 && file.bgpsec == 2
}

// Reads a text, of which a growth may be refused. Answers whether one was; else all is taken, or the fault is the text's.
fn is_starved<A: Allocator + Clone + Copy>(
    rt: &impl Abort,
    alloc: A,
    octets: &[u8],
    told: Option<SlurmFault>,
) -> bool {
    match read_slurm(alloc, octets) {
        Ok(file) => assert!(rt; told.is_none() && says_all(&file)),
        Err(SlurmFault::NoMemory) => return true,
        Err(fault) => assert!(rt; told == Some(fault), "{fault}"),
    }
    false
}

// Whether the nth request is refused, which starves the reading, or isn't made, which leaves it.
fn refuses(
    rt: &impl Abort,
    alloc: Global,
    octets: &[u8],
    told: Option<SlurmFault>,
    nth: u64,
) -> bool
    requires { 1 ≤ nth }
{
    let heap = Refusing::new(alloc, nth);
    let starved = is_starved(rt, &heap, octets, told);
    assert!(rt; starved == heap.has_refused(), "{nth}");
    starved
}

// How many requests the reading of a text makes, each of which is refused once.
fn requests_of(
    rt: &impl Abort,
    alloc: Global,
    octets: &[u8],
    told: Option<SlurmFault>,
) -> Option<u64> {
    for nth in 1..1_000u64 {
        if !refuses(rt, alloc, octets, told, nth) {
            return Some(nth - 1);
        }
    }
    None
}

#[test]
fn a_refused_growth_takes_nothing_of_a_file(rt: HostRuntime) {
    for (octets, told, least) in &TEXTS {
        let requests = requests_of(&rt, rt.alloc(), octets, *told);
        assert!(rt;
            requests.is_some_and(|requests| requests >= *least),
            "{requests:?}"
        );
    }
}
