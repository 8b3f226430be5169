//! What a delta leaves of a set, and its faults: no script applies one. Versions are in scripts.
use crate::sets::ample_set;
use net_prefix::{Asn, Prefix, Vrp};
use std::alloc::Global;
use std::collections::BTreeSet;
use std::process::Abort;
use vrp_delta::{Delta, DeltaFault, apply};

const TEN: Prefix = Prefix {
    bits: 0x0a00_0000,
    len: 16,
};

const TEN_ONE: Prefix = Prefix {
    bits: 0x0a01_0000,
    len: 16,
};

const BEFORE: Vrp = Vrp {
    prefix: TEN,
    max_len: 24,
    asn: Asn(65002),
};

const AFTER: Vrp = Vrp {
    prefix: TEN,
    max_len: 25,
    asn: Asn(65002),
};

const STAYS: Vrp = Vrp {
    prefix: TEN_ONE,
    max_len: 16,
    asn: Asn(65003),
};

fn delta_of(rt: &impl Abort, alloc: Global, withdrawn: Vrp, announced: Vrp) -> Delta {
    Delta {
        withdrawn: ample_set(rt, alloc, &[withdrawn]),
        announced: ample_set(rt, alloc, &[announced]),
    }
}

// Whether a set of some payloads is these others behind the delta, or refuses it so and stays.
fn leaves(
    mut set: BTreeSet<Vrp>,
    delta: &Delta,
    answer: Result<(), DeltaFault>,
    left: &[Vrp],
) -> bool {
    apply(&mut set, delta) == answer && set.iter().eq(left)
}

#[test]
fn a_delta_leaves_what_it_says(rt: HostRuntime) {
    let delta = delta_of(&rt, rt.alloc(), BEFORE, AFTER);
    let set = ample_set(&rt, rt.alloc(), &[BEFORE, STAYS]);
    assert!(rt; leaves(set, &delta, Ok(()), &[AFTER, STAYS]));
}

// Whether a set of these payloads refuses the delta so, and stays.
fn refuses(
    rt: &impl Abort,
    alloc: Global,
    payloads: &[Vrp],
    delta: &Delta,
    fault: DeltaFault,
) -> bool {
    leaves(ample_set(rt, alloc, payloads), delta, Err(fault), payloads)
}

#[test]
fn a_bad_delta_leaves_the_set(rt: HostRuntime) {
    let delta = delta_of(&rt, rt.alloc(), STAYS, BEFORE);
    assert!(rt;
        refuses(
            &rt,
            rt.alloc(),
            &[BEFORE, STAYS],
            &delta,
            DeltaFault::Duplicate
        ) && refuses(&rt, rt.alloc(), &[BEFORE], &delta, DeltaFault::Unknown)
    );
}

const NUMBERS: [(DeltaFault, u8); 3] = [
    (DeltaFault::NoMemory, 5),
    (DeltaFault::Unknown, 6),
    (DeltaFault::Duplicate, 7),
];

#[test]
fn faults_of_a_delta_have_their_numbers(rt: HostRuntime) {
    for (fault, number) in &NUMBERS {
        assert!(rt; fault.number() == *number);
    }
}
