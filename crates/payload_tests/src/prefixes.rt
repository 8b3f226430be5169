//! The numbers of a prefix's faults, which no script tells.

use net_prefix::PrefixFault;

const NUMBERS: [(PrefixFault, u8); 5] = [
    (PrefixFault::LenOver32, 1),
    (PrefixFault::HostBits, 2),
    (PrefixFault::Text, 3),
    (PrefixFault::MaxRange, 4),
    (PrefixFault::Cut, 9),
];

#[test]
fn faults_have_their_numbers(rt: HostRuntime) {
    for (fault, number) in &NUMBERS {
        assert!(rt; fault.number() == *number);
    }
}
