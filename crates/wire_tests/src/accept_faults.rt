//! What the faults of `accept` mean, by Linux's numbers (`accept(2)`, `errno(3)`).

use net_wires::AcceptFault;
use std::io;

// EPERM, EINTR, EAGAIN, ENONET, EPROTO, ENOPROTOOPT, EOPNOTSUPP, ENETDOWN, ENETUNREACH, ECONNABORTED, ECONNRESET,
// ETIMEDOUT, EHOSTDOWN, EHOSTUNREACH.
const OF_ONE: [i32; 14] = [1, 4, 11, 64, 71, 92, 95, 100, 101, 103, 104, 110, 112, 113];

// ENOMEM, ENFILE, EMFILE, ENOBUFS.
const WANTING: [i32; 4] = [12, 23, 24, 105];

// EBADF, EFAULT, EINVAL, ENOTSOCK.
const OF_ALL: [i32; 4] = [9, 14, 22, 88];

fn fault_of(code: i32) -> AcceptFault {
    AcceptFault::of(&io::Error::from_raw_os_error(code))
}

fn means(codes: &[i32], fault: AcceptFault) -> bool {
    for code in codes {
        if fault_of(*code) != fault {
            return false;
        }
    }
    true
}

#[test]
fn a_fault_of_one_connection_ends_nothing(rt: HostRuntime) {
    assert!(rt;
        means(&OF_ONE, AcceptFault::OfOne)
            && means(&WANTING, AcceptFault::Wanting)
            && means(&OF_ALL, AcceptFault::OfAll)
    );
}
