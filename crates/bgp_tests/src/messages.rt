//! What is read of a NOTIFICATION that comes, which no answer of a script shows.

use arrayvec::ArrayVec;
use bgp_msg::Notification;

// Bodies of NOTIFICATIONs, and their codes, subcodes and data.
const TOLD: [(&[u8], u8, u8, &[u8]); 2] = [
    // What BIRD tells a peer that doesn't announce IPv4 unicast: 2/7 with the capability that it wants.
    (&[2, 7, 1, 4, 0, 1, 0, 1], 2, 7, &[1, 4, 0, 1, 0, 1]),
    (&[6, 2], 6, 2, &[]),
];

fn is_read_as(body: &[u8], code: u8, subcode: u8, data: &[u8]) -> bool {
    let mut room = ArrayVec::new();
    let told = Notification::read(body, &mut room);
    told.code() == code && told.subcode() == subcode && told.data() == data
}

#[test]
fn a_notification_that_comes_is_read_whole(rt: HostRuntime) {
    for (body, code, subcode, data) in &TOLD {
        assert!(rt; is_read_as(body, *code, *subcode, data));
    }
}
