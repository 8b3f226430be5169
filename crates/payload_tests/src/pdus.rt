//! What of PDUs no end looks at, and the code of a fault that no octets bring. All else of them is in scripts.
ghost use Rattle.std.specs.Prelude.{◌≤◌};
ghost use Rattle.rtr_codec.specs.PduSpelling.{content_of, length_of};

use arrayvec::ArrayVec;
use rtr_codec::{End, ErrorCode, Pdu, Place, Step, read, write};

const LATER: Place = Place {
    end: End::Client,
    is_first: false,
    has_response: true,
};

// Whether the octets are read as the PDU.
fn is_read(octets: &[u8], pdu: Pdu<'_>) -> bool {
    read(octets, LATER) == Step::Whole(pdu, octets.len())
}

// Whether the octets are written for the PDU, and read as it.
fn is_carried(octets: &[u8], pdu: Pdu<'_>) -> bool
    requires { length_of (content_of pdu) ≤ 64 }
{
    let mut out = ArrayVec::new();
    write(&pdu, &mut out);
    out.as_slice() == octets && is_read(octets, pdu)
}

// Error Reports: their octets, code, and PDU that they quote. The second one tells more than is there.
#[rattlefmt::skip]
const REPORTS: [(&[u8], u16, &[u8]); 2] = [
    (&[1, 10, 0, 2, 0, 0, 0, 24, 0, 0, 0, 8, 1, 2, 0, 0, 0, 0, 0, 8, 0, 0, 0, 0], 2, &[1, 2, 0, 0, 0, 0, 0, 8]),
    (&[1, 10, 0, 0, 0, 0, 0, 17, 0, 0, 0, 99, 1, 2, 3, 4, 5],                    0, &[1, 2, 3, 4, 5]),
];

fn is_report(octets: &[u8], code: u16, quoted: &[u8]) -> bool {
    is_read(octets, Pdu::ErrorReport { code, quoted })
}

#[test]
fn reports_quote_the_pdu_at_fault(rt: HostRuntime) {
    for (octets, code, quoted) in &REPORTS {
        assert!(rt; is_report(octets, *code, quoted));
    }
}

const IPV6_PREFIX: [u8; 32] = [
    1, 6, 0, 0, 0, 0, 0, 32, 0, 0, 0, 0, 0, 0, 0, 0, 0, 0, 0, 0, 0, 0, 0, 0, 0, 0, 0, 0, 0, 0, 0, 0,
];

const ROUTER_KEY: [u8; 40] = [
    1, 9, 0, 0, 0, 0, 0, 40, 9, 9, 9, 9, 9, 9, 9, 9, 9, 9, 9, 9, 9, 9, 9, 9, 9, 9, 9, 9, 9, 9, 9,
    9, 9, 9, 9, 9, 9, 9, 9, 9,
];

fn is_ipv6_prefix(octets: &[u8], body: &[u8; 24]) -> bool {
    is_carried(octets, Pdu::Ipv6Prefix(body))
}

fn is_router_key(octets: &[u8], body: &[u8; 32]) -> bool {
    is_carried(octets, Pdu::RouterKey(body))
}

#[test]
fn unread_bodies_are_carried(rt: HostRuntime) {
    assert!(rt; is_ipv6_prefix(&IPV6_PREFIX, &[0; 24]) && is_router_key(&ROUTER_KEY, &[9; 32]));
}

// Want of memory, which no octets bring.
#[test]
fn an_internal_error_has_its_code(rt: HostRuntime) {
    assert!(rt; ErrorCode::InternalError.number() == 1);
}
