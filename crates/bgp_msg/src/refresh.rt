//! The ROUTE-REFRESH message (RFC 2918 section 3).
ghost use Rattle.std.specs.Prelude.{◌≡◌};
ghost use Rattle.bgp_msg.specs.RouteRefresh.{is_ipv4_unicast};

use byteorder::{BigEndian, ByteOrder};

// The octets of a body: the AFI, a reserved octet, the SAFI.
const BODY_OCTETS: usize = 4;

const IPV4: u16 = 1;

const UNICAST: u8 = 1;

/// Whether the ROUTE-REFRESH with this body asks for the routes of IPv4 unicast: its AFI is 1 and its SAFI is 1. The
/// reserved octet between them isn't examined. A body that is cut off asks for nothing.
pub fn is_ipv4_unicast(body: &[u8]) -> bool
    ensures { result ≡ is_ipv4_unicast body.now }
{
    body.len() >= BODY_OCTETS && BigEndian::read_u16(body) == IPV4 && body[3] == UNICAST
}
