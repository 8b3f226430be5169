//! The table of unknown codes: which attributes that this speaker doesn't know go on to other peers.
ghost use Rattle.std.specs.Prelude.{◌≡◌, ◌<◌};
ghost use Rattle.bgp_attr.specs.AttributeTable as table;

use crate::attribute_type::AttributeType;

const COMMUNITIES: u8 = 8;

const ORIGINATOR_ID: u8 = 9;

const CLUSTER_LIST: u8 = 10;

const MP_REACH_NLRI: u8 = 14;

const MP_UNREACH_NLRI: u8 = 15;

const EXTENDED_COMMUNITIES: u8 = 16;

const AS4_PATH: u8 = 17;

const AS4_AGGREGATOR: u8 = 18;

const PMSI_TUNNEL: u8 = 22;

const TUNNEL_ENCAPSULATION: u8 = 23;

const IPV6_EXTENDED_COMMUNITIES: u8 = 25;

const LARGE_COMMUNITIES: u8 = 32;

const ONLY_TO_CUSTOMER: u8 = 35;

const PREFIX_SID: u8 = 40;

// Whether this speaker doesn't know the code, and may pass an attribute of it on with this value.
pub(crate) fn is_passed_on(code: u8, value: &[u8]) -> bool
    ensures { result ≡ table.is_passed_on code value.now }
{
    AttributeType::from_octet(code).is_none() && travels(code, value)
}

// The table, a line for each code whose attributes end here, or travel in one form alone.
// Own choice: beyond RFC 4271 section 5, so that no peer's fault ends our session with another one.
#[rattlefmt::skip]
fn travels(code: u8, value: &[u8]) -> bool
    ensures { result ≡ table.travels_by table.unknown_codes code value.now }
{
    match code {
        COMMUNITIES => is_list_of(4, value.len()),
        ORIGINATOR_ID => false,
        CLUSTER_LIST => false,
        MP_REACH_NLRI => false,
        MP_UNREACH_NLRI => false,
        EXTENDED_COMMUNITIES => is_list_of(8, value.len()),
        AS4_PATH => false,
        AS4_AGGREGATOR => false,
        PMSI_TUNNEL => false,
        TUNNEL_ENCAPSULATION => false,
        IPV6_EXTENDED_COMMUNITIES => is_list_of(20, value.len()),
        LARGE_COMMUNITIES => is_list_of(12, value.len()),
        ONLY_TO_CUSTOMER => is_an_as(value),
        PREFIX_SID => false,
        // Any other code travels.
        _ => true,
    }
}

// Whether so many octets are a list of at least one item, each of so many.
fn is_list_of(item: usize, length: usize) -> bool
    requires { 0 < item }
    ensures { result ≡ table.is_list_of item length }
{
    length != 0 && length % item == 0
}

// Whether the value is an AS number that isn't 0.
fn is_an_as(value: &[u8]) -> bool
    ensures { result ≡ table.is_an_as value.now }
{
    match value {
        [0, 0, 0, 0] => false,
        [_, _, _, _] => true,
        _ => false,
    }
}
