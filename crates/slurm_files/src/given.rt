//! What the members of an entry give.
ghost use Rattle.std.specs.Prelude.{◌≡◌};
ghost use Rattle.json.specs.Value.{value_view};
ghost use Rattle.slurm_files.specs.GivenMembers.{IsAsn, IsMax, IsPrefix, given_text};

use crate::fault::Cause;
use crate::member::Member;
use json::Value;
use net_prefix::{Asn, Prefix};
use std::alloc::Allocator;

// The most digits of an AS number.
const ASN_DIGITS: usize = 10;
// The most digits of a maximum length.
const MAX_DIGITS: usize = 2;

/// The prefix of an entry.
#[derive(Clone, Copy, Debug, PartialEq, Eq)]
pub(crate) enum GivenPrefix {
    None,
    Ipv4(Prefix),
    Ipv6,
}

/// The AS of an entry, if it gives one, or that the member is no AS number.
pub(crate) fn given_asn<A: Allocator>(entry: &Value<'_, A>) -> Result<Option<Asn>, Cause>
    ensures { IsAsn (value_view entry.now) result }
{
    let Some(value) = entry.get(Member::Asn.name()) else {
        return Ok(None);
    };
    let Some(word) = value.as_number() else {
        return Err(Cause::Asn);
    };
    match vrp_csv::read_number(word.as_bytes(), ASN_DIGITS) {
        Some(number) => Ok(Some(Asn(number))),
        None => Err(Cause::Asn),
    }
}

/// The prefix of an entry, if it gives one, or why the member is none. A text with a colon is taken for one of IPv6.
pub(crate) fn given_prefix<A: Allocator>(entry: &Value<'_, A>) -> Result<GivenPrefix, Cause>
    ensures { IsPrefix (value_view entry.now) result }
{
    let Some(value) = entry.get(Member::Prefix.name()) else {
        return Ok(GivenPrefix::None);
    };
    let Some(text) = value.as_str() else {
        return Err(Cause::NotText(Member::Prefix));
    };
    if text.as_bytes().contains(&b':') {
        return Ok(GivenPrefix::Ipv6);
    }
    match Prefix::parse(text) {
        Ok(prefix) => Ok(GivenPrefix::Ipv4(prefix)),
        Err(fault) => Err(Cause::Prefix(fault)),
    }
}

/// The maximum length of an entry, if it gives one, or that the member is no number of one or two digits.
pub(crate) fn given_max<A: Allocator>(entry: &Value<'_, A>) -> Result<Option<u8>, Cause>
    ensures { IsMax (value_view entry.now) result }
{
    let Some(value) = entry.get(Member::MaxPrefixLength.name()) else {
        return Ok(None);
    };
    let Some(word) = value.as_number() else {
        return Err(Cause::MaxPrefixLength);
    };
    match vrp_csv::read_number(word.as_bytes(), MAX_DIGITS) {
        Some(number) => Ok(Some(number as u8)),
        None => Err(Cause::MaxPrefixLength),
    }
}

/// Whether the entry gives a text under this name, or that the member is no text.
pub(crate) fn given_text<A: Allocator>(entry: &Value<'_, A>, member: Member) -> Result<bool, Cause>
    ensures { result ≡ given_text member (value_view entry.now) }
{
    match entry.get(member.name()) {
        None => Ok(false),
        Some(Value::String(_)) => Ok(true),
        Some(_) => Err(Cause::NotText(member)),
    }
}
