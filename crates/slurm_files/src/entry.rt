//! The entries of a SLURM file.
ghost use Rattle.std.specs.Prelude.{◌≡◌};
ghost use Rattle.json.specs.Value.{value_view};
ghost use Rattle.slurm_files.specs.SlurmEntries.{Asserts, IsEntry, IsPayload, filter_entry, key_assertion, key_filter, prefix_filter};
ghost use Rattle.slurm_files.specs.declared.member.Part.TheVariants as part_named;

use crate::fault::Cause;
use crate::given::{GivenPrefix, given_asn, given_max, given_prefix, given_text};
use crate::member::{Member, Part};
use crate::names::object_fault;
use json::Value;
use local_exceptions::Filter;
use net_prefix::{Asn, Prefix, Vrp};
use std::alloc::Allocator;

const PREFIX_FILTER: [Member; 3] = [Member::Prefix, Member::Asn, Member::Comment];

const BGPSEC_FILTER: [Member; 3] = [Member::Asn, Member::Ski, Member::Comment];

const PREFIX_ASSERTION: [Member; 4] = [
    Member::Asn,
    Member::Prefix,
    Member::MaxPrefixLength,
    Member::Comment,
];

const BGPSEC_ASSERTION: [Member; 4] = [
    Member::Asn,
    Member::Ski,
    Member::RouterPublicKey,
    Member::Comment,
];

/// What an entry says.
#[derive(Clone, Copy, Debug, PartialEq, Eq)]
pub enum Entry {
    Filter(Filter),
    Assertion(Vrp),
    /// It is of an IPv6 prefix.
    Ipv6,
    /// It is of keys of BGPsec.
    Bgpsec,
}

/// What an entry of this array says, or its first fault: of its members' names; then of its members, in the order of the
/// table.
pub(crate) fn read_entry<A: Allocator>(part: Part, entry: &Value<'_, A>) -> Result<Entry, Cause>
    ensures { IsEntry part (value_view entry.now) result }
{
    match part {
        Part::PrefixFilters => prefix_filter(entry),
        Part::BgpsecFilters => bgpsec_filter(entry),
        Part::PrefixAssertions => prefix_assertion(entry),
        Part::BgpsecAssertions => bgpsec_assertion(entry),
    }
}

// A filter of prefixes (RFC 8416 section 3.3.1).
fn prefix_filter<A: Allocator>(entry: &Value<'_, A>) -> Result<Entry, Cause>
    ensures { IsEntry part_named.PrefixFilters (value_view entry.now) result }
{
    if let Some(fault) = object_fault(entry, &PREFIX_FILTER) {
        return Err(fault);
    }
    let (prefix, asn) = (given_prefix(entry), given_asn(entry));
    filter_of(prefix, asn, given_text(entry, Member::Comment))
}

// What it says, by what its members give.
fn filter_of(
    prefix: Result<GivenPrefix, Cause>,
    asn: Result<Option<Asn>, Cause>,
    comment: Result<bool, Cause>,
) -> Result<Entry, Cause>
    ensures { result ≡ prefix_filter prefix asn comment }
{
    let prefix = prefix?;
    let asn = asn?;
    let _ = comment?;
    filter_entry(prefix, asn)
}

// The filter of this prefix and this AS.
fn filter_entry(prefix: GivenPrefix, asn: Option<Asn>) -> Result<Entry, Cause>
    ensures { result ≡ filter_entry prefix asn }
{
    match (prefix, asn) {
        (GivenPrefix::Ipv4(prefix), Some(asn)) => Ok(Entry::Filter(Filter::Both(prefix, asn))),
        (GivenPrefix::Ipv4(prefix), None) => Ok(Entry::Filter(Filter::Prefix(prefix))),
        (GivenPrefix::None, Some(asn)) => Ok(Entry::Filter(Filter::As(asn))),
        (GivenPrefix::None, None) => Err(Cause::EmptyFilter),
        (GivenPrefix::Ipv6, _) => Ok(Entry::Ipv6),
    }
}

// A filter of router keys (RFC 8416 section 3.3.2).
fn bgpsec_filter<A: Allocator>(entry: &Value<'_, A>) -> Result<Entry, Cause>
    ensures { IsEntry part_named.BgpsecFilters (value_view entry.now) result }
{
    if let Some(fault) = object_fault(entry, &BGPSEC_FILTER) {
        return Err(fault);
    }
    let (asn, ski) = (given_asn(entry), given_text(entry, Member::Ski));
    key_filter_of(asn, ski, given_text(entry, Member::Comment))
}

// What it says, by what its members give.
fn key_filter_of(
    asn: Result<Option<Asn>, Cause>,
    ski: Result<bool, Cause>,
    comment: Result<bool, Cause>,
) -> Result<Entry, Cause>
    ensures { result ≡ key_filter asn ski comment }
{
    let asn = asn?;
    let ski = ski?;
    let _ = comment?;
    match (asn, ski) {
        (None, false) => Err(Cause::EmptyFilter),
        _ => Ok(Entry::Bgpsec),
    }
}

// An assertion of a prefix (RFC 8416 section 3.4.1).
fn prefix_assertion<A: Allocator>(entry: &Value<'_, A>) -> Result<Entry, Cause>
    ensures { IsEntry part_named.PrefixAssertions (value_view entry.now) result }
{
    if let Some(fault) = object_fault(entry, &PREFIX_ASSERTION) {
        return Err(fault);
    }
    let (asn, prefix, max_len) = (given_asn(entry), given_prefix(entry), given_max(entry));
    assertion_of(asn, prefix, max_len, given_text(entry, Member::Comment))
}

// What it says, by what its members give.
fn assertion_of(
    asn: Result<Option<Asn>, Cause>,
    prefix: Result<GivenPrefix, Cause>,
    max_len: Result<Option<u8>, Cause>,
    comment: Result<bool, Cause>,
) -> Result<Entry, Cause>
    ensures { Asserts asn prefix max_len comment result }
{
    let Some(asn) = asn? else {
        return Err(Cause::Missing(Member::Asn));
    };
    let prefix = prefix?;
    let _ = comment?;
    match prefix {
        GivenPrefix::None => Err(Cause::Missing(Member::Prefix)),
        GivenPrefix::Ipv6 => Ok(Entry::Ipv6),
        GivenPrefix::Ipv4(prefix) => payload_of(asn, prefix, max_len?),
    }
}

// The payload of these parts, with the prefix length as maximum where none is given.
fn payload_of(asn: Asn, prefix: Prefix, max_len: Option<u8>) -> Result<Entry, Cause>
    ensures { IsPayload asn prefix max_len result }
{
    match Vrp::new(prefix, max_len.unwrap_or(prefix.len), asn) {
        Ok(payload) => Ok(Entry::Assertion(payload)),
        Err(_) => Err(Cause::MaxPrefixLength),
    }
}

// An assertion of a router key (RFC 8416 section 3.4.2).
fn bgpsec_assertion<A: Allocator>(entry: &Value<'_, A>) -> Result<Entry, Cause>
    ensures { IsEntry part_named.BgpsecAssertions (value_view entry.now) result }
{
    if let Some(fault) = object_fault(entry, &BGPSEC_ASSERTION) {
        return Err(fault);
    }
    let (asn, ski) = (given_asn(entry), given_text(entry, Member::Ski));
    let key = given_text(entry, Member::RouterPublicKey);
    key_assertion_of(asn, ski, key, given_text(entry, Member::Comment))
}

// What it says, by what its members give.
fn key_assertion_of(
    asn: Result<Option<Asn>, Cause>,
    ski: Result<bool, Cause>,
    key: Result<bool, Cause>,
    comment: Result<bool, Cause>,
) -> Result<Entry, Cause>
    ensures { result ≡ key_assertion asn ski key comment }
{
    let Some(_) = asn? else {
        return Err(Cause::Missing(Member::Asn));
    };
    if !ski? {
        return Err(Cause::Missing(Member::Ski));
    }
    if !key? {
        return Err(Cause::Missing(Member::RouterPublicKey));
    }
    let _ = comment?;
    Ok(Entry::Bgpsec)
}
