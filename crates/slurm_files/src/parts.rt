//! The four arrays of a SLURM file.
ghost use Rattle.std.specs.Prelude.{◌≡◌, ◌∷◌, [], Err, MatchResult, Ok, map};
ghost use Rattle.json.specs.Value.{value_view};
ghost use Rattle.slurm_files.specs.SlurmParts.{array_of, arrays_of, halves_of, member_of, parts_of, parts_view};

use crate::fault::{Cause, SlurmFault};
use crate::member::Member;
use crate::names::object_fault;
use json::Value;
use std::alloc::Allocator;

const FILE: [Member; 3] = [
    Member::SlurmVersion,
    Member::ValidationOutputFilters,
    Member::LocallyAddedAssertions,
];

/// The entries of the four arrays.
#[derive(Drop)]
pub(crate) struct Parts<'v, 'a, A: Allocator> {
    pub(crate) prefix_filters: &'v [Value<'a, A>],
    pub(crate) bgpsec_filters: &'v [Value<'a, A>],
    pub(crate) prefix_assertions: &'v [Value<'a, A>],
    pub(crate) bgpsec_assertions: &'v [Value<'a, A>],
}

/// The arrays of the value of a file, or the first fault of the objects around them (RFC 8416 section 3.2).
pub(crate) fn parts_of<'v, 'a, A: Allocator>(
    value: &'v Value<'a, A>,
) -> Result<Parts<'v, 'a, A>, SlurmFault>
    ensures { MatchResult result (λ parts. parts_of (value_view value.now) ≡ Ok (parts_view parts)) (λ fault. parts_of (value_view value.now) ≡ Err fault) }
{
    let (filters, assertions) = match halves_of(value) {
        Ok(halves) => halves,
        Err(cause) => return Err(SlurmFault::File(cause)),
    };
    let (prefix_filters, bgpsec_filters) = match arrays_of(
        filters,
        Member::PrefixFilters,
        Member::BgpsecFilters,
    ) {
        Ok(arrays) => arrays,
        Err(cause) => return Err(SlurmFault::Filters(cause)),
    };
    match arrays_of(
        assertions,
        Member::PrefixAssertions,
        Member::BgpsecAssertions,
    ) {
        Ok((prefix_assertions, bgpsec_assertions)) => Ok(Parts {
            prefix_filters,
            bgpsec_filters,
            prefix_assertions,
            bgpsec_assertions,
        }),
        Err(cause) => Err(SlurmFault::Assertions(cause)),
    }
}

// The filters and the assertions of a file of version 1.
fn halves_of<'v, 'a, A: Allocator>(
    value: &'v Value<'a, A>,
) -> Result<(&'v Value<'a, A>, &'v Value<'a, A>), Cause>
    ensures { MatchResult result (λ halves. halves_of (value_view value.now) ≡ Ok (value_view halves.0.now, value_view halves.1.now)) (λ fault. halves_of (value_view value.now) ≡ Err fault) }
{
    if let Some(fault) = object_fault(value, &FILE) {
        return Err(fault);
    }
    let version = member_of(value, Member::SlurmVersion)?;
    if version.as_number() != Some("1") {
        return Err(Cause::Version);
    }
    let filters = member_of(value, Member::ValidationOutputFilters)?;
    let assertions = member_of(value, Member::LocallyAddedAssertions)?;
    Ok((filters, assertions))
}

// The arrays under these two names, in an object that has no other members.
fn arrays_of<'v, 'a, A: Allocator>(
    value: &'v Value<'a, A>,
    first: Member,
    second: Member,
) -> Result<(&'v [Value<'a, A>], &'v [Value<'a, A>]), Cause>
    ensures { MatchResult result (λ arrays. arrays_of first second (value_view value.now) ≡ Ok (map value_view arrays.0.now, map value_view arrays.1.now)) (λ fault. arrays_of first second (value_view value.now) ≡ Err fault) }
{
    if let Some(fault) = object_fault(value, &[first, second]) {
        return Err(fault);
    }
    let first = array_of(value, first)?;
    let second = array_of(value, second)?;
    Ok((first, second))
}

// The array under this name.
fn array_of<'v, 'a, A: Allocator>(
    value: &'v Value<'a, A>,
    member: Member,
) -> Result<&'v [Value<'a, A>], Cause>
    ensures { MatchResult result (λ entries. array_of member (value_view value.now) ≡ Ok (map value_view entries.now)) (λ fault. array_of member (value_view value.now) ≡ Err fault) }
{
    match member_of(value, member)? {
        Value::Array(entries) => Ok(entries.as_slice()),
        _ => Err(Cause::NotArray(member)),
    }
}

// The member of this name.
fn member_of<'v, 'a, A: Allocator>(
    value: &'v Value<'a, A>,
    member: Member,
) -> Result<&'v Value<'a, A>, Cause>
    ensures { MatchResult result (λ found. member_of member (value_view value.now) ≡ Ok (value_view found.now)) (λ fault. member_of member (value_view value.now) ≡ Err fault) }
{
    match value.get(member.name()) {
        Some(found) => Ok(found),
        None => Err(Cause::Missing(member)),
    }
}
