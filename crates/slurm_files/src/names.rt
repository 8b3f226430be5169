//! Which members an object has.
ghost use Rattle.std.specs.List.{list_any};
ghost use Rattle.std.specs.Prelude.{◌≡◌, map};
ghost use Rattle.std.specs.Str.{bytes_eq};
ghost use Rattle.json.specs.Value.{value_view};
ghost use Rattle.slurm_files.specs.MemberNames.{is_known, name_fault, names_fault, object_fault};

use crate::fault::Cause;
use crate::member::Member;
use json::Value;
use std::alloc::Allocator;

/// The first fault of a value that is to be an object with these members, each at most once.
pub(crate) fn object_fault<A: Allocator>(value: &Value<'_, A>, known: &[Member]) -> Option<Cause>
    ensures { result ≡ object_fault known.now (value_view value.now) }
{
    match value {
        Value::Object(members) => names_fault(members.as_slice(), known),
        _ => Some(Cause::NotObject),
    }
}

// The first fault of the members.
fn names_fault<A: Allocator>(members: &[(&str, Value<'_, A>)], known: &[Member]) -> Option<Cause>
    ensures { result ≡ names_fault known.now 0 (map (λ m. m.0.now) members.now) }
{
    for (place, member) in members.iter().enumerate() {
        if let Some(fault) = name_fault(known, place as u64, member.0, &members[place + 1..]) {
            return Some(fault);
        }
    }
    None
}

// The fault of the member of this name at this place, behind which come these.
fn name_fault<A: Allocator>(
    known: &[Member],
    place: u64,
    name: &str,
    behind: &[(&str, Value<'_, A>)],
) -> Option<Cause>
    ensures { result ≡ name_fault known.now place name.now (map (λ m. m.0.now) behind.now) }
{
    if !is_known(known, name) {
        return Some(Cause::UnknownMember(place));
    }
    if is_named(behind, name) {
        return Some(Cause::SecondMember(place));
    }
    None
}

fn is_known(known: &[Member], name: &str) -> bool
    ensures { result ≡ is_known known.now name.now }
{
    known.iter().any(|member| member.name() == name)
}

fn is_named<A: Allocator>(members: &[(&str, Value<'_, A>)], name: &str) -> bool
    ensures { result ≡ list_any (λ m. bytes_eq m.0.now name.now) members.now }
{
    members.iter().any(|member| member.0 == name)
}
