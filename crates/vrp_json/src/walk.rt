//! The way of a reader through a list.
ghost use Rattle.std.specs.Prelude.{◌≡◌, ◌∷◌, true, Some, MatchOption};
ghost use Rattle.json.specs.Json.{Members, read_key};
ghost use Rattle.json.specs.Token.{Token as SpecToken};
ghost use Rattle.vrp_json.specs.Places.{FindsMember, FindsRoas, IsAtMembers, NoNameComes, opens_array, opens_object};

use json::{MAX_DEPTH, Reader, Token};

/// How deep the value of a member of the list's object may nest.
pub(crate) const MEMBER_DEPTH: usize = MAX_DEPTH - 1;

/// Passes the mark that opens an object, and answers whether it was next.
pub(crate) fn open_object(reader: &mut Reader<'_>) -> bool
    ensures opens { result ≡ opens_object reader.old }
    ensures passed { result ≡ true → reader.old ≡ SpecToken.begin_object ∷ reader.new }
{
    matches!(reader.next(), Some(Token::BeginObject))
}

/// Passes the mark that opens an array, and answers whether it was next.
pub(crate) fn open_array(reader: &mut Reader<'_>) -> bool
    ensures opens { result ≡ opens_array reader.old }
    ensures passed { result ≡ true → reader.old ≡ SpecToken.begin_array ∷ reader.new }
{
    matches!(reader.next(), Some(Token::BeginArray))
}

/// Passes over members up to the first that is named `roas`, and its name too, and answers whether there is one. What is
/// passed over was checked before.
pub(crate) fn find_roas(reader: &mut Reader<'_>) -> bool
    ensures { (ms : Members) → IsAtMembers ms reader.old → FindsRoas ms result reader.new }
{
    find_member(reader, "roas")
}

/// The same for the first member of this name.
pub(crate) fn find_member(reader: &mut Reader<'_>, wanted: &str) -> bool
    ensures { (ms : Members) → IsAtMembers ms reader.old → FindsMember wanted.now ms result reader.new }
{
    while let Some(name) = next_name(reader) {
        if name == wanted {
            return true;
        }
        if let Err(_fault) = reader.skip_value(MEMBER_DEPTH) {
            return false;
        }
    }
    false
}

// The name of the next member, or none at the end of the object.
fn next_name<'a>(reader: &mut Reader<'a>) -> Option<&'a str>
    ensures { MatchOption result (NoNameComes reader.old reader.new) (λ name. read_key reader.old ≡ Some (Some name.now, reader.new)) }
{
    match reader.next_key() {
        Ok(name) => name,
        Err(_) => None,
    }
}
