//! The first record of a payload list.
ghost use Rattle.std.specs.Prelude.{◌≡◌, ◌↔◌, IsTrue, MatchOption, Some, length};
ghost use Rattle.csv.specs.Records.{field_at, fields_of};
ghost use Rattle.vrp_csv.specs.PayloadRows.{IsHeader, NamesExtended, NamesPayloads, NamesShort};

use csv::ByteRecord;

/// How many fields each row has under this header, where these fields are one.
#[tactic(auto, using(crate::proofs::Headers::three, crate::proofs::Headers::four, crate::proofs::Headers::five, crate::proofs::Headers::six, crate::proofs::Headers::kind_from_header))]
pub(crate) fn header_width(fields: &ByteRecord) -> Option<usize>
    ensures { MatchOption result (¬ (IsHeader (fields_of fields.now))) (λ width. IsHeader (fields_of fields.now) × (width ≡ length (fields_of fields.now))) }
{
    let width = fields.len();
    let is_header = match width {
        3 => names_short(fields),
        4 => names_payloads(fields),
        5 => names_payloads(fields) && is_field(fields, 4, b"Expires"),
        6 => names_extended(fields),
        _ => false,
    };
    if is_header { Some(width) } else { None }
}

// Whether the first three fields are those of a payload in a list without trust anchors.
fn names_short(fields: &ByteRecord) -> bool
    ensures { IsTrue result ↔ NamesShort (fields_of fields.now) }
{
    is_field(fields, 0, b"ASN")
        && is_field(fields, 1, b"Prefix")
        && is_field(fields, 2, b"Max prefix length")
}

// Whether the first four fields are those of a payload.
fn names_payloads(fields: &ByteRecord) -> bool
    ensures { IsTrue result ↔ NamesPayloads (fields_of fields.now) }
{
    is_field(fields, 0, b"ASN")
        && is_field(fields, 1, b"IP Prefix")
        && is_field(fields, 2, b"Max Length")
        && is_field(fields, 3, b"Trust Anchor")
}

// Whether the first six fields are those of a payload with its object's place and time.
fn names_extended(fields: &ByteRecord) -> bool
    ensures { IsTrue result ↔ NamesExtended (fields_of fields.now) }
{
    is_field(fields, 0, b"URI")
        && is_field(fields, 1, b"ASN")
        && is_field(fields, 2, b"IP Prefix")
        && is_field(fields, 3, b"Max Length")
        && is_field(fields, 4, b"Not Before")
        && is_field(fields, 5, b"Not After")
}

// Whether there is this field at this place.
fn is_field(fields: &ByteRecord, place: usize, name: &[u8]) -> bool
    ensures { IsTrue result ↔ (field_at (fields_of fields.now) place ≡ Some name.now) }
{
    match fields.get(place) {
        Some(field) => field == name,
        None => false,
    }
}
