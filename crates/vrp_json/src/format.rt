//! By what a list is told apart.
ghost use Rattle.std.specs.Prelude.{◌≡◌};
ghost use Rattle.vrp_json.specs.ListFormats.{format_of, is_space, of_first};

/// How a list is written.
#[derive(Clone, Copy, Debug, PartialEq, Eq)]
pub enum ListFormat {
    /// Comma-separated values.
    Csv,
    /// A JSON object.
    Json,
}

/// How the list of these octets is written: an object where the first octet that is no white space of JSON is `{`, else
/// comma-separated values.
pub fn format_of(octets: &[u8]) -> ListFormat
    ensures { result ≡ format_of octets.now }
{
    let mut rest = octets;
    while let [octet, more @ ..] = rest {
        if !is_space(*octet) {
            return of_first(*octet);
        }
        rest = more;
    }
    ListFormat::Csv
}

// The format of a list whose first octet that is no white space is this one.
fn of_first(octet: u8) -> ListFormat
    ensures { result ≡ of_first octet }
{
    if octet == b'{' {
        ListFormat::Json
    } else {
        ListFormat::Csv
    }
}

// Whether the octet is white space of JSON (RFC 8259 section 2).
fn is_space(octet: u8) -> bool
    ensures { result ≡ is_space octet }
{
    matches!(octet, b' ' | b'\t' | b'\n' | b'\r')
}
