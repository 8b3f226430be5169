//! Names that are lawful, and texts that are escaped.
ghost use Rattle.std.specs.Prelude.{◌≡◌, ◌++◌, ◌∷◌, [], OnOk};
ghost use Rattle.prometheus_text.specs.MetricText.{escaped_in_help, escaped_in_value, help_octet, name_octet, name_text, starts_badly, value_octet};

use std::alloc::{AllocError, Allocator};

/// Writes octets.
pub fn put<A: Allocator>(text: &mut Vec<u8, A>, octets: &[u8]) -> Result<(), AllocError>
    ensures { OnOk result (text.new.items ≡ text.old.items ++ octets.now) }
{
    text.extend_from_slice(octets)
}

/// Writes a name: a lawful one as it is.
pub fn put_name<A: Allocator>(text: &mut Vec<u8, A>, name: &[u8]) -> Result<(), AllocError>
    ensures { OnOk result (text.new.items ≡ text.old.items ++ name_text name.now) }
{
    if starts_badly(name) {
        put(text, b"_")?;
    }
    for octet in name {
        put(text, &[lawful(*octet)])?;
    }
    Ok(())
}

// A name that has no octet, or that begins with a digit, is written behind an underscore.
fn starts_badly(name: &[u8]) -> bool
    ensures { result ≡ starts_badly name.now }
{
    match name.first() {
        None => true,
        Some(octet) => octet.is_ascii_digit(),
    }
}

// The octet of a name, or an underscore in place of one that names don't have.
fn lawful(octet: u8) -> u8
    ensures { result ≡ name_octet octet }
{
    if octet.is_ascii_alphanumeric() {
        octet
    } else {
        b'_'
    }
}

/// Writes a help.
pub fn put_help<A: Allocator>(text: &mut Vec<u8, A>, help: &[u8]) -> Result<(), AllocError>
    ensures { OnOk result (text.new.items ≡ text.old.items ++ escaped_in_help help.now) }
{
    for octet in help {
        put_help_octet(text, *octet)?;
    }
    Ok(())
}

fn put_help_octet<A: Allocator>(text: &mut Vec<u8, A>, octet: u8) -> Result<(), AllocError>
    ensures { OnOk result (text.new.items ≡ text.old.items ++ help_octet octet) }
{
    match octet {
        b'\\' => put(text, b"\\\\"),
        b'\n' => put(text, b"\\n"),
        _ => put(text, &[octet]),
    }
}

/// Writes the value of a label.
pub fn put_value<A: Allocator>(text: &mut Vec<u8, A>, value: &[u8]) -> Result<(), AllocError>
    ensures { OnOk result (text.new.items ≡ text.old.items ++ escaped_in_value value.now) }
{
    for octet in value {
        put_value_octet(text, *octet)?;
    }
    Ok(())
}

fn put_value_octet<A: Allocator>(text: &mut Vec<u8, A>, octet: u8) -> Result<(), AllocError>
    ensures { OnOk result (text.new.items ≡ text.old.items ++ value_octet octet) }
{
    match octet {
        b'"' => put(text, b"\\\""),
        _ => put_help_octet(text, octet),
    }
}
