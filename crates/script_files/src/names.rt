//! Lists of names, one a line; empty lines and lines that begin with `#` are passed over.
ghost use Rattle.std.specs.Prelude.{◌≡◌, ◌<◌, ◌∷◌, [], IfNone, IfSome, length};
ghost use Rattle.script_files.specs.Names.{is_name, names_in};

use crate::lines::{next_line, unended};

/// The first name of a list, and what stands behind its line; nothing where the list has none.
pub fn next_name(list: &[u8]) -> Option<(&[u8], &[u8])>
    ensures some { IfSome result (λ found. (names_in list.now ≡ found.0.now ∷ names_in found.1.now) × (length found.1.now < length list.now)) }
    ensures none { IfNone result (names_in list.now ≡ []) }
{
    let mut rest = list;
    while let Some((line, behind)) = next_line(rest) {
        let text = unended(line);
        if is_name(text) {
            return Some((text, behind));
        }
        rest = behind;
    }
    None
}

fn is_name(text: &[u8]) -> bool
    ensures { result ≡ is_name text.now }
{
    !matches!(text, [] | [b'#', ..])
}
