//! Whether two texts are the same, and the line in which they first differ.
ghost use Rattle.std.specs.Prelude.{◌≡◌, ℕ, IfSome, None, Option};
ghost use Rattle.script_files.specs.Comparison.{difference_of, line_in};

use crate::lines::{next_line, unended};

/// The number of the first line in which the two differ, counted from 1; none where they are the same.
#[tactic(auto, using(crate::proofs::SameTexts::none_between_the_same, crate::proofs::SameTexts::the_same_where_none))]
pub fn first_difference(found: &[u8], told: &[u8]) -> Option<usize>
    ensures line { result ≡ difference_of found.now told.now }
    ensures same { result ≡ None → found.now ≡ told.now }
    ensures differs { found.now ≡ told.now → result ≡ None }
{
    differing_line(found, told)
}

fn differing_line(found: &[u8], told: &[u8]) -> Option<usize>
    ensures { result ≡ difference_of found.now told.now }
{
    let (mut answered, mut wanted) = (found, told);
    let mut line = 1usize;
    while let [octet, more @ ..] = answered {
        let [other, rest @ ..] = wanted else {
            return Some(line);
        };
        if octet != other {
            return Some(line);
        }
        if *octet == b'\n' {
            line += 1;
        }
        (answered, wanted) = (more, rest);
    }
    match wanted {
        [] => None,
        _ => Some(line),
    }
}

/// The line of this number, counted from 1, without its line feed; nothing where the text is shorter.
pub fn line_of(text: &[u8], number: usize) -> &[u8]
    ensures { result.now ≡ line_in number text.now }
{
    let mut rest = text;
    let mut left = number;
    while let Some((line, behind)) = next_line(rest) {
        if left <= 1 {
            return unended(line);
        }
        left -= 1;
        rest = behind;
    }
    b""
}
