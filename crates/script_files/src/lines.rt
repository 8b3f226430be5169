//! Lines, each with its line feed; the last one of a text may lack it.
ghost use Rattle.std.specs.Prelude.{◌≡◌, ◌<◌, ◌+◌, ◌∷◌, [], IfNone, IfSome, length};
ghost use Rattle.script_files.specs.Lines.{line_length, lines_of, unended};

/// The first line, and what stands behind it; nothing where the text is empty.
#[tactic(auto, using(crate::proofs::FirstLines::lines_from, crate::proofs::FirstLines::some_line, crate::proofs::FirstLines::line_fits))]
pub fn next_line(text: &[u8]) -> Option<(&[u8], &[u8])>
    ensures some { IfSome result (λ found. (lines_of text.now ≡ found.0.now ∷ lines_of found.1.now) × (length found.1.now < length text.now)) }
    ensures none { IfNone result (text.now ≡ []) }
{
    if text.is_empty() {
        return None;
    }
    Some(text.split_at(length_of_line(text)))
}

// The octets of the first line, its feed among them.
#[tactic(auto, using(crate::proofs::FirstLines::ended, crate::proofs::FirstLines::not_ended))]
fn length_of_line(text: &[u8]) -> usize
    ensures { result ≡ line_length text.now }
{
    let end = line_end(text);
    if end < text.len() { end + 1 } else { end }
}

// How many octets stand before the first line feed.
fn line_end(text: &[u8]) -> usize
    ensures { result ≡ length (unended text.now) }
{
    let mut rest = text;
    let mut count = 0usize;
    while let [octet, more @ ..] = rest {
        if *octet == b'\n' {
            return count;
        }
        count += 1;
        rest = more;
    }
    count
}

/// What stands before the first line feed.
#[tactic(auto, using(crate::proofs::FirstLines::take_unended, crate::proofs::FirstLines::unended_is_shorter))]
pub fn unended(line: &[u8]) -> &[u8]
    ensures { result.now ≡ unended line.now }
{
    &line[..line_end(line)]
}
