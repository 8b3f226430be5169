//! Scripts that are played once for each octet at which one of their messages is cut.
//!
//! Of the line behind `# cut the next line at each octet` only the first octets are handed in, as many as are left
//! before the cut; those behind it are handed in at `# the rest comes`, where that line is there. Any number of lines are
//! cut so, each at the same place, and the first of them says how many places there are: one before each octet but the
//! first. The lines keep their numbers.
ghost use Rattle.std.specs.Prelude.{◌≡◌, ◌++◌, ◌∷◌, [], IfOk, length, OnOk};
ghost use Rattle.script_files.specs.Cuts.{digits_of, is_cut, is_rest, places_in, plays_of, script_cut, words_of};
ghost use Rattle.script_files.specs.Lines.{lines_of, unended};

use crate::lines::{next_line, unended};
use std::alloc::{AllocError, Global};

/// How often a script is played: once, or once for each place of the first line that is cut.
pub fn count_of_plays(script: &[u8]) -> usize
    ensures { result ≡ plays_of script.now }
{
    let mut rest = script;
    while let Some((line, behind)) = next_line(rest) {
        if is_cut(line) {
            return places(behind);
        }
        rest = behind;
    }
    1
}

// The places of a cut of the first line.
fn places(text: &[u8]) -> usize
    ensures { result ≡ places_in (lines_of text.now) }
{
    let Some((line, _behind)) = next_line(text) else {
        return 1;
    };
    let (_words, digits) = parted(line);
    (digits.len() / 2).saturating_sub(1).max(1)
}

/// The script with so many octets before each cut.
pub fn cut_at(alloc: Global, script: &[u8], place: usize) -> Result<Vec<u8>, AllocError>
    ensures { IfOk result (λ played. played.items ≡ script_cut place script.now) }
{
    let mut played = Vec::new(alloc);
    let mut rest = script;
    let mut held: (&[u8], &[u8]) = (b"", b"");
    let mut cuts = false;
    while let Some((line, behind)) = next_line(rest) {
        if cuts {
            let (words, digits) = parted(line);
            let (first, last) = digits.split_at(digits.len().min(place.saturating_mul(2)));
            push_line(&mut played, words, first)?;
            held = (words, last);
        } else if is_rest(line) {
            push_line(&mut played, held.0, held.1)?;
        } else {
            played.extend_from_slice(line)?;
        }
        cuts = is_cut(line);
        rest = behind;
    }
    Ok(played)
}

#[tactic(auto, unfolding(crate::specs::Cuts::cut_line))]
fn is_cut(line: &[u8]) -> bool
    ensures { result ≡ is_cut line.now }
{
    line == b"# cut the next line at each octet\n".as_slice()
}

#[tactic(auto, unfolding(crate::specs::Cuts::rest_line))]
fn is_rest(line: &[u8]) -> bool
    ensures { result ≡ is_rest line.now }
{
    line == b"# the rest comes\n".as_slice()
}

// The words of a line with the space behind them, and the digits of its octets.
#[tactic(auto, using(crate::proofs::LastSpace::take_words, crate::proofs::LastSpace::drop_words, crate::proofs::LastSpace::words_fit))]
fn parted(line: &[u8]) -> (&[u8], &[u8])
    ensures words { result.0.now ≡ words_of (unended line.now) }
    ensures digits { result.1.now ≡ digits_of (unended line.now) }
{
    let text = unended(line);
    text.split_at(words_end(text))
}

// The octets up to the last space, with it.
#[tactic(auto, using(crate::proofs::LastSpace::no_words))]
fn words_end(text: &[u8]) -> usize
    ensures { result ≡ length (words_of text.now) }
{
    let mut rest = text;
    let mut at = 0usize;
    let mut end = 0usize;
    while let [octet, more @ ..] = rest {
        at += 1;
        if *octet == b' ' {
            end = at;
        }
        rest = more;
    }
    end
}

fn push_line(played: &mut Vec<u8>, words: &[u8], digits: &[u8]) -> Result<(), AllocError>
    ensures { OnOk result (played.new.items ≡ played.old.items ++ (words.now ++ (digits.now ++ (10 ∷ [])))) }
{
    played.extend_from_slice(words)?;
    played.extend_from_slice(digits)?;
    played.push(b'\n')?;
    Ok(())
}
