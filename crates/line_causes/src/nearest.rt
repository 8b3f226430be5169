//! Words that are near to another.

use std::alloc::{AllocError, Global};
use strsim::levenshtein;

/// The first words of commands.
pub(crate) const FIRST_WORDS: [&str; 15] = [
    "peer",
    "drop",
    "enable",
    "disable",
    "policy",
    "nopolicy",
    "use",
    "network",
    "nonetwork",
    "reach",
    "noreach",
    "filter",
    "nofilter",
    "assert",
    "noassert",
];

// A word of more octets isn't compared (own choice).
const MOST_OCTETS: usize = 32;

// How many edits lead from a near word at most, of a short one no more than half as many as it has octets (own choice).
const MOST_EDITS: usize = 2;

/// The nearest of these words from which few edits lead to this one, with how many, if there is one.
pub(crate) fn nearest(
    alloc: Global,
    word: &str,
    known: &[&'static str],
) -> Result<Option<(usize, &'static str)>, AllocError> {
    if word.len() > MOST_OCTETS {
        return Ok(None);
    }
    let mut nearest = None;
    let mut fewest = MOST_EDITS.min(word.len() / 2) + 1;
    for name in known {
        let edits = levenshtein(alloc, name, word)?;
        if edits < fewest {
            nearest = Some((edits, *name));
            fewest = edits;
        }
    }
    Ok(nearest)
}
