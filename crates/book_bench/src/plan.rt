//! What is measured.

use decision::MAX_CANDIDATES;

/// The book that is measured.
#[derive(Clone, Copy)]
pub enum Kind {
    Plain,
    Live,
}

/// What changes.
#[derive(Clone, Copy)]
pub enum What {
    /// The best candidate goes and comes.
    Best,
    /// The worst one does.
    Worst,
    /// The best one's MED changes.
    Med,
}

/// What the words ask for.
#[derive(Clone, Copy)]
pub struct Plan {
    pub kind: Kind,
    pub prefixes: u32,
    pub candidates: u8,
    pub neighbors: u8,
    pub what: What,
    pub changes: u32,
}

impl Plan {
    /// What the words say, where they are six, and no more candidates than a prefix has.
    pub fn read(words: &[String]) -> Option<Plan> {
        let [book, prefixes, candidates, neighbors, what, changes] = words else {
            return None;
        };
        Some(Plan {
            kind: kind_of(book.as_str())?,
            prefixes: prefixes.as_str().parse().ok()?,
            candidates: candidates_of(candidates.as_str())?,
            neighbors: neighbors.as_str().parse().ok()?,
            what: what_of(what.as_str())?,
            changes: changes.as_str().parse().ok()?,
        })
    }
}

// No more than a prefix has.
fn candidates_of(word: &str) -> Option<u8> {
    let candidates: u8 = word.parse().ok()?;
    if usize::from(candidates) > MAX_CANDIDATES {
        return None;
    }
    Some(candidates)
}

fn kind_of(word: &str) -> Option<Kind> {
    match word {
        "plain" => Some(Kind::Plain),
        "live" => Some(Kind::Live),
        _ => None,
    }
}

fn what_of(word: &str) -> Option<What> {
    match word {
        "best" => Some(What::Best),
        "worst" => Some(What::Worst),
        "med" => Some(What::Med),
        _ => None,
    }
}
