//! The forms of commands.

use crate::line_cause::LineCause;
use crate::parts::Part;
use crate::shown_word::ShownWord;

const PEER: [Part; 8] = [
    Part::Slot,
    Part::As,
    Part::Address,
    Part::Local,
    Part::Mode,
    Part::Hold,
    Part::Import,
    Part::Export,
];

const SLOT: [Part; 1] = [Part::Slot];

const NAME: [Part; 1] = [Part::Name];

const USE: [Part; 3] = [Part::Direction, Part::Slot, Part::Name];

const PREFIX: [Part; 1] = [Part::Prefix];

const REACH: [Part; 2] = [Part::Prefix, Part::Cost];

const FILTER: [Part; 1] = [Part::FilterKind];

const FILTER_PREFIX: [Part; 2] = [Part::FilterKind, Part::Prefix];

const FILTER_AS: [Part; 2] = [Part::FilterKind, Part::As];

const FILTER_BOTH: [Part; 3] = [Part::FilterKind, Part::Prefix, Part::As];

const ASSERTION: [Part; 3] = [Part::Prefix, Part::MaxLength, Part::As];

/// What is to stand behind the first word of a command, where these words do, save behind that of a policy's rules.
pub(crate) fn form_of(word: &str, behind: &[&str]) -> Option<&'static [Part]> {
    match word {
        "peer" => Some(&PEER),
        "drop" | "enable" | "disable" => Some(&SLOT),
        "nopolicy" => Some(&NAME),
        "use" => Some(&USE),
        "network" | "nonetwork" | "noreach" => Some(&PREFIX),
        "reach" => Some(&REACH),
        "filter" | "nofilter" => Some(filter_form(behind)),
        "assert" | "noassert" => Some(&ASSERTION),
        _ => None,
    }
}

// What is to stand behind `filter`, where these words do.
fn filter_form(words: &[&str]) -> &'static [Part] {
    let Some(kind) = words.first() else {
        return &FILTER;
    };
    match *kind {
        "prefix" => &FILTER_PREFIX,
        "as" => &FILTER_AS,
        "both" => &FILTER_BOTH,
        _ => &FILTER,
    }
}

/// Why words aren't of this form.
pub(crate) fn misfit<'a>(words: &[&'a str], form: &[Part]) -> Option<LineCause<'a>> {
    if let Some(cause) = misfit_at_front(words, form) {
        return Some(cause);
    }
    let word = words.get(form.len())?;
    Some(LineCause::Surplus(ShownWord(word)))
}

/// Why words don't begin with this form.
pub(crate) fn misfit_at_front<'a>(words: &[&'a str], form: &[Part]) -> Option<LineCause<'a>> {
    let mut left = words.iter();
    for part in form {
        match left.next() {
            None => return Some(LineCause::Missing(*part)),
            Some(word) if !part.is_met_by(word) => return Some(LineCause::wrong(word, *part)),
            Some(_) => {}
        }
    }
    None
}
