//! The cause of a line.
ghost use Rattle.std.specs.Prelude.{◌≡◌, IfOk, IsAscii, MatchOption};
ghost use Rattle.command_lines.specs.CommandWords.{SayNone, SaysLine};
ghost use Rattle.command_lines.specs.Words.{words_in};
ghost use Rattle.command_lines.specs.declared.command_line.CommandLine.{CommandLine as Line};

use crate::forms::{form_of, misfit};
use crate::line_cause::LineCause;
use crate::nearest::{FIRST_WORDS, nearest};
use crate::other_lines::{OtherLine, nearest_first, other_cause};
use crate::rules::policy_cause;
use crate::shown_word::ShownWord;
use command_lines::{CommandLine, LineFault, words_of};
use std::alloc::{AllocError, Global};
use std::str;

/// Why the text commands nothing, if it commands nothing. Beside commands these lines are known where it stands.
pub fn cause_of<'a>(
    alloc: Global,
    text: &'a str,
    others: &[OtherLine],
) -> Result<Option<LineCause<'a>>, AllocError>
    ensures { IfOk result (λ told. MatchOption told ((line : Line) × SaysLine (words_in text.now) line) (λ cause. SayNone (words_in text.now))) }
{
    match CommandLine::parse(alloc, text) {
        Ok(_) => Ok(None),
        Err(LineFault::BadLine) => Ok(Some(cause_in(alloc, text, others)?)),
        Err(LineFault::NoMemory) => Err(AllocError),
    }
}

/// The same of the octets of a line without its end, of which none is to be outside ASCII.
pub fn cause_of_octets<'a>(
    alloc: Global,
    line: &'a [u8],
    others: &[OtherLine],
) -> Result<Option<LineCause<'a>>, AllocError>
    ensures { IsAscii line.now → IfOk result (λ told. MatchOption told ((said : Line) × SaysLine (words_in line.now) said) (λ cause. SayNone (words_in line.now))) }
{
    match text_of(line) {
        Some(text) => cause_of(alloc, text, others),
        None => Ok(Some(LineCause::NotAscii)),
    }
}

// The text of ASCII octets.
fn text_of(octets: &[u8]) -> Option<&str>
    ensures { MatchOption result (¬ (IsAscii octets.now)) (λ text. text.now ≡ octets.now) }
{
    if !octets.is_ascii() {
        return None;
    }
    str::from_utf8(octets).ok()
}

// The cause of a text that commands nothing.
fn cause_in<'a>(
    alloc: Global,
    text: &'a str,
    others: &[OtherLine],
) -> Result<LineCause<'a>, AllocError> {
    let words = words_of(alloc, text)?;
    match words.as_slice() {
        [first, rest @ ..] => first_cause(alloc, first, rest, others),
        [] => Ok(LineCause::NoCommand),
    }
}

fn begins_one_of(word: &str, others: &[OtherLine]) -> bool {
    others.iter().any(|other| other.first == word)
}

// The cause of words of which the first is this one.
fn first_cause<'a>(
    alloc: Global,
    first: &'a str,
    rest: &[&'a str],
    others: &[OtherLine],
) -> Result<LineCause<'a>, AllocError> {
    if first.is_empty() || rest.iter().any(|word| word.is_empty()) {
        return Ok(LineCause::Spaces);
    }
    if begins_one_of(first, others) {
        return Ok(other_cause(first, rest, others));
    }
    if first == "policy" {
        return Ok(policy_cause(rest).unwrap_or(LineCause::NoCommand));
    }
    match form_of(first, rest) {
        Some(form) => Ok(misfit(rest, form).unwrap_or(LineCause::NoCommand)),
        None => unknown(alloc, first, others),
    }
}

// The cause of a first word that no line has.
fn unknown<'a>(
    alloc: Global,
    first: &'a str,
    others: &[OtherLine],
) -> Result<LineCause<'a>, AllocError> {
    let command = nearest(alloc, first, &FIRST_WORDS)?;
    let other = nearest_first(alloc, first, others)?;
    let word = ShownWord(first);
    match (command, other) {
        (Some((edits, _)), Some((fewer, near))) if fewer < edits => {
            Ok(LineCause::NearWord(word, near))
        }
        (Some((_, near)), _) | (None, Some((_, near))) => Ok(LineCause::NearWord(word, near)),
        (None, None) => Ok(LineCause::FirstWord(word)),
    }
}
