//! The words behind a program's name.
ghost use Rattle.std.specs.Prelude.{◌≡◌, ◌<◌, ◌^◌, ℕ, List, MatchOption, MatchResult};
ghost use Rattle.program_endings.specs.Words.{IsCall, WritesTurns, is_option};

use thiserror::Error;

/// Why words are wrong.
#[derive(Clone, Copy, Debug, PartialEq, Eq, Error)]
pub enum WordsFault {
    /// There are none.
    #[error("SETTINGS is wanted")]
    NoSettings,
    /// The one word begins with a hyphen, and is none that is known.
    #[error("the word is no option")]
    NoOption,
    /// The second word isn't digits alone, or too great.
    #[error("TURNS is no number from 0 to 18446744073709551615")]
    NoTurns,
    /// There are more.
    #[error("there are more words than SETTINGS and TURNS")]
    TooMany,
}

/// The path of the settings and the number of turns: two words, the second one of digits alone and within u64, or one word,
/// that doesn't begin with a hyphen, for the greatest number of turns.
pub fn read_words(words: &[String]) -> Result<(&str, u64), WordsFault>
    ensures { MatchResult result (λ read. IsCall words.now read.0.now read.1) (λ fault. (path : List ℕ) (turns : ℕ) → ¬ (IsCall words.now path turns)) }
{
    match words {
        [] => Err(WordsFault::NoSettings),
        [path] if is_option(path.as_str()) => Err(WordsFault::NoOption),
        [path] => Ok((path.as_str(), u64::MAX)),
        [path, turns] => match read_turns(turns.as_str()) {
            Some(turns) => Ok((path.as_str(), turns)),
            None => Err(WordsFault::NoTurns),
        },
        _ => Err(WordsFault::TooMany),
    }
}

// Whether a word begins with a hyphen.
fn is_option(word: &str) -> bool
    ensures { result ≡ is_option word.now }
{
    word.as_bytes().first() == Some(&b'-')
}

// The number that digits alone write.
fn read_turns(text: &str) -> Option<u64>
    ensures { MatchOption result ((turns : ℕ) → ¬ (WritesTurns text.now turns)) (λ turns. WritesTurns text.now turns) }
{
    // `parse` passes over a plus.
    if text.as_bytes().first() == Some(&b'+') {
        return None;
    }
    match text.parse::<u64>() {
        Ok(turns) => Some(turns),
        Err(_) => None,
    }
}
