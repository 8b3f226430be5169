//! The words of a line.
ghost use Rattle.std.specs.Prelude.{◌≡◌, ◌≢◌, ◌∷◌, [], ℕ, List, IfOk, MatchOption, map};
ghost use Rattle.command_lines.specs.Words.{words_in};

use std::alloc::{AllocError, Global};

/// The words of a line, which stand between single spaces.
pub fn words_of(alloc: Global, text: &str) -> Result<Vec<&str>, AllocError>
    ensures { IfOk result (λ words. map (λ word. word.now) words.items ≡ words_in text.now) }
{
    text.split(' ').collect(alloc)
}

/// The first word, and those behind it.
pub(crate) fn first_word<'w, 'a>(words: &'w [&'a str]) -> Option<(&'a str, &'w [&'a str])>
    ensures { MatchOption result (map (λ word. word.now) words.now ≡ []) (λ cut. map (λ word. word.now) words.now ≡ cut.0.now ∷ map (λ word. word.now) cut.1.now) }
{
    match words {
        [first, rest @ ..] => Some((*first, rest)),
        [] => None,
    }
}

/// The word that stands alone.
pub(crate) fn only_word<'a>(words: &[&'a str]) -> Option<&'a str>
    ensures { MatchOption result ((word : List ℕ) → map (λ word. word.now) words.now ≢ word ∷ []) (λ word. map (λ word. word.now) words.now ≡ word.now ∷ []) }
{
    match words {
        [word] => Some(*word),
        _ => None,
    }
}

/// The two words, where there are just two.
pub(crate) fn two_words<'a>(words: &[&'a str]) -> Option<(&'a str, &'a str)>
    ensures { MatchOption result ((one two : List ℕ) → map (λ word. word.now) words.now ≢ one ∷ two ∷ []) (λ both. map (λ word. word.now) words.now ≡ both.0.now ∷ both.1.now ∷ []) }
{
    match words {
        [one, two] => Some((*one, *two)),
        _ => None,
    }
}

/// The three words, where there are just three.
pub(crate) fn three_words<'a>(words: &[&'a str]) -> Option<(&'a str, &'a str, &'a str)>
    ensures { MatchOption result ((one two three : List ℕ) → map (λ word. word.now) words.now ≢ one ∷ two ∷ three ∷ []) (λ all. map (λ word. word.now) words.now ≡ all.0.now ∷ all.1.now ∷ all.2.now ∷ []) }
{
    match words {
        [one, two, three] => Some((*one, *two, *three)),
        _ => None,
    }
}

/// The first three words, and those behind them.
pub(crate) fn first_three<'w, 'a>(
    words: &'w [&'a str],
) -> Option<(&'a str, &'a str, &'a str, &'w [&'a str])>
    ensures { MatchOption result ((first second third : List ℕ) (rest : List (List ℕ)) → map (λ word. word.now) words.now ≢ first ∷ second ∷ third ∷ rest) (λ cut. map (λ word. word.now) words.now ≡ cut.0.now ∷ cut.1.now ∷ cut.2.now ∷ map (λ word. word.now) cut.3.now) }
{
    let [first, second, third, rest @ ..] = words else {
        return None;
    };
    Some((*first, *second, *third, rest))
}
