//! What words may ask for besides the program's work.
ghost use Rattle.std.specs.Prelude.{MatchOption};
ghost use Rattle.program_endings.specs.Asides.{Asks, AsksAlone};
ghost use Rattle.program_endings.specs.declared.aside.Aside.{Aside};

/// What words may ask for besides the program's work.
#[derive(Clone, Copy)]
pub enum Aside<'a> {
    /// `--help`: what the words are, and the keys of the settings.
    Help,
    /// `--version`.
    Version,
    /// `--check SETTINGS`: whether the settings of this path are good, with all that they name.
    Check(&'a str),
}

/// What the words ask for besides the program's work, if they do.
pub fn aside_of(words: &[String]) -> Option<Aside<'_>>
    ensures { MatchOption result ((aside : Aside) → ¬ (Asks words.now aside)) (λ aside. Asks words.now aside) }
{
    match words {
        [word] => single(word.as_str()),
        [word, path] if word.as_str() == "--check" => Some(Aside::Check(path.as_str())),
        _ => None,
    }
}

// What one word asks for.
fn single(word: &str) -> Option<Aside<'_>>
    ensures { MatchOption result ((aside : Aside) → ¬ (AsksAlone word.now aside)) (λ aside. AsksAlone word.now aside) }
{
    match word {
        "--help" => Some(Aside::Help),
        "--version" => Some(Aside::Version),
        _ => None,
    }
}
