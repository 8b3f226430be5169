//! The first words of commands.
ghost use Rattle.std.specs.Prelude.{◌≡◌};
ghost use Rattle.command_lines.specs.Keywords.{text_of};
ghost use Rattle.command_lines.specs.Words.{Finds};

/// The first word of a command.
#[derive(Clone, Copy)]
pub(crate) enum Keyword {
    Peer,
    Drop,
    Enable,
    Disable,
    Policy,
    NoPolicy,
    Use,
    Network,
    NoNetwork,
    Reach,
    NoReach,
    Filter,
    NoFilter,
    Assert,
    NoAssert,
}

/// Which first word this one is.
pub(crate) fn keyword_of(word: &str) -> Option<Keyword>
    ensures { Finds (λ keyword. word.now ≡ text_of keyword) result }
{
    match word {
        "peer" => Some(Keyword::Peer),
        "drop" => Some(Keyword::Drop),
        "enable" => Some(Keyword::Enable),
        "disable" => Some(Keyword::Disable),
        "policy" => Some(Keyword::Policy),
        "nopolicy" => Some(Keyword::NoPolicy),
        "use" => Some(Keyword::Use),
        "network" => Some(Keyword::Network),
        "nonetwork" => Some(Keyword::NoNetwork),
        "reach" => Some(Keyword::Reach),
        "noreach" => Some(Keyword::NoReach),
        "filter" => Some(Keyword::Filter),
        "nofilter" => Some(Keyword::NoFilter),
        "assert" => Some(Keyword::Assert),
        "noassert" => Some(Keyword::NoAssert),
        _ => None,
    }
}
