//! The command of a line.
ghost use Rattle.std.specs.Prelude.{◌≡◌, ◌≢◌, ◌∷◌, ℕ, List, MatchOption, codes, map};
ghost use Rattle.bgp_attr.specs.declared.peer.Mode.{Mode as Way};
ghost use Rattle.command_lines.specs.CommandWords.{AreTerms, IsAsWord, IsAssertion, IsFilter, IsNamed, IsPeer, IsPrefixAndAs, IsPrefixWord, IsSlot, SayNone, Says, SaysLine};
ghost use Rattle.command_lines.specs.Words.{Finds, IsName, Reads, words_in};
ghost use Rattle.command_lines.specs.declared.command_line.LineFault.TheVariants.{NoMemory};

use crate::fields::{address, asn_of, is_word, long, mode_of, name_of, octet, prefix_of, short};
use crate::keywords::{Keyword, keyword_of};
use crate::rules::rules_of;
use crate::words::{first_three, first_word, only_word, three_words, two_words, words_of};
use bgp_attr::Mode;
use bgp_conf::{Command, PeerConf, Rule};
use net_prefix::{Asn, Prefix};
use std::alloc::{AllocError, Global};
use thiserror::Error;

/// Why a text is no line.
#[derive(Clone, Copy, Debug, PartialEq, Eq, Error)]
pub enum LineFault {
    /// It has other words than a line has.
    #[error("bad line")]
    BadLine,
    /// There is no memory for what it says.
    #[error("no memory")]
    NoMemory,
}

impl From<AllocError> for LineFault {
    ghost from_gives = { λ _ fault. fault ≡ NoMemory };

    fn from(_error: AllocError) -> LineFault {
        LineFault::NoMemory
    }
}

/// What a line commands.
#[derive(Drop)]
pub enum CommandLine<'a> {
    /// `peer SLOT AS ADDRESS LOCAL active|passive HOLD IMPORT EXPORT`, `drop SLOT`, `enable SLOT`, `disable SLOT`,
    /// `nopolicy NAME`, `use in SLOT NAME`, `use out SLOT NAME`, `network PREFIX`, `nonetwork PREFIX`, `reach PREFIX COST`,
    /// `noreach PREFIX`, `filter prefix PREFIX`, `filter as AS`, `filter both PREFIX AS`, `assert PREFIX MAX AS`, and the same
    /// behind `nofilter` and `noassert`
    Plain(Command<'a>),
    /// `policy NAME RULE ; RULE ..`
    SetPolicy(&'a str, Vec<Rule>),
}

impl CommandLine<'_> {
    /// What the words of a text command.
    pub fn parse(alloc: Global, text: &str) -> Result<CommandLine<'_>, LineFault>
        ensures { Reads (SaysLine (words_in text.now)) (SayNone (words_in text.now)) result }
    {
        let words = words_of(alloc, text)?;
        CommandLine::of(alloc, words.as_slice())
    }

    /// What words command.
    pub fn of<'a>(alloc: Global, words: &[&'a str]) -> Result<CommandLine<'a>, LineFault>
        ensures { Reads (SaysLine (map (λ word. word.now) words.now)) (SayNone (map (λ word. word.now) words.now)) result }
    {
        let Some((word, words)) = first_word(words) else {
            return Err(LineFault::BadLine);
        };
        if is_word(word, "policy") {
            return policy(alloc, words);
        }
        match command(word, words) {
            Some(command) => Ok(CommandLine::Plain(command)),
            None => Err(LineFault::BadLine),
        }
    }

    /// The command.
    pub fn command(&self) -> Command<'_>
        ensures { (words : List (List ℕ)) → SaysLine words self.now → Says words result }
    {
        match self {
            CommandLine::Plain(command) => *command,
            CommandLine::SetPolicy(name, rules) => Command::SetPolicy(name, rules.as_slice()),
        }
    }
}

// The policy that the words behind `policy` set.
fn policy<'a>(alloc: Global, words: &[&'a str]) -> Result<CommandLine<'a>, LineFault>
    ensures { Reads (SaysLine (codes "policy" ∷ map (λ word. word.now) words.now)) (SayNone (codes "policy" ∷ map (λ word. word.now) words.now)) result }
{
    let Some((name, words)) = named_rules(words) else {
        return Err(LineFault::BadLine);
    };
    let rules = rules_of(alloc, words)?;
    Ok(CommandLine::SetPolicy(name, rules))
}

// The name of a policy, and the words of its rules.
fn named_rules<'w, 'a>(words: &'w [&'a str]) -> Option<(&'a str, &'w [&'a str])>
    ensures { MatchOption result ((name : List ℕ) (body : List (List ℕ)) → map (λ word. word.now) words.now ≡ name ∷ body → ¬ (IsName name)) (λ read. (map (λ word. word.now) words.now ≡ read.0.now ∷ map (λ word. word.now) read.1.now) × IsName read.0.now) }
{
    let (word, words) = first_word(words)?;
    Some((name_of(word)?, words))
}

// The command that a first word and those behind it say, save that of a policy's rules.
fn command<'a>(word: &str, words: &[&'a str]) -> Option<Command<'a>>
    ensures { MatchOption result (word.now ≢ codes "policy" → SayNone (word.now ∷ map (λ word. word.now) words.now)) (Says (word.now ∷ map (λ word. word.now) words.now)) }
{
    let keyword = keyword_of(word)?;
    match keyword {
        Keyword::Peer => add_peer(words),
        Keyword::Drop => Some(Command::RemovePeer(slot(words)?)),
        Keyword::Enable => Some(Command::Enable(slot(words)?)),
        Keyword::Disable => Some(Command::Disable(slot(words)?)),
        Keyword::Policy => None,
        Keyword::NoPolicy => Some(Command::DropPolicy(name(words)?)),
        Keyword::Use => use_policy(words),
        Keyword::Network => Some(Command::Network(prefix(words)?)),
        Keyword::NoNetwork => Some(Command::NoNetwork(prefix(words)?)),
        Keyword::Reach => reach(words),
        Keyword::NoReach => Some(Command::NoReach(prefix(words)?)),
        Keyword::Filter => {
            let (prefix, asn) = filter(words)?;
            Some(Command::Filter(prefix, asn))
        }
        Keyword::NoFilter => {
            let (prefix, asn) = filter(words)?;
            Some(Command::NoFilter(prefix, asn))
        }
        Keyword::Assert => {
            let (prefix, max_len, asn) = assertion(words)?;
            Some(Command::Assert(prefix, max_len, asn))
        }
        Keyword::NoAssert => {
            let (prefix, max_len, asn) = assertion(words)?;
            Some(Command::NoAssert(prefix, max_len, asn))
        }
    }
}

fn slot(words: &[&str]) -> Option<u8>
    ensures { Finds (IsSlot (map (λ word. word.now) words.now)) result }
{
    octet(only_word(words)?)
}

fn name<'a>(words: &[&'a str]) -> Option<&'a str>
    ensures { MatchOption result ((name : List ℕ) → ¬ (IsNamed (map (λ word. word.now) words.now) name)) (λ name. IsNamed (map (λ word. word.now) words.now) name.now) }
{
    name_of(only_word(words)?)
}

fn prefix(words: &[&str]) -> Option<Prefix>
    ensures { Finds (IsPrefixWord (map (λ word. word.now) words.now)) result }
{
    prefix_of(only_word(words)?)
}

fn reach<'a>(words: &[&'a str]) -> Option<Command<'a>>
    ensures { MatchOption result (SayNone (codes "reach" ∷ map (λ word. word.now) words.now)) (Says (codes "reach" ∷ map (λ word. word.now) words.now)) }
{
    let (prefix, cost) = two_words(words)?;
    Some(Command::Reach(prefix_of(prefix)?, long(cost)?))
}

fn asn(words: &[&str]) -> Option<Asn>
    ensures { Finds (IsAsWord (map (λ word. word.now) words.now)) result }
{
    asn_of(only_word(words)?)
}

fn prefix_and_as(words: &[&str]) -> Option<(Prefix, Asn)>
    ensures { Finds (λ both. IsPrefixAndAs (map (λ word. word.now) words.now) both.0 both.1) result }
{
    let (prefix, asn) = two_words(words)?;
    Some((prefix_of(prefix)?, asn_of(asn)?))
}

// The parts of a filter.
fn filter(words: &[&str]) -> Option<(Option<Prefix>, Option<Asn>)>
    ensures { Finds (λ parts. IsFilter (map (λ word. word.now) words.now) parts.0 parts.1) result }
{
    let (kind, words) = first_word(words)?;
    if is_word(kind, "prefix") {
        return Some((Some(prefix(words)?), None));
    }
    if is_word(kind, "as") {
        return Some((None, Some(asn(words)?)));
    }
    if is_word(kind, "both") {
        let (prefix, asn) = prefix_and_as(words)?;
        return Some((Some(prefix), Some(asn)));
    }
    None
}

// The prefix, the maximum length and the AS of an assertion.
fn assertion(words: &[&str]) -> Option<(Prefix, u8, Asn)>
    ensures { Finds (λ parts. IsAssertion (map (λ word. word.now) words.now) parts.0 parts.1 parts.2) result }
{
    let (prefix, max_len, asn) = three_words(words)?;
    Some((prefix_of(prefix)?, octet(max_len)?, asn_of(asn)?))
}

fn use_policy<'a>(words: &[&'a str]) -> Option<Command<'a>>
    ensures { MatchOption result (SayNone (codes "use" ∷ map (λ word. word.now) words.now)) (Says (codes "use" ∷ map (λ word. word.now) words.now)) }
{
    let (way, words) = first_word(words)?;
    let (number, policy) = two_words(words)?;
    let slot = octet(number)?;
    let name = name_of(policy)?;
    if is_word(way, "in") {
        return Some(Command::UseIn(slot, name));
    }
    if is_word(way, "out") {
        return Some(Command::UseOut(slot, name));
    }
    None
}

fn add_peer<'a>(words: &[&'a str]) -> Option<Command<'a>>
    ensures { MatchOption result (SayNone (codes "peer" ∷ map (λ word. word.now) words.now)) (Says (codes "peer" ∷ map (λ word. word.now) words.now)) }
{
    let (slot, terms) = first_word(words)?;
    Some(Command::AddPeer(octet(slot)?, peer(terms)?))
}

fn peer<'a>(words: &[&'a str]) -> Option<PeerConf<'a>>
    ensures { Finds (IsPeer (map (λ word. word.now) words.now)) result }
{
    let (asn, peer_address, local, terms) = first_three(words)?;
    let (mode, hold, import, export) = terms_of(terms)?;
    Some(PeerConf {
        asn: Asn(long(asn)?),
        address: address(peer_address)?,
        local: address(local)?,
        mode,
        hold,
        import,
        export,
    })
}

// Which side connects, the hold time, and the import and the export policy.
fn terms_of<'a>(words: &[&'a str]) -> Option<(Mode, u16, &'a str, &'a str)>
    ensures { MatchOption result ((mode : Way) (hold : ℕ) (import export : List ℕ) → ¬ (AreTerms (map (λ word. word.now) words.now) mode hold import export)) (λ terms. AreTerms (map (λ word. word.now) words.now) terms.0 terms.1 terms.2.now terms.3.now) }
{
    let [mode, hold, import, export] = words else {
        return None;
    };
    Some((
        mode_of(mode)?,
        short(hold)?,
        name_of(import)?,
        name_of(export)?,
    ))
}
