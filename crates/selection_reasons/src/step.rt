//! The steps of the selection.
ghost use Rattle.std.specs.Prelude.{◌≡◌, Some};
ghost use Rattle.decision.specs.Selection.{med_of};
ghost use Rattle.selection_reasons.specs.Reasons.{all_steps, beats_at};
ghost use Rattle.selection_reasons.specs.StepWords.{words_of};

use decision::Candidate;
use std::fmt;

/// A step of the selection (RFC 4271 sections 9.1.1 and 9.1.2.2).
#[derive(Clone, Copy, Debug, PartialEq, Eq)]
pub enum Step {
    /// The greatest degree of preference.
    Degree,
    /// (a) The fewest ASes in the path.
    PathLength,
    /// (b) The lowest ORIGIN.
    Origin,
    /// (c) The lowest MULTI_EXIT_DISC of one neighbor AS.
    MultiExitDisc,
    /// (d) Of an external peer.
    External,
    /// (e) The lowest interior cost.
    InteriorCost,
    /// (f) The lowest BGP Identifier of the peer.
    Identifier,
    /// (g) The lowest address of the peer.
    Address,
}

impl Step {
    /// The steps, in the order in which they are taken.
    pub(crate) fn all() -> [Step; 8]
        ensures { result ≡ all_steps }
    {
        [
            Step::Degree,
            Step::PathLength,
            Step::Origin,
            Step::MultiExitDisc,
            Step::External,
            Step::InteriorCost,
            Step::Identifier,
            Step::Address,
        ]
    }

    /// Whether the one beats the other at this step.
    pub(crate) fn beats(self, one: &Candidate, other: &Candidate) -> bool
        ensures { result ≡ beats_at self one.now other.now }
    {
        match self {
            Step::Degree => one.degree > other.degree,
            Step::PathLength => one.path_length < other.path_length,
            Step::Origin => one.origin.octet() < other.origin.octet(),
            Step::MultiExitDisc => one.neighbor == other.neighbor && med_of(one) < med_of(other),
            Step::External => one.external && !other.external,
            Step::InteriorCost => one.cost < other.cost,
            Step::Identifier => one.identifier < other.identifier,
            Step::Address => one.address < other.address,
        }
    }
}

// A missing MULTI_EXIT_DISC counts as 0.
fn med_of(candidate: &Candidate) -> u32
    ensures { result ≡ med_of candidate.now }
{
    candidate.med.unwrap_or(0)
}

impl fmt::Display for Step {
    ghost output = { λ step. Some (words_of step) };

    fn fmt<W: fmt::Write>(&self, f: &mut fmt::Formatter<W>) -> fmt::Result {
        f.write_str(match self {
            Step::Degree => "degree",
            Step::PathLength => "path length",
            Step::Origin => "ORIGIN",
            Step::MultiExitDisc => "MULTI_EXIT_DISC",
            Step::External => "external over internal",
            Step::InteriorCost => "interior cost",
            Step::Identifier => "BGP Identifier",
            Step::Address => "peer address",
        })
    }
}
