//! The candidates of a prefix, each with the step at which it fell.
ghost use Rattle.std.specs.Prelude.{◌≡◌, ◌≤◌, None, length, map};
ghost use Rattle.routing.specs.Candidates.{AreCandidates};
ghost use Rattle.selection_reasons.specs.Reasons.{all_steps, fell_by};
ghost use Rattle.runs.specs.SpeakerState.{tables_of};

use arrayvec::ArrayVec;
use decision::{Book, Candidate, LOCAL_SLOT, MAX_CANDIDATES};
use net_prefix::Prefix;
use selection_reasons::{Step, fell_at};
use speaker::Speaker;
use std::alloc::Global;

/// A candidate, and the step of the selection at which it fell; none of the best.
#[derive(Clone, Copy, Debug, PartialEq, Eq)]
pub struct Ranked {
    pub candidate: Candidate,
    pub fell: Option<Step>,
}

impl Default for Ranked {
    ghost is_default = { λ r. r.fell ≡ None };

    /// What fills the places of a list that are not in use.
    fn default() -> Ranked {
        Ranked {
            candidate: Candidate::default(),
            fell: None,
        }
    }
}

/// The candidates of a prefix in the order of their slots, a local network behind them.
pub fn candidates_of<B: Book<Global>>(
    speaker: &Speaker<Global, B>,
    prefix: Prefix,
) -> ArrayVec<Candidate, MAX_CANDIDATES>
    ensures all { AreCandidates (tables_of speaker.now) prefix result.items }
    ensures few { length result.items ≤ 65 }
{
    let mut candidates = ArrayVec::new();
    for slot in 0..LOCAL_SLOT + 1 {
        if let Some(candidate) = speaker.candidate(slot, prefix) {
            candidates.push(candidate);
        }
    }
    candidates
}

/// Each of these with the step at which it fell of them all.
pub fn with_steps(candidates: &[Candidate]) -> ArrayVec<Ranked, MAX_CANDIDATES>
    requires few { length candidates.now ≤ 65 }
    ensures { result.items ≡ map (λ c. record { candidate = c; fell = fell_by all_steps candidates.now c }) candidates.now }
{
    let mut all = ArrayVec::new();
    for candidate in candidates {
        all.push(Ranked {
            candidate: *candidate,
            fell: fell_at(candidates, candidate),
        });
    }
    all
}
