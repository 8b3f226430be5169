//! Where a candidate falls.
ghost use Rattle.std.specs.Prelude.{◌≡◌, ◌≤◌, ◌↔◌, Contains, IfSome, None, length};
ghost use Rattle.decision.specs.Selection.{AreDistinct, IsSelected, unbeaten};
ghost use Rattle.selection_reasons.specs.Reasons.{FellAt, all_steps, beats_at, fell_by, is_beaten};

use crate::step::Step;
use arrayvec::ArrayVec;
use decision::{Candidate, MAX_CANDIDATES};

// The candidates that are left.
type Left = ArrayVec<Candidate, MAX_CANDIDATES>;

/// The step of the selection at which the candidate falls of these; none where it is the one that is selected.
#[tactic(auto, using(crate::proofs::Falling::fell_is, crate::proofs::Falling::best_is))]
pub fn fell_at(candidates: &[Candidate], candidate: &Candidate) -> Option<Step>
    requires few { length candidates.now ≤ 65 }
    ensures value { result ≡ fell_by all_steps candidates.now candidate.now }
    // The steps before it leave the candidate, and one of those left beats it there.
    ensures fell { Contains candidates.now candidate.now → IfSome result (λ step. FellAt candidates.now candidate.now step) }
    ensures best { Contains candidates.now candidate.now → AreDistinct candidates.now → (result ≡ None) ↔ IsSelected candidates.now candidate.now }
{
    fell_among(&Step::all(), candidates, candidate)
}

// The first of these steps at which the candidate is beaten, of those that are left.
fn fell_among(steps: &[Step], left: &[Candidate], candidate: &Candidate) -> Option<Step>
    requires few { length left.now ≤ 65 }
    ensures { result ≡ fell_by steps.now left.now candidate.now }
{
    let [step, rest @ ..] = steps else {
        return None;
    };
    if is_beaten(*step, left, candidate) {
        return Some(*step);
    }
    fell_among(rest, unbeaten(*step, left).as_slice(), candidate)
}

// Whether one of those left beats the candidate at the step.
fn is_beaten(step: Step, left: &[Candidate], candidate: &Candidate) -> bool
    ensures { result ≡ is_beaten step left.now candidate.now }
{
    left.iter().any(|other| step.beats(other, candidate))
}

// Those that none of them beats at the step.
fn unbeaten(step: Step, left: &[Candidate]) -> Left
    requires few { length left.now ≤ 65 }
    ensures { result.items ≡ unbeaten (beats_at step) left.now }
{
    let mut kept = Left::new();
    for candidate in left {
        if !is_beaten(step, left, candidate) {
            kept.push(*candidate);
        }
    }
    kept
}
