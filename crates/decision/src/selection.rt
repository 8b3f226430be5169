//! The steps of the selection.
ghost use Rattle.std.specs.Prelude.{◌≡◌, ◌≢◌, ◌≤◌, ◌+◌, ◌-◌, ◌^◌, ◌<◌, [], fold, length, min, None, Some, unwrap_or, All, Contains, IfSome, MatchOption, slice_get};
ghost use Rattle.decision.specs.Selection.{AreDistinct, IsSelected, has_greater_degree, has_lower_med, med_of, selection, unbeaten};
ghost use Rattle.decision.specs.Steps.{beats, greatest_of, has_rival, is_bounded_by, is_left, is_within, key_of, left_of, lower, lowest_of, passes_med};
ghost use Rattle.decision.specs.declared.candidate.Candidate.{Candidate as Route};

use crate::candidate::Candidate;
use crate::meter::Meter;
use arrayvec::ArrayVec;

// The steps that go by a number of each candidate (RFC 4271 section 9.1.2.2). MED, which is compared within a neighbor
// AS alone, is none of them.
#[derive(Clone, Copy)]
enum Step {
    FewestAses,
    LowestOrigin,
    ExternalFirst,
    LowestCost,
    LowestIdentifier,
    LowestAddress,
}

impl Step {
    // The number by which the step goes: the lowest one stays.
    fn key(self, candidate: &Candidate) -> u32
        ensures { result ≡ key_of self candidate.now }
    {
        match self {
            Step::FewestAses => candidate.path_length,
            Step::LowestOrigin => u32::from(candidate.origin.octet()),
            Step::ExternalFirst => u32::from(!candidate.external),
            Step::LowestCost => candidate.cost,
            Step::LowestIdentifier => candidate.identifier,
            Step::LowestAddress => candidate.address,
        }
    }
}

// What a step leaves: the candidates whose number is this one or below.
#[derive(Clone, Copy)]
struct Bound {
    step: Step,
    most: u32,
}

impl Default for Bound {
    ghost use Rattle.decision.specs.declared.selection.Step.TheVariants.{FewestAses};

    ghost is_default = { λ bound. bound ≡ record { step = FewestAses; most = 0 } };

    fn default() -> Bound {
        Bound {
            step: Step::FewestAses,
            most: 0,
        }
    }
}

// The candidates that are left: those of this degree of preference and above, and within the bounds of the steps so
// far. From (c) on `tied` has the bounds that stood before it, and none is left that another one within these beats.
#[derive(Drop)]
struct Left<'a> {
    candidates: &'a [Candidate],
    degree: u64,
    bounds: ArrayVec<Bound, 4>,
    tied: Option<ArrayVec<Bound, 4>>,
}

impl<'a> Left<'a> {
    // Whether the candidate is left.
    fn holds(&self, candidate: &Candidate) -> bool
        ensures { result ≡ is_left self.now candidate.now }
    {
        self.is_within(&self.bounds, candidate) && self.passes_med(candidate)
    }

    // Whether it is of the degree of preference, and within the bounds.
    fn is_within(&self, bounds: &[Bound], candidate: &Candidate) -> bool
        ensures { result ≡ is_within self.now.degree bounds.now candidate.now }
    {
        is_bounded(bounds, candidate) && self.degree <= candidate.degree
    }

    // Whether it was left before (c), and no other one left then beats it. Until (c) each one passes.
    fn passes_med(&self, candidate: &Candidate) -> bool
        ensures { result ≡ passes_med self.now.candidates.now self.now.degree self.now.tied candidate.now }
    {
        match &self.tied {
            Some(tied) => self.is_within(tied, candidate) && !self.has_rival(tied, candidate),
            None => true,
        }
    }

    // Whether one within the bounds has a lower MED.
    fn has_rival(&self, bounds: &[Bound], candidate: &Candidate) -> bool
        ensures { result ≡ has_rival self.now.candidates.now self.now.degree bounds.now candidate.now }
    {
        self.candidates.iter().any(|other| has_lower_med(other, candidate)
            && self.is_within(bounds, other))
    }

    // The first of them.
    fn first(&self) -> Option<Candidate>
        ensures { result ≡ fold (λ first c. Some (unwrap_or first c)) None (left_of self.now) }
    {
        self.candidates
            .iter()
            .filter(|candidate| self.holds(candidate))
            .fold(None, |first, candidate| {
                Some(first.unwrap_or(*candidate))
            })
    }

    // Those of the lowest key.
    fn lowest(mut self, step: Step) -> Left<'a>
        requires { length self.bounds.items < 4 }
        ensures left { left_of result ≡ unbeaten (beats step) (left_of self.entry) }
        ensures steps { length result.bounds.items ≤ length self.entry.bounds.items + 1 }
        ensures tied { result.tied ≡ self.entry.tied }
    {
        match self.lowest_key(step) {
            Some(most) => {
                self.bounds.push(Bound { step, most });
                self
            }
            None => self,
        }
    }

    // Those that no other one of the same neighbor AS has a lower MED than.
    fn lowest_med(self) -> Left<'a>
        requires { self.tied ≡ None }
        ensures left { left_of result ≡ unbeaten has_lower_med (left_of self.entry) }
        ensures steps { result.bounds.items ≡ [] }
    {
        Left {
            candidates: self.candidates,
            degree: self.degree,
            bounds: ArrayVec::new(),
            tied: Some(self.bounds),
        }
    }

    // Their lowest key.
    fn lowest_key(&self, step: Step) -> Option<u32>
        ensures { result ≡ lowest_of (key_of step) (left_of self.now) }
    {
        self.candidates
            .iter()
            .filter(|candidate| self.holds(candidate))
            .fold(None, |lowest, candidate| {
                Some(lower_of(lowest, step.key(candidate)))
            })
    }
}

// Whether no number of the candidate is above the bound of its step.
fn is_bounded(bounds: &[Bound], candidate: &Candidate) -> bool
    ensures { result ≡ is_bounded_by bounds.now candidate.now }
{
    bounds
        .iter()
        .all(|bound| bound.step.key(candidate) <= bound.most)
}

// Whether the one is of the same neighbor AS as the other, and has a lower MED.
fn has_lower_med(one: &Candidate, other: &Candidate) -> bool
    ensures { result ≡ has_lower_med one.now other.now }
{
    one.neighbor == other.neighbor && med_of(one) < med_of(other)
}

// A missing MED counts as 0.
fn med_of(candidate: &Candidate) -> u32
    ensures { result ≡ med_of candidate.now }
{
    candidate.med.unwrap_or(0)
}

// The lower one of two keys, of which the first may be none.
fn lower_of(lowest: Option<u32>, key: u32) -> u32
    ensures { result ≡ lower lowest key }
{
    match lowest {
        Some(lowest) => key.min(lowest),
        None => key,
    }
}

/// The candidate that the selection leaves (RFC 4271 sections 9.1.1 and 9.1.2.2), and none where there are none.
pub fn choose(meter: &mut Meter, candidates: &[Candidate]) -> Option<Candidate>
    requires distinct { AreDistinct candidates.now }
    ensures counted { meter.new.count ≡ min (meter.old.count + 1) (2 ^ 64 - 1) }
    ensures selected { MatchOption result (candidates.now ≡ []) (λ c. IsSelected candidates.now c) }

    // It is a candidate of the greatest degree of preference, and of these one of the fewest ASes.
    ensures member { IfSome result (λ c. Contains candidates.now c) }
    ensures preferred { IfSome result (λ c. All (λ d. d.degree ≤ c.degree) candidates.now) }
    ensures shortest { IfSome result (λ c. All (λ d. d.degree ≡ c.degree → c.path_length ≤ d.path_length) candidates.now) }
{
    meter.add();
    best_of(candidates)
}

// A candidate alone needs no steps.
fn best_of(candidates: &[Candidate]) -> Option<Candidate>
    requires distinct { AreDistinct candidates.now }
    ensures { MatchOption result (candidates.now ≡ []) (λ c. IsSelected candidates.now c) }
{
    if candidates.len() <= 1 {
        return candidates.first().copied();
    }
    selected(candidates)
}

// What the selection leaves of more than one candidate.
fn selected(candidates: &[Candidate]) -> Option<Candidate>
    ensures { result ≡ slice_get (selection candidates.now) 0 }
{
    let left = preferred(candidates);
    let left = left.lowest(Step::FewestAses); // (a)
    let left = left.lowest(Step::LowestOrigin); // (b)
    let left = left.lowest_med(); // (c)
    let left = left.lowest(Step::ExternalFirst); // (d)
    let left = left.lowest(Step::LowestCost); // (e)
    let left = left.lowest(Step::LowestIdentifier); // (f)
    let left = left.lowest(Step::LowestAddress); // (g)
    left.first()
}

// The candidates of the greatest degree of preference.
fn preferred(candidates: &[Candidate]) -> Left<'_>
    ensures left { left_of result ≡ unbeaten has_greater_degree candidates.now }
    ensures steps { result.bounds.items ≡ [] }
    ensures tied { result.tied ≡ None }
{
    Left {
        candidates,
        degree: greatest_degree(candidates),
        bounds: ArrayVec::new(),
        tied: None,
    }
}

// The greatest degree of preference of the candidates.
fn greatest_degree(candidates: &[Candidate]) -> u64
    ensures { result ≡ greatest_of candidates.now }
{
    candidates
        .iter()
        .fold(0, |greatest, candidate| candidate.degree.max(greatest))
}

/// Distinct candidates, of which there is one at least, leave one.
pub fn one_best(candidates: &[Candidate])
    requires some { candidates.now ≢ [] }
    requires distinct { AreDistinct candidates.now }
    ensures { (c : Route) × IsSelected candidates.now c }
{}
