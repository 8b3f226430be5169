//! Why the bests of the neighbor ASes are enough.
ghost use Rattle.std.specs.Prelude.{◌↔◌, Contains};
ghost use Rattle.decision.specs.Selection.{AreDistinct, IsSelected};
ghost use Rattle.decision.specs.declared.candidate.Candidate.{Candidate as Route};
ghost use Rattle.live_book.specs.NeighborBests.{IsBestOfNeighbor};

use decision::Candidate;

/// Of the bests of the neighbor ASes the selection leaves the one that it leaves of all candidates.
pub fn one_of_bests(candidates: &[Candidate], bests: &[Candidate])
    requires distinct { AreDistinct candidates.now }
    requires apart { AreDistinct bests.now }
    requires bests { (c : Route) → Contains bests.now c ↔ IsBestOfNeighbor candidates.now c }
    ensures { (c : Route) → IsSelected candidates.now c ↔ IsSelected bests.now c }
{}
