//! What a payload list has to keep to, to be served in the place of another one.
//!
//! `Guards::judge` looks at the set that is served and at the next one: it refuses the next one exactly where it has fewer
//! payloads than are wanted, or else more than may be, or else where more of the served payloads aren't in it than so many per
//! cent of them, and tells both counts (`specs/Guarding.antt`). It changes nothing, and takes no memory.
#![tactic(auto)]

ghost use Rattle.std.specs.Prelude.{◌≡◌, ◌↔◌, List, None, Some, MatchResult, is_some, length, true};
ghost use Rattle.net_prefix.specs.declared.payload.Vrp.{Vrp};
ghost use Rattle.list_guards.specs.Guarding.{HasEnough, HasRoom, LosesFew, few_fault, guard_fault, leaving, many_fault, payloads_of, shrink_fault};
ghost use Rattle.list_guards.specs.declared.GuardFault.{GuardFault};
ghost use Rattle.list_guards.specs.declared.Guards.{Guards};

mod list_age;

pub use list_age::ListAge;
use net_prefix::Vrp;
use std::collections::BTreeSet;
use thiserror::Error;

/// What a list has to keep to, as far as it is told.
#[derive(Clone, Copy, Debug, PartialEq, Eq)]
pub struct Guards {
    /// How many payloads it has at least.
    pub min_payloads: Option<u32>,
    /// How many payloads it has at most.
    pub max_payloads: Option<u32>,
    /// How many per cent of the served payloads may go at once.
    pub max_shrink: Option<u8>,
}

/// Why a list isn't served in the place of another one.
#[derive(Clone, Copy, Debug, PartialEq, Eq, Error)]
pub enum GuardFault {
    /// It has fewer payloads than are wanted.
    #[error("it has {payloads} payloads, and {wanted} are wanted")]
    TooFew {
        payloads: usize,
        wanted: u32,
    },
    /// It has more payloads than may be.
    #[error("it has {payloads} payloads, and {most} may be")]
    TooMany {
        payloads: usize,
        most: u32,
    },
    /// More of the served payloads aren't in it than may go at once.
    #[error("it has {payloads} payloads: {going} of the {served} that are served would go, and {most} per cent may")]
    TooManyGo {
        payloads: usize,
        going: usize,
        served: usize,
        most: u8,
    },
}

impl GuardFault {
    /// How many payloads the list has.
    pub fn payloads(self) -> usize
        ensures { result ≡ payloads_of self }
    {
        match self {
            GuardFault::TooFew { payloads, .. } => payloads,
            GuardFault::TooMany { payloads, .. } => payloads,
            GuardFault::TooManyGo { payloads, .. } => payloads,
        }
    }
}

impl Guards {
    /// Any list is served.
    pub const NONE: Guards = Guards {
        min_payloads: None,
        max_payloads: None,
        max_shrink: None,
    };

    /// Whether the next set may be served in the place of this one. The first fault of: fewer payloads than are wanted; more
    /// than may be; more that go than may at once. Before the first list an empty set is served.
    pub fn judge(&self, served: &BTreeSet<Vrp>, next: &BTreeSet<Vrp>) -> Result<(), GuardFault>
        ensures { MatchResult result (λ passed. guard_fault self.now served.now.keys next.now.keys ≡ None) (λ why. guard_fault self.now served.now.keys next.now.keys ≡ Some why) }
    {
        if let Some(why) = self.few_fault(next) {
            return Err(why);
        }
        if let Some(why) = self.many_fault(next) {
            return Err(why);
        }
        match self.shrink_fault(served, next) {
            Some(why) => Err(why),
            None => Ok(()),
        }
    }

    /// Whether it matters which payloads are served.
    pub fn look_at_served(&self) -> bool
        ensures { result ≡ is_some self.now.max_shrink }
    {
        self.max_shrink.is_some()
    }

    // That the next set has fewer payloads than are wanted.
    fn few_fault(&self, next: &BTreeSet<Vrp>) -> Option<GuardFault>
        ensures { result ≡ few_fault self.now.min_payloads (length next.now.keys) }
    {
        let wanted = self.min_payloads?;
        let payloads = next.len();
        if payloads >= wanted as usize {
            return None;
        }
        Some(GuardFault::TooFew { payloads, wanted })
    }

    // That the next set has more payloads than may be.
    fn many_fault(&self, next: &BTreeSet<Vrp>) -> Option<GuardFault>
        ensures { result ≡ many_fault self.now.max_payloads (length next.now.keys) }
    {
        let most = self.max_payloads?;
        let payloads = next.len();
        if payloads <= most as usize {
            return None;
        }
        Some(GuardFault::TooMany { payloads, most })
    }

    // That more payloads go than may.
    fn shrink_fault(&self, served: &BTreeSet<Vrp>, next: &BTreeSet<Vrp>) -> Option<GuardFault>
        ensures { result ≡ shrink_fault self.now.max_shrink (leaving served.now.keys next.now.keys) (length served.now.keys) (length next.now.keys) }
    {
        let most = self.max_shrink?;
        let going = leaving(served, next);
        let served = served.len();
        let payloads = next.len();
        if going as u128 * 100 <= most as u128 * served as u128 {
            return None;
        }
        Some(GuardFault::TooManyGo {
            payloads,
            going,
            served,
            most,
        })
    }
}

// How many payloads of the served set aren't in the next one: both are walked once.
fn leaving(served: &BTreeSet<Vrp>, next: &BTreeSet<Vrp>) -> usize
    ensures { result ≡ leaving served.now.keys next.now.keys }
{
    served.difference(next).count()
}

/// A fault tells how many payloads the next set has.
pub fn faults_tell_the_count()
    ensures { (guards : Guards) (served next : List Vrp) (why : GuardFault) → guard_fault guards served next ≡ Some why → payloads_of why ≡ length next }
{}

/// The next set passes just where it has as many payloads as are wanted, no more than may be, and no more of the served ones
/// go than may.
pub fn sets_pass_by_their_counts()
    ensures { (guards : Guards) (served next : List Vrp) → guard_fault guards served next ≡ None ↔ (HasEnough guards next × HasRoom guards next × LosesFew guards served next) }
{}

/// Guards look at the payloads that are served only where a share of them may go.
pub fn served_payloads_matter_to_a_share()
    ensures { (guards : Guards) (served other next : List Vrp) → (is_some guards.max_shrink ≡ true → other ≡ served) → guard_fault guards other next ≡ guard_fault guards served next }
{}
