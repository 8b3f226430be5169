//! Why a call of the speaker is refused.
ghost use Rattle.std.specs.Prelude.{◌≡◌};
ghost use Rattle.policy.specs.PolicyRefusals.{number_of as policy_number_of};
ghost use Rattle.policy.specs.declared.refusal.PolicyRefusal.{PolicyRefusal as WhyPolicy};
ghost use Rattle.bgp_conf.specs.RefusalNumbers.{number_of, refusal_of};

use policy::PolicyRefusal;
use thiserror::Error;

/// Why a call is refused.
#[derive(Clone, Copy, Debug, PartialEq, Eq, Error)]
pub enum Refusal {
    #[error("the policy, network or reach entry is unknown")]
    UnknownName,
    #[error("the table is full")]
    TooMany,
    #[error("the policy is built in, or in use")]
    InUse,
    #[error("a value is out of its range")]
    Range,
    #[error("there is no such exception")]
    UnknownException,
    #[error("there is no such slot")]
    BadSlot,
    #[error("the moment is before the last one")]
    ClockBack,
    #[error("the slot does not expect this")]
    NotExpected,
    #[error("the slot is taken")]
    SlotTaken,
    #[error("there is no memory left")]
    NoMemory,
    #[error("another slot has the address")]
    AddressTaken,
}

impl Refusal {
    /// The number that operators see.
    pub fn number(self) -> u8
        ensures { result ≡ number_of self }
    {
        match self {
            Refusal::UnknownName => 30,
            Refusal::TooMany => 31,
            Refusal::InUse => 32,
            Refusal::Range => 33,
            Refusal::UnknownException => 34,
            Refusal::BadSlot => 40,
            Refusal::ClockBack => 41,
            Refusal::NotExpected => 42,
            Refusal::SlotTaken => 43,
            Refusal::NoMemory => 44,
            Refusal::AddressTaken => 45,
        }
    }
}

impl From<PolicyRefusal> for Refusal {
    ghost from_gives = { λ why refusal. refusal ≡ refusal_of why };

    fn from(why: PolicyRefusal) -> Refusal {
        match why {
            PolicyRefusal::UnknownName => Refusal::UnknownName,
            PolicyRefusal::TooMany => Refusal::TooMany,
            PolicyRefusal::InUse => Refusal::InUse,
            PolicyRefusal::Range => Refusal::Range,
            PolicyRefusal::NoMemory => Refusal::NoMemory,
        }
    }
}

/// A refusal of the policies keeps its number.
pub fn policy_refusals_keep_their_numbers()
    ensures { (why : WhyPolicy) → number_of (refusal_of why) ≡ policy_number_of why }
{}
