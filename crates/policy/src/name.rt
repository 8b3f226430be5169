//! The names of policies.
ghost use Rattle.std.specs.Prelude.{◌≡◌, ◌≤◌, false, true, length, MatchResult};
ghost use Rattle.std.specs.List.{list_all};
ghost use Rattle.policy.specs.PolicyNames.{all_name, is_built_in, is_name_octet, is_policy_name, is_same, name_of, none_name};

use crate::refusal::PolicyRefusal;
use std::fmt;

// The most octets in a name.
const MAX_NAME: usize = 32;

/// The name of a policy: 1 to 32 of `a` to `z`, `0` to `9` and `-`.
#[derive(Clone, Copy, Debug, PartialEq, Eq, Hash)]
pub struct PolicyName {
    // The octets of the name, and zeros behind them.
    octets: [u8; MAX_NAME],
}

impl PolicyName {
    /// The policy name that this text is. Refused by 33 where it is none.
    pub fn new(text: &str) -> Result<PolicyName, PolicyRefusal>
        ensures { MatchResult result
            (λ name. (is_policy_name text.now ≡ true) × (name ≡ name_of text.now))
            (λ why. (is_policy_name text.now ≡ false) × (why ≡ PolicyRefusal.Range)) }
    {
        if !is_policy_name(text) {
            return Err(PolicyRefusal::Range);
        }
        Ok(PolicyName::of_octets(text.as_bytes()))
    }

    // The name of these octets.
    #[tactic(auto, unfolding(crate::specs::PolicyNames::name_of))]
    fn of_octets(name: &[u8]) -> PolicyName
        requires { length name.now ≤ 32 }
        ensures { result ≡ name_of name.now }
    {
        let mut octets = [0; MAX_NAME];
        octets[..name.len()].copy_from_slice(name);
        PolicyName { octets }
    }

    // Whether it is the built-in policy that accepts each route.
    #[tactic(auto, unfolding(crate::specs::PolicyNames::all_name))]
    pub(crate) fn is_all(&self) -> bool
        ensures { result ≡ is_same self.now all_name }
    {
        *self == PolicyName::of_octets(b"all")
    }

    // Whether it is the built-in policy that rejects each route.
    #[tactic(auto, unfolding(crate::specs::PolicyNames::none_name))]
    pub(crate) fn is_none(&self) -> bool
        ensures { result ≡ is_same self.now none_name }
    {
        *self == PolicyName::of_octets(b"none")
    }

    // Whether the policy is built in.
    pub(crate) fn is_built_in(&self) -> bool
        ensures { result ≡ is_built_in self.now }
    {
        self.is_all() || self.is_none()
    }
}

impl fmt::Display for PolicyName {
    fn fmt<W: fmt::Write>(&self, f: &mut fmt::Formatter<W>) -> fmt::Result {
        for octet in &self.octets {
            if *octet != 0 {
                f.write_char(char::from(*octet))?;
            }
        }
        Ok(())
    }
}

// Whether a text can be the name of a policy.
fn is_policy_name(text: &str) -> bool
    ensures { result ≡ is_policy_name text.now }
{
    let octets = text.as_bytes();
    if octets.is_empty() || octets.len() > MAX_NAME {
        return false;
    }
    are_name_octets(octets)
}

fn are_name_octets(octets: &[u8]) -> bool
    ensures { result ≡ list_all is_name_octet octets.now }
{
    octets.iter().all(|octet| is_name_octet(*octet))
}

fn is_name_octet(octet: u8) -> bool
    ensures { result ≡ is_name_octet octet }
{
    matches!(octet, b'a'..=b'z' | b'0'..=b'9' | b'-')
}
