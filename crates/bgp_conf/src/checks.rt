//! Which commands are refused.
ghost use Rattle.std.specs.Prelude.{◌≡◌, true, Some, None, MatchResult, is_some};
ghost use Rattle.policy.specs.PolicyNames.{is_policy_name};
ghost use Rattle.bgp_conf.specs.Configuration.{peer_at};
ghost use Rattle.bgp_conf.specs.FirstRefusal.{first_refusal, has_address, has_known_policies, is_in_range};

use crate::command::{Command, PeerConf};
use crate::conf::{Conf, MAX_NETWORKS, MAX_REACH, PEER_SLOTS, asserted, name_of};
use crate::refusal::Refusal;
use bgp_attr::is_host;
use local_exceptions::{Filter, MAX_ASSERTIONS, MAX_FILTERS};
use net_prefix::{Asn, Prefix};
use policy::{PolicyName, Rule};
use std::alloc::Allocator;

impl<A: Allocator + Clone> Conf<A> {
    /// The first refusal of a command, in the order 40, 43, 45, 33, 34, 30, 31, 32. `closing` has a bit for each slot
    /// whose last connection is still closing.
    pub fn check(&self, command: &Command<'_>, closing: u64) -> Result<(), Refusal>
        ensures { MatchResult result
            (λ _. first_refusal self.now closing command.now ≡ None)
            (λ refusal. first_refusal self.now closing command.now ≡ Some refusal) }
    {
        match command {
            Command::AddPeer(slot, peer) => self.check_add_peer(*slot, peer, closing),
            Command::RemovePeer(slot) | Command::Enable(slot) | Command::Disable(slot) => {
                self.check_slot(*slot)
            }
            Command::SetPolicy(name, rules) => self.check_set_policy(name, rules),
            Command::DropPolicy(name) => self.check_drop_policy(name),
            Command::UseIn(slot, name) | Command::UseOut(slot, name) => self.check_use(*slot, name),
            Command::Network(prefix) => self.check_network(prefix),
            Command::NoNetwork(prefix) => self.check_no_network(prefix),
            Command::Reach(prefix, _) => self.check_reach(prefix),
            Command::NoReach(prefix) => self.check_no_reach(prefix),
            Command::Filter(prefix, asn) => self.check_filter(*prefix, *asn),
            Command::NoFilter(prefix, asn) => self.check_no_filter(*prefix, *asn),
            Command::Assert(prefix, max_len, asn) => self.check_assert(*prefix, *max_len, *asn),
            Command::NoAssert(prefix, max_len, asn) => {
                self.check_no_assert(*prefix, *max_len, *asn)
            }
        }
    }

    fn check_add_peer(&self, slot: u8, peer: &PeerConf<'_>, closing: u64) -> Result<(), Refusal>
        ensures { MatchResult result
            (λ _. first_refusal self.now closing (Command.AddPeer slot peer.now) ≡ None)
            (λ refusal. first_refusal self.now closing (Command.AddPeer slot peer.now) ≡ Some refusal) }
    {
        if slot >= PEER_SLOTS {
            return Err(Refusal::BadSlot);
        }
        if self.is_configured(slot) || (closing >> slot) % 2 == 1 {
            return Err(Refusal::SlotTaken);
        }
        if self.has_address(peer.address) {
            return Err(Refusal::AddressTaken);
        }
        if !self.is_in_range(peer) {
            return Err(Refusal::Range);
        }
        if !self.has_known_policies(peer) {
            return Err(Refusal::UnknownName);
        }
        Ok(())
    }

    fn check_slot(&self, slot: u8) -> Result<(), Refusal>
        ensures { MatchResult result
            (λ _. first_refusal self.now 0 (Command.Enable slot) ≡ None)
            (λ refusal. first_refusal self.now 0 (Command.Enable slot) ≡ Some refusal) }
    {
        if slot >= PEER_SLOTS || !self.is_configured(slot) {
            return Err(Refusal::BadSlot);
        }
        Ok(())
    }

    fn check_set_policy(&self, name: &str, rules: &[Rule]) -> Result<(), Refusal>
        ensures { MatchResult result
            (λ _. first_refusal self.now 0 (Command.SetPolicy name.entry rules.entry) ≡ None)
            (λ refusal. first_refusal self.now 0 (Command.SetPolicy name.entry rules.entry) ≡ Some refusal) }
    {
        self.policies.check_set(name, rules)?;
        Ok(())
    }

    #[tactic(auto, unfolding(policy::specs::PolicyRefusals::drop_refusal))]
    fn check_drop_policy(&self, name: &str) -> Result<(), Refusal>
        ensures { MatchResult result
            (λ _. first_refusal self.now 0 (Command.DropPolicy name.entry) ≡ None)
            (λ refusal. first_refusal self.now 0 (Command.DropPolicy name.entry) ≡ Some refusal) }
    {
        let in_use = self.uses_policy(PolicyName::new(name)?);
        self.policies.check_drop(name, in_use)?;
        Ok(())
    }

    // Of an import policy or an export policy.
    fn check_use(&self, slot: u8, name: &str) -> Result<(), Refusal>
        ensures { MatchResult result
            (λ _. first_refusal self.now 0 (Command.UseIn slot name.entry) ≡ None)
            (λ refusal. first_refusal self.now 0 (Command.UseIn slot name.entry) ≡ Some refusal) }
    {
        self.check_slot(slot)?;
        let name = PolicyName::new(name)?;
        if !self.policies.knows(name) {
            return Err(Refusal::UnknownName);
        }
        Ok(())
    }

    fn check_network(&self, prefix: &Prefix) -> Result<(), Refusal>
        ensures { MatchResult result
            (λ _. first_refusal self.now 0 (Command.Network prefix.now) ≡ None)
            (λ refusal. first_refusal self.now 0 (Command.Network prefix.now) ≡ Some refusal) }
    {
        if !self.networks.contains(prefix) && self.networks.len() >= MAX_NETWORKS {
            return Err(Refusal::TooMany);
        }
        Ok(())
    }

    fn check_no_network(&self, prefix: &Prefix) -> Result<(), Refusal>
        ensures { MatchResult result
            (λ _. first_refusal self.now 0 (Command.NoNetwork prefix.now) ≡ None)
            (λ refusal. first_refusal self.now 0 (Command.NoNetwork prefix.now) ≡ Some refusal) }
    {
        if !self.networks.contains(prefix) {
            return Err(Refusal::UnknownName);
        }
        Ok(())
    }

    fn check_reach(&self, prefix: &Prefix) -> Result<(), Refusal>
        ensures { MatchResult result
            (λ _. first_refusal self.now 0 (Command.Reach prefix.now 0) ≡ None)
            (λ refusal. first_refusal self.now 0 (Command.Reach prefix.now 0) ≡ Some refusal) }
    {
        if self.reach.get(prefix).is_none() && self.reach.len() >= MAX_REACH {
            return Err(Refusal::TooMany);
        }
        Ok(())
    }

    fn check_no_reach(&self, prefix: &Prefix) -> Result<(), Refusal>
        ensures { MatchResult result
            (λ _. first_refusal self.now 0 (Command.NoReach prefix.now) ≡ None)
            (λ refusal. first_refusal self.now 0 (Command.NoReach prefix.now) ≡ Some refusal) }
    {
        if self.reach.get(prefix).is_none() {
            return Err(Refusal::UnknownName);
        }
        Ok(())
    }

    fn check_filter(&self, prefix: Option<Prefix>, asn: Option<Asn>) -> Result<(), Refusal>
        ensures { MatchResult result
            (λ _. first_refusal self.now 0 (Command.Filter prefix asn) ≡ None)
            (λ refusal. first_refusal self.now 0 (Command.Filter prefix asn) ≡ Some refusal) }
    {
        let Ok(filter) = Filter::new(prefix, asn) else {
            return Err(Refusal::Range);
        };
        if !self.exceptions.has_filter(&filter) && self.exceptions.filters().len() >= MAX_FILTERS {
            return Err(Refusal::TooMany);
        }
        Ok(())
    }

    fn check_no_filter(&self, prefix: Option<Prefix>, asn: Option<Asn>) -> Result<(), Refusal>
        ensures { MatchResult result
            (λ _. first_refusal self.now 0 (Command.NoFilter prefix asn) ≡ None)
            (λ refusal. first_refusal self.now 0 (Command.NoFilter prefix asn) ≡ Some refusal) }
    {
        let Ok(filter) = Filter::new(prefix, asn) else {
            return Err(Refusal::Range);
        };
        if !self.exceptions.has_filter(&filter) {
            return Err(Refusal::UnknownException);
        }
        Ok(())
    }

    fn check_assert(&self, prefix: Prefix, max_len: u8, asn: Asn) -> Result<(), Refusal>
        ensures { MatchResult result
            (λ _. first_refusal self.now 0 (Command.Assert prefix max_len asn) ≡ None)
            (λ refusal. first_refusal self.now 0 (Command.Assert prefix max_len asn) ≡ Some refusal) }
    {
        let Some(payload) = asserted(prefix, max_len, asn) else {
            return Err(Refusal::Range);
        };
        if !self.exceptions.has_assertion(&payload)
            && self.exceptions.assertions().len() >= MAX_ASSERTIONS
        {
            return Err(Refusal::TooMany);
        }
        Ok(())
    }

    fn check_no_assert(&self, prefix: Prefix, max_len: u8, asn: Asn) -> Result<(), Refusal>
        ensures { MatchResult result
            (λ _. first_refusal self.now 0 (Command.NoAssert prefix max_len asn) ≡ None)
            (λ refusal. first_refusal self.now 0 (Command.NoAssert prefix max_len asn) ≡ Some refusal) }
    {
        let Some(payload) = asserted(prefix, max_len, asn) else {
            return Err(Refusal::Range);
        };
        if !self.exceptions.has_assertion(&payload) {
            return Err(Refusal::UnknownException);
        }
        Ok(())
    }

    fn is_configured(&self, slot: u8) -> bool
        ensures { result ≡ is_some (peer_at self.now slot) }
    {
        self.peers.contains_key(&slot)
    }

    fn has_address(&self, address: u32) -> bool
        ensures { result ≡ has_address self.now.peers address }
    {
        self.peers.values().any(|peer| peer.address == address)
    }

    // Own choice: an address of our own that no peer would take for a next hop is out of range.
    fn is_in_range(&self, peer: &PeerConf<'_>) -> bool
        ensures { result ≡ is_in_range peer.now }
    {
        peer.asn.0 != 0
            && peer.address != 0
            && is_host(peer.local)
            && peer.local != peer.address
            && peer.hold != 1
            && peer.hold != 2
            && PolicyName::new(peer.import).is_ok()
            && PolicyName::new(peer.export).is_ok()
    }

    fn has_known_policies(&self, peer: &PeerConf<'_>) -> bool
        requires { is_in_range peer.now ≡ true }
        ensures { result ≡ has_known_policies self.now peer.now }
    {
        self.policies.knows(name_of(peer.import)) && self.policies.knows(name_of(peer.export))
    }
}
