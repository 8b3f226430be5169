//! The tables that commands fill.
ghost use Rattle.std.specs.Prelude.{slice_get, ◌≡◌, ℕ, ◌==◌, ◌≤◌, [], true, None, IfOk, OnOk, OnErr, if◌then◌else◌};
ghost use Rattle.std.specs.Option.{option_map};
ghost use Rattle.local_exceptions.specs.ExceptionSets.{no_exceptions};
ghost use Rattle.net_prefix.specs.declared.prefix.Prefix.{Prefix};
ghost use Rattle.prefix_trie.specs.TrieMap.{IsRising};
ghost use Rattle.policy.specs.PolicyNames.{is_policy_name, name_of};
ghost use Rattle.policy.specs.PolicyRefusals.{drop_refusal};
ghost use Rattle.policy.specs.PolicyTable.{without_policy};
ghost use Rattle.bgp_conf.specs.Configuration.{AddressesDiffer, entry_at, is_network, peer_at, uses_policy};
ghost use Rattle.bgp_conf.specs.FirstRefusal.{IsAccepted, first_refusal, is_in_range};
ghost use Rattle.bgp_conf.specs.ConfAfter.{TakesMemory, asserted_of, conf_after, configured_of, entry_after, exporting, importing, is_network_after, peer_after, with_changed};
ghost use Rattle.bgp_conf.specs.PeerPolicies.{export_action, exports_by, import_action};
ghost use Rattle.bgp_conf.specs.Reach.{IsCost};

use crate::command::{Command, PeerConf};
use crate::cost::Cost;
use bgp_attr::Mode;
use local_exceptions::{Exceptions, Filter};
use net_prefix::{Asn, Prefix, Vrp};
use policy::{Action, Policies, PolicyName, Rule, SeenRoute};
use prefix_trie::Trie;
use std::alloc::{AllocError, Allocator, Global};
use std::collections::{BTreeMap, BTreeSet};
use std::marker::Model;

/// The slots of peers, numbered from 0.
pub const PEER_SLOTS: u8 = 64;

/// The most local networks.
pub const MAX_NETWORKS: usize = 4096;

/// The most `reach` entries.
pub const MAX_REACH: usize = 4096;

// The length of an address in bits.
const ADDRESS_BITS: u8 = 32;

/// A peer as it was configured.
#[derive(Clone, Copy, Debug, PartialEq, Eq)]
pub struct ConfiguredPeer {
    /// The peer's AS.
    pub asn: Asn,
    /// The peer's address.
    pub address: u32,
    /// This speaker's address on that connection.
    pub local: u32,
    /// Which side connects.
    pub mode: Mode,
    /// The hold time to offer, in seconds.
    pub hold: u16,
    /// The import policy.
    pub import: PolicyName,
    /// The export policy.
    pub export: PolicyName,
}

/// The configured peers, policies, local networks and `reach` entries, and the local exceptions.
#[derive(Drop)]
pub struct Conf<A: Allocator = Global> {
    own: Asn,
    pub(crate) peers: BTreeMap<u8, ConfiguredPeer, A>,
    pub(crate) policies: Policies<A>,
    pub(crate) networks: BTreeSet<Prefix, A>,
    pub(crate) reach: Trie<Cost, A>,
    pub(crate) exceptions: Exceptions<A>,
}

impl<A: Allocator> Model for Conf<A> {
    ghost use Rattle.bgp_conf.specs.Configuration.{Configuration};

    ghost Value = { Configuration };

    ghost view = { λ c. record { own = c.own; peers = c.peers.entries; policies = c.policies; networks = c.networks.keys; reach = c.reach; exceptions = c.exceptions } };
}

impl<A: Allocator + Clone + Copy> Conf<A> {
    /// No peers, policies, local networks, `reach` entries and exceptions, of a speaker of this AS.
    pub fn new(alloc: A, own: Asn) -> Result<Self, AllocError>
        ensures { IfOk result (λ conf. conf ≡ record { own = own; peers = []; policies = []; networks = []; reach = []; exceptions = no_exceptions }) }
    {
        let peers = BTreeMap::new(alloc.clone()?);
        let policies = Policies::new(alloc);
        let networks = BTreeSet::new(alloc.clone()?);
        let reach = Trie::new(alloc);
        let exceptions = Exceptions::new(alloc)?;
        Ok(Conf {
            own,
            peers,
            policies,
            networks,
            reach,
            exceptions,
        })
    }
}

impl<A: Allocator + Clone> Conf<A> {
    /// The speaker's own AS.
    pub fn own(&self) -> Asn
        ensures { result ≡ self.now.own }
    {
        self.own
    }

    /// The peer of a slot.
    pub fn peer(&self, slot: u8) -> Option<ConfiguredPeer>
        ensures { result ≡ peer_at self.now slot }
    {
        self.peers.get(&slot).copied()
    }

    /// What the import policy of a slot's peer makes of a route. Where the slot has no peer, the route is rejected.
    pub fn import(&self, slot: u8, route: &SeenRoute<'_, A>) -> Action
        ensures { result ≡ import_action self.now slot route.now }
    {
        match self.peer(slot) {
            Some(peer) => self.policies.import(peer.import, route),
            None => Action::Reject,
        }
    }

    /// What the export policy of a slot's peer makes of a route. Where the slot has no peer, the route is rejected.
    pub fn export(&self, slot: u8, route: &SeenRoute<'_, A>) -> Action
        ensures { result ≡ export_action self.now slot route.now }
    {
        match self.peer(slot) {
            Some(peer) => self.policies.export(peer.export, route),
            None => Action::Reject,
        }
    }

    /// The name and the rules of the policy that was set behind so many others.
    pub fn policy(&self, index: usize) -> Option<(PolicyName, &[Rule])>
        ensures { option_map (λ policy. (policy.0, policy.1.now)) result ≡ slice_get self.now.policies index }
    {
        self.policies.nth(index)
    }

    /// Whether the routes that a slot's peer is told go by the policy of this name.
    pub fn exports_by(&self, slot: u8, name: &str) -> bool
        requires { is_policy_name name.now ≡ true }
        ensures { result ≡ exports_by self.now slot (name_of name.now) }
    {
        match self.peer(slot) {
            Some(peer) => peer.export == name_of(name),
            None => false,
        }
    }

    /// Whether a prefix is a local network.
    pub fn is_network(&self, prefix: Prefix) -> bool
        ensures { result ≡ is_network self.now prefix }
    {
        self.networks.contains(&prefix)
    }

    /// The interior cost of a next hop (RFC 4271 section 9.1.2.1): that of the longest entry that covers it.
    pub fn cost(&self, next_hop: u32) -> Option<u32>
        ensures { IsCost self.now.reach next_hop result }
    {
        self.reach_rises();
        let host = Prefix {
            bits: next_hop,
            len: ADDRESS_BITS,
        };
        match self.reach.covering(&host).last() {
            Some((_, cost)) => Some(cost.0),
            None => None,
        }
    }

    // The entries stand in the order of prefixes.
    fn reach_rises(&self)
        ensures { IsRising self.now.reach }
    {
        let _ = self.reach.len();
    }

    /// Makes the tables after a command that `check` doesn't refuse. Where memory is refused they stay as they were.
    pub fn apply(&mut self, command: &Command<'_>) -> Result<(), AllocError>
        requires { IsAccepted self.old command.now }
        ensures ok { OnOk result (self.new ≡ conf_after self.old command.now) }
        ensures peers { OnOk result
            ((slot : ℕ) → peer_at self.new slot ≡ peer_after self.old command.now slot) }
        ensures networks { OnOk result
            ((prefix : Prefix) → is_network self.new prefix ≡ is_network_after self.old command.now prefix) }
        ensures reach { OnOk result
            ((prefix : Prefix) → entry_at self.new.reach prefix ≡ entry_after self.old command.now prefix) }
        ensures addresses { (closing : ℕ) → first_refusal self.old closing command.now ≡ None
            → AddressesDiffer self.old.peers → AddressesDiffer self.new.peers }
        ensures err { OnErr result (self.new ≡ self.old) }
        ensures memory { OnErr result (TakesMemory self.old command.now) }
    {
        match command {
            Command::AddPeer(slot, peer) => {
                self.peers.insert(*slot, configured(peer))?;
            }
            Command::RemovePeer(slot) => {
                self.peers.remove(slot);
            }
            Command::Enable(_) | Command::Disable(_) => {}
            Command::SetPolicy(name, rules) => {
                if self.policies.set(name, rules).is_err() {
                    return Err(AllocError);
                }
            }
            Command::DropPolicy(name) => self.drop_policy(name),
            Command::UseIn(slot, name) => self.use_in(*slot, name_of(name)),
            Command::UseOut(slot, name) => self.use_out(*slot, name_of(name)),
            Command::Network(prefix) => {
                self.networks.insert(*prefix)?;
            }
            Command::NoNetwork(prefix) => {
                self.networks.remove(prefix);
            }
            Command::Reach(prefix, cost) => {
                self.reach.insert(*prefix, Cost(*cost))?;
            }
            Command::NoReach(prefix) => {
                self.reach_rises();
                self.reach.remove(prefix);
            }
            Command::Filter(prefix, asn) => self.filter(*prefix, *asn)?,
            Command::NoFilter(prefix, asn) => self.no_filter(*prefix, *asn),
            Command::Assert(prefix, max_len, asn) => self.assert(*prefix, *max_len, *asn)?,
            Command::NoAssert(prefix, max_len, asn) => self.no_assert(*prefix, *max_len, *asn),
        }
        Ok(())
    }

    // The filter of these parts, if it is one, is added. Where memory is refused, nothing changes.
    fn filter(&mut self, prefix: Option<Prefix>, asn: Option<Asn>) -> Result<(), AllocError>
        requires { IsAccepted self.old (Command.Filter prefix asn) }
        ensures ok { OnOk result (self.new ≡ conf_after self.old (Command.Filter prefix asn)) }
        ensures err { OnErr result (self.new ≡ self.old) }
        ensures memory { OnErr result (TakesMemory self.old (Command.Filter prefix asn)) }
    {
        let Ok(filter) = Filter::new(prefix, asn) else {
            return Ok(());
        };
        match self.exceptions.filter(filter) {
            Ok(()) => Ok(()),
            Err(_) => Err(AllocError),
        }
    }

    // The filter of these parts, if it is one, is taken away.
    fn no_filter(&mut self, prefix: Option<Prefix>, asn: Option<Asn>)
        ensures { self.new ≡ conf_after self.old (Command.NoFilter prefix asn) }
    {
        if let Ok(filter) = Filter::new(prefix, asn) {
            let _there = self.exceptions.no_filter(&filter);
        }
    }

    // The payload of these parts, if it is one, is asserted. Where memory is refused, nothing changes.
    fn assert(&mut self, prefix: Prefix, max_len: u8, asn: Asn) -> Result<(), AllocError>
        requires { IsAccepted self.old (Command.Assert prefix max_len asn) }
        ensures ok { OnOk result (self.new ≡ conf_after self.old (Command.Assert prefix max_len asn)) }
        ensures err { OnErr result (self.new ≡ self.old) }
        ensures memory { OnErr result (TakesMemory self.old (Command.Assert prefix max_len asn)) }
    {
        let Some(payload) = asserted(prefix, max_len, asn) else {
            return Ok(());
        };
        match self.exceptions.assert(payload) {
            Ok(()) => Ok(()),
            Err(_) => Err(AllocError),
        }
    }

    // The payload of these parts, if it is one, is asserted no more.
    fn no_assert(&mut self, prefix: Prefix, max_len: u8, asn: Asn)
        ensures { self.new ≡ conf_after self.old (Command.NoAssert prefix max_len asn) }
    {
        if let Some(payload) = asserted(prefix, max_len, asn) {
            let _there = self.exceptions.no_assert(&payload);
        }
    }

    /// The local exceptions.
    pub fn exceptions(&self) -> &Exceptions<A>
        ensures { result.now ≡ self.now.exceptions }
    {
        &self.exceptions
    }

    // Forgets a policy that nothing refuses to drop.
    #[tactic(auto, unfolding(policy::specs::PolicyRefusals::drop_refusal))]
    fn drop_policy(&mut self, name: &str)
        requires { drop_refusal self.old.policies name.now (uses_policy self.old (name_of name.now)) ≡ None }
        ensures { self.new ≡ record self.old { policies = without_policy self.old.policies (name_of name.now) } }
    {
        let in_use = self.uses_policy(name_of(name));
        let _nothing_refuses = self.policies.drop_name(name, in_use);
    }

    // The peer of a slot, if there is one, has another import policy.
    fn use_in(&mut self, slot: u8, import: PolicyName)
        ensures conf { self.new ≡ record self.old { peers = with_changed self.old.peers slot (importing import) } }
        ensures peers { (other : ℕ) → peer_at self.new other ≡ (if other == slot then option_map (importing import) (peer_at self.old slot) else peer_at self.old other) }
    {
        if let Some(peer) = self.peer(slot) {
            let _takes_no_memory = self.peers.insert(slot, ConfiguredPeer { import, ..peer });
        }
    }

    // The peer of a slot, if there is one, has another export policy.
    fn use_out(&mut self, slot: u8, export: PolicyName)
        ensures conf { self.new ≡ record self.old { peers = with_changed self.old.peers slot (exporting export) } }
        ensures peers { (other : ℕ) → peer_at self.new other ≡ (if other == slot then option_map (exporting export) (peer_at self.old slot) else peer_at self.old other) }
    {
        if let Some(peer) = self.peer(slot) {
            let _takes_no_memory = self.peers.insert(slot, ConfiguredPeer { export, ..peer });
        }
    }

    // Whether some peer's routes are taken or announced by the policy.
    pub(crate) fn uses_policy(&self, name: PolicyName) -> bool
        ensures { result ≡ uses_policy self.now name }
    {
        self.peers
            .values()
            .any(|peer| peer.import == name || peer.export == name)
    }
}

fn configured(peer: &PeerConf<'_>) -> ConfiguredPeer
    requires { is_in_range peer.now ≡ true }
    ensures { result ≡ configured_of peer.now }
{
    ConfiguredPeer {
        asn: peer.asn,
        address: peer.address,
        local: peer.local,
        mode: peer.mode,
        hold: peer.hold,
        import: name_of(peer.import),
        export: name_of(peer.export),
    }
}

// The payload of these parts, where the maximum length is one of the prefix.
pub(crate) fn asserted(prefix: Prefix, max_len: u8, asn: Asn) -> Option<Vrp>
    ensures { result ≡ asserted_of prefix max_len asn }
{
    Vrp::new(prefix, max_len, asn).ok()
}

// The policy name that a text is, where it is one.
pub(crate) fn name_of(text: &str) -> PolicyName
    requires { is_policy_name text.now ≡ true }
    ensures { result ≡ name_of text.now }
{
    match PolicyName::new(text) {
        Ok(name) => name,
        Err(_) => unreachable!(),
    }
}
