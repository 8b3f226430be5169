//! What is warned of.
ghost use Rattle.std.specs.Prelude.{◌≡◌, false};

use crate::told::{InLog, OnOutput, Told};
use crate::warning::Warning;
use bgp_attr::Mode;
use bgp_conf::{Conf, ConfiguredPeer, PEER_SLOTS, PolicyName, Rule};
use origin_valid::Validity;
use policy::MAX_POLICIES;
use std::alloc::Global;
use std::io::{self, Write};
use std::net::{IpAddr, Ipv4Addr, SocketAddr};
use std::rt::Clock;

/// What the settings say beside the commands.
#[derive(Clone, Copy)]
pub struct Settled<'a> {
    /// Where the peer of each slot is.
    pub remotes: &'a [(u8, SocketAddr)],
    /// Whether there is a cache.
    pub has_cache: bool,
    /// Whether the speaker listens.
    pub listens: bool,
    /// Whether peers are to wait for payloads.
    pub waits: bool,
    /// Whether it is told how long the session with the cache waits behind what failed.
    pub retries: bool,
}

/// Writes a line to the log, where there is one, for each thing of the configuration that is hardly meant.
pub fn warn<R: Clock, O: Write>(
    rt: &R,
    is_on: bool,
    conf: &Conf<Global>,
    settled: Settled<'_>,
    output: &mut O,
)
    ensures { is_on ≡ false → output.new ≡ output.old }
{
    if is_on {
        tell_all(conf, settled, &mut InLog { rt, output });
    }
}

/// Writes the same lines without their time.
pub fn write_warnings<O: Write>(
    conf: &Conf<Global>,
    settled: Settled<'_>,
    output: &mut O,
) -> io::Result<()> {
    let mut told = OnOutput {
        output,
        written: Ok(()),
    };
    tell_all(conf, settled, &mut told);
    told.written
}

fn tell_all<T: Told>(conf: &Conf<Global>, settled: Settled<'_>, told: &mut T) {
    if settled.waits && !settled.has_cache {
        told.tell(&Warning::NoCache);
    }
    if settled.retries && !settled.has_cache {
        told.tell(&Warning::NoRetry);
    }
    tell_peers(conf, settled, told);
    tell_policies(conf, settled.has_cache, told);
}

fn tell_peers<T: Told>(conf: &Conf<Global>, settled: Settled<'_>, told: &mut T) {
    for slot in 0..PEER_SLOTS {
        if let Some(peer) = conf.peer(slot) {
            if let Some(warning) = elsewhere(slot, &peer, settled.remotes) {
                told.tell(&warning);
            }
            if let Some(warning) = unreached(conf, slot, &peer) {
                told.tell(&warning);
            }
            if peer.mode == Mode::Passive && !settled.listens {
                told.tell(&Warning::Deaf {
                    slot,
                    address: Ipv4Addr::from_bits(peer.address),
                });
            }
        }
    }
}

fn elsewhere(slot: u8, peer: &ConfiguredPeer, remotes: &[(u8, SocketAddr)]) -> Option<Warning> {
    let address = Ipv4Addr::from_bits(peer.address);
    let (_, remote) = remotes.iter().find(|told| told.0 == slot)?;
    if remote.ip() == IpAddr::V4(address) {
        return None;
    }
    Some(Warning::Elsewhere {
        slot,
        address,
        remote: *remote,
    })
}

fn unreached(conf: &Conf<Global>, slot: u8, peer: &ConfiguredPeer) -> Option<Warning> {
    if conf.cost(peer.address).is_some() {
        return None;
    }
    let address = Ipv4Addr::from_bits(peer.address);
    Some(Warning::Unreached { slot, address })
}

fn tell_policies<T: Told>(conf: &Conf<Global>, has_cache: bool, told: &mut T) {
    for index in 0..MAX_POLICIES {
        if let Some((name, rules)) = conf.policy(index) {
            if !is_used(conf, name) {
                told.tell(&Warning::Unused(name));
            }
            if !has_cache && asks_for_a_state(rules) {
                told.tell(&Warning::Stateless(name));
            }
        }
    }
}

// Whether a peer imports or exports by the policy.
fn is_used(conf: &Conf<Global>, name: PolicyName) -> bool {
    for slot in 0..PEER_SLOTS {
        if let Some(peer) = conf.peer(slot) {
            if peer.import == name || peer.export == name {
                return true;
            }
        }
    }
    false
}

// Whether a rule asks for a state that only payloads give.
fn asks_for_a_state(rules: &[Rule]) -> bool {
    rules.iter().any(|rule| {
        matches!(
            rule.condition.state,
            Some(Validity::Valid | Validity::Invalid)
        )
    })
}
