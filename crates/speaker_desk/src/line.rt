//! The text of a line, and who and where it speaks of.
ghost use Rattle.std.specs.Prelude.{◌≡◌, ◌∷◌, [], Contains, IfOk, IfSome, None};
ghost use Rattle.std.specs.declared.net.socket_addr.SocketAddr.{SocketAddr as SocketAddress};
ghost use Rattle.command_lines.specs.CommandWords.{SaysLine};
ghost use Rattle.speaker_desk.specs.Answering.{IsAt, IsTextOf, added_by};
ghost use Rattle.speaker_desk.specs.Waiting.{decided_by};

use bgp_conf::Command;
use command_lines::CommandLine;
use scenario::LineFault;
use std::alloc::Global;
use std::net::{IpAddr, Ipv4Addr, SocketAddr};
use std::str;

// BGP's port (RFC 4271 section 8.2.1).
const BGP_PORT: u16 = 179;

/// A line without a carriage return at its end.
#[tactic(auto, using(crate::proofs::Texts::ends_so, crate::proofs::Texts::ends_otherwise, crate::proofs::Texts::has_none))]
pub(crate) fn without_return(line: &[u8]) -> &[u8]
    ensures { IsTextOf line.now result.now }
{
    let Some((last, octets)) = line.split_last() else {
        return line;
    };
    match *last == b'\r' {
        true => octets,
        false => line,
    }
}

/// The text of octets that are ASCII.
pub(crate) fn ascii_text(octets: &[u8]) -> Option<&str>
    ensures { IfSome result (λ text. text.now ≡ octets.now) }
{
    if !octets.is_ascii() {
        return None;
    }
    str::from_utf8(octets).ok()
}

/// The line of a command of one word.
pub(crate) fn line_of<'a>(
    alloc: Global,
    command: &'a str,
    word: &'a str,
) -> Result<CommandLine<'a>, LineFault>
    ensures { IfOk result (λ line. SaysLine (command.now ∷ word.now ∷ []) line) }
{
    CommandLine::of(alloc, &[command, word])
}

/// The slot and the address of the peer that a command configures.
pub(crate) fn added_by(command: &Command<'_>) -> Option<(u8, u32)>
    ensures { result ≡ added_by command.now }
{
    match command {
        Command::AddPeer(slot, peer) => Some((*slot, peer.address)),
        _ => None,
    }
}

/// The slot of the peer of which a command decides whether it has a session.
pub(crate) fn decided_by(command: &Command<'_>) -> Option<u8>
    ensures { result ≡ decided_by command.now }
{
    match command {
        Command::RemovePeer(slot) | Command::Enable(slot) | Command::Disable(slot) => Some(*slot),
        _ => None,
    }
}

/// Where a peer is: as the settings say of its slot, or at its address and BGP's port.
#[tactic(auto, using(crate::proofs::Texts::at_remote, crate::proofs::Texts::at_address))]
pub(crate) fn remote_of(remotes: &[(u8, SocketAddr)], slot: u8, address: u32) -> SocketAddr
    ensures { IsAt remotes.now (slot, address) result }
{
    match told_remote(remotes, slot) {
        Some(remote) => remote,
        None => SocketAddr::new(IpAddr::V4(Ipv4Addr::from_bits(address)), BGP_PORT),
    }
}

// Where the settings say that the peer of a slot is.
fn told_remote(remotes: &[(u8, SocketAddr)], slot: u8) -> Option<SocketAddr>
    ensures some { IfSome result (λ remote. Contains remotes.now (slot, remote)) }
    ensures none { result ≡ None → (other : SocketAddress) → ¬ (Contains remotes.now (slot, other)) }
{
    let remote = remotes.iter().find(|remote| remote.0 == slot)?;
    Some(remote.1)
}
