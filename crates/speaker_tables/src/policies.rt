//! The policies in force.

use crate::pieces::Place;
use bgp_conf::{Conf, PEER_SLOTS, PolicyName};
use policy_lines::write_policy_line;
use std::alloc::Global;
use std::io::{self, Write};

/// Writes the next policy as its line says it, and behind it, as a comment, the slots of the peers that use it. It is a piece
/// by itself.
pub(crate) fn write_policy(
    conf: &Conf<Global>,
    behind: Place,
    page: &mut Vec<u8>,
) -> io::Result<Option<Place>> {
    let index = match behind {
        Place::Policy(last) => last.saturating_add(1),
        _ => 0,
    };
    let Some((name, rules)) = conf.policy(index) else {
        return Ok(None);
    };
    write_policy_line(name, rules, page)?;
    write_users(conf, name, page)?;
    Ok(Some(Place::Policy(index)))
}

fn write_users(conf: &Conf<Global>, name: PolicyName, page: &mut Vec<u8>) -> io::Result<()> {
    write!(page, "# in")?;
    for slot in 0..PEER_SLOTS {
        if imports_by(conf, slot, name) {
            write!(page, " {slot}")?;
        }
    }
    write!(page, ", out")?;
    write_exporters(conf, name, page)
}

fn write_exporters(conf: &Conf<Global>, name: PolicyName, page: &mut Vec<u8>) -> io::Result<()> {
    for slot in 0..PEER_SLOTS {
        if exports_by(conf, slot, name) {
            write!(page, " {slot}")?;
        }
    }
    writeln!(page, "")
}

fn imports_by(conf: &Conf<Global>, slot: u8, name: PolicyName) -> bool {
    match conf.peer(slot) {
        Some(peer) => peer.import == name,
        None => false,
    }
}

fn exports_by(conf: &Conf<Global>, slot: u8, name: PolicyName) -> bool {
    match conf.peer(slot) {
        Some(peer) => peer.export == name,
        None => false,
    }
}
