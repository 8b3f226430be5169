//! What went over a wire, for proofs alone.
ghost use Rattle.std.specs.Prelude.{◌≡◌, List, [], ◌∷◌};
ghost use Rattle.std.specs.Coded.{coded_list};
ghost use Rattle.wires.specs.Calls.{WireCall, call_code, call_of};
ghost use base.Fml.{ftrue};

use crate::wire::{Attempt, Parting, Received, Sent};
use std::marker::Model;
use std::net::SocketAddr;

/// The calls of a wire, the newest first. It takes no memory and no time.
#[derive(Drop)]
pub struct Log {
    pub ghost calls: { List WireCall } by { coded_list call_code },
}

impl Model for Log {
    ghost also_owns = { λ _. ftrue };
}

/// A call of a wire, with its answer. A socket is named by how many came before it.
#[derive(Clone, Copy, Drop)]
pub enum Note<'a> {
    Connect(SocketAddr),
    Try(u64, Attempt),
    /// Where one came, the address of its other side.
    Accept(Option<SocketAddr>),
    /// The buffer is as the read left it.
    Read(u64, &'a [u8], Received),
    /// All octets that were offered.
    Write(u64, &'a [u8], Sent),
    Close(u64, Parting),
    /// Whether its connection is known to end.
    Look(u64, bool),
}

impl Log {
    /// None.
    pub fn new() -> Log
        ensures { result.calls ≡ [] }
    {
        Log {}
    }

    /// This one, and the others.
    pub fn then(&self, _note: &Note<'_>) -> Log
        ensures { result.calls ≡ call_of _note.now ∷ self.now.calls }
    {
        Log {}
    }
}
