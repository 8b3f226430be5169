//! What sockets may be ready for, as far as the system has told.
ghost use Rattle.std.specs.Prelude.{◌≡◌, [], IfSome, IfNone, None, Some};
ghost use Rattle.slab.specs.Slab.{SameValues, Updates, get};
ghost use Rattle.net_wires.specs.Readiness.{AllMayBeReady, Changes, Forgets, for_both, joined, not_to_read, not_to_write, readiness_of};

use slab::Slab;
use std::alloc::Global;
use std::marker::Model;

/// What a socket may be ready for.
#[derive(Clone, Copy, Debug, PartialEq, Eq)]
pub(crate) struct Readiness {
    pub may_read: bool,
    pub may_write: bool,
    /// Whether the system has told that its connection ends.
    pub is_ending: bool,
}

impl Readiness {
    /// Both, as of a connection that came.
    pub const BOTH: Readiness = Readiness {
        may_read: true,
        may_write: true,
        is_ending: false,
    };

    /// An attempt to connect is there once it may be written to.
    pub const ATTEMPT: Readiness = Readiness {
        may_read: true,
        may_write: false,
        is_ending: false,
    };
}

/// What each socket that is watched may be ready for, under a key of its own. A socket without a key isn't watched, and may
/// be ready at any time.
#[derive(Drop)]
pub(crate) struct WatchedSockets {
    sockets: Slab<Readiness>,
}

impl Model for WatchedSockets {
    ghost use Rattle.slab.specs.Slab.{Slab as Slots};
    ghost use Rattle.net_wires.specs.declared.readiness.Readiness.{Readiness};

    ghost Value = { Slots Readiness };

    ghost view = { λ watched. watched.sockets };
}

impl WatchedSockets {
    /// None.
    pub fn new(alloc: Global) -> WatchedSockets
        ensures { result.slots ≡ [] }
    {
        WatchedSockets {
            sockets: Slab::new(alloc),
        }
    }

    /// The key of one more, of which this is known. There is none where there is no memory.
    pub fn add(&mut self, known: Readiness) -> Option<usize>
        ensures unused { IfSome result (λ key. get self.old key ≡ None) }
        ensures adds { IfSome result (λ key. Updates self.old self.new key (Some known)) }
        ensures none { IfNone result (SameValues self.old self.new) }
    {
        self.sockets.insert(known).ok()
    }

    /// A socket isn't watched any more.
    pub fn remove(&mut self, key: Option<usize>)
        ensures { Forgets key self.old self.new }
    {
        if let Some(key) = key {
            let _known = self.sockets.try_remove(key);
        }
    }

    /// What a socket may be ready for.
    pub fn readiness(&self, key: Option<usize>) -> Readiness
        ensures { result ≡ readiness_of self.now key }
    {
        match key {
            Some(key) => self.sockets.get(key).copied().unwrap_or(Readiness::BOTH),
            None => Readiness::BOTH,
        }
    }

    /// The system has told this of the socket.
    pub fn tell(&mut self, key: usize, told: Readiness)
        ensures { Changes (joined told) (Some key) self.old self.new }
    {
        if let Some(known) = self.sockets.get_mut(key) {
            known.may_read = told.may_read || known.may_read;
            known.may_write = told.may_write || known.may_write;
            known.is_ending = told.is_ending || known.is_ending;
        }
    }

    /// What the system has told is lost.
    pub fn tell_all(&mut self)
        ensures { AllMayBeReady self.new }
    {
        for key in 0..self.sockets.capacity() {
            self.lose(key);
        }
    }

    // What the system has told of the socket is lost.
    fn lose(&mut self, key: usize)
        ensures { Changes (λ known. for_both) (Some key) self.old self.new }
    {
        if let Some(known) = self.sockets.get_mut(key) {
            *known = Readiness::BOTH;
        }
    }

    /// A read of the socket would have had to wait.
    pub fn rest_reading(&mut self, key: Option<usize>)
        ensures { Changes not_to_read key self.old self.new }
    {
        let Some(key) = key else {
            return;
        };
        if let Some(known) = self.sockets.get_mut(key) {
            known.may_read = false;
        }
    }

    /// A write would have had to wait.
    pub fn rest_writing(&mut self, key: Option<usize>)
        ensures { Changes not_to_write key self.old self.new }
    {
        let Some(key) = key else {
            return;
        };
        if let Some(known) = self.sockets.get_mut(key) {
            known.may_write = false;
        }
    }
}
