//! The payloads of a client.
ghost use Rattle.std.specs.Prelude.{◌≡◌, ◌==◌, ◌||◌, [], IfOk, OnOk, OnErr, None, true, false, not};
ghost use Rattle.std.specs.Option.{option_map};
ghost use Rattle.net_prefix.specs.PayloadSets.{IsPayloadSet, has};
ghost use Rattle.rtr_codec.specs.ClientState.{payloads_of};
ghost use Rattle.rtr_codec.specs.ClientTable.{is_serial, is_session};
ghost use Rattle.vrp_delta.specs.Delta.{change_between};
ghost use Rattle.vrp_delta.specs.Keeping.{no_change};

use crate::load::{is_loaded, leave_all, turn_against};
use net_prefix::Vrp;
use std::alloc::{AllocError, Allocator, Global};
use std::collections::BTreeSet;
use std::marker::Model;
use std::mem;
use vrp_delta::{Delta, Keeper, change_both};

/// The session id of a cache, and the serial of one of its versions (RFC 8210 section 2).
#[derive(Clone, Copy, Debug, PartialEq, Eq)]
pub struct Base {
    pub session: u16,
    pub serial: u32,
}

/// The payloads in force, those of a load in progress, and what the last step changed.
#[derive(Drop)]
pub struct Payloads<A: Allocator = Global> {
    base: Option<Base>,
    in_force: BTreeSet<Vrp, A>,
    // Whether the load answers a Serial Query, and so starts from the payloads in force.
    serially: bool,
    session: u16,
    // What the load changes of what it started from.
    load: Delta<A>,
    changed: Delta<A>,
}

impl<A: Allocator> Model for Payloads<A> {
    ghost use Rattle.rtr_client.specs.Book.{Book};

    ghost Value = { Book };

    ghost use Rattle.rtr_client.specs.Book.{IsBook, base_of, loaded_from, start_of};

    ghost view = { λ p. record { base = base_of p.base p.in_force.keys; serially = p.serially; session = p.session; loaded = loaded_from (start_of p.serially p.in_force.keys) p.load; changed = p.changed } };

    ghost invariant = { λ p. IsBook p.base p.in_force.keys p.serially p.load };
}

impl<A: Allocator> Payloads<A> {
    ghost use Rattle.rtr_client.specs.Book.{named};

    /// The session and the serial of the base.
    pub fn base(&self) -> Option<Base>
        ensures { result ≡ option_map named self.now.base }
    {
        self.base
    }

    /// The payloads in force.
    pub fn in_force(&self) -> &BTreeSet<Vrp, A>
        ensures set { result.now.keys ≡ payloads_of self.now.base }
        ensures rises { IsPayloadSet result.now.keys }
    {
        &self.in_force
    }

    /// What the last step changed.
    pub fn changed(&self) -> &Delta<A>
        ensures { result.now ≡ self.now.changed }
    {
        &self.changed
    }

    /// Whether the base is of the session.
    pub fn is_of(&self, session: u16) -> bool
        ensures { result ≡ is_session self.now.base session }
    {
        match self.base {
            Some(base) => session == base.session,
            None => false,
        }
    }

    /// Whether the load in progress is of the session.
    pub fn is_loading_of(&self, session: u16) -> bool
        ensures { result ≡ (session == self.now.session) }
    {
        session == self.session
    }

    /// Whether the load in progress answers a Serial Query.
    pub fn is_serial(&self) -> bool
        ensures { result ≡ self.now.serially }
    {
        self.serially
    }

    /// Whether the base has the serial.
    pub fn has_serial(&self, serial: u32) -> bool
        ensures { result ≡ is_serial self.now.base serial }
    {
        match self.base {
            Some(base) => serial == base.serial,
            None => false,
        }
    }
}

impl<A: Allocator> Payloads<A> {
    ghost use Rattle.rtr_client.specs.Book.{begun, flushed};

    /// Forgets what the last step changed.
    pub fn forget(&mut self)
        ensures { self.new ≡ record self.old { changed = no_change } }
    {
        self.changed.clear();
    }

    /// A load begins.
    pub fn begin(&mut self, serially: bool, session: u16)
        ensures { self.new ≡ begun serially session self.old }
    {
        self.load.clear();
        self.serially = serially;
        self.session = session;
    }

    /// Drops what has come of a load.
    pub fn drop_load(&mut self)
        ensures { self.new ≡ begun self.old.serially self.old.session self.old }
    {
        self.load.clear();
    }

    /// The payloads in force are flushed. It takes no memory.
    pub fn flush<K: Keeper>(&mut self, keeper: &mut K)
        requires { self.old.changed ≡ no_change }
        ensures book { self.new ≡ flushed self.old }
        ensures follows { K.kept keeper.new ≡ [] }
    {
        if self.serially {
            self.load.clear();
        }
        self.base = None;
        leave_all(&mut self.in_force, &mut self.changed);
        keeper.clear();
    }

    fn has_loaded(&self, payload: &Vrp) -> bool
        ensures { result ≡ has self.now.loaded payload.now }
    {
        is_loaded(self.serially, &self.in_force, &self.load, payload)
    }
}

impl<A: Allocator + Clone> Payloads<A> {
    ghost use Rattle.rtr_client.specs.Book.{Announces, Commits, Withdraws, completed, empty_book, started_from};
    ghost use Rattle.rtr_client.specs.Following.{has_more, wants_memory};
    ghost use Rattle.vrp_delta.specs.Versions.{is_same_set};

    /// No payloads.
    pub fn new(alloc: A) -> Result<Self, AllocError>
        ensures { IfOk result (λ payloads. payloads ≡ empty_book) }
    {
        let load = Delta::new(alloc.clone()?)?;
        let changed = Delta::new(alloc.clone()?)?;
        Ok(Payloads {
            base: None,
            in_force: BTreeSet::new(alloc),
            serially: false,
            session: 0,
            load,
            changed,
        })
    }

    /// A payload of the load comes; false where it is there already. One that the load started from needs no memory.
    pub fn announce(&mut self, payload: Vrp) -> Result<bool, AllocError>
        ensures does { Announces self.old payload result self.new }
        ensures needs { OnErr result (has (started_from self.old) payload ≡ false) }
    {
        if self.has_loaded(&payload) {
            return Ok(false);
        }
        self.load.come(payload)?;
        Ok(true)
    }

    /// A payload of the load leaves; false where it isn't there. One that came in this load needs no memory.
    pub fn withdraw(&mut self, payload: Vrp) -> Result<bool, AllocError>
        ensures does { Withdraws self.old payload result self.new }
        ensures needs { OnErr result (has (started_from self.old) payload ≡ true) }
    {
        if !self.has_loaded(&payload) {
            return Ok(false);
        }
        self.load.leave(payload)?;
        Ok(true)
    }

    /// The load is in force under its session and this serial, whole or, where memory is refused, not at all. A load
    /// that brings nothing new after a Serial Query, or that has just the payloads in force, needs none.
    pub fn commit<K: Keeper>(&mut self, serial: u32, keeper: &mut K) -> Result<(), AllocError>
        requires told { self.old.changed ≡ no_change }
        requires follows { K.kept keeper.old ≡ payloads_of self.old.base }
        ensures does { Commits self.old serial result self.new }
        ensures needs { OnErr result (wants_memory self.old.serially self.old.loaded (payloads_of self.old.base) ≡ true) }
        ensures follows { K.kept keeper.new ≡ payloads_of self.new.base }
    {
        self.rebase()?;
        self.put_in_force(serial, keeper)
    }

    // The load becomes a change of the payloads in force.
    fn rebase(&mut self) -> Result<(), AllocError>
        ensures ok { OnOk result (self.new ≡ record self.old { serially = true }) }
        ensures err { OnErr result (self.new ≡ self.old) }
        ensures afresh { OnErr result (self.old.serially ≡ false) }
        ensures needs { OnErr result (is_same_set self.old.loaded (payloads_of self.old.base) ≡ false) }
    {
        if self.serially {
            return Ok(());
        }
        turn_against(&self.in_force, &mut self.load)?;
        self.serially = true;
        Ok(())
    }

    // The last growth is that of what follows the payloads in force; behind it all is moved.
    fn put_in_force<K: Keeper>(&mut self, serial: u32, keeper: &mut K) -> Result<(), AllocError>
        requires serially { self.old.serially ≡ true }
        requires told { self.old.changed ≡ no_change }
        requires follows { K.kept keeper.old ≡ payloads_of self.old.base }
        ensures does { Commits self.old serial result self.new }
        ensures needs { OnErr result (has_more self.old.loaded (payloads_of self.old.base) ≡ true) }
        ensures follows { K.kept keeper.new ≡ payloads_of self.new.base }
    {
        change_both(&mut self.in_force, &self.load, keeper)?;
        self.base = Some(Base {
            session: self.session,
            serial,
        });
        mem::swap(&mut self.load, &mut self.changed);
        Ok(())
    }
}
