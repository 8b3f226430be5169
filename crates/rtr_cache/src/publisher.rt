//! What all clients of a cache share.
ghost use Rattle.std.specs.Prelude.{◌≡◌, [], IfOk, IfSome, OnOk, OnErr, IsSome, Some, true, false, slice_get};
ghost use Rattle.std.specs.Option.{option_copied};
ghost use Rattle.net_prefix.specs.PayloadSets.{IsPayloadSet};
ghost use Rattle.rtr_cache.specs.CacheTable.{Shared, offered};
ghost use Rattle.rtr_codec.specs.PduSpelling.{Serial_notify, content_of};
ghost use Rattle.rtr_cache.specs.Unsaid.{change_response, is_published, kept_response, whole_response};
ghost use Rattle.vrp_delta.specs.Versions.{change_from, is_newest_set, kept_after, newest_serial, version_of};

use crate::other_session::OtherSession;
use crate::response::{Response, Terms};
use crate::shared_change::SharedChange;
use net_prefix::Vrp;
use rtr_codec::Pdu;
use std::alloc::{AllocError, Allocator, Global};
use std::collections::BTreeSet;
use std::marker::Model;
use vrp_delta::{Delta, Snapshot, Versions};

/// The session, what a Serial Query of another one is answered with, the versions that were published in it, whether the
/// set is withdrawn, and the moment.
#[derive(Drop)]
pub struct Publisher<A: Allocator = Global> {
    alloc: A,
    terms: Terms,
    other_session: OtherSession,
    versions: Versions<A>,
    // What changed up to the newest version, since each serial that was asked about behind the last load.
    changes: Vec<SharedChange<A>, A>,
    withdrawn: bool,
    moment: u64,
}

impl<A: Allocator> Model for Publisher<A> {
    ghost use Rattle.std.specs.List.{AllByRecursion};
    ghost use Rattle.rtr_cache.specs.CacheTable.{Shared};
    ghost use Rattle.rtr_cache.specs.Unsaid.{LeadsToNewest};

    ghost Value = { Shared };

    ghost view = { λ p. record { session = p.terms.session; intervals = p.terms.intervals; other_session = p.other_session; kept = p.versions; withdrawn = p.withdrawn; now = p.moment } };

    ghost invariant = { λ p. AllByRecursion (LeadsToNewest p.versions) p.changes.items };
}

impl<A: Allocator + Clone> Publisher<A> {
    /// Nothing is published, and the moment is 0.
    pub fn new(alloc: A, terms: Terms, other_session: OtherSession) -> Result<Self, AllocError>
        ensures { IfOk result (λ p. p ≡ record { session = terms.session; intervals = terms.intervals; other_session = other_session; kept = []; withdrawn = false; now = 0 }) }
    {
        let versions = Versions::new(alloc.clone()?);
        let changes = Vec::new(alloc.clone()?);
        Ok(Publisher {
            alloc,
            terms,
            other_session,
            versions,
            changes,
            withdrawn: false,
            moment: 0,
        })
    }

    /// Another owner of the memory.
    pub fn allocator(&self) -> Result<A, AllocError> {
        self.alloc.clone()
    }

    /// Publishes the set, which no longer is withdrawn, and answers its serial.
    pub fn publish<B: Allocator>(&mut self, set: &BTreeSet<Vrp, B>) -> Result<u32, AllocError>
        ensures kept { OnOk result (self.new ≡ record self.old { kept = kept_after self.old.kept set.now.keys; withdrawn = false }) }
        ensures serial { IfOk result (λ serial. serial ≡ newest_serial self.new.kept) }
        ensures err { OnErr result (self.new ≡ self.old) }
        ensures news { OnErr result (is_newest_set self.old.kept set.now.keys ≡ false) }
        ensures rises { IsPayloadSet set.now.keys }
    {
        // The members of a set rise: any walk through them says so.
        let _members = set.iter();
        self.changes.clear();
        let serial = self.versions.publish(set)?;
        self.withdrawn = false;
        Ok(serial)
    }

    /// The set is withdrawn. What was published is kept.
    pub fn withdraw(&mut self)
        ensures { self.new ≡ record self.old { withdrawn = true } }
    {
        self.withdrawn = true;
    }

    /// Whether the set is withdrawn.
    pub fn is_withdrawn(&self) -> bool
        ensures { result ≡ self.now.withdrawn }
    {
        self.withdrawn
    }

    /// Whether there is a version by which queries are answered: one was published, and isn't withdrawn.
    pub fn offers_version(&self) -> bool
        ensures { result ≡ is_published (offered self.now) }
    {
        !self.withdrawn && self.versions.current().is_some()
    }

    /// The newest version.
    pub fn newest(&self) -> Option<&Snapshot<A>>
        ensures { option_copied result ≡ slice_get self.now.kept 0 }
    {
        self.versions.current()
    }

    /// The serial of the newest version, and 0 before the first.
    pub fn newest_serial(&self) -> u32
        ensures { result ≡ newest_serial self.now.kept }
    {
        match self.versions.current() {
            Some(newest) => newest.serial(),
            None => 0,
        }
    }

    /// The response with the newest version, where there is one.
    pub fn whole_version(&self) -> Result<Option<Response<A>>, AllocError>
        ensures response { IfOk result (λ response. response ≡ whole_response self.now self.now.kept) }
        ensures refused { OnErr result (is_published self.now.kept ≡ true) }
    {
        match self.versions.current() {
            Some(newest) => {
                let response = Response::of_version(self.alloc.clone()?, self.terms, newest)?;
                Ok(Some(response))
            }
            None => Ok(None),
        }
    }

    /// The response with what changed from a serial to the newest version, where the serial is kept. What changed is
    /// made once, and shared by all that ask for it before the next load.
    #[tactic(auto, using(crate::proofs::SharedChanges::is_kept, crate::proofs::SharedChanges::tells_change))]
    pub fn change_since(&mut self, serial: u32) -> Result<Option<Response<A>>, AllocError>
        ensures shared { self.new ≡ self.old }
        ensures response { IfOk result (λ response. response ≡ kept_response self.old serial self.old.kept) }
        ensures refused { OnErr result (IsSome (version_of self.old.kept serial)) }
    {
        let terms = self.terms;
        let newest = self.newest_serial();
        if let Some(change) = self.change_made(serial) {
            let response = Response::of_change(terms, newest, change)?;
            return Ok(Some(response));
        }
        match self.versions.delta_from(serial)? {
            Some(delta) => {
                let response = self.make_change(serial, &delta)?;
                Ok(Some(response))
            }
            None => Ok(None),
        }
    }

    // The response with what changed since a serial, which is shared from now on.
    fn make_change(&mut self, serial: u32, delta: &Delta<A>) -> Result<Response<A>, AllocError>
        requires { change_from self.old.kept serial ≡ Some delta.now }
        ensures shared { self.new ≡ self.old }
        ensures response { IfOk result (λ response. response ≡ change_response self.old.session self.old.intervals (newest_serial self.old.kept) delta.now) }
    {
        let change = SharedChange::of_delta(self.alloc.clone()?, serial, delta)?;
        let response = Response::of_change(self.terms, self.newest_serial(), &change)?;
        self.changes.push(change)?;
        Ok(response)
    }

    // What changed since the version of the serial, where it was made.
    fn change_made(&self, serial: u32) -> Option<&SharedChange<A>>
        ensures { IfSome result (λ change. change_from self.now.kept serial ≡ Some change.now.change) }
    {
        self.changes.iter().find(|change| change.serial() == serial)
    }

    /// The session that is served.
    pub fn session(&self) -> u16
        ensures { result ≡ self.now.session }
    {
        self.terms.session
    }

    /// What a Serial Query of another session is answered with.
    pub fn other_session(&self) -> OtherSession
        ensures { result ≡ self.now.other_session }
    {
        self.other_session
    }

    /// A Serial Notify of the newest version.
    pub fn notify(&self) -> Pdu<'static>
        ensures { content_of result ≡ Serial_notify self.now.session (newest_serial self.now.kept) }
    {
        Pdu::SerialNotify {
            session: self.terms.session,
            serial: self.newest_serial(),
        }
    }

    /// The moment.
    pub fn now(&self) -> u64
        ensures { result ≡ self.now.now }
    {
        self.moment
    }

    /// The moment is this one, where that isn't earlier.
    pub fn tick(&mut self, now: u64)
        ensures { self.new ≡ record self.old { now = now } }
    {
        self.moment = now;
    }
}
