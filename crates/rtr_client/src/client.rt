//! A client.
ghost use Rattle.std.specs.Prelude.{◌≡◌, IfOk, true};
ghost use Rattle.std.specs.Bool.{OnTrue};
ghost use Rattle.std.specs.Option.{option_map};
ghost use Rattle.net_prefix.specs.PayloadSets.{IsPayloadSet};
ghost use Rattle.rtr_codec.specs.ClientTable.{No_room, in_force, row, transport_of};
ghost use Rattle.rtr_codec.specs.PduSpelling.{content_of};
ghost use Rattle.vrp_delta.specs.Delta.{change_between};
ghost use Rattle.vrp_delta.specs.Keeping.{no_change};
ghost use Rattle.rtr_client.specs.Book.{named};
ghost use Rattle.rtr_client.specs.FirstClient.{first_client};
ghost use Rattle.rtr_client.specs.Following.{can_starve, input_of, served, state_of};
ghost use Rattle.rtr_client.specs.Sessions.{IsSettled, client_of};

use crate::acts::Acts;
use crate::input::Input;
use crate::payloads::{Base, Payloads};
use crate::rows::serve;
use crate::session::Session;
use crate::state::ClientState;
use net_prefix::{Transport, Vrp};
use std::alloc::{AllocError, Allocator, Global};
use std::collections::BTreeSet;
use std::marker::Model;
use vrp_delta::{Delta, Keeper};

/// A router's end of its session with a cache: where it stands, and the payloads in force.
#[derive(Drop)]
pub struct Client<A: Allocator = Global> {
    session: Session,
    payloads: Payloads<A>,
}

impl<A: Allocator> Model for Client<A> {
    ghost use Rattle.rtr_client.specs.Following.{Following};

    ghost Value = { Following };

    ghost use Rattle.rtr_client.specs.Sessions.{IsSettled, client_of};

    ghost view = { λ c. record { client = client_of c.session c.payloads; changed = c.payloads.changed } };

    ghost invariant = { λ c. IsSettled c.session c.payloads };
}

impl<A: Allocator> Client<A> {
    /// The payloads in force: those of the last completed load that was neither flushed nor has expired.
    pub fn in_force(&self) -> &BTreeSet<Vrp, A>
        ensures set { result.now.keys ≡ in_force self.now.client }
        ensures rises { IsPayloadSet result.now.keys }
    {
        self.payloads.in_force()
    }

    /// The session id and the serial of the payloads in force.
    pub fn base(&self) -> Option<Base>
        ensures { result ≡ option_map named self.now.client.base }
    {
        self.payloads.base()
    }

    /// The state that operators see.
    pub fn state(&self) -> ClientState
        ensures { result ≡ state_of self.now.client }
    {
        self.session.state()
    }

    /// What stands between the session and its connection.
    pub fn transport(&self) -> Transport
        ensures { result ≡ transport_of self.now.client }
    {
        self.session.transport()
    }

    /// What the last step changed of the payloads in force.
    pub fn changed(&self) -> &Delta<A>
        ensures { result.now ≡ self.now.changed }
    {
        self.payloads.changed()
    }

    /// Forgets what the last step changed.
    pub fn forget_changes(&mut self)
        ensures { self.new ≡ record self.old { changed = no_change } }
    {
        self.payloads.forget();
    }

    /// The query that the last step said finds too little room, and the session closes. What the step changed stays told.
    #[tactic(auto, unfolding(rtr_codec::specs::ClientTable::row))]
    pub fn no_room(&mut self, now: u64)
        ensures client { self.new.client ≡ (row now self.old.client No_room).client }
        ensures changed { self.new.changed ≡ self.old.changed }
    {
        self.session.no_room(now);
        settle(&self.session, &mut self.payloads);
    }
}

impl<A: Allocator + Clone> Client<A> {
    /// A client whose connection attempt has begun, with no payloads. Behind what failed it waits for `retry` seconds, until a
    /// load has brought the cache's own Retry Interval (RFC 8210 section 6).
    pub fn new(alloc: A, retry: u32) -> Result<Self, AllocError>
        ensures { IfOk result (λ client. client ≡ record { client = first_client retry; changed = no_change }) }
    {
        let payloads = Payloads::new(alloc)?;
        Ok(Client {
            session: Session::first(retry),
            payloads,
        })
    }

    /// One row of the client's table, at this moment in seconds. The keeper follows the payloads in force: a completed load
    /// is told to it last, and where that or another growth is refused no payload has changed.
    pub fn step<'a, K: Keeper>(&mut self, input: Input<'a>, now: u64, keeper: &mut K) -> Acts<'a>
        requires { K.kept keeper.old ≡ in_force self.old.client }
        ensures client { self.new.client ≡ (row now self.old.client (served result.starved (input_of input.entry))).client }
        ensures said { option_map content_of result.pdu ≡ (row now self.old.client (served result.starved (input_of input.entry))).said }
        ensures opened { result.opened ≡ (row now self.old.client (served result.starved (input_of input.entry))).opened }
        ensures starved { OnTrue result.starved (can_starve self.old.client (input_of input.entry) ≡ true) }
        ensures changed { self.new.changed ≡ change_between (in_force self.old.client) (in_force self.new.client) }
        ensures follows { K.kept keeper.new ≡ in_force self.new.client }
    {
        self.payloads.forget();
        let acts = serve(&mut self.session, &mut self.payloads, input, now, keeper);
        settle(&self.session, &mut self.payloads);
        acts
    }
}

// Where no load is in progress, what came of one is dropped.
fn settle<A: Allocator>(session: &Session, payloads: &mut Payloads<A>)
    ensures client { client_of session.now payloads.new ≡ client_of session.now payloads.old }
    ensures changed { payloads.new.changed ≡ payloads.old.changed }
    ensures settled { IsSettled session.now payloads.new }
{
    if !session.is_loading() {
        payloads.drop_load();
    }
}
