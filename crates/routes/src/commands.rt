//! What commands do to the tables.
ghost use Rattle.std.specs.Prelude.{◌≡◌, ◌≤◌, ◌+◌, ◌==◌, ℕ, List, [], true, false, None, Some, IfOk, OnOk, OnErr, length, if◌then◌else◌};
ghost use Rattle.std.specs.BTreeMap.{is_at};
ghost use Rattle.std.specs.Option.{IsSome, is_some};
ghost use Rattle.std.specs.Ordering.{nat_cmp};
ghost use Rattle.bgp_attr.specs.PathAttributes.{originated};
ghost use Rattle.bgp_conf.specs.ConfAfter.{TakesMemory, conf_after, is_network_after, peer_after};
ghost use Rattle.bgp_conf.specs.Configuration.{is_network, peer_at};
ghost use Rattle.bgp_conf.specs.FirstRefusal.{IsAccepted};
ghost use Rattle.bgp_conf.specs.declared.command.Command.TheVariants.{AddPeer as AddsPeer, RemovePeer as RemovesPeer, Network as Originates, NoNetwork as Retracts};
ghost use Rattle.bgp_fsm.specs.StateTests.{is_established};
ghost use Rattle.bgp_peer.specs.Slot.{configured};
ghost use Rattle.decision.specs.BookContents.{offer_at};
ghost use Rattle.net_prefix.specs.declared.prefix.Prefix.{Prefix as ThePrefix};
ghost use Rattle.rib_in.specs.LatestRoutes.{HasRoute, is_route, route_at};
ghost use Rattle.routing.specs.Chosen.{AreDifferent, Ends, OncePerPrefix};
ghost use Rattle.routes.specs.Commands.{DropsPolicy, SetsPolicy, UsesIn, UsesOut, resolves};
ghost use Rattle.routing.specs.Linked.{Linked};
ghost use Rattle.routing.specs.Offers.{AreMadeAgain, AreMadeWhere};
ghost use Rattle.routing.specs.RoutesState.{BringsNetwork, IsSet, StaysAsIs, tables_in};
ghost use Rattle.routing.specs.Sent.{peer_in};
ghost use Rattle.routing.specs.Tables.{link_at};

use crate::routes::Routes;
use bgp_attr::{Attrs, Mode};
use bgp_conf::{Command, PeerConf};
use bgp_fsm::PeerTimers;
use bgp_msg::OwnOpen;
use bgp_peer::Peer;
use decision::{Book, LOCAL_SLOT};
use net_prefix::Prefix;
use routing::{Links, choose_again, choose_slot, judge_network};
use std::alloc::{AllocError, Allocator};
use std::rc::Rc;

impl<A: Allocator + Clone, B: Book<A>> Routes<A, B> {
    /// A peer comes to a slot, with the OPEN that is sent to it and the times of its timers. Where memory is refused, nothing
    /// changes.
    pub fn add_peer(
        &mut self,
        alloc: &A,
        command: &Command<'_>,
        slot: u8,
        conf: &PeerConf<'_>,
        own: OwnOpen,
        times: PeerTimers,
    ) -> Result<(), AllocError>
        requires accepted { IsAccepted self.old.conf command.now }
        requires adds { command.now ≡ AddsPeer slot conf.now }
        ensures conf { OnOk result (self.new.conf ≡ conf_after self.old.conf (AddsPeer slot conf.now)) }
        ensures peers { OnOk result ((s : ℕ) → peer_at self.new.conf s ≡ peer_after self.old.conf (AddsPeer slot conf.now) s) }
        ensures puts { OnOk result (IsSet slot (Some (record { peer = configured own conf.now.mode times; adj_out = [] })) self.old self.new) }
        ensures rest { OnOk result (self.new ≡ record self.old { conf = self.new.conf; links = self.new.links }) }
        ensures err { OnErr result (StaysAsIs self.old self.new) }
        ensures payloads { self.new.payloads ≡ self.old.payloads }
    {
        let before = put_peer(&mut self.links, alloc, slot, own, conf.mode, times)?;
        if self.conf.apply(command).is_err() {
            put_back(&mut self.links, slot, before);
            return Err(AllocError);
        }
        self.routing.forget(slot);
        Ok(())
    }

    /// The peer of a slot whose session isn't Established is taken from the configuration, which takes no memory, and
    /// what is left of its routes goes.
    pub fn remove_peer(&mut self, command: &Command<'_>, slot: u8)
        requires accepted { IsAccepted self.old.conf command.now }
        requires removes { command.now ≡ RemovesPeer slot }
        requires down { (l : Linked) → link_at self.old.links slot ≡ Some l → is_established l.peer.session.state ≡ false }
        ensures conf { self.new.conf ≡ conf_after self.old.conf (RemovesPeer slot) }
        ensures peers { (s : ℕ) → peer_at self.new.conf s ≡ (if s == slot then None else peer_at self.old.conf s) }
        ensures routes { (s : ℕ) (p : ThePrefix) → route_at self.new.adj_in s p ≡ (if s == slot then None else route_at self.old.adj_in s p) }
        ensures offers { (s : ℕ) (p : ThePrefix) → offer_at self.new.book s p ≡ (if s == slot then None else offer_at self.old.book s p) }
        ensures chosen { Ends slot self.old.adj_in self.old.chosen self.new.chosen }
        ensures payloads { self.new.payloads ≡ self.old.payloads }
        ensures links { self.new.links ≡ self.old.links }
        ensures rises { self.old.chosen ≤ self.new.chosen }
    {
        self.routing.drop_slot(&self.conf, &self.links, slot);
        let _takes_no_memory = self.conf.apply(command);
    }

    /// A policy has other rules: what those peers are owed that are told routes by it is made out again, and the candidates
    /// of all routes are made again. Where memory is refused, nothing changes.
    pub fn set_policy(&mut self, command: &Command<'_>, name: &str) -> Result<(), AllocError>
        requires accepted { IsAccepted self.old.conf command.now }
        requires sets { SetsPolicy name.now command.now }
        ensures conf { OnOk result (self.new.conf ≡ conf_after self.old.conf command.now) }
        ensures peers { OnOk result ((s : ℕ) → peer_at self.new.conf s ≡ peer_after self.old.conf command.now s) }
        ensures made { OnOk result (AreMadeAgain (tables_in self.new) (offer_at self.old.book) (offer_at self.new.book)) }
        ensures chosen { OnOk result ((known : List ThePrefix) × AreDifferent (HasRoute self.old.adj_in) known × (self.new.chosen ≤ self.old.chosen + length known)) }
        ensures rest { OnOk result (self.new ≡ record self.old { conf = self.new.conf; book = self.new.book; chosen = self.new.chosen }) }
        ensures rises { OnOk result (self.old.chosen ≤ self.new.chosen) }
        ensures err { OnErr result (self.new ≡ self.old) }
        ensures payloads { self.new.payloads ≡ self.old.payloads }
    {
        self.conf.apply(command)?;
        self.routing.mark_exporters(&self.conf, &self.links, name);
        choose_again(&self.conf, &self.payloads, &self.links, &mut self.routing);
        Ok(())
    }

    /// An entry of `reach` comes or goes: the candidates of all routes are made again. Where memory is refused, nothing
    /// changes.
    pub fn resolve(&mut self, command: &Command<'_>) -> Result<(), AllocError>
        requires accepted { IsAccepted self.old.conf command.now }
        requires resolves { resolves command.now ≡ true }
        ensures conf { OnOk result (self.new.conf ≡ conf_after self.old.conf command.now) }
        ensures peers { OnOk result ((s : ℕ) → peer_at self.new.conf s ≡ peer_after self.old.conf command.now s) }
        ensures made { OnOk result (AreMadeAgain (tables_in self.new) (offer_at self.old.book) (offer_at self.new.book)) }
        ensures chosen { OnOk result ((known : List ThePrefix) × AreDifferent (HasRoute self.old.adj_in) known × (self.new.chosen ≤ self.old.chosen + length known)) }
        ensures rest { OnOk result (self.new ≡ record self.old { conf = self.new.conf; book = self.new.book; chosen = self.new.chosen }) }
        ensures rises { OnOk result (self.old.chosen ≤ self.new.chosen) }
        ensures err { OnErr result (self.new ≡ self.old) }
        ensures memory { OnErr result (TakesMemory self.old.conf command.now) }
        ensures payloads { self.new.payloads ≡ self.old.payloads }
    {
        self.conf.apply(command)?;
        choose_again(&self.conf, &self.payloads, &self.links, &mut self.routing);
        Ok(())
    }

    /// A policy that no peer uses is dropped. It takes no memory.
    pub fn drop_policy(&mut self, command: &Command<'_>)
        requires accepted { IsAccepted self.old.conf command.now }
        requires drops { DropsPolicy command.now }
        ensures conf { self.new ≡ record self.old { conf = conf_after self.old.conf command.now } }
        ensures payloads { self.new.payloads ≡ self.old.payloads }
    {
        let _takes_no_memory = self.conf.apply(command);
    }

    /// A peer has another import policy: the candidates of its routes are made again. It takes no memory.
    pub fn use_in(&mut self, command: &Command<'_>, slot: u8)
        requires accepted { IsAccepted self.old.conf command.now }
        requires uses { UsesIn slot command.now }
        ensures conf { self.new.conf ≡ conf_after self.old.conf command.now }
        ensures made { AreMadeWhere (tables_in self.new) (λ q. is_some (route_at self.old.adj_in slot q)) (offer_at self.old.book) (offer_at self.new.book) }
        ensures chosen { OncePerPrefix (λ p. IsSome (route_at self.old.adj_in slot p)) self.old.chosen self.new.chosen }
        ensures rest { self.new ≡ record self.old { conf = self.new.conf; book = self.new.book; chosen = self.new.chosen } }
        ensures payloads { self.new.payloads ≡ self.old.payloads }
        ensures rises { self.old.chosen ≤ self.new.chosen }
    {
        let _takes_no_memory = self.conf.apply(command);
        choose_slot(
            &self.conf,
            &self.payloads,
            &self.links,
            &mut self.routing,
            slot,
        );
    }

    /// A peer has another export policy: what it is owed is made out again. It takes no memory.
    pub fn use_out(&mut self, command: &Command<'_>, slot: u8)
        requires accepted { IsAccepted self.old.conf command.now }
        requires uses { UsesOut slot command.now }
        ensures conf { self.new ≡ record self.old { conf = conf_after self.old.conf command.now } }
        ensures payloads { self.new.payloads ≡ self.old.payloads }
    {
        let _takes_no_memory = self.conf.apply(command);
        self.routing.mark_slot(&self.conf, &self.links, slot);
    }

    /// A prefix becomes a local network. Where memory is refused, it stays what it was.
    pub fn originate(
        &mut self,
        alloc: &A,
        command: &Command<'_>,
        prefix: Prefix,
    ) -> Result<(), AllocError>
        requires accepted { IsAccepted self.old.conf command.now }
        requires originates { command.now ≡ Originates prefix }
        ensures conf { OnOk result (self.new.conf ≡ conf_after self.old.conf (Originates prefix)) }
        ensures networks { OnOk result ((p : ThePrefix) → is_network self.new.conf p ≡ is_network_after self.old.conf (Originates prefix) p) }
        // One that is one already is one, and nothing else changes.
        ensures there { OnOk result (is_network self.old.conf prefix ≡ true → self.new ≡ record self.old { conf = self.new.conf }) }
        ensures comes { OnOk result (is_network self.old.conf prefix ≡ false → BringsNetwork prefix self.old self.new) }
        ensures rises { OnOk result (self.old.chosen ≤ self.new.chosen) }
        ensures err { OnErr result (StaysAsIs self.old self.new) }
        ensures memory { OnErr result (TakesMemory self.old.conf command.now) }
        ensures payloads { self.new.payloads ≡ self.old.payloads }
    {
        let is_there = self.conf.is_network(prefix);
        self.conf.apply(command)?;
        if is_there {
            return Ok(());
        }
        if self.announce_network(alloc, prefix).is_err() {
            let _takes_no_memory = self.conf.apply(&Command::NoNetwork(prefix));
            return Err(AllocError);
        }
        Ok(())
    }

    // The route of a local network comes, with the candidate that it makes.
    fn announce_network(&mut self, alloc: &A, prefix: Prefix) -> Result<(), AllocError>
        ensures ok { OnOk result (BringsNetwork prefix self.old self.new) }
        ensures conf { self.new.conf ≡ self.old.conf }
        ensures err { OnErr result (StaysAsIs self.old self.new) }
        ensures payloads { self.new.payloads ≡ self.old.payloads }
    {
        let attrs = originated_attrs(alloc)?;
        let network = judge_network(&self.conf, &self.payloads, prefix, &attrs);
        self.routing.announce(
            &self.conf,
            &self.links,
            LOCAL_SLOT,
            prefix,
            attrs,
            Some(network),
        )
    }

    /// A prefix is no local network any more. It takes no memory.
    pub fn retract(&mut self, command: &Command<'_>, prefix: Prefix)
        requires accepted { IsAccepted self.old.conf command.now }
        requires retracts { command.now ≡ Retracts prefix }
        ensures conf { self.new.conf ≡ conf_after self.old.conf (Retracts prefix) }
        ensures networks { (p : ThePrefix) → is_network self.new.conf p ≡ is_network_after self.old.conf (Retracts prefix) p }
        ensures routes { (s : ℕ) (p : ThePrefix) → route_at self.new.adj_in s p ≡ (if is_route 64 prefix s p then None else route_at self.old.adj_in s p) }
        ensures offers { (s : ℕ) (p : ThePrefix) → offer_at self.new.book s p ≡ (if is_route 64 prefix s p then None else offer_at self.old.book s p) }
        ensures chosen { self.new.chosen ≤ self.old.chosen + 1 }
        ensures payloads { self.new.payloads ≡ self.old.payloads }
        ensures links { self.new.links ≡ self.old.links }
        ensures rises { self.old.chosen ≤ self.new.chosen }
    {
        let _takes_no_memory = self.conf.apply(command);
        self.routing
            .withdraw(&self.conf, &self.links, LOCAL_SLOT, prefix);
    }
}

// Writes a slot anew, in Idle and disabled. Answers what it was.
fn put_peer<A: Allocator + Clone>(
    links: &mut Links<A>,
    alloc: &A,
    slot: u8,
    own: OwnOpen,
    mode: Mode,
    times: PeerTimers,
) -> Result<Option<Peer<A>>, AllocError>
    ensures puts { OnOk result ((s : ℕ) → peer_in links.new.entries s ≡ (if is_at (nat_cmp slot) s then Some (configured own mode times) else peer_in links.old.entries s)) }
    ensures before { IfOk result (λ before. before ≡ peer_in links.old.entries slot) }
    ensures err { OnErr result (links.new.entries ≡ links.old.entries) }
{
    let peer = Peer::new(alloc.clone()?, own, mode, times)?;
    let before = links.insert(slot, peer)?;
    Ok(before)
}

// Makes a slot what it was before it was written.
fn put_back<A: Allocator + Clone>(links: &mut Links<A>, slot: u8, before: Option<Peer<A>>)
    requires { IsSome (peer_in links.old.entries slot) }
    ensures { (s : ℕ) → peer_in links.new.entries s ≡ (if is_at (nat_cmp slot) s then before else peer_in links.old.entries s) }
{
    match before {
        Some(peer) => {
            let _there = links.insert(slot, peer);
        }
        None => {
            links.remove(&slot);
        }
    }
}

// The attributes of a local network's route.
fn originated_attrs<A: Allocator + Clone>(alloc: &A) -> Result<Rc<Attrs<A>, A>, AllocError>
    ensures { IfOk result (λ attrs. attrs.value ≡ originated) }
{
    let attrs = Rc::new(alloc.clone()?, Attrs::originated(alloc.clone()?))?;
    Ok(attrs)
}
