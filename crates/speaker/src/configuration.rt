//! What commands do to the tables.
ghost use Rattle.std.specs.Prelude.{◌≡◌, ◌≤◌, true, false, [], ◌∷◌, IfOk, OnOk, OnErr, IsSome, ◌<◌, ◌^◌, None, Some, if◌then◌else◌};
ghost use Rattle.bgp_conf.specs.ConfAfter.{TakesMemory};
ghost use Rattle.bgp_conf.specs.FirstRefusal.{IsAccepted, first_refusal};
ghost use Rattle.bgp_conf.specs.Configuration.{peer_at};
ghost use Rattle.bgp_conf.specs.declared.command.Command.TheVariants.{AddPeer as AddsPeer, RemovePeer as RemovesPeer, Network as Originates, NoNetwork as Retracts};
ghost use Rattle.bgp_fsm.specs.StateTests.{is_established};
ghost use Rattle.runs.specs.FirstRefusal.{closing_for};
ghost use Rattle.runs.specs.SpeakerState.{tables_of};
ghost use Rattle.bgp_fsm.specs.SessionTable.{effects_of};
ghost use Rattle.bgp_fsm.specs.declared.input.Input.TheVariants.{Start};
ghost use Rattle.speaker.specs.Chosen.{Chooses};
ghost use Rattle.speaker.specs.Ready.{is_free, is_other};
ghost use Rattle.routing.specs.Linked.{Linked};
ghost use Rattle.routes.specs.Commands.{DropsPolicy, SetsPolicy, UsesIn, UsesOut, resolves};
ghost use Rattle.speaker.specs.Moves.{Forgets, Moves};
ghost use Rattle.runs.specs.Runs.{Run, turn, Command_call, opened_commanded};
ghost use Rattle.runs.specs.Agreement.{Holds};
ghost use Rattle.runs.specs.declared.config.Config.{Config as TheConfig};
ghost use Rattle.routing.specs.Tables.{link_at};

use crate::step::Speaker;
use bgp_conf::{Command, PeerConf};
use bgp_fsm::Input;
use bgp_msg::OwnOpen;
use decision::Book;
use net_prefix::Prefix;
use runs::slot_bit;
use std::alloc::{AllocError, Allocator};

impl<A: Allocator + Clone, B: Book<A>> Speaker<A, B> {
    ghost use Rattle.runs.specs.SpeakerState.{IsAsBefore};

    // Makes the tables after a command that isn't refused. Answers the slots whose connection attempt begins, a bit each.
    pub(crate) fn obey(&mut self, command: &Command<'_>) -> Result<u64, AllocError>
        requires { first_refusal self.old.conf (closing_for (tables_of self.old) command.now) command.now ≡ None }
        ensures err { OnErr result (IsAsBefore self.old self.new) }
        ensures memory { OnErr result (TakesMemory self.old.conf command.now) }
        ensures ok { IfOk result (λ opened. (config : TheConfig) (r : Run) → Holds config r self.old
            → Holds config (turn (Command_call command.now) [] ∷ r) self.new × (opened ≡ opened_commanded config r command.now)) }
        ensures counted { OnOk result (self.new.chosen_before ≡ self.old.chosen) }
        ensures rises { OnOk result (self.old.chosen ≤ self.new.chosen) }
    {
        match *command {
            Command::AddPeer(slot, conf) => self.add_peer(command, slot, &conf),
            Command::SetPolicy(name, _) => self.set_policy(command, name),
            Command::Network(prefix) => self.originate(command, prefix),
            Command::Reach(_, _) | Command::NoReach(_) => self.resolve(command),
            _ => self.obey_other(command),
        }
    }

    // The same of one that neither adds to the configuration nor changes how next hops resolve.
    fn obey_other(&mut self, command: &Command<'_>) -> Result<u64, AllocError>
        requires accepted { first_refusal self.old.conf (closing_for (tables_of self.old) command.now) command.now ≡ None }
        requires other { is_other command.now ≡ true }
        ensures err { OnErr result (IsAsBefore self.old self.new) }
        ensures memory { OnErr result (TakesMemory self.old.conf command.now) }
        ensures ok { IfOk result (λ opened. (config : TheConfig) (r : Run) → Holds config r self.old
            → Holds config (turn (Command_call command.now) [] ∷ r) self.new × (opened ≡ opened_commanded config r command.now)) }
        ensures counted { OnOk result (self.new.chosen_before ≡ self.old.chosen) }
        ensures rises { OnOk result (self.old.chosen ≤ self.new.chosen) }
    {
        match *command {
            Command::Filter(prefix, asn) | Command::NoFilter(prefix, asn) => {
                self.turn_filter(command, prefix, asn)
            }
            Command::Assert(prefix, max_len, asn) | Command::NoAssert(prefix, max_len, asn) => {
                self.turn_assertion(command, prefix, max_len, asn)
            }
            _ => {
                self.begin_count();
                Ok(self.obey_freely(command))
            }
        }
    }

    // A command that takes no memory and isn't refused. Answers the slots whose connection attempt begins, a bit each.
    fn obey_freely(&mut self, command: &Command<'_>) -> u64
        requires accepted { first_refusal self.old.conf (closing_for (tables_of self.old) command.now) command.now ≡ None }
        requires free { is_free command.now ≡ true }
        ensures ok { (config : TheConfig) (r : Run) → Holds config r self.old → self.old.chosen ≤ self.old.chosen_before
            → Holds config (turn (Command_call command.now) [] ∷ r) self.new × (result ≡ opened_commanded config r command.now) }
        ensures counted { self.new.chosen_before ≡ self.old.chosen_before }
        ensures rises { self.old.chosen ≤ self.new.chosen }
    {
        match *command {
            Command::Enable(slot) => self.start(slot),
            Command::RemovePeer(slot) => {
                self.remove_peer(command, slot);
                0
            }
            Command::Disable(slot) => {
                self.input(slot, Input::Disable);
                0
            }
            Command::DropPolicy(_) => {
                self.drop_policy(command);
                0
            }
            Command::UseIn(slot, _) => {
                self.use_in(command, slot);
                0
            }
            Command::UseOut(slot, _) => {
                self.use_out(command, slot);
                0
            }
            Command::NoNetwork(prefix) => {
                self.retract(command, prefix);
                0
            }
            _ => unreachable!(),
        }
    }

    // A prefix becomes a local network. Where memory is refused, it stays what it was.
    fn originate(&mut self, command: &Command<'_>, prefix: Prefix) -> Result<u64, AllocError>
        requires accepted { first_refusal self.old.conf (closing_for (tables_of self.old) command.now) command.now ≡ None }
        requires originates { command.now ≡ Originates prefix }
        ensures err { OnErr result (IsAsBefore self.old self.new) }
        ensures memory { OnErr result (TakesMemory self.old.conf command.now) }
        ensures ok { IfOk result (λ opened. (config : TheConfig) (r : Run) → Holds config r self.old
            → Holds config (turn (Command_call command.now) [] ∷ r) self.new × (opened ≡ opened_commanded config r command.now)) }
        ensures counted { OnOk result (self.new.chosen_before ≡ self.old.chosen) }
        ensures rises { OnOk result (self.old.chosen ≤ self.new.chosen) }
    {
        let before = self.routes.chosen();
        self.routes.originate(&self.alloc, command, prefix)?;
        self.chosen_before = before;
        Ok(0)
    }

    // A prefix is no local network any more.
    fn retract(&mut self, command: &Command<'_>, prefix: Prefix)
        requires accepted { first_refusal self.old.conf (closing_for (tables_of self.old) command.now) command.now ≡ None }
        requires retracts { command.now ≡ Retracts prefix }
        ensures ok { (config : TheConfig) (r : Run) → Holds config r self.old → self.old.chosen ≤ self.old.chosen_before
            → Holds config (turn (Command_call command.now) [] ∷ r) self.new }
        ensures counted { self.new.chosen_before ≡ self.old.chosen_before }
        ensures rises { self.old.chosen ≤ self.new.chosen }
    {
        self.routes.retract(command, prefix);
    }

    // A policy that no peer uses is dropped.
    fn drop_policy(&mut self, command: &Command<'_>)
        requires accepted { first_refusal self.old.conf (closing_for (tables_of self.old) command.now) command.now ≡ None }
        requires drops { DropsPolicy command.now }
        ensures ok { (config : TheConfig) (r : Run) → Holds config r self.old → self.old.chosen ≤ self.old.chosen_before
            → Holds config (turn (Command_call command.now) [] ∷ r) self.new }
        ensures counted { self.new.chosen_before ≡ self.old.chosen_before }
        ensures rises { self.old.chosen ≤ self.new.chosen }
    {
        self.routes.drop_policy(command);
    }

    // A peer has another import policy: the candidates of its routes are made again.
    fn use_in(&mut self, command: &Command<'_>, slot: u8)
        requires accepted { first_refusal self.old.conf (closing_for (tables_of self.old) command.now) command.now ≡ None }
        requires uses { UsesIn slot command.now }
        ensures ok { (config : TheConfig) (r : Run) → Holds config r self.old → self.old.chosen ≤ self.old.chosen_before
            → Holds config (turn (Command_call command.now) [] ∷ r) self.new }
        ensures counted { self.new.chosen_before ≡ self.old.chosen_before }
        ensures rises { self.old.chosen ≤ self.new.chosen }
    {
        self.routes.use_in(command, slot);
    }

    // A peer has another export policy: what it is owed is another.
    fn use_out(&mut self, command: &Command<'_>, slot: u8)
        requires accepted { first_refusal self.old.conf (closing_for (tables_of self.old) command.now) command.now ≡ None }
        requires uses { UsesOut slot command.now }
        ensures ok { (config : TheConfig) (r : Run) → Holds config r self.old → self.old.chosen ≤ self.old.chosen_before
            → Holds config (turn (Command_call command.now) [] ∷ r) self.new }
        ensures counted { self.new.chosen_before ≡ self.old.chosen_before }
        ensures rises { self.old.chosen ≤ self.new.chosen }
    {
        self.routes.use_out(command, slot);
    }

    // A policy has other rules: those peers that are told routes by it are owed others, and the candidates of all routes are
    // made again.
    fn set_policy(&mut self, command: &Command<'_>, name: &str) -> Result<u64, AllocError>
        requires accepted { first_refusal self.old.conf (closing_for (tables_of self.old) command.now) command.now ≡ None }
        requires sets { SetsPolicy name.now command.now }
        ensures err { OnErr result (IsAsBefore self.old self.new) }
        ensures memory { OnErr result (TakesMemory self.old.conf command.now) }
        ensures ok { IfOk result (λ opened. (config : TheConfig) (r : Run) → Holds config r self.old
            → Holds config (turn (Command_call command.now) [] ∷ r) self.new × (opened ≡ opened_commanded config r command.now)) }
        ensures counted { OnOk result (self.new.chosen_before ≡ self.old.chosen) }
        ensures rises { OnOk result (self.old.chosen ≤ self.new.chosen) }
    {
        let before = self.routes.chosen();
        self.routes.set_policy(command, name)?;
        self.chosen_before = before;
        Ok(0)
    }

    // An entry of `reach` comes or goes: the candidates of all routes are made again.
    fn resolve(&mut self, command: &Command<'_>) -> Result<u64, AllocError>
        requires accepted { first_refusal self.old.conf (closing_for (tables_of self.old) command.now) command.now ≡ None }
        requires resolves { resolves command.now ≡ true }
        ensures err { OnErr result (IsAsBefore self.old self.new) }
        ensures memory { OnErr result (TakesMemory self.old.conf command.now) }
        ensures ok { IfOk result (λ opened. (config : TheConfig) (r : Run) → Holds config r self.old
            → Holds config (turn (Command_call command.now) [] ∷ r) self.new × (opened ≡ opened_commanded config r command.now)) }
        ensures counted { OnOk result (self.new.chosen_before ≡ self.old.chosen) }
        ensures rises { OnOk result (self.old.chosen ≤ self.new.chosen) }
    {
        let before = self.routes.chosen();
        self.routes.resolve(command)?;
        self.chosen_before = before;
        Ok(0)
    }

    // A peer is enabled. Answers its slot as a bit, where its connection attempt begins.
    fn start(&mut self, slot: u8) -> u64
        requires { slot < 64 }
        ensures moves { (l : Linked) → link_at self.old.links slot ≡ Some l → Moves slot l Start self.old self.new }
        ensures chosen { (l : Linked) → link_at self.old.links slot ≡ Some l → Chooses slot (effects_of Start l.peer.session).left self.old self.new }
        ensures opened { (l : Linked) → link_at self.old.links slot ≡ Some l → result ≡ (if (effects_of Start l.peer.session).opened then 2 ^ slot else 0) }
        ensures counted { self.new.chosen_before ≡ self.old.chosen_before }
        ensures rises { self.old.chosen ≤ self.new.chosen }
    {
        if self.input(slot, Input::Start) {
            return slot_bit(slot);
        }
        0
    }

    // A peer is removed: its session ends, and its slot is let go once no connection of it is still to be closed.
    fn remove_peer(&mut self, command: &Command<'_>, slot: u8)
        requires accepted { IsAccepted self.old.conf command.now }
        requires removes { command.now ≡ RemovesPeer slot }
        requires configured { IsSome (peer_at self.old.conf slot) }
        ensures removed { (config : TheConfig) (r : Run) → Holds config r self.old → self.old.chosen ≤ self.old.chosen_before
            → Holds config (turn (Command_call (RemovesPeer slot)) [] ∷ r) self.new }
        ensures counted { self.new.chosen_before ≡ self.old.chosen_before }
        ensures rises { self.old.chosen ≤ self.new.chosen }
    {
        self.input(slot, Input::Remove);
        self.forget(command, slot);
        self.let_go(slot);
    }

    // The peer of a slot whose session isn't Established is taken from the configuration, which takes no memory, and
    // what is left of its routes goes.
    fn forget(&mut self, command: &Command<'_>, slot: u8)
        requires accepted { IsAccepted self.old.conf command.now }
        requires removes { command.now ≡ RemovesPeer slot }
        requires down { (l : Linked) → link_at self.old.links slot ≡ Some l → is_established l.peer.session.state ≡ false }
        ensures forgets { Forgets slot self.old self.new }
        ensures rises { self.old.chosen ≤ self.new.chosen }
    {
        self.routes.remove_peer(command, slot);
    }

    fn add_peer(
        &mut self,
        command: &Command<'_>,
        slot: u8,
        conf: &PeerConf<'_>,
    ) -> Result<u64, AllocError>
        requires accepted { first_refusal self.old.conf (closing_for (tables_of self.old) command.now) command.now ≡ None }
        requires adds { command.now ≡ AddsPeer slot conf.now }
        ensures err { OnErr result (IsAsBefore self.old self.new) }
        ensures ok { IfOk result (λ opened. (config : TheConfig) (r : Run) → Holds config r self.old
            → Holds config (turn (Command_call command.now) [] ∷ r) self.new × (opened ≡ opened_commanded config r command.now)) }
        ensures counted { OnOk result (self.new.chosen_before ≡ self.old.chosen) }
        ensures rises { OnOk result (self.old.chosen ≤ self.new.chosen) }
    {
        let own = OwnOpen {
            asn: self.config.asn,
            hold_time: conf.hold,
            identifier: self.config.identifier,
            multiprotocol: self.config.multiprotocol,
        };
        let times = self.config.timers.of(slot);
        self.routes
            .add_peer(&self.alloc, command, slot, conf, own, times)?;
        self.begin_count();
        Ok(0)
    }
}
