//! What happens to one slot: its operator enables it, its connection stands or fails, octets come.
ghost use Rattle.std.specs.Option.{IsSome};
ghost use Rattle.std.specs.Prelude.{◌≡◌, ◌≢◌, ◌≤◌, ◌<◌, [], ◌∷◌, length, take, OnOk, OnErr, IfOk, ◌&&◌, ◌==◌, None, Some, true, false};
ghost use Rattle.bgp_conf.specs.Configuration.{peer_at};
ghost use Rattle.bgp_conf.specs.declared.conf.ConfiguredPeer.{ConfiguredPeer as ThePeer};
ghost use Rattle.bgp_fsm.specs.SessionTable.{effects_of};
ghost use Rattle.bgp_fsm.specs.declared.input.Input.TheVariants.{NoMemory};
ghost use Rattle.bgp_msg.specs.MessageStream.{meaning};
ghost use Rattle.routing.specs.Chosen.{Ends};
ghost use Rattle.speaker.specs.Chosen.{Chooses};
ghost use Rattle.routing.specs.Heard.{TakesMemoryAt};
ghost use Rattle.speaker.specs.Moves.{Moves, Pushes, TakesItem, IsWithout};
ghost use Rattle.routing.specs.Linked.{taken_of, Linked};
ghost use Rattle.bgp_peer.specs.SessionInputs.{kind_of};
ghost use Rattle.runs.specs.Runs.{terms_in, Run, Fail_call, turn};
ghost use Rattle.runs.specs.Agreement.{Hears, HearsUntil, Holds};
ghost use Rattle.routing.specs.Tables.{link_at, session_at};
ghost use Rattle.runs.specs.FirstRefusal.{closes};
ghost use Rattle.runs.specs.declared.config.Config.{Config as TheConfig};

use crate::step::Speaker;
use arrayvec::ArrayVec;
use bgp_attr::PeerKind;
use bgp_fsm::Input;
use bgp_msg::Expected;
use decision::Book;
use routing::{Octets, Standard};
use std::alloc::{AllocError, Allocator};

impl<A: Allocator + Clone, B: Book<A>> Speaker<A, B> {
    /// A slot's session takes an input. Where it leaves Established, its routes go. Answers whether its connection
    /// attempt begins.
    pub(crate) fn input(&mut self, slot: u8, input: Input<'_>) -> bool
        ensures moves { (l : Linked) → link_at self.old.links slot ≡ Some l → Moves slot l input.entry self.old self.new }
        ensures chosen { (l : Linked) → link_at self.old.links slot ≡ Some l → Chooses slot (effects_of input.entry l.peer.session).left self.old self.new }
        ensures opened { (l : Linked) → link_at self.old.links slot ≡ Some l → result ≡ (effects_of input.entry l.peer.session).opened }
        ensures none { link_at self.old.links slot ≡ None → self.new ≡ self.old }
        ensures counted { self.new.chosen_before ≡ self.old.chosen_before }
        ensures rises { self.old.chosen ≤ self.new.chosen }
    {
        self.routes.input(slot, input, self.moment)
    }

    /// The slot's connection, or its attempt at one, has failed. A slot without a peer is let go.
    pub(crate) fn fail(&mut self, slot: u8)
        ensures fails { (config : TheConfig) (r : Run) (l : Linked) → Holds config r self.old → link_at self.old.links slot ≡ Some l → self.old.chosen ≤ self.old.chosen_before
            → Holds config (turn (Fail_call slot) [] ∷ r) self.new }
        ensures counted { self.new.chosen_before ≡ self.old.chosen_before }
        ensures rises { self.old.chosen ≤ self.new.chosen }
    {
        self.input(slot, Input::Fail);
        self.let_go(slot);
    }

    // A slot without a peer is let go, unless its connection is still to be closed.
    pub(crate) fn let_go(&mut self, slot: u8)
        ensures kept { IsSome (peer_at self.old.conf slot) → self.new ≡ self.old }
        ensures closing { closes (session_at self.old.links slot) ≡ true → self.new ≡ self.old }
        ensures gone { peer_at self.old.conf slot ≡ None → closes (session_at self.old.links slot) ≡ false → IsWithout slot self.old self.new }
        ensures counted { self.new.chosen_before ≡ self.old.chosen_before }
        ensures chosen { self.new.chosen ≡ self.old.chosen }
    {
        if self.routes.conf().peer(slot).is_some() {
            return;
        }
        if self.is_closing(slot) {
            return;
        }
        self.routes.let_go(slot);
    }

    // Takes octets that come, message by message. What comes after the session has closed is dropped. Where memory is
    // refused to a message, it is dropped, and the session is closed.
    pub(crate) fn hear(&mut self, slot: u8, octets: &[u8]) -> Result<(), AllocError>
        ensures heard { OnOk result (Hears slot octets.now self.old self.new) }
        ensures starved { OnErr result (HearsUntil slot octets.now self.old self.new) }
        ensures within { OnErr result (slot < 64) }
        ensures counted { self.new.chosen_before ≡ self.old.chosen_before }
        ensures rises { self.old.chosen ≤ self.new.chosen }
    {
        let mut room = ArrayVec::new();
        let mut rest = octets;
        while !rest.is_empty() {
            let taken = self.hear_front(slot, rest, &mut room)?;
            if taken == 0 {
                return Ok(());
            }
            let (_, behind) = rest.split_at(taken);
            rest = behind;
        }
        Ok(())
    }

    // Takes octets up to the end of the message at the front, and that message; answers how many.
    fn hear_front(
        &mut self,
        slot: u8,
        octets: &[u8],
        room: &mut Octets,
    ) -> Result<usize, AllocError>
        ensures within { IfOk result (λ taken. taken ≤ length octets.now) }
        ensures heard { IfOk result (λ taken. taken ≢ 0 → Hears slot (take taken octets.now) self.old self.new) }
        ensures shut { IfOk result (λ taken. taken ≡ 0 → 0 < length octets.now → Hears slot octets.now self.old self.new) }
        ensures starved { OnErr result (HearsUntil slot octets.now self.old self.new) }
        ensures slot { OnErr result (slot < 64) }
        ensures counted { self.new.chosen_before ≡ self.old.chosen_before }
        ensures rises { self.old.chosen ≤ self.new.chosen }
    {
        let taken = self.push(slot, octets);
        if taken == 0 {
            return Ok(0);
        }
        self.take_message(slot, room)?;
        Ok(taken)
    }

    // Takes octets up to the end of the message at the front of an open connection, and answers how many.
    fn push(&mut self, slot: u8, octets: &[u8]) -> usize
        ensures within { result ≤ length octets.now }
        ensures count { (l : Linked) → link_at self.old.links slot ≡ Some l → result ≡ taken_of l.peer octets.now }
        ensures pushes { (l : Linked) → link_at self.old.links slot ≡ Some l → Pushes slot l (take result octets.now) self.old self.new }
        ensures counted { self.new.chosen_before ≡ self.old.chosen_before }
        ensures rises { self.old.chosen ≤ self.new.chosen }
    {
        self.routes.push(slot, octets)
    }

    // Takes the message at the front of the slot's rest, if it is whole or its header is faulty. Where memory is refused
    // to it, nothing of it is taken, and the session is closed. What a NOTIFICATION shows of a faulty one is written to `room`.
    fn take_message(&mut self, slot: u8, room: &mut Octets) -> Result<(), AllocError>
        ensures taken { OnOk result ((l : Linked) (peer : ThePeer) → link_at self.old.links slot ≡ Some l → peer_at self.old.conf slot ≡ Some peer
            → TakesItem slot (terms_in self.old.config peer) l (meaning l.peer.rest) self.old self.new) }
        ensures starved { OnErr result ((l : Linked) (peer : ThePeer) → link_at self.old.links slot ≡ Some l → peer_at self.old.conf slot ≡ Some peer
            → TakesMemoryAt (kind_of (terms_in self.old.config peer)) l × Moves slot l NoMemory self.old self.new × Ends slot self.old.adj_in self.old.chosen self.new.chosen) }
        ensures counted { self.new.chosen_before ≡ self.old.chosen_before }
        ensures rises { self.old.chosen ≤ self.new.chosen }
        ensures within { OnErr result (slot < 64) }
    {
        let Some(peer) = self.routes.conf().peer(slot) else {
            return Ok(());
        };
        let standard = Standard {
            kind: PeerKind::between(self.config.asn, peer.asn),
            expected: Expected {
                peer_asn: peer.asn,
                own_asn: self.config.asn,
                own_identifier: self.config.identifier,
            },
        };
        let heard = match self.routes.judge_front(&self.alloc, slot, standard, room) {
            Ok(heard) => heard,
            Err(refused) => {
                self.input(slot, Input::NoMemory);
                return Err(refused);
            }
        };
        if let Some(input) = heard {
            self.input(slot, input);
        }
        Ok(())
    }
}
