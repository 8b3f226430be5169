//! The log of the turns, and the figures of scrapers.
ghost use Rattle.std.specs.Prelude.{◌≡◌, IfErr, IfOk, false};
ghost use Rattle.speaker_program.specs.declared.fault.SpeakerFault.TheVariants.{NoMemory};

use crate::behind::Behind;
use crate::fault::SpeakerFault;
use crate::settled::settled;
use crate::standing::{payload_count, route_count, standing_of};
use bgp_conf::Command;
use command_lines::CommandLine;
use decision::Book;
use log_lines::Onlooker;
use scrapers::Scrapers;
use speaker::Speaker;
use speaker_desk::{Exchange, Note};
use speaker_log::{Asked, Journal};
use speaker_settings::SpeakerSettings;
use speaker_turns::SpeakerLoop;
use speaker_warnings::warn;
use speaker_watch::Watch;
use std::alloc::Global;
use std::io::Write;
use std::net::{IpAddr, Ipv4Addr, SocketAddr};
use std::rt::Clock;
use std::str;
use watched_wires::Watched;
use wires::Wire;

// BGP's port (RFC 4271 section 8.2.1).
const BGP_PORT: u16 = 179;

/// The log of a loop of turns, and its scrapers.
#[derive(Drop)]
pub(crate) struct LoopJournal<'a, S> {
    alloc: Global,
    journal: Journal,
    exchange: &'a Exchange,
    watch: Watch<S>,
}

impl<'a, S: Scrapers + Drop> LoopJournal<'a, S> {
    /// The log that the settings ask for, before the first turn, and these scrapers, if there may be any. It is told where the
    /// wire listens, where scrapers connect, and which peers nothing enables.
    pub fn begin<R: Clock, W: Wire + Watched + Drop, B: Book<Global>, O: Write>(
        rt: &R,
        alloc: Global,
        settings: &SpeakerSettings,
        served: &SpeakerLoop<W, Global, B>,
        exchange: &'a Exchange,
        watch: Watch<S>,
        output: &mut O,
    ) -> Result<LoopJournal<'a, S>, SpeakerFault>
        ensures on { IfOk result (λ journal. journal.journal.is_on ≡ settings.now.log) }
        ensures memory { IfErr result (λ fault. fault ≡ NoMemory) }
        ensures quiet { settings.now.log ≡ false → output.new ≡ output.old }
    {
        let peers = settings.peers.as_slice();
        let journal = Journal::new(alloc, settings.log, settings.status, peers, settings.cache)?;
        tell_listening(rt, &journal, served.wire().listens(), output);
        tell_metrics(rt, &journal, watch.address(), output);
        journal.begins(rt, &Behind { served }, output);
        let conf = served.speaker().conf();
        warn(rt, settings.log, conf, settled(settings), output);
        Ok(LoopJournal {
            alloc,
            journal,
            exchange,
            watch,
        })
    }

    // What operators commanded since the turn before is told.
    fn tell_notes<R: Clock, O: Write>(&mut self, rt: &R, output: &mut O)
        ensures silent { self.old.journal.is_on ≡ false → output.new ≡ output.old }
        ensures same { self.new.journal.is_on ≡ self.old.journal.is_on }
    {
        let notes = self.exchange.take();
        for note in notes.as_slice() {
            self.learn(note);
            let asked = Asked {
                line: note.line.as_slice(),
                answer: note.answer.as_slice(),
            };
            self.journal.answered(rt, &asked, output);
        }
    }

    // Where a peer is that was added.
    fn learn(&mut self, note: &Note)
        ensures { self.new.journal.is_on ≡ self.old.journal.is_on }
    {
        if let Some((slot, remote)) = added_by(self.alloc, note) {
            self.journal.place(slot, remote);
        }
    }

    // Scrapers who wait are told how the loop stands.
    fn attend<W: Wire + Watched + Drop, B: Book<Global>>(
        &mut self,
        served: &SpeakerLoop<W, Global, B>,
        now: u64,
    )
        ensures { self.new.journal ≡ self.old.journal }
    {
        if !self.watch.turn(now, served.wire().seen()) {
            return;
        }
        self.count_due(served.speaker(), now);
        self.watch.tell(self.alloc, &standing_of(served));
    }

    // Routes and payloads are counted again where that is due.
    fn count_due<B: Book<Global>>(&mut self, speaker: &Speaker<Global, B>, now: u64)
        ensures { self.new.journal ≡ self.old.journal }
    {
        if self.watch.counts().is_to_count(now) {
            self.watch
                .count(now, route_count(speaker), payload_count(speaker));
        }
    }
}

// It is told where the wire listens.
fn tell_listening<R: Clock, O: Write>(
    rt: &R,
    journal: &Journal,
    listens: Option<SocketAddr>,
    output: &mut O,
)
    ensures { journal.now.is_on ≡ false → output.new ≡ output.old }
{
    if let Some(address) = listens {
        journal.listens(rt, address, output);
    }
}

// And where scrapers connect.
fn tell_metrics<R: Clock, O: Write>(
    rt: &R,
    journal: &Journal,
    metrics: Option<SocketAddr>,
    output: &mut O,
)
    ensures { journal.now.is_on ≡ false → output.new ≡ output.old }
{
    if let Some(address) = metrics {
        journal.metrics(rt, address, output);
    }
}

// The slot of the peer that an operator added, and where it is if the settings don't place it: at its address and BGP's port.
fn added_by(alloc: Global, note: &Note) -> Option<(u8, SocketAddr)> {
    if !note.answer.starts_with(b"ok") {
        return None;
    }
    let text = str::from_utf8(note.line.as_slice()).ok()?;
    let line = CommandLine::parse(alloc, text).ok()?;
    match line.command() {
        Command::AddPeer(slot, peer) => {
            let address = IpAddr::V4(Ipv4Addr::from_bits(peer.address));
            Some((slot, SocketAddr::new(address, BGP_PORT)))
        }
        _ => None,
    }
}

impl<W: Wire + Watched + Drop, B: Book<Global>, S: Scrapers + Drop> Onlooker<
    SpeakerLoop<W, Global, B>,
> for LoopJournal<'_, S> {
    ghost writes = { λ journal. journal.journal.is_on };

    fn look<R: Clock, O: Write>(
        &mut self,
        rt: &R,
        value: &SpeakerLoop<W, Global, B>,
        now: u64,
        output: &mut O,
    ) {
        self.tell_notes(rt, output);
        self.journal
            .tell(rt, &Behind { served: value }, now, output);
        self.attend(value, now);
    }
}
