//! A stage, as what plays.

use decision::Book;
use net_prefix::Transport;
use paired_plays::{Call, Fault, Opened, Play, Table};
use scenario::{PlayFault, Stage, show};
use speaker::Report;
use std::alloc::{AllocError, Allocator, Global};
use std::io;

/// A stage whose speaker and cache are made over a heap of their own.
#[derive(Drop)]
pub struct Staged<A: Allocator + Clone, B: Book<A>> {
    stage: Stage<A, B>,
}

impl<A: Allocator + Clone + Copy, B: Book<A>> Staged<A, B> {
    /// Nothing is made yet.
    pub fn new(alloc: Global, heap: A) -> Result<Self, AllocError> {
        let stage = Stage::new(alloc, heap)?;
        Ok(Staged { stage })
    }
}

impl<A: Allocator + Clone + Copy, B: Book<A>> Play for Staged<A, B> {
    fn play_line(&mut self, line: Call<'_>, text: &mut Vec<u8>) -> Result<(), Fault> {
        match self.stage.play_line(line.number, line.text, text) {
            Ok(()) => Ok(()),
            Err(fault) => Err(fault_of(fault)),
        }
    }

    fn has_speaker(&self) -> bool {
        self.stage.speaker().is_some()
    }

    fn has_cache(&self) -> bool {
        self.stage.cache().is_some()
    }

    fn opened(&self) -> Opened {
        opened_in(self.stage.report())
    }

    fn chosen(&self) -> u64 {
        match self.stage.speaker() {
            Some(speaker) => speaker.chosen(),
            None => 0,
        }
    }

    fn transport(&self, slot: u8) -> Transport {
        match self.stage.speaker() {
            Some(speaker) => speaker.transport(slot),
            None => Transport::None,
        }
    }

    fn cache_transport(&self) -> Transport {
        match self.stage.speaker() {
            Some(speaker) => speaker.cache_transport(),
            None => Transport::None,
        }
    }

    fn client_transport(&self, key: u64) -> Transport {
        match self.stage.cache() {
            Some(cache) => cache.transport(key),
            None => Transport::None,
        }
    }

    fn show(&self, table: Table, text: &mut Vec<u8>) -> io::Result<()> {
        match self.stage.speaker() {
            Some(speaker) => show(speaker, shown(table), text),
            None => Ok(()),
        }
    }
}

fn fault_of(fault: PlayFault) -> Fault {
    match fault {
        PlayFault::BadLine(number) => Fault::BadLine(number),
        PlayFault::Device | PlayFault::NoMemory => Fault::Device,
    }
}

fn opened_in(report: Report) -> Opened {
    Opened {
        slots: report.opened,
        cache: report.cache_opened,
    }
}

fn shown(table: Table) -> scenario::Table {
    match table {
        Table::Sessions => scenario::Table::Sessions,
        Table::Rib => scenario::Table::Rib,
        Table::Payloads => scenario::Table::Payloads,
        Table::In(slot) => scenario::Table::In(slot),
        Table::Held(slot) => scenario::Table::Held(slot),
        Table::Waiting(slot) => scenario::Table::Waiting(slot),
    }
}
