//! The cache of a script, and the list that is being handed in.
ghost use Rattle.std.specs.Prelude.{◌≤◌, IfSome};

use crate::answer::{Answer, Starved, write_answer};
use crate::line::CacheLine;
use rtr_cache::{Cache, CacheEvent, CacheRefusal, CacheReport};
use rtr_codec::Intervals;
use std::alloc::{AllocError, Allocator, Global};
use std::io::{self, Write};
use vrp_csv::{Loaded, read_list};

// The lines behind a `load`, and the number of the `load` line.
#[derive(Drop)]
struct OpenList {
    load: u64,
    text: Vec<u8>,
    ghost counted: { 1 ≤ load },
}

/// A cache, and the list that is being handed in to it.
#[derive(Drop)]
pub struct ScriptCache<A: Allocator = Global> {
    cache: Cache<A>,
    list: Option<OpenList>,
}

impl<A: Allocator + Clone> ScriptCache<A> {
    /// A cache without versions and clients, over this heap.
    pub fn new(
        heap: A,
        session: u16,
        intervals: Intervals,
    ) -> Result<ScriptCache<A>, CacheRefusal> {
        let cache = Cache::new(heap, session, intervals)?;
        Ok(ScriptCache { cache, list: None })
    }

    /// The cache itself.
    pub fn cache(&self) -> &Cache<A> {
        &self.cache
    }

    /// The lines from here on are those of a list.
    pub fn open_list(&mut self, alloc: Global, load: u64)
        requires { 1 ≤ load }
    {
        self.list = Some(OpenList {
            load,
            text: Vec::new(alloc),
        });
    }

    /// The number of the `load` line whose list is open.
    pub fn open_load(&self) -> Option<u64>
        ensures { IfSome result (λ load. 1 ≤ load) }
    {
        match &self.list {
            Some(list) => Some(list.load),
            None => None,
        }
    }

    /// Takes in a line of the open list as it is.
    pub fn add_line(&mut self, line: &[u8]) -> Result<(), AllocError> {
        match &mut self.list {
            Some(list) => list.text.extend_from_slice(line),
            None => Ok(()),
        }
    }

    /// The open list is whole, and is loaded.
    pub fn end_list<W: Write>(&mut self, alloc: Global, writer: &mut W) -> io::Result<()> {
        match self.list.take() {
            Some(list) => self.load(alloc, list.text.as_slice(), writer),
            None => Ok(()),
        }
    }

    // Reads the list and publishes its payloads, or says why not.
    fn load<W: Write>(&mut self, alloc: Global, text: &[u8], writer: &mut W) -> io::Result<()> {
        let answer = match read_list(alloc, text) {
            Ok(loaded) => self.publish(&loaded),
            Err(fault) => Answer::RefusedRow(fault.number(), fault.row()),
        };
        write_answer(writer, answer)
    }

    fn publish(&mut self, loaded: &Loaded) -> Answer<'static> {
        match self.cache.step(CacheEvent::Load(&loaded.set)) {
            Ok(report) => Answer::Loaded {
                serial: report.serial.unwrap_or(0),
                rows: loaded.rows,
                skipped: loaded.skipped,
            },
            Err(refusal) => Answer::Refused(refusal.number()),
        }
    }

    /// Hands in a line for the cache, and answers it.
    pub fn serve<W: Write>(
        &mut self,
        line: &CacheLine,
        room: &mut [u8],
        writer: &mut W,
    ) -> io::Result<()> {
        match line {
            CacheLine::Up => write_answer(writer, self.step(CacheEvent::Up)),
            CacheLine::Down(key) => {
                write_answer(writer, self.step(CacheEvent::Down(u64::from(*key))))
            }
            CacheLine::Bytes(key, octets) => {
                let event = CacheEvent::Bytes(u64::from(*key), octets.as_slice());
                write_answer(writer, self.step(event))
            }
            CacheLine::Tick(seconds) => {
                write_answer(writer, self.step(CacheEvent::Tick(*seconds)))
            }
            CacheLine::Take(key, max) => write_answer(writer, self.take(*key, *max, room)),
        }
    }

    fn step(&mut self, event: CacheEvent<'_>) -> Answer<'static> {
        match self.cache.step(event) {
            Ok(
                CacheReport {
                    client: Some(key),
                    ..
                },
            ) => Answer::Client(key),
            Ok(_) => Answer::Done(Starved::NOTHING),
            Err(refusal) => Answer::Refused(refusal.number()),
        }
    }

    // Hands out at most `max` octets, and no more than there is room for.
    fn take<'a>(&mut self, key: u32, max: u32, room: &'a mut [u8]) -> Answer<'a> {
        let most = room.len().min(max as usize);
        match self.cache.take(u64::from(key), &mut room[..most]) {
            Ok(count) => Answer::Out(&room[..count.min(room.len())], Starved::NOTHING),
            Err(refusal) => Answer::Refused(refusal.number()),
        }
    }
}
