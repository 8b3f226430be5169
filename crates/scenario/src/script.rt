//! Playing a script, line by line or whole.
ghost use Rattle.std.specs.Prelude.{◌≤◌, IfErr};
ghost use Rattle.scenario.specs.LineNumbers.{IsOutside, NamesLine, CountsFromOne};

use crate::answer::{Answer, Starved, write_answer};
use crate::cache::ScriptCache;
use crate::line::{CacheLine, Line, SpeakerLine};
use crate::reading::{ascii_text, is_passed_over, is_want_of_memory, read_line, without_line_end};
use crate::tables::show;
use command_lines::LineFault;
use decision::Book;
use live_book::LiveBook;
use rtr_cache::Cache;
use rtr_codec::Intervals;
use speaker::{Config, Event, Report, Speaker};
use std::alloc::{AllocError, Allocator, Global};
use std::io::{self, BufRead, Write};
use thiserror::Error;

/// The most octets that one `take` or `ctake` hands out: as many as a ring holds.
const MAX_TAKE: usize = 65_536;

/// What ends a run before the end of its script.
#[derive(Clone, Copy, Debug, PartialEq, Eq, Error)]
pub enum PlayFault {
    /// The line of this number, counted from 1, is no line of the language or comes before the line that it needs.
    #[error("line {0}: bad line")]
    BadLine(u64),
    /// The script can't be read, or the answers can't be written.
    #[error("device")]
    Device,
    /// There is no memory for a line.
    #[error("no memory")]
    NoMemory,
}

impl From<AllocError> for PlayFault {
    ghost from_gives = { λ _ fault. IsOutside fault };

    fn from(_error: AllocError) -> PlayFault {
        PlayFault::NoMemory
    }
}

impl From<io::Error> for PlayFault {
    ghost from_gives = { λ _ fault. IsOutside fault };

    fn from(error: io::Error) -> PlayFault {
        if is_want_of_memory(&error) {
            PlayFault::NoMemory
        } else {
            PlayFault::Device
        }
    }
}

/// Plays a script, over a speaker with such a book: answers each line before the next one is read.
pub fn play<B: Book<Global>, R: BufRead + Drop, W: Write>(
    alloc: Global,
    mut reader: R,
    writer: &mut W,
) -> Result<(), PlayFault>
    ensures { IfErr result CountsFromOne }
{
    let mut stage = Stage::<Global, B>::new(alloc, alloc)?;
    let mut text = Vec::new(alloc);
    play_lines(&mut reader, &mut stage, &mut text, writer)
}

// Plays the lines, each read into the text.
fn play_lines<B: Book<Global>, R: BufRead + Drop, W: Write>(
    reader: &mut R,
    stage: &mut Stage<Global, B>,
    text: &mut Vec<u8>,
    writer: &mut W,
) -> Result<(), PlayFault>
    ensures { IfErr result CountsFromOne }
{
    for number in 1..u64::MAX {
        if !read_line(reader, text)? {
            return stage.end();
        }
        stage.play_line(number, text.as_slice(), writer)?;
    }
    Err(PlayFault::Device)
}

/// What a script has made so far: its speaker and its cache, over a heap of their own, and room for what they hand out.
#[derive(Drop)]
pub struct Stage<A: Allocator + Clone = Global, B: Book<A> = LiveBook<A>> {
    alloc: Global,
    heap: A,
    speaker: Option<Speaker<A, B>>,
    cache: Option<ScriptCache<A>>,
    report: Report,
    taken: Vec<u8>,
}

impl<A: Allocator + Clone + Copy, B: Book<A>> Stage<A, B> {
    /// Nothing is made yet. What the speaker and the cache keep will be had from the heap.
    pub fn new(alloc: Global, heap: A) -> Result<Stage<A, B>, AllocError> {
        let taken = vec![in alloc; 0; MAX_TAKE]?;
        Ok(Stage {
            alloc,
            heap,
            speaker: None,
            cache: None,
            report: Report::NOTHING,
            taken,
        })
    }

    /// Plays the line of this number, and answers it.
    pub fn play_line<W: Write>(
        &mut self,
        number: u64,
        line: &[u8],
        writer: &mut W,
    ) -> Result<(), PlayFault>
        requires { 1 ≤ number }
        ensures { IfErr result (NamesLine number) }
    {
        let text = without_line_end(line);
        if let Some(cache) = &mut self.cache
            && cache.open_load().is_some()
        {
            match text {
                b"end" => cache.end_list(self.alloc, writer)?,
                _ => cache.add_line(line)?,
            }
            return Ok(());
        }
        if is_passed_over(line) {
            return Ok(());
        }
        let Some(text) = ascii_text(text) else {
            return Err(PlayFault::BadLine(number));
        };
        match Line::parse(self.alloc, text) {
            Ok(line) => self.hand_in(&line, number, writer),
            Err(LineFault::BadLine) => Err(PlayFault::BadLine(number)),
            Err(LineFault::NoMemory) => Err(PlayFault::NoMemory),
        }
    }

    /// The speaker, once a line has made it.
    pub fn speaker(&self) -> Option<&Speaker<A, B>> {
        self.speaker.as_ref()
    }

    /// What the speaker's last call reported, of which an answer says a part; nothing where it was refused.
    pub fn report(&self) -> Report {
        self.report
    }

    /// The cache, once a line has made it.
    pub fn cache(&self) -> Option<&Cache<A>> {
        match &self.cache {
            Some(cache) => Some(cache.cache()),
            None => None,
        }
    }

    fn hand_in<W: Write>(
        &mut self,
        line: &Line<'_>,
        number: u64,
        writer: &mut W,
    ) -> Result<(), PlayFault>
        requires { 1 ≤ number }
        ensures { IfErr result (NamesLine number) }
    {
        match line {
            Line::Speaker(config) => self.begin(*config, number, writer),
            Line::Drive(line) => self.drive(line, number, writer),
            Line::Cache(session, intervals) => self.new_cache(*session, *intervals, writer),
            Line::Load => self.open_list(number),
            Line::Serve(line) => self.serve(line, number, writer),
        }
    }

    fn begin<W: Write>(
        &mut self,
        config: Config,
        number: u64,
        writer: &mut W,
    ) -> Result<(), PlayFault>
        ensures { IfErr result (NamesLine number) }
    {
        if self.speaker.is_some() {
            return Err(PlayFault::BadLine(number));
        }
        let answer = self.new_speaker(config);
        write_answer(writer, answer)?;
        Ok(())
    }

    fn new_speaker(&mut self, config: Config) -> Answer<'static> {
        match Speaker::new(self.heap, config) {
            Ok(speaker) => {
                self.speaker = Some(speaker);
                Answer::Done(Starved::NOTHING)
            }
            Err(refusal) => Answer::Refused(refusal.number()),
        }
    }

    // A script ends within a list where its `load` has no `end`.
    fn end(&self) -> Result<(), PlayFault>
        ensures { IfErr result CountsFromOne }
    {
        let Some(cache) = &self.cache else {
            return Ok(());
        };
        match cache.open_load() {
            Some(load) => Err(PlayFault::BadLine(load)),
            None => Ok(()),
        }
    }

    // A new cache. The one before it is gone with its clients, unless the new one is refused.
    fn new_cache<W: Write>(
        &mut self,
        session: u16,
        intervals: Intervals,
        writer: &mut W,
    ) -> Result<(), PlayFault>
        ensures { IfErr result IsOutside }
    {
        let answer = match ScriptCache::new(self.heap, session, intervals) {
            Ok(cache) => {
                self.cache = Some(cache);
                Answer::Done(Starved::NOTHING)
            }
            Err(refusal) => Answer::Refused(refusal.number()),
        };
        write_answer(writer, answer)?;
        Ok(())
    }

    fn open_list(&mut self, number: u64) -> Result<(), PlayFault>
        requires { 1 ≤ number }
        ensures { IfErr result (NamesLine number) }
    {
        match &mut self.cache {
            Some(cache) => {
                cache.open_list(self.alloc, number);
                Ok(())
            }
            None => Err(PlayFault::BadLine(number)),
        }
    }

    fn serve<W: Write>(
        &mut self,
        line: &CacheLine,
        number: u64,
        writer: &mut W,
    ) -> Result<(), PlayFault>
        ensures { IfErr result (NamesLine number) }
    {
        let Some(cache) = &mut self.cache else {
            return Err(PlayFault::BadLine(number));
        };
        cache.serve(line, self.taken.as_mut_slice(), writer)?;
        Ok(())
    }

    fn drive<W: Write>(
        &mut self,
        line: &SpeakerLine<'_>,
        number: u64,
        writer: &mut W,
    ) -> Result<(), PlayFault>
        ensures { IfErr result (NamesLine number) }
    {
        let Some(speaker) = &mut self.speaker else {
            return Err(PlayFault::BadLine(number));
        };
        let room = self.taken.as_mut_slice();
        drive(speaker, line, room, &mut self.report, writer)?;
        Ok(())
    }
}

// Hands in a line for the speaker, and answers it.
fn drive<A: Allocator + Clone, B: Book<A>, W: Write>(
    speaker: &mut Speaker<A, B>,
    line: &SpeakerLine<'_>,
    room: &mut [u8],
    report: &mut Report,
    writer: &mut W,
) -> io::Result<()> {
    match line {
        SpeakerLine::Take(slot, max) => {
            write_answer(writer, take(speaker, *slot, *max, room, report))
        }
        SpeakerLine::CacheTake(max) => write_answer(writer, take_cache(speaker, *max, room)),
        SpeakerLine::Show(table) => show(speaker, *table, writer),
        line => write_answer(writer, hand_on(speaker, line, report)),
    }
}

// Hands in the event of a line; one that takes or shows has none.
fn hand_on<A: Allocator + Clone, B: Book<A>>(
    speaker: &mut Speaker<A, B>,
    line: &SpeakerLine<'_>,
    report: &mut Report,
) -> Answer<'static> {
    match line {
        SpeakerLine::Obey(line) => step(speaker, Event::Command(line.command()), report),
        SpeakerLine::Up(slot) => step(speaker, Event::Up(*slot), report),
        SpeakerLine::Fail(slot) => step(speaker, Event::Fail(*slot), report),
        SpeakerLine::Bytes(slot, octets) => {
            step(speaker, Event::Bytes(*slot, octets.as_slice()), report)
        }
        SpeakerLine::CacheUp => step(speaker, Event::CacheUp, report),
        SpeakerLine::CacheFail => step(speaker, Event::CacheFail, report),
        SpeakerLine::CacheBytes(octets) => {
            step(speaker, Event::CacheBytes(octets.as_slice()), report)
        }
        SpeakerLine::Tick(seconds) => step(speaker, Event::Tick(*seconds), report),
        SpeakerLine::CacheTake(_) | SpeakerLine::Take(..) | SpeakerLine::Show(_) => {
            Answer::Done(Starved::NOTHING)
        }
    }
}

fn step<A: Allocator + Clone, B: Book<A>>(
    speaker: &mut Speaker<A, B>,
    event: Event<'_>,
    report: &mut Report,
) -> Answer<'static> {
    match speaker.step(event) {
        Ok(told) => {
            *report = told;
            Answer::Done(Starved::of(&told))
        }
        Err(refusal) => {
            *report = Report::NOTHING;
            Answer::Refused(refusal.number())
        }
    }
}

// Hands out at most `max` octets, and no more than there is room for.
fn take<'a, A: Allocator + Clone, B: Book<A>>(
    speaker: &mut Speaker<A, B>,
    slot: u8,
    max: u32,
    room: &'a mut [u8],
    report: &mut Report,
) -> Answer<'a> {
    let most = room.len().min(max as usize);
    match speaker.take(slot, &mut room[..most]) {
        Ok((count, told)) => {
            *report = told;
            Answer::Out(&room[..count.min(room.len())], Starved::of(&told))
        }
        Err(refusal) => {
            *report = Report::NOTHING;
            Answer::Refused(refusal.number())
        }
    }
}

// The same of the ring of the cache session.
fn take_cache<'a, A: Allocator + Clone, B: Book<A>>(
    speaker: &mut Speaker<A, B>,
    max: u32,
    room: &'a mut [u8],
) -> Answer<'a> {
    let most = room.len().min(max as usize);
    let count = speaker.take_cache(&mut room[..most]);
    Answer::Out(&room[..count.min(room.len())], Starved::NOTHING)
}
