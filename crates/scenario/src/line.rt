//! The lines of a script.
ghost use Rattle.std.specs.Prelude.{◌≡◌, IfOk, IfSome, map};
ghost use Rattle.command_lines.specs.Words.{words_in};
ghost use Rattle.scenario.specs.ScriptLines.{IsNoCommand, SaysItsCommand};
ghost use Rattle.scenario.specs.declared.line.Line.TheVariants.{Drive};

use command_lines::{CommandLine, LineFault, address, number, words_of};
use hex::FromHexError;
use net_prefix::Asn;
use rtr_codec::Intervals;
use speaker::{CACHE_RETRY_SECONDS, Config, SlotTimers};
use std::alloc::Global;

/// A line of a script. Its words are separated by single spaces.
#[derive(Drop)]
pub enum Line<'a> {
    /// `speaker AS IDENTIFIER cache|nocache`, and `multiprotocol` behind it or not
    Speaker(Config),
    /// A line for the speaker.
    Drive(SpeakerLine<'a>),
    /// `cache SESSION REFRESH RETRY EXPIRE`
    Cache(u16, Intervals),
    /// `load`
    Load,
    /// A line for the cache.
    Serve(CacheLine),
}

/// A line that a speaker answers.
#[derive(Drop)]
pub enum SpeakerLine<'a> {
    /// A line of a file of commands
    Obey(CommandLine<'a>),
    /// `up SLOT`
    Up(u8),
    /// `fail SLOT`
    Fail(u8),
    /// `bytes SLOT HEX`
    Bytes(u8, Vec<u8>),
    /// `rup`
    CacheUp,
    /// `rfail`
    CacheFail,
    /// `rbytes HEX`
    CacheBytes(Vec<u8>),
    /// `rtake MAX`
    CacheTake(u32),
    /// `tick SECONDS`
    Tick(u64),
    /// `take SLOT MAX`
    Take(u8, u32),
    /// `show TABLE`
    Show(Table),
}

/// A line that a cache answers. A client has a key.
#[derive(Drop)]
pub enum CacheLine {
    /// `cup`
    Up,
    /// `cdown KEY`
    Down(u32),
    /// `cbytes KEY HEX`
    Bytes(u32, Vec<u8>),
    /// `ctick SECONDS`
    Tick(u64),
    /// `ctake KEY MAX`
    Take(u32, u32),
}

/// What `show` shows: `sessions`, `rib`, `payloads`, `in SLOT`, `held SLOT` or `waiting SLOT`.
#[derive(Clone, Copy)]
pub enum Table {
    Sessions,
    Rib,
    Payloads,
    In(u8),
    Held(u8),
    Waiting(u8),
}

impl Line<'_> {
    /// The line that this text is.
    pub fn parse(alloc: Global, text: &str) -> Result<Line<'_>, LineFault>
        ensures { IfOk result (SaysItsCommand (words_in text.now)) }
    {
        let words = words_of(alloc, text)?;
        line_with_octets(alloc, words.as_slice())
    }
}

// The line that these words are.
fn line_with_octets<'a>(alloc: Global, words: &[&'a str]) -> Result<Line<'a>, LineFault>
    ensures { IfOk result (SaysItsCommand (map (λ word. word.now) words.now)) }
{
    match words {
        ["bytes", slot, hex] => {
            let slot = number(slot).ok_or(LineFault::BadLine)?;
            Ok(Line::Drive(SpeakerLine::Bytes(slot, octets(alloc, hex)?)))
        }
        ["rbytes", hex] => Ok(Line::Drive(SpeakerLine::CacheBytes(octets(alloc, hex)?))),
        ["cbytes", key, hex] => {
            let key = number(key).ok_or(LineFault::BadLine)?;
            Ok(Line::Serve(CacheLine::Bytes(key, octets(alloc, hex)?)))
        }
        words => other_line(alloc, words),
    }
}

// A line without octets: one of a script's own, or one that commands.
fn other_line<'a>(alloc: Global, words: &[&'a str]) -> Result<Line<'a>, LineFault>
    ensures { IfOk result (SaysItsCommand (map (λ word. word.now) words.now)) }
{
    if let Some(line) = line_of(words) {
        return Ok(line);
    }
    Ok(Line::Drive(SpeakerLine::Obey(CommandLine::of(alloc, words)?)))
}

fn octets(alloc: Global, hex: &str) -> Result<Vec<u8>, LineFault> {
    if hex.is_empty() {
        return Err(LineFault::BadLine);
    }
    match hex::decode(alloc, hex) {
        Ok(octets) => Ok(octets),
        Err(FromHexError::OutOfMemory) => Err(LineFault::NoMemory),
        Err(_) => Err(LineFault::BadLine),
    }
}

// A line that is a script's own.
fn line_of<'a>(words: &[&'a str]) -> Option<Line<'a>>
    ensures { IfSome result IsNoCommand }
{
    match speaker_line(words) {
        Some(line) => Some(Line::Drive(line)),
        None => stage_line(words),
    }
}

// A line that makes a speaker or a cache, or is one for the cache.
fn stage_line<'a>(words: &[&'a str]) -> Option<Line<'a>>
    ensures { IfSome result IsNoCommand }
{
    let line = match words {
        ["speaker", asn, identifier, cache] => {
            Line::Speaker(config_of(asn, identifier, cache, false)?)
        }
        ["speaker", asn, identifier, cache, "multiprotocol"] => {
            Line::Speaker(config_of(asn, identifier, cache, true)?)
        }
        ["cache", session, refresh, retry, expire] => Line::Cache(
            number(session)?,
            Intervals {
                refresh: number(refresh)?,
                retry: number(retry)?,
                expire: number(expire)?,
            },
        ),
        ["load"] => Line::Load,
        ["cup"] => Line::Serve(CacheLine::Up),
        ["cdown", key] => Line::Serve(CacheLine::Down(number(key)?)),
        ["ctick", seconds] => Line::Serve(CacheLine::Tick(number(seconds)?)),
        ["ctake", key, max] => Line::Serve(CacheLine::Take(number(key)?, number(max)?)),
        _ => return None,
    };
    Some(line)
}

fn speaker_line<'a>(words: &[&'a str]) -> Option<SpeakerLine<'a>>
    ensures { IfSome result (λ line. IsNoCommand (Drive line)) }
{
    let line = match words {
        ["up", slot] => SpeakerLine::Up(number(slot)?),
        ["fail", slot] => SpeakerLine::Fail(number(slot)?),
        ["rup"] => SpeakerLine::CacheUp,
        ["rfail"] => SpeakerLine::CacheFail,
        ["rtake", max] => SpeakerLine::CacheTake(number(max)?),
        ["tick", seconds] => SpeakerLine::Tick(number(seconds)?),
        ["take", slot, max] => SpeakerLine::Take(number(slot)?, number(max)?),
        ["show", words @ ..] => SpeakerLine::Show(table_of(words)?),
        _ => return None,
    };
    Some(line)
}

fn config_of(asn: &str, identifier: &str, cache: &str, multiprotocol: bool) -> Option<Config> {
    Some(Config {
        asn: Asn(number(asn)?),
        identifier: address(identifier)?,
        cache: cache_word(cache)?,
        cache_retry: CACHE_RETRY_SECONDS,
        multiprotocol,
        timers: SlotTimers::USUAL,
    })
}

// Whether a speaker has a cache session.
fn cache_word(text: &str) -> Option<bool> {
    match text {
        "cache" => Some(true),
        "nocache" => Some(false),
        _ => None,
    }
}

fn table_of(words: &[&str]) -> Option<Table> {
    let table = match words {
        ["sessions"] => Table::Sessions,
        ["rib"] => Table::Rib,
        ["payloads"] => Table::Payloads,
        ["in", slot] => Table::In(number(slot)?),
        ["held", slot] => Table::Held(number(slot)?),
        ["waiting", slot] => Table::Waiting(number(slot)?),
        _ => return None,
    };
    Some(table)
}
