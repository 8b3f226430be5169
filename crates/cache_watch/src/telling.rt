//! What the log says when, and what scrapers are told.
ghost use Rattle.std.specs.Prelude.{◌≡◌, ◌-◌, None, false};
ghost use Rattle.vrp_json.specs.declared.written.Written.TheVariants.{Unread};

use crate::journal::{AtPath, LogLine};
use crate::reread::{ListFault, Reread};
use crate::watched::Watched;
use cache_figures::CacheFigures;
use list_guards::ListAge;
use log_limits::LineLimit;
use log_lines::log;
use net_wires::RouterEvent;
use payload_sources::SourceFault;
use scrapers::Scrapers;
use std::fs;
use std::io::{self, Write};
use std::rt::{Clock, Files};
use std::time::SystemTime;
use vrp_json::Written;

/// Writes to the log where the cache listens: of port 0 the one that it was given.
pub fn tell_listening<R: Clock, W: Watched, O: Write>(rt: &R, is_on: bool, wire: &W, output: &mut O)
    ensures { is_on ≡ false → output.new ≡ output.old }
{
    if let Some(address) = wire.listens() {
        log(rt, is_on, output, &LogLine::Listens(address));
    }
}

/// The same of where scrapers connect.
pub fn tell_metrics<R: Clock, P: Scrapers, O: Write>(
    rt: &R,
    is_on: bool,
    scrapers: &P,
    output: &mut O,
)
    ensures { is_on ≡ false → output.new ≡ output.old }
{
    if let Some(address) = scrapers.address() {
        log(rt, is_on, output, &LogLine::Metrics(address));
    }
}

/// Writes to the log what reading the list again has led to; where a file changed meanwhile, with its path.
pub fn tell_list<R: Clock, O: Write>(
    rt: &R,
    is_on: bool,
    led: Reread,
    payloads: usize,
    path: &str,
    output: &mut O,
)
    ensures { is_on ≡ false → output.new ≡ output.old }
{
    match led {
        Reread::Refused(why) => tell_refused(rt, is_on, why, path, output),
        Reread::Same | Reread::Unchanged => {}
        Reread::Published(serial) => {
            log(rt, is_on, output, &LogLine::Loaded { serial, payloads });
        }
    }
}

fn tell_refused<R: Clock, O: Write>(rt: &R, is_on: bool, why: ListFault, path: &str, output: &mut O)
    ensures { is_on ≡ false → output.new ≡ output.old }
{
    let file = why.file();
    let line = LogLine::Refused { file, why };
    match why {
        ListFault::Source(SourceFault::Changed(_)) => {
            log(rt, is_on, output, &AtPath { path, line });
        }
        _ => log(rt, is_on, output, &line),
    }
}

/// How many lines a minute tell that routers came and went (own choice).
pub const ROUTER_LINES: u32 = 300;

/// Writes what the last turn saw of routers to the log. Where more come and go in a minute than are told, the log gets their
/// number when it is over.
pub fn tell_routers<R: Clock, W: Watched, O: Write>(
    rt: &R,
    is_on: bool,
    wire: &W,
    now: u64,
    limit: &mut LineLimit,
    output: &mut O,
)
    ensures { is_on ≡ false → output.new ≡ output.old }
{
    if !is_on {
        return;
    }
    if let Some(lines) = limit.tick(now) {
        let most = ROUTER_LINES;
        log(rt, is_on, output, &LogLine::LeftOut { lines, most });
    }
    for event in wire.seen() {
        if matches!(event, RouterEvent::NoDescriptors) || limit.admits() {
            log(rt, is_on, output, &LogLine::Router(*event));
        }
    }
}

/// Writes what is served, and what routers hold, to the log, with how many seconds ago the list was written, if that
/// can be told; and warns where that is more than this.
pub fn tell_status<R: Clock, O: Write>(
    rt: &R,
    is_on: bool,
    figures: CacheFigures,
    age: Option<u64>,
    most: Option<u32>,
    output: &mut O,
)
    ensures { is_on ≡ false → output.new ≡ output.old }
{
    let seconds = figures.read;
    let status = LogLine::Status {
        figures,
        age: ListAge(age),
        seconds,
    };
    log(rt, is_on, output, &status);
    if let Some(most) = most {
        tell_age(rt, is_on, age, most, output);
    }
}

// Warns in the log where the list was written too long ago, or its time can't be told.
fn tell_age<R: Clock, O: Write>(rt: &R, is_on: bool, age: Option<u64>, most: u32, output: &mut O)
    ensures { is_on ≡ false → output.new ≡ output.old }
{
    let line = match age {
        Some(seconds) if seconds <= most as u64 => return,
        Some(seconds) => LogLine::Old { seconds, most },
        None => LogLine::NoAge,
    };
    log(rt, is_on, output, &line);
}

/// How many seconds ago a list was written, if that can be told: since the second that it tells; where it tells none, since
/// its file at this path was.
pub fn age_of<R: Files + Clock>(rt: &R, path: &str, written: Written) -> Option<u64>
    ensures { written ≡ Unread → result ≡ None }
{
    match written {
        Written::Untold => seconds_since_written(rt, path).ok(),
        Written::At(second) => seconds_since(rt, second).ok(),
        Written::Unread => None,
    }
}

/// How old a file is.
#[derive(Clone, Copy, Debug, PartialEq, Eq)]
pub struct FileAge {
    /// In which second since 1970 that is so.
    pub second: u64,
    /// How many seconds ago it was written.
    pub seconds: u64,
}

impl FileAge {
    /// One whose age doesn't matter.
    pub const NEW: FileAge = FileAge {
        second: 0,
        seconds: 0,
    };
}

/// How old the file at this path is now. One of which that can't be told counts as new.
pub fn file_age<R: Files + Clock>(rt: &R, path: &str) -> FileAge {
    FileAge {
        second: seconds_since(rt, 0).unwrap_or(0),
        seconds: seconds_since_written(rt, path).unwrap_or(0),
    }
}

fn seconds_since<R: Clock>(rt: &R, second: u64) -> io::Result<u64> {
    let now = SystemTime::UNIX_EPOCH.elapsed(rt)?.as_secs();
    Ok(age_at(now, second))
}

// The age of what was written in a second: 0 where that is still to come.
fn age_at(now: u64, written: u64) -> u64
    ensures { result ≡ now - written }
{
    now.saturating_sub(written)
}

fn seconds_since_written<R: Files + Clock>(rt: &R, path: &str) -> io::Result<u64> {
    let written = fs::metadata(rt, path)?.modified()?;
    Ok(written.elapsed(rt)?.as_secs())
}
