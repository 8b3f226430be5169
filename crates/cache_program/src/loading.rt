//! The cache of settings, and the list with which it begins.
ghost use Rattle.std.specs.Prelude.{◌≡◌, [], IfErr, IfOk, MatchResult, None, Ok, Some, false};
ghost use Rattle.std.specs.Fn.{FnReturnsAt};
ghost use Rattle.cache_program.specs.CacheOfSettings.{IsCacheOf, IsSessionOf};
ghost use Rattle.cache_program.specs.FirstList.{IsFirst, IsNoFirst, Passes};
ghost use Rattle.cache_program.specs.Endings.{IsOfWords};
ghost use Rattle.payload_sources.specs.PayloadSources.{SaysWritten, texts_of};
ghost use Rattle.cache_program.specs.Opened.{Gives};
ghost use Rattle.vrp_delta.specs.Versions.{kept_after, newest_serial};

use crate::fault::CacheFault;
use crate::files::{open_files, path_of};
use cache_settings::{CacheSettings, SessionSource};
use cache_watch::{ListFault, LogLine};
use file_paths::Steady;
use list_guards::Guards;
use log_lines::log;
use net_prefix::Vrp;
use payload_sources::{SourceSet, Sources, read_sources};
use rtr_cache::{Cache, CacheEvent};
use std::alloc::{AllocGlobal, Global};
use std::collections::BTreeSet;
use std::io::{self, Read, Write};
use std::rt::Clock;

/// The cache of the settings, begun in this second since 1970, with the set of the files that are opened at their paths: its
/// serial, and what was read.
pub(crate) fn load_cache<R: Clock + AllocGlobal, O: Write, L: Read + Steady + Drop, F>(
    rt: &R,
    settings: &CacheSettings,
    second: u64,
    output: &mut O,
    opens: &F,
) -> Result<(Cache, u32, SourceSet), CacheFault>
where
    F: Fn(&str) -> io::Result<L>,
    requires { F.IsAlwaysCallable opens.now }
    ensures fault { IfErr result (λ fault. ¬ (IsOfWords fault)) }
    ensures cache { IfOk result (λ loaded. IsCacheOf settings.now second loaded.0) }
    ensures first { IfOk result (λ loaded. IsFirst (Gives (FnReturnsAt F.Fn opens.now) L.remaining L.stamp settings.now) settings.now.guards loaded.0.shared.kept loaded.1 loaded.2.set.keys loaded.2.written loaded.2.stamps) }
    ensures quiet { settings.now.log ≡ false → output.new ≡ output.old }
{
    let mut cache = made_cache(rt.alloc(), settings, second)?;
    let (serial, read) = load_list(rt, settings, second, &mut cache, output, opens)?;
    Ok((cache, serial, read))
}

// The cache of the settings, without a list.
fn made_cache(alloc: Global, settings: &CacheSettings, second: u64) -> Result<Cache, CacheFault>
    ensures fault { IfErr result (λ fault. ¬ (IsOfWords fault)) }
    ensures cache { IfOk result (IsCacheOf settings.now second) }
    ensures none { IfOk result (λ cache. cache.shared.kept ≡ []) }
{
    let made = Cache::with_other_session(
        alloc,
        session_id(settings.session, second),
        settings.intervals,
        settings.other_session,
    );
    match made {
        Ok(cache) => Ok(cache),
        Err(refusal) => Err(CacheFault::Refused(refusal)),
    }
}

/// The session id. By the clock it is the low 16 bits of the seconds since 1970: another one in each of 65,536 seconds.
pub(crate) fn session_id(session: SessionSource, second: u64) -> u16
    ensures { IsSessionOf session second result }
{
    match session {
        SessionSource::Id(id) => id,
        SessionSource::Clock => (second % 65_536) as u16,
    }
}

// Has the cache serve the list of the settings, read at this second.
fn load_list<R: Clock + AllocGlobal, O: Write, L: Read + Steady + Drop, F>(
    rt: &R,
    settings: &CacheSettings,
    second: u64,
    cache: &mut Cache,
    output: &mut O,
    opens: &F,
) -> Result<(u32, SourceSet), CacheFault>
where
    F: Fn(&str) -> io::Result<L>,
    requires opens { F.IsAlwaysCallable opens.now }
    requires none { cache.old.shared.kept ≡ [] }
    ensures fault { IfErr result (λ fault. ¬ (IsOfWords fault)) }
    ensures terms { IfOk result (λ loaded. cache.new.shared ≡ record cache.old.shared { kept = cache.new.shared.kept; withdrawn = false }) }
    ensures first { IfOk result (λ loaded. IsFirst (Gives (FnReturnsAt F.Fn opens.now) L.remaining L.stamp settings.now) settings.now.guards cache.new.shared.kept loaded.0 loaded.1.set.keys loaded.1.written loaded.1.stamps) }
    ensures quiet { settings.now.log ≡ false → output.new ≡ output.old }
{
    let files = opened_files(rt.alloc(), settings, second, opens)?;
    let read = read_told(rt, settings, files, output)?;
    let serial = publish(cache, &read.set)?;
    let payloads = read.set.len();
    log(
        rt,
        settings.log,
        output,
        &LogLine::Loaded { serial, payloads },
    );
    Ok((serial, read))
}

/// The files that are opened at the paths of the settings, to be read at this second since 1970.
pub(crate) fn opened_files<L: Read + Steady + Drop, F>(
    alloc: Global,
    settings: &CacheSettings,
    second: u64,
    opens: &F,
) -> Result<Sources<L>, CacheFault>
where
    F: Fn(&str) -> io::Result<L>,
    requires { F.IsAlwaysCallable opens.now }
    ensures fault { IfErr result (λ fault. ¬ (IsOfWords fault)) }
    ensures given { IfOk result (λ files. Gives (FnReturnsAt F.Fn opens.now) L.remaining L.stamp settings.now (Ok (texts_of L.remaining L.stamp files.list files.slurm files.second))) }
{
    match open_files(settings, second, opens) {
        Ok(files) => Ok(files),
        Err(unopened) => {
            let path = path_of(settings, unopened.file);
            Err(CacheFault::unread(alloc, path, unopened.error))
        }
    }
}

// What is read of files; where no set can be had, the log tells why.
fn read_told<R: Clock + AllocGlobal, L: Read + Steady + Drop, O: Write>(
    rt: &R,
    settings: &CacheSettings,
    files: Sources<L>,
    output: &mut O,
) -> Result<SourceSet, CacheFault>
    ensures fault { IfErr result (λ fault. ¬ (IsOfWords fault)) }
    ensures set { IfOk result (λ read. Passes settings.now.guards (texts_of L.remaining L.stamp files.list files.slurm files.second) read.set.keys) }
    ensures written { IfOk result (λ read. SaysWritten (texts_of L.remaining L.stamp files.list files.slurm files.second) read.written) }
    ensures stamps { IfOk result (λ read. read.stamps ≡ (texts_of L.remaining L.stamp files.list files.slurm files.second).stamps) }
    ensures quiet { settings.now.log ≡ false → output.new ≡ output.old }
{
    match first_set(rt.alloc(), &settings.guards, files) {
        Ok(read) => Ok(read),
        Err(why) => {
            let file = why.file();
            log(rt, settings.log, output, &LogLine::Refused { file, why });
            Err(CacheFault::bad_list(rt.alloc(), path_of(settings, file), why))
        }
    }
}

/// The set of files, where it can be had and the guards let it be served first.
pub(crate) fn first_set<L: Read + Steady + Drop>(
    alloc: Global,
    guards: &Guards,
    files: Sources<L>,
) -> Result<SourceSet, ListFault>
    ensures { MatchResult result (λ read. Passes guards.now (texts_of L.remaining L.stamp files.list files.slurm files.second) read.set.keys × SaysWritten (texts_of L.remaining L.stamp files.list files.slurm files.second) read.written × (read.stamps ≡ (texts_of L.remaining L.stamp files.list files.slurm files.second).stamps)) (λ why. IsNoFirst guards.now (texts_of L.remaining L.stamp files.list files.slurm files.second) why) }
{
    let read = match read_sources(alloc, files) {
        Ok(read) => read,
        Err(refused) => return Err(ListFault::Source(refused)),
    };
    match guards.judge(&BTreeSet::new(alloc), &read.set) {
        Ok(()) => Ok(read),
        Err(why) => Err(ListFault::Guard(why)),
    }
}

// Hands the set to the cache, which serves it under this serial.
fn publish(cache: &mut Cache, set: &BTreeSet<Vrp>) -> Result<u32, CacheFault>
    ensures fault { IfErr result (λ fault. ¬ (IsOfWords fault)) }
    ensures terms { IfOk result (λ serial. cache.new.shared ≡ record cache.old.shared { kept = kept_after cache.old.shared.kept set.now.keys; withdrawn = false }) }
    ensures serial { IfOk result (λ serial. serial ≡ newest_serial cache.new.shared.kept) }
{
    match cache.step(CacheEvent::Load(set)) {
        Ok(report) => Ok(report.serial.unwrap_or(0)),
        Err(refusal) => Err(CacheFault::Refused(refusal)),
    }
}
