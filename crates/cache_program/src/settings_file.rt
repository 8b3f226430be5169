//! The file of the settings.
ghost use Rattle.std.specs.Prelude.{IfErr, IfOk};
ghost use Rattle.std.specs.Fn.{FnReturnsAt};
ghost use Rattle.toml.specs.Data.{Members};
ghost use Rattle.cache_program.specs.Endings.{IsOfWords};
ghost use Rattle.cache_program.specs.Opened.{AreSettingsAt, AreSettingsOf};
ghost use Rattle.cache_settings.specs.ToldSettings.{IsToldBy};
ghost use Rattle.settings_keys.specs.Keys.{IsTableOf};

use crate::fault::CacheFault;
use cache_settings::CacheSettings;
use file_paths::octets_of;
use std::alloc::Global;
use std::io::{self, Read};

/// The settings that the file tells which is opened at this path.
pub(crate) fn read_settings<L: Read + Drop, F>(
    alloc: Global,
    path: &str,
    opens: &F,
) -> Result<CacheSettings, CacheFault>
where
    F: Fn(&str) -> io::Result<L>,
    requires { F.IsAlwaysCallable opens.now }
    ensures fault { IfErr result (λ fault. ¬ (IsOfWords fault)) }
    ensures told { IfOk result (AreSettingsAt (FnReturnsAt F.Fn opens.now path.now) L.remaining) }
{
    match opens(path) {
        Ok(file) => settings_of(alloc, path, file),
        Err(error) => Err(CacheFault::unread(alloc, path, error)),
    }
}

// The settings that an opened file tells.
fn settings_of<L: Read + Drop>(
    alloc: Global,
    path: &str,
    file: L,
) -> Result<CacheSettings, CacheFault>
    ensures fault { IfErr result (λ fault. ¬ (IsOfWords fault)) }
    ensures told { IfOk result (AreSettingsOf (L.remaining file)) }
{
    match octets_of(alloc, file) {
        Ok(octets) => settings_in(alloc, path, octets.as_slice()),
        Err(error) => Err(CacheFault::unread(alloc, path, error)),
    }
}

// The settings that the octets of a file tell.
fn settings_in(alloc: Global, path: &str, octets: &[u8]) -> Result<CacheSettings, CacheFault>
    ensures fault { IfErr result (λ fault. ¬ (IsOfWords fault)) }
    ensures told { IfOk result (λ settings. (table : Members) × IsTableOf octets.now table × IsToldBy table settings) }
{
    match CacheSettings::read(alloc, octets) {
        Ok(settings) => Ok(settings),
        Err(why) => Err(CacheFault::bad_settings(alloc, path, why)),
    }
}
