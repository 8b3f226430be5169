//! The file of the settings.
ghost use Rattle.std.specs.Prelude.{ℕ, Vec, Ok, Err, IfErr, IfOk};
ghost use Rattle.std.specs.Fn.{FnOnceReturnsAt};
ghost use Rattle.std.specs.Global.{Global as TheGlobal};
ghost use Rattle.toml.specs.Data.{Members};
ghost use Rattle.speaker_program.specs.Endings.{IsOfSettings};
ghost use Rattle.speaker_program.specs.Files.{AreRefusedSettings, IsGiven};
ghost use Rattle.speaker_program.specs.Unbegun.{IsUnopenedAt, IsUntold};
ghost use Rattle.settings_keys.specs.declared.cause.SettingsFault.{SettingsFault as SpecFault};
ghost use Rattle.speaker_settings.specs.ToldSettings.{IsToldBy};
ghost use Rattle.settings_keys.specs.Keys.{IsTableOf};

use crate::fault::SpeakerFault;
use speaker_settings::SpeakerSettings;
use std::alloc::Global;
use std::io;

/// The settings in the file of this path.
pub(crate) fn read_settings<S>(
    alloc: Global,
    path: &str,
    reads: S,
) -> Result<SpeakerSettings, SpeakerFault>
where
    S: FnOnce(&str) -> io::Result<Vec<u8>>,
    requires { S.IsAlwaysCallable reads }
    ensures told { IfOk result (λ settings. (octets : Vec ℕ TheGlobal) × (table : Members) × FnOnceReturnsAt S.FnOnce reads path.now (Ok octets) × IsTableOf octets.items table × IsToldBy table settings) }
    ensures untold { IfErr result (IsUntold (λ path. IsGiven (λ octets. FnOnceReturnsAt S.FnOnce reads path (Ok octets))) (λ path error. FnOnceReturnsAt S.FnOnce reads path (Err error)) path.now) }
{
    let octets = octets_of(alloc, path, reads)?;
    settings_in(alloc, path, octets.as_slice())
}

// The octets of the file of this path.
fn octets_of<S>(alloc: Global, path: &str, reads: S) -> Result<Vec<u8>, SpeakerFault>
where
    S: FnOnce(&str) -> io::Result<Vec<u8>>,
    requires { S.IsAlwaysCallable reads }
    ensures given { IfOk result (λ octets. FnOnceReturnsAt S.FnOnce reads path.now (Ok octets)) }
    ensures unread { IfErr result (IsUnopenedAt (λ path error. FnOnceReturnsAt S.FnOnce reads path (Err error)) path.now) }
{
    match reads(path) {
        Ok(octets) => Ok(octets),
        Err(error) => Err(SpeakerFault::unread(alloc, path, error)),
    }
}

// The settings that the octets of a file tell.
fn settings_in(alloc: Global, path: &str, octets: &[u8]) -> Result<SpeakerSettings, SpeakerFault>
    ensures told { IfOk result (λ settings. (table : Members) × IsTableOf octets.now table × IsToldBy table settings) }
    ensures refused { IfErr result (λ fault. (why : SpecFault) × AreRefusedSettings octets.now why × IsOfSettings path.now why fault) }
{
    match SpeakerSettings::read(alloc, octets) {
        Ok(settings) => Ok(settings),
        Err(why) => Err(SpeakerFault::bad_settings(alloc, path, why)),
    }
}
