//! The files of settings.
ghost use Rattle.std.specs.Prelude.{◌≡◌, Err, IfOk, MatchResult, Ok, option_map, string_bytes};
ghost use Rattle.std.specs.Fn.{FnReturnsAt};
ghost use Rattle.payload_sources.specs.PayloadSources.{texts_of};
ghost use Rattle.cache_program.specs.Opened.{Gives, GivesAt, expiring_at};

use cache_settings::CacheSettings;
use file_paths::Steady;
pub(crate) use file_paths::{open_at, open_stamped_at};
use payload_sources::{SourceFile, Sources, Unopened, open_sources};
use std::io::{self, Read};

/// Opens the list of the settings, and their SLURM file where there is one, to be read at this second since 1970.
pub(crate) fn open_files<L: Read + Steady + Drop, F>(
    settings: &CacheSettings,
    second: u64,
    opens: &F,
) -> Result<Sources<L>, Unopened>
where
    F: Fn(&str) -> io::Result<L>,
    requires { F.IsAlwaysCallable opens.now }
    ensures second { IfOk result (λ files. files.second ≡ expiring_at settings.now second) }
    ensures then { MatchResult result (λ files. GivesAt (FnReturnsAt F.Fn opens.now) L.remaining L.stamp settings.now second (Ok (texts_of L.remaining L.stamp files.list files.slurm files.second))) (λ unopened. GivesAt (FnReturnsAt F.Fn opens.now) L.remaining L.stamp settings.now second (Err unopened.file)) }
    ensures gives { MatchResult result (λ files. Gives (FnReturnsAt F.Fn opens.now) L.remaining L.stamp settings.now (Ok (texts_of L.remaining L.stamp files.list files.slurm files.second))) (λ unopened. Gives (FnReturnsAt F.Fn opens.now) L.remaining L.stamp settings.now (Err unopened.file)) }
{
    let second = expiring_at(settings, second);
    open_sources(settings.csv.as_str(), slurm_path(settings), second, opens)
}

// The second at which what has expired is left out of a list, where the settings say so.
fn expiring_at(settings: &CacheSettings, second: u64) -> Option<u64>
    ensures { result ≡ expiring_at settings.now second }
{
    if settings.expires { Some(second) } else { None }
}

/// The path of the SLURM file, where there is one.
pub(crate) fn slurm_path(settings: &CacheSettings) -> Option<&str>
    ensures { option_map (λ path. path.now) result ≡ option_map string_bytes settings.now.slurm }
{
    match &settings.slurm {
        Some(path) => Some(path.as_str()),
        None => None,
    }
}

/// The path of this file.
pub(crate) fn path_of(settings: &CacheSettings, file: SourceFile) -> &str {
    match file {
        SourceFile::List => settings.csv.as_str(),
        SourceFile::Slurm => slurm_path(settings).unwrap_or(settings.csv.as_str()),
    }
}
