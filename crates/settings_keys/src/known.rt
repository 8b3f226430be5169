//! The keys that are known.
ghost use Rattle.std.specs.Prelude.{◌≡◌, MatchResult, option_map, map};
ghost use Rattle.toml.specs.View.{table_view};
ghost use Rattle.std.specs.List.{list_any};
ghost use Rattle.std.specs.Str.{bytes_eq};
ghost use Rattle.settings_keys.specs.KnownKeys.{HasNoKeyBut, first_unknown};
ghost use Rattle.settings_keys.specs.Causes.{TellsUnknown};

use crate::cause::{Owner, SettingsCause, SettingsFault, SettingsPlace};
use crate::found::Name;
use std::alloc::{AllocError, Global};
use strsim::levenshtein;
use toml::Table;

/// Refuses a table with a key that isn't known, and tells the first one, in the order of their octets. The owner is whose keys
/// are known. `NoMemory` only where there is such a key.
pub fn only_known(
    alloc: Global,
    table: &Table,
    owner: Owner,
    known: &[&str],
) -> Result<(), SettingsFault>
    ensures { MatchResult result (λ done. HasNoKeyBut (map (λ key. key.now) known.now) (table_view table.now)) (λ fault. TellsUnknown fault (first_unknown (map (λ key. key.now) known.now) (table_view table.now))) }
{
    match first_unknown(table, known) {
        None => Ok(()),
        Some(key) => Err(unknown_key(alloc, key, owner, known)),
    }
}

// The first key of the table that isn't known.
fn first_unknown<'a>(table: &'a Table, known: &[&str]) -> Option<&'a str>
    ensures { option_map (λ key. key.now) result ≡ first_unknown (map (λ key. key.now) known.now) (table_view table.now) }
{
    for key in table.keys() {
        if !is_known(key.as_str(), known) {
            return Some(key.as_str());
        }
    }
    None
}

fn is_known(key: &str, known: &[&str]) -> bool
    ensures { result ≡ list_any (λ name. bytes_eq name.now key.now) known.now }
{
    known.iter().any(|name| *name == key)
}

// The fault of a key that isn't known.
fn unknown_key(alloc: Global, key: &str, owner: Owner, known: &[&str]) -> SettingsFault
    ensures { TellsUnknown result (Some key.now) }
{
    let Ok(nearest) = nearest(alloc, key, known) else {
        return SettingsFault::NoMemory;
    };
    match String::from_str(alloc, key) {
        Ok(key) => {
            let nearest = Name::of(alloc, nearest);
            let cause = SettingsCause::UnknownKey {
                key,
                owner,
                nearest,
            };
            SettingsFault::Settings(SettingsPlace::Top, cause)
        }
        Err(_) => SettingsFault::NoMemory,
    }
}

// The known key from which the fewest edits lead to this one.
fn nearest<'a>(alloc: Global, key: &str, known: &[&'a str]) -> Result<&'a str, AllocError> {
    let mut nearest = "";
    let mut fewest = usize::MAX;
    for name in known {
        let edits = levenshtein(alloc, name, key)?;
        if edits < fewest {
            nearest = *name;
            fewest = edits;
        }
    }
    Ok(nearest)
}
