//! What stands at a key.
ghost use Rattle.std.specs.Prelude.{◌≡◌, ℕ, List, IfErr, IsUtf8, MatchResult, None, Some, false, option_map};
ghost use Rattle.toml.specs.Data.{Members, get_member};
ghost use Rattle.toml.specs.Errors.{IsBlank};
ghost use Rattle.toml.specs.Parse.{parse_document};
ghost use Rattle.toml.specs.View.{table_view, view};
ghost use Rattle.settings_keys.specs.Causes.{IsBad};
ghost use Rattle.settings_keys.specs.Keys.{Answers, IsAddress, IsNumber, IsTableOf, IsText, IsTold, IsToldIfThere, IsToldOrUsual, IsYesOrNo};

use crate::cause::{SettingsCause, SettingsFault, Wanted, bad, bad_text, bad_value, lacks};
use std::alloc::Global;
use std::net::SocketAddr;
use std::str;
use toml::{Table, Value};

/// The table that the octets of a file spell. `Settings` where they are no UTF-8 or no TOML, `NoMemory` where memory lacks,
/// which it can't for a text with nothing in it.
pub fn read_table(alloc: Global, octets: &[u8]) -> Result<Table, SettingsFault>
    ensures table { MatchResult result (λ table. IsTableOf octets.now (table_view table)) (λ fault. IsBad fault → (table : Members) → ¬ (IsTableOf octets.now table)) }
    ensures memory { IfErr result (λ fault. fault ≡ SettingsFault.NoMemory → IsUtf8 octets.now × ¬ (IsBlank octets.now)) }
{
    match str::from_utf8(octets) {
        Ok(text) => table_of(alloc, text),
        Err(error) => Err(bad(SettingsCause::NoText(error.valid_up_to()))),
    }
}

// The table that a text spells.
fn table_of(alloc: Global, text: &str) -> Result<Table, SettingsFault>
    ensures table { MatchResult result (λ table. parse_document text.now ≡ Some (table_view table)) (λ fault. IsBad fault → parse_document text.now ≡ None) }
    ensures memory { IfErr result (λ fault. fault ≡ SettingsFault.NoMemory → ¬ (IsBlank text.now)) }
{
    match toml::table_from_str(alloc, text) {
        Ok(table) => Ok(table),
        Err(error) if error.is_memory() => Err(SettingsFault::NoMemory),
        Err(error) => Err(bad(no_toml(text, error))),
    }
}

// The cause of a text that isn't TOML.
fn no_toml(text: &str, error: toml::de::Error) -> SettingsCause {
    let place = match error.span() {
        Some(span) => span.start,
        None => 0,
    };
    let before = text.as_bytes().iter().take(place);
    let line_ends = before.filter(|octet| **octet == b'\n').count();
    SettingsCause::NoToml {
        line: line_ends.saturating_add(1),
        error,
    }
}

/// What stands at a key, if the key is there.
pub fn value_at<'a>(table: &'a Table, key: &str) -> Option<&'a Value>
    ensures { option_map (λ value. view value.now) result ≡ get_member key.now (table_view table.now) }
{
    table.get(key)
}

/// The text at a key that has to be there. `Settings` where the key lacks or has another kind of value.
pub fn text_of<'a>(alloc: Global, table: &'a Table, key: &str) -> Result<&'a str, SettingsFault>
    ensures { MatchResult result (λ text. IsTold IsText (get_member key.now (table_view table.now)) text.now) (λ fault. IsBad fault × ((text : List ℕ) → ¬ (IsTold IsText (get_member key.now (table_view table.now)) text))) }
{
    text_as(alloc, table, key, Wanted::Text)
}

/// The same of a text from which this is wanted.
pub fn text_as<'a>(
    alloc: Global,
    table: &'a Table,
    key: &str,
    wanted: Wanted,
) -> Result<&'a str, SettingsFault>
    ensures { MatchResult result (λ text. IsTold IsText (get_member key.now (table_view table.now)) text.now) (λ fault. IsBad fault × ((text : List ℕ) → ¬ (IsTold IsText (get_member key.now (table_view table.now)) text))) }
{
    let Some(value) = value_at(table, key) else {
        return Err(lacks(alloc, key));
    };
    match value.as_str() {
        Some(text) => Ok(text),
        None => Err(bad_value(alloc, key, value, wanted)),
    }
}

/// The address and the port at a key that has to be there, of a text as `127.0.0.1:179` or `[::1]:179`. `Settings` where the
/// key lacks, or its value is no such text.
pub fn address_of(alloc: Global, table: &Table, key: &str) -> Result<SocketAddr, SettingsFault>
    ensures { Answers (IsTold IsAddress (get_member key.now (table_view table.now))) result }
{
    let text = text_as(alloc, table, key, Wanted::Address)?;
    match text.parse::<SocketAddr>() {
        Ok(address) => Ok(address),
        Err(_) => Err(bad_text(alloc, key, text, Wanted::Address)),
    }
}

/// The address and the port at a key, if the key is there. `Settings` where its value is no text of these.
pub fn address_if_told(
    alloc: Global,
    table: &Table,
    key: &str,
) -> Result<Option<SocketAddr>, SettingsFault>
    ensures { Answers (IsToldIfThere IsAddress (get_member key.now (table_view table.now))) result }
{
    if value_at(table, key).is_none() {
        return Ok(None);
    }
    Ok(Some(address_of(alloc, table, key)?))
}

/// The number at a key, if the key is there. `Settings` where its value is no whole number from 0 to 4294967295; what is wanted
/// of it is told then.
pub fn number_of(
    alloc: Global,
    table: &Table,
    key: &str,
    wanted: Wanted,
) -> Result<Option<u32>, SettingsFault>
    ensures { Answers (IsToldIfThere IsNumber (get_member key.now (table_view table.now))) result }
{
    let Some(value) = value_at(table, key) else {
        return Ok(None);
    };
    let Some(number) = value.as_integer() else {
        return Err(bad_value(alloc, key, value, wanted));
    };
    match u32::try_from(number) {
        Ok(number) => Ok(Some(number)),
        Err(_) => Err(bad_value(alloc, key, value, wanted)),
    }
}

/// Whether a key is told `true`; false where the key isn't there. `Settings` where its value is neither `true` nor `false`.
pub fn yes_or_no_of(alloc: Global, table: &Table, key: &str) -> Result<bool, SettingsFault>
    ensures { Answers (IsToldOrUsual IsYesOrNo false (get_member key.now (table_view table.now))) result }
{
    let Some(value) = value_at(table, key) else {
        return Ok(false);
    };
    match value.as_bool() {
        Some(is_on) => Ok(is_on),
        None => Err(bad_value(alloc, key, value, Wanted::YesOrNo)),
    }
}
