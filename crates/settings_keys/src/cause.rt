//! Why settings can't be had of a text.
ghost use Rattle.settings_keys.specs.SettingsExits.{exit_of_settings};
ghost use Rattle.std.specs.Prelude.{◌≡◌};
ghost use Rattle.settings_keys.specs.declared.cause.SettingsFault.TheVariants.{NoMemory};
ghost use Rattle.settings_keys.specs.Causes.{IsBad, placed};

use crate::found::{Found, Name, Quoted};
use program_endings::ExitFault;
use std::alloc::{AllocError, Global};
use std::fmt::{self, Display, Formatter};
use thiserror::Error;
use toml::Value;

/// What a key was to have.
#[derive(Clone, Copy, Debug, PartialEq, Eq, Error)]
pub enum Wanted {
    #[error("no IP address and port")]
    Address,
    #[error("no text")]
    Text,
    /// A number within these bounds.
    #[error("no number from {0} to {1}")]
    Number(u32, u32),
    #[error("neither a number from 0 to 65535 nor 'clock'")]
    Session,
    #[error("neither 'report' nor 'reset'")]
    OtherSession,
    #[error("neither 'serve' nor 'withdraw'")]
    Stale,
    #[error("neither true nor false")]
    YesOrNo,
    #[error("no IPv4 address other than 0.0.0.0")]
    Identifier,
    #[error("no table")]
    Table,
    #[error("no array of tables")]
    Tables,
}

/// Whose keys are known.
#[derive(Clone, Copy, Debug, PartialEq, Eq, Error)]
pub enum Owner {
    #[error("ovcache")]
    Cache,
    #[error("ovbgpd")]
    Speaker,
    /// The table of a peer.
    #[error("a peer")]
    Peer,
}

/// What is wrong with settings.
#[derive(Debug, Drop, Error)]
pub enum SettingsCause {
    /// The text is no UTF-8 behind so many octets.
    #[error("octet {0} is no UTF-8")]
    NoText(usize),
    /// This line is no TOML.
    #[error("line {line}: {message}", message = .error.message())]
    NoToml {
        line: usize,
        error: toml::de::Error,
    },
    /// The key is none of those that are known.
    #[error("{key} is no key of {owner}; the nearest is '{nearest}'", key = Quoted(.key.as_str()))]
    UnknownKey {
        key: String,
        owner: Owner,
        nearest: Name,
    },
    /// The key has to be there.
    #[error("'{0}' isn't there")]
    Lacks(Name),
    /// The key has another value than it can have.
    #[error("{key}: {found} is {wanted}")]
    Value {
        key: Name,
        found: Found,
        wanted: Wanted,
    },
    /// One number has to be greater than another.
    #[error("{key}: {number} isn't greater than '{other}', which is {least}")]
    NotGreater {
        key: Name,
        number: u32,
        other: Name,
        least: u32,
    },
    /// The number stands at this key of an earlier table.
    #[error("{key}: {number} stands in an earlier table")]
    Again {
        key: Name,
        number: u32,
    },
}

/// Where in settings something is wrong: at the top, or in the table of the peer of this number, counted from 1.
#[derive(Clone, Copy, Debug, PartialEq, Eq)]
pub enum SettingsPlace {
    Top,
    Peer(usize),
}

impl Display for SettingsPlace {
    fn fmt<W: fmt::Write>(&self, f: &mut Formatter<W>) -> fmt::Result {
        match self {
            SettingsPlace::Top => Ok(()),
            SettingsPlace::Peer(number) => write!(f, "peer {number}: "),
        }
    }
}

/// Why settings can't be had of a text.
#[derive(Debug, Drop, Error)]
pub enum SettingsFault {
    /// The text isn't TOML, lacks a key, has one that isn't known, or a key has a value that it can't have.
    #[error("{0}{1}")]
    Settings(SettingsPlace, SettingsCause),
    /// There is no memory to read them.
    #[error("there is no memory for the settings")]
    NoMemory,
}

impl SettingsFault {
    /// What this is to a program.
    pub fn exit(&self) -> ExitFault
        ensures { result ≡ exit_of_settings self.now }
    {
        match self {
            SettingsFault::Settings(..) => ExitFault::Settings,
            SettingsFault::NoMemory => ExitFault::Device,
        }
    }

    /// The same fault, in this place.
    pub fn at(self, place: SettingsPlace) -> SettingsFault
        ensures { result ≡ placed place self }
    {
        match self {
            SettingsFault::Settings(_, cause) => SettingsFault::Settings(place, cause),
            SettingsFault::NoMemory => SettingsFault::NoMemory,
        }
    }
}

impl From<AllocError> for SettingsFault {
    ghost from_gives = { λ _ fault. fault ≡ NoMemory };

    fn from(_error: AllocError) -> SettingsFault {
        SettingsFault::NoMemory
    }
}

/// The fault of settings whose cause is this.
pub fn bad(cause: SettingsCause) -> SettingsFault
    ensures { IsBad result }
{
    SettingsFault::Settings(SettingsPlace::Top, cause)
}

/// The fault of a key that has to be there.
pub fn lacks(alloc: Global, key: &str) -> SettingsFault
    ensures { IsBad result }
{
    bad(SettingsCause::Lacks(Name::of(alloc, key)))
}

/// The fault of a key with this value.
pub fn bad_value(alloc: Global, key: &str, value: &Value, wanted: Wanted) -> SettingsFault
    ensures { IsBad result }
{
    let found = Found::of(alloc, value);
    let key = Name::of(alloc, key);
    bad(SettingsCause::Value { key, found, wanted })
}

/// The fault of a key with this number.
pub fn bad_number(alloc: Global, key: &str, number: u32, wanted: Wanted) -> SettingsFault
    ensures { IsBad result }
{
    let found = Found::Number(number as i64);
    let key = Name::of(alloc, key);
    bad(SettingsCause::Value { key, found, wanted })
}

/// The fault of a key whose number isn't greater than that of another.
pub fn not_greater(alloc: Global, key: &str, number: u32, other: &str, least: u32) -> SettingsFault
    ensures { IsBad result }
{
    let key = Name::of(alloc, key);
    let other = Name::of(alloc, other);
    bad(SettingsCause::NotGreater {
        key,
        number,
        other,
        least,
    })
}

/// The fault of a key whose number stands at that key of an earlier table.
pub fn again(alloc: Global, key: &str, number: u32) -> SettingsFault
    ensures { IsBad result }
{
    let key = Name::of(alloc, key);
    bad(SettingsCause::Again { key, number })
}

/// The fault of a key with this text.
pub fn bad_text(alloc: Global, key: &str, text: &str, wanted: Wanted) -> SettingsFault
    ensures { IsBad result }
{
    let found = Found::of_text(alloc, text);
    let key = Name::of(alloc, key);
    bad(SettingsCause::Value { key, found, wanted })
}
