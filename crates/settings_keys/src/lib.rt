//! The keys of settings, in TOML.
//!
//! A settings file is a table of keys: `read_table` reads it, and the others what stands at a key, as a text, an address with
//! its port, a number, or yes or no (`specs/Keys.antt`); `only_known` refuses a table with a key that isn't known, and tells
//! the first (`specs/KnownKeys.antt`). What isn't TOML, lacks a key or has a value of another kind is told from a want of
//! memory, also to a program (`specs/SettingsExits.antt`), with the place, the key, what stands there and what is wanted as
//! data; the words for it are shown by tests. What is TOML, and what an address, the crate `toml` and std say.
#![tactic(auto)]

mod cause;
mod found;
mod known;
mod reading;

pub use cause::{
    Owner, SettingsCause, SettingsFault, SettingsPlace, Wanted, again, bad, bad_number, bad_text,
    bad_value, lacks, not_greater,
};
pub use found::{Found, Kind, Name, Quoted};
pub use known::only_known;
pub use reading::{
    address_if_told, address_of, number_of, read_table, text_as, text_of, value_at, yes_or_no_of,
};
