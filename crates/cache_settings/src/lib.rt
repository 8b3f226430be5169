//! The settings of a cache, as the program of one takes them.
//!
//! `CacheSettings::read` answers what stands at the keys of a text in TOML, each within its range, or the usual where a key
//! may lack and does, and bad settings just where the text tells none such (`specs/ToldSettings.antt`). What is made of them
//! stands above.
#![tactic(auto)]

mod settings;

pub use settings::{CacheSettings, SessionSource, Stale};
