//! The settings of a speaker, as the program of one takes them.
//!
//! `SpeakerSettings::read` answers what stands at the keys of a text in TOML, each within its range, or that a key may lack and
//! does, and bad settings just where the text tells none such or has a key that isn't known, also in a peer's table
//! (`specs/ToldSettings.antt`, `specs/PeerSlots.antt`). What is made of them stands above.
#![tactic(auto)]

mod settings;

pub use settings::{SEND_HOLD_SECONDS, SpeakerSettings, has_slot};
