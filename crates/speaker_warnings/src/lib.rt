//! What an operator is warned of before a speaker's first turn.
//!
//! `warn` looks at what the commands configured and at what the settings say beside them (`Settled`), and writes a line to the
//! log for each thing that is lawful and hardly meant (`Warning`); `write_warnings` writes the same for one who checks them.
//! What lines say is shown by tests.
#![tactic(auto)]

mod doubtful;
mod told;
mod warning;

pub use doubtful::{Settled, warn, write_warnings};
pub use warning::Warning;
