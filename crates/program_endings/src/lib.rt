//! How programs begin and end: the words behind a program's name, and what ends it.
//!
//! `read_words` reads the path of settings and a number of turns exactly (`specs/Words.antt`), and `aside_of` what else may be
//! asked (`specs/Asides.antt`). `ExitFault` tells what the operator has to mend from what the system didn't give, each with its
//! exit status, and `end` writes its line behind the program's name, with the cause (`specs/Exits.antt`). What the faults of a
//! program's own crates are to it is said where the program is; what lines say is shown by tests.
#![tactic(auto)]

mod aside;
mod ending;
mod fault;
mod file_path;
mod words;

pub use aside::{Aside, aside_of};
pub use ending::{end, print};
pub use fault::ExitFault;
pub use file_path::FilePath;
pub use words::{WordsFault, read_words};
