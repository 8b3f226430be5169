//! Files of the system, each with the path at which it was opened.
//!
//! `open_at` opens a file to be read and keeps its path, so that contracts of programs can say where what they read was opened
//! (`specs/OpenedFiles.antt`), and tells whether it was written to since. `open_stamped_at` keeps with it the stamp by which it is
//! known again, where it has rested (`HasRested`). `octets_of` reads a file whole. `OpensFiles` is what opens files, whichever they are:
//! a program that is handed some says what it read by their word alone. That the system's file is the one to which the
//! path leads, and that files with one stamp hold the same, is trusted, beside the toolchain (`file_at`).
#![tactic(auto)]

mod file_at;
mod reading;
mod steady;
mod system_files;

pub use file_at::{FileAt, open_at, open_stamped_at};
pub use reading::octets_of;
pub use steady::{Stamp, Steady};
pub use system_files::{OpensFiles, SystemFiles};
