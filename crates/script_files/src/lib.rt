//! Files of scripts: their cases, the cuts of a case, what is told of each, and whether a player answers just that.
//!
//! `play_listed` goes over a list of names (`names`). For each it asks a `Shelf` for the script and for what is told, has
//! `play_file` judge them, tells what came of it (`telling`) and counts it (`tally`). `play_file` goes over the cases
//! (`cases`), and in each over the places of its cuts (`cutting`); it has a `Player` answer, and compares (`comparing`).
//! Player and shelf are the program's: what is proved here holds for any of them.
#![tactic(auto)]

mod cases;
mod comparing;
mod cutting;
mod judging;
mod lines;
mod listing;
mod names;
mod tally;
mod telling;

pub use judging::{Difference, Outcome, Player, Unplayed, play_file};
pub use listing::{Shelf, play_listed};
pub use tally::Tally;
