//! Lines of a log, each behind its time, and what is to be done again and again.
//!
//! `log` writes a line behind the time of the clock, to the second (RFC 3339), and nothing where the log is off; a log that
//! can't be written stops nobody. `Every` tells when so many seconds have passed (`specs/Passing.antt`). An `Onlooker` is shown
//! a value behind each turn. What a line says stands above.
#![tactic(auto)]

mod every;
mod line;
mod onlooker;

pub use every::Every;
pub use line::log;
pub use onlooker::Onlooker;
