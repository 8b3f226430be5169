//! Operators who send lines on a connection, and are answered.
//!
//! `LineBuffer` gathers the octets of one line, up to its line feed and no further, in whatever pieces they come: a whole line
//! is what stands in front of the first line feed, and one of more than 1,024 octets is too long (`specs/Lines.antt`).
//! `Operator` is one operator's connection, a `Stream`: a line is read, what is said to it is written as far as it is taken, and
//! until all of that is taken nothing more is read (`specs/Talks.antt`). No octet that comes is lost, and none comes twice
//! (`visits_lose_no_octets`, `answers_take_their_line`). One who moves nothing for a minute loses the connection, and so does
//! one whose line isn't whole a minute after its first octet, or is too long, behind an answer that says so. `Operators` is what
//! answers them, of whom there may be none. What lines mean stands above, and sockets are opened beside.
#![tactic(auto)]

mod chunk;
mod laws;
mod line_buffer;
mod operator;
mod operators;
mod perhaps;
mod saying;
#[cfg(test)]
mod slow_lines;
mod stream;
mod talk;

pub use laws::{answers_take_their_line, visits_lose_no_octets, visits_write_in_order};
pub use line_buffer::{Heard, LineBuffer, MOST_OF_A_LINE};
pub use operator::{Operator, SILENT_SECONDS};
pub use operators::{OPERATORS, Operators};
pub use stream::Stream;
pub use talk::Wish;
