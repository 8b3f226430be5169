//! Tests alone, of the tables that routes go through: each growth refused in turn. A file is named for what it tests.
#![tactic(auto)]

#[cfg(test)]
mod adj_rib_in;
#[cfg(test)]
mod adj_rib_out;
#[cfg(test)]
mod alike_prefixes;
#[cfg(test)]
mod books;
#[cfg(test)]
mod given;
#[cfg(test)]
mod waiting_prefixes;
