//! Tests alone: what is told of lines that command nothing, and each growth of the policies refused in turn. A file is named for
//! what it tests.
#![tactic(auto)]

#[cfg(test)]
mod causes;
#[cfg(test)]
mod policies;
