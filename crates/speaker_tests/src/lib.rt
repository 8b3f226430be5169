//! Tests alone: `run` plays a list of events on a new speaker, once with memory for all of them, and then with each
//! growth refused in turn. What a speaker answers to each call where one is refused is told by the crate growths; `run`
//! besides has a trace of all answers, or none.
#![tactic(auto)]

#[cfg(test)]
mod bare;
#[cfg(test)]
mod events;
#[cfg(test)]
mod running;
#[cfg(test)]
mod timers;
