//! The local exceptions of a SLURM file, obeyed by a speaker.
//!
//! `obey_exceptions` hands the exceptions to a speaker, each filter and then each assertion, the least first, as the commands that
//! an operator gives for them: the speaker is as just these commands leave it, or as those before the first that it refuses do
//! (`specs/ObeyedExceptions.antt`). `ExceptionsFault` is why a file's exceptions aren't obeyed, with what that means to a program
//! (`specs/ExceptionExits.antt`), and `SlurmLine` is how much a file says (`specs/SlurmFigures.antt`). Its words are shown by tests.
#![tactic(auto)]

mod fault;
mod obeying;
mod slurm_line;

pub use fault::ExceptionsFault;
pub use obeying::obey_exceptions;
pub use slurm_line::SlurmLine;
