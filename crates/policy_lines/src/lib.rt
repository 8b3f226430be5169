//! The line of a file of commands that sets a policy.
//!
//! `write_policy_line` writes it: the policy's name, and its rules with `;` between them, each as crate command_lines reads it.
#![tactic(auto)]

mod writing;

pub use writing::write_policy_line;
