//! Tests alone, of SLURM files: each growth refused in turn that reading one asks for. What files say, and why they are
//! refused, is data of the crate play_slurm.
#![tactic(auto)]

#[cfg(test)]
mod memory;
