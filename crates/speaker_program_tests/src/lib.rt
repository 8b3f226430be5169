//! Tests alone: the texts and statuses of `ovbgpd`.
#![tactic(auto)]

#[cfg(test)]
mod bgp_statuses;
#[cfg(test)]
mod slurm;
#[cfg(test)]
mod warnings;
