//! Tests alone: a list that is read again while routers are served, and guarded, lists in either format and under the
//! exceptions of SLURM files, a day of `ovcache`, one on which its list is withdrawn, payloads that expire, its texts and
//! statuses, figures, operators, a file that changes, and one that doesn't.
#![tactic(auto)]

#[cfg(test)]
mod changing;
#[cfg(test)]
mod day;
#[cfg(test)]
mod desk;
#[cfg(test)]
mod expiring;
#[cfg(test)]
mod figures;
#[cfg(test)]
mod formats;
#[cfg(test)]
mod guards;
#[cfg(test)]
mod rereads;
#[cfg(test)]
mod slurm;
#[cfg(test)]
mod stale;
#[cfg(test)]
mod statuses;
#[cfg(test)]
mod unchanged;
