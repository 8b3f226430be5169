//! The set of a list, under the exceptions of a SLURM file where there is one.
ghost use Rattle.std.specs.Prelude.{◌≡◌, ℕ, List, MatchResult, Option, Some};
ghost use Rattle.payload_lists.specs.PayloadLists.{IsListOf};
ghost use Rattle.payload_sources.specs.PayloadSources.{IsRead, IsRefused, IsRefusedList, IsRefusedSlurm, IsSaidBy, IsUnderFile, SaysWritten, texts_of};

use crate::fault::{SourceFault, SourceFile};
use crate::opening::{SourceStamps, Sources};
use file_paths::Steady;
use net_prefix::Vrp;
use payload_lists::{Listed, read_payloads};
use slurm_files::{SlurmFault, SlurmFile, read_slurm};
use std::alloc::Global;
use std::collections::BTreeSet;
use std::io::{ErrorKind, Read};
use vrp_json::Written;

/// What was read.
#[derive(Drop)]
pub struct SourceSet {
    /// The set of the list under the exceptions.
    pub set: BTreeSet<Vrp>,
    /// What the SLURM file says, where there is one.
    pub slurm: Option<SlurmFile>,
    /// When the list says that it was written.
    pub written: Written,
    /// The stamps that the files had when they were opened, by which they are known again, if each is.
    pub stamps: Option<SourceStamps>,
}

/// The set of the list, under the exceptions of the SLURM file where there is one, or the first fault: that of the list, if
/// it has one.
pub fn read_sources<L: Read + Steady + Drop>(
    alloc: Global,
    sources: Sources<L>,
) -> Result<SourceSet, SourceFault>
    ensures { MatchResult result (λ read. IsRead (texts_of L.remaining L.stamp sources.list sources.slurm sources.second) read.slurm read.set.keys × SaysWritten (texts_of L.remaining L.stamp sources.list sources.slurm sources.second) read.written × (read.stamps ≡ (texts_of L.remaining L.stamp sources.list sources.slurm sources.second).stamps)) (λ fault. IsRefused (texts_of L.remaining L.stamp sources.list sources.slurm sources.second) fault) }
{
    let stamps = sources.stamps();
    let listed = match read_steadily(alloc, sources.list, sources.second) {
        Ok(listed) => listed,
        Err(fault) => return Err(fault),
    };
    let written = listed.written;
    match sources.slurm {
        None => Ok(SourceSet {
            set: listed.loaded.set,
            slurm: None,
            written,
            stamps,
        }),
        Some(file) => match read_under(alloc, listed.loaded.set, file) {
            Ok((set, said)) => Ok(SourceSet {
                set,
                slurm: Some(said),
                written,
                stamps,
            }),
            Err(fault) => Err(fault),
        },
    }
}

// The list, unless its file changed while it was read.
fn read_steadily<L: Read + Steady + Drop>(
    alloc: Global,
    list: L,
    second: Option<u64>,
) -> Result<Listed, SourceFault>
    ensures { MatchResult result (λ listed. (text : List ℕ) → L.remaining list ≡ Some text → IsListOf second text listed) (λ fault. IsRefusedList (L.remaining list) fault) }
{
    let mut list = list;
    let read = read_payloads(alloc, &mut list, second);
    if list.has_changed() {
        return Err(SourceFault::Changed(SourceFile::List));
    }
    match read {
        Ok(listed) => Ok(listed),
        Err(refused) => Err(SourceFault::List(refused)),
    }
}

// The set under the exceptions of the SLURM file, and what that says.
fn read_under<L: Read + Steady + Drop>(
    alloc: Global,
    set: BTreeSet<Vrp>,
    file: L,
) -> Result<(BTreeSet<Vrp>, SlurmFile), SourceFault>
    ensures { MatchResult result (λ read. IsUnderFile (Some (L.remaining file)) (Some read.1) set.keys read.0.keys) (λ fault. IsRefusedSlurm (L.remaining file) fault) }
{
    let said = read_file(alloc, file)?;
    match said.exceptions.under(alloc, &set) {
        Ok(after) => {
            let _ = after.len();
            Ok((after, said))
        }
        Err(_) => Err(SourceFault::Slurm(SlurmFault::NoMemory)),
    }
}

// What the SLURM file says.
fn read_file<L: Read + Steady + Drop>(alloc: Global, file: L) -> Result<SlurmFile, SourceFault>
    ensures { MatchResult result (λ said. IsSaidBy (L.remaining file) said) (λ fault. IsRefusedSlurm (L.remaining file) fault) }
{
    let mut file = file;
    let mut octets = Vec::new(alloc);
    if let Err(error) = file.read_to_end(&mut octets) {
        return Err(fault_of(error.kind()));
    }
    if file.has_changed() {
        return Err(SourceFault::Changed(SourceFile::Slurm));
    }
    match read_slurm(alloc, octets.as_slice()) {
        Ok(said) => Ok(said),
        Err(fault) => Err(SourceFault::Slurm(fault)),
    }
}

// What the fault of a read means for a SLURM file.
fn fault_of(kind: ErrorKind) -> SourceFault
    ensures { (file : Option (List ℕ)) → IsRefusedSlurm file result }
{
    match kind {
        ErrorKind::OutOfMemory => SourceFault::Slurm(SlurmFault::NoMemory),
        _ => SourceFault::SlurmDevice,
    }
}
