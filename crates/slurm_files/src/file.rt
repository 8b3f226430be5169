//! A SLURM file, read whole.
ghost use Rattle.std.specs.Prelude.{◌≡◌, ◌+◌, ◌⊎◌, ◌≢◌, ℕ, Err, IfErr, IfOk, MatchResult, None, Ok, OnOk, Some, map};
ghost use Rattle.std.specs.Str.{IsUtf8};
ghost use Rattle.json.specs.Value.{value_view};
ghost use Rattle.local_exceptions.specs.declared.fault.ExceptionFault.{ExceptionFault as SpecFault};
ghost use Rattle.slurm_files.specs.SlurmDocument.{IsSaid, IsSlurm, Reads, ReadsParts, entry_fault, nothing_said, outcome, with_entry};
ghost use Rattle.slurm_files.specs.SlurmParts.{parts_view};

use crate::entry::{Entry, read_entry};
use crate::fault::{Cause, SlurmFault};
use crate::member::Part;
use crate::parts::{Parts, parts_of};
use json::{Error, MAX_DEPTH, Reader, Scratch, Value};
use local_exceptions::{ExceptionFault, Exceptions};
use std::alloc::{AllocError, Allocator, Global};
use std::marker::Model;
use std::str;

/// What a file says.
#[derive(Drop)]
pub struct SlurmFile<A: Allocator = Global> {
    /// The filters and assertions of IPv4 prefixes, and those that match by AS alone.
    pub exceptions: Exceptions<A>,
    /// How many entries are of IPv6 prefixes, which are skipped.
    pub ipv6: u64,
    /// How many entries are of keys of BGPsec, which are skipped.
    pub bgpsec: u64,
}

impl<A: Allocator> Model for SlurmFile<A> {
    ghost use Rattle.slurm_files.specs.SlurmDocument.{Said};

    ghost Value = { Said };

    ghost view = { λ file. record { exceptions = file.exceptions; ipv6 = file.ipv6; bgpsec = file.bgpsec } };
}

/// What the file of these octets says, or its first fault.
pub fn read_slurm<A: Allocator + Clone + Copy>(
    alloc: A,
    octets: &[u8],
) -> Result<SlurmFile<A>, SlurmFault>
    ensures { (result ≡ Err SlurmFault.NoMemory) ⊎ IsSlurm octets.now result }
{
    let text = match str::from_utf8(octets) {
        Ok(text) => text,
        Err(fault) => return Err(SlurmFault::Text(fault.valid_up_to() as u64)),
    };
    read_text(alloc, text)
}

// What the file of this text says.
fn read_text<A: Allocator + Clone + Copy>(alloc: A, text: &str) -> Result<SlurmFile<A>, SlurmFault>
    ensures { IsUtf8 text.now → (result ≡ Err SlurmFault.NoMemory) ⊎ IsSlurm text.now result }
{
    let mut scratch = Scratch::new(alloc);
    match Value::parse(alloc, text, &mut scratch) {
        Ok(value) => read_value(alloc, &value),
        Err(Error::Invalid) => Err(text_fault(alloc, text)),
        Err(_) => Err(SlurmFault::NoMemory),
    }
}

// The fault of a text that is no value of JSON.
fn text_fault<A: Allocator + Clone + Copy>(alloc: A, text: &str) -> SlurmFault
    ensures { (result ≡ SlurmFault.NoMemory) ⊎ ((octet : ℕ) × (result ≡ SlurmFault.Text octet)) }
{
    let mut scratch = Scratch::new(alloc);
    match Reader::new(text, &mut scratch) {
        Ok(mut reader) => {
            let _ = reader.skip_value(MAX_DEPTH);
            SlurmFault::Text(reader.offset() as u64)
        }
        Err(_) => SlurmFault::NoMemory,
    }
}

// What the file of this value says.
fn read_value<A: Allocator + Clone + Copy>(
    alloc: A,
    value: &Value<'_, A>,
) -> Result<SlurmFile<A>, SlurmFault>
    ensures { (result ≡ Err SlurmFault.NoMemory) ⊎ IsSaid (value_view value.now) result }
{
    match parts_of(value) {
        Ok(parts) => read_parts(alloc, &parts),
        Err(fault) => Err(fault),
    }
}

// What the entries of these arrays say.
fn read_parts<A: Allocator + Clone + Copy>(
    alloc: A,
    parts: &Parts<'_, '_, A>,
) -> Result<SlurmFile<A>, SlurmFault>
    ensures { (result ≡ Err SlurmFault.NoMemory) ⊎ ReadsParts (parts_view parts.now) result }
{
    let Ok(mut file) = SlurmFile::new(alloc) else {
        return Err(SlurmFault::NoMemory);
    };
    file.add_entries(Part::PrefixFilters, parts.prefix_filters)?;
    file.add_entries(Part::BgpsecFilters, parts.bgpsec_filters)?;
    file.add_entries(Part::PrefixAssertions, parts.prefix_assertions)?;
    file.add_entries(Part::BgpsecAssertions, parts.bgpsec_assertions)?;
    Ok(file)
}

impl<A: Allocator + Clone> SlurmFile<A> {
    /// A file that says nothing.
    pub fn new(alloc: A) -> Result<SlurmFile<A>, AllocError>
        ensures { IfOk result (λ file. file ≡ nothing_said) }
    {
        let exceptions = Exceptions::new(alloc)?;
        Ok(SlurmFile {
            exceptions,
            ipv6: 0,
            bgpsec: 0,
        })
    }

    // Takes in the entries of an array, up to the first fault.
    fn add_entries(&mut self, part: Part, entries: &[Value<'_, A>]) -> Result<(), SlurmFault>
        ensures { (result ≡ Err SlurmFault.NoMemory) ⊎ Reads part 0 (map value_view entries.now) self.old (outcome result self.new) }
    {
        for (place, entry) in entries.iter().enumerate() {
            match read_entry(part, entry) {
                Ok(entry) => self.add(part, place as u64, entry)?,
                Err(cause) => return Err(SlurmFault::Entry(part, place as u64, cause)),
            }
        }
        Ok(())
    }

    // Takes in what the entry at this place says.
    fn add(&mut self, part: Part, place: u64, entry: Entry) -> Result<(), SlurmFault>
        ensures ok { OnOk result ((entry_fault entry self.old ≡ None) × (self.new ≡ with_entry entry self.old)) }
        ensures err { IfErr result (λ fault. (fault ≡ SlurmFault.NoMemory) ⊎ ((why : SpecFault) × (entry_fault entry self.old ≡ Some why) × (fault ≡ SlurmFault.Entry part place Cause.TooMany))) }
    {
        match entry {
            Entry::Filter(filter) => taken(part, place, self.exceptions.filter(filter)),
            Entry::Assertion(payload) => taken(part, place, self.exceptions.assert(payload)),
            Entry::Ipv6 => {
                self.ipv6 = one_more(self.ipv6)?;
                Ok(())
            }
            Entry::Bgpsec => {
                self.bgpsec = one_more(self.bgpsec)?;
                Ok(())
            }
        }
    }
}

// What it means for the file that an exception was taken or not.
fn taken(part: Part, place: u64, answer: Result<(), ExceptionFault>) -> Result<(), SlurmFault>
    ensures ok { OnOk result (answer ≡ Ok tt) }
    ensures err { IfErr result (λ fault. (answer ≡ Err ExceptionFault.NoMemory × (fault ≡ SlurmFault.NoMemory)) ⊎ ((why : SpecFault) × (answer ≡ Err why) × (why ≢ ExceptionFault.NoMemory) × (fault ≡ SlurmFault.Entry part place Cause.TooMany))) }
{
    match answer {
        Ok(()) => Ok(()),
        Err(ExceptionFault::NoMemory) => Err(SlurmFault::NoMemory),
        Err(_) => Err(SlurmFault::Entry(part, place, Cause::TooMany)),
    }
}

// One entry more, if it can be counted.
fn one_more(count: u64) -> Result<u64, SlurmFault>
    ensures { MatchResult result (λ more. more ≡ count + 1) (λ fault. fault ≡ SlurmFault.NoMemory) }
{
    match count.checked_add(1) {
        Some(more) => Ok(more),
        None => Err(SlurmFault::NoMemory),
    }
}
