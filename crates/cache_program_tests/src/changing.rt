//! A file that changes while it is read.

ghost use Rattle.std.specs.Prelude.{Option};
ghost use Rattle.file_paths.specs.declared.steady.Stamp.{Stamp};

use crate::rereads::{FIRST, is_published, serving_none};
use cache_program::{ListFault, Reread, ServedList};
use cache_watch::FileAge;
use file_paths::{Stamp, Steady};
use list_guards::Guards;
use net_wires::NetWire;
use payload_sources::{SourceFault, SourceFile, Sources};
use program_stages::lend;
use std::alloc::Global;
use std::io::{self, Read};
use std::test::Fail;
use wires::Wire;

const LIST: &[u8] =
    b"ASN,IP Prefix,Max Length,Trust Anchor\nAS1,192.0.2.0/24,24,ta\nAS2,198.51.100.0/24,24,ta\n";

const NO_EXCEPTIONS: &[u8] =
    br#"{"slurmVersion": 1, "validationOutputFilters": {"prefixFilters": [], "bgpsecFilters": []}, "locallyAddedAssertions": {"prefixAssertions": [], "bgpsecAssertions": []}}"#;

/// A file without fault, which may be written to while it is read.
#[derive(Drop)]
pub(crate) struct File<'a> {
    pub rest: &'a [u8],
    pub changes: bool,
    pub stamp: Option<Stamp>,
}

impl<'a> Read for File<'a> {
    fn read(&mut self, buf: &mut [u8]) -> io::Result<usize> {
        self.rest.read(buf)
    }
}

impl<'a> Steady for File<'a> {
    ghost stamp = { λ file. file.stamp };

    fn has_changed(&self) -> bool {
        self.changes
    }

    fn stamp(&self) -> Option<Stamp> {
        self.stamp
    }
}

// What reading the list leads to, where these files change.
fn reread_changing<W: Wire + Drop>(
    alloc: Global,
    served: &mut ServedList<W>,
    list: bool,
    slurm: bool,
) -> Reread {
    let sources = Sources {
        list: File {
            rest: LIST,
            changes: list,
            stamp: None,
        },
        slurm: Some(File {
            rest: NO_EXCEPTIONS,
            changes: slurm,
            stamp: None,
        }),
        second: None,
    };
    served.reread(alloc, 0, FileAge::NEW, None, Ok(sources))
}

fn refused(file: SourceFile) -> Reread {
    Reread::Refused(ListFault::Source(SourceFault::Changed(file)))
}

// Whether what was served is served on where a file changes, and the list is taken where none does.
fn stays<W: Wire + Drop>(alloc: Global, served: &mut ServedList<W>) -> bool {
    is_published(alloc, served, FIRST, 1)
        && reread_changing(alloc, served, true, false) == refused(SourceFile::List)
        && reread_changing(alloc, served, false, true) == refused(SourceFile::Slurm)
        && served.payloads() == 1
        && reread_changing(alloc, served, false, false) == Reread::Published(2)
        && served.payloads() == 2
}

#[test]
fn a_file_that_changes_is_not_taken(rt: HostRuntime) -> Result<(), Fail> {
    let served = serving_none(rt.alloc(), NetWire::new(&rt)?, Guards::NONE)?;
    assert!(rt; lend(served, |served| stays(rt.alloc(), served)));
    Ok(())
}
