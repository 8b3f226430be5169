//! The files that are opened.
ghost use Rattle.std.specs.Prelude.{◌≡◌, Err, MatchResult, None, Ok, Some, option_map};
ghost use Rattle.std.specs.Fn.{FnReturnsAt};
ghost use Rattle.payload_sources.specs.OpenedSources.{Gives, Opens, OpensBehind, seen};
ghost use Rattle.payload_sources.specs.PayloadSources.{same_if_any, same_stamps, stamps_of, texts_of};

use crate::fault::{SourceFile, Unopened};
use file_paths::{Stamp, Steady};
use std::io::{self, Read};

/// A list, and a SLURM file where there is one, as they were opened.
#[derive(Drop)]
pub struct Sources<L> {
    pub list: L,
    pub slurm: Option<L>,
    /// At which second since 1970 what has expired before it is left out of the list, if it is.
    pub second: Option<u64>,
}

/// The stamps of a list, and of a SLURM file where there is one.
#[derive(Clone, Copy, Debug, PartialEq, Eq)]
pub struct SourceStamps {
    pub list: Stamp,
    pub slurm: Option<Stamp>,
}

impl SourceStamps {
    /// Whether they are these, each in each number.
    pub fn are(self, others: SourceStamps) -> bool
        ensures { result ≡ same_stamps self others }
    {
        self.list.is(others.list) && is_slurm_stamp(self.slurm, others.slurm)
    }
}

// Whether the SLURM file's stamp is this, or there is none.
fn is_slurm_stamp(stamp: Option<Stamp>, other: Option<Stamp>) -> bool
    ensures { result ≡ same_if_any stamp other }
{
    let Some(stamp) = stamp else {
        return other.is_none();
    };
    match other {
        Some(other) => stamp.is(other),
        None => false,
    }
}

impl<L: Steady> Sources<L> {
    /// The stamps by which the files are known again, if each is.
    pub fn stamps(&self) -> Option<SourceStamps>
        ensures { result ≡ stamps_of (L.stamp self.now.list) (option_map L.stamp self.now.slurm) }
    {
        match &self.slurm {
            None => stamps_alone(self.list.stamp()),
            Some(file) => stamps_with(self.list.stamp(), file.stamp()),
        }
    }
}

fn stamps_alone(list: Option<Stamp>) -> Option<SourceStamps>
    ensures { result ≡ stamps_of list None }
{
    match list {
        Some(list) => Some(SourceStamps { list, slurm: None }),
        None => None,
    }
}

fn stamps_with(list: Option<Stamp>, slurm: Option<Stamp>) -> Option<SourceStamps>
    ensures { result ≡ stamps_of list (Some slurm) }
{
    let Some(list) = list else {
        return None;
    };
    match slurm {
        Some(file) => Some(SourceStamps {
            list,
            slurm: Some(file),
        }),
        None => None,
    }
}

/// Opens the list at its path, and the SLURM file behind it where it has one, to be read at this second.
pub fn open_sources<L: Read + Steady + Drop, F>(
    csv: &str,
    slurm: Option<&str>,
    second: Option<u64>,
    opens: &F,
) -> Result<Sources<L>, Unopened>
where
    F: Fn(&str) -> io::Result<L>,
    requires { F.IsAlwaysCallable opens.now }
    ensures { MatchResult result (λ sources. Opens (FnReturnsAt F.Fn opens.now) L.remaining L.stamp second csv.now (option_map (λ path. path.now) slurm.entry) (Ok (texts_of L.remaining L.stamp sources.list sources.slurm sources.second))) (λ unopened. Opens (FnReturnsAt F.Fn opens.now) L.remaining L.stamp second csv.now (option_map (λ path. path.now) slurm.entry) (Err unopened.file)) }
{
    match opens(csv) {
        Ok(list) => open_behind(list, slurm, second, opens),
        Err(error) => Err(Unopened {
            file: SourceFile::List,
            error,
        }),
    }
}

// The list, and the SLURM file where it has a path.
fn open_behind<L: Read + Steady + Drop, F>(
    list: L,
    slurm: Option<&str>,
    second: Option<u64>,
    opens: &F,
) -> Result<Sources<L>, Unopened>
where
    F: Fn(&str) -> io::Result<L>,
    requires { F.IsAlwaysCallable opens.now }
    ensures { MatchResult result (λ sources. OpensBehind (FnReturnsAt F.Fn opens.now) L.remaining L.stamp second (option_map (λ path. path.now) slurm.entry) (seen L.remaining L.stamp list) (Ok (texts_of L.remaining L.stamp sources.list sources.slurm sources.second))) (λ unopened. OpensBehind (FnReturnsAt F.Fn opens.now) L.remaining L.stamp second (option_map (λ path. path.now) slurm.entry) (seen L.remaining L.stamp list) (Err unopened.file)) }
{
    let Some(path) = slurm else {
        return Ok(Sources {
            list,
            slurm: None,
            second,
        });
    };
    match opens(path) {
        Ok(file) => Ok(Sources {
            list,
            slurm: Some(file),
            second,
        }),
        Err(error) => Err(Unopened {
            file: SourceFile::Slurm,
            error,
        }),
    }
}
