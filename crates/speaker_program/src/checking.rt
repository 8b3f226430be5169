//! What is answered besides serving.
ghost use Rattle.std.specs.Prelude.{◌≡◌, Ok, Err, IfErr, OnOk};
ghost use Rattle.std.specs.declared.io.Error.{Error as IoError};
ghost use Rattle.std.specs.Fn.{FnOnceReturnsAt, FnReturnsAt};
ghost use Rattle.speaker_program.specs.Commanded.{TextAt};
ghost use Rattle.speaker_program.specs.Checked.{IsChecked, IsCheckedBy, IsUncheckedBy};
ghost use Rattle.speaker_program.specs.Files.{AreOctetsAt, IsGiven, IsLost};
ghost use Rattle.speaker_program.specs.Unbegun.{IsUnchecked};
ghost use Rattle.speaker_program.specs.declared.fault.SpeakerFault.TheVariants.{Output as OutputFails};

use crate::commanded_speaker::commanded;
use crate::exceptions::said_of;
use crate::fault::SpeakerFault;
use crate::files::{lines_of, octets_at};
use crate::help::{HELP, VERSION};
use crate::settings_file::read_settings;
use crate::settled::settled;
use bgp_conf::Conf;
use decision::Book;
use file_paths::OpensFiles;
use program_endings::{Aside, print};
use slurm_files::SlurmFile;
use speaker_exceptions::SlurmLine;
use speaker_settings::SpeakerSettings;
use speaker_warnings::write_warnings;
use std::alloc::Global;
use std::io::{self, BufRead, Write};

/// Answers what is asked besides serving.
pub(crate) fn answer<B: Book<Global>, P: OpensFiles, O: Write>(
    alloc: Global,
    files: &P,
    aside: Aside<'_>,
    output: &mut O,
) -> Result<(), SpeakerFault>
    ensures checked { OnOk result (IsCheckedBy P.opened aside.entry) }
    ensures unchecked { IfErr result (IsUncheckedBy P.opened P.refused aside.entry) }
{
    match aside {
        Aside::Help => print(HELP, output).map_err(SpeakerFault::Output),
        Aside::Version => print(VERSION, output).map_err(SpeakerFault::Output),
        Aside::Check(path) => check_files::<B, _, _>(alloc, files, path, output),
    }
}

// Checks the settings at this path by these files.
fn check_files<B: Book<Global>, P: OpensFiles, O: Write>(
    alloc: Global,
    files: &P,
    path: &str,
    output: &mut O,
) -> Result<(), SpeakerFault>
    ensures checked { OnOk result (IsChecked (AreOctetsAt P.opened) P.opened path.now) }
    ensures unchecked { IfErr result (IsUnchecked P.opened (IsLost P.opened P.refused) (AreOctetsAt P.opened) (IsLost P.opened P.refused) path.now) }
{
    check::<B, _, _, _, _>(
        alloc,
        path,
        output,
        |path: &str| octets_at(alloc, files, path),
        &|path: &str| lines_of(alloc, files, path),
    )
}

// Reads the settings of this path, obeys their exceptions and their commands, and tells what they are.
fn check<B: Book<Global>, L: BufRead + Drop, O: Write, S, M>(
    alloc: Global,
    path: &str,
    output: &mut O,
    reads: S,
    texts: &M,
) -> Result<(), SpeakerFault>
where
    S: FnOnce(&str) -> io::Result<Vec<u8>>,
    M: Fn(&str) -> io::Result<L>,
    requires reads { S.IsAlwaysCallable reads }
    requires texts { M.IsAlwaysCallable texts.now }
    ensures checked { OnOk result (IsChecked (λ path. IsGiven (λ octets. FnOnceReturnsAt S.FnOnce reads path (Ok octets)))
        (TextAt (λ path lines. FnReturnsAt M.Fn texts.now path (Ok lines)) L.remaining) path.now) }
    ensures unchecked { IfErr result (IsUnchecked (TextAt (λ path lines. FnReturnsAt M.Fn texts.now path (Ok lines)) L.remaining) (λ path error. FnReturnsAt M.Fn texts.now path (Err error))
        (λ path. IsGiven (λ octets. FnOnceReturnsAt S.FnOnce reads path (Ok octets))) (λ path error. FnOnceReturnsAt S.FnOnce reads path (Err error)) path.now) }
{
    let settings = read_settings(alloc, path, reads)?;
    let said = said_of(alloc, &settings, texts)?;
    let speaker = commanded::<B, _, _>(alloc, &settings, &said, texts)?;
    tell_checked(path, &settings, &said, speaker.conf(), output)
}

// Tells what settings are, and what of them is hardly meant.
fn tell_checked<O: Write>(
    path: &str,
    settings: &SpeakerSettings,
    said: &SlurmFile,
    conf: &Conf<Global>,
    output: &mut O,
) -> Result<(), SpeakerFault>
    ensures { IfErr result (λ fault. (error : IoError) × (fault ≡ OutputFails error)) }
{
    let asn = settings.asn.0;
    let peers = settings.peers.len();
    let commands = settings.commands.as_str();
    let written = writeln!(output, "{path}: settings of AS {asn} with {peers} peers");
    written.map_err(SpeakerFault::Output)?;
    write_said(settings, said, output).map_err(SpeakerFault::Output)?;
    let written = writeln!(output, "{commands}: commands that are obeyed");
    written.map_err(SpeakerFault::Output)?;
    write_warnings(conf, settled(settings), output).map_err(SpeakerFault::Output)?;
    output.flush().map_err(SpeakerFault::Output)
}

// Tells what their SLURM file says, if they have one.
fn write_said<O: Write>(
    settings: &SpeakerSettings,
    said: &SlurmFile,
    output: &mut O,
) -> io::Result<()> {
    match &settings.slurm {
        Some(path) => {
            let line = SlurmLine::of(path.as_str(), said);
            writeln!(output, "{line}")
        }
        None => Ok(()),
    }
}
