//! The local exceptions of the settings.
ghost use Rattle.std.specs.Prelude.{◌≡◌, Ok, Err, IfErr, IfOk, false};
ghost use Rattle.std.specs.Fn.{FnReturnsAt};
ghost use Rattle.file_paths.specs.OpenedFiles.{AreOctetsOf};
ghost use Rattle.slurm_files.specs.SlurmDocument.{nothing_said};
ghost use Rattle.slurm_files.specs.declared.fault.SlurmFault.{SlurmFault as SpecFault};
ghost use Rattle.speaker_exceptions.specs.declared.fault.ExceptionsFault.TheVariants.{Slurm};
ghost use Rattle.speaker_program.specs.Commanded.{AreSaidOf, IsSaidAt, IsSaidIn, TextAt};
ghost use Rattle.speaker_program.specs.Endings.{IsOfExceptions};
ghost use Rattle.speaker_program.specs.Unbegun.{IsExceptedBy, IsFaultIn, IsUnopenedAt, IsUnreadAt, IsUnsaid, IsUnsaidAt, slurm_path};
ghost use Rattle.speaker_program.specs.declared.fault.SpeakerFault.TheVariants.{NoMemory};

use crate::fault::SpeakerFault;
use decision::Book;
use file_paths::octets_of;
use log_lines::log;
use slurm_files::{SlurmFault, SlurmFile, read_slurm};
use speaker::Speaker;
use speaker_exceptions::{ExceptionsFault, SlurmLine, obey_exceptions};
use speaker_settings::SpeakerSettings;
use std::alloc::Global;
use std::io::{self, BufRead, Write};
use std::rt::Clock;

/// What the SLURM file of the settings says; nothing where they have none.
pub(crate) fn said_of<L: BufRead + Drop, M>(
    alloc: Global,
    settings: &SpeakerSettings,
    texts: &M,
) -> Result<SlurmFile, SpeakerFault>
where
    M: Fn(&str) -> io::Result<L>,
    requires { M.IsAlwaysCallable texts.now }
    ensures said { IfOk result (AreSaidOf (TextAt (λ path lines. FnReturnsAt M.Fn texts.now path (Ok lines)) L.remaining) settings.now.slurm) }
    ensures unsaid { IfErr result (IsUnsaid (TextAt (λ path lines. FnReturnsAt M.Fn texts.now path (Ok lines)) L.remaining) (λ path error. FnReturnsAt M.Fn texts.now path (Err error)) settings.now.slurm) }
{
    let Some(path) = &settings.slurm else {
        return nothing_said(alloc);
    };
    said_at(alloc, path.as_str(), texts)
}

// That nothing is said.
fn nothing_said(alloc: Global) -> Result<SlurmFile, SpeakerFault>
    ensures nothing { IfOk result (λ said. said ≡ nothing_said) }
    ensures memory { IfErr result (λ fault. fault ≡ NoMemory) }
{
    match SlurmFile::new(alloc) {
        Ok(said) => Ok(said),
        Err(_) => Err(SpeakerFault::NoMemory),
    }
}

// What the SLURM file of this path says.
fn said_at<L: BufRead + Drop, M>(
    alloc: Global,
    path: &str,
    texts: &M,
) -> Result<SlurmFile, SpeakerFault>
where
    M: Fn(&str) -> io::Result<L>,
    requires { M.IsAlwaysCallable texts.now }
    ensures said { IfOk result (IsSaidAt (TextAt (λ path lines. FnReturnsAt M.Fn texts.now path (Ok lines)) L.remaining) path.now) }
    ensures unsaid { IfErr result (IsUnsaidAt (TextAt (λ path lines. FnReturnsAt M.Fn texts.now path (Ok lines)) L.remaining) (λ path error. FnReturnsAt M.Fn texts.now path (Err error)) path.now) }
{
    let octets = octets_at(alloc, path, texts)?;
    said_in(alloc, path, octets.as_slice())
}

// The octets of the file of this path.
fn octets_at<L: BufRead + Drop, M>(
    alloc: Global,
    path: &str,
    texts: &M,
) -> Result<Vec<u8>, SpeakerFault>
where
    M: Fn(&str) -> io::Result<L>,
    requires { M.IsAlwaysCallable texts.now }
    ensures octets { IfOk result (λ octets. (lines : L) × FnReturnsAt M.Fn texts.now path.now (Ok lines) × AreOctetsOf (L.remaining lines) octets.items) }
    ensures unread { IfErr result (IsUnreadAt (TextAt (λ path lines. FnReturnsAt M.Fn texts.now path (Ok lines)) L.remaining) (λ path error. FnReturnsAt M.Fn texts.now path (Err error)) path.now) }
{
    let lines = lines_at(alloc, path, texts)?;
    match octets_of(alloc, lines) {
        Ok(octets) => Ok(octets),
        Err(error) => Err(SpeakerFault::unread(alloc, path, error)),
    }
}

/// The reader of the file of this path.
pub(crate) fn lines_at<L: BufRead + Drop, M>(
    alloc: Global,
    path: &str,
    texts: &M,
) -> Result<L, SpeakerFault>
where
    M: Fn(&str) -> io::Result<L>,
    requires { M.IsAlwaysCallable texts.now }
    ensures given { IfOk result (λ lines. FnReturnsAt M.Fn texts.now path.now (Ok lines)) }
    ensures unopened { IfErr result (IsUnopenedAt (λ path error. FnReturnsAt M.Fn texts.now path (Err error)) path.now) }
{
    match texts(path) {
        Ok(lines) => Ok(lines),
        Err(error) => Err(SpeakerFault::unread(alloc, path, error)),
    }
}

// What the SLURM file of this path and these octets says.
fn said_in(alloc: Global, path: &str, octets: &[u8]) -> Result<SlurmFile, SpeakerFault>
    ensures said { IfOk result (IsSaidIn octets.now) }
    ensures faulty { IfErr result (λ fault. (why : SpecFault) × IsFaultIn octets.now why × IsOfExceptions path.now (Slurm why) fault) }
{
    match read_slurm(alloc, octets) {
        Ok(said) => Ok(said),
        Err(fault) => Err(bad_file(alloc, path, fault)),
    }
}

fn bad_file(alloc: Global, path: &str, fault: SlurmFault) -> SpeakerFault
    ensures exceptions { IsOfExceptions path.now (Slurm fault) result }
{
    SpeakerFault::bad_exceptions(alloc, path, ExceptionsFault::Slurm(fault))
}

/// Hands what the SLURM file of the settings says to the speaker.
pub(crate) fn except<B: Book<Global>>(
    alloc: Global,
    settings: &SpeakerSettings,
    said: &SlurmFile,
    speaker: &mut Speaker<Global, B>,
) -> Result<(), SpeakerFault>
    ensures obeys { IsExceptedBy (slurm_path settings.now.slurm) said.now.exceptions result speaker.old speaker.new }
{
    match obey_exceptions(&said.exceptions, speaker) {
        Ok(()) => Ok(()),
        Err(refusal) => {
            let path = slurm_path(settings);
            let why = ExceptionsFault::Refused(refusal);
            Err(SpeakerFault::bad_exceptions(alloc, path, why))
        }
    }
}

// The path of the SLURM file, or an empty one where there is none.
fn slurm_path(settings: &SpeakerSettings) -> &str
    ensures { result.now ≡ slurm_path settings.now.slurm }
{
    match &settings.slurm {
        Some(path) => path.as_str(),
        None => "",
    }
}

/// Tells the log what the SLURM file of the settings says, if they have one.
pub(crate) fn tell_said<R: Clock, O: Write>(
    rt: &R,
    settings: &SpeakerSettings,
    said: &SlurmFile,
    output: &mut O,
)
    ensures { settings.now.log ≡ false → output.new ≡ output.old }
{
    if let Some(path) = &settings.slurm {
        log(
            rt,
            settings.log,
            output,
            &SlurmLine::of(path.as_str(), said),
        );
    }
}
