//! The speaker of the settings, and their commands.
ghost use Rattle.std.specs.Prelude.{◌≡◌, [], Ok, Err, IfErr, IfOk, MatchOption, OnOk, string_bytes};
ghost use Rattle.std.specs.Fn.{FnReturnsAt};
ghost use Rattle.file_paths.specs.OpenedFiles.{AreOctetsOf};
ghost use Rattle.speaker_program.specs.Commanded.{IsCommanded, IsCommandedBy, IsStoppedIn, ObeysText, TextAt};
ghost use Rattle.speaker_program.specs.Endings.{IsOfCommands, IsUnread};
ghost use Rattle.runs.specs.SlotTimes.{usual_timers};
ghost use Rattle.speaker_program.specs.Slots.{HasJust, IsOtherSlot, is_configured};
ghost use Rattle.speaker_program.specs.ToldConfig.{config_of, with_all_times};
ghost use Rattle.speaker_program.specs.Unbegun.{IsStopped, IsUncommanded, IsUnmade};
ghost use Rattle.scenario.specs.FileLines.{lines};
ghost use Rattle.runs.specs.Agreement.{Agrees};

use crate::exceptions::{except, lines_at};
use crate::fault::SpeakerFault;
use crate::unobeyed::Unobeyed;
use bgp_conf::PEER_SLOTS;
use decision::Book;
use file_paths::octets_of;
use scenario::{CommandsFault, obey_lines};
use slurm_files::SlurmFile;
use speaker::{CACHE_RETRY_SECONDS, Config, PeerTimers, SlotTimers, Speaker};
use speaker_settings::{SpeakerSettings, has_slot};
use std::alloc::Global;
use std::io::{self, BufRead};
use std::net::SocketAddr;

/// The speaker of the settings, which has obeyed the exceptions that their SLURM file says, and then their commands.
pub(crate) fn commanded<B: Book<Global>, L: BufRead + Drop, M>(
    alloc: Global,
    settings: &SpeakerSettings,
    said: &SlurmFile,
    texts: &M,
) -> Result<Speaker<Global, B>, SpeakerFault>
where
    M: Fn(&str) -> io::Result<L>,
    requires { M.IsAlwaysCallable texts.now }
    ensures slots { IfOk result (HasJust settings.now.peers.items) }
    ensures commands { IfOk result (λ speaker. (lines : L) × FnReturnsAt M.Fn texts.now (string_bytes settings.now.commands) (Ok lines)
        × IsCommanded said.now.exceptions (L.remaining lines) (config_of settings.now) speaker) }
    ensures uncommanded { IfErr result (IsUncommanded (TextAt (λ path lines. FnReturnsAt M.Fn texts.now path (Ok lines)) L.remaining) (λ path error. FnReturnsAt M.Fn texts.now path (Err error)) settings.now said.now.exceptions) }
{
    let mut speaker = made(alloc, config_of(settings))?;
    except(alloc, settings, said, &mut speaker)?;
    command(alloc, settings, &mut speaker, texts)?;
    Ok(speaker)
}

// What the speaker of the settings is made with.
fn config_of(settings: &SpeakerSettings) -> Config
    ensures { result ≡ config_of settings.now }
{
    Config {
        asn: settings.asn,
        identifier: settings.identifier,
        cache: settings.cache.is_some(),
        cache_retry: settings.cache_retry.unwrap_or(CACHE_RETRY_SECONDS),
        multiprotocol: settings.multiprotocol,
        timers: timers_of(settings.timers.as_slice()),
    }
}

// The timers of each slot's peer.
fn timers_of(told: &[(u8, PeerTimers)]) -> SlotTimers
    ensures { result ≡ with_all_times told.now usual_timers }
{
    let mut timers = SlotTimers::USUAL;
    for (slot, times) in told {
        timers = timers.with_slot(*slot, *times);
    }
    timers
}

// A speaker that has obeyed no command.
fn made<B: Book<Global>>(alloc: Global, config: Config) -> Result<Speaker<Global, B>, SpeakerFault>
    ensures agrees { IfOk result (λ speaker. Agrees config [] speaker) }
    ensures unmade { IfErr result (IsUnmade config) }
{
    match Speaker::new(alloc, config) {
        Ok(speaker) => Ok(speaker),
        Err(refusal) => Err(SpeakerFault::Refused(refusal)),
    }
}

// Hands the commands of the settings to the speaker, whose slots are to be just those of the settings then.
fn command<B: Book<Global>, L: BufRead + Drop, M>(
    alloc: Global,
    settings: &SpeakerSettings,
    speaker: &mut Speaker<Global, B>,
    texts: &M,
) -> Result<(), SpeakerFault>
where
    M: Fn(&str) -> io::Result<L>,
    requires { M.IsAlwaysCallable texts.now }
    ensures slots { OnOk result (HasJust settings.now.peers.items speaker.new) }
    ensures commands { OnOk result ((lines : L) × FnReturnsAt M.Fn texts.now (string_bytes settings.now.commands) (Ok lines) × ObeysText (L.remaining lines) speaker.old speaker.new) }
    ensures stopped { IfErr result (IsStopped (TextAt (λ path lines. FnReturnsAt M.Fn texts.now path (Ok lines)) L.remaining) (λ path error. FnReturnsAt M.Fn texts.now path (Err error)) settings.now speaker.old speaker.new) }
{
    let path = settings.commands.as_str();
    let lines = lines_at(alloc, path, texts)?;
    command_from(alloc, path, lines, speaker)?;
    match other_slot(speaker, settings.peers.as_slice()) {
        None => Ok(()),
        Some(slot) => Err(SpeakerFault::bad_slot(alloc, path, slot)),
    }
}

// Hands the commands that a reader of this path has to the speaker. They are read whole before, so that the cause of a line that
// is none can be told.
fn command_from<B: Book<Global>, R: BufRead + Drop>(
    alloc: Global,
    path: &str,
    reader: R,
    speaker: &mut Speaker<Global, B>,
) -> Result<(), SpeakerFault>
    ensures stops { IfErr result (IsStoppedIn (R.remaining reader) path.now speaker.old speaker.new) }
    ensures obeys { OnOk result (ObeysText (R.remaining reader) speaker.old speaker.new) }
{
    let text = text_of(alloc, path, reader)?;
    obey_text(alloc, path, text.as_slice(), speaker)
}

// The text that a reader of this path has.
fn text_of<R: BufRead + Drop>(alloc: Global, path: &str, reader: R) -> Result<Vec<u8>, SpeakerFault>
    ensures text { IfOk result (λ text. AreOctetsOf (R.remaining reader) text.items) }
    ensures unread { IfErr result (IsUnread path.now) }
{
    match octets_of(alloc, reader) {
        Ok(text) => Ok(text),
        Err(error) => Err(unread(alloc, path, CommandsFault::from(error))),
    }
}

fn unread(alloc: Global, path: &str, why: CommandsFault) -> SpeakerFault
    ensures commands { IsOfCommands path.now why result }
{
    SpeakerFault::bad_commands(alloc, path, Unobeyed::unread(why))
}

// Hands the commands of a text to the speaker, line by line.
fn obey_text<B: Book<Global>>(
    alloc: Global,
    path: &str,
    text: &[u8],
    speaker: &mut Speaker<Global, B>,
) -> Result<(), SpeakerFault>
    ensures obeys { IsCommandedBy path.now (lines text.now) result speaker.old speaker.new }
{
    match obey_lines(alloc, text, speaker) {
        Ok(()) => Ok(()),
        Err(why) => {
            let why = Unobeyed::of(alloc, text, why);
            Err(SpeakerFault::bad_commands(alloc, path, why))
        }
    }
}

// A slot that is configured and none of the peers', or one of them that isn't.
fn other_slot<B: Book<Global>>(
    speaker: &Speaker<Global, B>,
    peers: &[(u8, SocketAddr)],
) -> Option<u8>
    ensures { MatchOption result (HasJust peers.now speaker.now) (IsOtherSlot peers.now speaker.now) }
{
    for slot in 0..PEER_SLOTS {
        if is_configured(speaker, slot) != has_slot(peers, slot) {
            return Some(slot);
        }
    }
    None
}

fn is_configured<B: Book<Global>>(speaker: &Speaker<Global, B>, slot: u8) -> bool
    ensures { result ≡ is_configured speaker.now slot }
{
    speaker.session(slot).is_some()
}
