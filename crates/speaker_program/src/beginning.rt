//! The loop of the settings, before its first turn.
ghost use Rattle.std.specs.Prelude.{◌≡◌, Ok, Err, Some, IfErr, IfOk, false};
ghost use Rattle.std.specs.declared.io.Error.{Error as IoError};
ghost use Rattle.std.specs.Fn.{FnReturnsAt};
ghost use Rattle.runs.specs.SpeakerState.{SpeakerState};
ghost use Rattle.speaker_program.specs.Commanded.{IsSpeakerOf, TextAt};
ghost use Rattle.speaker_program.specs.Begun.{IsBegun, StateFrom, is_watched, patience_of, with_remotes};
ghost use Rattle.speaker_program.specs.Unbegun.{IsUnbegun};
ghost use Rattle.speaker_program.specs.declared.fault.SpeakerFault.TheVariants.{Listen};

use crate::commanded_speaker::commanded;
use crate::exceptions::{said_of, tell_said};
use crate::fault::SpeakerFault;
use decision::Book;
use speaker_settings::SpeakerSettings;
use speaker_turns::{End, Patience, SpeakerLoop};
use std::alloc::{AllocGlobal, Global};
use std::io::{self, BufRead, Write};
use std::net::SocketAddr;
use std::rt::Clock;
use wires::Wire;

/// The loop of the settings, before its first turn. The log is told what their SLURM file says.
pub(crate) fn begin<
    R: Clock + AllocGlobal,
    B: Book<Global>,
    O: Write,
    L: BufRead + Drop,
    W: Wire + Drop,
    M,
    F,
>(
    rt: &R,
    settings: &SpeakerSettings,
    output: &mut O,
    texts: &M,
    opens: F,
) -> Result<SpeakerLoop<W, Global, B>, SpeakerFault>
where
    M: Fn(&str) -> io::Result<L>,
    F: FnOnce(Option<SocketAddr>, bool) -> io::Result<W>,
    requires texts { M.IsAlwaysCallable texts.now }
    // The wire is opened only behind a speaker that has obeyed what the settings' files say.
    requires opens { (speaker : SpeakerState) → IsSpeakerOf (TextAt (λ path lines. FnReturnsAt M.Fn texts.now path (Ok lines)) L.remaining) settings.now speaker → F.pre opens settings.now.listen (is_watched settings.now) }
    ensures begins { IfOk result (λ served. IsBegun (TextAt (λ path lines. FnReturnsAt M.Fn texts.now path (Ok lines)) L.remaining)
        (StateFrom (λ wire. F.post opens settings.now.listen (is_watched settings.now) (Ok wire)) W.state) settings.now served) }
    ensures unbegun { IfErr result (IsUnbegun (TextAt (λ path lines. FnReturnsAt M.Fn texts.now path (Ok lines)) L.remaining)
        (λ path error. FnReturnsAt M.Fn texts.now path (Err error)) (λ error. F.post opens settings.now.listen (is_watched settings.now) (Err error)) settings.now) }
    ensures silent { settings.now.log ≡ false → output.new ≡ output.old }
{
    let said = said_of(rt.alloc(), settings, texts)?;
    let speaker = commanded(rt.alloc(), settings, &said, texts)?;
    let wire = opened(settings.listen, is_watched(settings), opens)?;
    let mut served = SpeakerLoop::new(rt.alloc(), wire, speaker)?;
    served.set_patience(patience_of(settings));
    tell_remotes(settings, &mut served);
    tell_said(rt, settings, &said, output);
    Ok(served)
}

// How patient the loop of the settings is.
fn patience_of(settings: &SpeakerSettings) -> Patience
    ensures { result ≡ patience_of settings.now }
{
    Patience {
        send_hold: Some(settings.send_hold),
        open_wait: settings.open_wait,
    }
}

// Whether what is seen on the wire is kept.
fn is_watched(settings: &SpeakerSettings) -> bool
    ensures { result ≡ is_watched settings.now }
{
    settings.log || settings.metrics.is_some()
}

// The wire that is opened there, for a log or for none.
fn opened<W: Wire + Drop, F>(
    listen: Option<SocketAddr>,
    log: bool,
    opens: F,
) -> Result<W, SpeakerFault>
where
    F: FnOnce(Option<SocketAddr>, bool) -> io::Result<W>,
    requires { F.pre opens listen log }
    ensures wire { IfOk result (λ wire. F.post opens listen log (Ok wire)) }
    ensures unopened { IfErr result (λ fault. (error : IoError) × (fault ≡ Listen listen error) × F.post opens listen log (Err error)) }
{
    match opens(listen, log) {
        Ok(wire) => Ok(wire),
        Err(error) => Err(SpeakerFault::Listen { listen, error }),
    }
}

// Tells where the peers are, and the cache.
fn tell_remotes<B: Book<Global>, W: Wire + Drop>(
    settings: &SpeakerSettings,
    served: &mut SpeakerLoop<W, Global, B>,
)
    ensures { served.new ≡ with_remotes settings.now.peers.items settings.now.cache served.old }
{
    for (slot, remote) in &settings.peers {
        served.set_remote(End::Peer(*slot), *remote);
    }
    if let Some(remote) = settings.cache {
        served.set_remote(End::Cache, remote);
    }
}
