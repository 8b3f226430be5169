//! The calls of a speaker for one of its sessions.
ghost use Rattle.std.specs.Prelude.{◌≡◌, ◌≤◌, ◌<◌, is_none, length, nat_le, take, true};
ghost use Rattle.rib_out.specs.Slots.{has_slot};
ghost use Rattle.runs.specs.FirstRefusal.{Grows, awaits_up, may_bring_octets, may_fail, refusal_of};
ghost use Rattle.runs.specs.Runs.{call_of};
ghost use Rattle.speaker_turns.specs.Obeying.{Commanding};
ghost use Rattle.speaker_turns.specs.Sessions.{Asks, Ticks, bytes_call, fail_call, is_in_open_sent, is_there, is_unopened, queued_for, take_call, transport_of, up_call, wanted_transport_of};
ghost use Rattle.speaker_turns.specs.Turns.{has_opened};
ghost use Rattle.speaker_turns.specs.declared.end.End.TheVariants.{Cache, Peer};

use crate::end::End;
use bgp_conf::{Command, PEER_SLOTS, Refusal};
use bgp_fsm::State;
use decision::Book;
use net_prefix::Transport;
use speaker::{Event, Report, Speaker};
use std::alloc::Allocator;

/// What stands between the session and its connection.
pub(crate) fn transport<A: Allocator + Clone, B: Book<A>>(
    speaker: &Speaker<A, B>,
    end: End,
) -> Transport
    ensures { result ≡ transport_of speaker.now end }
{
    match end {
        End::Peer(slot) => speaker.transport(slot),
        End::Cache => speaker.cache_transport(),
    }
}

/// Whether the session awaits its peer's OPEN, which that with the cache never does.
pub(crate) fn is_unopened<A: Allocator + Clone, B: Book<A>>(
    speaker: &Speaker<A, B>,
    end: End,
) -> bool
    ensures { result ≡ is_unopened speaker.now end }
{
    match end {
        End::Peer(slot) => is_in_open_sent(speaker.session(slot)),
        End::Cache => false,
    }
}

// Whether a session is in OpenSent.
fn is_in_open_sent(state: Option<State>) -> bool
    ensures { result ≡ is_in_open_sent state }
{
    match state {
        Some(State::OpenSent) => true,
        _ => false,
    }
}

/// The connection is there; answers whether the session takes it.
pub(crate) fn come_up<A: Allocator + Clone, B: Book<A>>(
    speaker: &mut Speaker<A, B>,
    end: End,
) -> bool
    ensures takes { result ≡ awaits_up (wanted_transport_of speaker.old end) }
    ensures asks { Asks (up_call end) result speaker.old speaker.new }
{
    match end {
        End::Peer(slot) => make(speaker, Event::Up(slot)),
        End::Cache => make(speaker, Event::CacheUp),
    }
}

/// The connection, or the attempt at one, is gone.
pub(crate) fn fail<A: Allocator + Clone, B: Book<A>>(speaker: &mut Speaker<A, B>, end: End)
    ensures { Asks (fail_call end) (may_fail (transport_of speaker.old end)) speaker.old speaker.new }
{
    let _taken = match end {
        End::Peer(slot) => make(speaker, Event::Fail(slot)),
        End::Cache => make(speaker, Event::CacheFail),
    };
}

/// Octets have come on the connection.
pub(crate) fn hear<A: Allocator + Clone, B: Book<A>>(
    speaker: &mut Speaker<A, B>,
    end: End,
    octets: &[u8],
)
    ensures { Asks (bytes_call end octets.now) (may_bring_octets (transport_of speaker.old end)) speaker.old speaker.new }
{
    let _taken = match end {
        End::Peer(slot) => make(speaker, Event::Bytes(slot, octets)),
        End::Cache => make(speaker, Event::CacheBytes(octets)),
    };
}

// Hands in an event that takes no memory of its own; answers whether it wasn't refused.
fn make<A: Allocator + Clone, B: Book<A>>(speaker: &mut Speaker<A, B>, event: Event<'_>) -> bool
    requires { Grows speaker.old.conf event → ⊥ }
    ensures made { result ≡ is_none (refusal_of speaker.old event.entry) }
    ensures asks { Asks (call_of event.entry) result speaker.old speaker.new }
{
    speaker.step(event).is_ok()
}

/// Hands in a command.
pub(crate) fn command<A: Allocator + Clone, B: Book<A>>(
    speaker: &mut Speaker<A, B>,
    command: Command<'_>,
) -> Result<Report, Refusal>
    ensures { Commanding command.entry speaker.old result speaker.new }
{
    speaker.step(Event::Command(command))
}

/// Takes what the speaker has queued for the session, as much as the buffer holds, and answers how many octets.
pub(crate) fn take<A: Allocator + Clone, B: Book<A>>(
    speaker: &mut Speaker<A, B>,
    end: End,
    buf: &mut [u8],
) -> usize
    ensures bound { result ≤ length buf.new }
    ensures room { length buf.new ≡ length buf.old }
    ensures octets { take result buf.new ≡ take (length buf.old) (queued_for speaker.old end) }
    ensures asks { Asks (take_call end (take result buf.new)) (is_there speaker.old end) speaker.old speaker.new }
{
    match end {
        End::Peer(slot) => take_of_slot(speaker, slot, buf),
        End::Cache => take_of_cache(speaker, buf),
    }
}

fn take_of_slot<A: Allocator + Clone, B: Book<A>>(
    speaker: &mut Speaker<A, B>,
    slot: u8,
    buf: &mut [u8],
) -> usize
    ensures bound { result ≤ length buf.new }
    ensures room { length buf.new ≡ length buf.old }
    ensures octets { take result buf.new ≡ take (length buf.old) (queued_for speaker.old (Peer slot)) }
    ensures asks { Asks (take_call (Peer slot) (take result buf.new)) (is_there speaker.old (Peer slot)) speaker.old speaker.new }
{
    match speaker.take(slot, buf) {
        Ok((count, _)) => count,
        Err(_) => 0,
    }
}

fn take_of_cache<A: Allocator + Clone, B: Book<A>>(
    speaker: &mut Speaker<A, B>,
    buf: &mut [u8],
) -> usize
    ensures bound { result ≤ length buf.new }
    ensures room { length buf.new ≡ length buf.old }
    ensures octets { take result buf.new ≡ take (length buf.old) (queued_for speaker.old Cache) }
    ensures asks { Asks (take_call Cache (take result buf.new)) true speaker.old speaker.new }
{
    speaker.take_cache(buf)
}

/// Tells the speaker the moment. A moment before the last one tells it nothing.
pub(crate) fn tick<A: Allocator + Clone, B: Book<A>>(
    speaker: &mut Speaker<A, B>,
    now: u64,
) -> Report
    ensures { Ticks now (nat_le speaker.old.moment now) speaker.old result speaker.new }
{
    match speaker.step(Event::Tick(now)) {
        Ok(report) => report,
        Err(_) => Report::NOTHING,
    }
}

/// Whether a report tells that the session's attempt begins.
pub(crate) fn has_opened(report: &Report, end: End) -> bool
    ensures { result ≡ has_opened report.now end }
{
    match end {
        End::Peer(slot) => slot < PEER_SLOTS && has_slot(report.opened, slot),
        End::Cache => report.cache_opened,
    }
}

// Whether a slot is one of a set.
fn has_slot(slots: u64, slot: u8) -> bool
    requires { slot < 64 }
    ensures { result ≡ has_slot slots slot }
{
    (slots >> slot) & 1 == 1
}
