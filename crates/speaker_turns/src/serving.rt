//! A visit to a connection, or to an attempt at one.
ghost use Rattle.std.specs.Prelude.{◌≡◌, ℕ, List, length};
ghost use Rattle.runs.specs.FirstRefusal.{may_bring_octets};
ghost use Rattle.wires.specs.TurnOctets.{outgoing_octets, turn_octets};
ghost use Rattle.speaker_turns.specs.Serving.{Answers, AnswersAt, Attends, AttendsAttempt, AttendsUp, Looks, Loses, Reads, Serves, Settles, Takes, Writes, answered_so, is_opening, judged, line_left};
ghost use Rattle.speaker_turns.specs.Sessions.{transport_of};

use crate::end::End;
use crate::line::{Answered, Line};
use crate::patience::Moment;
use crate::place::Visit;
use crate::sessions::{come_up, fail, hear, is_unopened, take, transport};
use decision::Book;
use net_prefix::Transport;
use speaker::Speaker;
use std::alloc::Allocator;
use wires::{Attempt, Outgoing, Parting, Received, Sent, TURN_OCTETS, Wire};

/// What came is handed to the session, and what the speaker has queued for it goes out; an attempt is asked how it stands.
pub(crate) fn attend<W: Wire, A: Allocator + Clone, B: Book<A>>(
    line: &mut Line<W>,
    outgoing: &mut Outgoing<A>,
    end: End,
    now: Moment,
    wire: &mut W,
    speaker: &mut Speaker<A, B>,
    buf: &mut [u8],
) -> Visit
    requires { length buf.old ≡ outgoing_octets }
    ensures attends { Attends line.old.is_up end now line.old outgoing.old (record { wire = W.state wire.old; speaker = speaker.old }) result line.new outgoing.new (record { wire = W.state wire.new; speaker = speaker.new }) }
    ensures room { length buf.new ≡ outgoing_octets }
{
    match line.is_up {
        true => attend_connection(line, outgoing, end, now, wire, speaker, buf),
        false => attend_attempt(line, end, wire, speaker),
    }
}

// A connection is served where its session carries one.
fn attend_connection<W: Wire, A: Allocator + Clone, B: Book<A>>(
    line: &mut Line<W>,
    outgoing: &mut Outgoing<A>,
    end: End,
    now: Moment,
    wire: &mut W,
    speaker: &mut Speaker<A, B>,
    buf: &mut [u8],
) -> Visit
    requires { length buf.old ≡ outgoing_octets }
    ensures attends { AttendsUp (may_bring_octets (transport_of speaker.old end)) end now line.old outgoing.old (record { wire = W.state wire.old; speaker = speaker.old }) result line.new outgoing.new (record { wire = W.state wire.new; speaker = speaker.new }) }
    ensures room { length buf.new ≡ outgoing_octets }
{
    match transport(speaker, end) {
        Transport::Open | Transport::Closing => {
            serve(line, outgoing, end, now, wire, speaker, buf)
        }
        Transport::None | Transport::Opening | Transport::Listening => Visit::Unwanted,
    }
}

// An attempt is looked at where its session has begun one.
fn attend_attempt<W: Wire, A: Allocator + Clone, B: Book<A>>(
    line: &mut Line<W>,
    end: End,
    wire: &mut W,
    speaker: &mut Speaker<A, B>,
) -> Visit
    ensures { (waiting : List ℕ) → AttendsAttempt (is_opening (transport_of speaker.old end)) end line.old waiting (record { wire = W.state wire.old; speaker = speaker.old }) result line.new waiting (record { wire = W.state wire.new; speaker = speaker.new }) }
{
    match transport(speaker, end) {
        Transport::Opening => look(line, end, wire, speaker),
        Transport::None | Transport::Listening | Transport::Open | Transport::Closing => {
            Visit::Unwanted
        }
    }
}

// Asks how an attempt stands.
fn look<W: Wire, A: Allocator + Clone, B: Book<A>>(
    line: &mut Line<W>,
    end: End,
    wire: &mut W,
    speaker: &mut Speaker<A, B>,
) -> Visit
    ensures { Looks end line.old (record { wire = W.state wire.old; speaker = speaker.old }) result line.new (record { wire = W.state wire.new; speaker = speaker.new }) }
{
    match wire.attempt(&mut line.socket) {
        Attempt::Pending => Visit::Stays,
        Attempt::Fault => Visit::Faulty,
        Attempt::Connected => {
            line.is_up = come_up(speaker, end);
            match line.is_up {
                true => Visit::Stays,
                false => Visit::Unwanted,
            }
        }
    }
}

fn serve<W: Wire, A: Allocator + Clone, B: Book<A>>(
    line: &mut Line<W>,
    outgoing: &mut Outgoing<A>,
    end: End,
    now: Moment,
    wire: &mut W,
    speaker: &mut Speaker<A, B>,
    buf: &mut [u8],
) -> Visit
    requires { length buf.old ≡ outgoing_octets }
    ensures serves { Serves end now line.old outgoing.old (record { wire = W.state wire.old; speaker = speaker.old }) result line.new outgoing.new (record { wire = W.state wire.new; speaker = speaker.new }) }
    ensures room { length buf.new ≡ outgoing_octets }
{
    match receive(line, end, wire, speaker, buf) {
        Received::Octets(_) | Received::Nothing => {
            answer_now(line, outgoing, end, now, wire, speaker, buf)
        }
        Received::End => Visit::Ended,
        Received::Fault => Visit::Faulty,
    }
}

// Reads into the front of the buffer, and hands what came to the session.
#[tactic(auto, using(crate::proofs::Fronts::front_room), unfolding(wires::specs::TurnOctets::turn_octets, wires::specs::TurnOctets::outgoing_octets))]
fn receive<W: Wire, A: Allocator + Clone, B: Book<A>>(
    line: &mut Line<W>,
    end: End,
    wire: &mut W,
    speaker: &mut Speaker<A, B>,
    buf: &mut [u8],
) -> Received
    requires { length buf.old ≡ outgoing_octets }
    ensures reads { Reads end line.old.number result (record { wire = W.state wire.old; speaker = speaker.old }) (record { wire = W.state wire.new; speaker = speaker.new }) }
    ensures same { line.new ≡ line.old }
    ensures room { length buf.new ≡ outgoing_octets }
{
    receive_into(line, end, wire, speaker, &mut buf[..TURN_OCTETS])
}

// Reads into this buffer, and hands what came to the session.
fn receive_into<W: Wire, A: Allocator + Clone, B: Book<A>>(
    line: &mut Line<W>,
    end: End,
    wire: &mut W,
    speaker: &mut Speaker<A, B>,
    buf: &mut [u8],
) -> Received
    requires { length buf.old ≡ turn_octets }
    ensures reads { Reads end line.old.number result (record { wire = W.state wire.old; speaker = speaker.old }) (record { wire = W.state wire.new; speaker = speaker.new }) }
    ensures same { line.new ≡ line.old }
{
    let received = wire.read(&mut line.socket, buf);
    if let Received::Octets(count) = received {
        hear(speaker, end, &buf[..count]);
    }
    received
}

// Answers the session. One that was closed for too long, though not all is written, loses its place, and so does one that has
// taken nothing for too long, or from which no whole OPEN came for too long.
fn answer_now<W: Wire, A: Allocator + Clone, B: Book<A>>(
    line: &mut Line<W>,
    outgoing: &mut Outgoing<A>,
    end: End,
    now: Moment,
    wire: &mut W,
    speaker: &mut Speaker<A, B>,
    buf: &mut [u8],
) -> Visit
    requires { length buf.old ≡ outgoing_octets }
    ensures answers { AnswersAt end now line.old outgoing.old (record { wire = W.state wire.old; speaker = speaker.old }) result line.new outgoing.new (record { wire = W.state wire.new; speaker = speaker.new }) }
    ensures room { length buf.new ≡ outgoing_octets }
{
    let waited = outgoing.octets().len();
    let found = answer(line, outgoing, end, wire, speaker, buf);
    let answered = answered(end, waited, outgoing, speaker);
    let is_over = line.outlast(answered, now);
    judge(found, is_over)
}

// How the session, and what is to be written for it, stand behind an answer before which so many octets waited.
fn answered<A: Allocator + Clone, B: Book<A>>(
    end: End,
    waited: usize,
    outgoing: &Outgoing<A>,
    speaker: &Speaker<A, B>,
) -> Answered
    ensures { result ≡ answered_so end waited (length outgoing.now) speaker.now }
{
    Answered {
        transport: transport(speaker, end),
        is_unopened: is_unopened(speaker, end),
        waited,
        left: outgoing.octets().len(),
    }
}

// One that would stay has lost its place where it is over.
fn judge(found: Visit, is_over: bool) -> Visit
    ensures { result ≡ judged is_over found }
{
    match found {
        Visit::Stays if is_over => Visit::Overdue,
        _ => found,
    }
}

// Takes what is to be written, where all that was taken is written, and writes it.
fn answer<W: Wire, A: Allocator + Clone, B: Book<A>>(
    line: &mut Line<W>,
    outgoing: &mut Outgoing<A>,
    end: End,
    wire: &mut W,
    speaker: &mut Speaker<A, B>,
    buf: &mut [u8],
) -> Visit
    requires { length buf.old ≡ outgoing_octets }
    ensures answers { Answers end line.old.number outgoing.old (record { wire = W.state wire.old; speaker = speaker.old }) result outgoing.new (record { wire = W.state wire.new; speaker = speaker.new }) }
    ensures same { line.new ≡ line.old }
    ensures room { length buf.new ≡ outgoing_octets }
{
    refill(outgoing, end, speaker, buf);
    if outgoing.is_empty() {
        return match transport(speaker, end) {
            Transport::Closing => Visit::Closed,
            _ => Visit::Stays,
        };
    }
    write(line, outgoing, wire)
}

// Takes what the speaker has queued for the session, as much as fits, where none wait.
fn refill<A: Allocator + Clone, B: Book<A>>(
    outgoing: &mut Outgoing<A>,
    end: End,
    speaker: &mut Speaker<A, B>,
    buf: &mut [u8],
)
    requires { length buf.old ≡ outgoing_octets }
    ensures takes { Takes end outgoing.old speaker.old outgoing.new speaker.new }
    ensures room { length buf.new ≡ outgoing_octets }
{
    if outgoing.is_empty() {
        let count = take(speaker, end, buf);
        outgoing.hold(&buf[..count]);
    }
}

// Writes what was taken, as much as goes.
fn write<W: Wire, A: Allocator + Clone>(
    line: &mut Line<W>,
    outgoing: &mut Outgoing<A>,
    wire: &mut W,
) -> Visit
    ensures writes { Writes line.old.number outgoing.old (W.state wire.old) result outgoing.new (W.state wire.new) }
    ensures same { line.new ≡ line.old }
{
    match wire.write(&mut line.socket, outgoing.octets()) {
        Sent::Octets(count) => {
            outgoing.pass(count);
            Visit::Stays
        }
        Sent::Nothing => Visit::Stays,
        Sent::Fault => Visit::Faulty,
    }
}

/// The connection goes on, or ends.
pub(crate) fn settle<W: Wire, A: Allocator + Clone, B: Book<A>>(
    line: Line<W>,
    end: End,
    visit: Visit,
    wire: &mut W,
    speaker: &mut Speaker<A, B>,
) -> Option<Line<W>>
    ensures settles { Settles visit end line (record { wire = W.state wire.old; speaker = speaker.old }) (record { wire = W.state wire.new; speaker = speaker.new }) }
    ensures left { result ≡ line_left visit line }
{
    match visit {
        Visit::Stays => return Some(line),
        Visit::Unwanted => wire.close(line.socket, Parting::Unwanted),
        Visit::Faulty => lose(line, end, Parting::Failed, wire, speaker),
        Visit::Ended => lose(line, end, Parting::Ended, wire, speaker),
        Visit::Closed => lose(line, end, Parting::Closed, wire, speaker),
        Visit::Overdue => lose(line, end, Parting::Overdue, wire, speaker),
    }
    None
}

// Ends a connection, or an attempt at one, and tells its session.
fn lose<W: Wire, A: Allocator + Clone, B: Book<A>>(
    line: Line<W>,
    end: End,
    parting: Parting,
    wire: &mut W,
    speaker: &mut Speaker<A, B>,
)
    ensures { Loses end parting line.number (record { wire = W.state wire.old; speaker = speaker.old }) (record { wire = W.state wire.new; speaker = speaker.new }) }
{
    wire.close(line.socket, parting);
    fail(speaker, end);
}
