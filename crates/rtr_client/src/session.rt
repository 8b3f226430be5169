//! Where a client stands, and what the rows of the client's table do that need no payloads.
ghost use Rattle.std.specs.Prelude.{◌≡◌, [], None, false, true, if◌then◌else◌};
ghost use Rattle.std.specs.Option.{option_map};
ghost use Rattle.moments.specs.Moments.{from_now};
ghost use Rattle.rtr_codec.specs.ClientTable.{asks, asks_again, asks_reset, becomes, closes, comes_up, committed, corrupts, ended, fails, hears_fault, is_connected, query_ends, quoted_of, refresh_ends, reopen_ends, reopens, reports, transport_of};
ghost use Rattle.rtr_codec.specs.ClientState as table;
ghost use Rattle.rtr_codec.specs.declared.fault.ErrorCode.TheVariants.{CorruptData, InternalError};
ghost use Rattle.rtr_client.specs.Book.{Book, named};
ghost use Rattle.rtr_client.specs.FirstClient.{first_client};
ghost use Rattle.rtr_client.specs.Following.{state_of};
ghost use Rattle.rtr_client.specs.Sessions.{client_of, is_loading, reply_of, stage_of};

use crate::acts::Acts;
use crate::payloads::Base;
use crate::state::ClientState;
use moments::{from_now, has_come};
use net_prefix::Transport;
use rtr_codec::{ErrorCode, Intervals, Pdu, PduFault};

/// The most octets of a PDU that an Error Report quotes (own choice).
const QUOTED_OCTETS: usize = 32;

/// A stage of the client's table.
#[derive(Clone, Copy, Debug, PartialEq, Eq)]
pub enum Stage {
    Off,
    Opening,
    AskedSerial,
    AskedReset,
    Waiting,
    Loading,
    Synced,
}

/// All of a client but its payloads. Each timer is the moment at which it ends, in seconds.
#[derive(Clone, Copy, Debug, PartialEq, Eq)]
pub struct Session {
    pub stage: Stage,
    /// In Off: the last connection is still to be closed.
    pub closing: bool,
    pub intervals: Intervals,
    pub expire: Option<u64>,
    pub refresh: Option<u64>,
    pub query: Option<u64>,
    pub reopen: Option<u64>,
}

impl Session {
    /// A connection attempt has begun, and the Retry Interval is this one, in seconds.
    pub fn first(retry: u32) -> Session
        ensures { (book : Book) → book.base ≡ None → client_of result book ≡ first_client retry }
    {
        Session {
            stage: Stage::Opening,
            closing: false,
            intervals: Intervals {
                retry,
                ..Intervals::USUAL
            },
            expire: None,
            refresh: None,
            query: None,
            reopen: None,
        }
    }

    pub fn state(&self) -> ClientState
        ensures { (book : Book) → result ≡ state_of (client_of self.now book) }
    {
        match self.stage {
            Stage::Off => ClientState::Off,
            Stage::Opening => ClientState::Opening,
            Stage::AskedSerial | Stage::AskedReset => ClientState::Asked,
            Stage::Waiting => ClientState::Wait,
            Stage::Loading => ClientState::Loading,
            Stage::Synced => ClientState::Synced,
        }
    }

    pub fn transport(&self) -> Transport
        ensures { (book : Book) → result ≡ transport_of (client_of self.now book) }
    {
        match self.stage {
            Stage::Off if self.closing => Transport::Closing,
            Stage::Off => Transport::None,
            Stage::Opening => Transport::Opening,
            Stage::AskedSerial
            | Stage::AskedReset
            | Stage::Waiting
            | Stage::Loading
            | Stage::Synced => Transport::Open,
        }
    }

    /// Whether a load is in progress.
    pub fn is_loading(&self) -> bool
        ensures { result ≡ is_loading self.now.stage }
    {
        matches!(self.stage, Stage::Loading)
    }

    // Whether a connection carries the session.
    fn is_connected(&self) -> bool
        ensures { (book : Book) → result ≡ is_connected (stage_of self.now.stage book) }
    {
        !matches!(self.stage, Stage::Off | Stage::Opening)
    }

    /// A query of what the base lacks, or of all payloads where there is none.
    pub fn ask(&mut self, base: Option<Base>) -> Acts<'static>
        ensures reply { (book : Book) → option_map named book.base ≡ base → reply_of self.new book result ≡ asks (client_of self.old book) }
        ensures starved { result.starved ≡ false }
    {
        match base {
            None => self.ask_reset(),
            Some(base) => self.ask_serial(base),
        }
    }

    fn ask_serial(&mut self, base: Base) -> Acts<'static>
        ensures reply { (book : Book) → option_map named book.base ≡ Some base → reply_of self.new book result ≡ asks (client_of self.old book) }
        ensures starved { result.starved ≡ false }
    {
        self.stage = Stage::AskedSerial;
        Acts::saying(Pdu::SerialQuery {
            session: base.session,
            serial: base.serial,
        })
    }

    /// A query of all payloads.
    pub fn ask_reset(&mut self) -> Acts<'static>
        ensures reply { (book : Book) → reply_of self.new book result ≡ asks_reset (client_of self.old book) }
        ensures starved { result.starved ≡ false }
    {
        self.stage = Stage::AskedReset;
        Acts::saying(Pdu::ResetQuery)
    }

    // The session goes to Off, and the reopen timer begins.
    fn end(&mut self, closing: bool, now: u64)
        ensures { (book : Book) → client_of self.new book ≡ ended now closing (client_of self.old book) }
    {
        self.stage = Stage::Off;
        self.closing = closing;
        self.reopen = from_now(now, self.intervals.retry);
    }

    /// The session closes without a word.
    pub fn close(&mut self, now: u64) -> Acts<'static>
        ensures reply { (book : Book) → reply_of self.new book result ≡ closes now (client_of self.old book) }
        ensures starved { result.starved ≡ false }
    {
        self.end(true, now);
        Acts::NONE
    }

    /// The session closes with an Error Report.
    pub fn report<'a>(&mut self, code: ErrorCode, octets: &'a [u8], now: u64) -> Acts<'a>
        ensures reply { (book : Book) → reply_of self.new book result ≡ reports now (client_of self.old book) code (quoted_of octets.now) }
        ensures starved { result.starved ≡ false }
    {
        self.end(true, now);
        Acts::saying(Pdu::ErrorReport {
            code: code.number(),
            quoted: quoted_of(octets),
        })
    }

    /// Error 0.
    pub fn corrupt<'a>(&mut self, octets: &'a [u8], now: u64) -> Acts<'a>
        ensures reply { (book : Book) → reply_of self.new book result ≡ corrupts now (client_of self.old book) octets.now }
        ensures starved { result.starved ≡ false }
    {
        self.report(ErrorCode::CorruptData, octets, now)
    }

    /// Memory was refused.
    pub fn starve(&mut self, now: u64) -> Acts<'static>
        ensures reply { (book : Book) → reply_of self.new book result ≡ reports now (client_of self.old book) InternalError [] }
        ensures starved { result.starved ≡ true }
    {
        let acts = self.report(ErrorCode::InternalError, &[], now);
        Acts {
            starved: true,
            ..acts
        }
    }

    /// No data is available yet.
    pub fn wait(&mut self, now: u64) -> Acts<'static>
        ensures reply { (book : Book) → reply_of self.new book result ≡ becomes (record (client_of self.old book) { stage = table.Waiting; query = from_now now self.old.intervals.retry }) }
        ensures starved { result.starved ≡ false }
    {
        self.stage = Stage::Waiting;
        self.query = from_now(now, self.intervals.retry);
        Acts::NONE
    }

    /// A load begins.
    pub fn load(&mut self) -> Acts<'static>
        ensures reply { (book : Book) → reply_of self.new book result ≡ becomes (record (client_of self.old book) { stage = table.Loading book.serially book.session book.loaded }) }
        ensures starved { result.starved ≡ false }
    {
        self.stage = Stage::Loading;
        Acts::NONE
    }

    /// A load is completed.
    pub fn sync(&mut self, intervals: Intervals, now: u64) -> Acts<'static>
        ensures reply { (book : Book) → reply_of self.new book result ≡ becomes (record (client_of self.old book) { stage = table.Synced; intervals = intervals; expire = from_now now intervals.expire; refresh = from_now now intervals.refresh }) }
        ensures starved { result.starved ≡ false }
    {
        self.stage = Stage::Synced;
        self.intervals = intervals;
        self.expire = from_now(now, intervals.expire);
        self.refresh = from_now(now, intervals.refresh);
        Acts::NONE
    }

    /// The connection stands.
    pub fn come_up(&mut self, base: Option<Base>) -> Acts<'static>
        ensures reply { (book : Book) → option_map named book.base ≡ base → reply_of self.new book result ≡ comes_up (stage_of self.old.stage book) (client_of self.old book) }
        ensures starved { result.starved ≡ false }
    {
        match self.stage {
            Stage::Opening => self.ask(base),
            _ => Acts::NONE,
        }
    }

    /// The connection, or the attempt, has failed.
    pub fn fail(&mut self, now: u64) -> Acts<'static>
        ensures reply { (book : Book) → reply_of self.new book result ≡ fails (stage_of self.old.stage book) now (client_of self.old book) }
        ensures starved { result.starved ≡ false }
    {
        match self.stage {
            Stage::Off => self.closing = false,
            _ => self.end(false, now),
        }
        Acts::NONE
    }

    /// A fault has come, which without a connection changes nothing.
    pub fn fault<'a>(&mut self, fault: PduFault, octets: &'a [u8], now: u64) -> Acts<'a>
        ensures reply { (book : Book) → reply_of self.new book result ≡ (if is_connected (stage_of self.old.stage book) then hears_fault now (client_of self.old book) octets.now fault else becomes (client_of self.old book)) }
        ensures starved { result.starved ≡ false }
    {
        if !self.is_connected() {
            return Acts::NONE;
        }
        self.hear_fault(fault, octets, now)
    }

    /// A query has found too little room.
    pub fn no_room(&mut self, now: u64) -> Acts<'static>
        ensures reply { (book : Book) → reply_of self.new book result ≡ (if is_connected (stage_of self.old.stage book) then closes now (client_of self.old book) else becomes (client_of self.old book)) }
        ensures starved { result.starved ≡ false }
    {
        if !self.is_connected() {
            return Acts::NONE;
        }
        self.close(now)
    }

    fn hear_fault<'a>(&mut self, fault: PduFault, octets: &'a [u8], now: u64) -> Acts<'a>
        ensures reply { (book : Book) → reply_of self.new book result ≡ hears_fault now (client_of self.old book) octets.now fault }
        ensures starved { result.starved ≡ false }
    {
        match fault {
            PduFault::Unanswered => self.close(now),
            PduFault::Header(code) => self.report(code, octets, now),
            PduFault::Payload => self.corrupt(octets, now),
        }
    }

    /// The refresh timer, if it has ended.
    pub fn end_refresh(&mut self, base: Option<Base>, now: u64) -> Acts<'static>
        ensures reply { (book : Book) → option_map named book.base ≡ base → reply_of self.new book result ≡ refresh_ends now (client_of self.old book) }
        ensures starved { result.starved ≡ false }
    {
        if !has_come(self.refresh, now) {
            return Acts::NONE;
        }
        self.refresh = None;
        match self.stage {
            Stage::Synced => self.ask(base),
            _ => Acts::NONE,
        }
    }

    /// The query timer, if it has ended.
    pub fn end_query(&mut self, base: Option<Base>, now: u64) -> Acts<'static>
        ensures reply { (book : Book) → option_map named book.base ≡ base → reply_of self.new book result ≡ query_ends now (client_of self.old book) }
        ensures starved { result.starved ≡ false }
    {
        if !has_come(self.query, now) {
            return Acts::NONE;
        }
        self.query = None;
        match self.stage {
            Stage::Waiting => self.ask(base),
            _ => Acts::NONE,
        }
    }

    /// The reopen timer, if it has ended.
    pub fn end_reopen(&mut self, now: u64) -> Acts<'static>
        ensures reply { (book : Book) → reply_of self.new book result ≡ reopen_ends now (client_of self.old book) }
        ensures starved { result.starved ≡ false }
    {
        if !has_come(self.reopen, now) {
            return Acts::NONE;
        }
        self.reopen = None;
        match self.stage {
            Stage::Off => self.reopen_off(now),
            _ => Acts::NONE,
        }
    }

    fn reopen_off(&mut self, now: u64) -> Acts<'static>
        requires { self.old.stage ≡ Stage.Off }
        ensures reply { (book : Book) → reply_of self.new book result ≡ reopens (stage_of self.old.stage book) now (client_of self.old book) }
        ensures starved { result.starved ≡ false }
    {
        if self.closing {
            self.reopen = from_now(now, self.intervals.retry);
            return Acts::NONE;
        }
        self.stage = Stage::Opening;
        Acts {
            opened: true,
            ..Acts::NONE
        }
    }
}

// What an Error Report quotes of a PDU.
fn quoted_of(octets: &[u8]) -> &[u8]
    ensures { result.now ≡ quoted_of octets.now }
{
    if QUOTED_OCTETS < octets.len() {
        &octets[..QUOTED_OCTETS]
    } else {
        octets
    }
}
