//! The rows of the client's table that speak of payloads.
ghost use Rattle.std.specs.Prelude.{◌≡◌, [], true, false};
ghost use Rattle.std.specs.Bool.{OnFalse, OnTrue};
ghost use Rattle.rtr_codec.specs.ClientState.{payloads_of};
ghost use Rattle.rtr_codec.specs.ClientTable.{asked_hears_report, corrupts, ends_load, expire_ends, expires, flushed as flushed_client, hears_asked_reset, hears_asked_serial, hears_at, hears_loading, hears_notify, hears_report, hears_synced, hears_waiting, reports, row, ticks};
ghost use Rattle.rtr_codec.specs.PduSpelling.{Announce, End_of_data, Withdraw, content_of};
ghost use Rattle.rtr_codec.specs.declared.fault.ErrorCode.TheVariants.{InternalError};
ghost use Rattle.vrp_delta.specs.Keeping.{no_change};
ghost use Rattle.rtr_client.specs.Book.{IsTold};
ghost use Rattle.rtr_client.specs.Following.{can_starve, input_of, load_takes, served};
ghost use Rattle.rtr_client.specs.Sessions.{client_of, reply_of, stage_of};

use crate::acts::Acts;
use crate::input::Input;
use crate::payloads::{Base, Payloads};
use crate::session::{Session, Stage};
use moments::has_come;
use net_prefix::Vrp;
use rtr_codec::{ErrorCode, Intervals, Pdu};
use std::alloc::Allocator;
use vrp_delta::Keeper;

/// One input is one row of the table.
#[tactic(auto, unfolding(rtr_codec::specs::ClientTable::row))]
pub fn serve<'a, A: Allocator + Clone, K: Keeper>(
    session: &mut Session,
    payloads: &mut Payloads<A>,
    input: Input<'a>,
    now: u64,
    keeper: &mut K,
) -> Acts<'a>
    requires forgotten { payloads.old.changed ≡ no_change }
    requires follows { K.kept keeper.old ≡ payloads_of payloads.old.base }
    ensures reply { reply_of session.new payloads.new result ≡ row now (client_of session.old payloads.old) (served result.starved (input_of input.entry)) }
    ensures starved { OnTrue result.starved (can_starve (client_of session.old payloads.old) (input_of input.entry) ≡ true) }
    ensures told { IsTold payloads.old payloads.new }
    ensures follows { K.kept keeper.new ≡ payloads_of payloads.new.base }
{
    match input {
        Input::Up => session.come_up(payloads.base()),
        Input::Fail => session.fail(now),
        Input::Heard { pdu, octets } => hear(session, payloads, pdu, octets, now, keeper),
        Input::Faulty { fault, octets } => session.fault(fault, octets, now),
        Input::Tick => tick(session, payloads, now, keeper),
        Input::NoRoom => session.no_room(now),
    }
}

// A PDU has come.
fn hear<'a, A: Allocator + Clone, K: Keeper>(
    session: &mut Session,
    payloads: &mut Payloads<A>,
    pdu: Pdu<'a>,
    octets: &'a [u8],
    now: u64,
    keeper: &mut K,
) -> Acts<'a>
    requires forgotten { payloads.old.changed ≡ no_change }
    requires follows { K.kept keeper.old ≡ payloads_of payloads.old.base }
    ensures reply { OnFalse result.starved (reply_of session.new payloads.new result ≡ hears_at (stage_of session.old.stage payloads.old) now (client_of session.old payloads.old) octets.now (content_of pdu.entry)) }
    ensures starved { OnTrue result.starved ((reply_of session.new payloads.new result ≡ reports now (client_of session.old payloads.old) InternalError []) × (load_takes (client_of session.old payloads.old) (content_of pdu.entry) ≡ true)) }
    ensures told { IsTold payloads.old payloads.new }
    ensures follows { K.kept keeper.new ≡ payloads_of payloads.new.base }
{
    match session.stage {
        Stage::Off | Stage::Opening => Acts::NONE,
        Stage::AskedSerial => hear_asked_serial(session, payloads, pdu, octets, now, keeper),
        Stage::AskedReset => hear_asked_reset(session, payloads, pdu, octets, now, keeper),
        Stage::Waiting => hear_waiting(session, payloads, pdu, octets, now, keeper),
        Stage::Loading => hear_loading(session, payloads, pdu, octets, now, keeper),
        Stage::Synced => hear_synced(session, payloads, pdu, octets, now, keeper),
    }
}

fn hear_asked_serial<'a, A: Allocator, K: Keeper>(
    session: &mut Session,
    payloads: &mut Payloads<A>,
    pdu: Pdu<'a>,
    octets: &'a [u8],
    now: u64,
    keeper: &mut K,
) -> Acts<'a>
    requires forgotten { payloads.old.changed ≡ no_change }
    requires follows { K.kept keeper.old ≡ payloads_of payloads.old.base }
    ensures reply { reply_of session.new payloads.new result ≡ hears_asked_serial now (client_of session.old payloads.old) octets.now (content_of pdu.entry) }
    ensures starved { result.starved ≡ false }
    ensures told { IsTold payloads.old payloads.new }
    ensures follows { K.kept keeper.new ≡ payloads_of payloads.new.base }
{
    match pdu {
        Pdu::CacheResponse { session: told } => {
            if !payloads.is_of(told) {
                return flush_and_corrupt(session, payloads, octets, now, keeper);
            }
            payloads.begin(true, told);
            session.load()
        }
        Pdu::CacheReset => session.ask_reset(),
        Pdu::ErrorReport { code, .. } => asked_hear_report(session, payloads, code, now, keeper),
        Pdu::SerialNotify { .. } => Acts::NONE,
        _ => session.corrupt(octets, now),
    }
}

fn hear_asked_reset<'a, A: Allocator, K: Keeper>(
    session: &mut Session,
    payloads: &mut Payloads<A>,
    pdu: Pdu<'a>,
    octets: &'a [u8],
    now: u64,
    keeper: &mut K,
) -> Acts<'a>
    requires forgotten { payloads.old.changed ≡ no_change }
    requires follows { K.kept keeper.old ≡ payloads_of payloads.old.base }
    ensures reply { reply_of session.new payloads.new result ≡ hears_asked_reset now (client_of session.old payloads.old) octets.now (content_of pdu.entry) }
    ensures starved { result.starved ≡ false }
    ensures told { IsTold payloads.old payloads.new }
    ensures follows { K.kept keeper.new ≡ payloads_of payloads.new.base }
{
    match pdu {
        Pdu::CacheResponse { session: told } => {
            payloads.begin(false, told);
            session.load()
        }
        Pdu::ErrorReport { code, .. } => asked_hear_report(session, payloads, code, now, keeper),
        Pdu::SerialNotify { .. } => Acts::NONE,
        _ => session.corrupt(octets, now),
    }
}

fn hear_waiting<'a, A: Allocator, K: Keeper>(
    session: &mut Session,
    payloads: &mut Payloads<A>,
    pdu: Pdu<'a>,
    octets: &'a [u8],
    now: u64,
    keeper: &mut K,
) -> Acts<'a>
    requires forgotten { payloads.old.changed ≡ no_change }
    requires follows { K.kept keeper.old ≡ payloads_of payloads.old.base }
    ensures reply { reply_of session.new payloads.new result ≡ hears_waiting now (client_of session.old payloads.old) octets.now (content_of pdu.entry) }
    ensures starved { result.starved ≡ false }
    ensures told { IsTold payloads.old payloads.new }
    ensures follows { K.kept keeper.new ≡ payloads_of payloads.new.base }
{
    match pdu {
        Pdu::ErrorReport { code, .. } => hear_report(session, payloads, code, now, keeper),
        Pdu::SerialNotify { .. } => Acts::NONE,
        _ => session.corrupt(octets, now),
    }
}

fn hear_loading<'a, A: Allocator + Clone, K: Keeper>(
    session: &mut Session,
    payloads: &mut Payloads<A>,
    pdu: Pdu<'a>,
    octets: &'a [u8],
    now: u64,
    keeper: &mut K,
) -> Acts<'a>
    requires loading { session.old.stage ≡ Stage.Loading }
    requires forgotten { payloads.old.changed ≡ no_change }
    requires follows { K.kept keeper.old ≡ payloads_of payloads.old.base }
    ensures reply { OnFalse result.starved (reply_of session.new payloads.new result ≡ hears_loading now (client_of session.old payloads.old) octets.now payloads.old.serially payloads.old.session payloads.old.loaded (content_of pdu.entry)) }
    ensures starved { OnTrue result.starved ((reply_of session.new payloads.new result ≡ reports now (client_of session.old payloads.old) InternalError []) × (load_takes (client_of session.old payloads.old) (content_of pdu.entry) ≡ true)) }
    ensures told { IsTold payloads.old payloads.new }
    ensures follows { K.kept keeper.new ≡ payloads_of payloads.new.base }
{
    match pdu {
        Pdu::Announcement(payload) => announce(session, payloads, payload, octets, now),
        Pdu::Withdrawal(payload) => withdraw(session, payloads, payload, octets, now),
        Pdu::Ipv6Prefix(_) | Pdu::RouterKey(_) => Acts::NONE,
        Pdu::EndOfData {
            session: told,
            serial,
            intervals,
        } => {
            let told = Base {
                session: told,
                serial,
            };
            end_load(session, payloads, told, intervals, octets, now, keeper)
        }
        Pdu::ErrorReport { code, .. } => hear_report(session, payloads, code, now, keeper),
        Pdu::SerialNotify { .. } => Acts::NONE,
        _ => session.corrupt(octets, now),
    }
}

fn hear_synced<'a, A: Allocator, K: Keeper>(
    session: &mut Session,
    payloads: &mut Payloads<A>,
    pdu: Pdu<'a>,
    octets: &'a [u8],
    now: u64,
    keeper: &mut K,
) -> Acts<'a>
    requires forgotten { payloads.old.changed ≡ no_change }
    requires follows { K.kept keeper.old ≡ payloads_of payloads.old.base }
    ensures reply { reply_of session.new payloads.new result ≡ hears_synced now (client_of session.old payloads.old) octets.now (content_of pdu.entry) }
    ensures starved { result.starved ≡ false }
    ensures told { IsTold payloads.old payloads.new }
    ensures follows { K.kept keeper.new ≡ payloads_of payloads.new.base }
{
    match pdu {
        Pdu::SerialNotify {
            session: told,
            serial,
        } => {
            let told = Base {
                session: told,
                serial,
            };
            hear_notify(session, payloads, told, octets, now, keeper)
        }
        Pdu::ErrorReport { code, .. } => hear_report(session, payloads, code, now, keeper),
        _ => session.corrupt(octets, now),
    }
}

fn hear_notify<'a, A: Allocator, K: Keeper>(
    session: &mut Session,
    payloads: &mut Payloads<A>,
    told: Base,
    octets: &'a [u8],
    now: u64,
    keeper: &mut K,
) -> Acts<'a>
    requires forgotten { payloads.old.changed ≡ no_change }
    requires follows { K.kept keeper.old ≡ payloads_of payloads.old.base }
    ensures reply { reply_of session.new payloads.new result ≡ hears_notify now (client_of session.old payloads.old) octets.now told.session told.serial }
    ensures starved { result.starved ≡ false }
    ensures told { IsTold payloads.old payloads.new }
    ensures follows { K.kept keeper.new ≡ payloads_of payloads.new.base }
{
    if !payloads.is_of(told.session) {
        return flush_and_corrupt(session, payloads, octets, now, keeper);
    }
    if payloads.has_serial(told.serial) {
        return Acts::NONE;
    }
    session.ask(payloads.base())
}

// A payload of the load comes.
fn announce<'a, A: Allocator + Clone>(
    session: &mut Session,
    payloads: &mut Payloads<A>,
    payload: Vrp,
    octets: &'a [u8],
    now: u64,
) -> Acts<'a>
    requires { session.old.stage ≡ Stage.Loading }
    ensures reply { OnFalse result.starved (reply_of session.new payloads.new result ≡ hears_loading now (client_of session.old payloads.old) octets.now payloads.old.serially payloads.old.session payloads.old.loaded (Announce payload)) }
    ensures starved { OnTrue result.starved ((reply_of session.new payloads.new result ≡ reports now (client_of session.old payloads.old) InternalError []) × (load_takes (client_of session.old payloads.old) (Announce payload) ≡ true)) }
    ensures base { payloads.new.base ≡ payloads.old.base }
    ensures changed { payloads.new.changed ≡ payloads.old.changed }
{
    match payloads.announce(payload) {
        Ok(true) => Acts::NONE,
        Ok(false) => session.report(ErrorCode::DuplicateAnnouncement, octets, now),
        Err(_) => session.starve(now),
    }
}

// A payload of the load leaves.
fn withdraw<'a, A: Allocator + Clone>(
    session: &mut Session,
    payloads: &mut Payloads<A>,
    payload: Vrp,
    octets: &'a [u8],
    now: u64,
) -> Acts<'a>
    requires { session.old.stage ≡ Stage.Loading }
    ensures reply { OnFalse result.starved (reply_of session.new payloads.new result ≡ hears_loading now (client_of session.old payloads.old) octets.now payloads.old.serially payloads.old.session payloads.old.loaded (Withdraw payload)) }
    ensures starved { OnTrue result.starved ((reply_of session.new payloads.new result ≡ reports now (client_of session.old payloads.old) InternalError []) × (load_takes (client_of session.old payloads.old) (Withdraw payload) ≡ true)) }
    ensures base { payloads.new.base ≡ payloads.old.base }
    ensures changed { payloads.new.changed ≡ payloads.old.changed }
{
    match payloads.withdraw(payload) {
        Ok(true) => Acts::NONE,
        Ok(false) => session.report(ErrorCode::WithdrawalOfUnknownRecord, octets, now),
        Err(_) => session.starve(now),
    }
}

// The end of a load: of its session and with lawful intervals it is completed.
fn end_load<'a, A: Allocator + Clone, K: Keeper>(
    session: &mut Session,
    payloads: &mut Payloads<A>,
    told: Base,
    intervals: Intervals,
    octets: &'a [u8],
    now: u64,
    keeper: &mut K,
) -> Acts<'a>
    requires loading { session.old.stage ≡ Stage.Loading }
    requires forgotten { payloads.old.changed ≡ no_change }
    requires follows { K.kept keeper.old ≡ payloads_of payloads.old.base }
    ensures reply { OnFalse result.starved (reply_of session.new payloads.new result ≡ ends_load now (client_of session.old payloads.old) octets.now payloads.old.session payloads.old.loaded told.session told.serial intervals) }
    ensures starved { OnTrue result.starved ((reply_of session.new payloads.new result ≡ reports now (client_of session.old payloads.old) InternalError []) × (load_takes (client_of session.old payloads.old) (End_of_data told.session told.serial intervals) ≡ true)) }
    ensures told { IsTold payloads.old payloads.new }
    ensures follows { K.kept keeper.new ≡ payloads_of payloads.new.base }
{
    if !payloads.is_loading_of(told.session) {
        return flush_and_corrupt(session, payloads, octets, now, keeper);
    }
    if !intervals.are_lawful() {
        return session.corrupt(octets, now);
    }
    match payloads.commit(told.serial, keeper) {
        Ok(()) => session.sync(intervals, now),
        Err(_) => session.starve(now),
    }
}

// An Error Report is never answered; corrupt data also flushes.
fn hear_report<A: Allocator, K: Keeper>(
    session: &mut Session,
    payloads: &mut Payloads<A>,
    code: u16,
    now: u64,
    keeper: &mut K,
) -> Acts<'static>
    requires forgotten { payloads.old.changed ≡ no_change }
    requires follows { K.kept keeper.old ≡ payloads_of payloads.old.base }
    ensures reply { reply_of session.new payloads.new result ≡ hears_report now (client_of session.old payloads.old) code }
    ensures starved { result.starved ≡ false }
    ensures told { IsTold payloads.old payloads.new }
    ensures follows { K.kept keeper.new ≡ payloads_of payloads.new.base }
{
    if code == ErrorCode::CorruptData.number() {
        session.expire = None;
        payloads.flush(keeper);
    }
    session.close(now)
}

// In Asked, where an Error Report may tell that no data is available yet.
fn asked_hear_report<A: Allocator, K: Keeper>(
    session: &mut Session,
    payloads: &mut Payloads<A>,
    code: u16,
    now: u64,
    keeper: &mut K,
) -> Acts<'static>
    requires forgotten { payloads.old.changed ≡ no_change }
    requires follows { K.kept keeper.old ≡ payloads_of payloads.old.base }
    ensures reply { reply_of session.new payloads.new result ≡ asked_hears_report now (client_of session.old payloads.old) code }
    ensures starved { result.starved ≡ false }
    ensures told { IsTold payloads.old payloads.new }
    ensures follows { K.kept keeper.new ≡ payloads_of payloads.new.base }
{
    if code == ErrorCode::NoDataAvailable.number() {
        return session.wait(now);
    }
    hear_report(session, payloads, code, now, keeper)
}

// Error 0, and the base is flushed.
fn flush_and_corrupt<'a, A: Allocator, K: Keeper>(
    session: &mut Session,
    payloads: &mut Payloads<A>,
    octets: &'a [u8],
    now: u64,
    keeper: &mut K,
) -> Acts<'a>
    requires { payloads.old.changed ≡ no_change }
    ensures reply { reply_of session.new payloads.new result ≡ corrupts now (flushed_client (client_of session.old payloads.old)) octets.now }
    ensures starved { result.starved ≡ false }
    ensures told { IsTold payloads.old payloads.new }
    ensures follows { K.kept keeper.new ≡ payloads_of payloads.new.base }
{
    session.expire = None;
    payloads.flush(keeper);
    session.corrupt(octets, now)
}

// A moment has come: the rows of the timers that it ends.
fn tick<A: Allocator, K: Keeper>(
    session: &mut Session,
    payloads: &mut Payloads<A>,
    now: u64,
    keeper: &mut K,
) -> Acts<'static>
    requires forgotten { payloads.old.changed ≡ no_change }
    requires follows { K.kept keeper.old ≡ payloads_of payloads.old.base }
    ensures reply { reply_of session.new payloads.new result ≡ ticks now (client_of session.old payloads.old) }
    ensures starved { result.starved ≡ false }
    ensures told { IsTold payloads.old payloads.new }
    ensures follows { K.kept keeper.new ≡ payloads_of payloads.new.base }
{
    let expired = end_expire(session, payloads, now, keeper);
    let refreshed = session.end_refresh(payloads.base(), now);
    let asked = session.end_query(payloads.base(), now);
    let reopened = session.end_reopen(now);
    expired.along(refreshed).along(asked).along(reopened)
}

// The expire timer, if it has ended.
fn end_expire<A: Allocator, K: Keeper>(
    session: &mut Session,
    payloads: &mut Payloads<A>,
    now: u64,
    keeper: &mut K,
) -> Acts<'static>
    requires forgotten { payloads.old.changed ≡ no_change }
    requires follows { K.kept keeper.old ≡ payloads_of payloads.old.base }
    ensures reply { reply_of session.new payloads.new result ≡ expire_ends now (client_of session.old payloads.old) }
    ensures starved { result.starved ≡ false }
    ensures told { IsTold payloads.old payloads.new }
    ensures follows { K.kept keeper.new ≡ payloads_of payloads.new.base }
{
    if !has_come(session.expire, now) {
        return Acts::NONE;
    }
    session.expire = None;
    let serially = payloads.is_serial();
    payloads.flush(keeper);
    match session.stage {
        Stage::AskedSerial => session.close(now),
        Stage::Loading if serially => session.close(now),
        Stage::Synced => session.ask_reset(),
        _ => Acts::NONE,
    }
}
