//! The cache's table: what a PDU of a client's makes of the cache's end of its connection (RFC 8210 sections 5 to 8 and
//! 12). The definition is `specs/CacheTable.antt`.
ghost use Rattle.std.specs.Prelude.{◌≡◌, [], Bool, true};
ghost use Rattle.rtr_cache.specs.CacheTable.{hears_fault, hears_pdu, other_session_answer, reset_query, serial_query};
ghost use Rattle.rtr_cache.specs.Sending.{HearsFront, behind_pdu};
ghost use Rattle.rtr_cache.specs.Unsaid.{is_published};
ghost use Rattle.rtr_codec.specs.PduSpelling.{content_of};
ghost use Rattle.rtr_codec.specs.PduStream.{meaning};

use crate::other_session::OtherSession;
use crate::publisher::Publisher;
use crate::sender::Sender;
use rtr_codec::{ErrorCode, Pdu, PduFault, Receiver, Step};
use std::alloc::Allocator;

impl<A: Allocator + Clone> Sender<A> {
    /// Hears what stands at the front of what came, if it is whole or faulty.
    pub fn hear_front(&mut self, publisher: &mut Publisher<A>, receiver: &Receiver)
        requires { self.old.is_open ≡ true }
        ensures shared { publisher.new ≡ publisher.old }
        ensures heard { HearsFront publisher.old (meaning receiver.now.place receiver.now.part) self.old self.new }
    {
        match receiver.front() {
            Step::Need => {}
            Step::Whole(pdu, _) => self.hear(publisher, &pdu, receiver.octets()),
            Step::Faulty(fault, _) => self.hear_fault(fault, receiver.octets()),
        }
    }

    // A whole PDU came, of these octets. The first row that holds counts.
    fn hear(&mut self, publisher: &mut Publisher<A>, pdu: &Pdu<'_>, octets: &[u8])
        requires { self.old.is_open ≡ true }
        ensures shared { publisher.new ≡ publisher.old }
        ensures heard { (refused : Bool) × (behind_pdu self.new ≡ hears_pdu publisher.old refused (behind_pdu self.old) octets.now (content_of pdu.now)) }
    {
        match pdu {
            // An Error Report: closed without an answer.
            Pdu::ErrorReport { .. } => self.close(),
            // A query while a response isn't wholly queued: error 3, closed.
            Pdu::SerialQuery { .. } if self.response.is_some() => {
                self.fail(ErrorCode::InvalidRequest, octets);
            }
            Pdu::ResetQuery if self.response.is_some() => {
                self.fail(ErrorCode::InvalidRequest, octets);
            }
            // A query before the first load, or while the set is withdrawn: error 2; the connection stays.
            Pdu::SerialQuery { .. } if !publisher.offers_version() => self.answer_no_data(octets),
            Pdu::ResetQuery if !publisher.offers_version() => self.answer_no_data(octets),
            // A Serial Query of another session: error 0, closed; or a Cache Reset.
            Pdu::SerialQuery { session, .. } if *session != publisher.session() => {
                self.answer_other_session(publisher.other_session(), octets);
            }
            // A Serial Query: a response, with what changed since, or a Cache Reset.
            Pdu::SerialQuery { serial, .. } => self.answer_serial(publisher, *serial),
            // A Reset Query: a response, with all payloads.
            Pdu::ResetQuery => self.answer_reset(publisher),
            // Other than a query: error 3, closed.
            _ => self.fail(ErrorCode::InvalidRequest, octets),
        }
    }

    // A fault: its Error Report, closed. A faulty Error Report isn't answered.
    fn hear_fault(&mut self, fault: PduFault, octets: &[u8])
        requires { self.old.is_open ≡ true }
        ensures { behind_pdu self.new ≡ hears_fault (behind_pdu self.old) octets.now fault }
    {
        match fault {
            PduFault::Unanswered => self.close(),
            PduFault::Header(code) => self.fail(code, octets),
            PduFault::Payload => self.fail(ErrorCode::CorruptData, octets),
        }
    }

    // A Serial Query of another session, where a version is offered.
    fn answer_other_session(&mut self, other_session: OtherSession, octets: &[u8])
        requires { self.old.is_open ≡ true }
        ensures { behind_pdu self.new ≡ other_session_answer other_session (behind_pdu self.old) octets.now }
    {
        match other_session {
            OtherSession::Report => self.fail(ErrorCode::CorruptData, octets),
            OtherSession::Reset => self.answer(&Pdu::CacheReset),
        }
    }

    // A Serial Query of this session, where a version is offered (RFC 8210 section 5.3).
    fn answer_serial(&mut self, publisher: &mut Publisher<A>, serial: u32)
        requires open { self.old.is_open ≡ true }
        requires loaded { is_published publisher.old.kept ≡ true }
        ensures shared { publisher.new ≡ publisher.old }
        ensures heard { (refused : Bool) × (behind_pdu self.new ≡ serial_query publisher.old refused (behind_pdu self.old) [] publisher.old.session serial publisher.old.kept) }
    {
        match publisher.change_since(serial) {
            // The serial is kept: a response, with what changed since.
            Ok(Some(response)) => self.response = Some(response),
            // The serial isn't kept: a Cache Reset.
            Ok(None) => self.answer(&Pdu::CacheReset),
            // Memory refused what a response needs: error 1, closed.
            Err(_) => self.fail(ErrorCode::InternalError, &[]),
        }
    }

    // A Reset Query, where a version is offered (RFC 8210 section 5.4).
    fn answer_reset(&mut self, publisher: &Publisher<A>)
        requires open { self.old.is_open ≡ true }
        requires loaded { is_published publisher.now.kept ≡ true }
        ensures { (refused : Bool) × (behind_pdu self.new ≡ reset_query publisher.now refused (behind_pdu self.old) [] publisher.now.kept) }
    {
        match publisher.whole_version() {
            // A response, with all payloads.
            Ok(Some(response)) => self.response = Some(response),
            Ok(None) => unreachable!(),
            // Memory refused what a response needs: error 1, closed.
            Err(_) => self.fail(ErrorCode::InternalError, &[]),
        }
    }
}
