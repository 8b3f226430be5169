//! A response in progress.
ghost use Rattle.std.specs.Prelude.{◌≡◌, ◌∷◌, [], IfOk};
ghost use Rattle.std.specs.Rc.{rc_slice_items};
ghost use Rattle.rtr_codec.specs.PduSpelling.{content_of};
ghost use Rattle.rtr_codec.specs.Responses.{response};
ghost use Rattle.rtr_cache.specs.Unsaid.{IsResponsePart, IsUnsaid, change_response, left_of};

use crate::shared_change::SharedChange;
use crate::unsaid::UnsaidPayloads;
use net_prefix::Vrp;
use rtr_codec::{Intervals, Pdu};
use std::alloc::{AllocError, Allocator, Global};
use std::marker::Model;
use std::rc::RcSlice;
use vrp_delta::Snapshot;

/// What every response of a cache tells.
#[derive(Clone, Copy)]
pub struct Terms {
    pub session: u16,
    pub intervals: Intervals,
}

/// What is still to be said of a response. It goes on with its own version whatever is published behind it: what it
/// says stays for as long as a response says it.
#[derive(Drop)]
pub struct Response<A: Allocator = Global> {
    terms: Terms,
    serial: u32,
    is_begun: bool,
    withdrawn: UnsaidPayloads<A>,
    announced: UnsaidPayloads<A>,
}

impl<A: Allocator> Model for Response<A> {
    ghost use Rattle.std.specs.Prelude.{List};
    ghost use Rattle.rtr_codec.specs.PduSpelling.{Content};
    ghost use Rattle.rtr_cache.specs.Unsaid.{payloads_of, unsaid};

    ghost Value = { List Content };

    ghost view = { λ r. unsaid r.is_begun r.terms.session r.terms.intervals r.serial (payloads_of (record { withdrawn = r.withdrawn; announced = r.announced })) };
}

impl<A: Allocator + Clone> Response<A> {
    /// The response that tells what changed up to the version of a serial.
    pub fn of_change(
        terms: Terms,
        serial: u32,
        change: &SharedChange<A>,
    ) -> Result<Self, AllocError>
        ensures { IfOk result (λ r. r ≡ change_response terms.session terms.intervals serial change.now.change) }
    {
        let withdrawn = change.share_withdrawn()?;
        let announced = change.share_announced()?;
        Ok(Response::of_lists(terms, serial, withdrawn, announced))
    }

    /// The response that tells a whole version.
    pub fn of_version(alloc: A, terms: Terms, version: &Snapshot<A>) -> Result<Self, AllocError>
        ensures { IfOk result (λ r. r ≡ response terms.session terms.intervals version.now []) }
    {
        let withdrawn = RcSlice::from_vec(Vec::new(alloc))?;
        let announced = version.share()?;
        Ok(Response::of_lists(terms, version.serial(), withdrawn, announced))
    }
}

impl<A: Allocator> Response<A> {
    fn of_lists(
        terms: Terms,
        serial: u32,
        withdrawn: RcSlice<Vrp, A>,
        announced: RcSlice<Vrp, A>,
    ) -> Self
        ensures { result ≡ change_response terms.session terms.intervals serial (record { withdrawn = rc_slice_items withdrawn; announced = rc_slice_items announced }) }
    {
        Response {
            terms,
            serial,
            is_begun: false,
            withdrawn: UnsaidPayloads::of_list(withdrawn),
            announced: UnsaidPayloads::of_list(announced),
        }
    }

    /// The next PDU, and what is still to be said behind it.
    pub fn next(self) -> (Pdu<'static>, Option<Self>)
        ensures exact { self ≡ content_of result.0 ∷ left_of result.1 }
        ensures more { IsUnsaid result.1 }
        ensures short { IsResponsePart (content_of result.0) }
    {
        let mut rest = self;
        let session = rest.terms.session;
        if !rest.is_begun {
            rest.is_begun = true;
            return (Pdu::CacheResponse { session }, Some(rest));
        }
        if let Some(payload) = rest.withdrawn.next() {
            return (Pdu::Withdrawal(payload), Some(rest));
        }
        if let Some(payload) = rest.announced.next() {
            return (Pdu::Announcement(payload), Some(rest));
        }
        let end = Pdu::EndOfData {
            session,
            serial: rest.serial,
            intervals: rest.terms.intervals,
        };
        (end, None)
    }
}
