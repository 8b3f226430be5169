//! What the first octets of a connection ask for.
ghost use Rattle.std.specs.Prelude.{◌≡◌, ℕ, length};
ghost use Rattle.prometheus_text.specs.Requests.{AsksFor, AsksOf};

use httparse::spans::{EMPTY_HEADER_SPAN, HeaderSpan, RequestSpans, parse_request};
use httparse::{Error, Status};

/// How many octets the head of a request may have (own choice).
pub const MOST_OCTETS: usize = 4096;

/// How many fields it may have (own choice).
pub const MOST_HEADERS: usize = 32;

/// What octets ask for.
#[derive(Clone, Copy, Debug, PartialEq, Eq)]
pub enum Asked {
    /// The head of a request isn't whole yet.
    More,
    /// The figures: `GET /metrics`.
    Metrics,
    /// Something else is to be got.
    OtherTarget,
    /// Something else is to be done.
    OtherMethod,
    /// They don't begin a request.
    NoRequest,
    /// The head has more octets or fields than it may.
    TooMuch,
}

/// What the first octets of a connection ask for.
pub fn judge_request(octets: &[u8]) -> Asked
    ensures { AsksFor octets.now result }
{
    let mut headers = [EMPTY_HEADER_SPAN; MOST_HEADERS];
    match parse_request(octets, &mut headers) {
        Ok(Status::Complete(head)) => judge_head(head.method.of(octets), head.path.of(octets)),
        Ok(Status::Partial) if octets.len() < MOST_OCTETS => Asked::More,
        Ok(Status::Partial) | Err(Error::TooManyHeaders) => Asked::TooMuch,
        Err(_) => Asked::NoRequest,
    }
}

// What a head asks for.
fn judge_head(method: &[u8], target: &[u8]) -> Asked
    ensures { AsksOf method.now target.now result }
{
    if method != b"GET".as_slice() {
        return Asked::OtherMethod;
    }
    if target != b"/metrics".as_slice() {
        return Asked::OtherTarget;
    }
    Asked::Metrics
}
