//! What is answered to a request.
ghost use Rattle.std.specs.Prelude.{◌≡◌, ◌++◌, OnOk};
ghost use Rattle.prometheus_text.specs.Answers.{answer_of, body_of, field_of, status_of};

use crate::escaping::put;
use crate::request::Asked;
use crate::writing::write_number;
use std::alloc::{AllocError, Allocator};

/// Writes what is answered to what was asked for, behind what the text has; these are the figures. Where memory is refused
/// the text is of no use.
pub fn write_answer<A: Allocator>(
    text: &mut Vec<u8, A>,
    asked: Asked,
    figures: &[u8],
) -> Result<(), AllocError>
    ensures { OnOk result (text.new.items ≡ text.old.items ++ answer_of asked figures.now) }
{
    let body = body(asked, figures);
    put(text, b"HTTP/1.1 ")?;
    put(text, status(asked).as_bytes())?;
    put(text, b"\r\n")?;
    put(text, field(asked).as_bytes())?;
    put(text, b"Content-Length: ")?;
    write_number(text, body.len() as u64)?;
    put(text, b"\r\nConnection: close\r\n\r\n")?;
    put(text, body)
}

// The status (RFC 9110 section 15).
fn status(asked: Asked) -> &'static str
    ensures { result.now ≡ status_of asked }
{
    match asked {
        Asked::More => "408 Request Timeout",
        Asked::Metrics => "200 OK",
        Asked::OtherTarget => "404 Not Found",
        Asked::OtherMethod => "405 Method Not Allowed",
        Asked::NoRequest => "400 Bad Request",
        Asked::TooMuch => "431 Request Header Fields Too Large",
    }
}

// The field that the status asks for.
fn field(asked: Asked) -> &'static str
    ensures { result.now ≡ field_of asked }
{
    match asked {
        Asked::Metrics => "Content-Type: text/plain; version=0.0.4; charset=utf-8\r\n",
        Asked::OtherMethod => "Allow: GET\r\n",
        _ => "",
    }
}

// The body.
fn body(asked: Asked, figures: &[u8]) -> &[u8]
    ensures { result.now ≡ body_of asked figures.now }
{
    match asked {
        Asked::Metrics => figures,
        _ => &[],
    }
}
