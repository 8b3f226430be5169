//! What a log shows of a NOTIFICATION, and of the text of a shutdown.

use arrayvec::ArrayVec;
use std::alloc::{AllocError, Global};
use watched_wires::{Follower, Quoted, SHOWN_OCTETS};

// Bodies of NOTIFICATIONs, and what is shown of each.
#[rattlefmt::skip]
const NOTICES: [(&[u8], &str); 15] = [
    (&[4, 0], "4/0 Hold Timer Expired"),
    (&[2, 1, 0, 4], "2/1 OPEN Message Error, Unsupported Version Number, data 0004"),
    (&[6, 2], "6/2 Cease, Administrative Shutdown"),
    (b"\x06\x02\x00", "6/2 Cease, Administrative Shutdown, \"\""),
    (b"\x06\x02\x06reboot", "6/2 Cease, Administrative Shutdown, \"reboot\""),
    (b"\x06\x04\x03new", "6/4 Cease, Administrative Reset, \"new\""),
    (b"\x06\x02\x07gr\xC3\xBC\xC3\x9Fe", "6/2 Cease, Administrative Shutdown, \"gr\u{fc}\u{df}e\""),
    (b"\x06\x02\x04a\"\\b", "6/2 Cease, Administrative Shutdown, \"a\\\"\\\\b\""),
    (b"\x06\x02\x04\n\r\x00\x7F", "6/2 Cease, Administrative Shutdown, \"\\u{a}\\u{d}\\u{0}\\u{7f}\""),
    (b"\x06\x02\x08\xC2\x85\xE2\x80\xA8\xE2\x80\xAE", "6/2 Cease, Administrative Shutdown, \"\\u{85}\\u{2028}\\u{202e}\""),
    // The length doesn't fit.
    (b"\x06\x02\x05four", "6/2 Cease, Administrative Shutdown, data 05666f7572"),
    (b"\x06\x02\x03four", "6/2 Cease, Administrative Shutdown, data 03666f7572"),
    // What is no UTF-8.
    (b"\x06\x02\x02\xC3\x28", "6/2 Cease, Administrative Shutdown, data 02c328"),
    (b"\x06\x04\x03\xED\xA0\x80", "6/4 Cease, Administrative Reset, data 03eda080"),
    // Others have no text.
    (b"\x06\x03\x02hi", "6/3 Cease, Peer De-configured, data 026869"),
];

// The message with this body: behind the marker stand its length and its type.
fn message_of(body: &[u8]) -> ArrayVec<u8, 300> {
    let length = u16::try_from(body.len().saturating_add(19)).unwrap_or(0);
    let mut message = ArrayVec::new();
    let _marker = message.try_extend_from_slice(&[255; 16]);
    let _fits = message.try_extend_from_slice(&length.to_be_bytes());
    let _fits = message.try_extend_from_slice(&[3]);
    let _fits = message.try_extend_from_slice(body);
    message
}

// What is shown of the message, whose octets come in two pieces, cut there.
fn shown_of(alloc: Global, message: &[u8], cut: usize) -> Result<String, AllocError> {
    let mut follower = Follower::new();
    let (front, rest) = message.split_at(cut.min(message.len()));
    let first = follower.follow(front);
    match follower.follow(rest).or(first) {
        Some(notice) => format!(in alloc; "{notice}"),
        None => Ok(String::new(alloc)),
    }
}

// Whether so much is shown of the message of this body, wherever it is cut.
fn is_shown(alloc: Global, body: &[u8], wanted: &str) -> Result<bool, AllocError> {
    let message = message_of(body);
    for cut in 0..message.len() {
        if shown_of(alloc, message.as_slice(), cut)?.as_str() != wanted {
            return Ok(false);
        }
    }
    Ok(true)
}

#[test]
fn notifications_are_shown_so(rt: HostRuntime) {
    for (body, wanted) in &NOTICES {
        assert!(rt; is_shown(rt.alloc(), body, wanted) == Ok(true));
    }
}

const LONGEST: [u8; 255] = [b'a'; 255];

const ONE_MORE: [u8; 256] = [b'a'; 256];

// Texts of a NOTIFICATION 6/2 behind the length 255, with what is shown of it at the end, and whether that tells of more: one
// of 255 octets is shown whole, and of one octet more, which no length tells, the first data alone.
#[rattlefmt::skip]
const LONG_TEXTS: [(&[u8], &str, bool); 2] = [
    (&LONGEST,  "aaaa\"",                 false),
    (&ONE_MORE, "61 and 225 octets more", true),
];

// A NOTIFICATION 6/2 with this text behind the length 255.
fn message_of_text(text: &[u8]) -> ArrayVec<u8, 300> {
    let mut body: ArrayVec<u8, 260> = ArrayVec::new();
    let _fits = body.try_extend_from_slice(&[6, 2, 255]);
    let _fits = body.try_extend_from_slice(text);
    message_of(body.as_slice())
}

// Whether what is shown of a text ends so, and tells of more.
fn ends(alloc: Global, text: &[u8], end: &str, has_more: bool) -> Result<bool, AllocError> {
    let message = message_of_text(text);
    let shown = shown_of(alloc, message.as_slice(), 100)?;
    Ok(shown.as_str().ends_with(end) && shown.as_str().contains("more") == has_more)
}

#[test]
fn a_text_has_255_octets_at_most(rt: HostRuntime) {
    for (text, end, has_more) in &LONG_TEXTS {
        assert!(rt; SHOWN_OCTETS == 32 && ends(rt.alloc(), text, end, *has_more) == Ok(true));
    }
}

#[test]
fn quoted_texts_stay_on_one_line(rt: HostRuntime) -> Result<(), AllocError> {
    let quoted = format!(in rt.alloc(); "{}", Quoted("a\u{feff}\t\u{61c}\u{2066}b"))?;
    assert!(rt; quoted.as_str() == "\"a\\u{feff}\\u{9}\\u{61c}\\u{2066}b\"");
    Ok(())
}
