//! PDUs written (RFC 8210 section 5).
ghost use Rattle.std.specs.Prelude.{◌≡◌, ◌≤◌, ◌<◌, ◌+◌, ◌^◌, ◌∷◌, ◌++◌, [], length};
ghost use Rattle.std.specs.Int.{w16, w32, to_be_bytes};
ghost use Rattle.rtr_codec.specs.PduSpelling.{CarriesLawfully, IsLawful, content_of, interval_octets, length_of, payload_octets, pdu_octets, report_octets, spelling};
ghost use Rattle.rtr_codec.specs.PduStream.{IsReadFirst};
ghost use Rattle.rtr_codec.specs.PduTypes.{octet_of};
ghost use Rattle.rtr_codec.specs.declared.place.Place.{Place};

use crate::header::{PduType, VERSION};
use crate::intervals::Intervals;
use crate::pdu::Pdu;
use arrayvec::ArrayVec;
use net_prefix::Vrp;

/// Writes the PDU. What it quotes or carries leaves it within the buffer's 64 octets. What is written is read again,
/// whatever follows it, where what the PDU carries has a length of its type.
pub fn write(pdu: &Pdu<'_>, out: &mut ArrayVec<u8, 64>)
    requires { length_of (content_of pdu.now) ≤ 64 }
    ensures octets { out.new.items ≡ spelling (content_of pdu.now) }
    ensures len { length out.new.items ≡ length_of (content_of pdu.now) }
    ensures lawful { CarriesLawfully (content_of pdu.now) → IsLawful (content_of pdu.now) }
    ensures read { CarriesLawfully (content_of pdu.now) → (place : Place) → IsReadFirst place out.new.items (content_of pdu.now) }
{
    spell(pdu, out);
}

#[tactic(auto, unfolding(crate::specs::PduSpelling::spelling))]
fn spell(pdu: &Pdu<'_>, out: &mut ArrayVec<u8, 64>)
    requires { length_of (content_of pdu.now) ≤ 64 }
    ensures octets { out.new.items ≡ spelling (content_of pdu.now) }
    ensures len { length out.new.items ≡ length_of (content_of pdu.now) }
    ensures lawful { CarriesLawfully (content_of pdu.now) → IsLawful (content_of pdu.now) }
{
    match pdu {
        Pdu::SerialNotify { session, serial } => {
            write_serial(PduType::SerialNotify, *session, *serial, out)
        }
        Pdu::SerialQuery { session, serial } => {
            write_serial(PduType::SerialQuery, *session, *serial, out)
        }
        Pdu::ResetQuery => begin(PduType::ResetQuery, 0, 8, out),
        Pdu::CacheResponse { session } => begin(PduType::CacheResponse, *session, 8, out),
        Pdu::Announcement(payload) => write_payload(1, payload, out),
        Pdu::Withdrawal(payload) => write_payload(0, payload, out),
        Pdu::Ipv6Prefix(body) => write_body(PduType::Ipv6Prefix, body, out),
        Pdu::EndOfData {
            session,
            serial,
            intervals,
        } => write_end_of_data(*session, *serial, intervals, out),
        Pdu::CacheReset => begin(PduType::CacheReset, 0, 8, out),
        Pdu::RouterKey(body) => write_body(PduType::RouterKey, body, out),
        Pdu::ErrorReport { code, quoted } => write_report(*code, quoted, out),
    }
}

fn write_serial(kind: PduType, session: u16, serial: u32, out: &mut ArrayVec<u8, 64>)
    ensures octets { out.new.items ≡ pdu_octets (octet_of kind) session (to_be_bytes w32 serial) }
    ensures fits { (session < 2 ^ 16) × (serial < 2 ^ 32) }
{
    begin(kind, session, 12, out);
    append(&serial.to_be_bytes(), out);
}

fn write_payload(flags: u8, payload: &Vrp, out: &mut ArrayVec<u8, 64>)
    ensures octets { out.new.items ≡ pdu_octets 4 0 (payload_octets flags payload.now) }
    ensures fits { (payload.now.prefix.bits < 2 ^ 32) × (payload.now.asn.0 < 2 ^ 32) }
{
    begin(PduType::Ipv4Prefix, 0, 20, out);
    append(&[flags, payload.prefix.len, payload.max_len, 0], out);
    append(&payload.prefix.bits.to_be_bytes(), out);
    append(&payload.asn.0.to_be_bytes(), out);
}

fn write_body(kind: PduType, body: &[u8], out: &mut ArrayVec<u8, 64>)
    requires { length body.now ≤ 56 }
    ensures { out.new.items ≡ pdu_octets (octet_of kind) 0 body.now }
{
    begin(kind, 0, 8 + body.len() as u32, out);
    append(body, out);
}

fn write_end_of_data(session: u16, serial: u32, intervals: &Intervals, out: &mut ArrayVec<u8, 64>)
    ensures octets { out.new.items ≡ pdu_octets 7 session (to_be_bytes w32 serial ++ interval_octets intervals.now) }
    ensures fits { (session < 2 ^ 16) × (serial < 2 ^ 32) × (intervals.now.refresh < 2 ^ 32) × (intervals.now.retry < 2 ^ 32) × (intervals.now.expire < 2 ^ 32) }
{
    begin(PduType::EndOfData, session, 24, out);
    append(&serial.to_be_bytes(), out);
    append(&intervals.refresh.to_be_bytes(), out);
    append(&intervals.retry.to_be_bytes(), out);
    append(&intervals.expire.to_be_bytes(), out);
}

fn write_report(code: u16, quoted: &[u8], out: &mut ArrayVec<u8, 64>)
    requires { length quoted.now ≤ 48 }
    ensures octets { out.new.items ≡ pdu_octets 10 code (report_octets quoted.now) }
    ensures fits { code < 2 ^ 16 }
{
    let count = quoted.len() as u32;
    begin(PduType::ErrorReport, code, 16 + count, out);
    append(&count.to_be_bytes(), out);
    append(quoted, out);
    append(&[0, 0, 0, 0], out);
}

// A header, in the emptied buffer.
fn begin(kind: PduType, two: u16, length: u32, out: &mut ArrayVec<u8, 64>)
    ensures octets { out.new.items ≡ 1 ∷ octet_of kind ∷ (to_be_bytes w16 two ++ to_be_bytes w32 length) }
    ensures fits { two < 2 ^ 16 }
{
    out.clear();
    append(&[VERSION, kind.octet()], out);
    append(&two.to_be_bytes(), out);
    append(&length.to_be_bytes(), out);
}

fn append(octets: &[u8], out: &mut ArrayVec<u8, 64>)
    requires { length out.old.items + length octets.now ≤ 64 }
    ensures { out.new.items ≡ out.old.items ++ octets.now }
{
    let _fits = out.try_extend_from_slice(octets);
}
