//! The texts of a prefix, as `10.0.0.0/16` (RFC 4632 section 3.1), and of a payload, as `10.0.0.0/16-24 AS65002`.
ghost use Rattle.std.specs.Prelude.{◌≡◌, ◌≢◌, ◌<◌, ◌+◌, ◌^◌, ℕ, MatchOption, Result, Some};
ghost use Rattle.net_prefix.specs.PrefixText.{Parses, ParsesAgain, WritesAddress, WritesLength, WritesParts, text_of};
ghost use Rattle.net_prefix.specs.PayloadText.{payload_text};
ghost use Rattle.net_prefix.specs.PrefixFaults.{IsPrefix};
ghost use Rattle.net_prefix.specs.declared.prefix.Prefix.{Prefix};
ghost use Rattle.net_prefix.specs.declared.fault.PrefixFault.{PrefixFault};

use crate::fault::PrefixFault;
use crate::payload::Vrp;
use crate::prefix::Prefix;
use std::fmt;
use std::net::Ipv4Addr;

impl Prefix {
    /// The prefix that the text names: four decimal numbers with dots between them, a slash and a length of at
    /// most two digits, all without leading zeros. The first fault of: a text of another form; a length over 32;
    /// bits behind the length.
    pub fn parse(text: &str) -> Result<Prefix, PrefixFault>
        ensures { Parses text.now result }
    {
        let Some((bits, len)) = parse_parts(text) else {
            return Err(PrefixFault::Text);
        };
        Prefix::new(bits, len)
    }
}

impl fmt::Display for Prefix {
    ghost output = { λ prefix. Some (text_of prefix.bits prefix.len) };

    fn fmt<W: fmt::Write>(&self, f: &mut fmt::Formatter<W>) -> fmt::Result {
        let address = Ipv4Addr::from_bits(self.bits);
        let len = self.len;
        write!(f, "{address}/{len}")
    }
}

impl fmt::Display for Vrp {
    ghost output = { λ vrp. Some (payload_text vrp) };

    fn fmt<W: fmt::Write>(&self, f: &mut fmt::Formatter<W>) -> fmt::Result {
        let prefix = self.prefix;
        let max_len = self.max_len;
        let asn = self.asn;
        write!(f, "{prefix}-{max_len} {asn}")
    }
}

/// What a prefix is printed as is parsed again as the same prefix.
pub fn printed_is_parsed()
    ensures { (bits len : ℕ) (answer : Result Prefix PrefixFault) → bits < 2 ^ 32 → IsPrefix bits len → Parses (text_of bits len) answer → ParsesAgain bits len answer }
{}

// The address and the length that the text writes.
fn parse_parts(text: &str) -> Option<(u32, u8)>
    ensures { WritesParts text.now result }
{
    let (address, len) = text.split_once('/')?;
    let bits = parse_address(address)?;
    let len = parse_length(len.as_bytes())?;
    Some((bits, len))
}

// The address that the text writes.
fn parse_address(text: &str) -> Option<u32>
    ensures { WritesAddress text.now result }
{
    match text.parse::<Ipv4Addr>() {
        Ok(address) => Some(address.to_bits()),
        Err(_) => None,
    }
}

// The length that the digits write: one digit, or two of which the first is not 0.
fn parse_length(digits: &[u8]) -> Option<u8>
    ensures { WritesLength digits.now result }
{
    match digits {
        [one] => digit(*one),
        [ten, one] => {
            let ten = digit(*ten)?;
            let one = digit(*one)?;
            if ten == 0 { None } else { Some(ten * 10 + one) }
        }
        _ => None,
    }
}

// What the digit is worth.
fn digit(octet: u8) -> Option<u8>
    ensures { MatchOption result ((n : ℕ) → n < 10 → octet ≢ 48 + n) (λ n. (n < 10) × (octet ≡ 48 + n)) }
{
    if octet >= b'0' && octet <= b'9' {
        Some(octet - b'0')
    } else {
        None
    }
}
