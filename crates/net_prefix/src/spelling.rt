//! The octets of a prefix (RFC 4271 section 4.3).
ghost use Rattle.std.specs.Prelude.{◌≡◌, ◌≤◌, ◌<◌, ◌^◌, ◌++◌, IfOk, length, ℕ, List, Result};
ghost use Rattle.arrayvec.specs.ArrayVec.{array_vec_len};
ghost use Rattle.net_prefix.specs.PrefixSpelling.{FindsAgain, Reads, address_from, octets_for, spelling_of};
ghost use Rattle.net_prefix.specs.PrefixFaults.{IsPrefix};
ghost use Rattle.net_prefix.specs.declared.prefix.Prefix.{Prefix};
ghost use Rattle.net_prefix.specs.declared.fault.PrefixFault.{PrefixFault};

use crate::fault::PrefixFault;
use crate::prefix::{ADDRESS_BITS, Prefix};
use arrayvec::ArrayVec;

impl Prefix {
    /// The length, then the fewest octets that hold so many bits (RFC 4271 section 4.3).
    pub fn to_octets(&self) -> ArrayVec<u8, 5>
        ensures octets { result.items ≡ spelling_of self.now.bits self.now.len }
        ensures some { 1 ≤ array_vec_len result }
        ensures fits { array_vec_len result ≤ 5 }
    {
        let address = self.bits.to_be_bytes();
        let mut octets = ArrayVec::new();
        octets.push(self.len);
        let _fits = octets.try_extend_from_slice(&address[..octets_for(self.len)]);
        octets
    }
}

/// The prefix at the front of the octets, and how many octets it takes: a length, then the fewest octets that
/// hold so many bits, of which those behind the length mean nothing (RFC 4271 section 4.3). The first fault of:
/// a length over 32; octets that end within the prefix.
pub fn read_prefix(octets: &[u8]) -> Result<(Prefix, usize), PrefixFault>
    ensures answer { Reads octets.now result }
    ensures some { IfOk result (λ found. 1 ≤ found.1) }
    ensures most { IfOk result (λ found. found.1 ≤ 5) }
    ensures within { IfOk result (λ found. found.1 ≤ length octets.now) }
{
    let Some((len, rest)) = octets.split_first() else {
        return Err(PrefixFault::Cut);
    };
    if *len > ADDRESS_BITS {
        return Err(PrefixFault::LenOver32);
    }
    let count = octets_for(*len);
    let Some((address, _)) = rest.split_at_checked(count) else {
        return Err(PrefixFault::Cut);
    };
    let prefix = Prefix::masked(address_from(address), *len)?;
    Ok((prefix, 1 + count))
}

/// What a prefix is written as is read again as the same prefix, whatever follows it.
pub fn written_is_read()
    ensures { (bits len : ℕ) (rest : List ℕ) (answer : Result (Prefix × ℕ) PrefixFault) → bits < 2 ^ 32 → IsPrefix bits len → Reads (spelling_of bits len ++ rest) answer → FindsAgain bits len answer }
{}

// The fewest octets that hold so many bits.
fn octets_for(len: u8) -> usize
    requires { len ≤ 32 }
    ensures { result ≡ octets_for len }
{
    usize::from((len + 7) / 8)
}

// The address that begins with these octets, and goes on with zeros.
fn address_from(octets: &[u8]) -> u32
    ensures { result ≡ address_from octets.now }
{
    let [a, b, c, d] = match octets {
        [] => [0, 0, 0, 0],
        [a] => [*a, 0, 0, 0],
        [a, b] => [*a, *b, 0, 0],
        [a, b, c] => [*a, *b, *c, 0],
        [a, b, c, d, ..] => [*a, *b, *c, *d],
    };
    u32::from_be_bytes([a, b, c, d])
}
