//! IPv4 prefixes, and which covers which.
ghost use Rattle.std.specs.Prelude.{◌≡◌, ◌≤◌, ◌<◌, ◌↔◌, IsTrue, MatchResult};
ghost use Rattle.net_prefix.specs.Cover.{Covers, HasNoHostBits, block_size, masked_bits};
ghost use Rattle.net_prefix.specs.PrefixFaults.{IsNoPrefix, IsPrefix};

use crate::fault::PrefixFault;

/// The length of an address in bits.
pub(crate) const ADDRESS_BITS: u8 = 32;

/// An IPv4 prefix: an address without bits behind the length. Prefixes are ordered by address, then length.
#[derive(Clone, Copy, Debug, PartialEq, Eq, PartialOrd, Ord)]
pub struct Prefix {
    /// The address as a number.
    pub bits: u32,
    /// The length in bits.
    pub len: u8,
    pub ghost short: { len ≤ 32 },
    pub ghost no_host_bits: { HasNoHostBits bits len },
}

impl Default for Prefix {
    ghost is_default = { λ p. (p.bits ≡ 0) × (p.len ≡ 0) };

    /// All addresses, 0.0.0.0/0.
    fn default() -> Self {
        Prefix { bits: 0, len: 0 }
    }
}

impl Prefix {
    /// The prefix of this address and length. The first fault of: a length over 32; bits behind the length.
    pub fn new(bits: u32, len: u8) -> Result<Prefix, PrefixFault>
        ensures { MatchResult result (λ prefix. (prefix.bits ≡ bits) × (prefix.len ≡ len) × IsPrefix bits len) (λ fault. IsNoPrefix bits len fault) }
    {
        if len > ADDRESS_BITS {
            return Err(PrefixFault::LenOver32);
        }
        if u64::from(bits) % size_of_block(len) != 0 {
            return Err(PrefixFault::HostBits);
        }
        Ok(Prefix { bits, len })
    }

    /// The prefix of this length that holds the address. The fault is a length over 32.
    pub fn masked(bits: u32, len: u8) -> Result<Prefix, PrefixFault>
        ensures { MatchResult result (λ prefix. (prefix.bits ≡ masked_bits bits len) × (prefix.len ≡ len) × (len ≤ 32)) (λ fault. (fault ≡ PrefixFault.LenOver32) × (32 < len)) }
    {
        if len > ADDRESS_BITS {
            return Err(PrefixFault::LenOver32);
        }
        let bits = without_host_bits(bits, len);
        Ok(Prefix { bits, len })
    }

    /// Whether each address of the other prefix is one of this prefix (RFC 6811 section 2).
    pub fn covers(&self, other: &Prefix) -> bool
        ensures { IsTrue result ↔ Covers self.now.bits self.now.len other.now.bits other.now.len }
    {
        self.len <= other.len && self.covers_address(other.bits)
    }

    /// Whether the address is one of this prefix.
    pub fn covers_address(&self, address: u32) -> bool
        ensures { IsTrue result ↔ Covers self.now.bits self.now.len address 32 }
    {
        let size = size_of_block(self.len);
        u64::from(self.bits) / size == u64::from(address) / size
    }
}

// The number of addresses in a prefix of this length.
fn size_of_block(len: u8) -> u64
    requires { len ≤ 32 }
    ensures { result ≡ block_size len }
{
    1u64 << (ADDRESS_BITS - len)
}

// The address without the bits behind the length.
fn without_host_bits(bits: u32, len: u8) -> u32
    requires { len ≤ 32 }
    ensures { result ≡ masked_bits bits len }
{
    let size = size_of_block(len);
    let masked = u64::from(bits) / size * size;
    masked as u32
}
