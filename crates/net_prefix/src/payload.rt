//! Validated payloads, and their order.
ghost use Rattle.std.specs.Prelude.{◌≡◌, ◌≤◌, MatchResult};
ghost use Rattle.net_prefix.specs.MaxLengths.{IsMaxLength, IsNoMaxLength};

use crate::asn::Asn;
use crate::fault::PrefixFault;
use crate::prefix::{ADDRESS_BITS, Prefix};

/// A validated payload: routes to prefixes within this one, up to the maximum length, may have the AS as origin
/// (RFC 6811 section 2). Payloads are ordered by prefix, maximum length and AS.
#[derive(Clone, Copy, Debug, PartialEq, Eq, PartialOrd, Ord)]
pub struct Vrp {
    pub prefix: Prefix,
    /// The maximum length in bits.
    pub max_len: u8,
    /// The origin AS.
    pub asn: Asn,
    pub ghost reaches: { prefix.len ≤ max_len },
    pub ghost short: { max_len ≤ 32 },
}

impl Vrp {
    /// The payload of these parts. The fault is a maximum length below the prefix length or over 32.
    pub fn new(prefix: Prefix, max_len: u8, asn: Asn) -> Result<Vrp, PrefixFault>
        ensures { MatchResult result (λ vrp. (vrp.prefix ≡ prefix) × (vrp.max_len ≡ max_len) × (vrp.asn ≡ asn) × IsMaxLength prefix.len max_len) (λ fault. (fault ≡ PrefixFault.MaxRange) × IsNoMaxLength prefix.len max_len) }
    {
        if max_len < prefix.len || max_len > ADDRESS_BITS {
            return Err(PrefixFault::MaxRange);
        }
        Ok(Vrp {
            prefix,
            max_len,
            asn,
        })
    }
}
