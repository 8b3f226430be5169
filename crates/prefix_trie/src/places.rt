//! Where one prefix stands, seen from another.
ghost use Rattle.prefix_trie.specs.Places.{IsHigh, IsLow, IsSplit, Stands, StandsLonger, end_of};
ghost use Rattle.std.specs.Prelude.{◌≡◌, ◌+◌, ◌<◌, ◌≤◌};
ghost use Rattle.net_prefix.specs.Cover.{block_size, masked_bits};

use net_prefix::Prefix;

/// Where a key stands, seen from the prefix of a node.
#[derive(Clone, Copy)]
pub(crate) enum Place {
    /// It is the prefix.
    Same,
    /// The lower half of the prefix covers it.
    Low,
    /// The upper half of the prefix covers it.
    High,
    /// Its lower half covers the prefix.
    OverLow,
    /// Its upper half covers the prefix.
    OverHigh,
    /// It ends where the prefix begins, or before.
    Before,
    /// It begins where the prefix ends, or behind.
    Behind,
}

/// Where the key stands.
pub(crate) fn place_of(top: Prefix, key: Prefix) -> Place
    ensures { Stands top key result }
{
    if top.len < key.len {
        return inside(top, key);
    }
    if key.len < top.len {
        return match inside(key, top) {
            Place::Low => Place::OverLow,
            Place::High => Place::OverHigh,
            Place::Before => Place::Behind,
            _ => Place::Before,
        };
    }
    if key.bits < top.bits {
        Place::Before
    } else if top.bits < key.bits {
        Place::Behind
    } else {
        Place::Same
    }
}

// Where a longer prefix stands.
fn inside(top: Prefix, key: Prefix) -> Place
    requires { top.len < key.len }
    ensures { StandsLonger top key result }
{
    if key.bits < top.bits {
        return Place::Before;
    }
    let half = half_of(top.len);
    let from = u64::from(key.bits) - u64::from(top.bits);
    if from < half {
        Place::Low
    } else if from < half + half {
        Place::High
    } else {
        Place::Behind
    }
}

/// The longest prefix that covers both, of which the first ends where the second begins, or before.
pub(crate) fn fork_of(low: Prefix, high: Prefix) -> Prefix
    requires { end_of low ≤ high.bits }
    ensures low { IsLow result low }
    ensures high { IsHigh result high }
{
    let len = common_len(low.bits, high.bits);
    let bits = block_start(low.bits, len);
    Prefix { bits, len }
}

// How many bits two addresses have in common from the first on.
fn common_len(low: u32, high: u32) -> u8
    requires { low < high }
    ensures { IsSplit low high result }
{
    let len = (low ^ high).leading_zeros();
    len as u8
}

// Where the block of this length begins that the address is in.
fn block_start(address: u32, len: u8) -> u32
    requires { len ≤ 32 }
    ensures { result ≡ masked_bits address len }
{
    let shift = 32 - len;
    let start = u64::from(address) >> shift << shift;
    start as u32
}

// The number of addresses in a half of a prefix of this length.
fn half_of(len: u8) -> u64
    requires { len < 32 }
    ensures { result ≡ block_size (len + 1) }
{
    1u64 << (31 - len)
}
