//! What one slot's peer holds of many prefixes.
ghost use Rattle.std.specs.Prelude.{◌≡◌, ◌<◌, ◌==◌, ◌&&◌, ℕ, None, Some, true, false, OnOk, option_map, if◌then◌else◌};
ghost use Rattle.net_prefix.specs.declared.prefix.Prefix.{Prefix as ThePrefix};
ghost use Rattle.prefix_trie.specs.TrieMap.{found};
ghost use Rattle.rib_out.specs.Held.{is_among};
ghost use Rattle.rib_rows.specs.Records.{AreRecords, AreSound, IsNeeded, IsPrepared, held_of, renewed, routed};

use decision::Book;
use holdings::SentAttributes;
use net_prefix::Prefix;
use rib_rows::{RecordMap, drop_in, hold_in, ready_in, renew_in, tidy_in};
use std::alloc::{AllocError, Allocator};

/// The slot's peer holds these prefixes no more.
pub(crate) fn drop_all<A: Allocator + Clone, B: Book<A>>(
    rows: &mut RecordMap<A, B>,
    slot: u8,
    prefixes: &[Prefix],
)
    requires slot { slot < 64 }
    requires rows { AreRecords rows.old.entries }
    ensures rows { AreRecords rows.new.entries }
    ensures routed { (p : ThePrefix) → found (routed rows.new.entries) p ≡ found (routed rows.old.entries) p }
    ensures held { (p : ThePrefix) (s : ℕ) → held_of (found rows.new.entries p) s ≡ (if s == slot && is_among p prefixes.now then None else held_of (found rows.old.entries p) s) }
{
    for prefix in prefixes {
        drop_in(rows, slot, *prefix);
    }
}

/// The slot's peer has asked for none of these prefixes again.
pub(crate) fn renew_all<A: Allocator + Clone, B: Book<A>>(
    rows: &mut RecordMap<A, B>,
    slot: u8,
    prefixes: &[Prefix],
)
    requires slot { slot < 64 }
    requires rows { AreRecords rows.old.entries }
    ensures rows { AreRecords rows.new.entries }
    ensures routed { (p : ThePrefix) → found (routed rows.new.entries) p ≡ found (routed rows.old.entries) p }
    ensures held { (p : ThePrefix) (s : ℕ) → held_of (found rows.new.entries p) s ≡ (if s == slot && is_among p prefixes.now then option_map renewed (held_of (found rows.old.entries p) s) else held_of (found rows.old.entries p) s) }
{
    for prefix in prefixes {
        renew_in(rows, slot, *prefix);
    }
}

/// Makes a place for these attributes with each of these prefixes. Nobody may need some of their records afterwards.
pub(crate) fn ready_all<A: Allocator + Clone, B: Book<A>>(
    rows: &mut RecordMap<A, B>,
    alloc: &A,
    prefixes: &[Prefix],
    sent: &SentAttributes<A>,
) -> Result<(), AllocError>
    requires { AreSound rows.old.entries }
    ensures rows { AreSound rows.new.entries }
    ensures routed { (p : ThePrefix) → found (routed rows.new.entries) p ≡ found (routed rows.old.entries) p }
    ensures held { (p : ThePrefix) (s : ℕ) → held_of (found rows.new.entries p) s ≡ held_of (found rows.old.entries p) s }
    ensures others { (p : ThePrefix) → is_among p prefixes.now ≡ false → found rows.new.entries p ≡ found rows.old.entries p }
    ensures ready { OnOk result ((p : ThePrefix) → is_among p prefixes.now ≡ true → IsPrepared sent.now (found rows.new.entries p)) }
{
    for prefix in prefixes {
        ready_in(rows, alloc, *prefix, sent)?;
    }
    Ok(())
}

/// The slot's peer holds these attributes of all these prefixes, which have a place, and hasn't asked for them again.
pub(crate) fn hold_all<A: Allocator + Clone, B: Book<A>>(
    rows: &mut RecordMap<A, B>,
    slot: u8,
    prefixes: &[Prefix],
    sent: &SentAttributes<A>,
)
    requires slot { slot < 64 }
    requires rows { AreSound rows.old.entries }
    requires ready { (p : ThePrefix) → is_among p prefixes.now ≡ true → IsPrepared sent.now (found rows.old.entries p) }
    ensures rows { AreSound rows.new.entries }
    ensures routed { (p : ThePrefix) → found (routed rows.new.entries) p ≡ found (routed rows.old.entries) p }
    ensures held { (p : ThePrefix) (s : ℕ) → held_of (found rows.new.entries p) s ≡ (if s == slot && is_among p prefixes.now then Some (record { octets = sent.now; asked = false }) else held_of (found rows.old.entries p) s) }
    ensures others { (p : ThePrefix) → is_among p prefixes.now ≡ false → found rows.new.entries p ≡ found rows.old.entries p }
    ensures needed { (p : ThePrefix) → is_among p prefixes.now ≡ true → IsNeeded (found rows.new.entries p) }
{
    for prefix in prefixes {
        hold_in(rows, slot, *prefix, sent);
    }
}

/// The records of these prefixes go where nobody needs them.
pub(crate) fn tidy_all<A: Allocator + Clone, B: Book<A>>(
    rows: &mut RecordMap<A, B>,
    prefixes: &[Prefix],
)
    requires { AreSound rows.old.entries }
    ensures rows { AreSound rows.new.entries }
    ensures routed { (p : ThePrefix) → found (routed rows.new.entries) p ≡ found (routed rows.old.entries) p }
    ensures held { (p : ThePrefix) (s : ℕ) → held_of (found rows.new.entries p) s ≡ held_of (found rows.old.entries p) s }
    ensures others { (p : ThePrefix) → is_among p prefixes.now ≡ false → found rows.new.entries p ≡ found rows.old.entries p }
    ensures needed { (p : ThePrefix) → is_among p prefixes.now ≡ true → IsNeeded (found rows.new.entries p) }
{
    for prefix in prefixes {
        tidy_in(rows, *prefix);
    }
}
