//! The records by prefix: what the peers hold.
ghost use Rattle.std.specs.Prelude.{◌≡◌, ◌<◌, ◌^◌, ◌==◌, ℕ, None, Some, false, IfSome, IsTrue, OnErr, OnOk, option_map, if◌then◌else◌};
ghost use Rattle.std.specs.Result.{is_ok};
ghost use Rattle.decision.specs.BookContents.{is_prefix};
ghost use Rattle.net_prefix.specs.declared.prefix.Prefix.{Prefix as ThePrefix};
ghost use Rattle.prefix_trie.specs.TrieMap.{found};
ghost use Rattle.prefix_trie.specs.TrieWalks.{first_key};
ghost use Rattle.holdings.specs.Holdings.{held_by};
ghost use Rattle.prefix_table.specs.Picked.{picked};
ghost use Rattle.rib_rows.specs.Records.{AreRecords, AreSound, IsNeeded, IsPrepared, asked_again, held_of, renewed, routed};

use crate::record::Record;
use crate::record_map::{RecordMap, RecordRange};
use decision::Book;
use holdings::SentAttributes;
use net_prefix::Prefix;
use std::alloc::{AllocError, Allocator};

/// The slot's peer holds nothing.
pub fn clear_in<A: Allocator + Clone, B: Book<A>>(rows: &mut RecordMap<A, B>, slot: u8)
    requires slot { slot < 64 }
    requires rows { AreRecords rows.old.entries }
    ensures rows { AreRecords rows.new.entries }
    ensures routed { (p : ThePrefix) → found (routed rows.new.entries) p ≡ found (routed rows.old.entries) p }
    ensures held { (p : ThePrefix) (s : ℕ) → held_of (found rows.new.entries p) s ≡ (if s == slot then None else held_of (found rows.old.entries p) s) }
{
    let mut after = None;
    while let Some(prefix) = first_of(rows.range_after(after)) {
        drop_in(rows, slot, prefix);
        // Places rise, so the walk ends.
        after = Some(prefix);
    }
}

/// The slot's peer asks again for all that it holds (RFC 2918 section 4).
pub fn ask_in<A: Allocator + Clone, B: Book<A>>(rows: &mut RecordMap<A, B>, slot: u8)
    requires slot { slot < 64 }
    requires rows { AreRecords rows.old.entries }
    ensures rows { AreRecords rows.new.entries }
    ensures routed { (p : ThePrefix) → found (routed rows.new.entries) p ≡ found (routed rows.old.entries) p }
    ensures held { (p : ThePrefix) (s : ℕ) → held_of (found rows.new.entries p) s ≡ (if s == slot then option_map asked_again (held_of (found rows.old.entries p) s) else held_of (found rows.old.entries p) s) }
{
    let mut after = None;
    while let Some(prefix) = first_of(rows.range_after(after)) {
        ask_at(rows, slot, prefix);
        // Places rise, so the walk ends.
        after = Some(prefix);
    }
}

// The slot's peer asks for the prefix again, if it holds it.
fn ask_at<A: Allocator + Clone, B: Book<A>>(rows: &mut RecordMap<A, B>, slot: u8, prefix: Prefix)
    requires slot { slot < 64 }
    requires rows { AreRecords rows.old.entries }
    ensures rows { AreRecords rows.new.entries }
    ensures others { (p : ThePrefix) → is_prefix prefix p ≡ false → found rows.new.entries p ≡ found rows.old.entries p }
    ensures routed { (p : ThePrefix) → found (routed rows.new.entries) p ≡ found (routed rows.old.entries) p }
    ensures held { (s : ℕ) → held_of (found rows.new.entries prefix) s ≡ (if s == slot then option_map asked_again (held_of (found rows.old.entries prefix) s) else held_of (found rows.old.entries prefix) s) }
{
    let Some(record) = rows.get_mut(prefix) else {
        return;
    };
    record.ask(slot);
}

// The first prefix of a range.
fn first_of<A: Allocator + Clone, B: Book<A>>(mut range: RecordRange<'_, A, B>) -> Option<Prefix>
    ensures first { result ≡ first_key range.entry }
    ensures address { IfSome result (λ p. p.bits < 2 ^ 32) }
{
    let (prefix, _) = range.next()?;
    is_address(prefix.bits);
    Some(prefix)
}

// An address has 32 bits.
fn is_address(bits: u32)
    ensures { bits < 2 ^ 32 }
{}

/// The slot's peer holds the prefix no more. The record goes where nobody needs it.
pub fn drop_in<A: Allocator + Clone, B: Book<A>>(
    rows: &mut RecordMap<A, B>,
    slot: u8,
    prefix: Prefix,
)
    requires slot { slot < 64 }
    requires rows { AreRecords rows.old.entries }
    ensures rows { AreRecords rows.new.entries }
    ensures others { (p : ThePrefix) → is_prefix prefix p ≡ false → found rows.new.entries p ≡ found rows.old.entries p }
    ensures routed { (p : ThePrefix) → found (routed rows.new.entries) p ≡ found (routed rows.old.entries) p }
    ensures held { (s : ℕ) → held_of (found rows.new.entries prefix) s ≡ (if s == slot then None else held_of (found rows.old.entries prefix) s) }
{
    let Some(record) = rows.get_mut(prefix) else {
        return;
    };
    record.drop_slot(slot);
    if !record.is_needed() {
        rows.remove(prefix);
    }
}

/// The slot's peer hasn't asked for the prefix again.
pub fn renew_in<A: Allocator + Clone, B: Book<A>>(
    rows: &mut RecordMap<A, B>,
    slot: u8,
    prefix: Prefix,
)
    requires slot { slot < 64 }
    requires rows { AreRecords rows.old.entries }
    ensures rows { AreRecords rows.new.entries }
    ensures others { (p : ThePrefix) → is_prefix prefix p ≡ false → found rows.new.entries p ≡ found rows.old.entries p }
    ensures routed { (p : ThePrefix) → found (routed rows.new.entries) p ≡ found (routed rows.old.entries) p }
    ensures held { (s : ℕ) → held_of (found rows.new.entries prefix) s ≡ (if s == slot then option_map renewed (held_of (found rows.old.entries prefix) s) else held_of (found rows.old.entries prefix) s) }
{
    let Some(record) = rows.get_mut(prefix) else {
        return;
    };
    record.renew(slot);
}

/// Makes a place for these attributes with the prefix, where there is none. Nobody may need the record afterwards; where
/// memory is refused, somebody does if somebody did.
pub fn ready_in<A: Allocator + Clone, B: Book<A>>(
    rows: &mut RecordMap<A, B>,
    alloc: &A,
    prefix: Prefix,
    sent: &SentAttributes<A>,
) -> Result<(), AllocError>
    requires { AreSound rows.old.entries }
    ensures rows { AreSound rows.new.entries }
    ensures others { (p : ThePrefix) → is_prefix prefix p ≡ false → found rows.new.entries p ≡ found rows.old.entries p }
    ensures routed { (p : ThePrefix) → found (routed rows.new.entries) p ≡ found (routed rows.old.entries) p }
    ensures held { (s : ℕ) → held_of (found rows.new.entries prefix) s ≡ held_of (found rows.old.entries prefix) s }
    ensures ready { OnOk result (IsPrepared sent.now (found rows.new.entries prefix)) }
    ensures kept { IsPrepared sent.now (found rows.old.entries prefix) → (rows.new.entries ≡ rows.old.entries) × IsTrue (is_ok result) }
    ensures refused { OnErr result (IsNeeded (found rows.old.entries prefix) → IsNeeded (found rows.new.entries prefix)) }
{
    if let Some(record) = rows.get_mut(prefix) {
        return record.make_ready(alloc, sent);
    }
    let mut record = Record::new();
    record.make_ready(alloc, sent)?;
    rows.insert(prefix, record)
}

/// The slot's peer holds these attributes of the prefix from now on, which have a place, and hasn't asked for them again.
pub fn hold_in<A: Allocator + Clone, B: Book<A>>(
    rows: &mut RecordMap<A, B>,
    slot: u8,
    prefix: Prefix,
    sent: &SentAttributes<A>,
)
    requires slot { slot < 64 }
    requires rows { AreSound rows.old.entries }
    requires ready { IsPrepared sent.now (found rows.old.entries prefix) }
    ensures rows { AreSound rows.new.entries }
    ensures others { (p : ThePrefix) → is_prefix prefix p ≡ false → found rows.new.entries p ≡ found rows.old.entries p }
    ensures routed { (p : ThePrefix) → found (routed rows.new.entries) p ≡ found (routed rows.old.entries) p }
    ensures held { (s : ℕ) → held_of (found rows.new.entries prefix) s ≡ (if s == slot then Some (record { octets = sent.now; asked = false }) else held_of (found rows.old.entries prefix) s) }
    ensures ready { IsPrepared sent.now (found rows.new.entries prefix) }
    ensures needed { IsNeeded (found rows.new.entries prefix) }
{
    let Some(record) = rows.get_mut(prefix) else {
        return;
    };
    record.hold(slot, sent);
}

/// The record of the prefix goes where nobody needs it.
pub fn tidy_in<A: Allocator + Clone, B: Book<A>>(rows: &mut RecordMap<A, B>, prefix: Prefix)
    requires { AreSound rows.old.entries }
    ensures rows { AreSound rows.new.entries }
    ensures others { (p : ThePrefix) → is_prefix prefix p ≡ false → found rows.new.entries p ≡ found rows.old.entries p }
    ensures routed { (p : ThePrefix) → found (routed rows.new.entries) p ≡ found (routed rows.old.entries) p }
    ensures held { (s : ℕ) → held_of (found rows.new.entries prefix) s ≡ held_of (found rows.old.entries prefix) s }
    ensures needed { IsNeeded (found rows.new.entries prefix) }
{
    let Some(record) = rows.get_mut(prefix) else {
        return;
    };
    record.tidy();
    if !record.is_needed() {
        rows.remove(prefix);
    }
}

/// The first prefix of a range that the slot's peer holds.
pub fn first_held<A: Allocator + Clone, B: Book<A>>(
    range: RecordRange<'_, A, B>,
    slot: u8,
) -> Option<Prefix>
    requires { slot < 64 }
    ensures { result ≡ first_key (picked (λ r. held_by r.sent slot) range.entry) }
{
    for (prefix, record) in range {
        if record.held(slot).is_some() {
            return Some(prefix);
        }
    }
    None
}
