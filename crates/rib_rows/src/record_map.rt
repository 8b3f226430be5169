//! The records by prefix: routes come, change and go.
ghost use Rattle.std.specs.Prelude.{◌≡◌, ◌≢◌, ◌≤◌, ◌+◌, ◌-◌, ◌^◌, ◌==◌, ℕ, None, false, All, IfNone, IfOk, IfSome, IsSome, OnErr, OnOk, min, slice_get, if◌then◌else◌};
ghost use Rattle.decision.specs.BookContents.{AreApart, changed, is_prefix, rows_of};
ghost use Rattle.net_prefix.specs.declared.prefix.Prefix.{Prefix as ThePrefix};
ghost use Rattle.prefix_trie.specs.TrieMap.{found};
ghost use Rattle.prefix_trie.specs.TrieWalks.{first_key};
ghost use Rattle.rib_in.specs.LatestRoutes.{routes_of};
ghost use Rattle.rib_rows.specs.PrefixRows.{adj_in_of, best_of, book_of, offer_of, route_of};
ghost use Rattle.rib_rows.specs.Records.{AreRecords, routed, sent_of};

use crate::record::Record;
use bgp_attr::Attrs;
use decision::{Book, Candidate, Change, Meter};
use net_prefix::Prefix;
use prefix_table::{PrefixTable, Range};
use std::alloc::{AllocError, Allocator};
use std::rc::Rc;

/// The records by prefix.
pub type RecordMap<A, B> = PrefixTable<Record<A, B>, A>;

/// The records of a stretch of prefixes.
pub type RecordRange<'a, A, B> = Range<'a, Record<A, B>, A>;

/// The slot has this route to the prefix from now on, which makes this candidate.
pub fn announce_in<A: Allocator + Clone, B: Book<A>>(
    rows: &mut RecordMap<A, B>,
    alloc: &A,
    meter: &mut Meter,
    slot: u8,
    prefix: Prefix,
    attrs: Rc<Attrs<A>, A>,
    candidate: Option<Candidate>,
) -> Result<(), AllocError>
    requires rows { AreRecords rows.old.entries }
    requires named { IfSome candidate (λ c. c.slot ≡ slot) }
    requires apart { AreApart (λ s. if slot == s then candidate else offer_of (found (routed rows.old.entries) prefix) s) }
    ensures rows { AreRecords rows.new.entries }
    ensures others { (p : ThePrefix) → is_prefix prefix p ≡ false → found (routed rows.new.entries) p ≡ found (routed rows.old.entries) p }
    ensures routes { OnOk result ((s : ℕ) → route_of (found (routed rows.new.entries) prefix) s ≡ (if slot == s then Some attrs.value else route_of (found (routed rows.old.entries) prefix) s)) }
    ensures offers { OnOk result ((s : ℕ) → offer_of (found (routed rows.new.entries) prefix) s ≡ (if slot == s then candidate else offer_of (found (routed rows.old.entries) prefix) s)) }
    ensures err { OnErr result ((rows.new.entries ≡ rows.old.entries) × (meter.new.count ≡ meter.old.count)) }
    ensures absent { OnErr result (route_of (found (routed rows.old.entries) prefix) slot ≡ None) }
    ensures counted { (meter.old.count ≤ meter.new.count) × (meter.new.count ≤ meter.old.count + 1) }
    ensures another { best_of (found (routed rows.new.entries) prefix) ≢ best_of (found (routed rows.old.entries) prefix) → meter.new.count ≡ min (meter.old.count + 1) (2 ^ 64 - 1) }
    ensures same { offer_of (found (routed rows.old.entries) prefix) slot ≡ candidate → meter.new.count ≡ meter.old.count }
    ensures made { OnOk result (offer_of (found (routed rows.old.entries) prefix) slot ≢ candidate → meter.new.count ≡ min (meter.old.count + 1) (2 ^ 64 - 1)) }
    ensures sent { sent_of rows.new.entries ≡ sent_of rows.old.entries }
{
    if let Some(record) = rows.get_mut(prefix) {
        return record.announce(alloc, meter, slot, attrs, candidate);
    }
    let record = Record::of(alloc, slot, attrs)?;
    rows.insert(prefix, record)?;
    if let Some(record) = rows.get_mut(prefix) {
        record.offer(meter, slot, candidate);
    }
    Ok(())
}

/// A slot without a route to the prefix has this one from now on, which makes no candidate yet. Where it has one nothing
/// changes, and the attributes come back.
pub fn bring_in<A: Allocator + Clone, B: Book<A>>(
    rows: &mut RecordMap<A, B>,
    alloc: &A,
    slot: u8,
    prefix: Prefix,
    attrs: Rc<Attrs<A>, A>,
) -> Result<Option<Rc<Attrs<A>, A>>, AllocError>
    requires { AreRecords rows.old.entries }
    ensures rows { AreRecords rows.new.entries }
    ensures others { (p : ThePrefix) → is_prefix prefix p ≡ false → found (routed rows.new.entries) p ≡ found (routed rows.old.entries) p }
    ensures brought { IfOk result (λ back. IfNone back ((route_of (found (routed rows.old.entries) prefix) slot ≡ None) × ((s : ℕ) → route_of (found (routed rows.new.entries) prefix) s ≡ (if slot == s then Some attrs.value else route_of (found (routed rows.old.entries) prefix) s)))) }
    ensures back { IfOk result (λ back. IfSome back (λ other. (rows.new.entries ≡ rows.old.entries) × (other.value ≡ attrs.value) × IsSome (route_of (found (routed rows.old.entries) prefix) slot))) }
    ensures offers { (s : ℕ) → offer_of (found (routed rows.new.entries) prefix) s ≡ offer_of (found (routed rows.old.entries) prefix) s }
    ensures best { rows_of (book_of (routed rows.new.entries)) ≡ rows_of (book_of (routed rows.old.entries)) }
    ensures err { OnErr result (rows.new.entries ≡ rows.old.entries) }
    ensures lacked { OnErr result (route_of (found (routed rows.old.entries) prefix) slot ≡ None) }
    ensures sent { sent_of rows.new.entries ≡ sent_of rows.old.entries }
{
    if let Some(record) = rows.get_mut(prefix) {
        return record.bring(alloc, slot, attrs);
    }
    let record = Record::of(alloc, slot, attrs)?;
    rows.insert(prefix, record)?;
    Ok(None)
}

/// Makes these changes of candidates of the routes to the prefix.
pub fn change_in<A: Allocator + Clone, B: Book<A>>(
    rows: &mut RecordMap<A, B>,
    meter: &mut Meter,
    prefix: Prefix,
    changes: &[Change],
)
    requires rows { AreRecords rows.old.entries }
    requires routed { All (λ c. IsSome (route_of (found (routed rows.old.entries) prefix) c.slot)) changes.now }
    requires named { All (λ c. IfSome c.candidate (λ route. route.slot ≡ c.slot)) changes.now }
    requires apart { AreApart (λ s. changed changes.now s (offer_of (found (routed rows.old.entries) prefix) s)) }
    ensures rows { AreRecords rows.new.entries }
    ensures others { (p : ThePrefix) → is_prefix prefix p ≡ false → found (routed rows.new.entries) p ≡ found (routed rows.old.entries) p }
    ensures routes { adj_in_of (routed rows.new.entries) ≡ adj_in_of (routed rows.old.entries) }
    ensures offers { (s : ℕ) → offer_of (found (routed rows.new.entries) prefix) s ≡ changed changes.now s (offer_of (found (routed rows.old.entries) prefix) s) }
    ensures counted { (meter.old.count ≤ meter.new.count) × (meter.new.count ≤ meter.old.count + 1) }
    ensures another { best_of (found (routed rows.new.entries) prefix) ≢ best_of (found (routed rows.old.entries) prefix) → meter.new.count ≡ min (meter.old.count + 1) (2 ^ 64 - 1) }
    ensures same { ((s : ℕ) → changed changes.now s (offer_of (found (routed rows.old.entries) prefix) s) ≡ offer_of (found (routed rows.old.entries) prefix) s) → meter.new.count ≡ meter.old.count }
    ensures made { (s : ℕ) → changed changes.now s (offer_of (found (routed rows.old.entries) prefix) s) ≢ offer_of (found (routed rows.old.entries) prefix) s → meter.new.count ≡ min (meter.old.count + 1) (2 ^ 64 - 1) }
    ensures sent { sent_of rows.new.entries ≡ sent_of rows.old.entries }
{
    let Some(record) = rows.get_mut(prefix) else {
        return;
    };
    record.change(meter, changes);
}

/// The slot has no route to the prefix any more. The record goes with the last route, unless a peer holds the prefix.
pub fn withdraw_in<A: Allocator + Clone, B: Book<A>>(
    rows: &mut RecordMap<A, B>,
    meter: &mut Meter,
    slot: u8,
    prefix: Prefix,
)
    requires { AreRecords rows.old.entries }
    ensures rows { AreRecords rows.new.entries }
    ensures others { (p : ThePrefix) → is_prefix prefix p ≡ false → found (routed rows.new.entries) p ≡ found (routed rows.old.entries) p }
    ensures routes { (s : ℕ) → route_of (found (routed rows.new.entries) prefix) s ≡ (if slot == s then None else route_of (found (routed rows.old.entries) prefix) s) }
    ensures offers { (s : ℕ) → offer_of (found (routed rows.new.entries) prefix) s ≡ (if slot == s then None else offer_of (found (routed rows.old.entries) prefix) s) }
    ensures counted { (meter.old.count ≤ meter.new.count) × (meter.new.count ≤ meter.old.count + 1) }
    ensures another { best_of (found (routed rows.new.entries) prefix) ≢ best_of (found (routed rows.old.entries) prefix) → meter.new.count ≡ min (meter.old.count + 1) (2 ^ 64 - 1) }
    ensures never { offer_of (found (routed rows.old.entries) prefix) slot ≡ None → meter.new.count ≡ meter.old.count }
    ensures gone { offer_of (found (routed rows.old.entries) prefix) slot ≢ None → meter.new.count ≡ min (meter.old.count + 1) (2 ^ 64 - 1) }
    ensures sent { sent_of rows.new.entries ≡ sent_of rows.old.entries }
{
    let Some(record) = rows.get_mut(prefix) else {
        return;
    };
    record.withdraw(meter, slot);
    if !record.is_needed() {
        rows.remove(prefix);
    }
}

/// The first prefix of a range to which some slot has a route.
pub fn first_routed<A: Allocator + Clone, B: Book<A>>(
    range: RecordRange<'_, A, B>,
) -> Option<Prefix>
    ensures { result ≡ first_key (routed range.entry) }
{
    for (prefix, record) in range {
        if record.is_routed() {
            return Some(prefix);
        }
    }
    None
}

/// The first prefix of a range to which the slot has a route.
pub fn first_of_slot<A: Allocator + Clone, B: Book<A>>(
    range: RecordRange<'_, A, B>,
    slot: u8,
) -> Option<Prefix>
    ensures { result ≡ first_key (routes_of slot (adj_in_of (routed range.entry))) }
{
    for (prefix, record) in range {
        if record.get(slot).is_some() {
            return Some(prefix);
        }
    }
    None
}

/// The first best route of a range.
pub fn first_best<A: Allocator + Clone, B: Book<A>>(
    range: RecordRange<'_, A, B>,
) -> Option<(Prefix, Candidate)>
    ensures { result ≡ slice_get (rows_of (book_of (routed range.entry))) 0 }
{
    for (prefix, record) in range {
        if let Some(best) = record.best() {
            return Some((prefix, best));
        }
    }
    None
}
