//! The UPDATEs by which a peer is told of prefixes (RFC 4271 section 4.3).
ghost use Rattle.std.specs.Prelude.{◌≡◌, ◌≢◌, ◌≤◌, ◌<◌, ◌+◌, ◌^◌, ◌⊎◌, ℕ, All, true, false, None, Some, OnErr, OnOk, length, if◌then◌else◌};
ghost use Rattle.std.specs.Bool.{OnFalse, OnTrue};
ghost use Rattle.bgp_fsm.specs.declared.state.State.TheVariants.{Established};
ghost use Rattle.bgp_msg.specs.MessageSpelling.{wire_form};
ghost use Rattle.net_prefix.specs.declared.prefix.Prefix.{Prefix as ThePrefix};
ghost use Rattle.rib_out.specs.Held.{asked_at, held_at, is_among};
ghost use Rattle.decision.specs.BookContents.{rows_of};
ghost use Rattle.routing.specs.Export.{export_in};
ghost use Rattle.routing.specs.Packing.{IsNewTo, most_named};
ghost use Rattle.routing.specs.Places.{rank_of};
ghost use Rattle.loc_rib.specs.SentTables.{sent_to};
ghost use Rattle.routing.specs.Sent.{linked_as};
ghost use Rattle.routing.specs.Tables.{best_at};
ghost use Rattle.routing.specs.Told.{HasRoom, IsTold, update_saying};

use crate::exports::{Octets, exported_route};
use crate::routing::Routing;
use bgp_conf::Conf;
use bgp_msg::{write_announcement, write_withdrawal};
use bgp_peer::Peer;
use decision::Book;
use export_rules::ExportPeer;
use holdings::RecentRewrite;
use loc_rib::{AdjOut, Ribs};
use net_prefix::Prefix;
use std::alloc::{AllocError, Allocator};

/// Tells an Established peer that these prefixes are withdrawn: an UPDATE of it is queued, and the peer doesn't hold them
/// any more. The UPDATE is written to `message`.
pub fn withdraw<A: Allocator + Clone, B: Book<A>>(
    peer: &mut Peer<A>,
    routing: &mut Routing<A, B>,
    slot: u8,
    named: &[Prefix],
    message: &mut Octets,
)
    requires slot { slot < 64 }
    requires established { peer.old.session.state ≡ Established }
    requires room { HasRoom (linked_as routing.old.sent slot peer.old) }
    requires places { All (λ p. rank_of p < 2 ^ 38) named.now }
    requires fits { length (wire_form named.now) ≤ most_named }
    ensures told { IsTold named.now None (linked_as routing.old.sent slot peer.old) (linked_as routing.new.sent slot peer.new) }
    ensures others { (s : ℕ) → s ≢ slot → sent_to routing.new.sent s ≡ sent_to routing.old.sent s }
    ensures rest { routing.new ≡ record routing.old { sent = routing.new.sent } }
    ensures message { message.new.items ≡ update_saying named.now None }
{
    routing.ribs.withdraw_sent(slot, named);
    write_withdrawal(named, message);
    peer.queue(message.as_slice());
}

/// Tells an Established peer these attributes of these prefixes, which are what is exported to
/// this peer of the least: an UPDATE of them is queued, and the peer holds them. Memory is taken only where it holds others, and where that is refused, nothing changes. The UPDATE is written to `message`.
pub fn announce<A: Allocator + Clone, B: Book<A>>(
    peer: &mut Peer<A>,
    routing: &mut Routing<A, B>,
    conf: &Conf<A>,
    to: &ExportPeer,
    least: Prefix,
    slot: u8,
    recent: &mut RecentRewrite<A>,
    named: &[Prefix],
    octets: &Octets,
    message: &mut Octets,
) -> Result<(), AllocError>
    requires slot { slot < 64 }
    requires exported { export_in conf.now (best_at (rows_of routing.old.book)) routing.old.adj_in to.now least ≡ Some octets.now.items }
    requires established { peer.old.session.state ≡ Established }
    requires room { HasRoom (linked_as routing.old.sent slot peer.old) }
    requires places { All (λ p. rank_of p < 2 ^ 38) named.now }
    requires fits { length octets.now.items + length (wire_form named.now) ≤ most_named }
    requires news { (q : ThePrefix) × (is_among q named.now ≡ true) × IsNewTo (linked_as routing.old.sent slot peer.old) q (Some octets.now.items) }
    ensures told { OnOk result (IsTold named.now (Some octets.now.items) (linked_as routing.old.sent slot peer.old) (linked_as routing.new.sent slot peer.new)) }
    ensures apart { (s : ℕ) → s ≢ slot → sent_to routing.new.sent s ≡ sent_to routing.old.sent s }
    ensures rest { routing.new ≡ record routing.old { sent = routing.new.sent } }
    ensures message { OnOk result (message.new.items ≡ update_saying named.now (Some octets.now.items)) }
    ensures err { OnErr result ((peer.new ≡ peer.old) × ((s : ℕ) → sent_to routing.new.sent s ≡ sent_to routing.old.sent s)) }
    ensures others { OnErr result ((q : ThePrefix) × (is_among q named.now ≡ true) × (held_at (sent_to routing.old.sent slot) q ≢ Some octets.now.items)) }
{
    hold(
        &mut routing.ribs,
        conf,
        to,
        least,
        slot,
        recent,
        named,
        octets,
    )?;
    write_announcement(octets.as_slice(), named, message);
    peer.queue(message.as_slice());
    Ok(())
}

// The slot's peer holds these octets of all these prefixes, and has asked for none of them again.
fn hold<A: Allocator + Clone, B: Book<A>>(
    ribs: &mut Ribs<A, B>,
    conf: &Conf<A>,
    to: &ExportPeer,
    least: Prefix,
    slot: u8,
    recent: &mut RecentRewrite<A>,
    named: &[Prefix],
    octets: &Octets,
) -> Result<(), AllocError>
    requires slot { slot < 64 }
    requires exported { export_in conf.now (best_at (rows_of ribs.old.book)) ribs.old.adj_in to.now least ≡ Some octets.now.items }
    requires news { (q : ThePrefix) × (is_among q named.now ≡ true) × ((held_at (sent_to ribs.old.sent slot) q ≢ Some octets.now.items) ⊎ (asked_at (sent_to ribs.old.sent slot) q ≡ true)) }
    ensures held { OnOk result ((q : ThePrefix) → held_at (sent_to ribs.new.sent slot) q ≡ (if is_among q named.now then Some octets.now.items else held_at (sent_to ribs.old.sent slot) q)) }
    ensures asked { OnOk result ((q : ThePrefix) → asked_at (sent_to ribs.new.sent slot) q ≡ (if is_among q named.now then false else asked_at (sent_to ribs.old.sent slot) q)) }
    ensures apart { (s : ℕ) → s ≢ slot → sent_to ribs.new.sent s ≡ sent_to ribs.old.sent s }
    ensures rest { ribs.new ≡ record ribs.old { sent = ribs.new.sent } }
    ensures err { OnErr result ((s : ℕ) → sent_to ribs.new.sent s ≡ sent_to ribs.old.sent s) }
    ensures others { OnErr result ((q : ThePrefix) × (is_among q named.now ≡ true) × (held_at (sent_to ribs.old.sent slot) q ≢ Some octets.now.items)) }
{
    if is_renewal(&ribs.adj_out(slot), named, octets) {
        ribs.renew_sent(slot, named);
        return Ok(());
    }
    let Some(exported) = exported_route(conf, ribs, to, least) else {
        return Ok(());
    };
    let attrs = recent.sent(exported.attrs, exported.rewrite)?;
    ribs.announce_sent(slot, named, &attrs)
}

// Whether the peer holds just these octets of all these prefixes, one of which is new to it or was asked for again. Where
// none was asked for, nothing is looked up.
fn is_renewal<A: Allocator + Clone, B: Book<A>>(
    adj_out: &AdjOut<'_, A, B>,
    named: &[Prefix],
    octets: &Octets,
) -> bool
    requires { (q : ThePrefix) × (is_among q named.now ≡ true) × ((held_at adj_out.now q ≢ Some octets.now.items) ⊎ (asked_at adj_out.now q ≡ true)) }
    ensures all { OnTrue result ((q : ThePrefix) → is_among q named.now ≡ true → held_at adj_out.now q ≡ Some octets.now.items) }
    ensures one { OnFalse result ((q : ThePrefix) × (is_among q named.now ≡ true) × (held_at adj_out.now q ≢ Some octets.now.items)) }
{
    if adj_out.is_none_asked() {
        return false;
    }
    holds_all(adj_out, named, octets)
}

// Whether the peer holds just these octets of all these prefixes.
fn holds_all<A: Allocator + Clone, B: Book<A>>(
    adj_out: &AdjOut<'_, A, B>,
    named: &[Prefix],
    octets: &Octets,
) -> bool
    ensures all { OnTrue result ((q : ThePrefix) → is_among q named.now ≡ true → held_at adj_out.now q ≡ Some octets.now.items) }
    ensures one { OnFalse result ((q : ThePrefix) × (is_among q named.now ≡ true) × (held_at adj_out.now q ≢ Some octets.now.items)) }
{
    for prefix in named {
        if !adj_out.holds(*prefix, octets.as_slice()) {
            return false;
        }
    }
    true
}
