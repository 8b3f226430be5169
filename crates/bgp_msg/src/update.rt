//! The UPDATE message (RFC 4271 section 4.3).
ghost use Rattle.std.specs.Prelude.{◌≡◌, ◌<◌, ◌+◌, ◌^◌, ◌↔◌, ℕ, List, All, ◌∷◌, IfOk, IfErr, IsSome, IfNone, IfSome, Some, None, length, []};
ghost use Rattle.net_prefix.specs.declared.prefix.Prefix.{Prefix};
ghost use Rattle.std.specs.Option.{option_map};
ghost use Rattle.bgp_msg.specs.MessageSpelling.{counted_at, update_parts, prefix_at, front_prefixes, are_prefixes_in, prefixes_in, ArePrefixes, wire_form};
ghost use Rattle.bgp_msg.specs.UpdateMeaning.{CanBeWritten, IsUpdate, UpdateBody, first_of, missing_fault, prefixes_fault, written_body, parts_fault, said_by, fault_before_memory, update_fault, update_in};
ghost use Rattle.bgp_attr.specs.AttributeFaults.{attributes_fault, seen};
ghost use Rattle.bgp_attr.specs.ReceivedAttributes.{AreOctets};
ghost use Rattle.bgp_attr.specs.AttributeReading.{NeedMemory, attributes_in};
ghost use Rattle.bgp_attr.specs.PathAttributes.{missing_of};
ghost use Rattle.bgp_attr.specs.declared.peer.PeerKind.{PeerKind};
ghost use Rattle.std.specs.Iterator.{YieldsFirst, item_count};

use bgp_attr::{Attrs, PeerKind, UpdateFault, attributes_are_spelled, read_attrs};
use byteorder::{BigEndian, ByteOrder};
use net_prefix::{Prefix, read_prefix};
use std::alloc::Allocator;
use std::marker::Model;

/// What an UPDATE says. Its prefixes are read again where they are asked for.
#[derive(Drop)]
pub struct Update<'a, A: Allocator> {
    withdrawn: &'a [u8],
    announced: &'a [u8],
    attrs: Attrs<A>,
}

impl<'a, A: Allocator> Model for Update<'a, A> {
    ghost use Rattle.bgp_msg.specs.UpdateMeaning.{UpdateBody};
    ghost use Rattle.bgp_msg.specs.MessageSpelling.{front_prefixes};

    ghost Value = { UpdateBody };

    ghost view = { λ u. record { withdrawn = (front_prefixes u.withdrawn.now).0; attrs = u.attrs; announced = (front_prefixes u.announced.now).0 } };
}

/// Prefixes in their wire form, one after another.
#[derive(Clone, Copy, Debug)]
pub struct Prefixes<'a> {
    octets: &'a [u8],
}

impl<'a, A: Allocator> Update<'a, A> {
    /// The prefixes that are withdrawn.
    pub fn withdrawn(&self) -> Prefixes<'a>
        ensures { (front_prefixes result.octets.now).0 ≡ self.now.withdrawn }
    {
        Prefixes {
            octets: self.withdrawn,
        }
    }

    /// The prefixes that are announced: the network layer reachability information.
    pub fn announced(&self) -> Prefixes<'a>
        ensures { (front_prefixes result.octets.now).0 ≡ self.now.announced }
    {
        Prefixes {
            octets: self.announced,
        }
    }

    /// The path attributes.
    pub fn attrs(&self) -> &Attrs<A>
        ensures { result.now ≡ self.now.attrs }
    {
        &self.attrs
    }

    /// The path attributes, to keep.
    pub fn into_attrs(self) -> Attrs<A>
        ensures { result ≡ self.entry.attrs }
    {
        let Update {
            withdrawn: _,
            announced: _,
            attrs,
        } = self;
        attrs
    }
}

impl Iterator for Prefixes<'_> {
    type Item = Prefix;

    ghost next_gives = { YieldsFirst (λ s. (front_prefixes s.octets.now).0) };

    ghost remaining = { item_count (λ s. (front_prefixes s.octets.now).0) };

    fn next(&mut self) -> Option<Prefix> {
        let (prefix, behind) = split_prefix(self.octets)?;
        self.octets = behind;
        Some(prefix)
    }
}

/// The UPDATE of this body, or its first fault (RFC 4271 section 6.3). Own choice: the order of the checks,
/// which is the order of the lines. Memory is taken for an AS_PATH and for unknown attributes that are passed
/// on, and the allocator is cloned for nothing else; what is missing, and the announced prefixes, are looked at behind it.
#[tactic(auto, unfolding(crate::specs::UpdateMeaning::update_fault, crate::specs::UpdateMeaning::update_in))]
pub fn read_update<'a, A: Allocator + Clone>(
    alloc: &A,
    body: &'a [u8],
    kind: PeerKind,
) -> Result<Update<'a, A>, UpdateFault<'a>>
    ensures faultless { IfOk result (λ update. update_fault kind body.now ≡ None) }
    ensures value { IfOk result (λ update. update ≡ update_in kind body.now) }
    ensures fault { IfErr result (λ fault. IsSome (seen fault) → seen fault ≡ update_fault kind body.now) }
    ensures memory { IfErr result (λ fault. seen fault ≡ None → (fault_before_memory kind (update_parts body.now) ≡ None) × NeedMemory (update_in kind body.now).attrs) }
{
    let Some((withdrawn, attributes, announced)) = split_body(body) else {
        return Err(UpdateFault::MalformedAttributeList);
    };
    read_parts(alloc, withdrawn, attributes, announced, kind)
}

// The UPDATE of these parts, or its first fault.
fn read_parts<'a, A: Allocator + Clone>(
    alloc: &A,
    withdrawn: &'a [u8],
    attributes: &'a [u8],
    announced: &'a [u8],
    kind: PeerKind,
) -> Result<Update<'a, A>, UpdateFault<'a>>
    ensures faultless { IfOk result (λ update. parts_fault kind (withdrawn.now, attributes.now, announced.now) ≡ None) }
    ensures value { IfOk result (λ update. update ≡ said_by kind (withdrawn.now, attributes.now, announced.now)) }
    ensures fault { IfErr result (λ fault. IsSome (seen fault) → seen fault ≡ parts_fault kind (withdrawn.now, attributes.now, announced.now)) }
    ensures memory { IfErr result (λ fault. seen fault ≡ None → (fault_before_memory kind (Some (withdrawn.now, attributes.now, announced.now)) ≡ None) × NeedMemory (attributes_in kind attributes.now)) }
{
    if !are_prefixes(withdrawn) {
        return Err(UpdateFault::InvalidNetworkField);
    }
    let attrs = read_attrs(alloc, attributes, kind)?;
    match announced_fault(&attrs, announced, kind) {
        Some(fault) => Err(fault),
        None => Ok(Update {
            withdrawn,
            announced,
            attrs,
        }),
    }
}

// What is at fault behind the attributes: one that is missing where prefixes are announced, or these prefixes.
fn announced_fault<'a, A: Allocator>(
    attrs: &Attrs<A>,
    announced: &[u8],
    kind: PeerKind,
) -> Option<UpdateFault<'a>>
    ensures none { IfNone result (first_of (missing_fault announced.now (missing_of kind attrs.now) ∷ prefixes_fault announced.now ∷ []) ≡ None) }
    ensures fault { IfSome result (λ fault. seen fault ≡ first_of (missing_fault announced.now (missing_of kind attrs.now) ∷ prefixes_fault announced.now ∷ [])) }
    ensures seen { IfSome result (λ fault. IsSome (seen fault)) }
{
    if !announced.is_empty() {
        if let Some(missing) = attrs.missing(kind) {
            return Some(UpdateFault::MissingWellKnown(missing));
        }
    }
    if !are_prefixes(announced) {
        return Some(UpdateFault::InvalidNetworkField);
    }
    None
}

/// The UPDATE that a body spells is the one that is read, and a body without a fault spells one.
pub fn only_update()
    ensures read { (kind : PeerKind) (body : List ℕ) (update : UpdateBody) → IsUpdate kind body update → (update_fault kind body ≡ None) × (update_in kind body ≡ update) }
    ensures spelled { (kind : PeerKind) (body : List ℕ) → AreOctets body → update_fault kind body ≡ None → IsUpdate kind body (update_in kind body) }
{
    attributes_are_spelled();
}

/// What an UPDATE is written from is what it says, where its attributes have no fault and lack none.
pub fn written_update_is_read()
    ensures says { (kind : PeerKind) (withdrawn announced : List Prefix) (attributes : List ℕ) → CanBeWritten kind withdrawn attributes announced → (update_fault kind (written_body withdrawn attributes announced) ≡ None) × (update_in kind (written_body withdrawn attributes announced) ≡ record { withdrawn = withdrawn; attrs = attributes_in kind attributes; announced = announced }) }
    ensures withdrawal { (kind : PeerKind) → attributes_fault kind [] ≡ None }
{}

/// Octets are read as prefixes exactly where they are these prefixes one after another.
pub fn only_prefixes()
    ensures { (octets : List ℕ) (prefixes : List Prefix) → (prefixes_in octets ≡ Some prefixes) ↔ ArePrefixes octets prefixes }
{}

/// What prefixes are written as is read again as these prefixes.
pub fn written_prefixes_are_read()
    ensures { (prefixes : List Prefix) → All (λ prefix. prefix.bits < 2 ^ 32) prefixes → prefixes_in (wire_form prefixes) ≡ Some prefixes }
{}

// The withdrawn routes, the path attributes and the octets behind them, where both lengths fit.
fn split_body(body: &[u8]) -> Option<(&[u8], &[u8], &[u8])>
    ensures { option_map (λ parts. (parts.0.now, parts.1.now, parts.2.now)) result ≡ update_parts body.now }
{
    let (withdrawn, rest) = split_counted(body)?;
    let (attributes, announced) = split_counted(rest)?;
    Some((withdrawn, attributes, announced))
}

// As many octets as the two at the front tell, and those behind them.
fn split_counted(octets: &[u8]) -> Option<(&[u8], &[u8])>
    ensures { option_map (λ parts. (parts.0.now, parts.1.now)) result ≡ counted_at octets.now }
{
    let (count, rest) = octets.split_at_checked(2)?;
    rest.split_at_checked(usize::from(BigEndian::read_u16(count)))
}

// Whether the octets are prefixes in their wire form to the end.
fn are_prefixes(octets: &[u8]) -> bool
    ensures { result ≡ are_prefixes_in octets.now }
{
    let mut rest = octets;
    while !rest.is_empty() {
        let Some((_, behind)) = split_prefix(rest) else {
            return false;
        };
        rest = behind;
    }
    true
}

// The prefix at the front, and the octets behind it.
fn split_prefix(octets: &[u8]) -> Option<(Prefix, &[u8])>
    ensures prefix { prefix_at octets.now ≡ option_map (λ found. (found.0, found.1.now)) result }
    ensures shorter { IfSome result (λ found. length found.1.now < length octets.now) }
{
    match read_prefix(octets) {
        Ok((prefix, used)) => {
            let (_, behind) = octets.split_at(used);
            Some((prefix, behind))
        }
        Err(_) => None,
    }
}
