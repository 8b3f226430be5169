//! Reading the attributes of an UPDATE (RFC 4271 sections 4.3 and 6.3).
ghost use Rattle.std.specs.Prelude.{◌≡◌, ◌<◌, ◌^◌, ◌⊎◌, length, IfOk, IfErr, IfSome, OnErr, IsSome, Some, None, false, is_some};
ghost use Rattle.std.specs.List.{list_any};
ghost use Rattle.std.specs.Option.{option_and_then, option_map};
ghost use Rattle.bgp_attr.specs.AttributeFaults.{Judges, attribute_tests, attributes_fault, first_fault, has_other_length, known_tests, seen, type_tests, value_tests};
ghost use Rattle.bgp_attr.specs.AttributeFaults as faults;
ghost use Rattle.bgp_attr.specs.AttributeReading.{NeedMemory, as_came, attributes_in, number_in, origin_in, taken_of, value_taken};
ghost use Rattle.bgp_attr.specs.AttributeReading as reading;
ghost use Rattle.bgp_attr.specs.AttributeTable.{length_of};
ghost use Rattle.bgp_attr.specs.PathReading.{path_at};
ghost use Rattle.bgp_attr.specs.ReceivedAttributes.{is_partial, split_of};
ghost use Rattle.bgp_attr.specs.UnknownAttributes.{is_kept, unknown_in};
ghost use Rattle.bgp_attr.specs.declared.attribute_type.AttributeType.TheVariants as type;

use crate::aggregator::{Aggregator, split_aggregator};
use crate::as_path::AsPath;
use crate::attribute_type::AttributeType;
use crate::attrs::{Attrs, Origin};
use crate::fault::UpdateFault;
use crate::header::{Attribute, find_attribute, split_attribute};
use crate::path_reading::{is_malformed, read_path};
use crate::peer::PeerKind;
use crate::unknown::UnknownAttributes;
use net_prefix::Asn;
use std::alloc::{AllocError, Allocator};

/// The attributes that these octets are, from a peer of this kind; or the first fault, from left to right. Which
/// attributes are missing is told by [`Attrs::missing`]. Memory is taken for an AS_PATH and for unknown attributes that
/// are passed on, and the allocator is cloned for nothing else.
pub fn read_attrs<'a, A: Allocator + Clone>(
    alloc: &A,
    octets: &'a [u8],
    kind: PeerKind,
) -> Result<Attrs<A>, UpdateFault<'a>>
    ensures faultless { IfOk result (λ attrs. attributes_fault kind octets.now ≡ None) }
    ensures found { IfOk result (λ attrs. attrs ≡ attributes_in kind octets.now) }
    ensures fault { IfErr result (λ fault. seen fault ≡ attributes_fault kind octets.now) }
    ensures memory { IfErr result (λ fault. seen fault ≡ None → NeedMemory (attributes_in kind octets.now)) }
{
    check_attributes(octets, kind)?;
    Ok(take_attributes(alloc, octets, kind)?)
}

// Looks for the first fault.
fn check_attributes<'a>(octets: &'a [u8], kind: PeerKind) -> Result<(), UpdateFault<'a>>
    ensures { Judges result (attributes_fault kind octets.now) }
{
    let mut came = [false; 256];
    let mut rest = octets;
    while !rest.is_empty() {
        let Some((attribute, behind)) = split_attribute(rest) else {
            return Err(UpdateFault::MalformedAttributeList);
        };
        check_attribute(came[usize::from(attribute.code)], attribute, kind)?;
        came[usize::from(attribute.code)] = true;
        rest = behind;
    }
    Ok(())
}

// Looks for the first fault of an attribute whose code came before, or did not.
fn check_attribute<'a>(
    came: bool,
    attribute: Attribute<'a>,
    kind: PeerKind,
) -> Result<(), UpdateFault<'a>>
    ensures { Judges result (first_fault (attribute_tests kind came (as_came attribute.entry))) }
{
    // 3/1
    if came {
        return Err(UpdateFault::MalformedAttributeList);
    }
    match AttributeType::from_octet(attribute.code) {
        Some(known) => check_known(known, attribute, kind),
        None => check_unknown(attribute, kind),
    }
}

fn check_unknown<'a>(attribute: Attribute<'a>, kind: PeerKind) -> Result<(), UpdateFault<'a>>
    ensures { Judges result (first_fault (type_tests kind None (as_came attribute.entry))) }
{
    // 3/2
    if !attribute.is_optional() {
        return Err(UpdateFault::UnrecognizedWellKnown(attribute.whole));
    }
    Ok(())
}

fn check_known<'a>(
    known: AttributeType,
    attribute: Attribute<'a>,
    kind: PeerKind,
) -> Result<(), UpdateFault<'a>>
    ensures { Judges result (first_fault (type_tests kind (Some known) (as_came attribute.entry))) }
{
    if !known.is_taken(kind) {
        return Ok(());
    }
    check_taken(known, attribute, kind)
}

fn check_taken<'a>(
    known: AttributeType,
    attribute: Attribute<'a>,
    kind: PeerKind,
) -> Result<(), UpdateFault<'a>>
    ensures { Judges result (first_fault (known_tests kind known (as_came attribute.entry))) }
{
    // 3/4
    if attribute.class_flags() != known.class().flags() {
        return Err(UpdateFault::AttributeFlags(attribute.whole));
    }
    // 3/5
    if let Some(length) = known.length()
        && attribute.value.len() != usize::from(length)
    {
        return Err(UpdateFault::AttributeLength(attribute.whole));
    }
    check_value(known, attribute, kind)
}

fn check_value<'a>(
    known: AttributeType,
    attribute: Attribute<'a>,
    kind: PeerKind,
) -> Result<(), UpdateFault<'a>>
    requires { has_other_length (length_of known) attribute.value.now ≡ false }
    ensures { Judges result (first_fault (value_tests kind known (as_came attribute.entry))) }
{
    let value = attribute.value;
    let whole = attribute.whole;
    match known {
        // 3/6
        AttributeType::Origin if Origin::from_octet(value[0]).is_none() => {
            Err(UpdateFault::InvalidOrigin(whole))
        }
        // 3/11
        AttributeType::AsPath if is_malformed(value, kind) => Err(UpdateFault::MalformedAsPath),
        // 3/8
        AttributeType::NextHop if is_no_host(value[0]) => Err(UpdateFault::InvalidNextHop(whole)),
        _ => Ok(()),
    }
}

// Whether an address that begins with this octet is no host's.
fn is_no_host(octet: u8) -> bool
    ensures { result ≡ faults.is_no_host octet }
{
    matches!(octet, 0 | 127 | 224..=255)
}

/// Whether the address is a host's, as a NEXT_HOP has to be (RFC 4271 section 6.3).
pub fn is_host(address: u32) -> bool
    ensures { result ≡ faults.is_host address }
{
    !matches!(address >> 24, 0 | 127 | 224..=u32::MAX)
}

// The attributes by their codes, where the octets have no fault.
fn take_attributes<A: Allocator + Clone>(
    alloc: &A,
    octets: &[u8],
    kind: PeerKind,
) -> Result<Attrs<A>, AllocError>
    requires { attributes_fault kind octets.now ≡ None }
    ensures found { IfOk result (λ attrs. attrs ≡ attributes_in kind octets.now) }
    ensures memory { OnErr result (IsSome (value_taken kind type.AsPath (split_of octets.now).0) ⊎ (0 < length (unknown_in (split_of octets.now).0))) }
{
    let as_path = path_of(alloc, octets, kind)?;
    let unknown = unknown_of(alloc, octets)?;
    Ok(with_numbers(octets, kind, as_path, unknown))
}

// The attributes, of which those are given that take memory.
#[tactic(auto, unfolding(crate::specs::AttributeReading::attributes_in))]
fn with_numbers<A: Allocator>(
    octets: &[u8],
    kind: PeerKind,
    as_path: Option<AsPath<A>>,
    unknown: UnknownAttributes<A>,
) -> Attrs<A>
    requires faultless { attributes_fault kind octets.now ≡ None }
    requires path { as_path ≡ option_and_then path_at (value_taken kind type.AsPath (split_of octets.now).0) }
    requires unknown { unknown ≡ unknown_in (split_of octets.now).0 }
    ensures { result ≡ attributes_in kind octets.now }
{
    let (aggregator, is_aggregator_partial) = split_aggregator(aggregator_of(octets, kind));
    Attrs {
        origin: origin_of(octets, kind),
        as_path,
        next_hop: number_of(AttributeType::NextHop, octets, kind),
        multi_exit_disc: number_of(AttributeType::MultiExitDisc, octets, kind),
        local_pref: number_of(AttributeType::LocalPref, octets, kind),
        atomic_aggregate: value_of(AttributeType::AtomicAggregate, octets, kind).is_some(),
        aggregator,
        is_aggregator_partial,
        unknown,
    }
}

// The attribute of a type, where it is taken from such a peer.
fn taken<'a>(known: AttributeType, octets: &'a [u8], kind: PeerKind) -> Option<Attribute<'a>>
    ensures found { option_map (λ found. as_came found) result ≡ taken_of kind known (split_of octets.now).0 }
    ensures short { IfSome result (λ found. length found.value.now < 2 ^ 16) }
{
    if known.is_taken(kind) {
        find_attribute(octets, known.octet())
    } else {
        None
    }
}

// Its value.
fn value_of<'a>(known: AttributeType, octets: &'a [u8], kind: PeerKind) -> Option<&'a [u8]>
    ensures value { option_map (λ value. value.now) result ≡ value_taken kind known (split_of octets.now).0 }
    ensures short { IfSome result (λ value. length value.now < 2 ^ 16) }
{
    Some(taken(known, octets, kind)?.value)
}

fn origin_of(octets: &[u8], kind: PeerKind) -> Option<Origin>
    ensures { result ≡ option_and_then origin_in (value_taken kind type.Origin (split_of octets.now).0) }
{
    match value_of(AttributeType::Origin, octets, kind)? {
        [octet] => Origin::from_octet(*octet),
        _ => None,
    }
}

fn path_of<A: Allocator + Clone>(
    alloc: &A,
    octets: &[u8],
    kind: PeerKind,
) -> Result<Option<AsPath<A>>, AllocError>
    ensures found { IfOk result (λ path. path ≡ option_and_then path_at (value_taken kind type.AsPath (split_of octets.now).0)) }
    ensures memory { OnErr result (IsSome (value_taken kind type.AsPath (split_of octets.now).0)) }
{
    match value_of(AttributeType::AsPath, octets, kind) {
        Some(value) => read_path(alloc, value),
        None => Ok(None),
    }
}

fn number_of(known: AttributeType, octets: &[u8], kind: PeerKind) -> Option<u32>
    ensures { result ≡ option_and_then number_in (value_taken kind known (split_of octets.now).0) }
{
    match value_of(known, octets, kind)? {
        [a, b, c, d] => Some(u32::from_be_bytes([*a, *b, *c, *d])),
        _ => None,
    }
}

fn aggregator_of(octets: &[u8], kind: PeerKind) -> Option<Aggregator>
    ensures { result ≡ option_and_then (λ a. reading.aggregator_in (is_partial a.flags) a.value) (taken_of kind type.Aggregator (split_of octets.now).0) }
{
    let attribute = taken(AttributeType::Aggregator, octets, kind)?;
    aggregator_in(attribute.is_partial(), attribute.value)
}

fn aggregator_in(is_partial: bool, value: &[u8]) -> Option<Aggregator>
    ensures { result ≡ reading.aggregator_in is_partial value.now }
{
    let [a, b, c, d, e, f, g, h] = value else {
        return None;
    };
    Some(Aggregator {
        asn: Asn(u32::from_be_bytes([*a, *b, *c, *d])),
        address: u32::from_be_bytes([*e, *f, *g, *h]),
        is_partial,
    })
}

// The unknown attributes that are passed on.
fn unknown_of<A: Allocator + Clone>(
    alloc: &A,
    octets: &[u8],
) -> Result<UnknownAttributes<A>, AllocError>
    ensures found { IfOk result (λ unknown. unknown ≡ unknown_in (split_of octets.now).0) }
    ensures memory { OnErr result (0 < length (unknown_in (split_of octets.now).0)) }
{
    if has_kept(octets) {
        read_unknown(alloc, octets)
    } else {
        Ok(UnknownAttributes::new())
    }
}

fn has_kept(octets: &[u8]) -> bool
    ensures { result ≡ list_any (λ a. is_kept a) (split_of octets.now).0 }
{
    let mut rest = octets;
    while let Some((attribute, behind)) = split_attribute(rest) {
        if attribute.is_kept() {
            return true;
        }
        rest = behind;
    }
    false
}

fn read_unknown<A: Allocator + Clone>(
    alloc: &A,
    octets: &[u8],
) -> Result<UnknownAttributes<A>, AllocError>
    ensures { IfOk result (λ unknown. unknown ≡ unknown_in (split_of octets.now).0) }
{
    let mut unknown = UnknownAttributes::new();
    let mut rest = octets;
    while let Some((attribute, behind)) = split_attribute(rest) {
        if attribute.is_kept() {
            unknown.keep(alloc, attribute.code, attribute.value)?;
        }
        rest = behind;
    }
    Ok(unknown)
}
