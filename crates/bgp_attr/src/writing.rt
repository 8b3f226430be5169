//! Writing attributes (RFC 4271 section 4.3), in rising order of their codes.
ghost use Rattle.std.specs.Prelude.{◌≡◌, ◌≤◌, ◌<◌, ◌+◌, ◌++◌, true, false, if◌then◌else◌, length, [], ⊤};
ghost use Rattle.std.specs.List.{flat_map};
ghost use Rattle.std.specs.Option.{option_copied, option_map};
ghost use Rattle.bgp_attr.specs.Appending.{Appends};
ghost use Rattle.bgp_attr.specs.AttributeSpelling.{aggregator_spelling, attribute_spelling, attributes_spelling, header_spelling, mark_spelling, number_spelling, optional_spelling, origin_spelling, partial_flag, path_spelling, type_spelling, unknown_in_part, unknown_spelling};
ghost use Rattle.bgp_attr.specs.AttributeSpelling as spelling;
ghost use Rattle.bgp_attr.specs.AttributeTable.{octet_of, types, written_flags_of};
ghost use Rattle.bgp_attr.specs.UnknownAttributes.{unknown_or_none};
ghost use Rattle.bgp_attr.specs.Written.{attributes_of, path_of, segments_of};
ghost use Rattle.bgp_attr.specs.declared.attribute_type.AttributeType.TheVariants as type;

use crate::aggregator::Aggregator;
use crate::attribute_type::{AttributeType, TYPES};
use crate::attrs::Origin;
use crate::path_writing::write_path;
use crate::prepending::PrependedPath;
use crate::unknown::{UnknownAttributes, UnknownList};
use crate::unknown_attribute::Unknown;
use arrayvec::ArrayVec;
use std::alloc::{AllocError, Allocator, Global};

const PARTIAL: u8 = 0x20;

const EXTENDED_LENGTH: u8 = 0x10;

// Optional, transitive, partial.
const UNKNOWN: u8 = 0xE0;

/// The attributes of an UPDATE that is to be written.
pub struct AttrsToWrite<'a, A: Allocator = Global> {
    pub origin: Option<Origin>,
    pub as_path: Option<PrependedPath<'a, A>>,
    pub next_hop: Option<u32>,
    pub multi_exit_disc: Option<u32>,
    pub local_pref: Option<u32>,
    pub atomic_aggregate: bool,
    pub aggregator: Option<Aggregator>,
    pub unknown: Option<&'a UnknownAttributes<A>>,
}

impl<A: Allocator> Clone for AttrsToWrite<'_, A> {
    ghost is_clone = { λ x y. y ≡ x };

    ghost is_infallible = { λ _. ⊤ };

    fn clone(&self) -> Result<Self, AllocError> {
        Ok(*self)
    }
}

impl<A: Allocator> Copy for AttrsToWrite<'_, A> {}

/// Writes the attributes in place of what `out` had. Answers false, and leaves `out` empty, where they take more than
/// 4,096 octets.
pub fn write_attrs<A: Allocator>(attrs: &AttrsToWrite<'_, A>, out: &mut ArrayVec<u8, 4096>) -> bool
    ensures written { result ≡ true → out.new.items ≡ attributes_spelling (attributes_of attrs.now) }
    ensures long { result ≡ false → (4096 < length (attributes_spelling (attributes_of attrs.now))) × (out.new.items ≡ []) }
{
    out.clear();
    if append_attrs(attrs, out) {
        return true;
    }
    out.clear();
    false
}

// An unknown attribute of code 0 comes first.
fn append_attrs<A: Allocator>(attrs: &AttrsToWrite<'_, A>, out: &mut ArrayVec<u8, 4096>) -> bool
    ensures { Appends result out.old.items out.new.items (attributes_spelling (attributes_of attrs.now)) }
{
    append_unknown(attrs.unknown, true, out) && append_behind(attrs, out)
}

fn append_behind<A: Allocator>(attrs: &AttrsToWrite<'_, A>, out: &mut ArrayVec<u8, 4096>) -> bool
    ensures { Appends result out.old.items out.new.items (flat_map (type_spelling (attributes_of attrs.now)) types ++ unknown_spelling false (unknown_or_none (option_copied attrs.now.unknown))) }
{
    append_types(attrs, out) && append_unknown(attrs.unknown, false, out)
}

// The attributes of each type.
fn append_types<A: Allocator>(attrs: &AttrsToWrite<'_, A>, out: &mut ArrayVec<u8, 4096>) -> bool
    ensures { Appends result out.old.items out.new.items (flat_map (type_spelling (attributes_of attrs.now)) types) }
{
    for known in TYPES {
        if !append_type(attrs, known, out) {
            return false;
        }
    }
    true
}

fn append_type<A: Allocator>(
    attrs: &AttrsToWrite<'_, A>,
    known: AttributeType,
    out: &mut ArrayVec<u8, 4096>,
) -> bool
    ensures { Appends result out.old.items out.new.items (type_spelling (attributes_of attrs.now) known) }
{
    match known {
        AttributeType::Origin => append_origin(attrs.origin, out),
        AttributeType::AsPath => append_as_path(&attrs.as_path, out),
        AttributeType::NextHop => append_number(known, attrs.next_hop, out),
        AttributeType::MultiExitDisc => append_number(known, attrs.multi_exit_disc, out),
        AttributeType::LocalPref => append_number(known, attrs.local_pref, out),
        AttributeType::AtomicAggregate => append_mark(known, attrs.atomic_aggregate, out),
        AttributeType::Aggregator => append_aggregator(attrs.aggregator, out),
    }
}

fn append_origin(origin: Option<Origin>, out: &mut ArrayVec<u8, 4096>) -> bool
    ensures { Appends result out.old.items out.new.items (optional_spelling (written_flags_of type.Origin) (octet_of type.Origin) (option_map origin_spelling origin)) }
{
    match origin {
        Some(origin) => append_known(AttributeType::Origin, &[origin.octet()], out),
        None => true,
    }
}

fn append_as_path<A: Allocator>(
    path: &Option<PrependedPath<'_, A>>,
    out: &mut ArrayVec<u8, 4096>,
) -> bool
    ensures { Appends result out.old.items out.new.items (optional_spelling (written_flags_of type.AsPath) (octet_of type.AsPath) (option_map path_spelling (path_of path.now))) }
{
    match path {
        Some(path) => append_path(path, out),
        None => true,
    }
}

fn append_path<A: Allocator>(path: &PrependedPath<'_, A>, out: &mut ArrayVec<u8, 4096>) -> bool
    ensures { Appends result out.old.items out.new.items (attribute_spelling (written_flags_of type.AsPath) (octet_of type.AsPath) (path_spelling (segments_of path.now))) }
{
    let length = path.octets();
    if length > 4096 {
        return false;
    }
    append_known_header(AttributeType::AsPath, length as u16, out) && write_path(path, out)
}

fn append_number(known: AttributeType, number: Option<u32>, out: &mut ArrayVec<u8, 4096>) -> bool
    ensures { Appends result out.old.items out.new.items (optional_spelling (written_flags_of known) (octet_of known) (option_map number_spelling number)) }
{
    match number {
        Some(number) => append_known(known, &number.to_be_bytes(), out),
        None => true,
    }
}

fn append_mark(known: AttributeType, is_set: bool, out: &mut ArrayVec<u8, 4096>) -> bool
    ensures { Appends result out.old.items out.new.items (optional_spelling (written_flags_of known) (octet_of known) (mark_spelling is_set)) }
{
    !is_set || append_known(known, &[], out)
}

fn append_aggregator(aggregator: Option<Aggregator>, out: &mut ArrayVec<u8, 4096>) -> bool
    ensures { Appends result out.old.items out.new.items (optional_spelling (written_flags_of type.Aggregator + partial_flag aggregator) (octet_of type.Aggregator) (option_map aggregator_spelling aggregator)) }
{
    let known = AttributeType::Aggregator;
    match aggregator {
        Some(aggregator) => {
            let flags = known.written_flags() + partial(aggregator);
            append_short(flags, known.octet(), &value_octets(aggregator), out)
        }
        None => true,
    }
}

fn value_octets(aggregator: Aggregator) -> [u8; 8]
    ensures { result ≡ aggregator_spelling aggregator }
{
    let [a, b, c, d] = aggregator.asn.0.to_be_bytes();
    let [e, f, g, h] = aggregator.address.to_be_bytes();
    [a, b, c, d, e, f, g, h]
}

// The partial bit, as it came.
fn partial(aggregator: Aggregator) -> u8
    ensures { result ≡ (if aggregator.is_partial then 32 else 0) }
{
    if aggregator.is_partial { PARTIAL } else { 0 }
}

// An attribute of a type with this value.
fn append_known(known: AttributeType, value: &[u8], out: &mut ArrayVec<u8, 4096>) -> bool
    requires { length value.now ≤ 255 }
    ensures { Appends result out.old.items out.new.items (attribute_spelling (written_flags_of known) (octet_of known) value.now) }
{
    append_short(known.written_flags(), known.octet(), value, out)
}

// The unknown attributes in front of the known ones, or those behind them.
fn append_unknown<A: Allocator>(
    unknown: Option<&UnknownAttributes<A>>,
    first: bool,
    out: &mut ArrayVec<u8, 4096>,
) -> bool
    ensures { Appends result out.old.items out.new.items (unknown_spelling first (unknown_or_none (option_copied unknown.entry))) }
{
    match unknown {
        Some(unknown) => append_part(unknown, first, out),
        None => true,
    }
}

fn append_part<A: Allocator>(
    unknown: &UnknownAttributes<A>,
    first: bool,
    out: &mut ArrayVec<u8, 4096>,
) -> bool
    ensures { Appends result out.old.items out.new.items (unknown_spelling first unknown.now) }
{
    match &unknown.attributes {
        UnknownList::Nothing => true,
        UnknownList::Short(alone) => append_in_part(first, alone.code(), alone.value(), out),
        UnknownList::Several(several) => append_list(several.as_slice(), first, out),
    }
}

fn append_list<A: Allocator>(
    attributes: &[Unknown<A>],
    first: bool,
    out: &mut ArrayVec<u8, 4096>,
) -> bool
    ensures { Appends result out.old.items out.new.items (unknown_spelling first attributes.now) }
{
    let mut rest = attributes;
    while let [attribute, behind @ ..] = rest {
        if !append_in_part(first, attribute.code(), attribute.value(), out) {
            return false;
        }
        rest = behind;
    }
    true
}

fn append_in_part(first: bool, code: u8, value: &[u8], out: &mut ArrayVec<u8, 4096>) -> bool
    ensures { Appends result out.old.items out.new.items (unknown_in_part first (code, value.now)) }
{
    !is_in_part(first, code) || append_long(UNKNOWN, code, value, out)
}

fn is_in_part(first: bool, code: u8) -> bool
    ensures { result ≡ spelling.is_in_part first code }
{
    if first { code == 0 } else { code != 0 }
}

// An attribute with this value, which may be longer than a message.
fn append_long(flags: u8, code: u8, value: &[u8], out: &mut ArrayVec<u8, 4096>) -> bool
    requires { flags + 16 < 256 }
    ensures { Appends result out.old.items out.new.items (attribute_spelling flags code value.now) }
{
    if value.len() > 4096 {
        return false;
    }
    append_short(flags, code, value, out)
}

// An attribute with this value.
fn append_short(flags: u8, code: u8, value: &[u8], out: &mut ArrayVec<u8, 4096>) -> bool
    requires few { length value.now ≤ 4096 }
    requires room { flags + 16 < 256 }
    ensures { Appends result out.old.items out.new.items (attribute_spelling flags code value.now) }
{
    append_header(flags, code, value.len() as u16, out) && put(out, value)
}

// Flags, code and length of an attribute of a type.
fn append_known_header(known: AttributeType, length: u16, out: &mut ArrayVec<u8, 4096>) -> bool
    ensures { Appends result out.old.items out.new.items (header_spelling (written_flags_of known) (octet_of known) length) }
{
    append_header(known.written_flags(), known.octet(), length, out)
}

// Flags, code and length of an attribute.
fn append_header(flags: u8, code: u8, length: u16, out: &mut ArrayVec<u8, 4096>) -> bool
    requires { flags + 16 < 256 }
    ensures { Appends result out.old.items out.new.items (header_spelling flags code length) }
{
    if length > 255 {
        let [high, low] = length.to_be_bytes();
        put(out, &[flags + EXTENDED_LENGTH, code, high, low])
    } else {
        put(out, &[flags, code, length as u8])
    }
}

// Appends the octets, or nothing where they have no room.
pub(crate) fn put(out: &mut ArrayVec<u8, 4096>, octets: &[u8]) -> bool
    ensures { Appends result out.old.items out.new.items octets.now }
{
    out.try_extend_from_slice(octets).is_ok()
}
