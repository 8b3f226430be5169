//! Attributes that this speaker does not know and passes on (RFC 4271 section 5).
ghost use Rattle.std.specs.Prelude.{◌≡◌, [], true, ◌≤◌, length, OnOk, OnErr, IfOk};
ghost use Rattle.std.specs.BTreeMap.{insert_entry};
ghost use Rattle.std.specs.List.{insert};
ghost use Rattle.std.specs.Iterator.{YieldsFirstBy, item_count};
ghost use Rattle.std.specs.Ordering.{nat_cmp};
ghost use Rattle.bgp_attr.specs.AttributeTable.{is_passed_on};
ghost use Rattle.bgp_attr.specs.KeptUnknown.{list_kept};
ghost use Rattle.bgp_attr.specs.UnknownAttributes.{ArePassedOn, has_code, place_of, unknown_or_none};
ghost use Rattle.std.specs.Option.{option_copied};

use crate::unknown_attribute::{SHORT_VALUE, ShortAttribute, Unknown};
use std::alloc::{AllocError, Allocator, Global};
use std::cmp::Ordering;
use std::marker::Model;
use std::mem;

/// The unknown attributes of a route that are passed on, in rising order of their codes. There are few, mostly one.
#[derive(Drop)]
pub struct UnknownAttributes<A: Allocator = Global> {
    pub(crate) attributes: UnknownList<A>,
}

// One alone with a short value takes no block.
#[derive(Drop)]
pub(crate) enum UnknownList<A: Allocator> {
    Nothing,
    Short(ShortAttribute),
    Several(Vec<Unknown<A>, A>),
}

impl<A: Allocator> Model for UnknownAttributes<A> {
    ghost use Rattle.bgp_attr.specs.KeptUnknown.{list_kept};
    ghost use Rattle.bgp_attr.specs.UnknownAttributes.{ArePassedOn, Unknown};

    ghost Value = { Unknown };

    ghost view = { λ u. list_kept u.attributes };

    ghost invariant = { λ u. ArePassedOn (list_kept u.attributes) };
}

impl<A: Allocator + Clone> UnknownAttributes<A> {
    // Keeps the value of an attribute with this code.
    pub(crate) fn keep(&mut self, alloc: &A, code: u8, value: &[u8]) -> Result<(), AllocError>
        requires passed_on { is_passed_on code value.now ≡ true }
        requires short { length value.now ≤ 65535 }
        ensures { OnOk result (self.new ≡ insert_entry nat_cmp self.old code value.now) }
    {
        put_in_list(alloc, &mut self.attributes, code, value)
    }
}

// Puts an attribute in its place, where one with its code may stand.
fn put_in_list<A: Allocator + Clone>(
    alloc: &A,
    list: &mut UnknownList<A>,
    code: u8,
    value: &[u8],
) -> Result<(), AllocError>
    ensures kept { OnOk result (list_kept list.new ≡ insert_entry nat_cmp (list_kept list.old) code value.now) }
    ensures refused { OnErr result (list_kept list.new ≡ list_kept list.old) }
{
    if value.len() <= SHORT_VALUE && list.is_nothing() {
        *list = UnknownList::Short(ShortAttribute::new(code, value));
        return Ok(());
    }
    let attribute = Unknown::of(alloc.clone()?, code, value)?;
    match list {
        UnknownList::Several(attributes) => put(attributes, attribute),
        _ => put_beside(alloc, list, attribute),
    }
}

fn put_beside<A: Allocator + Clone>(
    alloc: &A,
    list: &mut UnknownList<A>,
    attribute: Unknown<A>,
) -> Result<(), AllocError>
    ensures kept { OnOk result (list_kept list.new ≡ insert_entry nat_cmp (list_kept list.old) attribute.0 attribute.1) }
    ensures refused { OnErr result (list_kept list.new ≡ list_kept list.old) }
{
    let mut several = take_several(alloc, list)?;
    let kept = put(&mut several, attribute);
    *list = UnknownList::Several(several);
    kept
}

impl<A: Allocator> UnknownList<A> {
    fn is_nothing(&self) -> bool
        ensures { result ≡ true → list_kept self.now ≡ [] }
    {
        match self {
            UnknownList::Nothing => true,
            _ => false,
        }
    }
}

// Takes the attributes out of the list, with room for two.
fn take_several<A: Allocator + Clone>(
    alloc: &A,
    list: &mut UnknownList<A>,
) -> Result<Vec<Unknown<A>, A>, AllocError>
    ensures taken { IfOk result (λ several. several.items ≡ list_kept list.old) }
    ensures refused { OnErr result (list_kept list.new ≡ list_kept list.old) }
{
    let mut room = Vec::new(alloc.clone()?);
    room.reserve_exact(2)?;
    match mem::replace(list, UnknownList::Nothing) {
        UnknownList::Nothing => Ok(room),
        UnknownList::Short(first) => {
            room.push_reserved(Unknown::short(first));
            Ok(room)
        }
        UnknownList::Several(several) => Ok(several),
    }
}

// Puts the attribute in its place, where one with its code may stand.
fn put<A: Allocator>(
    attributes: &mut Vec<Unknown<A>, A>,
    attribute: Unknown<A>,
) -> Result<(), AllocError>
    ensures kept { OnOk result (attributes.new.items ≡ insert_entry nat_cmp attributes.old.items attribute.0 attribute.1) }
    ensures refused { OnErr result (attributes.new.items ≡ attributes.old.items) }
{
    let code = attribute.code();
    let place = place_of(attributes, code);
    if has_code(attributes, place, code) {
        attributes[place] = attribute;
        return Ok(());
    }
    put_between(attributes, place, attribute)
}

// Puts the attribute behind so many of the others.
fn put_between<A: Allocator>(
    attributes: &mut Vec<Unknown<A>, A>,
    place: usize,
    attribute: Unknown<A>,
) -> Result<(), AllocError>
    requires { place ≤ length attributes.old.items }
    ensures put { OnOk result (attributes.new.items ≡ insert attributes.old.items place attribute) }
    ensures refused { OnErr result (attributes.new.items ≡ attributes.old.items) }
{
    attributes.reserve_exact(1)?;
    let Ok(()) = attributes.insert(place, attribute) else {
        return Err(AllocError);
    };
    Ok(())
}

// How many of them, from the first on, have a code below this one.
fn place_of<A: Allocator>(attributes: &[Unknown<A>], code: u8) -> usize
    ensures place { result ≡ place_of code attributes.now }
    ensures within { result ≤ length attributes.now }
{
    let mut place = 0;
    let mut rest = attributes;
    while let [attribute, behind @ ..] = rest {
        match code.cmp(&attribute.code()) {
            Ordering::Greater => place += 1,
            _ => return place,
        }
        rest = behind;
    }
    place
}

// Whether that at a place has this code.
fn has_code<A: Allocator>(attributes: &[Unknown<A>], place: usize, code: u8) -> bool
    ensures { result ≡ has_code attributes.now place code }
{
    match attributes.get(place) {
        Some(attribute) => code.cmp(&attribute.code()).is_eq(),
        None => false,
    }
}

impl<A: Allocator> UnknownAttributes<A> {
    pub(crate) fn new() -> Self
        ensures { result ≡ [] }
    {
        UnknownAttributes {
            attributes: UnknownList::Nothing,
        }
    }

    // The same where there are any, with what holds of all such values.
    pub(crate) fn some(&self) -> Option<&Self>
        ensures value { unknown_or_none (option_copied result) ≡ self.now }
        ensures lawful { ArePassedOn self.now }
    {
        match &self.attributes {
            UnknownList::Nothing => None,
            _ => Some(self),
        }
    }

    /// The codes with their values, in rising order of the codes.
    pub fn iter(&self) -> UnknownValues<'_, A>
        ensures { result ≡ self.now }
    {
        match &self.attributes {
            UnknownList::Nothing => UnknownValues {
                first: None,
                rest: &[],
            },
            UnknownList::Short(attribute) => UnknownValues {
                first: Some(attribute),
                rest: &[],
            },
            UnknownList::Several(attributes) => UnknownValues {
                first: None,
                rest: attributes.as_slice(),
            },
        }
    }
}

/// Codes with their values, in rising order of the codes. It is seen as those still to come.
#[derive(Drop)]
pub struct UnknownValues<'a, A: Allocator = Global> {
    // That which stands alone, or in front of the rest.
    first: Option<&'a ShortAttribute>,
    rest: &'a [Unknown<A>],
}

impl<'a, A: Allocator> Model for UnknownValues<'a, A> {
    ghost use Rattle.std.specs.Option.{option_copied};
    ghost use Rattle.bgp_attr.specs.KeptUnknown.{still_to_come};
    ghost use Rattle.bgp_attr.specs.UnknownAttributes.{Unknown};

    ghost Value = { Unknown };

    ghost view = { λ v. still_to_come (option_copied v.first) v.rest.now };
}

impl<'a, A: Allocator> Iterator for UnknownValues<'a, A> {
    type Item = (u8, &'a [u8]);

    ghost next_gives = { YieldsFirstBy (λ item. (item.0, item.1.now)) (λ rest. rest) };

    ghost remaining = { item_count (λ rest. rest) };

    fn next(&mut self) -> Option<(u8, &'a [u8])> {
        if let Some(first) = self.first {
            self.first = None;
            return Some((first.code(), first.value()));
        }
        let [attribute, behind @ ..] = self.rest else {
            return None;
        };
        self.rest = behind;
        Some((attribute.code(), attribute.value()))
    }
}
