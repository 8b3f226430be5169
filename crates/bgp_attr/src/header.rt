//! Where an attribute ends (RFC 4271 section 4.3).
ghost use Rattle.std.specs.Prelude.{◌≡◌, ◌<◌, ◌^◌, length, bit_and, IfSome};
ghost use Rattle.std.specs.Option.{option_map};
ghost use Rattle.bgp_attr.specs.AttributeReading.{as_came};
ghost use Rattle.bgp_attr.specs.ReceivedAttributes.{attribute_at, found_of, split_of};
ghost use Rattle.bgp_attr.specs.ReceivedAttributes as received;
ghost use Rattle.bgp_attr.specs.UnknownAttributes as unknown;

use crate::passing::is_passed_on;

const OPTIONAL: u8 = 0x80;

const PARTIAL: u8 = 0x20;

const EXTENDED_LENGTH: u8 = 0x10;

const CLASS_FLAGS: u8 = 0xC0;

// An attribute whose end is known.
#[derive(Clone, Copy)]
pub(crate) struct Attribute<'a> {
    pub flags: u8,
    pub code: u8,
    pub value: &'a [u8],
    // Flags, code, length and value.
    pub whole: &'a [u8],
}

impl Attribute<'_> {
    // The optional and the transitive bit.
    pub(crate) fn class_flags(self) -> u8
        ensures { result ≡ bit_and self.entry.flags 192 }
    {
        self.flags & CLASS_FLAGS
    }

    // Whether a speaker may not know the attribute.
    pub(crate) fn is_optional(self) -> bool
        ensures { result ≡ received.is_optional self.entry.flags }
    {
        self.flags & OPTIONAL != 0
    }

    // Whether some speaker passed the attribute on that didn't know it.
    pub(crate) fn is_partial(self) -> bool
        ensures { result ≡ received.is_partial self.entry.flags }
    {
        self.flags & PARTIAL != 0
    }

    // Whether the attribute is one that this speaker doesn't know and passes on.
    pub(crate) fn is_kept(self) -> bool
        ensures { result ≡ unknown.is_kept (as_came self.entry) }
    {
        is_passed_on(self.code, self.value) && self.class_flags() == CLASS_FLAGS
    }
}

// The attribute at the front, and the octets behind it; none where it is cut off.
#[tactic(auto, unfolding(crate::specs::ReceivedAttributes::attribute_at))]
pub(crate) fn split_attribute<'a>(octets: &'a [u8]) -> Option<(Attribute<'a>, &'a [u8])>
    ensures found { option_map (λ found. (as_came found.0, found.1.now)) result ≡ attribute_at octets.now }
    ensures shorter { IfSome result (λ found. length found.1.now < length octets.now) }
    ensures short { IfSome result (λ found. length found.0.value.now < 2 ^ 16) }
    ensures code { IfSome result (λ found. found.0.code < 256) }
{
    let [flags, code, more @ ..] = octets else {
        return None;
    };
    let (length, more) = length_at(*flags & EXTENDED_LENGTH != 0, more)?;
    let (value, rest) = more.split_at_checked(usize::from(length))?;
    let (whole, _) = octets.split_at(octets.len() - rest.len());
    let attribute = Attribute {
        flags: *flags,
        code: *code,
        value,
        whole,
    };
    Some((attribute, rest))
}

// The length that stands at the front, and the octets behind it.
fn length_at<'a>(extended: bool, octets: &'a [u8]) -> Option<(u16, &'a [u8])>
    ensures told { option_map (λ told. (told.0, told.1.now)) result ≡ received.length_at extended octets.now }
    ensures shorter { IfSome result (λ told. length told.1.now < length octets.now) }
{
    if extended {
        let [high, low, rest @ ..] = octets else {
            return None;
        };
        Some((u16::from_be_bytes([*high, *low]), rest))
    } else {
        let [length, rest @ ..] = octets else {
            return None;
        };
        Some((u16::from(*length), rest))
    }
}

// The attribute that has this code.
pub(crate) fn find_attribute<'a>(octets: &'a [u8], code: u8) -> Option<Attribute<'a>>
    ensures found { option_map (λ found. as_came found) result ≡ found_of code (split_of octets.now).0 }
    ensures short { IfSome result (λ found. length found.value.now < 2 ^ 16) }
{
    let mut rest = octets;
    while let Some((attribute, behind)) = split_attribute(rest) {
        if attribute.code == code {
            return Some(attribute);
        }
        rest = behind;
    }
    None
}
