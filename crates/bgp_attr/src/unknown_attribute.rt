//! An attribute that this speaker does not know.
ghost use Rattle.std.specs.Prelude.{◌≡◌, ◌≤◌, length, IfOk};

use std::alloc::{AllocError, Allocator};
use std::marker::Model;

/// So many octets of a value stand in the attribute itself: most values have no more, and take no memory of their own.
pub(crate) const SHORT_VALUE: usize = 28;

/// An attribute with a short value, which is the first of these octets, so many.
#[derive(Drop)]
pub(crate) struct ShortAttribute {
    code: u8,
    count: u8,
    octets: [u8; SHORT_VALUE],
}

impl Model for ShortAttribute {
    ghost use Rattle.std.specs.Prelude.{List, ℕ, ◌≡◌, ◌≤◌, length, take};

    ghost Value = { ℕ × List ℕ };

    ghost view = { λ a. (a.code, take a.count a.octets) };

    ghost invariant = { λ a. (a.count ≤ 28) × (length a.octets ≡ 28) };
}

impl ShortAttribute {
    pub(crate) fn new(code: u8, value: &[u8]) -> Self
        requires { length value.now ≤ 28 }
        ensures { result ≡ (code, value.now) }
    {
        let mut octets = [0; SHORT_VALUE];
        octets[..value.len()].copy_from_slice(value);
        ShortAttribute {
            code,
            count: value.len() as u8,
            octets,
        }
    }

    pub(crate) fn code(&self) -> u8
        ensures { result ≡ self.now.0 }
    {
        self.code
    }

    pub(crate) fn value(&self) -> &[u8]
        ensures { result.now ≡ self.now.1 }
    {
        &self.octets[..usize::from(self.count)]
    }
}

/// An attribute: its code and its value.
#[derive(Drop)]
pub(crate) struct Unknown<A: Allocator> {
    form: UnknownForm<A>,
}

#[derive(Drop)]
enum UnknownForm<A: Allocator> {
    Short(ShortAttribute),
    Long(u8, Vec<u8, A>),
}

impl<A: Allocator> Model for Unknown<A> {
    ghost use Rattle.std.specs.Prelude.{List, ℕ};
    ghost use Rattle.bgp_attr.specs.UnknownForms.{unknown_kept};

    ghost Value = { ℕ × List ℕ };

    ghost view = { λ a. unknown_kept a.form };
}

impl<A: Allocator> Unknown<A> {
    pub(crate) fn of(alloc: A, code: u8, value: &[u8]) -> Result<Self, AllocError>
        ensures { IfOk result (λ attribute. attribute ≡ (code, value.now)) }
    {
        if value.len() <= SHORT_VALUE {
            return Ok(Unknown::short(ShortAttribute::new(code, value)));
        }
        let value = Vec::from_slice(alloc, value)?;
        Ok(Unknown {
            form: UnknownForm::Long(code, value),
        })
    }

    pub(crate) fn short(attribute: ShortAttribute) -> Self
        ensures { result ≡ attribute }
    {
        Unknown {
            form: UnknownForm::Short(attribute),
        }
    }

    pub(crate) fn code(&self) -> u8
        ensures { result ≡ self.now.0 }
    {
        match &self.form {
            UnknownForm::Short(attribute) => attribute.code(),
            UnknownForm::Long(code, _) => *code,
        }
    }

    pub(crate) fn value(&self) -> &[u8]
        ensures { result.now ≡ self.now.1 }
    {
        match &self.form {
            UnknownForm::Short(attribute) => attribute.value(),
            UnknownForm::Long(_, value) => value.as_slice(),
        }
    }
}
