//! The attributes that peers were sent.
ghost use Rattle.std.specs.Prelude.{◌≡◌, ◌≤◌, ◌↔◌, Some, IfOk, IsSome, IsTrue, length};
ghost use Rattle.export_rules.specs.Export.{most_attributes};
ghost use Rattle.export_rules.specs.Rewriting.{written};

use crate::same::are_same;
use arrayvec::ArrayVec;
use bgp_attr::Attrs;
use export_rules::Rewrite;
use std::alloc::{AllocError, Allocator, Global};
use std::marker::Model;
use std::rc::Rc;

/// The attributes of a route as a peer was sent them: those that it came with, shared with the route, and how they were
/// changed on the way.
#[derive(Drop)]
pub struct SentAttributes<A: Allocator = Global> {
    attrs: Rc<Attrs<A>, A>,
    rewrite: Rc<Rewrite, A>,
}

impl<A: Allocator> Model for SentAttributes<A> {
    ghost use Rattle.std.specs.Prelude.{List, ℕ, ◌≡◌, IsSome};
    ghost use Rattle.bgp_attr.specs.AttributeSpelling.{attributes_spelling};
    ghost use Rattle.export_rules.specs.Rewriting.{rewritten, written};

    ghost Value = { List ℕ };

    ghost view = { λ s. attributes_spelling (rewritten s.rewrite.value s.attrs.value) };

    ghost invariant = { λ s. IsSome (written s.rewrite.value s.attrs.value) };
}

impl<A: Allocator> SentAttributes<A> {
    /// Writes their octets in place of what `out` had.
    pub fn write(&self, out: &mut ArrayVec<u8, 4096>)
        ensures octets { out.new.items ≡ self.now }
        ensures small { length self.now ≤ most_attributes }
    {
        self.rewrite.write(&self.attrs, out);
    }

    /// Whether these are their octets.
    pub fn are(&self, octets: &[u8]) -> bool
        ensures { IsTrue result ↔ (self.now ≡ octets.now) }
    {
        let mut sent = ArrayVec::<u8, 4096>::new();
        self.write(&mut sent);
        sent.as_slice() == octets
    }

    /// Whether both have the same octets.
    pub fn is_equal(&self, other: &SentAttributes<A>) -> bool
        ensures { IsTrue result ↔ (self.now ≡ other.now) }
    {
        let mut octets = ArrayVec::<u8, 4096>::new();
        other.write(&mut octets);
        self.are(octets.as_slice())
    }

    /// Whether both came with the same attributes and were changed alike. Others may have the same octets all the same.
    pub fn is_same(&self, other: &SentAttributes<A>) -> bool
        ensures { IsTrue result → self.now ≡ other.now }
    {
        *self.rewrite == *other.rewrite && are_same(&self.attrs, &other.attrs)
    }

    /// The same attributes for one more prefix. No memory is taken.
    pub fn share(&self) -> Result<Self, AllocError>
        ensures { IfOk result (λ other. other ≡ self.now) }
    {
        Ok(SentAttributes {
            attrs: self.attrs.clone()?,
            rewrite: self.rewrite.clone()?,
        })
    }
}

/// How attributes were changed last, so that the next that are changed alike share it.
#[derive(Drop)]
pub struct RecentRewrite<A: Allocator = Global> {
    alloc: A,
    last: Option<Rc<Rewrite, A>>,
}

impl<A: Allocator> Model for RecentRewrite<A> {
    ghost use Rattle.std.specs.Prelude.{⊤};

    ghost Value = { ⊤ };

    ghost view = { λ _. tt };
}

impl<A: Allocator + Clone> RecentRewrite<A> {
    /// Nothing was changed yet.
    pub fn new(alloc: A) -> Self {
        RecentRewrite { alloc, last: None }
    }

    /// These attributes as a peer is sent them, so changed. Memory is taken only where those before were changed otherwise.
    pub fn sent(
        &mut self,
        attrs: &Rc<Attrs<A>, A>,
        rewrite: Rewrite,
    ) -> Result<SentAttributes<A>, AllocError>
        requires { IsSome (written rewrite attrs.now.value) }
        ensures { IfOk result (λ sent. written rewrite attrs.now.value ≡ Some sent) }
    {
        Ok(SentAttributes {
            attrs: attrs.clone()?,
            rewrite: self.shared(rewrite)?,
        })
    }

    // The change, shared with those before where it was the same.
    fn shared(&mut self, rewrite: Rewrite) -> Result<Rc<Rewrite, A>, AllocError>
        ensures { IfOk result (λ shared. shared.value ≡ rewrite) }
    {
        if let Some(last) = &self.last
            && **last == rewrite
        {
            return last.clone();
        }
        let shared = Rc::new(self.alloc.clone()?, rewrite)?;
        self.last = Some(shared.clone()?);
        Ok(shared)
    }
}
