//! What changed since an older version, as all responses that tell it share it.
ghost use Rattle.std.specs.Prelude.{◌≡◌, IfOk};
ghost use Rattle.std.specs.Rc.{rc_slice_items};

use net_prefix::Vrp;
use std::alloc::{AllocError, Allocator, Global};
use std::marker::Model;
use std::rc::RcSlice;
use vrp_delta::Delta;

/// What changed from the version of a serial to the newest one. It is made when the first router asks for it, and the
/// lists are shared by all responses that tell it.
#[derive(Drop)]
pub struct SharedChange<A: Allocator = Global> {
    serial: u32,
    withdrawn: RcSlice<Vrp, A>,
    announced: RcSlice<Vrp, A>,
}

impl<A: Allocator> Model for SharedChange<A> {
    ghost use Rattle.std.specs.Rc.{rc_slice_items};
    ghost use Rattle.rtr_cache.specs.Unsaid.{ChangeSince};

    ghost Value = { ChangeSince };

    ghost view = { λ c. record { serial = c.serial; change = record { withdrawn = rc_slice_items c.withdrawn; announced = rc_slice_items c.announced } } };
}

impl<A: Allocator + Clone> SharedChange<A> {
    /// The change since the version of a serial.
    pub fn of_delta(alloc: A, serial: u32, delta: &Delta<A>) -> Result<Self, AllocError>
        ensures { IfOk result (λ change. change ≡ record { serial = serial; change = delta.now }) }
    {
        let withdrawn = delta.withdrawn.iter().copied().collect(alloc.clone()?)?;
        let announced = delta.announced.iter().copied().collect(alloc)?;
        Ok(SharedChange {
            serial,
            withdrawn,
            announced,
        })
    }
}

impl<A: Allocator> SharedChange<A> {
    /// The serial of the version since which it is.
    pub fn serial(&self) -> u32
        ensures { result ≡ self.now.serial }
    {
        self.serial
    }

    /// Another owner of the payloads that left. They aren't copied.
    pub fn share_withdrawn(&self) -> Result<RcSlice<Vrp, A>, AllocError>
        ensures { IfOk result (λ payloads. rc_slice_items payloads ≡ self.now.change.withdrawn) }
    {
        self.withdrawn.clone()
    }

    /// Another owner of those that came.
    pub fn share_announced(&self) -> Result<RcSlice<Vrp, A>, AllocError>
        ensures { IfOk result (λ payloads. rc_slice_items payloads ≡ self.now.change.announced) }
    {
        self.announced.clone()
    }
}
