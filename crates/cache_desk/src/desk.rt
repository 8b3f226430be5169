//! Where operators ask.
ghost use Rattle.std.specs.Prelude.{◌≡◌, IfOk, None, Some, false};
ghost use Rattle.cache_desk.specs.Desks.{AtDesk, Attends, StopsAt, TellsIf, Visits, nothing_asked, stopped_at};

use crate::clerk::Clerk;
use crate::reading::Reading;
use crate::tables::Scene;
use cache_watch::Reread;
use control_lines::Operators;
use std::alloc::{AllocError, Global};
use std::marker::Model;
use wires::Wire;

/// A desk at which operators ask, or at which nobody does.
#[derive(Drop)]
pub struct Desk<P> {
    clerk: Option<Clerk<P>>,
}

/// What there is of operators; nothing at a desk at which nobody asks.
impl<P> Model for Desk<P> {
    ghost use Rattle.std.specs.Prelude.{Option, option_map};
    ghost use Rattle.cache_desk.specs.Clerks.{state_of};
    ghost use Rattle.cache_desk.specs.Desks.{DeskState};

    ghost Value = { Option (DeskState P) };

    ghost view = { λ desk. option_map state_of desk.clerk };
}

impl<P: Operators + Drop> Desk<P> {
    /// Nobody asks.
    pub fn closed() -> Desk<P>
        ensures { result ≡ None }
    {
        Desk { clerk: None }
    }

    /// These operators ask, and haven't yet.
    pub fn open(alloc: Global, operators: P) -> Result<Desk<P>, AllocError>
        ensures { IfOk result (λ desk. desk ≡ Some (nothing_asked operators)) }
    {
        let clerk = Clerk::new(alloc, operators)?;
        Ok(Desk { clerk: Some(clerk) })
    }

    /// Lets in an operator who has come, and visits each. Answers whether one waits for something.
    pub fn visit(&mut self, now: u64) -> bool
        ensures visits { AtDesk (Visits P.turns P.wish now result) self.old self.new }
        ensures nobody { self.old ≡ None → result ≡ false }
    {
        match &mut self.clerk {
            Some(clerk) => clerk.visit(now),
            None => false,
        }
    }

    /// Answers each operator that waits for something by what is there to see, and answers which reading of the list one asks
    /// for, which is told what it leads to.
    pub fn attend<W: Wire + Drop>(&mut self, scene: &Scene<'_, W>) -> Option<Reading>
        ensures attends { AtDesk (Attends P.wish P.line P.hears scene.entry.now.now result) self.old self.new }
        ensures nobody { self.old ≡ None → result ≡ None }
    {
        match &mut self.clerk {
            Some(clerk) => clerk.attend(scene),
            None => None,
        }
    }

    /// What reading the list has led to, where it was read, and how many payloads are served behind it.
    pub fn tell(&mut self, led: Option<Reread>, payloads: usize)
        ensures { AtDesk (TellsIf P.hears led) self.old self.new }
    {
        if let Some(led) = led
            && let Some(clerk) = &mut self.clerk
        {
            clerk.tell(led, payloads);
        }
    }

    /// Whether octets of operators came or went, or something was said, since the last visit.
    pub fn is_busy(&self) -> bool {
        match &self.clerk {
            Some(clerk) => clerk.is_busy(),
            None => false,
        }
    }

    /// Whether an operator has stopped the program: none moves anything any more, or 5 seconds have passed.
    pub fn has_stopped(&self, now: u64) -> bool
        ensures { StopsAt (stopped_at self.now) now result }
    {
        match &self.clerk {
            Some(clerk) => clerk.has_stopped(now),
            None => false,
        }
    }
}
