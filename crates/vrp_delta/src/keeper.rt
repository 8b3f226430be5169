//! What follows a set of payloads.
ghost use Rattle.std.specs.Prelude.{◌≡◌, ◌≢◌, List, [], OnOk, OnErr};
ghost use Rattle.net_prefix.specs.declared.payload.Vrp.{Vrp};
ghost use Rattle.net_prefix.specs.PayloadSets.{IsPayloadSet};
ghost use Rattle.vrp_delta.specs.Delta.{IsApplied};
ghost use Rattle.vrp_delta.specs.Keeping.{IsChangeOf};

use crate::delta::Delta;
use std::alloc::{AllocError, Allocator};

/// What keeps a set of payloads of its own and is told each change of the set that it follows, as an index by prefix
/// does. Seen as the payloads that it keeps, the least first.
pub trait Keeper {
    ghost kept: { Self → List Vrp };

    /// Makes the whole change, or none of it where memory is refused, which only payloads that come can need.
    fn change<A: Allocator>(&mut self, delta: &Delta<A>) -> Result<(), AllocError>
        requires { IsChangeOf (kept self.old) delta.now }
        ensures ok { OnOk result (IsApplied (kept self.old) delta.now (kept self.new)) }
        ensures rises { OnOk result (IsPayloadSet (kept self.new)) }
        ensures err { OnErr result (kept self.new ≡ kept self.old) }
        ensures needs { OnErr result (delta.now.announced ≢ []) };

    /// Forgets all payloads. It takes no memory.
    fn clear(&mut self)
        ensures { kept self.new ≡ [] };
}
