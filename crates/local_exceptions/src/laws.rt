//! What exceptions make of a set is one thing, and changes of the set become changes of it.
ghost use Rattle.std.specs.Prelude.{◌≡◌, List};
ghost use Rattle.net_prefix.specs.declared.payload.Vrp.{Vrp};
ghost use Rattle.net_prefix.specs.PayloadSets.{IsPayloadSet};
ghost use Rattle.vrp_delta.specs.Delta.{Change, IsApplied};
ghost use Rattle.vrp_delta.specs.Keeping.{IsChangeOf};
ghost use Rattle.local_exceptions.specs.ExceptionSets.{ExceptionSets, IsUnder, behind, no_exceptions, under};

/// Exceptions make one set of a set.
pub fn exceptions_mean_one_set()
    ensures { (e : ExceptionSets) (set a b : List Vrp) → IsPayloadSet a → IsPayloadSet b → IsUnder e set a → IsUnder e set b → a ≡ b }
{}

/// The set that exceptions make of a set, as a set; no exceptions leave it as it is.
pub fn exceptions_make_a_set()
    ensures is { (e : ExceptionSets) (set : List Vrp) → IsUnder e set (under e set) }
    ensures set { (e : ExceptionSets) (set : List Vrp) → IsPayloadSet set → IsPayloadSet (under e set) }
    ensures none { (set : List Vrp) → under no_exceptions set ≡ set }
{}

/// A change of a set, behind the exceptions, is a change of what they make of the set, and leads to what they make of the
/// changed set.
pub fn changes_pass_exceptions()
    ensures fits { (e : ExceptionSets) (set before : List Vrp) (change : Change) → IsChangeOf set change → IsUnder e set before → IsChangeOf before (behind e change) }
    ensures applied { (e : ExceptionSets) (set changed before after : List Vrp) (change : Change) → IsApplied set change changed → IsUnder e set before → IsUnder e changed after → IsApplied before (behind e change) after }
{}
