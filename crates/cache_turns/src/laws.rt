//! What follows of turns.
ghost use Rattle.std.specs.Prelude.{◌≡◌, ◌<◌, ◌-◌, ◌^◌, ◌++◌, ℕ, List, Option, Result, Some};
ghost use Rattle.std.specs.declared.net.socket_addr.SocketAddr.{SocketAddr};
ghost use Rattle.rtr_cache.specs.CacheState.{CacheState, empty_cache};
ghost use Rattle.rtr_cache.specs.declared.other_session.OtherSession.{OtherSession};
ghost use Rattle.rtr_codec.specs.declared.intervals.Intervals.{Intervals};
ghost use Rattle.rtr_cache.specs.ClientHistory.{IsRun, Turn};
ghost use Rattle.cache_turns.specs.Turns.{Step, TakesSteps, TakesTurn, TakesTurns, Turns, idle, link_at};
ghost use Rattle.cache_turns.specs.Carrying.{CarriesWhole};
ghost use Rattle.cache_turns.specs.Serving.{Connection};
ghost use Rattle.cache_turns.specs.declared.patience.Patience.{Patience};
ghost use Rattle.wires.specs.Counts.{LosesNoMore};
ghost use Rattle.wires.specs.Wires.{nothing_told};
ghost use Rattle.wires.specs.declared.fault.LoopFault.{LoopFault};

/// A turn loses no more clients than the wire told faults and ends of input and the loop closed connections of clients
/// that the cache had closed, while no count is at the greatest u64.
pub fn no_more_are_lost_than_are_counted()
    ensures { (now : ℕ) (old new : Turns) (result : Result (Unit {0}) LoopFault) → TakesTurn now old result new → LosesNoMore old.counts new.counts }
{}

/// Whatever turns are taken and sets are loaded or withdrawn, the cache is as calls of it leave it, behind those that led to it
/// before.
pub fn turns_are_calls_of_the_cache()
    ensures { (steps : List Step) (start : CacheState) (before : List Turn) (old new : Turns) → IsRun start before old.cache → TakesSteps steps old new → (after : List Turn) × IsRun start (after ++ before) new.cache }
{}

/// Whatever turns are taken, the versions that the cache keeps stay, and they are withdrawn or not as before: only a set
/// that is loaded publishes one.
pub fn turns_publish_nothing()
    ensures kept { (moments : List ℕ) (old new : Turns) → TakesTurns moments old new → new.cache.shared.kept ≡ old.cache.shared.kept }
    ensures withdrawn { (moments : List ℕ) (old new : Turns) → TakesTurns moments old new → new.cache.shared.withdrawn ≡ old.cache.shared.withdrawn }
{}

/// Over any turns of a cache from the beginning on, and any sets that are loaded or withdrawn between them, while no more
/// connections came than a u64 counts: the client of each connection has heard just what its socket gave, and what its socket
/// took and what waits for it is just what the cache handed out for it, which with what is queued are whole PDUs, each response
/// of one published version.
pub fn connections_carry_whole_versions()
    ensures { (session : ℕ) (intervals : Intervals) (other_session : OtherSession) (before : List Turn) (patience : Patience) (cache : CacheState) (listens : Option SocketAddr) (steps : List Step) (new : Turns) (key : ℕ) (link : Connection) → IsRun (empty_cache session intervals other_session) before cache → TakesSteps steps (idle patience cache (nothing_told listens)) new → new.counts.wire.sockets < 2 ^ 64 - 1 → link_at new key ≡ Some link → CarriesWhole (empty_cache session intervals other_session) new key link }
{}

/// Whatever turns are taken and sets are loaded or withdrawn, the wire listens where it did.
pub fn wires_listen_where_they_did()
    ensures { (steps : List Step) (old new : Turns) → TakesSteps steps old new → new.counts.wire.listens ≡ old.counts.wire.listens }
{}
