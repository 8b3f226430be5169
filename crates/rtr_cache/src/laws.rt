//! The laws of the cache: of its table, of queueing, and of what a client is told over all calls (RFC 8210 sections 5
//! to 8).
ghost use Rattle.std.specs.Prelude.{◌≡◌, ◌≢◌, ◌<◌, ◌≤◌, ◌+◌, ◌++◌, Bool, List, [], None, Ok, Result, Some, drop, false, if◌then◌else◌, length, true, ℕ};
ghost use Rattle.rtr_cache.specs.CacheLimits.{ring_octets, room_for_pdu};
ghost use Rattle.rtr_cache.specs.CacheState.{CacheState, client_at, empty_cache, held_serial};
ghost use Rattle.rtr_cache.specs.CacheTable.{Conn, Shared, answers, first_refused, fresh_conn, hears, hears_all, hears_from, hears_pdu, notified, pumped, queues, quoted_of};
ghost use Rattle.rtr_cache.specs.ClientHistory.{IsRun, IsToldWhole, Loaded, Makes, StaysUp, Turn, Withdrew, handed_out};
ghost use Rattle.rtr_cache.specs.HandedOut.{serial_in};
ghost use Rattle.rtr_cache.specs.declared.other_session.OtherSession.{OtherSession};
ghost use Rattle.net_prefix.specs.declared.payload.Vrp.{Vrp};
ghost use Rattle.rtr_cache.specs.declared.event.CacheReport.{CacheReport};
ghost use Rattle.rtr_cache.specs.declared.refusal.CacheRefusal.{CacheRefusal};
ghost use Rattle.rtr_codec.specs.PduFaults.{number_of};
ghost use Rattle.rtr_codec.specs.PduSpelling.{Content, Error_report, Reset_query, Serial_query};
ghost use Rattle.rtr_codec.specs.declared.fault.ErrorCode.TheVariants.{NoDataAvailable};
ghost use Rattle.rtr_codec.specs.PduStream.{Item, Wants, meaning, needed_of, place_after};
ghost use Rattle.rtr_codec.specs.Responses.{are_short, spellings};
ghost use Rattle.rtr_codec.specs.declared.intervals.Intervals.{Intervals};
ghost use Rattle.rtr_codec.specs.declared.place.Place.{Place};
ghost use Rattle.vrp_delta.specs.Versions.{kept_after};

/// Over any calls of a cache from its beginning on: from a client's Up on, the octets that were handed out to it and
/// those that wait are whole PDUs. Each response among them that is ended is that of one published version, the newest
/// when its query was read, and read onto the set that it leads from it gives that version's.
pub fn clients_are_told_whole_versions()
    ensures { (session : ℕ) (intervals : Intervals) (other_session : OtherSession) (before : List Turn) (start end : CacheState) (key : ℕ) (history : List Turn) → IsRun (empty_cache session intervals other_session) before start → client_at start key ≡ Some fresh_conn → IsRun start history end → StaysUp key history → IsToldWhole key history (client_at end key) }
{}

/// And the serial that a client holds is that of the last End of Data that a router reads in all that was handed out
/// for the client since its Up.
pub fn held_serials_are_handed_out()
    ensures { (session : ℕ) (intervals : Intervals) (other_session : OtherSession) (before : List Turn) (start end : CacheState) (key : ℕ) (history : List Turn) → IsRun (empty_cache session intervals other_session) before start → client_at start key ≡ Some fresh_conn → IsRun start history end → StaysUp key history → held_serial (client_at end key) ≡ serial_in (handed_out key history) }
{}

/// While the set is withdrawn a query is answered by error 2, after which the connection stays, and nobody is notified.
pub fn withdrawn_sets_are_not_told()
    ensures serial { (shared : Shared) (refused : Bool) (conn : Conn) (octets : List ℕ) (session serial : ℕ) → shared.withdrawn ≡ true → conn.left ≡ [] → hears_pdu shared refused conn octets (Serial_query session serial) ≡ answers conn (Error_report (number_of NoDataAvailable) (quoted_of octets)) }
    ensures reset { (shared : Shared) (refused : Bool) (conn : Conn) (octets : List ℕ) → shared.withdrawn ≡ true → conn.left ≡ [] → hears_pdu shared refused conn octets Reset_query ≡ answers conn (Error_report (number_of NoDataAvailable) (quoted_of octets)) }
    ensures notify { (shared : Shared) (conn : Conn) → shared.withdrawn ≡ true → notified shared conn ≡ conn }
{}

/// A set that is withdrawn changes no client, so a response goes on to its end, and takes no version away: a load behind it
/// leaves the versions that it would have left, so serials go on where they were, and the set is no longer withdrawn, be it
/// the same one.
pub fn versions_outlast_a_withdrawal()
    ensures clients { (old new : CacheState) (result : Result CacheReport CacheRefusal) → Makes old (Withdrew result) new → (key : ℕ) → client_at new key ≡ client_at old key }
    ensures load { (old mid new : CacheState) (result : Result CacheReport CacheRefusal) (set : List Vrp) (report : CacheReport) → Makes old (Withdrew result) mid → Makes mid (Loaded set (Ok report)) new → new.shared ≡ record old.shared { kept = kept_after old.shared.kept set; withdrawn = false } }
{}

/// No more octets than are wanted are one row, where they complete a PDU or a fault, and none where they don't. What
/// follows them is heard behind it, unless the row closed the connection.
pub fn octets_are_heard_piece_by_piece()
    ensures none { (shared : Shared) (refused : List Bool) (conn : Conn) (place : Place) (part piece more : List ℕ) → Wants place part → 0 < length piece → length piece ≤ needed_of place part → meaning place (part ++ piece) ≡ None → hears_from shared refused conn place part (piece ++ more) ≡ hears_from shared refused conn place (part ++ piece) more }
    ensures row { (shared : Shared) (refused : List Bool) (conn : Conn) (place : Place) (part piece more : List ℕ) (item : Item) → Wants place part → 0 < length piece → length piece ≤ needed_of place part → meaning place (part ++ piece) ≡ Some item → conn.is_open ≡ true → hears_from shared refused conn place part (piece ++ more) ≡ (let after = hears shared (first_refused refused) conn item in if after.is_open then hears_from shared (drop 1 refused) after (place_after place (Some item)) [] more else after) }
    ensures end { (shared : Shared) (refused : List Bool) (conn : Conn) (place : Place) (part : List ℕ) → hears_from shared refused conn place part [] ≡ record conn { unread = part } }
{}

/// A closed connection hears nothing.
pub fn closed_connection_hears_nothing()
    ensures { (shared : Shared) (refused : List Bool) (conn : Conn) (items : List Item) → conn.is_open ≡ false → hears_all shared refused conn items ≡ conn }
{}

/// Queueing says what is left to say, in its order, once each.
pub fn queueing_keeps_what_is_said()
    ensures { (conn : Conn) (contents : List Content) → (queues conn contents).ring ++ spellings (queues conn contents).left ≡ conn.ring ++ spellings contents }
{}

/// A response is cut short only where fewer octets of the ring are free than a PDU must find.
pub fn queueing_stops_at_a_full_ring()
    ensures { (conn : Conn) → (pumped conn).left ≢ [] → ring_octets < length (pumped conn).ring + room_for_pdu }
{}

/// What is queued leaves as much of the ring free as is free, or 104 octets.
pub fn queueing_leaves_room()
    ensures { (conn : Conn) (contents : List Content) (most : ℕ) → are_short contents ≡ true → ring_octets ≤ most + 104 → length conn.ring ≤ most → length (queues conn contents).ring ≤ most }
{}

/// Queueing changes the ring, what is left, and the serial that the client was told.
pub fn queueing_changes_no_more()
    ensures { (conn : Conn) (contents : List Content) → ((queues conn contents).is_open ≡ conn.is_open) × ((queues conn contents).is_first ≡ conn.is_first) × ((queues conn contents).unread ≡ conn.unread) × ((queues conn contents).notified ≡ conn.notified) }
{}
