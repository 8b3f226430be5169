//! Laws of a cache and a client of it. Each is the contract of an empty function.
ghost use Rattle.rtr_channels.specs.Joins.{AcceptancesAreEvents, BeginningsAreNew, CallsAreEvents, EventsGoOn, EventsLeadToPayloads, FailuresAreEvents, HearingsAreEvents, LoadsAreEvents, LossesAreEvents, OthersAreEvents, ReadingsAreEvents, ReadingsWithoutRoomAreEvents, RestartsAreEvents, SessionsAreClients, StepsAreEvents, StepsWithoutRoomAreEvents, TakesAreEvents};
ghost use Rattle.rtr_channels.specs.VersionsAgree.{AllAreFew, VersionsAgree};

/// Whatever is published, cut, lost, delayed and restarted: where a client has payloads under a session id and a serial,
/// they are exactly the set that the cache published under them (RFC 8210 sections 2 and 5.1). Each restart brings a
/// session id under which nothing was published, and no session publishes 2^32 sets: so it is where fewer were published in
/// all.
pub fn versions_agree()
    ensures agree { VersionsAgree }
    ensures few { AllAreFew }
{}

/// What a call of `rtr_cache::Cache` makes of it, by its contract, is an event of any two ends with this cache: octets
/// that come for the client are the front of what is on the way from it, and those that are handed out for it go behind
/// what is on the way to it; a set that is loaded is published; the cache gets the client's connection, and loses it. A
/// call for another client changes the cache alone.
pub fn calls_are_events()
    ensures calls { CallsAreEvents }
    ensures hearings { HearingsAreEvents }
    ensures others { OthersAreEvents }
    ensures takes { TakesAreEvents }
    ensures losses { LossesAreEvents }
    ensures loads { LoadsAreEvents }
    ensures acceptances { AcceptancesAreEvents }
{}

/// What a step of `rtr_client::Client` makes of it, by its contract, is an event of any two ends with this client: it takes
/// the PDU, or the fault, that is the front of what is on the way, hears that its connection stands, that a query has
/// found no room, or that its connection has failed, or a moment comes. What it says goes behind what is on the way to
/// the cache, unless it is a query that finds no room.
pub fn steps_are_events()
    ensures readings { ReadingsAreEvents }
    ensures readings_without_room { ReadingsWithoutRoomAreEvents }
    ensures steps { StepsAreEvents }
    ensures steps_without_room { StepsWithoutRoomAreEvents }
    ensures failures { FailuresAreEvents }
{}

/// A new cache and a new client are two ends after no events; a new cache in the place of the old one is an event, in a
/// session in which nothing was published; an event that can happen goes on from whatever has happened; and there are
/// events that lead to payloads in force.
pub fn new_ends_are_a_beginning()
    ensures beginnings { BeginningsAreNew }
    ensures restarts { RestartsAreEvents }
    ensures go_on { EventsGoOn }
    ensures payloads { EventsLeadToPayloads }
{}

/// What an input makes of the client and the ring of an `rtr_session::CacheSession` is what an event makes of a client and
/// of the octets on the way to the cache.
pub fn sessions_are_clients()
    ensures { SessionsAreClients }
{}
