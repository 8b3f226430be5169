//! Laws of the history of a session. Each is the contract of an empty function.
ghost use Rattle.rtr_session.specs.Laws.{NoOthersAreInForce, OctetsAreDropped, OctetsArePdus, PayloadsAreOfTheLastLoad, PiecesJoin, ReportsFindRoom};

/// The payloads in force are those of the last completed load, on any connection, behind which there was neither a flush
/// nor an expiry, and no others are (RFC 8210 sections 5.8 and 8).
pub fn payloads_are_of_the_last_load()
    ensures last { PayloadsAreOfTheLastLoad }
    ensures only { NoOthersAreInForce }
{}

/// An octet adds at most the one PDU that it completes, or its fault, to its connection's stream.
pub fn octets_are_pdus()
    ensures { OctetsArePdus }
{}

/// Octets and then others are all of them, however they were cut.
pub fn pieces_join()
    ensures { PiecesJoin }
{}

/// Where no connection stands, octets change nothing.
pub fn octets_are_dropped()
    ensures { OctetsAreDropped }
{}

/// While a connection stands, an Error Report finds room in the ring.
pub fn reports_find_room()
    ensures { ReportsFindRoom }
{}
