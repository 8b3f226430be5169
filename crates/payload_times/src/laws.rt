//! Laws of how long payloads are in force. Each is the contract of an empty function.
ghost use Rattle.payload_times.specs.PayloadTimes.{ExpiredAreGone, PayloadsAreFresh, PayloadsAreUnexpired, UnexpiredAreInForce};
ghost use Rattle.payload_times.specs.ToldPayloads.{PayloadsAreTold};

/// Where payloads are in force, the octet that completed their load stands in the history, on whatever connection: no
/// moment handed in since lies the expire interval behind that its End of Data told, and neither a newer load nor a flush
/// came since. And wherever that is so of a load, its payloads are in force (RFC 8210 sections 5.8 and 6).
pub fn payloads_are_unexpired()
    ensures unexpired { PayloadsAreUnexpired }
    ensures in_force { UnexpiredAreInForce }
{}

/// Behind a completed load, once a moment is handed in that lies its expire interval behind, none of it is in force, and
/// nothing else is before a newer load.
pub fn expired_payloads_are_gone()
    ensures { ExpiredAreGone }
{}

/// By the octets as they came, with no word of the client: where payloads are in force, a lawful End of Data came whole,
/// and no moment handed in since lies its expire interval behind.
pub fn payloads_are_fresh()
    ensures { PayloadsAreFresh }
{}

/// And which they are, by the PDUs that came: those of a load, from its Cache Response to that End of Data, make of no
/// payloads, or of those that were in force when the Cache Response came, just these.
pub fn payloads_are_told()
    ensures { PayloadsAreTold }
{}
