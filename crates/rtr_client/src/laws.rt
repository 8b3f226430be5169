//! Laws of the client's table. Each is the contract of an empty function.
ghost use Rattle.rtr_client.specs.Laws.{TicksSayOne};

/// The timers that one moment ends say one PDU together at most.
pub fn a_tick_says_one_pdu()
    ensures { TicksSayOne }
{}
