//! The names of errors that a NOTIFICATION tells.

/// The name of an error code (RFC 4271 section 4.5, RFC 7313 section 5, RFC 9687 section 3).
pub fn error_name(code: u8) -> Option<&'static str> {
    match code {
        1 => Some("Message Header Error"),
        2 => Some("OPEN Message Error"),
        3 => Some("UPDATE Message Error"),
        4 => Some("Hold Timer Expired"),
        5 => Some("Finite State Machine Error"),
        6 => Some("Cease"),
        7 => Some("ROUTE-REFRESH Message Error"),
        8 => Some("Send Hold Timer Expired"),
        _ => None,
    }
}

/// The name of a subcode of an error code, if it has one.
pub fn subcode_name(code: u8, subcode: u8) -> Option<&'static str> {
    match code {
        1 => header_error(subcode),
        2 => open_error(subcode),
        3 => update_error(subcode),
        5 => machine_error(subcode),
        6 => cease(subcode),
        _ => None,
    }
}

// RFC 4271 section 6.1.
fn header_error(subcode: u8) -> Option<&'static str> {
    match subcode {
        1 => Some("Connection Not Synchronized"),
        2 => Some("Bad Message Length"),
        3 => Some("Bad Message Type"),
        _ => None,
    }
}

// RFC 4271 section 6.2, RFC 5492 section 5.
fn open_error(subcode: u8) -> Option<&'static str> {
    match subcode {
        1 => Some("Unsupported Version Number"),
        2 => Some("Bad Peer AS"),
        3 => Some("Bad BGP Identifier"),
        4 => Some("Unsupported Optional Parameter"),
        6 => Some("Unacceptable Hold Time"),
        7 => Some("Unsupported Capability"),
        _ => None,
    }
}

// RFC 4271 section 6.3.
fn update_error(subcode: u8) -> Option<&'static str> {
    match subcode {
        1 => Some("Malformed Attribute List"),
        2 => Some("Unrecognized Well-known Attribute"),
        3 => Some("Missing Well-known Attribute"),
        4 => Some("Attribute Flags Error"),
        5 => Some("Attribute Length Error"),
        6 => Some("Invalid ORIGIN Attribute"),
        8 => Some("Invalid NEXT_HOP Attribute"),
        9 => Some("Optional Attribute Error"),
        10 => Some("Invalid Network Field"),
        11 => Some("Malformed AS_PATH"),
        _ => None,
    }
}

// RFC 6608 section 3.
fn machine_error(subcode: u8) -> Option<&'static str> {
    match subcode {
        1 => Some("Receive Unexpected Message in OpenSent State"),
        2 => Some("Receive Unexpected Message in OpenConfirm State"),
        3 => Some("Receive Unexpected Message in Established State"),
        _ => None,
    }
}

// RFC 4486 section 3, RFC 8538 section 3.
fn cease(subcode: u8) -> Option<&'static str> {
    match subcode {
        1 => Some("Maximum Number of Prefixes Reached"),
        2 => Some("Administrative Shutdown"),
        3 => Some("Peer De-configured"),
        4 => Some("Administrative Reset"),
        5 => Some("Connection Rejected"),
        6 => Some("Other Configuration Change"),
        7 => Some("Connection Collision Resolution"),
        8 => Some("Out of Resources"),
        9 => Some("Hard Reset"),
        _ => None,
    }
}
