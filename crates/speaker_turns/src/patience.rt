//! How long a connection may stand whose other side takes nothing, or says nothing.

/// For how many seconds a connection stands so; where there is no number it does for ever.
#[derive(Clone, Copy, Debug, PartialEq, Eq)]
pub struct Patience {
    /// Octets wait for it, of which none goes (SendHoldTime of RFC 9687).
    pub send_hold: Option<u32>,
    /// Its session is in OpenSent: no whole OPEN has come.
    pub open_wait: Option<u32>,
}

impl Patience {
    /// For ever.
    pub const ENDLESS: Patience = Patience {
        send_hold: None,
        open_wait: None,
    };
}

/// The moment of a turn, and how patient its loop is.
#[derive(Clone, Copy)]
pub(crate) struct Moment {
    pub seconds: u64,
    pub patience: Patience,
}
