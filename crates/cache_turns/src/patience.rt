//! How long a client may be silent.
ghost use Rattle.std.specs.Prelude.{◌≡◌};
ghost use Rattle.net_prefix.specs.declared.transport.Transport.TheVariants.{Open};
ghost use Rattle.cache_turns.specs.Patience.{arriving_at, have_passed, heard_at, outlasts};

use net_prefix::Transport;

/// For how many seconds a connection stands whose session the cache has closed, while what was said isn't all written
/// (own choice).
pub const CLOSING_SECONDS: u64 = 60;

/// For how many seconds a client may be silent (own choice). One that is silent for longer loses its place.
#[derive(Clone, Copy, Debug, PartialEq, Eq)]
pub struct Patience {
    /// From its coming on to its first whole PDU.
    pub first: u32,
    /// From any octets of it to the next.
    pub idle: u32,
}

impl Patience {
    /// A minute, and the usual expire interval (RFC 8210 section 6).
    pub const USUAL: Patience = Patience {
        first: 60,
        idle: 7_200,
    };

    // Whether a client was silent for too long, by what stands between it and its connection, and whether it has sent
    // no whole PDU yet.
    pub(crate) fn is_over(
        &self,
        moments: Moments,
        transport: Transport,
        awaits_first_pdu: bool,
        now: u64,
    ) -> bool
        ensures { result ≡ outlasts self.now moments transport awaits_first_pdu now }
    {
        match transport {
            Transport::Closing => have_passed(CLOSING_SECONDS, moments.heard, now),
            Transport::Open if awaits_first_pdu => {
                have_passed(self.first as u64, moments.came, now)
            }
            Transport::Open => have_passed(self.idle as u64, moments.heard, now),
            _ => false,
        }
    }
}

/// Moments of a connection, in seconds.
#[derive(Clone, Copy, Debug, PartialEq, Eq)]
pub(crate) struct Moments {
    /// It came.
    pub came: u64,
    /// Octets of it came last, while its session was open.
    pub heard: u64,
}

impl Moments {
    /// Those of a connection that comes now.
    pub fn new(now: u64) -> Moments
        ensures { result ≡ arriving_at now }
    {
        Moments {
            came: now,
            heard: now,
        }
    }

    /// Octets came now. A moment before the last one is that one.
    pub fn hear(&mut self, transport: Transport, now: u64)
        ensures { self.new ≡ heard_at now transport self.old }
    {
        if transport == Transport::Open {
            self.heard = self.heard.max(now);
        }
    }
}

// Whether so many seconds have passed since a moment.
fn have_passed(seconds: u64, since: u64, now: u64) -> bool
    ensures { result ≡ have_passed seconds since now }
{
    now >= since && now - since >= seconds
}
