//! What is handed in to a step, and what it reports.
ghost use Rattle.std.specs.Prelude.{◌≡◌, ◌<◌, ◌^◌, false};

use bgp_conf::Command;

/// What is handed in to a step.
#[derive(Clone, Copy)]
pub enum Event<'a> {
    /// The slot's connection is there.
    Up(u8),
    /// The slot's connection, or the attempt at one, has failed or has ended.
    Fail(u8),
    /// Octets that came on the slot's connection.
    Bytes(u8, &'a [u8]),
    /// The connection of the cache session is there.
    CacheUp,
    /// The connection of the cache session, or the attempt at one, has failed or has ended.
    CacheFail,
    /// Octets that came on the connection of the cache session.
    CacheBytes(&'a [u8]),
    /// A moment, in whole seconds; none comes before the last one.
    Tick(u64),
    /// What the operator asks for.
    Command(Command<'a>),
}

/// What a call did beside its answer: a bit for each slot.
#[derive(Clone, Copy, Debug, PartialEq, Eq)]
pub struct Report {
    /// The slots whose connection attempt begins.
    pub opened: u64,
    /// The slots that were closed for want of memory.
    pub starved: u64,
    /// Whether the cache session's connection attempt begins.
    pub cache_opened: bool,
    /// Whether the cache session was closed for want of memory.
    pub cache_starved: bool,
}

impl Report {
    /// The report of a call that opened nothing and closed nothing for want of memory.
    pub const NOTHING: Report = Report {
        opened: 0,
        starved: 0,
        cache_opened: false,
        cache_starved: false,
    };

    /// The same, as a call.
    pub fn nothing() -> Report
        ensures { result ≡ record { opened = 0; starved = 0; cache_opened = false; cache_starved = false } }
    {
        Report::NOTHING
    }
}

/// The bit of a slot in a report.
pub fn slot_bit(slot: u8) -> u64
    requires { slot < 64 }
    ensures { result ≡ 2 ^ slot }
{
    1 << slot
}
