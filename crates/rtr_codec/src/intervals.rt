//! The seconds that an End of Data tells.
ghost use Rattle.std.specs.Prelude.{◌≡◌};
ghost use Rattle.rtr_codec.specs.Intervals.{are_lawful, usual};

/// How long a router waits, in seconds (RFC 8210 section 6).
#[derive(Clone, Copy, Debug, PartialEq, Eq)]
pub struct Intervals {
    /// Between two queries.
    pub refresh: u32,
    /// After a query that failed.
    pub retry: u32,
    /// Until payloads that were not refreshed are dropped.
    pub expire: u32,
}

impl Intervals {
    /// What RFC 8210 section 6 proposes.
    pub const USUAL: Intervals = Intervals {
        refresh: 3600,
        retry: 600,
        expire: 7200,
    };

    /// Whether each of them is within its bounds, and the last one is the largest (RFC 8210 section 6).
    pub fn are_lawful(self) -> bool
        ensures { result ≡ are_lawful self }
    {
        1 <= self.refresh
            && self.refresh <= 86_400
            && 1 <= self.retry
            && self.retry <= 7_200
            && 600 <= self.expire
            && self.expire <= 172_800
            && self.refresh < self.expire
            && self.retry < self.expire
    }
}

impl Default for Intervals {
    fn default() -> Self
        ensures { result ≡ usual }
    {
        Intervals::USUAL
    }
}
