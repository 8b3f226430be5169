//! So many lines a minute.
ghost use Rattle.std.specs.Prelude.{◌≡◌};
ghost use Rattle.log_limits.specs.Limiting.{beginning, behind_moment, counting, may_write, told_at};

/// How many seconds lie between two counts.
pub const MINUTE: u64 = 60;

/// How many lines a log gets in a minute.
#[derive(Clone, Copy, Debug, PartialEq, Eq)]
pub struct LineLimit {
    most: u32,
    // The moment when the minute began.
    since: u64,
    // How many lines were written in it.
    written: u32,
    // How many lines were left out that weren't told yet.
    left_out: u64,
}

impl LineLimit {
    /// So many lines a minute, from the moment 0 on.
    pub fn new(most: u32) -> LineLimit
        ensures { result ≡ beginning most }
    {
        LineLimit {
            most,
            since: 0,
            written: 0,
            left_out: 0,
        }
    }

    /// A moment. Where the minute is over, the next one begins, and how many lines were left out is told, if any were.
    pub fn tick(&mut self, now: u64) -> Option<u64>
        ensures tells { result ≡ told_at now self.old }
        ensures begins { self.new ≡ behind_moment now self.old }
    {
        if now < self.since || now - self.since < MINUTE {
            return None;
        }
        let left_out = self.left_out;
        self.since = now;
        self.written = 0;
        self.left_out = 0;
        if left_out == 0 {
            return None;
        }
        Some(left_out)
    }

    /// Whether one more line may be written; one that may not is counted.
    pub fn admits(&mut self) -> bool
        ensures admits { result ≡ may_write self.old }
        ensures counts { self.new ≡ counting self.old }
    {
        if self.written >= self.most {
            self.left_out = self.left_out.saturating_add(1);
            return false;
        }
        self.written += 1;
        true
    }
}
