//! When the list is due.
ghost use Rattle.std.specs.Prelude.{◌≡◌, None, Some};
ghost use Rattle.log_lines.specs.Passing.{have_passed};
ghost use Rattle.cache_program.specs.Intervals.{counts_from, is_due_at, noted};

use cache_watch::Reread;

/// Seconds that pass from the end of a reading to the next one, if there is a next one.
#[derive(Clone, Copy, Debug, PartialEq, Eq)]
pub struct Interval {
    seconds: Option<u32>,
    // The moment from which they count; none where they count from the next one.
    since: Option<u64>,
}

impl Interval {
    /// They count from the moment 0.
    pub fn new(seconds: Option<u32>) -> Interval
        ensures { result ≡ record { seconds = seconds; since = Some 0 } }
    {
        Interval {
            seconds,
            since: Some(0),
        }
    }

    /// Whether they have passed at this moment, from which they count if they didn't yet.
    pub fn is_due(&mut self, now: u64) -> bool
        ensures due { result ≡ is_due_at self.old.seconds self.old.since now }
        ensures since { self.new ≡ record self.old { since = Some (counts_from self.old.since now) } }
    {
        let since = self.since.unwrap_or(now);
        self.since = Some(since);
        have_passed(self.seconds, since, now)
    }

    /// Where the list was read they count from the next moment, which is behind the reading.
    pub(crate) fn note(&mut self, led: Option<Reread>)
        ensures { self.new ≡ record self.old { since = noted self.old.since led } }
    {
        match led {
            Some(_) => self.since = None,
            None => {}
        }
    }
}

// Whether so many seconds have passed since a moment.
fn have_passed(seconds: Option<u32>, since: u64, now: u64) -> bool
    ensures { result ≡ have_passed seconds since now }
{
    let Some(seconds) = seconds else {
        return false;
    };
    if now < since || now - since < seconds as u64 {
        return false;
    }
    true
}
