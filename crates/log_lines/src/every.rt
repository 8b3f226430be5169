//! What is to be done again and again.
ghost use Rattle.std.specs.Prelude.{◌≡◌, if◌then◌else◌};
ghost use Rattle.log_lines.specs.Passing.{have_passed};

/// Something that is to be done each time that so many seconds have passed, or never.
#[derive(Clone, Copy, Debug, PartialEq, Eq)]
pub struct Every {
    seconds: Option<u32>,
    // The moment of the last time.
    last: u64,
}

impl Every {
    /// It was done at the moment 0.
    pub fn new(seconds: Option<u32>) -> Every
        ensures { result ≡ record { seconds = seconds; last = 0 } }
    {
        Every { seconds, last: 0 }
    }

    /// Whether it is to be done at this moment, which is the last time then.
    pub fn is_due(&mut self, now: u64) -> bool
        ensures due { result ≡ have_passed self.old.seconds self.old.last now }
        ensures last { self.new ≡ record self.old { last = if result then now else self.old.last } }
    {
        let Some(seconds) = self.seconds else {
            return false;
        };
        if now < self.last || now - self.last < seconds as u64 {
            return false;
        }
        self.last = now;
        true
    }
}
