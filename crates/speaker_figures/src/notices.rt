//! How many NOTIFICATIONs there were.
ghost use Rattle.std.specs.Prelude.{◌≡◌};
ghost use Rattle.speaker_figures.specs.NoticeCounts.{counting, none_counted};

/// NOTIFICATIONs by their error code (RFC 4271 section 4.5). A count stays at the greatest u64.
#[derive(Clone, Copy, Debug, PartialEq, Eq)]
pub struct Notices {
    /// 1, Message Header Error.
    pub header: u64,
    /// 2, OPEN Message Error.
    pub open_message: u64,
    /// 3, UPDATE Message Error.
    pub update: u64,
    /// 4, Hold Timer Expired.
    pub hold_timer: u64,
    /// 5, Finite State Machine Error.
    pub state_machine: u64,
    /// 6, Cease.
    pub cease: u64,
    /// Any other code.
    pub other: u64,
}

impl Notices {
    /// None.
    pub fn new() -> Notices
        ensures { result ≡ none_counted }
    {
        Notices {
            header: 0,
            open_message: 0,
            update: 0,
            hold_timer: 0,
            state_machine: 0,
            cease: 0,
            other: 0,
        }
    }

    /// One more of this code.
    pub fn count(&mut self, code: u8)
        ensures { self.new ≡ counting code self.old }
    {
        match code {
            1 => self.header = self.header.saturating_add(1),
            2 => self.open_message = self.open_message.saturating_add(1),
            3 => self.update = self.update.saturating_add(1),
            4 => self.hold_timer = self.hold_timer.saturating_add(1),
            5 => self.state_machine = self.state_machine.saturating_add(1),
            6 => self.cease = self.cease.saturating_add(1),
            _ => self.other = self.other.saturating_add(1),
        }
    }
}
