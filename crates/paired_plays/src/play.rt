//! What plays a script.

use crate::calls::Call;
use crate::fault::Fault;
use net_prefix::Transport;
use std::io;

/// A table of a speaker, whose rows a line shows.
#[derive(Clone, Copy)]
pub enum Table {
    Sessions,
    Rib,
    Payloads,
    In(u8),
    Held(u8),
    Waiting(u8),
}

/// Which connection attempts began in the last call: of slots, a bit for each, and with the cache.
#[derive(Clone, Copy, PartialEq, Eq)]
pub struct Opened {
    pub slots: u64,
    pub cache: bool,
}

impl Opened {
    /// Whether any began.
    pub fn is_any(self) -> bool {
        self.slots != 0 || self.cache
    }
}

/// A play of a script, whatever it is made of: to know that makes each proof dear, and none needs it.
pub trait Play {
    /// Plays a line, and puts what it answers behind the text.
    fn play_line(&mut self, line: Call<'_>, text: &mut Vec<u8>) -> Result<(), Fault>;

    /// Whether a line has made a speaker. Where none has, what follows is that of one with nothing.
    fn has_speaker(&self) -> bool;

    /// Whether a line has made a cache.
    fn has_cache(&self) -> bool;

    /// The speaker's connection attempts that began in its last call.
    fn opened(&self) -> Opened;

    /// How often the speaker chose a best route in its last call.
    fn chosen(&self) -> u64;

    /// The transport of a slot of the speaker.
    fn transport(&self, slot: u8) -> Transport;

    /// The transport of the speaker's session with a cache.
    fn cache_transport(&self) -> Transport;

    /// The transport of a client of the cache.
    fn client_transport(&self, key: u64) -> Transport;

    /// Puts a table of the speaker behind the text.
    fn show(&self, table: Table, text: &mut Vec<u8>) -> io::Result<()>;
}
