//! What a row does beside the change of the client.
ghost use Rattle.std.specs.Prelude.{◌≡◌, ◌||◌, false};
ghost use Rattle.std.specs.Option.{option_map};
ghost use Rattle.rtr_codec.specs.ClientTable.{first_said};
ghost use Rattle.rtr_codec.specs.PduSpelling.{content_of};

use rtr_codec::Pdu;

/// What a step does beside the change of the client.
#[derive(Clone, Copy, Debug, PartialEq, Eq)]
pub struct Acts<'a> {
    /// The PDU to queue, if any. An Error Report quotes octets of the input.
    pub pdu: Option<Pdu<'a>>,
    /// A connection attempt begins.
    pub opened: bool,
    /// Memory was refused, and the session closes.
    pub starved: bool,
}

impl<'a> Acts<'a> {
    /// Nothing beside the change of the client.
    pub const NONE: Acts<'static> = Acts {
        pdu: None,
        opened: false,
        starved: false,
    };

    /// A PDU is said.
    pub(crate) fn saying(pdu: Pdu<'a>) -> Acts<'a>
        ensures { result ≡ record { pdu = Some pdu.entry; opened = false; starved = false } }
    {
        Acts {
            pdu: Some(pdu),
            ..Acts::NONE
        }
    }

    /// These and then the later ones.
    pub(crate) fn along(self, later: Acts<'a>) -> Acts<'a>
        ensures pdu { option_map content_of result.pdu ≡ first_said (option_map content_of self.entry.pdu) (option_map content_of later.entry.pdu) }
        ensures opened { result.opened ≡ (self.entry.opened || later.entry.opened) }
        ensures starved { result.starved ≡ (self.entry.starved || later.entry.starved) }
    {
        Acts {
            pdu: self.pdu.or(later.pdu),
            opened: self.opened || later.opened,
            starved: self.starved || later.starved,
        }
    }
}
