//! The first data of a NOTIFICATION.
ghost use Rattle.std.specs.Prelude.{◌≡◌, ◌≤◌, length, take};

use crate::shutdown_text::COMMUNICATION_OCTETS;

/// How many octets of the data of a NOTIFICATION are kept at most.
pub(crate) const KEPT_OCTETS: usize = COMMUNICATION_OCTETS;

/// The first octets of some data.
#[derive(Clone, Copy, Debug, PartialEq, Eq)]
pub(crate) struct KeptData {
    octets: [u8; KEPT_OCTETS],
    count: usize,
    pub ghost fits: { count ≤ 256 },
}

impl KeptData {
    /// Those of these octets.
    pub fn of(octets: &[u8]) -> KeptData
        ensures { take result.count result.octets ≡ take 256 octets.now }
    {
        let front = front_of(octets);
        let mut kept = [0; KEPT_OCTETS];
        put_first(&mut kept, front);
        KeptData {
            octets: kept,
            count: front.len(),
        }
    }

    /// What they are.
    pub fn octets(&self) -> &[u8]
        ensures { result.now ≡ take self.now.count self.now.octets }
    {
        &self.octets[..self.count]
    }
}

// As many of the first octets as are kept.
fn front_of(octets: &[u8]) -> &[u8]
    ensures front { result.now ≡ take 256 octets.now }
    ensures few { length result.now ≤ 256 }
{
    if octets.len() <= KEPT_OCTETS {
        return octets;
    }
    &octets[..KEPT_OCTETS]
}

// Puts these octets at the front of a buffer.
fn put_first(buffer: &mut [u8], octets: &[u8])
    requires { length octets.now ≤ length buffer.old }
    ensures front { take (length octets.now) buffer.new ≡ octets.now }
    ensures room { length buffer.new ≡ length buffer.old }
{
    buffer[..octets.len()].copy_from_slice(octets);
}
