//! Candidates that a fixed generator draws.
ghost use Rattle.std.specs.Prelude.{◌≡◌, ◌≤◌};

use bgp_attr::Origin;
use decision::Candidate;
use net_prefix::Asn;
use origin_valid::Validity;

/// Numbers that look random, always the same ones.
#[derive(Drop)]
pub struct Generator {
    state: u64,
}

impl Generator {
    pub fn new() -> Generator {
        Generator { state: 1 }
    }

    /// The next number below the limit, and 0 where that is 0.
    pub fn below(&mut self, limit: u8) -> u8
        ensures { result ≤ limit }
    {
        self.state = self
            .state
            .wrapping_mul(6_364_136_223_846_793_005)
            .wrapping_add(1_442_695_040_888_963_407);
        rest_of(self.state >> 33, limit)
    }
}

// What is left of the number modulo the limit.
fn rest_of(number: u64, limit: u8) -> u8
    ensures { result ≤ limit }
{
    if limit == 0 {
        return 0;
    }
    (number % u64::from(limit)) as u8
}

/// A candidate of one of five neighbor ASes that ties with others in most steps. Its peer's address is the slot.
pub fn draw(generator: &mut Generator, slot: u8) -> Candidate
    ensures slot { result.slot ≡ slot }
    ensures address { result.address ≡ slot }
{
    Candidate {
        slot,
        degree: u64::from(generator.below(20) / 19),
        path_length: u32::from(generator.below(12) / 11),
        origin: draw_origin(generator),
        neighbor: Asn(u32::from(generator.below(5))),
        med: draw_med(generator),
        external: generator.below(4) != 0,
        cost: u32::from(generator.below(3)),
        identifier: u32::from(generator.below(3)),
        address: u32::from(slot),
        validity: Validity::NotFound,
    }
}

fn draw_origin(generator: &mut Generator) -> Origin {
    if generator.below(12) == 0 {
        Origin::Egp
    } else {
        Origin::Igp
    }
}

fn draw_med(generator: &mut Generator) -> Option<u32> {
    match generator.below(6) {
        0 | 1 => None,
        med => Some(u32::from(med)),
    }
}
