//! AS numbers of four octets (RFC 6793).
ghost use Rattle.std.specs.Prelude.{◌++◌, Some, codes, decimal};

use std::fmt;

/// An AS number.
#[derive(Clone, Copy, Debug, PartialEq, Eq, PartialOrd, Ord)]
pub struct Asn(pub u32);

impl fmt::Display for Asn {
    ghost output = { λ asn. Some (codes "AS" ++ decimal asn.0) };

    fn fmt<W: fmt::Write>(&self, f: &mut fmt::Formatter<W>) -> fmt::Result {
        let number = self.0;
        write!(f, "AS{number}")
    }
}
