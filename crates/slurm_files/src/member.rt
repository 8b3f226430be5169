//! The names of members, and of the arrays of entries.
ghost use Rattle.std.specs.Prelude.{◌≡◌, Some};
ghost use Rattle.slurm_files.specs.MemberNames.{name_of, part_member};

use std::fmt;

/// A member of an object of a SLURM file (RFC 8416 sections 3.2 to 3.4).
#[derive(Clone, Copy, Debug, PartialEq, Eq)]
pub enum Member {
    SlurmVersion,
    ValidationOutputFilters,
    LocallyAddedAssertions,
    PrefixFilters,
    BgpsecFilters,
    PrefixAssertions,
    BgpsecAssertions,
    Prefix,
    Asn,
    MaxPrefixLength,
    Comment,
    Ski,
    RouterPublicKey,
}

impl Member {
    /// Its name.
    pub fn name(self) -> &'static str
        ensures { result.now ≡ name_of self }
    {
        match self {
            Member::SlurmVersion => "slurmVersion",
            Member::ValidationOutputFilters => "validationOutputFilters",
            Member::LocallyAddedAssertions => "locallyAddedAssertions",
            Member::PrefixFilters => "prefixFilters",
            Member::BgpsecFilters => "bgpsecFilters",
            Member::PrefixAssertions => "prefixAssertions",
            Member::BgpsecAssertions => "bgpsecAssertions",
            Member::Prefix => "prefix",
            Member::Asn => "asn",
            Member::MaxPrefixLength => "maxPrefixLength",
            Member::Comment => "comment",
            Member::Ski => "SKI",
            Member::RouterPublicKey => "routerPublicKey",
        }
    }
}

impl fmt::Display for Member {
    ghost output = { λ member. Some (name_of member) };

    fn fmt<W: fmt::Write>(&self, f: &mut fmt::Formatter<W>) -> fmt::Result {
        f.write_str(self.name())
    }
}

/// An array of entries.
#[derive(Clone, Copy, Debug, PartialEq, Eq)]
pub enum Part {
    PrefixFilters,
    BgpsecFilters,
    PrefixAssertions,
    BgpsecAssertions,
}

impl Part {
    /// The member that it is.
    pub fn member(self) -> Member
        ensures { result ≡ part_member self }
    {
        match self {
            Part::PrefixFilters => Member::PrefixFilters,
            Part::BgpsecFilters => Member::BgpsecFilters,
            Part::PrefixAssertions => Member::PrefixAssertions,
            Part::BgpsecAssertions => Member::BgpsecAssertions,
        }
    }
}

impl fmt::Display for Part {
    ghost output = { λ part. Some (name_of (part_member part)) };

    fn fmt<W: fmt::Write>(&self, f: &mut fmt::Formatter<W>) -> fmt::Result {
        f.write_str(self.member().name())
    }
}
