//! Why a list is refused.
ghost use Rattle.std.specs.Prelude.{◌≡◌};
ghost use Rattle.vrp_csv.specs.ListNumbers.{number_of};

use thiserror::Error;

/// What is wrong with a row, or with reading it.
#[derive(Clone, Copy, Debug, PartialEq, Eq, Error)]
pub enum RowFault {
    #[error("the first row is not the header of a payload list")]
    Header,
    #[error("the row has another number of fields than the header")]
    Fields,
    #[error("the AS is no AS number")]
    Asn,
    #[error("the prefix is no IPv4 prefix")]
    Prefix,
    #[error("the maximum length is no number from the prefix length to 32")]
    Max,
    #[error("the device failed")]
    Io,
    #[error("there is no memory for the list")]
    NoMemory,
    #[error("the row is no record")]
    Csv,
}

/// The first fault of a list and its row: the header is row 0, and each further record counts.
#[derive(Clone, Copy, Debug, PartialEq, Eq, Error)]
#[error("row {row}: {fault}")]
pub struct CsvFault {
    pub fault: RowFault,
    pub row: u64,
}

impl CsvFault {
    /// The number that operators see.
    pub fn number(self) -> u8
        ensures { result ≡ number_of self.fault }
    {
        match self.fault {
            RowFault::Header => 10,
            RowFault::Fields => 11,
            RowFault::Asn => 12,
            RowFault::Prefix => 13,
            RowFault::Max => 14,
            RowFault::Io => 15,
            RowFault::NoMemory => 16,
            RowFault::Csv => 17,
        }
    }

    /// The row of the fault.
    pub fn row(self) -> u64
        ensures { result ≡ self.row }
    {
        self.row
    }
}
