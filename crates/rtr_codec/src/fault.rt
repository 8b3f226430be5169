//! What is wrong with a PDU, and what an Error Report says of it (RFC 8210 section 12).
ghost use Rattle.std.specs.Prelude.{◌≡◌};
ghost use Rattle.rtr_codec.specs.PduFaults.{number_of};

use thiserror::Error;

/// An error code (RFC 8210 section 12).
#[derive(Clone, Copy, Debug, PartialEq, Eq)]
pub enum ErrorCode {
    CorruptData,
    InternalError,
    NoDataAvailable,
    InvalidRequest,
    UnsupportedVersion,
    UnsupportedType,
    WithdrawalOfUnknownRecord,
    DuplicateAnnouncement,
    UnexpectedVersion,
}

/// What is wrong with a PDU.
#[derive(Clone, Copy, Debug, PartialEq, Eq, Error)]
pub enum PduFault {
    /// An Error Report is never answered.
    #[error("the header of an Error Report is faulty")]
    Unanswered,
    /// The code of the answer, which quotes the header.
    #[error("the header is faulty")]
    Header(ErrorCode),
    /// Corrupt data. The answer quotes the whole PDU.
    #[error("the prefix or the maximum length is faulty")]
    Payload,
}

impl ErrorCode {
    /// The number of the code.
    pub fn number(self) -> u16
        ensures { result ≡ number_of self }
    {
        match self {
            ErrorCode::CorruptData => 0,
            ErrorCode::InternalError => 1,
            ErrorCode::NoDataAvailable => 2,
            ErrorCode::InvalidRequest => 3,
            ErrorCode::UnsupportedVersion => 4,
            ErrorCode::UnsupportedType => 5,
            ErrorCode::WithdrawalOfUnknownRecord => 6,
            ErrorCode::DuplicateAnnouncement => 7,
            ErrorCode::UnexpectedVersion => 8,
        }
    }
}
