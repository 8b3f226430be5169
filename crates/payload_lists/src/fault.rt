//! Why a list is refused.
use thiserror::Error;
use vrp_csv::CsvFault;
use vrp_json::JsonFault;

/// Why a list is refused.
#[derive(Clone, Copy, Debug, PartialEq, Eq, Error)]
pub enum PayloadListFault {
    /// The comma-separated values are refused at a row, or reading stopped there: at row 0 also before the format was told.
    #[error("{0}")]
    Row(CsvFault),
    /// The list in JSON is refused.
    #[error("{0}")]
    Json(JsonFault),
    /// The device failed behind the octet that told JSON.
    #[error("the device failed")]
    Io,
}
