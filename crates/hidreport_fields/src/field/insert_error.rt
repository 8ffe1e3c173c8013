//! The errors of calls that write values.
use thiserror::Error;

/// Why a value isn't written to the bytes of a report, which stay as they were (Section 5.8).
#[derive(Clone, Copy, Debug, PartialEq, Eq, Error)]
pub enum InsertError {
    /// The field has no such element, its bits are none or more than 32, they don't lie in the
    /// bytes, or they begin in the byte of the report's id.
    #[error("out of bounds")]
    OutOfBounds,

    /// The first byte isn't the id of the report that the field belongs to.
    #[error("the bytes are of another report")]
    MismatchingReportId,

    /// So many bits don't hold the value, signed or unsigned as the field is.
    #[error("the field's bits don't hold the value")]
    DoesNotFit,

    /// There are more or fewer values than the field has elements.
    #[error("the number of values isn't that of the field's elements")]
    WrongCount,
}
