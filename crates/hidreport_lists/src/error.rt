//! The errors of calls that read descriptors or reports.
ghost use Rattle.std.specs.Prelude.{◌≡◌};
ghost use Rattle.hidreport_lists.specs.declared.error.ParserError.TheVariants.{OutOfMemory};

use std::alloc::{AllocError, AllocFailed};
use thiserror::Error;

/// Why a report descriptor, or the bytes of a report, can't be read.
#[derive(Debug, Drop, Error)]
pub enum ParserError {
    /// An item can't be read, or has no meaning where it stands.
    #[error("invalid data at offset {offset}: {message}")]
    InvalidData {
        /// The offset of the item's first byte, counted in bytes from 0.
        offset: usize,
        /// What is wrong with it.
        message: String,
    },

    /// A report's end or a count passes what can be counted; or a field lies outside the bytes, or
    /// its values have no bits or more than 32.
    #[error("out of bounds")]
    OutOfBounds,

    /// The first byte isn't the id of the report that the field belongs to.
    #[error("the bytes are of another report")]
    MismatchingReportId,

    /// Memory was refused; this says nothing of the bytes.
    #[error("out of memory")]
    OutOfMemory,

    /// A limit was passed: with this item more would be listed than `limit`, or the descriptor has
    /// more bytes than `longest`.
    #[error("budget exceeded at offset {offset}")]
    BudgetExceeded {
        /// The offset of the item's first byte, counted in bytes from 0; or the number `longest`.
        offset: usize,
    },
}

impl From<AllocError> for ParserError {
    ghost from_gives = { λ _ error. error ≡ OutOfMemory };

    fn from(_refused: AllocError) -> ParserError {
        ParserError::OutOfMemory
    }
}

impl<T: Drop> From<AllocFailed<T>> for ParserError {
    ghost from_gives = { λ _ error. error ≡ OutOfMemory };

    fn from(_refused: AllocFailed<T>) -> ParserError {
        ParserError::OutOfMemory
    }
}
