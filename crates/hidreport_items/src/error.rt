//! The errors of calls that read or write items.
ghost use Rattle.std.specs.Prelude.{◌≡◌};
ghost use Rattle.hidreport_items.specs.declared.error.HidError.TheVariants.{OutOfMemory};

use std::alloc::{AllocError, AllocFailed};
use thiserror::Error;

/// Why bytes spell no item (Section 6.2.2.2), or why items have no bytes.
#[derive(Debug, Drop, Error)]
pub enum HidError {
    /// The bytes are there and spell no item; the message says why.
    #[error("not an item: {message}")]
    InvalidData {
        /// What is wrong with the bytes.
        message: String,
    },

    /// There are fewer bytes than the item needs, or an item that has no bytes was to be written.
    #[error("the item needs more bytes")]
    InsufficientData,

    /// Memory was refused; this says nothing of the bytes.
    #[error("out of memory")]
    OutOfMemory,
}

impl From<AllocError> for HidError {
    ghost from_gives = { λ _ error. error ≡ OutOfMemory };

    fn from(_refused: AllocError) -> HidError {
        HidError::OutOfMemory
    }
}

impl<T: Drop> From<AllocFailed<T>> for HidError {
    ghost from_gives = { λ _ error. error ≡ OutOfMemory };

    fn from(_refused: AllocFailed<T>) -> HidError {
        HidError::OutOfMemory
    }
}
