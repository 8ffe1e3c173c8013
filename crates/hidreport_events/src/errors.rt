//! Why a report has no events.
ghost use Rattle.std.specs.Prelude.{◌≡◌};
ghost use Rattle.hidreport_events.specs.declared.errors.EventsError.TheVariants.{OutOfMemory};

use hidreport_linux::Driver;
use std::alloc::AllocError;
use thiserror::Error;

/// Why the events of a report, or of a device, aren't known.
#[derive(Debug, Drop, PartialEq, Eq, Error)]
pub enum EventsError {
    /// Linux refuses the descriptor, or may read it otherwise (`LinuxReading::doubt`).
    #[error("it isn't known how Linux reads the descriptor")]
    NotKnown,

    /// Another driver than hid-generic takes the device, and has events of its own.
    #[error("{} takes the device and has events of its own", driver.name())]
    OtherDriver {
        /// The driver.
        driver: Driver,
    },

    /// The input and output reports have more usages together than the limit, at least one for each
    /// element.
    #[error("its input and output reports have {usages} usages, more than {limit}")]
    PastLimit {
        /// The limit.
        limit: usize,
        /// How many usages they have.
        usages: usize,
    },

    /// Linux leaves the report: it has no bytes, or no input report of the device has its id.
    #[error("no input report has this id")]
    NoReport,

    /// Linux leaves the report: it has fewer bytes than it should.
    #[error("the report has {given} bytes, but should have {wanted}")]
    TooShort {
        /// How many bytes it should have, with the id.
        wanted: usize,
        /// How many bytes it has.
        given: usize,
    },

    /// The report turns the volume by more steps than are said one by one.
    #[error("the volume is turned by more than {most} steps")]
    TooManySteps {
        /// How many steps there may be.
        most: u32,
    },

    /// There is no such input device, or it has no lamp with this number.
    #[error("no such input device has this lamp")]
    NoLamp,

    /// Memory was refused at a report before, so that it isn't known what the device holds.
    #[error("memory was refused at a report before")]
    Lost,

    /// Memory is refused; this says nothing of the bytes.
    #[error("out of memory")]
    OutOfMemory,
}

impl From<AllocError> for EventsError {
    ghost from_gives = { λ _ error. error ≡ OutOfMemory };

    fn from(_refused: AllocError) -> EventsError {
        EventsError::OutOfMemory
    }
}
