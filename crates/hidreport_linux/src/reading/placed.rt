//! What is the matter with a descriptor for hid-core, and where.
use crate::reading::reasons::{DoubtReason, LeftOut, RefusalReason};
use hidreport::ParserError;
use std::alloc::Global;

/// That hid-core refuses a descriptor.
#[derive(Clone, Copy, Debug, PartialEq, Eq)]
pub struct Refusal {
    /// The offset of the first item that is refused, in bytes; behind the last where an end lacks.
    pub offset: usize,

    /// Why it is refused.
    pub reason: RefusalReason,
}

impl Refusal {
    ghost use Rattle.hidreport_lists.specs.Answer.{IsInvalidAt};
    ghost use Rattle.hidreport_linux.specs.CoreReasons.{refusal_text};

    /// The same as an error of a parser: invalid data at the item, in the reason's words; or
    /// `OutOfMemory` where memory for them is refused.
    pub(crate) fn error(self, alloc: Global) -> ParserError
        ensures { IsInvalidAt result self.offset (refusal_text self.reason) }
    {
        match String::from_str(alloc, self.reason.text()) {
            Ok(message) => ParserError::InvalidData {
                offset: self.offset,
                message,
            },
            Err(_refused) => ParserError::OutOfMemory,
        }
    }
}

/// That hid-core may read a descriptor otherwise.
#[derive(Clone, Copy, Debug, PartialEq, Eq)]
pub struct Doubt {
    /// The offset of the first item of which this is so, in bytes.
    pub offset: usize,

    /// Why.
    pub reason: DoubtReason,
}

/// That hid-core leaves something out of a descriptor that it takes.
#[derive(Clone, Copy, Debug, PartialEq, Eq)]
pub struct Omission {
    /// The offset of the first item of which this is so, in bytes.
    pub offset: usize,

    /// What is left out.
    pub what: LeftOut,
}
