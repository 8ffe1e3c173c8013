//! What C is told of a list, and how a descriptor is read for it.
ghost use Rattle.std.specs.Prelude.{◌≡◌, length};
ghost use Rattle.hidreport_c.specs.Answer.{IsRead, IsReadAs, IsReadListed, array_after, counted, error_as_c, refused};
ghost use Rattle.hidreport_c.specs.Options.{outline_by, reading_of};

use crate::status::{
    ACCEPTED, BUDGET_EXCEEDED, INVALID_DATA, MISMATCHING_REPORT_ID, OUT_OF_BOUNDS, OUT_OF_MEMORY,
    UNKNOWN_OPTION,
};
use crate::structs::{HidreportAnswer, HidreportOptions};
use hidreport::{Outline, ParserError, ReportDescriptor};
use std::alloc::Global;

impl HidreportAnswer {
    /// So many, and no refusal.
    pub(crate) fn counted(count: usize) -> HidreportAnswer
        ensures { result ≡ counted count }
    {
        HidreportAnswer {
            count,
            offset: 0,
            status: ACCEPTED,
        }
    }

    /// None, for a reason without a place.
    pub(crate) fn refused(status: u32) -> HidreportAnswer
        ensures { result ≡ refused status }
    {
        HidreportAnswer {
            count: 0,
            offset: 0,
            status,
        }
    }
}

/// The descriptor that bytes are, read by these options, or what C is told in its place.
pub(crate) fn read(
    alloc: Global,
    bytes: &[u8],
    options: HidreportOptions,
) -> Result<ReportDescriptor, HidreportAnswer>
    ensures { IsRead result (reading_of options) bytes.now }
{
    let Some(reading) = options.reading() else {
        return Err(HidreportAnswer::refused(UNKNOWN_OPTION));
    };
    match reading.descriptor(alloc, bytes) {
        Ok(descriptor) => Ok(descriptor),
        Err(error) => Err(refusal(&error)),
    }
}

/// The same descriptor with its fields in groups.
pub(crate) fn outline(
    alloc: Global,
    bytes: &[u8],
    options: HidreportOptions,
) -> Result<Outline, HidreportAnswer>
    ensures grouped { IsReadAs outline_by result (reading_of options) bytes.now }
    ensures listed { IsReadListed result (reading_of options) bytes.now }
{
    let Some(reading) = options.reading() else {
        return Err(HidreportAnswer::refused(UNKNOWN_OPTION));
    };
    match reading.outline(alloc, bytes) {
        Ok(outline) => Ok(outline),
        Err(error) => Err(refusal(&error)),
    }
}

/// A refusal as its number and its offset.
pub(crate) fn refusal(error: &ParserError) -> HidreportAnswer
    ensures { result ≡ error_as_c error.now }
{
    let (status, offset) = match error {
        ParserError::InvalidData { offset, .. } => (INVALID_DATA, *offset),
        ParserError::OutOfBounds => (OUT_OF_BOUNDS, 0),
        ParserError::MismatchingReportId => (MISMATCHING_REPORT_ID, 0),
        ParserError::OutOfMemory => (OUT_OF_MEMORY, 0),
        ParserError::BudgetExceeded { offset } => (BUDGET_EXCEEDED, *offset),
    };
    HidreportAnswer {
        count: 0,
        offset,
        status,
    }
}

/// Writes a list to an array, as much as there is room for.
pub(crate) fn write_list<T: Copy>(list: &[T], array: &mut [T]) -> HidreportAnswer
    ensures count { result ≡ counted (length list.now) }
    ensures written { array.new ≡ array_after list.now array.old }
{
    let count = list.len().min(array.len());
    array[..count].copy_from_slice(&list[..count]);
    HidreportAnswer::counted(list.len())
}
