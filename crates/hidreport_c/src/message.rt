//! What is wrong with a descriptor, as text.
ghost use Rattle.hidreport_c.specs.Answer.{Lists, ListsBy};
ghost use Rattle.hidreport_c.specs.Message.{Says, items_message, parse_message, repair_message, words_of};
ghost use Rattle.hidreport_c.specs.Options.{options_of, reading_of};
ghost use Rattle.hidreport_c.specs.Repair.{repair_options_of};

use crate::answer::write_list;
use crate::status::{OUT_OF_MEMORY, UNKNOWN_OPTION};
use crate::structs::{HidreportAnswer, HidreportOptions};
use hidreport::hid::ReportDescriptorItems;
use hidreport::{ParserError, repair};
use std::alloc::Global;

/// What a descriptor is refused for by these options, in the words of `ParserError` without the
/// offset, as text in ASCII without a zero at its end; empty where it is accepted. Where memory is
/// refused the answer is 4, where an option says nothing 6, without a text.
#[unsafe(no_mangle)]
pub extern "C" fn hidreport_message(
    alloc: Global,
    descriptor: &[u8],
    options: HidreportOptions,
    text: &mut [u8],
) -> HidreportAnswer
    ensures { ListsBy (parse_message descriptor.now) (reading_of options) text.old text.new result }
{
    let Some(reading) = options.reading() else {
        return HidreportAnswer::refused(UNKNOWN_OPTION);
    };
    match reading.descriptor(alloc, descriptor) {
        Ok(_) => HidreportAnswer::counted(0),
        Err(error) => write_message(&error, text),
    }
}

/// What `hidreport_items` and `hidreport_rebuild` refuse bytes for, as text in ASCII without a zero
/// at its end; empty where these are items. It differs from `hidreport_message` where there are no
/// bytes, and where items have no meaning.
#[unsafe(no_mangle)]
pub extern "C" fn hidreport_items_message(
    alloc: Global,
    descriptor: &[u8],
    text: &mut [u8],
) -> HidreportAnswer
    ensures { Lists (items_message descriptor.now) text.old text.new result }
{
    match ReportDescriptorItems::try_from(alloc, descriptor) {
        Ok(_) => HidreportAnswer::counted(0),
        Err(error) => write_message(&error, text),
    }
}

/// What `hidreport_repair` and `hidreport_changes` refuse a descriptor for, as `hidreport_message`
/// says of the others; empty where it is repaired.
#[unsafe(no_mangle)]
pub extern "C" fn hidreport_repair_message(
    alloc: Global,
    descriptor: &[u8],
    options: HidreportOptions,
    mends: u32,
    text: &mut [u8],
) -> HidreportAnswer
    ensures { ListsBy (repair_message descriptor.now) (repair_options_of mends (options_of options))
        text.old text.new result }
{
    let Some(options) = options.for_repair(mends) else {
        return HidreportAnswer::refused(UNKNOWN_OPTION);
    };
    match repair(alloc, descriptor, options) {
        Ok(_) => HidreportAnswer::counted(0),
        Err(error) => write_message(&error, text),
    }
}

/// Writes the message of an error, or says that memory was refused.
fn write_message(error: &ParserError, text: &mut [u8]) -> HidreportAnswer
    ensures { Says (words_of error.now) text.old text.new result }
{
    match error {
        ParserError::InvalidData { message, .. } => write_list(message.as_bytes(), text),
        ParserError::OutOfBounds => write_list(b"out of bounds", text),
        ParserError::MismatchingReportId => write_list(b"the bytes are of another report", text),
        ParserError::OutOfMemory => HidreportAnswer::refused(OUT_OF_MEMORY),
        ParserError::BudgetExceeded { .. } => write_list(b"budget exceeded", text),
    }
}
