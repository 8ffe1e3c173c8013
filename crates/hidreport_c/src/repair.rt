ghost use Rattle.hidreport_c.specs.Repair.{ListsOfRepair};

use crate::answer::{refusal, write_list};
use crate::status::UNKNOWN_OPTION;
use crate::structs::{HidreportAnswer, HidreportOptions};
use hidreport::repair;
use std::alloc::Global;

/// A descriptor that is read by these options, made of one that hosts accept, as
/// `hidreport::repair` makes it. `mends` says what is mended besides, as a sum: 1 leaves out an
/// item that is cut short, 2 writes a maximum without a sign where it was meant so; 0 is neither.
///
/// The bytes are written and counted as `hidreport_describe` says. Refused is the first fault that
/// stays, with its offset in the bytes that were given, and then nothing is written; nor is it
/// where memory is refused, which is 4, or where an option or `mends` says nothing, which is 6.
#[unsafe(no_mangle)]
pub extern "C" fn hidreport_repair(
    alloc: Global,
    descriptor: &[u8],
    options: HidreportOptions,
    mends: u32,
    bytes: &mut [u8],
) -> HidreportAnswer
    ensures { ListsOfRepair (λ repaired. repaired.bytes) options mends descriptor.now bytes.old
        bytes.new result }
{
    let Some(options) = options.for_repair(mends) else {
        return HidreportAnswer::refused(UNKNOWN_OPTION);
    };
    match repair(alloc, descriptor, options) {
        Ok(repaired) => write_list(&repaired.bytes, bytes),
        Err(error) => refusal(&error),
    }
}
