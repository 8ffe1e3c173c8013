//! What a repair changed.
ghost use Rattle.std.specs.Prelude.{◌≡◌};
ghost use Rattle.hidreport.specs.Repair.{change_view};
ghost use Rattle.hidreport_c.specs.Repair.{ListsOfRepair, change_as_c, changes_as_c, reason_of};

use crate::answer::refusal;
use crate::part::{Part, write};
use crate::status::UNKNOWN_OPTION;
use crate::structs::{HidreportAnswer, HidreportChange, HidreportOptions};
use hidreport::{Change, Reason, repair};
use std::alloc::Global;

impl Part for Change {
    type InC = HidreportChange;

    ghost in_c = { λ change. change_as_c (change_view change) };

    fn in_c(&self) -> HidreportChange {
        HidreportChange {
            offset: self.offset,
            stood: self.stood.len(),
            stands: self.stands.len(),
            reason: reason_of(self.reason),
        }
    }
}

/// The number of a reason.
fn reason_of(reason: Reason) -> u32
    ensures { result ≡ reason_of reason }
{
    match reason {
        Reason::NoData => 0,
        Reason::UnknownMainItem => 1,
        Reason::EndedLocal => 2,
        Reason::NoUsage => 3,
        Reason::UnsignedMaximum => 4,
        Reason::CutShort => 5,
    }
}

/// What `hidreport_repair` changes in a descriptor by the same options and mends, in the order of
/// the offsets; nothing where the descriptor stays as it is.
///
/// They are written and counted as `hidreport_describe` says, and refused as `hidreport_repair`
/// says.
#[unsafe(no_mangle)]
pub extern "C" fn hidreport_changes(
    alloc: Global,
    descriptor: &[u8],
    options: HidreportOptions,
    mends: u32,
    changes: &mut [HidreportChange],
) -> HidreportAnswer
    ensures { ListsOfRepair changes_as_c options mends descriptor.now changes.old changes.new
        result }
{
    let Some(options) = options.for_repair(mends) else {
        return HidreportAnswer::refused(UNKNOWN_OPTION);
    };
    match repair(alloc, descriptor, options) {
        Ok(repaired) => write(&repaired.changes, changes),
        Err(error) => refusal(&error),
    }
}
