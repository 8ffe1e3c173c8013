//! Fields whose events aren't looked at.
ghost use Rattle.std.specs.Prelude.{◌≡◌, OnOk};
ghost use Rattle.hidreport_multitouch.specs.Passing.{PassesFields};

use super::DrivenDevices;
use crate::driven_item::DrivenItem;
use hidreport_linux::{FieldUsages, LinuxField, LinuxReading};
use std::alloc::AllocError;

impl DrivenDevices {
    ghost use Rattle.std.specs.Prelude.{◌≡◌, ℕ, List, ◌++◌, map, replicate};
    ghost use Rattle.hidreport_fields.specs.UsageNumber.{usage_number};
    ghost use Rattle.hidreport_linux.specs.FieldOrder.{usages_left};
    ghost use Rattle.hidreport_multitouch.specs.Passing.{GoesOverAll, last_of};
    ghost use Rattle.hidreport_multitouch.specs.declared.driven_devices.DrivenDevices.{DrivenDevices};

    /// Goes over usages of an item, one after the other, and answers the last; 0 where there is none.
    pub(super) fn pass_usages(&mut self, item: &mut DrivenItem, usages: FieldUsages<'_>) -> u32
        ensures passed { (more : List ℕ) (end : DrivenDevices)
            → GoesOverAll item.new more self.new end
            → GoesOverAll item.old (map usage_number
            (usages_left usages.entry.number usages.entry.more usages.entry.named.now) ++ more)
            self.old end }
        ensures last { result ≡ last_of 0 (map usage_number
            (usages_left usages.entry.number usages.entry.more usages.entry.named.now)) }
        ensures facts { self.new.facts ≡ self.old.facts }
    {
        let mut last = 0;
        for usage in usages {
            last = u32::from(usage);
            let _answer = self.event_of(item, last);
        }
        last
    }

    /// Goes over a usage of an item so many times.
    pub(super) fn pass_again(&mut self, item: DrivenItem, usage: u32, count: u32)
        ensures { GoesOverAll item (replicate count usage) self.old self.new }
    {
        let mut item = item;
        for _element in 0..count {
            let _answer = self.event_of(&mut item, usage);
        }
    }
}

/// Goes over fields, one after the other.
pub(super) fn pass_fields(
    reading: &LinuxReading,
    fields: &[LinuxField],
    devices: &mut DrivenDevices,
) -> Result<(), AllocError>
    ensures { OnOk result (PassesFields reading.now fields.now devices.old devices.new) }
{
    for field in fields {
        devices.pass_field(reading, field)?;
    }
    Ok(())
}
