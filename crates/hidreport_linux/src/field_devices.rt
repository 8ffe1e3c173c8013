//! The input devices of a descriptor, field by field.
ghost use Rattle.std.specs.Prelude.{OnOk};
ghost use Rattle.hidreport_linux.specs.FieldDevices.{GoesOver, PassesFields};
ghost use Rattle.hidreport_linux.specs.FieldOrder.{usages_left};

use crate::input_devices::InputDevices;
use crate::item::Item;
use crate::linux_field::LinuxField;
use crate::reading::LinuxReading;
use crate::reading::field_usages::FieldUsages;
use std::alloc::{AllocError, Global};

impl InputDevices {
    ghost use Rattle.std.specs.Prelude.{◌≡◌, IfOk, OnErr, OnOk};
    ghost use Rattle.hidreport_linux.specs.FieldDevices.{EntersIf, item_at};

    /// Goes on to a field, of those that `LinuxReading::fields` has in order: the first of a report
    /// goes to the report's device, too.
    ///
    /// # Errors
    ///
    /// - `AllocError`: memory for another input device is refused; the devices are as before.
    pub fn begin_field(&mut self, field: &LinuxField) -> Result<Item, AllocError>
        ensures item { IfOk result (λ item. item ≡ item_at field.now) }
        ensures entered { OnOk result
            (EntersIf field.now.is_first field.now.report.application self.old self.new) }
        ensures refused { OnErr result (self.new ≡ self.old) }
    {
        if field.is_first {
            self.enter(Some(field.report.application))?;
        }
        Ok(Item::at(field))
    }
}

impl LinuxReading {
    ghost use Rattle.std.specs.Prelude.{◌≡◌, IfOk, OnErr, OnOk};
    ghost use Rattle.hidreport_linux.specs.CoreReading.{unmapped_in};
    ghost use Rattle.hidreport_linux.specs.Devices.{no_devices};
    ghost use Rattle.hidreport_linux.specs.FieldDevices.{PassesField, PassesFields};
    ghost use Rattle.hidreport_linux.specs.FieldOrder.{fields_in_order};

    /// The input devices that Linux makes of the descriptor, behind all usages: what the axes and
    /// the codes beside an event are in the end.
    ///
    /// # Errors
    ///
    /// - `AllocError`: memory for the fields or an input device is refused.
    pub fn input_devices_behind(&self, alloc: Global) -> Result<InputDevices, AllocError>
        ensures { IfOk result (λ devices. PassesFields self.now (fields_in_order self.now)
            (no_devices self.now.applications (unmapped_in self.now)) devices) }
    {
        let mut devices = self.input_devices(alloc);
        let fields = self.fields(alloc)?;
        pass_fields(self, &fields, &mut devices)?;
        Ok(devices)
    }

    /// Goes over the usages of a field whose events aren't looked at.
    ///
    /// # Errors
    ///
    /// - `AllocError`: memory for another input device is refused; the devices are as before.
    pub fn pass_field(
        &self,
        field: &LinuxField,
        devices: &mut InputDevices,
    ) -> Result<(), AllocError>
        ensures passed { OnOk result (PassesField self.now field.now devices.old devices.new) }
        ensures refused { OnErr result (devices.new ≡ devices.old) }
    {
        let item = devices.begin_field(field)?;
        pass_usages(devices, item, self.usages(field));
        Ok(())
    }
}

/// Goes over fields, one after the other.
fn pass_fields(
    reading: &LinuxReading,
    fields: &[LinuxField],
    devices: &mut InputDevices,
) -> Result<(), AllocError>
    ensures { OnOk result (PassesFields reading.now fields.now devices.old devices.new) }
{
    for field in fields {
        reading.pass_field(field, devices)?;
    }
    Ok(())
}

/// Goes over usages of an item, one after the other.
fn pass_usages(devices: &mut InputDevices, item: Item, usages: FieldUsages<'_>)
    ensures { GoesOver item
        (usages_left usages.entry.number usages.entry.more usages.entry.named.now)
        devices.old devices.new }
{
    let mut item = item;
    for usage in usages {
        let _answer = devices.event(&mut item, usage);
    }
}
