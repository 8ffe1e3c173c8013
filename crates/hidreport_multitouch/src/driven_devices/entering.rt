//! The input devices that the fields of a report go to.
ghost use Rattle.std.specs.Prelude.{◌≡◌, slice_get};
ghost use Rattle.hidreport_multitouch.specs.Fields.{begins_report, current_in, id_in, name_for};

use super::DrivenDevices;
use hidreport::Direction;
use hidreport_linux::{InputDevices, Item, LinuxField};
use std::alloc::AllocError;

/// The application by which hid-input knows the first device of a device that hid-multitouch takes.
const FIRST_NAME: u32 = 0xffff_0000;

impl DrivenDevices {
    ghost use Rattle.std.specs.Prelude.{◌≡◌, IfOk, OnOk};
    ghost use Rattle.hidreport_linux.specs.FieldDevices.{item_at};
    ghost use Rattle.hidreport_multitouch.specs.Driven.{inputs_at};
    ghost use Rattle.hidreport_multitouch.specs.Fields.{application_for, current_at, current_behind, current_for, device_of, EntersAt, ids_at, ids_for, inputs_list_at, inputs_with, names_behind};

    /// Goes on to the input device of a field's report, where each report id has its own.
    pub(super) fn find_report(&mut self, field: &LinuxField) -> Result<(), AllocError>
        ensures current { OnOk result (self.new.current ≡ current_at field.now self.old) }
        ensures ids { OnOk result (self.new.ids.items ≡ ids_at field.now self.old) }
        ensures inputs { OnOk result (self.new.inputs.items ≡ inputs_list_at field.now self.old) }
        ensures rest { self.new ≡ record self.old {
          current = self.new.current;
          ids = self.new.ids;
          inputs = self.new.inputs;
        } }
    {
        if begins_report(field) {
            self.find_inputs(field.report.id)?;
        }
        Ok(())
    }

    /// Goes on to a field in the devices of hid-input.
    pub(super) fn enter_inputs(&mut self, field: &LinuxField) -> Result<Item, AllocError>
        ensures item { IfOk result (λ item. item ≡ item_at field.now) }
        ensures inputs { OnOk result (EntersAt field.now.is_first
            (application_for self.old field.now.report.application) (inputs_at self.old)
            self.old.inputs.items self.new.inputs.items) }
        ensures rest { self.new ≡ record self.old { inputs = self.new.inputs } }
    {
        let index = self.current_inputs();
        let named = self.named(field);
        match self.inputs.get_mut(index) {
            Some(inputs) => inputs.begin_field(&named),
            None => Err(AllocError),
        }
    }

    /// Goes on to the input device that hid-input has for a field's report, where no report id has
    /// its own; a new one is named by its application.
    pub(super) fn name_inputs(&mut self, field: &LinuxField) -> Result<(), AllocError>
        ensures current { OnOk result (self.new.current
            ≡ current_behind field.now self.old.inputs.items self.old) }
        ensures names { OnOk result (self.new.names.items
            ≡ names_behind field.now self.new.current self.old) }
        ensures rest { self.new ≡ record self.old {
          current = self.new.current;
          names = self.new.names;
        } }
    {
        if !begins_report(field) || self.is_by_id() {
            return Ok(());
        }
        self.current = current_in(&self.inputs);
        if self.current == self.names.len() {
            self.names.push(field.report.application)?;
        }
        Ok(())
    }

    /// Goes on to the input device of a report id, where each has its own.
    fn find_inputs(&mut self, id: u32) -> Result<(), AllocError>
        ensures current { OnOk result (self.new.current ≡ current_for id self.old) }
        ensures ids { OnOk result (self.new.ids.items ≡ ids_for id self.old) }
        ensures inputs { OnOk result (self.new.inputs.items ≡ inputs_with id self.old) }
        ensures rest { self.new ≡ record self.old {
          current = self.new.current;
          ids = self.new.ids;
          inputs = self.new.inputs;
        } }
    {
        if !self.is_by_id() {
            return Ok(());
        }
        if let Some(index) = id_in(id, &self.ids) {
            self.current = index;
            return Ok(());
        }
        self.current = self.ids.len();
        self.ids.push(id)?;
        if self.inputs.len() < self.ids.len() {
            let inputs = InputDevices::new(self.alloc, 1, None);
            self.inputs.push(inputs)?;
        }
        Ok(())
    }

    /// A field whose report has the application by which hid-input knows its device, where
    /// hid-multitouch may name devices anew: a number for each.
    fn named(&self, field: &LinuxField) -> LinuxField
        ensures { result ≡ record field.now {
          report = record field.now.report {
            application = application_for self.now field.now.report.application;
          };
        } }
    {
        let mut named = *field;
        if self.facts.is_some() {
            let index = self.device_of(field.report.application);
            named.report.application = FIRST_NAME.saturating_add((index % 0x1_0000) as u32);
        }
        named
    }

    /// The input device of an application where each has its own; behind all where there is none
    /// yet.
    fn device_of(&self, application: u32) -> usize
        ensures { result ≡ device_of application self.now.names.items }
    {
        name_for(application, &self.names).unwrap_or(self.names.len())
    }
}

/// Whether it is the first field of a report whose usages may have events.
fn begins_report(field: &LinuxField) -> bool
    ensures { result ≡ begins_report field.now }
{
    field.is_first && !matches!(field.report.direction, Direction::Feature)
}

/// The device that the report goes to, of those of hid-input.
fn current_in(inputs: &[InputDevices]) -> usize
    ensures { result ≡ current_in (slice_get inputs.now 0) }
{
    match inputs.first() {
        Some(inputs) => inputs.current(),
        None => 0,
    }
}

/// Where a report id stands among these, if it does.
fn id_in(id: u32, ids: &[u32]) -> Option<usize>
    ensures { result ≡ id_in id ids.now }
{
    for (index, one) in ids.iter().enumerate() {
        if *one == id {
            return Some(index);
        }
    }
    None
}

/// The first of these names that an application goes to: its own, or that of a Keyboard for System
/// Control and Consumer Control.
fn name_for(application: u32, names: &[u32]) -> Option<usize>
    ensures { result ≡ name_for application names.now }
{
    let is_of_keys = application == 0x0001_0080 || application == 0x000c_0001;
    for (index, name) in names.iter().enumerate() {
        if *name == application || is_of_keys && *name == 0x0001_0006 {
            return Some(index);
        }
    }
    None
}
