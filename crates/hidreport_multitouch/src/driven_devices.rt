//! The input devices of a descriptor, by the driver that takes it.
mod beside;
mod entering;
mod others;
mod passing;
mod touching;

ghost use Rattle.std.specs.Prelude.{◌≡◌};
ghost use Rattle.hidreport_multitouch.specs.Fields.{first_inputs, is_touched};

use crate::driven_devices::passing::pass_fields;
use crate::driven_event::DrivenEvent;
use crate::driven_item::DrivenItem;
use crate::silent::Silent;
use crate::touch_class::TouchClass;
use crate::touch_facts::TouchFacts;
use crate::touched::{TouchApplication, Touched};
use hidreport::{Direction, Group, Usage};
use hidreport_linux::{Driver, InputDevices, LinuxField, LinuxReading};
use std::alloc::{AllocError, Global};

/// The input devices that Linux makes of a descriptor by the driver that takes it, while its fields
/// are gone over in order.
#[derive(Drop)]
pub struct DrivenDevices {
    alloc: Global,

    /// What hid-multitouch asks of the descriptor, where it takes the device.
    facts: Option<TouchFacts>,

    /// The input devices of hid-input: one for all, or one for each of `ids`.
    inputs: Vec<InputDevices>,

    /// The report ids that have an input device each.
    ids: Vec<u32>,

    /// The application of each input device where each has its own, as hid-multitouch names it.
    names: Vec<u32>,

    /// The input device of the current report.
    current: usize,

    /// What is registered for each input device, where hid-multitouch takes the device.
    touched: Vec<Touched>,

    applications: Vec<TouchApplication>,
}

impl DrivenDevices {
    ghost use Rattle.std.specs.Prelude.{◌≡◌, IfOk, None, OnOk, nat_le, slice_get};
    ghost use Rattle.hidreport.specs.UsageNumber.{usage_number};
    ghost use Rattle.hidreport_linux.specs.Asking.{item_of};
    ghost use Rattle.hidreport_linux.specs.FieldDevices.{item_at};
    ghost use Rattle.hidreport_multitouch.specs.Driven.{class_of, driven_answer, inputs_at, is_by_id};
    ghost use Rattle.hidreport_multitouch.specs.Passing.{GoesBy, item_behind, PassesAll, PassesField};
    ghost use Rattle.hidreport_multitouch.specs.Fields.{BeginsField, Counts, IsBefore, items_in, touch_item_for};

    /// Before the first field of a descriptor.
    ///
    /// # Errors
    ///
    /// - `AllocError`: memory is refused.
    pub fn new(alloc: Global, reading: &LinuxReading) -> Result<DrivenDevices, AllocError>
        ensures { IfOk result (λ devices. IsBefore reading.now devices) }
    {
        let mut inputs = Vec::new(alloc);
        inputs.push(first_inputs(alloc, reading))?;
        let facts = if is_touched(reading) {
            let fields = reading.fields(alloc)?;
            Some(TouchFacts::of(alloc, reading, &fields)?)
        } else {
            None
        };
        Ok(DrivenDevices {
            alloc,
            facts,
            inputs,
            ids: Vec::new(alloc),
            names: Vec::new(alloc),
            current: 0,
            touched: Vec::new(alloc),
            applications: Vec::new(alloc),
        })
    }

    /// The same behind all usages: what the axes and the codes beside an event are in the end.
    ///
    /// # Errors
    ///
    /// - `AllocError`: memory is refused.
    pub fn behind(alloc: Global, reading: &LinuxReading) -> Result<DrivenDevices, AllocError>
        ensures { IfOk result (λ devices. PassesAll reading.now devices) }
    {
        let mut devices = DrivenDevices::new(alloc, reading)?;
        let fields = reading.fields(alloc)?;
        pass_fields(reading, &fields, &mut devices)?;
        Ok(devices)
    }

    /// Goes over the usages of a field whose events aren't looked at: the last usage once more for
    /// each element behind them.
    ///
    /// # Errors
    ///
    /// - `AllocError`: memory for another input device is refused.
    pub fn pass_field(
        &mut self,
        reading: &LinuxReading,
        field: &LinuxField,
    ) -> Result<(), AllocError>
        ensures { OnOk result (PassesField reading.now field.now self.old self.new) }
    {
        let mut item = self.begin_field(field)?;
        let last = self.pass_usages(&mut item, reading.usages(field));
        if self.facts.is_some() {
            self.pass_again(item, last, field.count.saturating_sub(field.usages));
        }
        Ok(())
    }

    /// Goes on to a field, of those that `LinuxReading::fields` has in order.
    ///
    /// # Errors
    ///
    /// - `AllocError`: memory for another input device is refused.
    pub fn begin_field(&mut self, field: &LinuxField) -> Result<DrivenItem, AllocError>
        ensures item { IfOk result (λ item. item.item ≡ item_at field.now) }
        ensures touch { IfOk result (λ item. item.touch
            ≡ touch_item_for self.old.facts field.now self.old.applications.items) }
        ensures devices { OnOk result (BeginsField field.now self.old self.new) }
    {
        self.find_report(field)?;
        let item = self.enter_inputs(field)?;
        self.name_inputs(field)?;
        let touch = self.touch_item(field)?;
        Ok(DrivenItem { item, touch })
    }

    /// Goes on to an item of a report that is known by its group alone, whose usages are hid-input's.
    pub fn begin(&mut self, direction: Direction, group: &Group) -> DrivenItem
        ensures item { result.item ≡ item_of direction group.now
            (nat_le 256 (items_in (slice_get self.old.inputs.items (inputs_at self.old)))) }
        ensures touch { result.touch ≡ None }
        ensures counted { Counts group.now (inputs_at self.old)
            self.old.inputs.items self.new.inputs.items }
        ensures rest { self.new ≡ record self.old { inputs = self.new.inputs } }
    {
        let index = self.current_inputs();
        let item = match self.inputs.get_mut(index) {
            Some(inputs) => inputs.begin(direction, group),
            None => InputDevices::new(self.alloc, 0, None).begin(direction, group),
        };
        DrivenItem { item, touch: None }
    }

    /// The event of the next usage of an item.
    ///
    /// # Errors
    ///
    /// - `Unmapped`: what hid-input says of it, or the descriptor.
    /// - `Application`, `Ignored`, `Read`: what hid-multitouch says.
    pub fn event(&mut self, item: &mut DrivenItem, usage: Usage) -> Result<DrivenEvent, Silent>
        ensures answer { result ≡ driven_answer self.old item.old (usage_number usage) }
        ensures item { item.new ≡ item_behind self.old item.old (usage_number usage) }
        ensures behind { GoesBy item.old (usage_number usage) self.old self.new }
    {
        self.event_of(item, u32::from(usage))
    }

    /// The same of a usage by its number.
    #[tactic(auto, unfolding(crate::specs::Driven::driven_answer))]
    fn event_of(&mut self, item: &mut DrivenItem, usage: u32) -> Result<DrivenEvent, Silent>
        ensures answer { result ≡ driven_answer self.old item.old usage }
        ensures item { item.new ≡ item_behind self.old item.old usage }
        ensures behind { GoesBy item.old usage self.old self.new }
    {
        let Some(touch) = item.touch else {
            return self.hid_input_event(&mut item.item, usage);
        };
        item.touch = Some(touch.behind(usage));
        if let Some(reason) = touch.unasked(usage) {
            return Err(Silent::Unmapped(reason));
        }
        if !self.class().takes_application(touch.place.application) {
            return Err(Silent::Application);
        }
        match touch.application {
            Some(application) => self.touch_event(&touch, application, usage),
            None => self.other_event(&mut item.item, &touch, usage),
        }
    }

    /// How hid-multitouch takes the device.
    fn class(&self) -> TouchClass
        ensures { result ≡ class_of self.now.facts }
    {
        match &self.facts {
            Some(facts) => facts.class(),
            None => TouchClass::Windows8,
        }
    }

    /// Whether each report id has its input device.
    fn is_by_id(&self) -> bool
        ensures { result ≡ is_by_id self.now }
    {
        !self.class().is_windows_8()
    }

    /// Where the input devices of hid-input are that the report goes to.
    fn current_inputs(&self) -> usize
        ensures { result ≡ inputs_at self.now }
    {
        if self.is_by_id() { self.current } else { 0 }
    }
}

/// Whether hid-multitouch takes a device whose usages may have events.
fn is_touched(reading: &LinuxReading) -> bool
    ensures { result ≡ is_touched reading.now }
{
    matches!(reading.driver(), Some(Driver::Multitouch)) && reading.unmapped().is_none()
}

/// The input devices of hid-input before the first report: hid-sensor-hub has a single one.
fn first_inputs(alloc: Global, reading: &LinuxReading) -> InputDevices
    ensures { result ≡ first_inputs reading.now.driver reading.now }
{
    match reading.driver() {
        Some(Driver::SensorHub) => InputDevices::new(alloc, 1, reading.unmapped()),
        _ => reading.input_devices(alloc),
    }
}
