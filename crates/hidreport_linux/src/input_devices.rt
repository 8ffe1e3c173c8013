//! The input devices of a descriptor.
ghost use Rattle.std.specs.Prelude.{◌≡◌, ℕ, List, [], ◌∷◌, ◌++◌, if◌then◌else◌, slice_get, Some};
ghost use Rattle.std.specs.List.{position_from};
ghost use Rattle.hidreport_linux.specs.Devices.{AnswersAt, answered_by, axis_at, event_of, is_switch, KeepsOthers, sets, StandsAt, takes};
ghost use Rattle.hidreport_linux.specs.declared.event_code.EventCode.{EventCode};
ghost use Rattle.hidreport_linux.specs.declared.wanted.Wanted.{Wanted};
ghost use Rattle.hidreport_linux.specs.Types.{is_input_application};

use crate::axis::Axis;
use crate::event::Event;
use crate::event_code::EventCode;
use crate::input_device::InputDevice;
use crate::item::Item;
use crate::unmapped::Unmapped;
use crate::wanted::{Role, Wanted};
use hidreport::{Direction, Group, Usage};
use std::alloc::{AllocError, Global};
use std::marker::Model;

/// The items of a report that hid-core keeps, at most.
const MOST_ITEMS: usize = 256;

/// The input devices that Linux makes of a descriptor, while its items are gone over in order:
/// the input reports, the output reports, then the feature reports.
#[derive(Drop)]
pub struct InputDevices {
    devices: Vec<InputDevice>,
    current: usize,
    items: usize,
    is_by_application: bool,
    unmapped: Option<Unmapped>,
    /// Whether pressures say `BTN_TOUCH`, since no switch does.
    says_touch: bool,
}

impl Model for InputDevices {
    ghost use Rattle.hidreport_linux.specs.DevicesRecord.{DevicesRecord};

    ghost Value = { DevicesRecord };

    ghost view = { λ d. record {
      devices = d.devices.items;
      current = d.current;
      items = d.items;
      is_by_application = d.is_by_application;
      unmapped = d.unmapped;
      says_touch = d.says_touch;
    } };
}

impl InputDevices {
    ghost use Rattle.std.specs.Prelude.{◌≡◌, nat_le, List, Ok, OnErr, OnOk, Some};
    ghost use Rattle.hidreport.specs.UsageNumber.{usage_number};
    ghost use Rattle.hidreport_linux.specs.Asking.{asked, item_of};
    ghost use Rattle.hidreport_linux.specs.Devices.{axis_behind, axis_in, answered, answered_by, behind, beside_in, current_device, device_for, Enters, GoesBehind, has_now, behind_item, no_devices, Stands, StaysAt, touch_after, touch_behind};
    ghost use Rattle.hidreport_linux.specs.declared.event.Event.{Event};
    ghost use Rattle.hidreport_linux.specs.declared.wanted.Wanted.{Wanted};

    /// Before the first report of a descriptor that has so many applications. Where something is
    /// the matter with all of it, no usage has an event.
    pub fn new(alloc: Global, applications: usize, unmapped: Option<Unmapped>) -> InputDevices
        ensures { result ≡ no_devices applications unmapped }
    {
        InputDevices {
            devices: Vec::new(alloc),
            current: 0,
            items: 0,
            is_by_application: applications > 1,
            unmapped,
            says_touch: false,
        }
    }

    /// Goes on to a report of this application: the usage of the innermost one around its first
    /// main item, 0 where there is none. `None` is a report without an item that names usages,
    /// which makes no device.
    ///
    /// # Errors
    ///
    /// - `AllocError`: memory for another input device is refused; the devices are as before.
    pub fn enter(&mut self, application: Option<u32>) -> Result<(), AllocError>
        ensures entered { OnOk result (Enters application self.old self.new) }
        ensures refused { OnErr result (self.new ≡ self.old) }
    {
        match application {
            Some(application) => self.enter_device(application),
            None => {
                self.items = 0;
                Ok(())
            }
        }
    }

    /// The same of a report that has a device: one that is there, or a new one.
    fn enter_device(&mut self, application: u32) -> Result<(), AllocError>
        ensures entered { OnOk result (Enters (Some application) self.old self.new) }
        ensures refused { OnErr result (self.new ≡ self.old) }
    {
        match self.device_for(application) {
            Some(index) => self.current = index,
            None => {
                let index = self.devices.len();
                self.devices.push(InputDevice::new(application))?;
                self.current = index;
            }
        }
        self.items = 0;
        Ok(())
    }

    /// The device that a report with this application goes to, if there is one yet.
    fn device_for(&self, application: u32) -> Option<usize>
        ensures { result ≡ device_for application self.now }
    {
        if self.is_by_application {
            return index_for(application, &self.devices);
        }
        if self.devices.is_empty() {
            None
        } else {
            Some(0)
        }
    }

    /// Goes on to an item of the report.
    pub fn begin(&mut self, direction: Direction, group: &Group) -> Item
        ensures item { result ≡ item_of direction group.now (nat_le 256 self.old.items) }
        ensures counted { self.new ≡ behind_item group.now self.old }
    {
        let is_past = self.items >= MOST_ITEMS;
        if group.usage(0).is_some() && !is_past {
            self.items += 1;
        }
        Item::new(direction, group, is_past)
    }

    /// The event of the next usage of an item.
    ///
    /// # Errors
    ///
    /// - `PastItems`, `PastUsages`: by the report and the item.
    /// - What `Wanted::of` refuses.
    /// - `Refused`, `NotKnown`, `NoInput`: by the descriptor.
    /// - `OtherDirection`, `Taken`, `PastCodes`: by the codes of the usages before it.
    pub fn event(&mut self, item: &mut Item, usage: Usage) -> Result<Event, Unmapped>
        ensures answer { result
            ≡ answered self.old (asked item.old self.old.unmapped (usage_number usage)) }
        ensures item { item.new ≡ behind result item.old }
        ensures behind { (before : List Wanted) → Stands self.old before → GoesBehind before
            (asked item.old self.old.unmapped (usage_number usage)) result self.old self.new }
        ensures stays { StaysAt self.old self.new }
        ensures touch { self.new.says_touch ≡ touch_after (usage_number usage)
            (asked item.old self.old.unmapped (usage_number usage)) self.old }
        ensures axes { (event : Event) → axis_in self.new event
            ≡ axis_behind item.old result self.old event }
    {
        let usage = u32::from(usage);
        let asked = item.ask(usage, self.unmapped);
        let answer = self.answer(item, usage, asked);
        item.count();
        if let Ok(event) = answer {
            item.pass(event.role);
        }
        answer
    }

    /// What a usage is answered by what it asks for.
    fn answer(
        &mut self,
        item: &Item,
        usage: u32,
        asked: Result<Wanted, Unmapped>,
    ) -> Result<Event, Unmapped>
        ensures answer { result ≡ answered self.old asked }
        ensures behind { (before : List Wanted) → Stands self.old before
            → GoesBehind before asked result self.old self.new }
        ensures stays { StaysAt self.old self.new }
        ensures touch { self.new.says_touch ≡ touch_after usage asked self.old }
        ensures axes { (event : Event) → axis_in self.new event
            ≡ axis_behind item.now result self.old event }
    {
        match asked {
            Ok(wanted) => self.give(item, usage, wanted),
            Err(reason) => Err(reason),
        }
    }

    /// Gives a usage the code that it asks for.
    fn give(&mut self, item: &Item, usage: u32, wanted: Wanted) -> Result<Event, Unmapped>
        ensures answer { result ≡ answered_by (current_device self.old) self.old.current wanted }
        ensures behind { (before : List Wanted) → Stands self.old before
            → GoesBehind before (Ok wanted) result self.old self.new }
        ensures stays { StaysAt self.old self.new }
        ensures touch { self.new.says_touch ≡ touch_behind usage wanted.role self.old }
        ensures axes { (event : Event) → axis_in self.new event
            ≡ axis_behind item.now result self.old event }
    {
        let says_touch = self.touch_behind(usage, wanted.role);
        let axis = item.axis(&wanted);
        let answer = give_at(&mut self.devices, self.current, wanted, axis);
        self.says_touch = says_touch;
        answer
    }

    /// Whether pressures say `BTN_TOUCH` behind a usage: from one on whose device has no such code,
    /// up to the next switch.
    fn touch_behind(&self, usage: u32, role: Role) -> bool
        ensures { result ≡ touch_behind usage role self.now }
    {
        if is_switch(usage) {
            return false;
        }
        if role.is_pressure() && !self.has(EventCode::key(0x14a)) {
            return true;
        }
        self.says_touch
    }

    /// Whether the device that the report goes to has a code.
    fn has(&self, code: EventCode) -> bool
        ensures { result ≡ has_now code self.now }
    {
        match self.devices.get(self.current) {
            Some(device) => device.has(code),
            None => false,
        }
    }

    /// The index of the device that the report goes to.
    pub fn current(&self) -> usize
        ensures { result ≡ self.now.current }
    {
        self.current
    }

    /// What the axis of an event says of itself, by the last usage so far that has it; `None` of a
    /// code that is no axis.
    pub fn axis(&self, event: &Event) -> Option<Axis>
        ensures { result ≡ axis_in self.now event.now }
    {
        match self.devices.get(event.device) {
            Some(device) => device.axis(event.code),
            None => None,
        }
    }

    /// The codes that the usage of an event also has: a pressure has `BTN_TOUCH` where no switch
    /// says it.
    pub fn beside(&self, event: &Event) -> &'static [EventCode]
        ensures { result.now ≡ beside_in self.now event.now.role }
    {
        if event.role.is_pressure() && !self.says_touch {
            return &[];
        }
        event.role.beside()
    }
}

/// Gives a usage the code that it asks for of the device at an index.
fn give_at(
    devices: &mut [InputDevice],
    index: usize,
    wanted: Wanted,
    axis: Axis,
) -> Result<Event, Unmapped>
    ensures answer { result ≡ answered_by (slice_get devices.old index) index wanted }
    ensures behind { (before : List Wanted) → StandsAt devices.old index before
        → AnswersAt devices.old index before wanted result
        × StandsAt devices.new index (before ++ wanted ∷ []) }
    ensures others { KeepsOthers index devices.old devices.new }
    ensures axes { (code : EventCode) (place : ℕ) → axis_at code place devices.new
        ≡ (if sets result code place then Some axis else axis_at code place devices.old) }
{
    if index >= devices.len() {
        return Err(Unmapped::NoInput);
    }
    let given = devices[index].give(wanted, axis);
    event_of(index, given)
}

/// The event of a usage that gets its code of a device.
fn event_of(device: usize, given: Result<Wanted, Unmapped>) -> Result<Event, Unmapped>
    ensures { result ≡ event_of device given }
{
    match given {
        Ok(wanted) => Ok(Event {
            code: wanted.code,
            role: wanted.role,
            device,
        }),
        Err(reason) => Err(reason),
    }
}

/// The first device that a report of an application goes to.
fn index_for(application: u32, devices: &[InputDevice]) -> Option<usize>
    ensures { result ≡ position_from (takes application) 0 devices.now }
{
    for (index, device) in devices.iter().enumerate() {
        if takes(application, device) {
            return Some(index);
        }
    }
    None
}

/// Whether a report of an application goes to a device.
fn takes(application: u32, device: &InputDevice) -> bool
    ensures { result ≡ takes application device.now }
{
    let goes_to_keyboard = application == 0x0001_0080 || application == 0x000c_0001;
    device.application == application || goes_to_keyboard && device.application == 0x0001_0006
}

/// Whether it is a usage of Digitizers that says whether the tip touches.
fn is_switch(usage: u32) -> bool
    ensures { result ≡ is_switch usage }
{
    let low = usage % 0x100;
    usage / 0x1_0000 == 0x0d && (low == 0x33 || low == 0x42 || low == 0x43)
}

/// Whether an application or a physical collection of this usage makes its descriptor one of an
/// input device.
pub fn is_input_application(usage: u32) -> bool
    ensures { result ≡ is_input_application usage }
{
    match usage {
        0x0001_0000..=0x0001_0008 | 0x0001_000c | 0x0001_0080 => true,
        0x000c_0001 | 0x000d_0001..=0x000d_0006 => true,
        _ => false,
    }
}
