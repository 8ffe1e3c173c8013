//! The fields, reports and input devices of a descriptor, as they are gone over.
ghost use Rattle.std.specs.Prelude.{◌≡◌, IfOk, map};
ghost use Rattle.hidreport_events.specs.Built.{is_input, is_read, numbers_in, numbers_of, read_numbers};
ghost use Rattle.hidreport_linux.specs.FieldOrder.{fields_in_order};

mod lamps;

use crate::errors::EventsError;
use crate::event_field::EventField;
use crate::event_report::EventReport;
use crate::lamp::Lamp;
use crate::multipliers::Multipliers;
use crate::sender::Sender;
use crate::source::Source;
use hidreport::{Direction, Usage};
use hidreport_linux::{
    Event, EventCode, EventType, InputDevices, Item, LinuxField, LinuxReading, Role, Unmapped,
};
use std::alloc::{AllocError, Global};

/// What is known of a descriptor so far.
#[derive(Drop)]
pub(crate) struct Building {
    alloc: Global,
    pub(crate) reports: Vec<EventReport>,
    pub(crate) fields: Vec<EventField>,
    pub(crate) sources: Vec<Source>,
    pub(crate) senders: Vec<Sender>,
    pub(crate) lamps: Vec<Lamp>,
    multipliers: Multipliers,
    devices: InputDevices,

    /// How many fields of input reports there are so far.
    field_count: usize,

    /// Whether an eraser alone says that the pen is turned.
    lacks_invert: bool,
}

impl Building {
    /// All that a reading says of input reports, and the lamps of output reports, if they have no
    /// more usages than a limit.
    pub(crate) fn of(
        alloc: Global,
        reading: &LinuxReading,
        limit: Option<usize>,
    ) -> Result<Building, EventsError>
        ensures { IfOk result (λ building. map numbers_in building.fields.items
            ≡ read_numbers (fields_in_order reading.now)) }
    {
        let fields = reading.fields(alloc)?;
        check_usages(&fields, limit)?;
        let mut building = Building::new(alloc, reading, &fields)?;
        let kept = building.add_fields(reading, &fields)?;
        building.end();
        building.add_padding(reading)?;
        building.fields = kept;
        Ok(building)
    }

    /// Goes over all fields: answers those of input reports.
    fn add_fields(
        &mut self,
        reading: &LinuxReading,
        fields: &[LinuxField],
    ) -> Result<Vec<EventField>, AllocError>
        ensures { IfOk result (λ kept. map numbers_in kept.items ≡ read_numbers fields.now) }
    {
        let mut kept = Vec::new(self.alloc);
        for field in fields {
            if is_read(field) {
                let own = self.add(reading, field)?;
                kept.push(own)?;
            } else if is_written(field) {
                self.add_lamps(reading, field)?;
            }
        }
        Ok(kept)
    }

    /// Before the first field.
    fn new(
        alloc: Global,
        reading: &LinuxReading,
        fields: &[LinuxField],
    ) -> Result<Building, AllocError> {
        let multipliers = Multipliers::of(alloc, reading, fields)?;
        Ok(Building {
            alloc,
            reports: Vec::new(alloc),
            fields: Vec::new(alloc),
            sources: Vec::new(alloc),
            senders: Vec::new(alloc),
            lamps: Vec::new(alloc),
            multipliers,
            devices: reading.input_devices(alloc),
            field_count: 0,
            lacks_invert: false,
        })
    }

    /// Adds a field of an input report: answers it.
    fn add(&mut self, reading: &LinuxReading, field: &LinuxField) -> Result<EventField, AllocError>
        ensures { IfOk result (λ own. numbers_in own ≡ numbers_of field.now) }
    {
        let item = self.devices.begin_field(field)?;
        self.add_sender()?;
        if field.is_first {
            self.begin_report(reading, field)?;
        }
        let first_source = self.sources.len();
        let is_relative = self.add_sources(reading, field, item)?;
        Ok(self.counted(field, first_source, is_relative))
    }

    /// Adds the input device that a report goes to, if it is a new one.
    fn add_sender(&mut self) -> Result<(), AllocError> {
        if self.devices.current() >= self.senders.len() {
            self.senders.push(Sender::new(self.alloc))?;
        }
        Ok(())
    }

    /// Begins a report.
    fn begin_report(
        &mut self,
        reading: &LinuxReading,
        field: &LinuxField,
    ) -> Result<(), AllocError> {
        let first_value = match self.reports.last() {
            Some(report) => report.first_value.saturating_add(report.values),
            None => 0,
        };
        let index = self.reports.len();
        self.reports.push(EventReport {
            id: field.report.id,
            bits: reading.bits_of(&field.report),
            index,
            device: self.devices.current(),
            first_field: self.field_count,
            fields: 0,
            first_value,
            values: 0,
        })?;
        Ok(())
    }

    /// Adds the sources of a field: those that it names, and the last once more for each element
    /// behind them. Whether the field is relative behind them.
    fn add_sources(
        &mut self,
        reading: &LinuxReading,
        field: &LinuxField,
        item: Item,
    ) -> Result<bool, AllocError> {
        let steps = self.multipliers.steps_in(reading, field.collection);
        let mut item = item;
        let mut last = 0;
        for usage in reading.usages(field) {
            last = u32::from(usage);
            self.add_source(&mut item, last, steps)?;
        }
        for _element in field.usages..field.count {
            self.add_source(&mut item, last, steps)?;
        }
        Ok(item.is_relative())
    }

    /// Adds a source.
    fn add_source(
        &mut self,
        item: &mut Item,
        usage: u32,
        multiplier: i32,
    ) -> Result<(), AllocError> {
        let answer = self.devices.event(item, Usage::from(usage));
        let event = self.noted(usage, answer);
        self.sources.push(Source {
            usage,
            event,
            multiplier,
        })?;
        Ok(())
    }

    /// The event of an answer, and what it says of its input device.
    fn noted(&mut self, usage: u32, answer: Result<Event, Unmapped>) -> Option<Event> {
        match answer {
            Ok(event) => {
                self.note(usage, event);
                Some(event)
            }
            Err(reason) => {
                if matches!(reason, Unmapped::PastCodes) {
                    self.note_keys();
                }
                None
            }
        }
    }

    /// That the input device of a report has keys.
    fn note_keys(&mut self) {
        if let Some(sender) = self.senders.get_mut(self.devices.current()) {
            sender.has_keys = true;
        }
    }

    /// What an event says of its input device.
    fn note(&mut self, usage: u32, event: Event) {
        let has_touch = matches!(event.role, Role::Pressure)
            && !self.devices.beside(&event).is_empty();
        let Some(sender) = self.senders.get_mut(event.device) else {
            return;
        };
        if has_touch {
            sender.has_keys = true;
        }
        if matches!(event.role, Role::Eraser) {
            self.lacks_invert = self.lacks_invert || !sender.has_rubber;
            sender.has_rubber = true;
        } else if event.code == EventCode::key(0x141) {
            self.lacks_invert = self.lacks_invert && usage / 0x1_0000 != 0x0d;
            sender.has_rubber = true;
        }
        sender.claim(event.code);
        for code in event.role.beside() {
            if !matches!(code.event_type, EventType::Key) {
                sender.claim(*code);
            }
        }
    }

    /// A field with the sources from one on, which its report counts.
    fn counted(&mut self, field: &LinuxField, first_source: usize, is_relative: bool) -> EventField
        ensures { numbers_in result ≡ numbers_of field.now }
    {
        self.field_count = self.field_count.saturating_add(1);
        EventField {
            first_bit: field.first_bit,
            size: field.size,
            count: field.count,
            is_variable: field.is_variable,
            is_relative,
            has_null_state: field.has_null_state,
            is_buffered: field.is_buffered,
            minimum: field.measures.minimum,
            maximum: field.measures.maximum,
            first_source,
            sources: self.sources.len().saturating_sub(first_source),
            first_value: self.first_value(field.count as usize),
        }
    }

    /// Where so many values of the next field begin, among those of its report, which counts them.
    fn first_value(&mut self, count: usize) -> usize {
        let Some(report) = self.reports.last_mut() else {
            return 0;
        };
        let first = report.values;
        report.values = report.values.saturating_add(count);
        report.fields = report.fields.saturating_add(1);
        first
    }

    /// What is known behind the last field alone: by how much axes tremble, and how a pen's tool is
    /// said.
    fn end(&mut self) {
        for source in &self.sources {
            let Some(event) = source.event else {
                continue;
            };
            let Some(axis) = self.devices.axis(&event) else {
                continue;
            };
            if let Some(sender) = self.senders.get_mut(event.device) {
                sender.set_fuzz(event.code.number, axis.fuzz);
            }
        }
        let (says_touch, lacks_invert) = (self.touches(), self.lacks_invert);
        for sender in &mut self.senders {
            sender.says_touch = says_touch;
            sender.lacks_invert = lacks_invert;
        }
    }

    /// Adds the input reports that have no field.
    fn add_padding(&mut self, reading: &LinuxReading) -> Result<(), AllocError> {
        for report in reading.reports() {
            let is_there = self.reports.iter().any(|one| one.id == report.id);
            if is_input(report.direction) && !is_there {
                let index = self.reports.len();
                self.reports.push(EventReport {
                    id: report.id,
                    bits: reading.bits_of(report),
                    index,
                    device: 0,
                    first_field: 0,
                    fields: 0,
                    first_value: 0,
                    values: 0,
                })?;
            }
        }
        Ok(())
    }

    /// Whether pressures say `BTN_TOUCH` in the end.
    fn touches(&self) -> bool {
        self.sources.iter().any(|source| match source.event {
            Some(event) => {
                matches!(event.role, Role::Pressure) && !self.devices.beside(&event).is_empty()
            }
            None => false,
        })
    }
}

/// Refuses fields that have more usages together than a limit.
fn check_usages(fields: &[LinuxField], limit: Option<usize>) -> Result<(), EventsError> {
    let mut usages = 0usize;
    for field in fields {
        if is_read(field) || is_written(field) {
            usages = usages.saturating_add(field.usages.max(field.count) as usize);
        }
    }
    match limit {
        Some(limit) if usages > limit => Err(EventsError::PastLimit { limit, usages }),
        _ => Ok(()),
    }
}

/// Whether hid-core reads a field of a report that comes in.
fn is_read(field: &LinuxField) -> bool
    ensures { result ≡ is_read field.now }
{
    is_input(field.report.direction) && !field.is_past
}

/// Whether hid-core writes a field of a report that goes out.
fn is_written(field: &LinuxField) -> bool {
    matches!(field.report.direction, Direction::Output) && !field.is_past
}

fn is_input(direction: Direction) -> bool
    ensures { result ≡ is_input direction }
{
    matches!(direction, Direction::Input)
}
