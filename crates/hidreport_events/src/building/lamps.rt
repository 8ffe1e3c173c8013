//! The lamps of a descriptor's output reports.
use crate::building::Building;
use crate::lamp::Lamp;
use hidreport::Usage;
use hidreport_linux::{EventType, Item, LinuxField, LinuxReading};
use std::alloc::AllocError;

impl Building {
    /// Adds the lamps of a field of an output report: those that its usages name, and the last once
    /// more for each element behind them.
    pub(super) fn add_lamps(
        &mut self,
        reading: &LinuxReading,
        field: &LinuxField,
    ) -> Result<(), AllocError> {
        let mut item = self.devices.begin_field(field)?;
        self.add_sender()?;
        let mut lamp = lamp_of(reading, field);
        let mut last = 0;
        let mut element = 0u32;
        for usage in reading.usages(field) {
            last = u32::from(usage);
            place(&mut lamp, field, element);
            self.add_lamp(&mut item, last, lamp)?;
            element = element.saturating_add(1);
        }
        for element in field.usages..field.count {
            place(&mut lamp, field, element);
            self.add_lamp(&mut item, last, lamp)?;
        }
        Ok(())
    }

    /// Adds a lamp, if a usage means one.
    fn add_lamp(&mut self, item: &mut Item, usage: u32, lamp: Lamp) -> Result<(), AllocError> {
        let Ok(event) = self.devices.event(item, Usage::from(usage)) else {
            return Ok(());
        };
        if !matches!(event.code.event_type, EventType::Led) {
            return Ok(());
        }
        if let Some(sender) = self.senders.get_mut(event.device) {
            sender.claim(event.code);
        }
        let mut lamp = lamp;
        lamp.number = event.code.number;
        self.lamps.push(lamp)?;
        Ok(())
    }
}

/// What the lamps of a field have in common.
fn lamp_of(reading: &LinuxReading, field: &LinuxField) -> Lamp {
    Lamp {
        number: 0,
        id: field.report.id,
        bits: reading.bits_of(&field.report),
        has_place: false,
        first_bit: field.first_bit,
        size: field.size,
        is_signed: field.measures.minimum < 0,
        value: 0,
    }
}

/// Where an element of a field lies, if it has one.
fn place(lamp: &mut Lamp, field: &LinuxField, element: u32) {
    lamp.has_place = element < field.count;
    lamp.first_bit = field
        .first_bit
        .saturating_add(element.saturating_mul(field.size));
}
