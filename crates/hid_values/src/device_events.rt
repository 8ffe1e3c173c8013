//! The input events that Linux sends for the reports of each device of an input.
use crate::event_lines::add_event_lines;
use crate::event_object::add_events_object;
use anyhow::{Context, Result, anyhow};
use hid_given::{Device, Given};
use hid_input::settings::Settings;
use hid_objects::value_object::Sent;
use hid_report::tell_size;
use hid_words::plural;
use hidreport::{Direction, ReportDescriptor};
use hidreport_events::{EventReader, EventsError};
use hidreport_linux::{InputDevices, LinuxField, LinuxReading};
use std::alloc::{AllocError, Global};

/// The events of a device, report after report.
#[derive(Drop)]
pub struct DeviceEvents {
    reader: EventReader,
    /// Whether its reports have an id.
    has_ids: bool,
    /// Whether several of its input devices send events.
    has_several: bool,
    /// How many usages its input and output reports have.
    usages: usize,
    is_json: bool,
    has_notes: bool,
}

/// Why the events of a report aren't shown.
#[derive(Drop)]
pub enum Left {
    /// The descriptor has no such report.
    Unknown,

    /// What these words say.
    Refused(String),
}

impl DeviceEvents {
    /// Appends the events of a report, or answers why they aren't shown.
    ///
    /// # Errors
    ///
    /// - it isn't for the report that they aren't.
    pub fn add<R: AllocGlobal + Eprint>(
        &mut self,
        rt: &R,
        text: &mut String,
        descriptor: &ReportDescriptor,
        bytes: &[u8],
        sent: Sent,
    ) -> Result<Option<Left>> {
        let events = match self.reader.read(rt.alloc(), bytes) {
            Ok(events) => events,
            Err(error) => return Ok(Some(why_left(rt.alloc(), error)?)),
        };
        if self.has_notes {
            tell_rest(rt, descriptor, bytes)?;
        }
        if self.is_json {
            let id = bytes.first().copied().filter(|_first| self.has_ids);
            add_events_object(text, &events, id, sent)?;
        } else {
            add_event_lines(text, &events, self.has_several, sent.time)?;
        }
        Ok(None)
    }
}

/// Why the events of a report aren't shown.
fn why_left(alloc: Global, error: EventsError) -> Result<Left> {
    match error {
        EventsError::NoReport => Ok(Left::Unknown),
        EventsError::TooShort { wanted, given } => {
            let s = plural(given);
            let why = format!(in alloc; "it has {given} byte{s} of {wanted}, so Linux leaves it")?;
            Ok(Left::Refused(why))
        }
        EventsError::TooManySteps { .. } => Ok(Left::Refused(format!(in alloc; "{error}")?)),
        _ => Err(error.into()),
    }
}

/// Says on standard error how many bytes of a report lie behind those that are read.
fn tell_rest<R: Eprint>(rt: &R, descriptor: &ReportDescriptor, bytes: &[u8]) -> Result<()> {
    match descriptor.find_input_report(bytes) {
        Some(report) => tell_size(rt, report, bytes),
        None => Ok(()),
    }
}

/// The events of all devices, which share what may be listed; none where they aren't wanted.
///
/// # Errors
///
/// - another driver takes a device, or it isn't known how Linux reads it;
/// - the input reports have more usages than may be listed.
pub fn events_of(
    alloc: Global,
    settings: &Settings,
    given: &Given,
    are_wanted: bool,
) -> Result<Vec<DeviceEvents>> {
    let mut all = Vec::new(alloc);
    if !are_wanted {
        return Ok(all);
    }
    let mut listed = 0usize;
    for device in given.devices.iter() {
        let events = named(
            events_within(alloc, settings, listed, device),
            given,
            device,
        )?;
        listed = listed.saturating_add(events.usages);
        all.push(events)?;
    }
    Ok(all)
}

/// The events of a device, which a refusal names where there are others.
fn named(events: Result<DeviceEvents>, given: &Given, device: &Device) -> Result<DeviceEvents> {
    if given.devices.len() == 1 {
        return events;
    }
    events.context(format_args!("device {}", device.number))
}

/// The events of a device, where so much is listed before it.
fn events_within(
    alloc: Global,
    settings: &Settings,
    listed: usize,
    device: &Device,
) -> Result<DeviceEvents> {
    let reading = LinuxReading::of(alloc, &device.descriptor)?;
    let usages = usages_in(alloc, &reading)?;
    let limit = settings.parse.limit;
    let within = limit.map(|limit| limit.saturating_sub(listed));
    match EventReader::of(alloc, &reading, within) {
        Ok(reader) => Ok(DeviceEvents {
            reader,
            has_ids: has_ids(&reading),
            has_several: has_several(alloc, &reading)?,
            usages,
            is_json: settings.is_json,
            has_notes: settings.has_notes(),
        }),
        Err(error) => Err(with_advice(error, listed)),
    }
}

/// Why the events of a device aren't known, and what helps, where so much is listed before it.
fn with_advice(error: EventsError, listed: usize) -> anyhow::Error {
    match error {
        EventsError::PastLimit { usages, .. } => {
            let enough = listed.saturating_add(usages);
            anyhow!("its input and output reports have {usages} usages: --limit {enough} is enough")
        }
        EventsError::NotKnown => anyhow!("{error}: hid check --for linux shows where"),
        _ => error.into(),
    }
}

/// How many usages the input and output reports have, at least one for each element.
fn usages_in(alloc: Global, reading: &LinuxReading) -> Result<usize, AllocError> {
    let mut count = 0usize;
    for field in reading.fields(alloc)?.iter() {
        if field.report.direction != Direction::Feature && !field.is_past {
            let usages = usize::try_from(field.usages.max(field.count)).unwrap_or(usize::MAX);
            count = count.saturating_add(usages);
        }
    }
    Ok(count)
}

/// Whether Linux reads a field of a report that comes in.
fn is_read(field: &LinuxField) -> bool {
    field.report.direction == Direction::Input && !field.is_past
}

/// Whether reports have an id: all, or none, where their events are known.
fn has_ids(reading: &LinuxReading) -> bool {
    reading.reports().iter().any(|report| report.id != 0)
}

/// Whether the usages of input reports have events of more than one input device.
fn has_several(alloc: Global, reading: &LinuxReading) -> Result<bool, AllocError> {
    let mut devices = reading.input_devices(alloc);
    let mut first = None;
    for field in reading.fields(alloc)?.iter() {
        if is_read(field) && has_event(reading, &mut devices, field)? {
            let device = devices.current();
            if *first.get_or_insert(device) != device {
                return Ok(true);
            }
        }
    }
    Ok(false)
}

/// Goes over the usages of a field, and answers whether one has an event.
fn has_event(
    reading: &LinuxReading,
    devices: &mut InputDevices,
    field: &LinuxField,
) -> Result<bool, AllocError> {
    let mut item = devices.begin_field(field)?;
    let mut is_any = false;
    for usage in reading.usages(field) {
        is_any = devices.event(&mut item, usage).is_ok() || is_any;
    }
    Ok(is_any)
}
