//! The events of a report as JSON.
use anyhow::Result;
use hid_objects::value_object::Sent;
use hid_output::add_json;
use hid_words::word_of;
use hidreport::Direction;
use hidreport_events::{InputEvent, ReportEvents};
use serde::Serialize;
use std::alloc::{AllocError, Global};

/// An event.
#[derive(Clone, Copy, Drop, Serialize)]
struct EventObject {
    device: usize,
    #[serde(rename = "type")]
    event_type: &'static str,
    code: u16,
    name: Option<&'static str>,
    value: i32,
}

/// A report with its events.
#[derive(Drop, Serialize)]
struct EventsObject<'a> {
    direction: &'static str,
    report: Option<u8>,
    number: u64,
    #[serde(skip_serializing_if = "Option::is_none")]
    time: Option<&'a str>,
    events: Vec<EventObject>,
}

/// Appends an object with the events of an input report, which has this id.
pub fn add_events_object(
    text: &mut String,
    events: &ReportEvents,
    id: Option<u8>,
    sent: Sent,
) -> Result<()> {
    let object = EventsObject {
        direction: word_of(Direction::Input),
        report: id,
        number: sent.number,
        time: sent.time,
        events: objects_of(*text.allocator(), events)?,
    };
    add_json(text, &object)
}

/// The events as objects.
fn objects_of(alloc: Global, events: &ReportEvents) -> Result<Vec<EventObject>, AllocError> {
    let mut objects = Vec::new(alloc);
    for event in events.events.iter() {
        objects.push(object_of(events.device, event))?;
    }
    Ok(objects)
}

fn object_of(device: usize, event: &InputEvent) -> EventObject {
    let (event_type, code, name) = match event.code {
        Some(code) => (code.event_type.name(), code.number, code.name()),
        None => ("EV_SYN", 0, Some("SYN_REPORT")),
    };
    EventObject {
        device,
        event_type,
        code,
        name,
        value: event.value,
    }
}
