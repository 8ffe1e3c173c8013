//! The events of a report, in the lines of evtest.
use hidreport_events::{InputEvent, ReportEvents};
use hidreport_linux::{EventCode, EventType};
use std::alloc::AllocError;
use std::fmt::Write;

/// The codes of type `EV_MSC` whose values evtest writes in hexadecimal digits: `MSC_RAW` and
/// `MSC_SCAN`.
const IN_HEXADECIMAL: [u16; 2] = [3, 4];

/// Appends a line for each event: its input device where there are several, its time where one is
/// to be shown.
pub fn add_event_lines(
    text: &mut String,
    sent: &ReportEvents,
    has_several: bool,
    time: Option<&str>,
) -> Result<(), AllocError> {
    for event in sent.events.iter() {
        if has_several {
            let device = sent.device;
            write!(text, "Device {device}: ")?;
        }
        text.push_str("Event: ")?;
        if let Some(time) = time {
            write!(text, "time {time}, ")?;
        }
        add_event(text, event)?;
    }
    Ok(())
}

/// Appends an event and the end of its line.
fn add_event(text: &mut String, event: &InputEvent) -> Result<(), AllocError> {
    match event.code {
        Some(code) => add_code(text, code, event.value),
        None => text.push_str("-------------- SYN_REPORT ------------\n"),
    }
}

/// Appends a code and its value.
fn add_code(text: &mut String, code: EventCode, value: i32) -> Result<(), AllocError> {
    let (kind, number) = (code.event_type, code.number);
    let (kind_number, kind_name) = (kind.number(), kind.name());
    let name = code.name().unwrap_or("?");
    write!(
        text,
        "type {kind_number} ({kind_name}), code {number} ({name}), value "
    )?;
    if kind == EventType::Other && IN_HEXADECIMAL.contains(&number) {
        writeln!(text, "{value:02x}")
    } else {
        writeln!(text, "{value}")
    }
}
