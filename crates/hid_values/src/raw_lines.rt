//! The lines of hid-recorder.
use crate::report_time::add_time;
use hid_given::{Given, GivenReport};
use hid_output::{add_bytes, escaped};
use std::alloc::AllocError;
use std::fmt::Write;
use std::time::Duration;

/// Appends hid-recorder's lines that stand before the reports, for each device.
pub fn add_heads(text: &mut String, given: &Given) -> Result<(), AllocError> {
    for device in given.devices.iter() {
        let (number, count) = (device.number, device.descriptor.len());
        write!(text, "D: {number}\nR: {count} ")?;
        add_bytes(text, &device.descriptor)?;
        add_line_of(text, "\nN: ", device.name.as_deref().unwrap_or("unknown"))?;
        if let Some(place) = &device.place {
            add_line_of(text, "\nP: ", place.as_str())?;
        }
        add_line_of(
            text,
            "\nI: ",
            device.ids.as_deref().unwrap_or("3 0000 0000"),
        )?;
        text.push_str("\n")?;
    }
    Ok(())
}

/// Appends what an input says of a device, behind a mark.
fn add_line_of(text: &mut String, mark: &str, said: &str) -> Result<(), AllocError> {
    let said = escaped(*text.allocator(), said)?;
    write!(text, "{mark}{said}")
}

/// Appends the line of a report.
pub fn add_raw(text: &mut String, report: &GivenReport, time: Duration) -> Result<(), AllocError> {
    text.push_str("E: ")?;
    add_time(text, report, time)?;
    let count = report.bytes.len();
    write!(text, " {count} ")?;
    add_bytes(text, &report.bytes)?;
    text.push_str("\n")
}
