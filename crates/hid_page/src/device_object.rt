//! What a page says of its input.
use anyhow::Result;
use hid_given::Given;
use hid_input::settings::Settings;
use hid_output::html::add_html;
use hid_output::{add_json, escaped};
use hid_words::{fault_offset, fault_words};
use hidreport::ParserError;
use serde::Serialize;
use std::alloc::AllocError;

/// What the page says of the input, as JSON.
#[derive(Drop, Serialize)]
struct DeviceObject<'a> {
    file: &'a str,
    form: &'static str,
    name: Option<&'a str>,
    ids: Option<&'a str>,
    bytes: usize,
    by_standard: bool,
}

/// Why the descriptor is refused, as JSON.
#[derive(Drop, Serialize)]
struct FaultObject<'a> {
    offset: Option<usize>,
    fault: &'a str,
}

/// Appends what is said of an input with this name.
pub fn add_device_object(
    lines: &mut String,
    settings: &Settings,
    given: &Given,
    file: &str,
) -> Result<()> {
    let object = DeviceObject {
        file: last_part(file),
        form: given.form.name(),
        name: name_of(given),
        ids: ids_of(given),
        bytes: given.descriptor().len(),
        by_standard: !settings.reads_as_linux(),
    };
    add_json(lines, &object)
}

/// Appends why the descriptor is refused.
pub fn add_fault_object(lines: &mut String, fault: &ParserError) -> Result<()> {
    let object = FaultObject {
        offset: fault_offset(fault),
        fault: fault_words(fault),
    };
    add_json(lines, &object)
}

/// Appends what the page is called, as HTML: the device's name, or else the file's.
pub fn add_heading(text: &mut String, given: &Given, file: &str) -> Result<(), AllocError> {
    let name = match name_of(given) {
        Some(name) => escaped(*text.allocator(), name)?,
        None => escaped(*text.allocator(), last_part(file))?,
    };
    add_html(text, name.as_str())
}

/// What the input calls its device.
fn name_of(given: &Given) -> Option<&str> {
    let device = given.devices.first()?;
    device.name.as_deref().filter(|name| !name.is_empty())
}

/// The device's bus, vendor and product.
fn ids_of(given: &Given) -> Option<&str> {
    given.devices.first()?.ids.as_deref()
}

/// A file's name without its folders, which are nobody else's business.
fn last_part(file: &str) -> &str {
    match file.rsplit_once("/") {
        Some((_folders, name)) => name,
        None if file == "-" => "standard input",
        None => file,
    }
}
