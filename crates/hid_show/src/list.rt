//! `hid list`: the HID devices of the machine.
use anyhow::{Context, Result};
use hid_input::input::bytes_named;
use hid_input::parsing::read_silently;
use hid_input::settings::Settings;
use hid_input::world::World;
use hid_output::ending::Ending;
use hid_output::{add_json, escaped, flush};
use hid_sources::{MOST_NODES, MachineDevice, folder_of, input_nodes, machine_device};
use hid_words::{add_usage, add_usage_on_page, plural, word_of};
use hidreport::{Direction, RDescReport, Report, ReportDescriptor, Usage};
use serde::Serialize;
use std::alloc::{AllocError, Global};
use std::fmt::Write;
use std::fs;
use std::rt::Files;

/// Shows the HID devices of the machine.
#[derive(Clone, Copy)]
pub struct List;

/// A usage that a device has an application for, as JSON.
#[derive(Drop, Serialize)]
struct ApplicationObject {
    usage: u32,
    name: String,
}

/// A node whose device isn't known, as JSON.
#[derive(Drop, Serialize)]
struct UnknownObject<'a> {
    node: &'a str,
    refused: &'a str,
}

/// A report, as JSON.
#[derive(Drop, Serialize)]
struct ReportObject {
    direction: &'static str,
    report: Option<u8>,
    bits: usize,
}

/// A device, as JSON.
#[derive(Drop, Serialize)]
struct DeviceObject<'a> {
    node: &'a str,
    name: &'a str,
    bus: u32,
    vendor: u32,
    product: u32,
    driver: &'a str,
    input: &'a [String],
    applications: Option<Vec<ApplicationObject>>,
    reports: Option<Vec<ReportObject>>,
    #[serde(skip_serializing_if = "Option::is_none")]
    refused: Option<String>,
}

impl List {
    /// Shows each device; one that can't be read is refused, and the others are shown.
    pub fn run<R: World>(&self, rt: &R, settings: &Settings) -> Result<Ending> {
        // A machine without HID devices has the folder all the same.
        let _ = fs::read_dir(rt, settings.sysfs).context(format_args!("{}", settings.sysfs))?;
        let mut text = String::new(rt.alloc());
        let mut ending = Ending::Done;
        let mut is_any = false;
        for number in 0..MOST_NODES {
            if let Some(is_read) = add_node(rt, settings, &mut text, number)? {
                is_any = true;
                if !is_read {
                    ending = Ending::Refused;
                }
            }
            flush(rt, &mut text)?;
        }
        if !is_any && settings.has_notes() {
            eprintln!(rt; "hid: the machine has no HID device")?;
        }
        Ok(ending)
    }
}

/// Appends what is known of the device of a node, and answers whether it is read; none where there
/// is no such node.
fn add_node<R: AllocGlobal + Files + Clone + Drop + Input>(
    rt: &R,
    settings: &Settings,
    text: &mut String,
    number: usize,
) -> Result<Option<bool>> {
    match machine_device(rt, settings.sysfs, number) {
        Ok(Some(device)) => Ok(Some(add_device(rt, settings, text, &device)?)),
        Ok(None) => Ok(None),
        Err(error) => {
            add_unknown(settings, text, number, &error)?;
            Ok(Some(false))
        }
    }
}

/// Appends why the device of a node isn't known.
fn add_unknown(
    settings: &Settings,
    text: &mut String,
    number: usize,
    error: &anyhow::Error,
) -> Result<()> {
    let alloc = *text.allocator();
    let node = format!(in alloc; "/dev/hidraw{number}")?;
    let refused = format!(in alloc; "{error:#}")?;
    if settings.is_json {
        let (node, refused) = (node.as_str(), refused.as_str());
        return add_json(text, &UnknownObject { node, refused });
    }
    let refused = escaped(alloc, refused.as_str())?;
    Ok(writeln!(text, "{node}: refused: {refused}")?)
}

/// Appends what is known of a device, and answers whether its descriptor is read.
fn add_device<R: AllocGlobal + Files + Clone + Drop + Input>(
    rt: &R,
    settings: &Settings,
    text: &mut String,
    device: &MachineDevice,
) -> Result<bool> {
    let folder = folder_of(rt.alloc(), settings.sysfs, device.number)?;
    let input = input_nodes(rt, folder.as_str())?;
    let descriptor = descriptor_in(rt, settings, folder.as_str());
    let is_read = descriptor.is_ok();
    if settings.is_json {
        add_object(text, device, &input, descriptor)?;
        return Ok(is_read);
    }
    add_head(text, device, &input)?;
    match &descriptor {
        Ok(descriptor) => add_reports(text, descriptor)?,
        Err(error) => {
            let refused = format!(in rt.alloc(); "{error:#}")?;
            let refused = escaped(rt.alloc(), refused.as_str())?;
            writeln!(text, "  refused: {refused}")?;
        }
    }
    Ok(is_read)
}

/// The descriptor in the folder of a device, read.
fn descriptor_in<R: AllocGlobal + Files + Input>(
    rt: &R,
    settings: &Settings,
    folder: &str,
) -> Result<ReportDescriptor> {
    let path = format!(in rt.alloc(); "{folder}/report_descriptor")?;
    let bytes = bytes_named(rt, path.as_str()).context(format_args!("{path}"))?;
    read_silently(rt.alloc(), settings, &bytes)
}

/// Appends the lines that name a device.
fn add_head(text: &mut String, device: &MachineDevice, input: &[String]) -> Result<()> {
    let alloc = *text.allocator();
    let (number, name) = (device.number, escaped(alloc, device.name.as_str())?);
    let (vendor, product) = (device.vendor, device.product);
    writeln!(text, "/dev/hidraw{number}: {name}")?;
    text.push_str("  ")?;
    add_bus(text, device.bus)?;
    write!(text, " {vendor:04x}:{product:04x}")?;
    if !device.driver.is_empty() {
        let driver = escaped(alloc, device.driver.as_str())?;
        write!(text, ", driver {driver}")?;
    }
    for node in input {
        let node = escaped(alloc, node.as_str())?;
        write!(text, ", {node}")?;
    }
    Ok(text.push_str("\n")?)
}

/// Appends the name of a bus, as Linux numbers them.
fn add_bus(text: &mut String, bus: u32) -> Result<(), AllocError> {
    match bus {
        0x03 => text.push_str("USB"),
        0x05 => text.push_str("Bluetooth"),
        0x06 => text.push_str("virtual"),
        0x18 => text.push_str("I2C"),
        _ => write!(text, "bus {bus:04x}"),
    }
}

/// Appends what a device is, and how many reports it has in each direction.
fn add_reports(text: &mut String, descriptor: &ReportDescriptor) -> Result<(), AllocError> {
    let applications = applications_of(*text.allocator(), descriptor)?;
    let mut gap = "  ";
    for usage in applications.iter() {
        text.push_str(gap)?;
        add_usage_on_page(text, *usage)?;
        gap = ", ";
    }
    let mut gap = if applications.is_empty() { "  " } else { ": " };
    for direction in Direction::ALL {
        let count = descriptor.reports(direction).len();
        if count != 0 {
            let (word, s) = (word_of(direction), plural(count));
            write!(text, "{gap}{count} {word} report{s}")?;
            gap = ", ";
        }
    }
    text.push_str(if gap == ", " { "\n" } else { "  no report\n" })
}

/// The first usages of the outermost collections of reports, each once, in the reports' order.
fn applications_of(alloc: Global, descriptor: &ReportDescriptor) -> Result<Vec<Usage>, AllocError> {
    let mut usages: Vec<Usage> = Vec::new(alloc);
    for direction in Direction::ALL {
        for report in descriptor.reports(direction) {
            if let Some(usage) = application_of(report)
                && !usages.iter().any(|known| *known == usage)
            {
                usages.push(usage)?;
            }
        }
    }
    Ok(usages)
}

/// Appends a device as JSON.
fn add_object(
    text: &mut String,
    device: &MachineDevice,
    input: &[String],
    descriptor: Result<ReportDescriptor>,
) -> Result<()> {
    let alloc = *text.allocator();
    let number = device.number;
    let node = format!(in alloc; "/dev/hidraw{number}")?;
    let (applications, reports, refused) = match descriptor {
        Ok(descriptor) => (
            Some(application_objects(alloc, &descriptor)?),
            Some(report_objects(alloc, &descriptor)?),
            None,
        ),
        Err(error) => (None, None, Some(format!(in alloc; "{error:#}")?)),
    };
    let object = DeviceObject {
        node: node.as_str(),
        name: device.name.as_str(),
        bus: device.bus,
        vendor: device.vendor,
        product: device.product,
        driver: device.driver.as_str(),
        input,
        applications,
        reports,
        refused,
    };
    add_json(text, &object)
}

/// The first usage of the outermost collection around a report's fields.
fn application_of(report: &RDescReport) -> Option<Usage> {
    let mut fields = report.fields().iter();
    let outermost = fields.find_map(|field| field.collections().first())?;
    outermost.usages().first().copied()
}

/// What a device is, as JSON.
fn application_objects(
    alloc: Global,
    descriptor: &ReportDescriptor,
) -> Result<Vec<ApplicationObject>, AllocError> {
    let mut objects = Vec::new(alloc);
    for usage in applications_of(alloc, descriptor)?.iter() {
        let mut name = String::new(alloc);
        add_usage(&mut name, *usage)?;
        let usage = u32::from(*usage);
        objects.push(ApplicationObject { usage, name })?;
    }
    Ok(objects)
}

/// The reports of a descriptor, as JSON.
fn report_objects(
    alloc: Global,
    descriptor: &ReportDescriptor,
) -> Result<Vec<ReportObject>, AllocError> {
    let mut objects = Vec::new(alloc);
    for direction in Direction::ALL {
        for report in descriptor.reports(direction) {
            objects.push(report_object(direction, report))?;
        }
    }
    Ok(objects)
}

/// A report, as JSON.
fn report_object(direction: Direction, report: &RDescReport) -> ReportObject {
    ReportObject {
        direction: word_of(direction),
        report: report.report_id().map(u8::from),
        bits: report.size_in_bits(),
    }
}
