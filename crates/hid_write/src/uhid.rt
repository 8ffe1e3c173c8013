//! `hid uhid`: a device and its reports as events for Linux's `/dev/uhid`, whose bytes
//! `linux/uhid.h` says.
use anyhow::{Result, bail, ensure};
use hid_given::{Device, Given, GivenReport};
use hid_input::input::descriptor_named;
use hid_input::settings::Settings;
use hid_input::world::World;
use hid_output::ending::Ending;
use hid_output::show_bytes;
use hid_report::tell_unknown;
use std::alloc::{AllocError, Global};

/// How many bytes an event has on a processor of 64 bits, and the texts in one that makes a device:
/// its name, where it is plugged in, and its serial number.
const EVENT: usize = 4380;

const NAME: usize = 128;

const PLACE: usize = 64;

const SERIAL: usize = 64;

/// The most bytes of a descriptor, and of a report.
const MOST: usize = 4096;

/// An event, of those that are written.
#[derive(Clone, Copy)]
enum Event {
    /// It makes a device.
    Create,

    /// It has an input report.
    Input,

    /// It ends the device.
    Destroy,
}

/// Writes a recording as events.
#[derive(Clone, Copy)]
pub struct Uhid<'a> {
    /// The recording's input.
    pub file: &'a str,
}

/// What a device is known by.
#[derive(Clone, Copy)]
struct Ids {
    bus: u16,
    vendor: u32,
    product: u32,
}

impl<'a> Uhid<'a> {
    /// Writes an event that makes the device, one for each report, and one that ends the device.
    pub fn run<R: World>(&self, rt: &R, settings: &Settings) -> Result<Ending> {
        let given = descriptor_named(rt, settings, self.file)?;
        let Some(device) = given.devices.first() else {
            bail!("has no descriptor");
        };
        check_reports(&given)?;
        create(rt, settings, device)?;
        let mut unknown = 0u64;
        for report in given.reports.iter() {
            if given.device_of(given.form, report).is_some() {
                write_report(rt, report)?;
            } else {
                unknown = unknown.saturating_add(1);
            }
        }
        write_event(rt, begun(rt.alloc(), Event::Destroy)?)?;
        if settings.has_notes() {
            tell_unknown(rt, unknown)?;
        }
        Ok(if unknown == 0 {
            Ending::Done
        } else {
            Ending::Refused
        })
    }
}

/// Refuses reports that an event has no room for.
fn check_reports(given: &Given) -> Result<()> {
    for (report, number) in given.reports.iter().zip(1usize..) {
        let count = report.bytes.len();
        ensure!(
            count <= MOST,
            "report {number} has {count} bytes, and uhid takes up to {MOST}"
        );
    }
    Ok(())
}

/// Writes the event that makes a device.
fn create<R: AllocGlobal + Print + Eprint>(
    rt: &R,
    settings: &Settings,
    device: &Device,
) -> Result<()> {
    let count = device.descriptor.len();
    let Some(size) = size_of(count).filter(|_size| count != 0) else {
        bail!("the descriptor has {count} bytes, and uhid takes 1 to {MOST}");
    };
    let ids = ids_of(device)?;
    let mut event = begun(rt.alloc(), Event::Create)?;
    add_text(
        rt,
        settings,
        &mut event,
        device.name.as_deref(),
        ("name", NAME),
    )?;
    add_text(
        rt,
        settings,
        &mut event,
        device.place.as_deref(),
        ("place", PLACE),
    )?;
    add_zeros(&mut event, NAME + PLACE + SERIAL + 4)?;
    event.extend_from_slice(&size.to_le_bytes())?;
    event.extend_from_slice(&ids.bus.to_le_bytes())?;
    // Behind the ids stand the device's version and its country, which no recording has.
    for number in [ids.vendor, ids.product, 0, 0] {
        event.extend_from_slice(&number.to_le_bytes())?;
    }
    event.extend_from_slice(&device.descriptor)?;
    write_event(rt, event)
}

/// Writes the event of an input report.
fn write_report<R: AllocGlobal + Print>(rt: &R, report: &GivenReport) -> Result<()> {
    let mut event = begun(rt.alloc(), Event::Input)?;
    let size = size_of(report.bytes.len()).unwrap_or(0);
    event.extend_from_slice(&size.to_le_bytes())?;
    event.extend_from_slice(&report.bytes)?;
    write_event(rt, event)
}

/// A number of bytes that an event has room for.
fn size_of(count: usize) -> Option<u16> {
    if count <= MOST {
        return u16::try_from(count).ok();
    }
    None
}

/// The beginning of an event: the number of its type.
fn begun(alloc: Global, event: Event) -> Result<Vec<u8>, AllocError> {
    let number: u32 = match event {
        Event::Create => 11,
        Event::Input => 12,
        Event::Destroy => 1,
    };
    Vec::from_slice(alloc, &number.to_le_bytes())
}

/// Writes an event at once, with zeros behind it up to its size: to the kernel what is written at
/// once is an event.
fn write_event<R: Print>(rt: &R, event: Vec<u8>) -> Result<()> {
    let mut event = event;
    add_zeros(&mut event, EVENT)?;
    show_bytes(rt, &event)
}

/// Appends zeros, up to a number of bytes.
fn add_zeros(event: &mut Vec<u8>, size: usize) -> Result<(), AllocError> {
    for _ in event.len()..size {
        event.push(0)?;
    }
    Ok(())
}

/// Appends a text into the room of what it is, so many bytes, of which the last is 0; says where it
/// is cut.
fn add_text<R: Eprint>(
    rt: &R,
    settings: &Settings,
    event: &mut Vec<u8>,
    text: Option<&str>,
    room: (&str, usize),
) -> Result<()> {
    let (what, size) = room;
    let text = text.unwrap_or("");
    let shown = fitting(text, size);
    if shown.len() != text.len() && settings.has_notes() {
        let (count, most) = (text.len(), shown.len());
        eprintln!(rt; "hid: of a {what} of {count} bytes uhid gets {most}")?;
    }
    let end = event.len().saturating_add(size);
    event.extend_from_slice(shown.as_bytes())?;
    Ok(add_zeros(event, end)?)
}

/// The front of a text that is shorter than this.
fn fitting(text: &str, size: usize) -> &str {
    let mut end = 0usize;
    for (place, letter) in text.char_indices() {
        let behind = place.saturating_add(letter.len_utf8());
        if size <= behind {
            break;
        }
        end = behind;
    }
    text.get(..end).unwrap_or("")
}

/// The ids of a device; those of a USB device without any, where the input has none.
fn ids_of(device: &Device) -> Result<Ids> {
    let Some(text) = &device.ids else {
        return Ok(Ids {
            bus: 3,
            vendor: 0,
            product: 0,
        });
    };
    match ids_in(text.as_str()) {
        Some(ids) => Ok(ids),
        None => bail!("{text} isn't a bus, a vendor and a product in hexadecimal digits"),
    }
}

/// The ids that three numbers in hexadecimal digits say.
fn ids_in(text: &str) -> Option<Ids> {
    let mut words = text.split_whitespace();
    let bus = u16::from_str_radix(words.next()?, 16).ok()?;
    let vendor = u32::from_str_radix(words.next()?, 16).ok()?;
    let product = u32::from_str_radix(words.next()?, 16).ok()?;
    match words.next() {
        Some(_more) => None,
        None => Some(Ids {
            bus,
            vendor,
            product,
        }),
    }
}
