//! Inputs by the names that a command's words say.
use crate::linux_read::mended;
use crate::reads::Reads;
use crate::settings::{LONGEST_INPUT, ReadAs, Settings};
use anyhow::{Result, bail, ensure};
use hid_given::{Form, Given, Wanted};
use hid_output::escaped;
use hid_sources::{given_of, machine_device, node_meant, text_of};
use std::alloc::{AllocError, Global};
use std::fmt::Write;
use std::fs;
use std::io::Read;
use std::rt::Files;

/// Whether a name is that of a node of a HID device.
pub fn is_node(name: &str) -> bool {
    name.starts_with("/dev/hidraw")
}

/// What a name of an input means: itself where it is `-` or a file, else the node of the device of
/// the machine that it means, by its node, its ids, or a part of its name.
///
/// # Errors
///
/// - it is of no file, and means several devices.
pub fn node_named<R: AllocGlobal + Files + Clone + Drop>(
    rt: &R,
    settings: &Settings,
    name: &str,
) -> Result<String> {
    if !matches!(name, "" | "-") && !fs::exists(rt, name)? {
        if let Some(number) = node_meant(rt, settings.sysfs, name)? {
            return Ok(format!(in rt.alloc(); "/dev/hidraw{number}")?);
        }
    }
    Ok(String::from_str(rt.alloc(), name)?)
}

/// Where the node of a HID device has its descriptor.
fn descriptor_path(alloc: Global, settings: &Settings, name: &str) -> Result<String> {
    match name.strip_prefix("/dev/hidraw") {
        Some(number) => {
            let sysfs = settings.sysfs;
            Ok(format!(in alloc; "{sysfs}/class/hidraw/hidraw{number}/device/report_descriptor")?)
        }
        None => Ok(String::from_str(alloc, name)?),
    }
}

/// All bytes of the file with this name, or of the standard input where it is `-`.
///
/// # Errors
///
/// - the file can't be opened or read;
/// - it is longer than an input may be.
pub fn bytes_named<R: AllocGlobal + Files + Input>(rt: &R, name: &str) -> Result<Vec<u8>> {
    let mut bytes = Vec::new(rt.alloc());
    if name == "-" {
        rt.reader().take(LONGEST_INPUT).read_to_end(&mut bytes)?;
    } else {
        fs::open(rt, name)?
            .take(LONGEST_INPUT)
            .read_to_end(&mut bytes)?;
    }
    ensure!((bytes.len() as u64) < LONGEST_INPUT, "longer than 64 MiB");
    Ok(bytes)
}

/// The text of the file with this name, without the mark that may stand before it.
///
/// # Errors
///
/// - those of `bytes_named`;
/// - it isn't text.
pub fn text_named<R: AllocGlobal + Files + Input>(rt: &R, name: &str) -> Result<String> {
    let bytes = bytes_named(rt, name)?;
    match text_of(&bytes) {
        Some(text) => Ok(String::from_str(rt.alloc(), text)?),
        None => bail!("isn't text"),
    }
}

/// The descriptors of an input, those of all its devices or of the one that is meant, and the
/// reports beside them. Says on standard error what was left out, and what was mended.
///
/// # Errors
///
/// - those of `bytes_named`;
/// - a line isn't one of the input's form, or a text has none;
/// - there is no descriptor, or none of the device that is meant.
pub fn descriptors_named<R: Reads>(rt: &R, settings: &Settings, name: &str) -> Result<Given> {
    let given = described(rt, settings, name)?;
    chosen(rt, settings, name, given, settings.device)
}

/// All that an input has, whose descriptors are asked for.
fn described<R: Reads>(rt: &R, settings: &Settings, name: &str) -> Result<Given> {
    let node = node_named(rt, settings, name)?;
    if node.as_str() != name && settings.has_notes() {
        tell_node(rt, name, node.as_str())?;
    }
    let path = descriptor_path(rt.alloc(), settings, node.as_str())?;
    let bytes = bytes_named(rt, path.as_str())?;
    let number = node.as_str().strip_prefix("/dev/hidraw");
    let form = if number.is_some() {
        settings.form.or(Some(Form::Bytes))
    } else {
        settings.form
    };
    let mut given = given_of(rt.alloc(), bytes, form, Wanted::Descriptors, settings.names)?;
    if let Some(number) = number {
        name_device(rt, settings, number, &mut given)?;
    }
    tell_given(rt, settings, name, settings.form, &given)?;
    Ok(given)
}

/// What is left of an input: the devices that have a descriptor, or the one that is meant, mended
/// where that is asked for.
fn chosen<R: Reads>(
    rt: &R,
    settings: &Settings,
    name: &str,
    given: Given,
    device: Option<usize>,
) -> Result<Given> {
    let mut given = given;
    choose(&mut given, device)?;
    if settings.read_as == Some(ReadAs::Linux) {
        for device in given.devices.iter_mut() {
            let read = mended(rt, settings, name, &device.descriptor)?;
            device.descriptor = read.into_bytes();
        }
    }
    Ok(given)
}

/// Takes what Linux tells of the device of a node, where it does: its name, its place and its ids.
fn name_device<R: AllocGlobal + Files>(
    rt: &R,
    settings: &Settings,
    number: &str,
    given: &mut Given,
) -> Result<()> {
    let Ok(number) = number.parse::<usize>() else {
        return Ok(());
    };
    if let (Ok(Some(told)), Some(device)) = (
        machine_device(rt, settings.sysfs, number),
        given.devices.first_mut(),
    ) {
        device.ids = Some(told.ids(rt.alloc())?);
        device.name = Some(told.name);
        device.place = Some(told.place);
    }
    Ok(())
}

/// As `descriptors_named`, of an input with one descriptor, or of one device of several.
///
/// # Errors
///
/// - those of `descriptors_named`;
/// - there are several devices, and none is meant.
pub fn descriptor_named<R: Reads>(rt: &R, settings: &Settings, name: &str) -> Result<Given> {
    let given = descriptors_named(rt, settings, name)?;
    one_alone(rt.alloc(), given)
}

/// As `descriptor_named`, beside another input: the device that is meant is one of that, where this
/// one's form has one device alone.
pub fn given_beside<R: Reads>(rt: &R, settings: &Settings, name: &str) -> Result<Given> {
    let given = described(rt, settings, name)?;
    let device = if given.form.has_one_device() {
        None
    } else {
        settings.device
    };
    let given = chosen(rt, settings, name, given, device)?;
    one_alone(rt.alloc(), given)
}

/// The same, if it has one device.
fn one_alone(alloc: Global, given: Given) -> Result<Given> {
    let count = given.devices.len();
    if count != 1 {
        let list = listed(alloc, &given)?;
        bail!("holds {count} devices: say --device N: {list}");
    }
    Ok(given)
}

/// The reports of an input. Says on standard error what was left out.
///
/// # Errors
///
/// - those of `bytes_named`;
/// - a line isn't one of the input's form, or a text has none;
/// - there is no report.
pub fn reports_named<R: Reads>(rt: &R, settings: &Settings, name: &str) -> Result<Given> {
    let bytes = bytes_named(rt, name)?;
    let given = given_of(
        rt.alloc(),
        bytes,
        settings.report_form,
        Wanted::Reports,
        settings.names,
    )?;
    tell_given(rt, settings, name, settings.report_form, &given)?;
    ensure!(!given.reports.is_empty(), "no report");
    Ok(given)
}

/// Says of an input which form it has, where that is wanted, and what is left out.
fn tell_given<R: AllocGlobal + Eprint>(
    rt: &R,
    settings: &Settings,
    name: &str,
    form: Option<Form>,
    given: &Given,
) -> Result<()> {
    if form.is_none() && settings.tells_forms() {
        tell_form(rt, name, given.form)?;
    }
    if settings.has_notes() {
        tell_notes(rt, name, given)?;
    }
    Ok(())
}

/// Says what of an input is left out.
fn tell_notes<R: AllocGlobal + Eprint>(rt: &R, name: &str, given: &Given) -> Result<()> {
    let name = escaped(rt.alloc(), name)?;
    for note in given.notes.iter() {
        let note = escaped(rt.alloc(), note)?;
        eprintln!(rt; "hid: {name}: {note}")?;
    }
    Ok(())
}

/// Says which node a name means.
fn tell_node<R: AllocGlobal + Eprint>(rt: &R, name: &str, node: &str) -> Result<()> {
    let name = escaped(rt.alloc(), name)?;
    Ok(eprintln!(rt; "hid: {name}: is {node}")?)
}

/// Says which form an input was read in.
pub fn tell_form<R: AllocGlobal + Eprint>(rt: &R, name: &str, form: Form) -> Result<()> {
    let name = escaped(rt.alloc(), name)?;
    let form = form.name();
    Ok(eprintln!(rt; "hid: {name}: read as {form}")?)
}

/// Leaves the devices that have a descriptor, or the one that is meant with its reports.
fn choose(given: &mut Given, device: Option<usize>) -> Result<()> {
    let alloc = *given.devices.allocator();
    given.devices.retain(|it| it.is_described);
    ensure!(!given.devices.is_empty(), "has no descriptor");
    let Some(number) = device else {
        return Ok(());
    };
    if !given.devices.iter().any(|it| it.number == number) {
        let list = listed(alloc, given)?;
        bail!("has no device {number}, but {list}");
    }
    given.devices.retain(|it| it.number == number);
    given.reports.retain(|it| it.device == number);
    Ok(())
}

/// The devices with their names.
fn listed(alloc: Global, given: &Given) -> Result<String, AllocError> {
    let mut text = String::new(alloc);
    let mut gap = "";
    for device in given.devices.iter() {
        let number = device.number;
        write!(text, "{gap}{number}")?;
        if let Some(name) = &device.name {
            write!(text, " ({name})")?;
        }
        gap = ", ";
    }
    Ok(text)
}
