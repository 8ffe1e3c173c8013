//! The HID devices of the machine, as Linux tells of their nodes in sysfs.
use crate::nodes::input_nodes;
use anyhow::{Context, Result, bail, ensure};
use std::alloc::{AllocError, Global};
use std::fmt::Write;
use std::io::Read;
use std::rt::Files;
use std::{fs, io};

/// The most nodes that Linux makes.
pub const MOST_NODES: usize = 64;

/// The most bytes of a file that tells of a device.
const LONGEST: u64 = 65_536;

/// A HID device of the machine.
#[derive(Drop)]
pub struct MachineDevice {
    /// The number of its node.
    pub number: usize,
    /// What it calls itself.
    pub name: String,
    /// The numbers of its bus, its vendor and its product.
    pub bus: u32,
    /// Its vendor.
    pub vendor: u32,
    /// Its product.
    pub product: u32,
    /// The driver that it has, empty where none.
    pub driver: String,
    /// Where it is plugged in.
    pub place: String,
}

/// The HID devices, by the numbers of their nodes.
///
/// # Errors
///
/// - what tells of a device can't be read, or isn't read.
fn machine_devices<R: AllocGlobal + Files>(rt: &R, sysfs: &str) -> Result<Vec<MachineDevice>> {
    let mut devices = Vec::new(rt.alloc());
    for number in 0..MOST_NODES {
        if let Some(device) = machine_device(rt, sysfs, number)? {
            devices.push(device)?;
        }
    }
    Ok(devices)
}

/// The HID device of a node; none where there is no such node.
///
/// # Errors
///
/// - what tells of it can't be read, or isn't read.
pub fn machine_device<R: AllocGlobal + Files>(
    rt: &R,
    sysfs: &str,
    number: usize,
) -> Result<Option<MachineDevice>> {
    let folder = folder_of(rt.alloc(), sysfs, number)?;
    let path = format!(in rt.alloc(); "{folder}/uevent")?;
    let Some(text) = told(rt, path.as_str()).context(format_args!("{path}"))? else {
        return Ok(None);
    };
    let device = MachineDevice::of(rt.alloc(), number, text.as_str()).context(format_args!(
        "{path}"
    ))?;
    Ok(Some(device))
}

/// The folder in which Linux tells of the device of a node.
pub fn folder_of(alloc: Global, sysfs: &str, number: usize) -> Result<String, AllocError> {
    format!(in alloc; "{sysfs}/class/hidraw/hidraw{number}/device")
}

/// The text of a file; none where there is no such file.
fn told<R: AllocGlobal + Files>(rt: &R, path: &str) -> Result<Option<String>> {
    let file = match fs::open(rt, path) {
        Ok(file) => file,
        Err(error) if error.kind() == io::ErrorKind::NotFound => return Ok(None),
        Err(error) => return Err(error.into()),
    };
    let mut bytes = Vec::new(rt.alloc());
    file.take(LONGEST).read_to_end(&mut bytes)?;
    Ok(Some(String::from_utf8_lossy(rt.alloc(), &bytes)?))
}

impl MachineDevice {
    /// The device that the lines of its file `uevent` tell of.
    fn of(alloc: Global, number: usize, text: &str) -> Result<MachineDevice> {
        let mut device = MachineDevice {
            number,
            name: String::new(alloc),
            bus: 0,
            vendor: 0,
            product: 0,
            driver: String::new(alloc),
            place: String::new(alloc),
        };
        for line in text.lines() {
            device.take(alloc, line)?;
        }
        Ok(device)
    }

    /// Takes what a line tells.
    fn take(&mut self, alloc: Global, line: &str) -> Result<()> {
        let (key, value) = line.split_once("=").unwrap_or((line, ""));
        match key {
            "HID_NAME" => self.name = String::from_str(alloc, value)?,
            "DRIVER" => self.driver = String::from_str(alloc, value)?,
            "HID_PHYS" => self.place = String::from_str(alloc, value)?,
            "HID_ID" => return self.take_ids(value),
            _ => {}
        }
        Ok(())
    }

    /// Takes its bus, its vendor and its product.
    fn take_ids(&mut self, value: &str) -> Result<()> {
        let mut parts = value.split(":");
        self.bus = number_of(parts.next())?;
        self.vendor = number_of(parts.next())?;
        self.product = number_of(parts.next())?;
        ensure!(parts.next().is_none(), "{value} isn't three numbers");
        Ok(())
    }

    /// Its bus, its vendor and its product as hid-recorder writes them.
    pub fn ids(&self, alloc: Global) -> Result<String, AllocError> {
        let (bus, vendor, product) = (self.bus, self.vendor, self.product);
        format!(in alloc; "{bus:x} {vendor:04x} {product:04x}")
    }

    /// Whether a word means it by its node, its ids, or its product's alone.
    fn has_node_or_ids(&self, word: &str) -> bool {
        if let Some(number) = word.strip_prefix("hidraw") {
            return number.parse::<usize>().ok() == Some(self.number);
        }
        match word.split_once(":") {
            Some((vendor, product)) => {
                is_hex(vendor, self.vendor) && is_hex(product, self.product)
            }
            None => word.len() == 4 && is_hex(word, self.product),
        }
    }
}

/// The number that hexadecimal digits write.
fn number_of(digits: Option<&str>) -> Result<u32> {
    match u32::from_str_radix(digits.unwrap_or(""), 16) {
        Ok(number) => Ok(number),
        Err(_wrong) => bail!("HID_ID isn't three numbers"),
    }
}

/// Whether hexadecimal digits write a number.
fn is_hex(digits: &str, number: u32) -> bool {
    u32::from_str_radix(digits, 16).ok() == Some(number)
}

/// The number of the node that a word means: `hidraw0`, `event5` of an input device, `046d:c077` or
/// the product's `c077`, or a part of a device's name; none where no device is meant.
///
/// # Errors
///
/// - those of `machine_devices`;
/// - several devices are meant.
pub fn node_meant<R: AllocGlobal + Files + Clone + Drop>(
    rt: &R,
    sysfs: &str,
    word: &str,
) -> Result<Option<usize>> {
    let mut devices = machine_devices(rt, sysfs)?;
    if is_event_node(word) {
        return number_of_event(rt, sysfs, &devices, word);
    }
    let is_exact = devices.iter().any(|it| it.has_node_or_ids(word));
    devices.retain(|it| {
        if is_exact {
            it.has_node_or_ids(word)
        } else {
            it.name.as_str().contains(word)
        }
    });
    if devices.len() > 1 {
        let list = listed(rt.alloc(), &devices)?;
        bail!("means {list}");
    }
    Ok(number_of_first(&devices))
}

/// Whether a word is the name of a node of an input device.
fn is_event_node(word: &str) -> bool {
    match word.strip_prefix("event") {
        Some(digits) => digits.parse::<usize>().is_ok(),
        None => false,
    }
}

/// The number of the device that has a node of an input device.
fn number_of_event<R: AllocGlobal + Files + Clone + Drop>(
    rt: &R,
    sysfs: &str,
    devices: &[MachineDevice],
    word: &str,
) -> Result<Option<usize>> {
    for device in devices {
        let folder = folder_of(rt.alloc(), sysfs, device.number)?;
        let nodes = input_nodes(rt, folder.as_str())?;
        if nodes.iter().any(|node| node.as_str() == word) {
            return Ok(Some(device.number));
        }
    }
    Ok(None)
}

/// The number of the first device.
fn number_of_first(devices: &[MachineDevice]) -> Option<usize> {
    Some(devices.first()?.number)
}

/// The nodes of some devices.
fn listed(alloc: Global, devices: &[MachineDevice]) -> Result<String, AllocError> {
    let mut text = String::new(alloc);
    let mut gap = "";
    for device in devices {
        let number = device.number;
        write!(text, "{gap}hidraw{number}")?;
        gap = ", ";
    }
    Ok(text)
}
