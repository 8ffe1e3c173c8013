//! What an input holds: devices with their descriptors, and reports.
use crate::form::{Form, Wanted};
use anyhow::{Result, bail, ensure};
use std::alloc::{AllocError, Global};

/// The most devices of an input.
const MOST_DEVICES: usize = 256;

/// What an input holds, and the form that it has.
#[derive(Drop)]
pub struct Given {
    /// The form.
    pub form: Form,
    /// The devices.
    pub devices: Vec<Device>,
    /// The reports, in the order of the input.
    pub reports: Vec<GivenReport>,
    /// What is left out of it.
    pub notes: Vec<String>,
}

/// A device of an input.
#[derive(Drop)]
pub struct Device {
    /// Its number in the input: the input's own where it numbers them, else from 0.
    pub number: usize,
    /// What the input calls it.
    pub name: Option<String>,
    /// Where it is plugged in, as the input has it.
    pub place: Option<String>,
    /// Its bus, its vendor and its product, as the input has them.
    pub ids: Option<String>,
    /// The bytes of its descriptor.
    pub descriptor: Vec<u8>,
    /// Whether the input has a descriptor of it.
    pub is_described: bool,
}

/// What an input may say of a device beside its descriptor.
#[derive(Clone, Copy)]
pub enum Part {
    /// What it is called.
    Name,

    /// Where it is plugged in.
    Place,

    /// Its bus, its vendor and its product.
    Ids,
}

/// A report of an input.
#[derive(Drop)]
pub struct GivenReport {
    /// The number of its device.
    pub device: usize,
    /// Its device's address, of usbhid-dump's lines.
    pub address: Option<String>,
    /// When it came, as the input has it.
    pub time: Option<String>,
    /// Its bytes.
    pub bytes: Vec<u8>,
}

impl Given {
    /// The device that a report is of, which an input in this form has: the only one where that
    /// form doesn't tell devices apart, else by its address or its number.
    pub fn device_of(&self, form: Form, report: &GivenReport) -> Option<&Device> {
        if !form.tells_devices() {
            return match self.devices.as_slice() {
                [device] => Some(device),
                _ => None,
            };
        }
        if let (Form::Dump | Form::Usbmon, Some(address)) = (self.form, &report.address) {
            return self
                .devices
                .iter()
                .find(|it| it.is_called(address.as_str()));
        }
        self.devices.iter().find(|it| it.number == report.device)
    }

    /// Where the device of a report, whose input has this form, stands among these.
    pub fn place_of(&self, form: Form, report: &GivenReport) -> Option<usize> {
        let device = self.device_of(form, report)?;
        self.devices
            .iter()
            .position(|own| own.number == device.number)
    }

    /// The bytes of the first device's descriptor, the only one of an input that has one device;
    /// none where it has no device.
    pub fn descriptor(&self) -> &[u8] {
        let none: &[u8] = &[];
        match self.devices.first() {
            Some(device) => device.descriptor.as_slice(),
            None => none,
        }
    }
}

impl Device {
    /// Whether this is its name.
    fn is_called(&self, name: &str) -> bool {
        match &self.name {
            Some(own) => own.as_str() == name,
            None => false,
        }
    }

    /// Takes a part of what is said of it; one that it has already is taken again if it is the same.
    fn set(&mut self, part: Part, text: String) -> Result<()> {
        let number = self.number;
        match part {
            Part::Name => put(&mut self.name, text, number, "another name"),
            Part::Place => put(&mut self.place, text, number, "another place"),
            Part::Ids => put(&mut self.ids, text, number, "other ids"),
        }
    }
}

/// Puts what is said of a device where nothing else is.
fn put(slot: &mut Option<String>, text: String, number: usize, other: &str) -> Result<()> {
    if let Some(own) = slot.as_deref() {
        ensure!(own == text.as_str(), "device {number} has {other} already");
    }
    *slot = Some(text);
    Ok(())
}

impl GivenReport {
    /// A report of the first device, without a time.
    pub fn new(bytes: Vec<u8>) -> GivenReport {
        GivenReport {
            device: 0,
            address: None,
            time: None,
            bytes,
        }
    }
}

/// What the lines of an input have said so far.
#[derive(Drop)]
pub struct Found {
    /// The devices.
    pub devices: Vec<Device>,
    /// The reports.
    pub reports: Vec<GivenReport>,
    /// What is left out.
    pub notes: Vec<String>,
}

impl Found {
    /// Before the first line.
    pub fn new(alloc: Global) -> Found {
        Found {
            devices: Vec::new(alloc),
            reports: Vec::new(alloc),
            notes: Vec::new(alloc),
        }
    }

    /// Makes a device known.
    pub fn add_device(&mut self, number: usize) -> Result<()> {
        if self.devices.iter().any(|it| it.number == number) {
            return Ok(());
        }
        ensure!(
            self.devices.len() < MOST_DEVICES,
            "more than {MOST_DEVICES} devices"
        );
        let alloc = *self.devices.allocator();
        self.devices.push(Device {
            number,
            name: None,
            place: None,
            ids: None,
            descriptor: Vec::new(alloc),
            is_described: false,
        })?;
        Ok(())
    }

    /// Takes a part of what the input says of a device.
    pub fn set(&mut self, number: usize, part: Part, text: &str) -> Result<()> {
        self.add_device(number)?;
        let alloc = *self.devices.allocator();
        for device in self.devices.iter_mut() {
            if device.number == number {
                device.set(part, String::from_str(alloc, text)?)?;
            }
        }
        Ok(())
    }

    /// Takes a device's descriptor; one that it has already is taken again if it is the same.
    pub fn add_descriptor(&mut self, number: usize, bytes: Vec<u8>) -> Result<()> {
        self.add_device(number)?;
        for device in self.devices.iter_mut() {
            if device.number == number {
                return describe(device, bytes);
            }
        }
        Ok(())
    }

    /// Takes the bytes of a list, which may have a name: a report, or the descriptor of a device
    /// of this name.
    pub fn add_list(&mut self, wanted: Wanted, name: &str, bytes: Vec<u8>) -> Result<()> {
        if wanted == Wanted::Reports {
            return Ok(self.add_report(GivenReport::new(bytes))?);
        }
        let number = self.devices.len();
        if !name.is_empty() {
            self.set(number, Part::Name, name)?;
        }
        self.add_descriptor(number, bytes)
    }

    /// The number of the device with this name, which is made known.
    pub fn device_called(&mut self, name: &str) -> Result<usize> {
        if let Some(device) = self.devices.iter().find(|it| it.is_called(name)) {
            return Ok(device.number);
        }
        let number = self.devices.len();
        self.set(number, Part::Name, name)?;
        Ok(number)
    }

    /// Takes a report.
    pub fn add_report(&mut self, report: GivenReport) -> Result<(), AllocError> {
        self.reports.push(report)?;
        Ok(())
    }

    /// Forgets the descriptors of the devices.
    pub fn forget_descriptors(&mut self) {
        for device in self.devices.iter_mut() {
            device.descriptor.clear();
            device.is_described = false;
        }
    }

    /// All of it, in a form.
    pub fn given(self, form: Form) -> Given {
        let Found {
            devices,
            reports,
            notes,
        } = self;
        Given {
            form,
            devices,
            reports,
            notes,
        }
    }
}

/// Takes a descriptor as a device's own.
fn describe(device: &mut Device, bytes: Vec<u8>) -> Result<()> {
    if device.is_described && device.descriptor.as_slice() != bytes.as_slice() {
        let number = device.number;
        bail!("device {number} has another descriptor already");
    }
    device.descriptor = bytes;
    device.is_described = true;
    Ok(())
}
