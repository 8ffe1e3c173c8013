//! The lines of usbhid-dump: a head `BUS:ADDRESS:INTERFACE:DESCRIPTOR TIME`, or with `STREAM` for a
//! report, and below it lines of bytes, up to an empty one or the next head.
use crate::hex_text::bytes_of_hex;
use crate::recorder::is_time;
use anyhow::{Result, bail, ensure};
use hid_given::{Found, GivenReport};
use std::alloc::{AllocError, Global};
use std::mem;

/// What stands below a head.
#[derive(Clone, Copy, PartialEq)]
enum Below {
    /// Nothing that was named.
    Nothing,

    /// A descriptor.
    Descriptor,

    /// A report.
    Report,
}

/// What reads usbhid-dump's lines.
#[derive(Drop)]
pub struct DumpLines {
    below: Below,
    device: usize,
    address: String,
    time: String,
    bytes: Vec<u8>,
}

/// Whether a line is a head.
pub fn is_head(line: &str) -> bool {
    let word = first_word(line);
    word.ends_with(":DESCRIPTOR") || word.ends_with(":STREAM")
}

/// The first word of a line.
fn first_word(line: &str) -> &str {
    line.split_whitespace().next().unwrap_or("")
}

impl DumpLines {
    /// Before the first line.
    pub fn new(alloc: Global) -> DumpLines {
        DumpLines {
            below: Below::Nothing,
            device: 0,
            address: String::new(alloc),
            time: String::new(alloc),
            bytes: Vec::new(alloc),
        }
    }

    /// Takes what a line says.
    pub fn take(&mut self, found: &mut Found, line: &str) -> Result<()> {
        if is_head(line) {
            self.end(found)?;
            return self.take_head(found, line);
        }
        if line.trim().is_empty() {
            return self.end(found);
        }
        if self.below == Below::Nothing {
            bail!("stands below no head of usbhid-dump");
        }
        match bytes_of_hex(*found.devices.allocator(), line)? {
            Some(more) => Ok(self.bytes.extend_from_slice(&more)?),
            None => bail!("isn't bytes in hexadecimal digits"),
        }
    }

    /// Takes which device a head is of, and what stands below it.
    fn take_head(&mut self, found: &mut Found, line: &str) -> Result<()> {
        let mut words = line.split_whitespace();
        let head = words.next().unwrap_or("");
        let (address, kind) = head.rsplit_once(":").unwrap_or(("", head));
        let time = words.next().unwrap_or("");
        ensure!(
            time.is_empty() || is_time(time),
            "{time} is no time in seconds"
        );
        let alloc = *self.bytes.allocator();
        self.time = String::from_str(alloc, time)?;
        self.address = String::from_str(alloc, address)?;
        self.below = if kind == "STREAM" {
            Below::Report
        } else {
            Below::Descriptor
        };
        self.device = found.device_called(address)?;
        Ok(())
    }

    /// A report of the head's device.
    fn report(&self, bytes: Vec<u8>) -> Result<GivenReport, AllocError> {
        let alloc = *self.bytes.allocator();
        Ok(GivenReport {
            device: self.device,
            address: Some(String::from_str(alloc, self.address.as_str())?),
            time: Some(String::from_str(alloc, self.time.as_str())?),
            bytes,
        })
    }

    /// Takes what stood below the head.
    pub fn end(&mut self, found: &mut Found) -> Result<()> {
        let alloc = *self.bytes.allocator();
        let bytes = mem::replace(&mut self.bytes, Vec::new(alloc));
        let below = mem::replace(&mut self.below, Below::Nothing);
        match below {
            Below::Nothing => Ok(()),
            Below::Descriptor => found.add_descriptor(self.device, bytes),
            Below::Report => Ok(found.add_report(self.report(bytes)?)?),
        }
    }
}
