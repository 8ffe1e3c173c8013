//! The text of a device's collections: a list of them, or an object that has it as `collections`,
//! and maybe the device's `productName`.
use crate::collection::collections_in;
use crate::writer::descriptor_of;
use anyhow::{Error, Result, anyhow, bail};
use hid_given::{Found, Part};
use serde_json::Value;
use std::alloc::{AllocError, Global};

/// What reads the text.
#[derive(Drop)]
pub struct WebHidLines {
    text: String,
}

/// Whether a text is surely a list of collections, or an object with one.
pub fn is_webhid(text: &str) -> bool {
    let text = text.trim();
    let begins = match text.strip_prefix("[") {
        Some(rest) => rest.trim_start().starts_with("{"),
        None => match text.strip_prefix("{") {
            Some(rest) => rest.trim_start().starts_with("\""),
            None => false,
        },
    };
    begins && (text.contains("\"usagePage\"") || text.contains("\"inputReports\""))
}

impl WebHidLines {
    /// Before the first line.
    pub fn new(alloc: Global) -> WebHidLines {
        WebHidLines {
            text: String::new(alloc),
        }
    }

    /// Takes a line.
    pub fn take(&mut self, line: &str) -> Result<(), AllocError> {
        self.text.push_str(line)?;
        self.text.push_str("\n")
    }

    /// Takes what the lines say together, behind the last.
    pub fn end(&mut self, found: &mut Found) -> Result<()> {
        let alloc = *self.text.allocator();
        let device = match Value::from_str(alloc, self.text.as_str()) {
            Ok(device) => device,
            Err(fault) => return Err(unread(fault)),
        };
        take_device(alloc, found, &device)
    }
}

/// Takes a device's descriptor, and its name.
fn take_device(alloc: Global, found: &mut Found, device: &Value) -> Result<()> {
    let list = match device {
        Value::Array(_) => Some(device),
        _ => device.get("collections"),
    };
    let Some(list) = list else {
        bail!("is no list of collections, and has none as collections");
    };
    let collections = collections_in(alloc, list)?;
    let bytes = descriptor_of(alloc, &mut found.notes, &collections)?;
    if let Some(Value::String(name)) = device.get("productName") {
        found.set(0, Part::Name, name)?;
    }
    found.add_descriptor(0, bytes)
}

/// Why a text isn't read.
fn unread(fault: serde_json::Error) -> Error {
    if fault.is_memory() {
        return anyhow!("out of memory");
    }
    anyhow!("is no JSON, or nests deeper than 127: {fault}")
}
