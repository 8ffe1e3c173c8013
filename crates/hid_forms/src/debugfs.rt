//! The file `rdesc` of a device in debugfs (/sys/kernel/debug/hid): the descriptor's bytes in a
//! line, below it what Linux makes of them, which is no further descriptor.
use crate::hex_text::bytes_of_hex;
use anyhow::{Result, bail, ensure};
use hid_given::Found;
use std::alloc::Global;

/// The directions, as they begin a report.
static DIRECTIONS: [&str; 3] = ["INPUT", "OUTPUT", "FEATURE"];

/// What is said of a field, with something in parentheses behind it.
static PARTS: [&str; 15] = [
    "Field",
    "Physical",
    "Logical",
    "Application",
    "Usage",
    "Logical Minimum",
    "Logical Maximum",
    "Physical Minimum",
    "Physical Maximum",
    "Unit Exponent",
    "Unit",
    "Report Size",
    "Report Count",
    "Report Offset",
    "Flags",
];

/// What reads the file.
#[derive(Drop)]
pub struct DebugfsLines {
    /// Whether the bytes were there, and a report.
    is_described: bool,
    is_below: bool,
}

/// Whether a line is the first of a report.
pub fn is_debugfs_head(line: &str) -> bool {
    let Some((direction, rest)) = line.trim().split_once("[") else {
        return false;
    };
    let direction = direction.split_once("(").unwrap_or((direction, "")).0;
    let Some(kind) = rest.strip_suffix("]") else {
        return false;
    };
    kind == direction && DIRECTIONS.iter().any(|it| *it == direction)
}

/// Whether a line says something of a field: a part with parentheses, a usage, or an event.
fn is_of_field(line: &str) -> bool {
    if line.contains(" ---> ") {
        return true;
    }
    let text = line.trim();
    match text.split_once("(") {
        Some((part, rest)) => rest.ends_with(")") && PARTS.iter().any(|it| *it == part),
        None => line.starts_with("        ") && text.contains("."),
    }
}

impl DebugfsLines {
    /// Before the first line.
    pub fn new() -> DebugfsLines {
        DebugfsLines {
            is_described: false,
            is_below: false,
        }
    }

    /// Takes what a line says.
    pub fn take(&mut self, found: &mut Found, line: &str) -> Result<()> {
        if line.trim().is_empty() {
            return Ok(());
        }
        if !self.is_described {
            self.is_described = true;
            return take_bytes(*found.devices.allocator(), found, line);
        }
        self.is_below = self.is_below || is_debugfs_head(line);
        ensure!(self.is_below, "is no report behind the bytes");
        ensure!(
            is_debugfs_head(line) || is_of_field(line),
            "is no line of a report"
        );
        Ok(())
    }
}

/// Takes the descriptor.
fn take_bytes(alloc: Global, found: &mut Found, line: &str) -> Result<()> {
    match bytes_of_hex(alloc, line)? {
        Some(bytes) => found.add_descriptor(0, bytes),
        None => bail!("isn't bytes in hexadecimal digits"),
    }
}
