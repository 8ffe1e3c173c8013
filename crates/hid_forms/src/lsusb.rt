//! The text of `lsusb -v`: below `Report Descriptor: (length is N)` the items of a descriptor, each
//! with its name and its bytes, and what they mean. What else stands there is no descriptor.
use crate::hex_text::without_prefix;
use anyhow::{Result, bail, ensure};
use hid_given::{Found, Part};
use std::alloc::Global;
use std::fmt::Write;
use std::mem;

/// The types of items and their names, each with the byte that begins such an item without data.
static ITEMS: [(&str, &str, u8); 27] = [
    ("Main", "Input", 0x80),
    ("Main", "Output", 0x90),
    ("Main", "Feature", 0xb0),
    ("Main", "Collection", 0xa0),
    ("Main", "End Collection", 0xc0),
    ("Global", "Usage Page", 0x04),
    ("Global", "Logical Minimum", 0x14),
    ("Global", "Logical Maximum", 0x24),
    ("Global", "Physical Minimum", 0x34),
    ("Global", "Physical Maximum", 0x44),
    ("Global", "Unit Exponent", 0x54),
    ("Global", "Unit", 0x64),
    ("Global", "Report Size", 0x74),
    ("Global", "Report ID", 0x84),
    ("Global", "Report Count", 0x94),
    ("Global", "Push", 0xa4),
    ("Global", "Pop", 0xb4),
    ("Local", "Usage", 0x08),
    ("Local", "Usage Minimum", 0x18),
    ("Local", "Usage Maximum", 0x28),
    ("Local", "Designator Index", 0x38),
    ("Local", "Designator Minimum", 0x48),
    ("Local", "Designator Maximum", 0x58),
    ("Local", "String Index", 0x78),
    ("Local", "String Minimum", 0x88),
    ("Local", "String Maximum", 0x98),
    ("Local", "Delimiter", 0xa8),
];

/// What reads lsusb's text.
#[derive(Drop)]
pub struct LsusbLines {
    /// The ids of the device, and its interface.
    ids: String,
    interface: String,
    /// Whether a descriptor's items come, how many spaces stand before its first line, and how many
    /// bytes it says that they have.
    is_inside: bool,
    indent: usize,
    said: Option<usize>,
    bytes: Vec<u8>,
}

/// Whether a line is one of lsusb's that says something.
pub fn is_lsusb_line(line: &str) -> bool {
    let line = line.trim();
    let is_head = line.starts_with("Bus ") && line.contains(" Device ") && line.contains(": ID ");
    is_head || line == "Device Descriptor:" || said_in(line).is_some() || is_item(line)
}

/// How many spaces a line begins with.
fn indent_of(line: &str) -> usize {
    line.len().saturating_sub(line.trim_start().len())
}

/// Whether a line is an item.
fn is_item(line: &str) -> bool {
    line.trim().starts_with("Item(")
}

/// The number of bytes that the first line of a descriptor says.
fn said_in(line: &str) -> Option<&str> {
    line.trim()
        .strip_prefix("Report Descriptor: (length is ")?
        .strip_suffix(")")
}

/// The byte that begins an item with this name, without its size.
fn tag_of(kind: &str, name: &str) -> Option<u8> {
    let row = ITEMS
        .iter()
        .find(|(own, called, _tag)| *own == kind && *called == name)?;
    Some(row.2)
}

impl LsusbLines {
    /// Before the first line.
    pub fn new(alloc: Global) -> LsusbLines {
        LsusbLines {
            ids: String::new(alloc),
            interface: String::new(alloc),
            is_inside: false,
            indent: 0,
            said: None,
            bytes: Vec::new(alloc),
        }
    }

    /// Takes what a line says.
    pub fn take(&mut self, found: &mut Found, line: &str) -> Result<()> {
        let indent = indent_of(line);
        if let Some(said) = said_in(line) {
            self.end(found)?;
            return self.begin(said, indent);
        }
        if is_item(line) {
            ensure!(
                self.is_inside || found.devices.is_empty(),
                "an item stands below no Report Descriptor"
            );
            if !self.is_inside {
                self.is_inside = true;
                self.indent = indent;
            }
            return self.take_item(line.trim());
        }
        if line.trim().is_empty() || self.is_inside && self.indent < indent {
            return Ok(());
        }
        self.end(found)?;
        self.take_other(line.trim())
    }

    /// Takes the first line of a descriptor, behind so many spaces.
    fn begin(&mut self, said: &str, indent: usize) -> Result<()> {
        match said.parse::<usize>() {
            Ok(said) => {
                self.said = Some(said);
                self.is_inside = true;
                self.indent = indent;
                Ok(())
            }
            Err(_wrong) => bail!("{said} is no number of bytes"),
        }
    }

    /// Takes a line that is of no descriptor: it may say which device comes.
    fn take_other(&mut self, line: &str) -> Result<()> {
        let alloc = *self.bytes.allocator();
        if let Some((_bus, ids)) = line.split_once(": ID ") {
            let ids = ids.split_whitespace().next().unwrap_or("");
            self.ids = String::from_str(alloc, ids)?;
        }
        if let Some(number) = line.strip_prefix("bInterfaceNumber") {
            self.interface = String::from_str(alloc, number.trim())?;
        }
        Ok(())
    }

    /// Takes an item.
    fn take_item(&mut self, line: &str) -> Result<()> {
        let Some((head, data)) = line.split_once(", data=") else {
            bail!("an item is Item(TYPE): NAME, data=BYTES");
        };
        let (kind, name) = head.split_once("):").unwrap_or((head, ""));
        let kind = kind.strip_prefix("Item(").unwrap_or("").trim();
        let Some(tag) = tag_of(kind, name.trim()) else {
            bail!("no item of the type {kind} has the name{name}");
        };
        self.take_data(tag, data.trim())
    }

    /// Takes the data of an item.
    fn take_data(&mut self, tag: u8, data: &str) -> Result<()> {
        if data == "none" {
            return Ok(self.bytes.push(tag)?);
        }
        let alloc = *self.bytes.allocator();
        let mut parts = Vec::new(alloc);
        let Some((list, number)) = data.strip_prefix("[").and_then(|it| it.split_once("]")) else {
            bail!("an item's data are bytes in brackets, or none");
        };
        for word in list.split_whitespace() {
            let Some(byte) = byte_of(word) else {
                bail!("{word} is no byte");
            };
            parts.push(byte)?;
        }
        let size = size_of(parts.len())?;
        ensure!(
            is_value(number.trim(), &parts),
            "{} isn't the number that its bytes are",
            number.trim()
        );
        self.bytes.push(tag | size)?;
        Ok(self.bytes.extend_from_slice(&parts)?)
    }

    /// Takes the descriptor, where one is there.
    pub fn end(&mut self, found: &mut Found) -> Result<()> {
        if !self.is_inside {
            return Ok(());
        }
        self.is_inside = false;
        let alloc = *self.bytes.allocator();
        let bytes = mem::replace(&mut self.bytes, Vec::new(alloc));
        let got = bytes.len();
        if let Some(said) = self.said.take() {
            ensure!(got == said, "says {said} bytes, and has {got}");
        }
        let number = found.devices.len();
        if !self.ids.is_empty() {
            let mut name = String::new(alloc);
            write!(name, "{} interface {}", self.ids, self.interface)?;
            found.set(number, Part::Name, name.as_str())?;
        }
        found.add_descriptor(number, bytes)
    }
}

/// The byte of a word in lsusb's digits.
fn byte_of(word: &str) -> Option<u8> {
    let digits = without_prefix(word)?;
    if digits.starts_with("+") {
        return None;
    }
    u8::from_str_radix(digits, 16).ok()
}

/// What an item's first byte says of so many bytes of data.
fn size_of(count: usize) -> Result<u8> {
    match count {
        0 => Ok(0),
        1 => Ok(1),
        2 => Ok(2),
        4 => Ok(3),
        _ => bail!("an item has no {count} bytes of data"),
    }
}

/// Whether a number is the one that bytes are, the lowest first: with a sign where there are four.
fn is_value(number: &str, parts: &[u8]) -> bool {
    let mut value: u32 = 0;
    for byte in parts.iter().rev() {
        value = value << 8 | u32::from(*byte);
    }
    match number.parse::<i64>() {
        Ok(number) => number == i64::from(value) || number == i64::from(value.cast_signed()),
        Err(_wrong) => false,
    }
}
