//! A descriptor as a list in a program's source, an item in a line.
use crate::lufa::add_lufa_item;
use crate::tinyusb::add_tinyusb_item;
use crate::zephyr::add_zephyr_item;
use anyhow::Result;
use hid_items::items::{ItemCursor, ItemState, PlacedItem};
use hid_output::{add_numbers, flush, flush_piece};
use hid_words::{add_depth, add_item, add_spaces, indent_of};
use std::alloc::AllocError;
use std::fmt::Write;

/// How many bytes that are no item stand in a line.
const IN_A_LINE: usize = 16;

/// What a list is written in.
#[derive(Clone, Copy, PartialEq)]
pub enum Source {
    /// C.
    C,

    /// C as in Linux: remarks in a column, as deep as their items.
    Kernel,

    /// Rust.
    Rust,

    /// Python, with remarks as in `Kernel`.
    Python,

    /// The macros of Zephyr's `usb/class/hid.h`.
    Zephyr,

    /// The macros of TinyUSB's `class/hid/hid.h`.
    TinyUsb,

    /// The macros of LUFA's `HIDReportData.h`, which QMK has, too.
    Lufa,
}

impl Source {
    /// Writes a descriptor's bytes.
    pub fn write<R: AllocGlobal + Print>(self, rt: &R, bytes: &[u8]) -> Result<()> {
        let mut text = String::new(rt.alloc());
        self.add_head(&mut text, bytes.len())?;
        self.add_items(rt, &mut text, bytes)?;
        text.push_str(self.end())?;
        flush(rt, &mut text)
    }

    /// Appends what stands before so many bytes.
    fn add_head(self, text: &mut String, count: usize) -> Result<(), AllocError> {
        match self {
            Source::C => writeln!(
                text,
                "static const unsigned char report_descriptor[{count}] = {{"
            ),
            Source::Kernel => text.push_str("static const __u8 report_descriptor[] = {\n"),
            Source::Rust => writeln!(text, "pub const REPORT_DESCRIPTOR: [u8; {count}] = ["),
            Source::Python => text.push_str("report_descriptor = bytes([\n"),
            Source::Zephyr => text.push_str("static const uint8_t report_descriptor[] = {\n"),
            Source::TinyUsb => text.push_str("uint8_t const report_descriptor[] = {\n"),
            Source::Lufa => text.push_str(
                "const USB_Descriptor_HIDReport_Datatype_t PROGMEM report_descriptor[] = {\n",
            ),
        }
    }

    /// What stands behind the bytes.
    fn end(self) -> &'static str {
        match self {
            Source::Rust => "];\n",
            Source::Python => "])\n",
            _ => "};\n",
        }
    }

    /// Appends a line for each item, and lines for what is no item.
    fn add_items<R: AllocGlobal + Print>(
        self,
        rt: &R,
        text: &mut String,
        bytes: &[u8],
    ) -> Result<()> {
        let mut state = ItemState::new(rt.alloc());
        let mut cursor = ItemCursor::new(bytes);
        for entry in cursor.by_ref() {
            self.add_code(text, &entry, &state)?;
            self.add_remark(text, &entry, &state)?;
            state.pass(&entry)?;
            flush_piece(rt, text)?;
        }
        for line in cursor.rest().chunks(IN_A_LINE) {
            self.add_margin(text, 0)?;
            add_numbers(text, line)?;
            text.push_str("\n")?;
        }
        Ok(())
    }

    /// Appends what stands before the code of a line: macros are as deep as their items.
    fn add_margin(self, text: &mut String, depth: usize) -> Result<(), AllocError> {
        match self {
            Source::C | Source::Rust | Source::Python => add_spaces(text, 4),
            Source::Kernel => text.push_str("\t"),
            Source::Zephyr => add_tabs(text, (indent_of(depth) / 2).saturating_add(1)),
            Source::TinyUsb => add_spaces(text, indent_of(depth).saturating_add(2)),
            Source::Lufa => add_spaces(text, indent_of(depth).saturating_mul(2).saturating_add(4)),
        }
    }

    /// Appends an item's code, with what stands before it.
    fn add_code(
        self,
        text: &mut String,
        entry: &PlacedItem,
        state: &ItemState,
    ) -> Result<(), AllocError> {
        self.add_margin(text, state.depth_of(&entry.item))?;
        match self {
            Source::C | Source::Rust => add_numbers(text, entry.bytes),
            Source::Kernel | Source::Python => add_column(text, entry.bytes),
            Source::Zephyr => add_zephyr_item(text, entry.bytes),
            Source::TinyUsb => add_tinyusb_item(text, entry.bytes),
            Source::Lufa => add_lufa_item(text, entry.bytes),
        }
    }

    /// Appends an item's words as a remark, and the line's end.
    fn add_remark(
        self,
        text: &mut String,
        entry: &PlacedItem,
        state: &ItemState,
    ) -> Result<(), AllocError> {
        text.push_str(match self {
            Source::C | Source::Rust => " // ",
            Source::Python => " # ",
            _ => " /* ",
        })?;
        if matches!(self, Source::Kernel | Source::Python) {
            add_depth(text, state.depth_of(&entry.item))?;
        }
        add_item(text, &entry.item, state.page())?;
        text.push_str(match self {
            Source::C | Source::Rust | Source::Python => "\n",
            _ => " */\n",
        })
    }
}

/// Appends tabs.
pub fn add_tabs(text: &mut String, count: usize) -> Result<(), AllocError> {
    for _ in 0..count {
        text.push_str("\t")?;
    }
    Ok(())
}

/// Appends bytes as numbers of a list, and spaces up to the column behind a short item.
fn add_column(text: &mut String, bytes: &[u8]) -> Result<(), AllocError> {
    let mut numbers = String::new(*text.allocator());
    add_numbers(&mut numbers, bytes)?;
    write!(text, "{numbers:<30}")
}
