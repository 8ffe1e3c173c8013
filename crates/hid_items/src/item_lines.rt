//! The lines of a descriptor's items, in words or as JSON.
use crate::cut_data::cut_remark;
use crate::items::{ItemCursor, ItemState, PlacedItem};
use crate::moved_usages::StoodUsages;
use anyhow::Result;
use hid_output::{add_bytes, add_json, digits_of};
use hid_words::{Colour, add_depth, add_item, fault_offset, fault_words, number_of};
use hidreport::hid::ItemType;
use hidreport::{ParseOptions, ParserError};
use hidreport_usages::item_name;
use serde::Serialize;
use std::alloc::{AllocError, Global};
use std::fmt::Write;

/// How many bytes that are no item stand in a line.
const IN_A_LINE: usize = 16;

/// An item as JSON.
#[derive(Drop, Serialize)]
struct ItemObject<'a> {
    offset: usize,
    bytes: &'a str,
    depth: usize,
    item: &'a str,
    value: Option<i64>,
    words: &'a str,
}

/// What is wrong with a descriptor, as JSON.
#[derive(Drop, Serialize)]
struct FaultObject<'a> {
    offset: Option<usize>,
    fault: &'a str,
}

/// What is said of an item, as JSON.
#[derive(Drop, Serialize)]
struct RemarkObject<'a> {
    offset: usize,
    remark: &'a str,
}

/// Bytes that are no item, as JSON.
#[derive(Drop, Serialize)]
struct RestObject<'a> {
    offset: usize,
    rest: &'a str,
}

/// How items are written.
#[derive(Clone, Copy, PartialEq)]
pub enum ItemStyle {
    /// In words.
    Words,

    /// In words, in a terminal's colours.
    Coloured,

    /// As JSON.
    Json,
}

/// The lines of items: of each its offset, its bytes and its words, two spaces deeper for each
/// collection that is open. A fault has a line of its own below its item, or at the end.
#[derive(Drop)]
pub struct ItemLines<'a> {
    style: ItemStyle,
    fault: Option<&'a ParserError>,
    is_told: bool,
    cursor: ItemCursor<'a>,
    state: ItemState,
    stood: StoodUsages,
}

impl<'a> ItemLines<'a> {
    /// Before the first item.
    pub fn new(
        alloc: Global,
        style: ItemStyle,
        options: ParseOptions,
        bytes: &'a [u8],
        fault: Option<&'a ParserError>,
    ) -> ItemLines<'a> {
        ItemLines {
            style,
            fault,
            is_told: fault.is_none(),
            cursor: ItemCursor::new(bytes),
            state: ItemState::new(alloc),
            stood: StoodUsages::new(alloc, options),
        }
    }

    /// Appends what is said of the next item; answers whether there was one.
    pub fn add_next(&mut self, text: &mut String) -> Result<bool> {
        let Some(entry) = self.cursor.next() else {
            return Ok(false);
        };
        add_entry(text, self.style, &entry, &self.state)?;
        let page = self.state.page();
        if let Some(remark) = cut_remark(*text.allocator(), &entry)? {
            add_remark(text, self.style, entry.offset, remark.as_str())?;
        }
        if let Some(remark) = self.stood.remark(*text.allocator(), &entry.item, page)? {
            add_remark(text, self.style, entry.offset, remark.as_str())?;
        }
        self.stood.pass(&entry.item, page)?;
        self.state.pass(&entry)?;
        if !self.is_told && self.fault.and_then(|fault| fault_offset(fault)) == Some(entry.offset) {
            add_fault(text, self.style, self.fault)?;
            self.is_told = true;
        }
        Ok(true)
    }

    /// How many bytes stand before the next item.
    pub fn offset(&self) -> usize {
        self.cursor.offset()
    }

    /// Whether no item is left.
    pub fn is_at_end(&self) -> bool {
        let mut rest = self.cursor;
        rest.next().is_none()
    }

    /// Appends what is said behind the last item.
    pub fn end(&self, text: &mut String) -> Result<()> {
        if !self.is_told {
            add_fault(text, self.style, self.fault)?;
        }
        add_rest(text, self.style, self.cursor.offset(), self.cursor.rest())
    }
}

/// Appends what is shown of an item.
fn add_entry(
    text: &mut String,
    style: ItemStyle,
    entry: &PlacedItem,
    state: &ItemState,
) -> Result<()> {
    let depth = state.depth_of(&entry.item);
    if style == ItemStyle::Json {
        return add_object(text, entry, depth, state);
    }
    Ok(add_line(text, entry, depth, state, style == ItemStyle::Coloured)?)
}

/// Appends an item as JSON.
fn add_object(
    text: &mut String,
    entry: &PlacedItem,
    depth: usize,
    state: &ItemState,
) -> Result<()> {
    let alloc = *text.allocator();
    let digits = digits_of(alloc, entry.bytes)?;
    let mut words = String::new(alloc);
    add_item(&mut words, &entry.item, state.page())?;
    let object = ItemObject {
        offset: entry.offset,
        bytes: digits.as_str(),
        depth,
        item: item_name(&entry.item),
        value: number_of(&entry.item),
        words: words.as_str(),
    };
    add_json(text, &object)
}

/// Appends the line of an item without its end: its offset, its bytes and its words.
pub fn add_item_line(
    text: &mut String,
    entry: &PlacedItem,
    state: &ItemState,
) -> Result<(), AllocError> {
    add_place(text, entry.offset, entry.bytes)?;
    add_depth(text, state.depth_of(&entry.item))?;
    add_item(text, &entry.item, state.page())
}

/// Appends the line of an item.
fn add_line(
    text: &mut String,
    entry: &PlacedItem,
    depth: usize,
    state: &ItemState,
    is_coloured: bool,
) -> Result<(), AllocError> {
    add_place(text, entry.offset, entry.bytes)?;
    add_depth(text, depth)?;
    colour_of(&entry.item).begin(text, is_coloured)?;
    add_item(text, &entry.item, state.page())?;
    Colour::end(text, is_coloured)?;
    text.push_str("\n")
}

/// Appends an offset and the bytes that stand there.
pub fn add_place(text: &mut String, offset: usize, bytes: &[u8]) -> Result<(), AllocError> {
    let digits = digits_of(*text.allocator(), bytes)?;
    write!(text, "{offset:>5}: {digits:<15} ")
}

/// The colour of a type of items.
fn colour_of(item: &ItemType) -> Colour {
    match item {
        ItemType::Main(_) => Colour::Cyan,
        ItemType::Global(_) => Colour::Yellow,
        ItemType::Local(_) => Colour::Green,
        ItemType::Long | ItemType::Reserved => Colour::Red,
    }
}

/// Appends the bytes behind the last item, in lines of at most sixteen.
fn add_rest(text: &mut String, style: ItemStyle, offset: usize, rest: &[u8]) -> Result<()> {
    let mut offset = offset;
    for bytes in rest.chunks(IN_A_LINE) {
        if style == ItemStyle::Json {
            let digits = digits_of(*text.allocator(), bytes)?;
            let rest = digits.as_str();
            add_json(text, &RestObject { offset, rest })?;
        } else {
            write!(text, "{offset:>5}: ")?;
            add_bytes(text, bytes)?;
            text.push_str("\n")?;
        }
        offset = offset.saturating_add(bytes.len());
    }
    Ok(())
}

/// Appends what is said of an item, in a line that `hid compile` passes over as that of a fault.
fn add_remark(text: &mut String, style: ItemStyle, offset: usize, remark: &str) -> Result<()> {
    if style == ItemStyle::Json {
        return add_json(text, &RemarkObject { offset, remark });
    }
    Ok(writeln!(text, "{offset:>5}! {remark}")?)
}

/// Appends the line of a fault.
fn add_fault(text: &mut String, style: ItemStyle, fault: Option<&ParserError>) -> Result<()> {
    let Some(fault) = fault else {
        return Ok(());
    };
    let offset = fault_offset(fault);
    let fault = fault_words(fault);
    if style == ItemStyle::Json {
        return add_json(text, &FaultObject { offset, fault });
    }
    match offset {
        Some(offset) => writeln!(text, "{offset:>5}! {fault}")?,
        None => writeln!(text, "     ! {fault}")?,
    }
    Ok(())
}
