//! A descriptor in the macros of Linux's `hid_report_helpers.h`, of udev-hid-bpf.
use crate::source::add_tabs;
use crate::tinyusb::number_of;
use anyhow::Result;
use hid_items::items::{ItemCursor, ItemState, PlacedItem};
use hid_macros::{NUMBERS, RANGES, UNITS, name_in, page_named, usage_header, usage_named};
use hid_output::{add_numbers, flush, flush_piece};
use hid_words::add_item;
use hidreport::hid::{GlobalItem, ItemType, MainItem};
use std::alloc::{AllocError, Global};
use std::fmt::Write;

/// The most macros that stand in one another: a C compiler has to take 63 parentheses.
const DEEPEST: usize = 60;

/// How many bytes that are no item stand in a line.
const IN_A_LINE: usize = 16;

/// Writes a descriptor's bytes, a macro in a line; bytes that no macro writes stand as they are.
pub fn write_bpf<R: AllocGlobal + Print>(rt: &R, bytes: &[u8]) -> Result<()> {
    let mut text = String::new(rt.alloc());
    text.push_str("static const __u8 report_descriptor[] = {\n")?;
    write_items(rt, &mut text, bytes)?;
    text.push_str("};\n")?;
    flush(rt, &mut text)
}

/// Writes the items, and the bytes behind them that are none.
fn write_items<R: AllocGlobal + Print>(rt: &R, text: &mut String, bytes: &[u8]) -> Result<()> {
    let is_nested = is_nested(rt.alloc(), bytes)?;
    let mut state = ItemState::new(rt.alloc());
    let mut depth = 1usize;
    let mut cursor = ItemCursor::new(bytes);
    for _ in 0..bytes.len() {
        let Some(entry) = cursor.next() else {
            break;
        };
        if is_nested && is_end(&entry.item) {
            depth = depth.saturating_sub(1);
        }
        add_tabs(text, depth)?;
        if is_nested && add_around(text, entry.bytes)? {
            depth = depth.saturating_add(usize::from(!is_end(&entry.item)));
        } else {
            add_next(text, &entry, &mut cursor, &state)?;
        }
        state.pass(&entry)?;
        flush_piece(rt, text)?;
    }
    add_rest(text, cursor.rest())
}

/// Appends an item, with the one behind it where both are a range.
fn add_next(
    text: &mut String,
    entry: &PlacedItem,
    cursor: &mut ItemCursor,
    state: &ItemState,
) -> Result<(), AllocError> {
    if add_range(text, entry.bytes, cursor.rest())? {
        // No bound changes what is written of other items.
        let _maximum = cursor.next();
        return Ok(());
    }
    add_code(text, entry, state)
}

/// Appends bytes that are no item, in lines.
fn add_rest(text: &mut String, rest: &[u8]) -> Result<()> {
    for line in rest.chunks(IN_A_LINE) {
        text.push_str("\t")?;
        add_numbers(text, line)?;
        text.push_str("\n")?;
    }
    Ok(())
}

/// Whether an item ends what another begins.
fn is_end(item: &ItemType) -> bool {
    match item {
        ItemType::Main(MainItem::EndCollection) => true,
        ItemType::Global(GlobalItem::Pop) => true,
        _ => false,
    }
}

/// Whether each collection and each Push has its end, all stand in one another, and the macros
/// write just these bytes.
fn is_nested(alloc: Global, bytes: &[u8]) -> Result<bool, AllocError> {
    let mut ends = Vec::new(alloc);
    let mut cursor = ItemCursor::new(bytes);
    for entry in cursor.by_ref() {
        match entry.bytes {
            [0xa1, _kind] => ends.push(0xc0u8)?,
            [0xa4] => ends.push(0xb4)?,
            [0xc0] if ends.pop() == Some(0xc0) => {}
            [0xb4] if ends.pop() == Some(0xb4) => {}
            [header, ..] if matches!(*header & 0xfc, 0xa0 | 0xc0 | 0xa4 | 0xb4) => return Ok(false),
            _ => {}
        }
        if ends.len() > DEEPEST {
            return Ok(false);
        }
    }
    Ok(ends.is_empty() && cursor.rest().is_empty())
}

/// Appends the line of a macro around others, or of its end; answers whether these bytes are one.
fn add_around(text: &mut String, bytes: &[u8]) -> Result<bool, AllocError> {
    match bytes {
        [0xa1, 0] => text.push_str("CollectionPhysical(\n")?,
        [0xa1, 1] => text.push_str("CollectionApplication(\n")?,
        [0xa1, 2] => text.push_str("CollectionLogical(\n")?,
        [0xa1, kind] => writeln!(text, "Collection(0x{kind:02x},")?,
        [0xa4] => text.push_str("PushPop(\n")?,
        [0xc0 | 0xb4] => text.push_str(")\n")?,
        _ => return Ok(false),
    }
    Ok(true)
}

/// Appends the line of a minimum and a maximum that follows it, if one macro writes both; answers
/// whether it does.
fn add_range(text: &mut String, minimum: &[u8], rest: &[u8]) -> Result<bool, AllocError> {
    let (Some((header, low)), Some((next, rest))) = (minimum.split_first(), rest.split_first())
    else {
        return Ok(false);
    };
    let (Some(name), Some(high)) = (name_in(&RANGES, *header), rest.get(..low.len())) else {
        return Ok(false);
    };
    if *next != header.saturating_add(0x10) {
        return Ok(false);
    }
    if header & 0x0c == 0x08 {
        let (low, high) = (number_of(low), number_of(high));
        writeln!(text, "{name}(0x{low:02x}, 0x{high:02x})")?;
    } else {
        writeln!(text, "{name}({}, {})", signed_of(low), signed_of(high))?;
    }
    Ok(true)
}

/// The number in an item's data, with a sign.
fn signed_of(data: &[u8]) -> i32 {
    let number = number_of(data).to_le_bytes();
    match data.len() {
        1 => i32::from(i8::from_le_bytes([number[0]])),
        2 => i32::from(i16::from_le_bytes([number[0], number[1]])),
        _ => i32::from_le_bytes(number),
    }
}

/// Appends an item's macro, or its bytes with its words as a remark, and the line's end.
fn add_code(text: &mut String, entry: &PlacedItem, state: &ItemState) -> Result<(), AllocError> {
    if add_macro(text, entry.bytes, u16::from(state.page()))? {
        return text.push_str("\n");
    }
    add_numbers(text, entry.bytes)?;
    text.push_str(" /* ")?;
    add_item(text, &entry.item, state.page())?;
    text.push_str(" */\n")
}

/// Appends the macro that writes just these bytes; answers whether there is one.
fn add_macro(text: &mut String, bytes: &[u8], page: u16) -> Result<bool, AllocError> {
    let Some((header, data)) = bytes.split_first() else {
        return Ok(false);
    };
    let number = number_of(data);
    match (*header, data) {
        (0x81 | 0x91 | 0xb1, [flags]) => add_flags(text, *header, *flags)?,
        (0x05 | 0x06, _) => add_page(text, *header, number)?,
        (0x09 | 0x0a, _) => add_usage(text, *header, number, page)?,
        (0x0b, _) => write!(text, "Usage_i32(0x{number:08x})")?,
        (0x65, _) => add_unit(text, number)?,
        (0x55, [exponent]) if *exponent < 8 => write!(text, "UnitExponent({exponent})")?,
        (0x55, [exponent]) if *exponent < 16 => {
            let below = 16u8.saturating_sub(*exponent);
            write!(text, "UnitExponent(-{below})")?;
        }
        _ => match name_in(&NUMBERS, *header) {
            Some(name) => write!(text, "{name}({number})")?,
            None => return Ok(false),
        },
    }
    Ok(true)
}

/// Appends an Input, an Output or a Feature: the flags that have names, and the number of others.
fn add_flags(text: &mut String, header: u8, flags: u8) -> Result<(), AllocError> {
    text.push_str(name_in(&NUMBERS, header).unwrap_or(""))?;
    text.push_str(if flags & 1 == 0 { "(" } else { "(Const|" })?;
    text.push_str(if flags & 2 == 0 { "Arr|" } else { "Var|" })?;
    text.push_str(if flags & 4 == 0 { "Abs" } else { "Rel" })?;
    let others = flags & 0xf8;
    if others != 0 {
        write!(text, "|0x{others:02x}")?;
    }
    text.push_str(")")
}

/// Appends a usage page, by its name where its macro writes as many bytes.
fn add_page(text: &mut String, header: u8, number: u32) -> Result<(), AllocError> {
    let (is_short, page) = (header == 0x05, u16::try_from(number).unwrap_or(0));
    if let Some((name, _begin)) = page_named(page)
        && is_short == (page < 0x100)
    {
        return write!(text, "UsagePage_{name}");
    }
    if is_short {
        write!(text, "UsagePage_i8(0x{page:02x})")
    } else if page < 0xff00 {
        write!(text, "UsagePage_i16(0x{page:04x})")
    } else {
        write!(text, "UsagePage_Vendor(0x{page:04x})")
    }
}

/// Appends a usage on a page, by its name where its macro writes as many bytes.
fn add_usage(text: &mut String, header: u8, number: u32, page: u16) -> Result<(), AllocError> {
    let id = u16::try_from(number).unwrap_or(0);
    if let Some((_name, begin)) = page_named(page)
        && usage_header(id) == header
        && let Some(name) = usage_named(page, id)
    {
        return write!(text, "Usage_{begin}_{name}");
    }
    if header == 0x09 {
        return write!(text, "Usage_i8(0x{id:02x})");
    }
    write!(text, "Usage_i16(0x{id:04x})")
}

/// Appends a unit, by its name where it has one.
fn add_unit(text: &mut String, number: u32) -> Result<(), AllocError> {
    for (own, name) in &UNITS {
        if *own == number && number > 0x0f {
            return write!(text, "Unit({name})");
        }
    }
    write!(text, "Unit_i8(0x{number:02x})")
}
