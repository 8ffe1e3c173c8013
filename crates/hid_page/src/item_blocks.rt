//! The items in a page: as text, as JSON, and which bits each makes.
use crate::made_bits::made_bits;
use crate::sheet::Sheet;
use anyhow::Result;
use hid_input::settings::Settings;
use hid_items::item_lines::{ItemLines, ItemStyle};
use hid_output::{add_json, flush_piece};
use hidreport::{ParserError, PlacedOutline};
use std::alloc::Global;

/// The items of a descriptor, of which a page has the first.
#[derive(Clone, Copy)]
pub struct ItemBlocks<'a> {
    /// The options of the command.
    pub settings: &'a Settings<'a>,
    /// The descriptor.
    pub bytes: &'a [u8],
    /// Why it is refused, if it is.
    pub fault: Option<&'a ParserError>,
}

impl<'a> ItemBlocks<'a> {
    /// What is said of each item.
    fn lines(self, alloc: Global, style: ItemStyle) -> ItemLines<'a> {
        ItemLines::new(alloc, style, self.settings.parse, self.bytes, self.fault)
    }

    /// Writes the items in words.
    pub fn show_text<R: AllocGlobal + Print>(self, rt: &R, sheet: &mut Sheet) -> Result<()> {
        let mut lines = self.lines(rt.alloc(), ItemStyle::Words);
        for _ in 0..sheet.left_out.most.items.min(self.bytes.len()) {
            if !add_words(rt, &mut lines, sheet)? {
                break;
            }
        }
        if lines.is_at_end() {
            lines.end(&mut sheet.lines)?;
        }
        Ok(sheet.take_words()?)
    }

    /// Writes the block of the items.
    pub fn show_objects<R: AllocGlobal + Print>(self, rt: &R, sheet: &mut Sheet) -> Result<()> {
        sheet.begin("items")?;
        let mut lines = self.lines(rt.alloc(), ItemStyle::Json);
        for _ in 0..sheet.left_out.most.items.min(self.bytes.len()) {
            if !add_objects(rt, &mut lines, sheet)? {
                break;
            }
        }
        if lines.is_at_end() {
            lines.end(&mut sheet.lines)?;
        } else {
            sheet.left_out.bytes = self.bytes.len().saturating_sub(lines.offset());
        }
        sheet.take(rt)?;
        Ok(sheet.end()?)
    }
}

/// Writes what is said of the next item in words; answers whether there was one.
fn add_words<R: Print>(rt: &R, lines: &mut ItemLines, sheet: &mut Sheet) -> Result<bool> {
    if !lines.add_next(&mut sheet.lines)? {
        return Ok(false);
    }
    sheet.take_words()?;
    flush_piece(rt, &mut sheet.text)?;
    Ok(true)
}

/// The same as JSON.
fn add_objects<R: Print>(rt: &R, lines: &mut ItemLines, sheet: &mut Sheet) -> Result<bool> {
    if !lines.add_next(&mut sheet.lines)? {
        return Ok(false);
    }
    sheet.take(rt)?;
    Ok(true)
}

/// Writes the block of the bits that the first items make.
pub fn show_made_bits<R: AllocGlobal + Print>(
    rt: &R,
    settings: &Settings,
    bytes: &[u8],
    sheet: &mut Sheet,
) -> Result<()> {
    sheet.begin("made")?;
    let placed = placed_outline(rt.alloc(), settings, bytes)?;
    show_placed(rt, &placed, sheet)
}

fn show_placed<R: AllocGlobal + Print>(
    rt: &R,
    placed: &PlacedOutline,
    sheet: &mut Sheet,
) -> Result<()> {
    for object in &made_bits(rt.alloc(), placed, sheet.left_out.most.items)? {
        add_json(&mut sheet.lines, object)?;
        sheet.take(rt)?;
    }
    Ok(sheet.end()?)
}

/// The outline of a descriptor that is read; of one of which nothing was left there is nothing.
fn placed_outline(alloc: Global, settings: &Settings, bytes: &[u8]) -> Result<PlacedOutline> {
    if bytes.is_empty() {
        return Ok(PlacedOutline::empty(alloc));
    }
    Ok(PlacedOutline::try_from_with(alloc, bytes, settings.parse)?)
}
