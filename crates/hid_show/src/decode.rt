//! `hid decode`: the items of a descriptor in words.
use anyhow::{Result, bail};
use hid_input::parsing::{descriptor_within, parsed_bytes, with_advice};
use hid_input::settings::Settings;
use hid_input::world::World;
use hid_items::item_lines::{ItemLines, ItemStyle};
use hid_output::ending::Ending;
use hid_output::{flush, flush_piece};
use hidreport::ParserError;

/// Shows the items of a descriptor.
#[derive(Clone, Copy)]
pub struct Decode<'a> {
    /// The descriptor's input.
    pub file: &'a str,
}

impl<'a> Decode<'a> {
    /// Shows each item; then a descriptor that can't be read is refused.
    pub fn run<R: World>(&self, rt: &R, settings: &Settings) -> Result<Ending> {
        let given = descriptor_within(rt, settings, self.file)?;
        show(rt, settings, given.descriptor())
    }
}

fn show<R: World>(rt: &R, settings: &Settings, bytes: &[u8]) -> Result<Ending> {
    match parsed_bytes(rt.alloc(), settings, bytes) {
        Err(ParserError::OutOfMemory) => bail!("out of memory"),
        Err(fault) => {
            show_items(rt, settings, bytes, Some(&fault))?;
            Err(with_advice(rt.alloc(), settings, bytes, fault))
        }
        Ok(_descriptor) => {
            show_items(rt, settings, bytes, None)?;
            Ok(Ending::Done)
        }
    }
}

/// Shows the lines of all items, a fault's below its item or at the end.
fn show_items<R: AllocGlobal + Print>(
    rt: &R,
    settings: &Settings,
    bytes: &[u8],
    fault: Option<&ParserError>,
) -> Result<()> {
    let mut text = String::new(rt.alloc());
    let style = if settings.is_json {
        ItemStyle::Json
    } else if settings.is_coloured {
        ItemStyle::Coloured
    } else {
        ItemStyle::Words
    };
    let mut lines = ItemLines::new(rt.alloc(), style, settings.parse, bytes, fault);
    add_lines(rt, &mut text, &mut lines, bytes.len())?;
    flush(rt, &mut text)
}

/// Shows so many items at most, and the end.
fn add_lines<R: Print>(
    rt: &R,
    text: &mut String,
    lines: &mut ItemLines,
    most: usize,
) -> Result<()> {
    for _ in 0..most {
        if !lines.add_next(text)? {
            break;
        }
        flush_piece(rt, text)?;
    }
    lines.end(text)
}
