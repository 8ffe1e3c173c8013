//! Usages, pages and collections by the names of the HID Usage Tables, or by their numbers.
use hidreport::hid::CollectionItem;
use hidreport::types::{UsageId, UsagePage};
use hidreport::{Collection, Usage};
use hidreport_usages::{collection_name, page_name, usage_name};
use std::alloc::{AllocError, Global};
use std::fmt::Write;
use unicode_width::{UnicodeWidthChar, UnicodeWidthStr};

/// What stands behind a name that is cut.
pub const CUT: char = '…';

/// Appends a page's name, or its number.
pub fn add_page(text: &mut String, page: UsagePage) -> Result<(), AllocError> {
    match page_name(page) {
        Some(name) => write!(text, "{name}"),
        None => {
            let number = u16::from(page);
            write!(text, "0x{number:04x}")
        }
    }
}

/// Appends a usage's name without its page, or its number on the page.
pub fn add_usage_on_page(text: &mut String, usage: Usage) -> Result<(), AllocError> {
    match usage_name(usage) {
        Some(name) => text.push_str(name.to_string(*text.allocator())?.as_str()),
        None => {
            let number = u16::from(usage.usage_id);
            write!(text, "0x{number:04x}")
        }
    }
}

/// Appends the names of a usage's page and of the usage.
pub fn add_usage(text: &mut String, usage: Usage) -> Result<(), AllocError> {
    add_page(text, usage.usage_page)?;
    text.push_str(" / ")?;
    add_usage_on_page(text, usage)
}

/// Appends the name of a kind of collection, with its number where it has no name of its own.
pub fn add_collection_kind(text: &mut String, kind: CollectionItem) -> Result<(), AllocError> {
    text.push_str(collection_name(&kind))?;
    match kind {
        CollectionItem::Reserved { value } => write!(text, " 0x{value:02x}"),
        CollectionItem::VendorDefined { value } => write!(text, " 0x{value:02x}"),
        _ => Ok(()),
    }
}

/// Appends a collection's kind, and what it is for.
pub fn add_collection(text: &mut String, collection: &Collection) -> Result<(), AllocError> {
    add_collection_kind(text, collection.collection_type())?;
    let mut gap = ": ";
    for usage in collection.usages() {
        text.push_str(gap)?;
        add_usage(text, *usage)?;
        gap = ", ";
    }
    Ok(())
}

/// The usage with this id on a page.
pub fn on_page(page: UsagePage, id: UsageId) -> Usage {
    Usage::from_page_and_id(page, id)
}

/// A name that takes no more columns than these: a longer one loses `Keyboard` before it, then its
/// end, and `…` says so.
pub fn shortened(alloc: Global, name: &str, columns: usize) -> Result<String, AllocError> {
    if name.width() <= columns {
        return String::from_str(alloc, name);
    }
    let shown = name.strip_prefix("Keyboard ").unwrap_or(name);
    if shown.width() <= columns {
        return String::from_str(alloc, shown);
    }
    let mut cut = String::from_str(alloc, beginning(shown, columns.saturating_sub(1)))?;
    cut.push(CUT)?;
    Ok(cut)
}

/// The first letters of a name, in no more columns than these.
fn beginning(name: &str, columns: usize) -> &str {
    let mut taken = 0usize;
    for (place, letter) in name.char_indices() {
        taken = taken.saturating_add(letter.width().unwrap_or(0));
        if columns < taken {
            return name.get(..place).unwrap_or(name).trim_end();
        }
    }
    name
}
