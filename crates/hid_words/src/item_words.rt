//! An item in words.
use crate::naming::{add_collection_kind, add_page, add_usage, add_usage_on_page, on_page};
use crate::physical::measured;
use hidreport::Usage;
use hidreport::hid::{GlobalItem, ItemType, LocalItem, MainItem};
use hidreport::types::{Unit, UsagePage};
use hidreport_usages::{FlagWords, item_name, system_name};
use std::alloc::AllocError;
use std::fmt::Write;

/// Appends an item's name with what it says in parentheses, where this usage page is in force.
pub fn add_item(text: &mut String, item: &ItemType, page: UsagePage) -> Result<(), AllocError> {
    text.push_str(item_name(item))?;
    match item {
        ItemType::Main(item) => add_main(text, item),
        ItemType::Global(item) => add_global(text, item),
        ItemType::Local(item) => add_local(text, item, page),
        ItemType::Long | ItemType::Reserved => Ok(()),
    }
}

fn add_main(text: &mut String, item: &MainItem) -> Result<(), AllocError> {
    match item {
        MainItem::Input(item) => write!(text, " ({})", FlagWords::from(item)),
        MainItem::Output(item) => write!(text, " ({})", FlagWords::from(item)),
        MainItem::Feature(item) => write!(text, " ({})", FlagWords::from(item)),
        MainItem::Collection(kind) => {
            text.push_str(" (")?;
            add_collection_kind(text, *kind)?;
            text.push_str(")")
        }
        MainItem::EndCollection => Ok(()),
    }
}

fn add_global(text: &mut String, item: &GlobalItem) -> Result<(), AllocError> {
    match item {
        GlobalItem::UsagePage(page) => {
            text.push_str(" (")?;
            add_page(text, *page)?;
            text.push_str(")")
        }
        GlobalItem::LogicalMinimum(number) => write!(text, " ({number})"),
        GlobalItem::LogicalMaximum(number) => write!(text, " ({number})"),
        GlobalItem::PhysicalMinimum(number) => write!(text, " ({number})"),
        GlobalItem::PhysicalMaximum(number) => write!(text, " ({number})"),
        GlobalItem::UnitExponent(number) => {
            let exponent = number.exponent();
            write!(text, " ({exponent})")
        }
        GlobalItem::Unit(unit) => add_unit(text, *unit),
        GlobalItem::ReportSize(number) => write!(text, " ({number})"),
        GlobalItem::ReportId(number) => write!(text, " ({number})"),
        GlobalItem::ReportCount(number) => write!(text, " ({number})"),
        GlobalItem::Push | GlobalItem::Pop | GlobalItem::Reserved => Ok(()),
    }
}

/// Appends a unit's number, and its system with what it measures (Section 6.2.2.7).
fn add_unit(text: &mut String, unit: Unit) -> Result<(), AllocError> {
    let number = u32::from(unit);
    let system = match number % 16 {
        5..=14 => "Reserved",
        15 => "Vendor-defined",
        _ => system_name(&unit.system()),
    };
    write!(text, " (0x{number:x}, {system}")?;
    let units = measured(*text.allocator(), unit)?;
    if !units.is_empty() {
        write!(text, ", {units}")?;
    }
    text.push_str(")")
}

fn add_local(text: &mut String, item: &LocalItem, page: UsagePage) -> Result<(), AllocError> {
    match item {
        LocalItem::Usage(own, id) => add_paged(text, on_page(*own, *id)),
        LocalItem::UsageId(id) => add_named(text, on_page(page, *id)),
        LocalItem::UsageMinimum(end) => add_end(text, u32::from(end), page),
        LocalItem::UsageMaximum(end) => add_end(text, u32::from(end), page),
        LocalItem::DesignatorIndex(number) => write!(text, " ({number})"),
        LocalItem::DesignatorMinimum(number) => write!(text, " ({number})"),
        LocalItem::DesignatorMaximum(number) => write!(text, " ({number})"),
        LocalItem::StringIndex(number) => write!(text, " ({number})"),
        LocalItem::StringMinimum(number) => write!(text, " ({number})"),
        LocalItem::StringMaximum(number) => write!(text, " ({number})"),
        LocalItem::Delimiter(number) => write!(text, " ({number})"),
        LocalItem::Reserved { .. } => Ok(()),
    }
}

/// Appends an end of a range of usages: with its page where it has one of its own.
fn add_end(text: &mut String, end: u32, page: UsagePage) -> Result<(), AllocError> {
    let usage = Usage::from(end);
    if end > 0xffff {
        return add_paged(text, usage);
    }
    add_named(text, on_page(page, usage.usage_id))
}

fn add_named(text: &mut String, usage: Usage) -> Result<(), AllocError> {
    text.push_str(" (")?;
    add_usage_on_page(text, usage)?;
    text.push_str(")")
}

fn add_paged(text: &mut String, usage: Usage) -> Result<(), AllocError> {
    text.push_str(" (")?;
    add_usage(text, usage)?;
    text.push_str(")")
}
