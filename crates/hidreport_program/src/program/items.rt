//! The lines of items.
ghost use Rattle.std.specs.Prelude.{◌≡◌, ◌++◌, OnOk, string_bytes};
ghost use Rattle.hidreport_program.specs.ItemLines.{global_name, item_name, items_text, line_of_item, local_name, main_name};

use super::numbers::add_bytes;
use hidreport::hid::{GlobalItem, Item, ItemType, LocalItem, MainItem, ReportDescriptorItem};
use std::alloc::AllocError;
use std::fmt::Write;

/// Appends a line for each item.
pub fn add_items(text: &mut String, items: &[ReportDescriptorItem]) -> Result<(), AllocError>
    ensures { OnOk result (string_bytes text.new ≡ string_bytes text.old ++ items_text items.now) }
{
    for entry in items {
        add_item(text, entry)?;
    }
    Ok(())
}

fn add_item(text: &mut String, entry: &ReportDescriptorItem) -> Result<(), AllocError>
    ensures { OnOk result (string_bytes text.new
        ≡ string_bytes text.old ++ line_of_item entry.now) }
{
    let offset = entry.offset();
    let item = entry.item();
    let name = name_of(item.item_type());
    write!(text, "{offset} ")?;
    add_bytes(text, item.bytes())?;
    writeln!(text, " {name}")
}

/// The name of an item: that of its variant.
fn name_of(item: ItemType) -> &'static str
    ensures { result.now ≡ item_name item }
{
    match item {
        ItemType::Main(item) => main_name(item),
        ItemType::Global(item) => global_name(item),
        ItemType::Local(item) => local_name(item),
        ItemType::Long => "Long",
        ItemType::Reserved => "Reserved",
    }
}

fn main_name(item: MainItem) -> &'static str
    ensures { result.now ≡ main_name item }
{
    match item {
        MainItem::Input(_) => "Input",
        MainItem::Output(_) => "Output",
        MainItem::Feature(_) => "Feature",
        MainItem::Collection(_) => "Collection",
        MainItem::EndCollection => "EndCollection",
    }
}

fn global_name(item: GlobalItem) -> &'static str
    ensures { result.now ≡ global_name item }
{
    match item {
        GlobalItem::UsagePage(_) => "UsagePage",
        GlobalItem::LogicalMinimum(_) => "LogicalMinimum",
        GlobalItem::LogicalMaximum(_) => "LogicalMaximum",
        GlobalItem::PhysicalMinimum(_) => "PhysicalMinimum",
        GlobalItem::PhysicalMaximum(_) => "PhysicalMaximum",
        GlobalItem::UnitExponent(_) => "UnitExponent",
        GlobalItem::Unit(_) => "Unit",
        GlobalItem::ReportSize(_) => "ReportSize",
        GlobalItem::ReportId(_) => "ReportId",
        GlobalItem::ReportCount(_) => "ReportCount",
        GlobalItem::Push => "Push",
        GlobalItem::Pop => "Pop",
        GlobalItem::Reserved => "GlobalReserved",
    }
}

fn local_name(item: LocalItem) -> &'static str
    ensures { result.now ≡ local_name item }
{
    match item {
        LocalItem::Usage(..) => "Usage",
        LocalItem::UsageId(_) => "UsageId",
        LocalItem::UsageMinimum(_) => "UsageMinimum",
        LocalItem::UsageMaximum(_) => "UsageMaximum",
        LocalItem::DesignatorIndex(_) => "DesignatorIndex",
        LocalItem::DesignatorMinimum(_) => "DesignatorMinimum",
        LocalItem::DesignatorMaximum(_) => "DesignatorMaximum",
        LocalItem::StringIndex(_) => "StringIndex",
        LocalItem::StringMinimum(_) => "StringMinimum",
        LocalItem::StringMaximum(_) => "StringMaximum",
        LocalItem::Delimiter(_) => "Delimiter",
        LocalItem::Reserved { .. } => "LocalReserved",
    }
}
