//! The names of items, of kinds of collections and of systems of units.
ghost use Rattle.std.specs.Prelude.{◌≡◌};
ghost use Rattle.hidreport_usages.specs.ItemWords.{collection_name, global_name, item_name, local_name, main_name, system_name};

use hidreport_items::{CollectionItem, GlobalItem, ItemType, LocalItem, MainItem};
use hidreport_types::UnitSystem;

/// The standard's name of an item by its tag, such as `Usage Page` (Section 6.2.2).
///
/// A usage with a page of its own is `Usage`, too. Tags and types that the standard keeps for
/// later are `Reserved`; a long item is `Long Item` (Section 6.2.2.3).
pub fn item_name(item: &ItemType) -> &'static str
    ensures { result.now ≡ item_name item.now }
{
    match item {
        ItemType::Main(item) => main_name(item),
        ItemType::Global(item) => global_name(item),
        ItemType::Local(item) => local_name(item),
        ItemType::Long => "Long Item",
        ItemType::Reserved => "Reserved",
    }
}

/// The name of a main item (Section 6.2.2.4).
fn main_name(item: &MainItem) -> &'static str
    ensures { result.now ≡ main_name item.now }
{
    match item {
        MainItem::Input(_) => "Input",
        MainItem::Output(_) => "Output",
        MainItem::Feature(_) => "Feature",
        MainItem::Collection(_) => "Collection",
        MainItem::EndCollection => "End Collection",
    }
}

/// The name of a global item (Section 6.2.2.7).
fn global_name(item: &GlobalItem) -> &'static str
    ensures { result.now ≡ global_name item.now }
{
    match item {
        GlobalItem::UsagePage(_) => "Usage Page",
        GlobalItem::LogicalMinimum(_) => "Logical Minimum",
        GlobalItem::LogicalMaximum(_) => "Logical Maximum",
        GlobalItem::PhysicalMinimum(_) => "Physical Minimum",
        GlobalItem::PhysicalMaximum(_) => "Physical Maximum",
        GlobalItem::UnitExponent(_) => "Unit Exponent",
        GlobalItem::Unit(_) => "Unit",
        GlobalItem::ReportSize(_) => "Report Size",
        GlobalItem::ReportId(_) => "Report ID",
        GlobalItem::ReportCount(_) => "Report Count",
        GlobalItem::Push => "Push",
        GlobalItem::Pop => "Pop",
        GlobalItem::Reserved => "Reserved",
    }
}

/// The name of a local item (Section 6.2.2.8).
fn local_name(item: &LocalItem) -> &'static str
    ensures { result.now ≡ local_name item.now }
{
    match item {
        LocalItem::Usage(_, _) => "Usage",
        LocalItem::UsageId(_) => "Usage",
        LocalItem::UsageMinimum(_) => "Usage Minimum",
        LocalItem::UsageMaximum(_) => "Usage Maximum",
        LocalItem::DesignatorIndex(_) => "Designator Index",
        LocalItem::DesignatorMinimum(_) => "Designator Minimum",
        LocalItem::DesignatorMaximum(_) => "Designator Maximum",
        LocalItem::StringIndex(_) => "String Index",
        LocalItem::StringMinimum(_) => "String Minimum",
        LocalItem::StringMaximum(_) => "String Maximum",
        LocalItem::Delimiter(_) => "Delimiter",
        LocalItem::Reserved { value: _ } => "Reserved",
    }
}

/// The standard's name of a kind of collection (Section 6.2.2.6), such as `Application`.
///
/// The kinds 07 to 7F are `Reserved`, 80 to FF `Vendor-defined`.
pub fn collection_name(kind: &CollectionItem) -> &'static str
    ensures { result.now ≡ collection_name kind.now }
{
    match kind {
        CollectionItem::Physical => "Physical",
        CollectionItem::Application => "Application",
        CollectionItem::Logical => "Logical",
        CollectionItem::Report => "Report",
        CollectionItem::NamedArray => "Named Array",
        CollectionItem::UsageSwitch => "Usage Switch",
        CollectionItem::UsageModifier => "Usage Modifier",
        CollectionItem::Reserved { value: _ } => "Reserved",
        CollectionItem::VendorDefined { value: _ } => "Vendor-defined",
    }
}

/// The standard's name of a system of units (Section 6.2.2.7), such as `SI Linear`.
///
/// The units themselves are what `Display` of a `Unit` writes, such as `cms⁻²`.
pub fn system_name(system: &UnitSystem) -> &'static str
    ensures { result.now ≡ system_name system.now }
{
    match system {
        UnitSystem::None => "None",
        UnitSystem::SILinear => "SI Linear",
        UnitSystem::SIRotation => "SI Rotation",
        UnitSystem::EnglishLinear => "English Linear",
        UnitSystem::EnglishRotation => "English Rotation",
    }
}
