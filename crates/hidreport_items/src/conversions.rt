//! Every kind of item, and every number that makes one, as an item.
//!
//! A [`Unit`](hidreport_types::Unit) has no such conversion: write
//! `ItemType::Global(GlobalItem::Unit(unit))`.
ghost use Rattle.std.specs.Prelude.{◌≡◌};
ghost use Rattle.hidreport_items.specs.declared.global.GlobalItem.TheVariants as global;
ghost use Rattle.hidreport_items.specs.declared.item.ItemType.TheVariants as item;
ghost use Rattle.hidreport_items.specs.declared.local.LocalItem.TheVariants as local;
ghost use Rattle.hidreport_items.specs.declared.main_item.MainItem.TheVariants as main;

use crate::feature::FeatureItem;
use crate::global::GlobalItem;
use crate::input::InputItem;
use crate::item::ItemType;
use crate::local::LocalItem;
use crate::main_item::{CollectionItem, MainItem};
use crate::output::OutputItem;
use hidreport_types::{
    Delimiter, DesignatorIndex, DesignatorMaximum, DesignatorMinimum, LogicalMaximum,
    LogicalMinimum, PhysicalMaximum, PhysicalMinimum, ReportCount, ReportId, ReportSize,
    StringIndex, StringMaximum, StringMinimum, UnitExponent, UsageId, UsageMaximum, UsageMinimum,
    UsagePage,
};

impl From<MainItem> for ItemType {
    ghost from_gives = { λ x answer. answer ≡ item.Main x };

    fn from(item: MainItem) -> ItemType {
        ItemType::Main(item)
    }
}

impl From<InputItem> for ItemType {
    ghost from_gives = { λ x answer. answer ≡ item.Main (main.Input x) };

    fn from(item: InputItem) -> ItemType {
        ItemType::Main(MainItem::Input(item))
    }
}

impl From<OutputItem> for ItemType {
    ghost from_gives = { λ x answer. answer ≡ item.Main (main.Output x) };

    fn from(item: OutputItem) -> ItemType {
        ItemType::Main(MainItem::Output(item))
    }
}

impl From<FeatureItem> for ItemType {
    ghost from_gives = { λ x answer. answer ≡ item.Main (main.Feature x) };

    fn from(item: FeatureItem) -> ItemType {
        ItemType::Main(MainItem::Feature(item))
    }
}

impl From<CollectionItem> for ItemType {
    ghost from_gives = { λ x answer. answer ≡ item.Main (main.Collection x) };

    fn from(item: CollectionItem) -> ItemType {
        ItemType::Main(MainItem::Collection(item))
    }
}

impl From<GlobalItem> for ItemType {
    ghost from_gives = { λ x answer. answer ≡ item.Global x };

    fn from(item: GlobalItem) -> ItemType {
        ItemType::Global(item)
    }
}

impl From<LocalItem> for ItemType {
    ghost from_gives = { λ x answer. answer ≡ item.Local x };

    fn from(item: LocalItem) -> ItemType {
        ItemType::Local(item)
    }
}

impl From<UsagePage> for ItemType {
    ghost from_gives = { λ x answer. answer ≡ item.Global (global.UsagePage x) };

    fn from(usage_page: UsagePage) -> ItemType {
        ItemType::Global(GlobalItem::UsagePage(usage_page))
    }
}

impl From<LogicalMinimum> for ItemType {
    ghost from_gives = { λ x answer. answer ≡ item.Global (global.LogicalMinimum x) };

    fn from(logical_minimum: LogicalMinimum) -> ItemType {
        ItemType::Global(GlobalItem::LogicalMinimum(logical_minimum))
    }
}

impl From<LogicalMaximum> for ItemType {
    ghost from_gives = { λ x answer. answer ≡ item.Global (global.LogicalMaximum x) };

    fn from(logical_maximum: LogicalMaximum) -> ItemType {
        ItemType::Global(GlobalItem::LogicalMaximum(logical_maximum))
    }
}

impl From<PhysicalMinimum> for ItemType {
    ghost from_gives = { λ x answer. answer ≡ item.Global (global.PhysicalMinimum x) };

    fn from(physical_minimum: PhysicalMinimum) -> ItemType {
        ItemType::Global(GlobalItem::PhysicalMinimum(physical_minimum))
    }
}

impl From<PhysicalMaximum> for ItemType {
    ghost from_gives = { λ x answer. answer ≡ item.Global (global.PhysicalMaximum x) };

    fn from(physical_maximum: PhysicalMaximum) -> ItemType {
        ItemType::Global(GlobalItem::PhysicalMaximum(physical_maximum))
    }
}

impl From<UnitExponent> for ItemType {
    ghost from_gives = { λ x answer. answer ≡ item.Global (global.UnitExponent x) };

    fn from(unit_exponent: UnitExponent) -> ItemType {
        ItemType::Global(GlobalItem::UnitExponent(unit_exponent))
    }
}

impl From<ReportSize> for ItemType {
    ghost from_gives = { λ x answer. answer ≡ item.Global (global.ReportSize x) };

    fn from(report_size: ReportSize) -> ItemType {
        ItemType::Global(GlobalItem::ReportSize(report_size))
    }
}

impl From<ReportId> for ItemType {
    ghost from_gives = { λ x answer. answer ≡ item.Global (global.ReportId x) };

    fn from(report_id: ReportId) -> ItemType {
        ItemType::Global(GlobalItem::ReportId(report_id))
    }
}

impl From<ReportCount> for ItemType {
    ghost from_gives = { λ x answer. answer ≡ item.Global (global.ReportCount x) };

    fn from(report_count: ReportCount) -> ItemType {
        ItemType::Global(GlobalItem::ReportCount(report_count))
    }
}

impl From<UsageId> for ItemType {
    ghost from_gives = { λ x answer. answer ≡ item.Local (local.UsageId x) };

    fn from(usage_id: UsageId) -> ItemType {
        ItemType::Local(LocalItem::UsageId(usage_id))
    }
}

impl From<UsageMinimum> for ItemType {
    ghost from_gives = { λ x answer. answer ≡ item.Local (local.UsageMinimum x) };

    fn from(usage_minimum: UsageMinimum) -> ItemType {
        ItemType::Local(LocalItem::UsageMinimum(usage_minimum))
    }
}

impl From<UsageMaximum> for ItemType {
    ghost from_gives = { λ x answer. answer ≡ item.Local (local.UsageMaximum x) };

    fn from(usage_maximum: UsageMaximum) -> ItemType {
        ItemType::Local(LocalItem::UsageMaximum(usage_maximum))
    }
}

impl From<DesignatorIndex> for ItemType {
    ghost from_gives = { λ x answer. answer ≡ item.Local (local.DesignatorIndex x) };

    fn from(designator_index: DesignatorIndex) -> ItemType {
        ItemType::Local(LocalItem::DesignatorIndex(designator_index))
    }
}

impl From<DesignatorMinimum> for ItemType {
    ghost from_gives = { λ x answer. answer ≡ item.Local (local.DesignatorMinimum x) };

    fn from(designator_minimum: DesignatorMinimum) -> ItemType {
        ItemType::Local(LocalItem::DesignatorMinimum(designator_minimum))
    }
}

impl From<DesignatorMaximum> for ItemType {
    ghost from_gives = { λ x answer. answer ≡ item.Local (local.DesignatorMaximum x) };

    fn from(designator_maximum: DesignatorMaximum) -> ItemType {
        ItemType::Local(LocalItem::DesignatorMaximum(designator_maximum))
    }
}

impl From<StringIndex> for ItemType {
    ghost from_gives = { λ x answer. answer ≡ item.Local (local.StringIndex x) };

    fn from(string_index: StringIndex) -> ItemType {
        ItemType::Local(LocalItem::StringIndex(string_index))
    }
}

impl From<StringMinimum> for ItemType {
    ghost from_gives = { λ x answer. answer ≡ item.Local (local.StringMinimum x) };

    fn from(string_minimum: StringMinimum) -> ItemType {
        ItemType::Local(LocalItem::StringMinimum(string_minimum))
    }
}

impl From<StringMaximum> for ItemType {
    ghost from_gives = { λ x answer. answer ≡ item.Local (local.StringMaximum x) };

    fn from(string_maximum: StringMaximum) -> ItemType {
        ItemType::Local(LocalItem::StringMaximum(string_maximum))
    }
}

impl From<Delimiter> for ItemType {
    ghost from_gives = { λ x answer. answer ≡ item.Local (local.Delimiter x) };

    fn from(delimiter: Delimiter) -> ItemType {
        ItemType::Local(LocalItem::Delimiter(delimiter))
    }
}

/// A usage with a page of its own.
impl From<(UsagePage, UsageId)> for ItemType {
    ghost from_gives = { λ x answer. answer ≡ item.Local (local.Usage x.0 x.1) };

    fn from(usage: (UsagePage, UsageId)) -> ItemType {
        let (page, id) = usage;
        ItemType::Local(LocalItem::Usage(page, id))
    }
}
