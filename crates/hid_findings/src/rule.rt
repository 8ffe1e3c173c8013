//! What `hid check` tells: each rule with its number, its name, how bad it is, what it means, who says
//! so, and a descriptor that has it and one that has not.
mod data;
mod hosts;
mod items;

use crate::rule_row::RuleRow;

/// A rule of `hid check`.
#[derive(Clone, Copy, Debug, PartialEq, Eq)]
pub enum Rule {
    /// `hid` refuses the descriptor.
    Refused,
    /// Not all data of an item is read.
    DataCut,
    /// A long item.
    LongItem,
    /// An item of the reserved type.
    ReservedType,
    /// A global item that isn't defined.
    ReservedTag,
    /// An outermost collection of another kind.
    OutermostKind,
    /// An Application that has no usage.
    NamelessApplication,
    /// Data in no collection.
    OutsideCollections,
    /// Data of no bits.
    NoBits,
    /// The report id 0.
    ReportIdZero,
    /// Usages of no item.
    UnusedUsages,
    /// A collection without an end.
    OpenCollection,
    /// A Push without a Pop.
    LonePush,
    /// Bounds the wrong way round.
    MaximumBelowMinimum,
    /// A maximum that so few bits don't hold.
    MaximumTooWide,
    /// Bounds that are one number.
    OneValue,
    /// More usages than switches.
    SpareUsages,
    /// Fewer usages than fields.
    RepeatedUsage,
    /// An array's maximum selects no usage.
    ArrayMaximumPast,
    /// An array's maximum leaves out usages.
    ArrayMaximumBelow,
    /// Report Size and Report Count are likely exchanged.
    Exchanged,
    /// Switches with usages of devices.
    DeviceAsSwitch,
    /// A hat switch without a value for its centre.
    HatWithoutNull,
    /// Changes that go one way alone.
    OneWay,
    /// A unit in force at switches.
    UnitAtSwitches,
    /// A unit of a reserved system.
    ReservedUnit,
    /// A unit without a system.
    UnitWithoutSystem,
    /// An axis in a power of a unit.
    UnitToAPower,
    /// A report without an id beside others.
    ReportWithoutId,
    /// A report that ends within a byte.
    PartialByte,
    /// A field in more than four bytes.
    FieldPastFourBytes,
    /// A report in several outermost collections.
    ReportApart,
    /// An input report of several transactions.
    PastTransaction,
    /// A touch pad that doesn't say how many contacts it has.
    NoContactMaximum,
    /// Other usages by the letter of the standard.
    OtherUsages,
    /// A fault that exists only by the letter of the standard.
    RefusedByStandard,
    /// Linux refuses the descriptor.
    LinuxRefuses,
    /// Linux may find other usages.
    LinuxDoubt,
    /// Linux leaves out a part.
    LinuxLeavesOut,
    /// Linux divides what overflows.
    LinuxOverflow,
    /// Linux reads other bytes.
    LinuxMends,
    /// Windows: an item of a reserved type or tag.
    WindowsUnknown,
    /// Windows: an End Collection without a collection.
    WindowsExtraEnd,
    /// Windows: a data item without a usage.
    WindowsNoUsage,
    /// Windows: an outermost collection without one usage.
    WindowsTopUsage,
    /// Windows: a report id outside of all collections.
    WindowsIdOutside,
    /// Windows: the report id 0.
    WindowsIdZero,
    /// Windows: a report id in several outermost collections.
    WindowsIdShared,
    /// Windows: a report without an id beside others.
    WindowsNoId,
    /// Windows: no collection.
    WindowsNoData,
    /// Windows: a data item outside of all collections.
    WindowsOutside,
    /// Windows: a report that ends within a byte.
    WindowsUnaligned,
    /// Windows: a set of usages that isn't closed.
    WindowsNotClosed,
    /// Windows: an array whose usages are in sets.
    WindowsArrayOfSets,
}

/// All rules, in the order of their numbers. A number and a name stay what they are: a rule that goes
/// leaves its number free for ever, and a new rule takes the next one behind the last.
#[rattlefmt::skip]
pub static RULES: [Rule; 54] = [
    Rule::Refused,
    Rule::DataCut,
    Rule::LongItem,
    Rule::ReservedType,
    Rule::ReservedTag,
    Rule::OutermostKind,
    Rule::NamelessApplication,
    Rule::OutsideCollections,
    Rule::NoBits,
    Rule::ReportIdZero,
    Rule::UnusedUsages,
    Rule::OpenCollection,
    Rule::LonePush,
    Rule::MaximumBelowMinimum,
    Rule::MaximumTooWide,
    Rule::OneValue,
    Rule::SpareUsages,
    Rule::RepeatedUsage,
    Rule::ArrayMaximumPast,
    Rule::ArrayMaximumBelow,
    Rule::Exchanged,
    Rule::DeviceAsSwitch,
    Rule::HatWithoutNull,
    Rule::OneWay,
    Rule::UnitAtSwitches,
    Rule::ReservedUnit,
    Rule::UnitWithoutSystem,
    Rule::UnitToAPower,
    Rule::ReportWithoutId,
    Rule::PartialByte,
    Rule::FieldPastFourBytes,
    Rule::ReportApart,
    Rule::PastTransaction,
    Rule::NoContactMaximum,
    Rule::OtherUsages,
    Rule::RefusedByStandard,
    Rule::LinuxRefuses,
    Rule::LinuxDoubt,
    Rule::LinuxLeavesOut,
    Rule::LinuxOverflow,
    Rule::LinuxMends,
    Rule::WindowsUnknown,
    Rule::WindowsExtraEnd,
    Rule::WindowsNoUsage,
    Rule::WindowsTopUsage,
    Rule::WindowsIdOutside,
    Rule::WindowsIdZero,
    Rule::WindowsIdShared,
    Rule::WindowsNoId,
    Rule::WindowsNoData,
    Rule::WindowsOutside,
    Rule::WindowsUnaligned,
    Rule::WindowsNotClosed,
    Rule::WindowsArrayOfSets,
];

impl Rule {
    /// What stands for it.
    pub fn row(self) -> &'static RuleRow {
        match self {
            Rule::Refused => &items::REFUSED,
            Rule::DataCut => &items::DATA_CUT,
            Rule::LongItem => &items::LONG_ITEM,
            Rule::ReservedType => &items::RESERVED_TYPE,
            Rule::ReservedTag => &items::RESERVED_TAG,
            Rule::OutermostKind => &items::OUTERMOST_KIND,
            Rule::NamelessApplication => &items::NAMELESS_APPLICATION,
            Rule::OutsideCollections => &items::OUTSIDE_COLLECTIONS,
            Rule::NoBits => &items::NO_BITS,
            Rule::ReportIdZero => &items::REPORT_ID_ZERO,
            Rule::UnusedUsages => &items::UNUSED_USAGES,
            Rule::OpenCollection => &items::OPEN_COLLECTION,
            Rule::LonePush => &items::LONE_PUSH,
            Rule::MaximumBelowMinimum => &data::MAXIMUM_BELOW_MINIMUM,
            Rule::MaximumTooWide => &data::MAXIMUM_TOO_WIDE,
            Rule::OneValue => &data::ONE_VALUE,
            Rule::SpareUsages => &data::SPARE_USAGES,
            Rule::RepeatedUsage => &data::REPEATED_USAGE,
            Rule::ArrayMaximumPast => &data::ARRAY_MAXIMUM_PAST,
            Rule::ArrayMaximumBelow => &data::ARRAY_MAXIMUM_BELOW,
            Rule::Exchanged => &data::EXCHANGED,
            Rule::DeviceAsSwitch => &data::DEVICE_AS_SWITCH,
            Rule::HatWithoutNull => &data::HAT_WITHOUT_NULL,
            Rule::OneWay => &data::ONE_WAY,
            Rule::UnitAtSwitches => &data::UNIT_AT_SWITCHES,
            Rule::ReservedUnit => &data::RESERVED_UNIT,
            Rule::UnitWithoutSystem => &data::UNIT_WITHOUT_SYSTEM,
            Rule::UnitToAPower => &data::UNIT_TO_A_POWER,
            Rule::ReportWithoutId => &data::REPORT_WITHOUT_ID,
            Rule::PartialByte => &data::PARTIAL_BYTE,
            Rule::FieldPastFourBytes => &data::FIELD_PAST_FOUR_BYTES,
            Rule::ReportApart => &data::REPORT_APART,
            Rule::PastTransaction => &data::PAST_TRANSACTION,
            Rule::NoContactMaximum => &data::NO_CONTACT_MAXIMUM,
            Rule::OtherUsages => &data::OTHER_USAGES,
            Rule::RefusedByStandard => &data::REFUSED_BY_STANDARD,
            Rule::LinuxRefuses => &hosts::LINUX_REFUSES,
            Rule::LinuxDoubt => &hosts::LINUX_DOUBT,
            Rule::LinuxLeavesOut => &hosts::LINUX_LEAVES_OUT,
            Rule::LinuxOverflow => &hosts::LINUX_OVERFLOW,
            Rule::LinuxMends => &hosts::LINUX_MENDS,
            Rule::WindowsUnknown => &hosts::WINDOWS_UNKNOWN,
            Rule::WindowsExtraEnd => &hosts::WINDOWS_EXTRA_END,
            Rule::WindowsNoUsage => &hosts::WINDOWS_NO_USAGE,
            Rule::WindowsTopUsage => &hosts::WINDOWS_TOP_USAGE,
            Rule::WindowsIdOutside => &hosts::WINDOWS_ID_OUTSIDE,
            Rule::WindowsIdZero => &hosts::WINDOWS_ID_ZERO,
            Rule::WindowsIdShared => &hosts::WINDOWS_ID_SHARED,
            Rule::WindowsNoId => &hosts::WINDOWS_NO_ID,
            Rule::WindowsNoData => &hosts::WINDOWS_NO_DATA,
            Rule::WindowsOutside => &hosts::WINDOWS_OUTSIDE,
            Rule::WindowsUnaligned => &hosts::WINDOWS_UNALIGNED,
            Rule::WindowsNotClosed => &hosts::WINDOWS_NOT_CLOSED,
            Rule::WindowsArrayOfSets => &hosts::WINDOWS_ARRAY_OF_SETS,
        }
    }
}
