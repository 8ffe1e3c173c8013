//! Why Windows' parser refuses a descriptor.
use crate::rule::Rule;

/// A refusal that hidpddi.h lists.
#[derive(Clone, Copy, Debug, PartialEq, Eq)]
pub enum WindowsRefusal {
    /// An item of a reserved type or tag.
    Unknown,
    /// An End Collection without a collection.
    ExtraEnd,
    /// A data item without a usage.
    NoUsage,
    /// An outermost collection without a usage, or with several.
    TopUsage,
    /// A report id outside of all collections.
    IdOutside,
    /// The report id 0.
    IdZero,
    /// A report id in several outermost collections.
    IdShared,
    /// A report without an id beside others.
    NoId,
    /// No collection.
    NoData,
    /// A data item outside of all collections.
    Outside,
    /// A report that is no whole number of bytes.
    Unaligned,
    /// A set of usages that isn't closed.
    NotClosed,
    /// An array whose usages are in sets.
    ArrayOfSets,
}

impl WindowsRefusal {
    /// Its name in hidpddi.h, behind `HIDP_GETCOLDESC_`.
    pub fn name(self) -> &'static str {
        match self {
            WindowsRefusal::Unknown => "ITEM_UNKNOWN",
            WindowsRefusal::ExtraEnd => "UNEXP_END_COLLECTION",
            WindowsRefusal::NoUsage => "MAIN_ITEM_NO_USAGE",
            WindowsRefusal::TopUsage => "TOP_COLLECTION_USAGE",
            WindowsRefusal::IdOutside => "REPORT_ID",
            WindowsRefusal::IdZero => "BAD_REPORT_ID_VALUE",
            WindowsRefusal::IdShared => "NO_REPORT_ID",
            WindowsRefusal::NoId => "DEFAULT_ID_ERROR",
            WindowsRefusal::NoData => "NO_DATA",
            WindowsRefusal::Outside => "INVALID_MAIN_ITEM",
            WindowsRefusal::Unaligned => "BYTE_ALLIGN",
            WindowsRefusal::NotClosed => "NO_CLOSE_DELIMITER",
            WindowsRefusal::ArrayOfSets => "UNSUPPORTED",
        }
    }

    /// The rule that it breaks.
    pub fn rule(self) -> Rule {
        match self {
            WindowsRefusal::Unknown => Rule::WindowsUnknown,
            WindowsRefusal::ExtraEnd => Rule::WindowsExtraEnd,
            WindowsRefusal::NoUsage => Rule::WindowsNoUsage,
            WindowsRefusal::TopUsage => Rule::WindowsTopUsage,
            WindowsRefusal::IdOutside => Rule::WindowsIdOutside,
            WindowsRefusal::IdZero => Rule::WindowsIdZero,
            WindowsRefusal::IdShared => Rule::WindowsIdShared,
            WindowsRefusal::NoId => Rule::WindowsNoId,
            WindowsRefusal::NoData => Rule::WindowsNoData,
            WindowsRefusal::Outside => Rule::WindowsOutside,
            WindowsRefusal::Unaligned => Rule::WindowsUnaligned,
            WindowsRefusal::NotClosed => Rule::WindowsNotClosed,
            WindowsRefusal::ArrayOfSets => Rule::WindowsArrayOfSets,
        }
    }

    /// What is refused.
    pub fn reason(self) -> &'static str {
        match self {
            WindowsRefusal::Unknown => "an item of a reserved type or tag",
            WindowsRefusal::ExtraEnd => "an End Collection without a collection",
            WindowsRefusal::NoUsage => "a data item without a usage",
            WindowsRefusal::TopUsage => "an outermost collection without a usage, or with several",
            WindowsRefusal::IdOutside => "a report id outside of all collections",
            WindowsRefusal::IdZero => "the report id 0",
            WindowsRefusal::IdShared => "a report id in several outermost collections",
            WindowsRefusal::NoId => {
                "a report without an id beside others, or beside another outermost collection"
            }
            WindowsRefusal::NoData => "no collection",
            WindowsRefusal::Outside => "a data item outside of all collections",
            WindowsRefusal::Unaligned => "a report that is no whole number of bytes",
            WindowsRefusal::NotClosed => "a set of usages that isn't closed",
            WindowsRefusal::ArrayOfSets => "an array whose usages are in sets",
        }
    }
}
