//! Why hid-core refuses a descriptor, may read it otherwise, or leaves something out.
use std::fmt;

/// Why hid-core refuses a descriptor.
#[derive(Clone, Copy, Debug, PartialEq, Eq)]
pub enum RefusalReason {
    /// There is no item.
    NoItem,

    /// An item is cut short.
    CutShort,

    /// A long item (Section 6.2.2.3).
    LongItem,

    /// A fifth Push waits for a Pop.
    PastPushes,

    /// A Pop without a Push.
    LonePop,

    /// An End Collection without a collection.
    LoneEnd,

    /// A Report Size of more than 256 bits.
    PastBits,

    /// A Report Count of more than 12,288.
    PastCount,

    /// A Report ID that is none: 0, or past 255.
    NoId,

    /// A global item with a tag that the standard leaves open.
    UnknownGlobal,

    /// A Delimiter within a set of usages, or that ends none.
    OddDelimiter,

    /// A Usage Maximum of whose usages none fits behind the others.
    NoneFits,

    /// A Usage Maximum of 32 bits that are all set.
    AllBits,

    /// More than 12,288 usages for one main item.
    PastUsages,

    /// A Logical Maximum below its minimum, at an item with data.
    BelowMinimum,

    /// A report of more than 16,383 bytes.
    LongReport,

    /// A collection isn't closed.
    OpenCollection,

    /// A set of usages isn't closed.
    OpenSet,
}

/// Why hid-core may read a descriptor otherwise.
#[derive(Clone, Copy, Debug, PartialEq, Eq)]
pub enum DoubtReason {
    /// A Usage Page of more than 16 bits.
    WidePage,

    /// A Usage Maximum below its minimum.
    BelowUsageMinimum,

    /// A Usage Maximum of four bytes without a page.
    LackedPage,

    /// A report without an id beside others that have one.
    LacksId,
}

/// What hid-core leaves out of a descriptor that it takes.
#[derive(Clone, Copy, Debug, PartialEq, Eq)]
pub enum LeftOut {
    /// Usages past the first 12,288 of an item.
    Usages,

    /// Items past the first 256 of a report.
    Items,
}

impl RefusalReason {
    ghost use Rattle.std.specs.Prelude.{◌≡◌};
    ghost use Rattle.hidreport_linux.specs.CoreReasons.{refusal_text};

    /// The reason in words.
    pub fn text(self) -> &'static str
        ensures { result.now ≡ refusal_text self }
    {
        match self {
            RefusalReason::NoItem => "no item",
            RefusalReason::CutShort => "an item that is cut short",
            RefusalReason::LongItem => "a long item",
            RefusalReason::PastPushes => "more than four Pushes wait for a Pop",
            RefusalReason::LonePop => "a Pop without a Push",
            RefusalReason::LoneEnd => "an End Collection without a collection",
            RefusalReason::PastBits => "a size of more than 256 bits",
            RefusalReason::PastCount => "a count of more than 12288",
            RefusalReason::NoId => "a report id that is none",
            RefusalReason::UnknownGlobal => "a global item that is none",
            RefusalReason::OddDelimiter => "a Delimiter within a set, or that ends none",
            RefusalReason::NoneFits => "usages of which none fits behind the others",
            RefusalReason::AllBits => "a Usage Maximum of 32 bits that are all set",
            RefusalReason::PastUsages => "more than 12288 usages",
            RefusalReason::BelowMinimum => "a Logical Maximum below its minimum",
            RefusalReason::LongReport => "a report of more than 16383 bytes",
            RefusalReason::OpenCollection => "a collection that isn't closed",
            RefusalReason::OpenSet => "a set of usages that isn't closed",
        }
    }
}

impl DoubtReason {
    ghost use Rattle.std.specs.Prelude.{◌≡◌};
    ghost use Rattle.hidreport_linux.specs.CoreReasons.{doubt_text};

    /// The reason in words.
    pub fn text(self) -> &'static str
        ensures { result.now ≡ doubt_text self }
    {
        match self {
            DoubtReason::WidePage => "a page of more than 16 bits",
            DoubtReason::BelowUsageMinimum => "a Usage Maximum below its minimum",
            DoubtReason::LackedPage => "a Usage Maximum of four bytes without a page",
            DoubtReason::LacksId => "a report without an id beside others",
        }
    }
}

impl LeftOut {
    ghost use Rattle.std.specs.Prelude.{◌≡◌};
    ghost use Rattle.hidreport_linux.specs.CoreReasons.{left_out_text};

    /// What is left out, in words.
    pub fn text(self) -> &'static str
        ensures { result.now ≡ left_out_text self }
    {
        match self {
            LeftOut::Usages => "usages past the first 12288 of an item",
            LeftOut::Items => "items past the first 256 of a report",
        }
    }
}

/// Writes the reason.
impl fmt::Display for RefusalReason {
    fn fmt<W: fmt::Write>(&self, f: &mut fmt::Formatter<W>) -> fmt::Result {
        f.write_str(self.text())
    }
}

/// Writes the reason.
impl fmt::Display for DoubtReason {
    fn fmt<W: fmt::Write>(&self, f: &mut fmt::Formatter<W>) -> fmt::Result {
        f.write_str(self.text())
    }
}

/// Writes what it is.
impl fmt::Display for LeftOut {
    fn fmt<W: fmt::Write>(&self, f: &mut fmt::Formatter<W>) -> fmt::Result {
        f.write_str(self.text())
    }
}
