//! Rules of items and collections.
use crate::rule_row::RuleRow;
use crate::severity::Severity;
use crate::source::Source;

#[rattlefmt::skip]
pub(crate) static REFUSED: RuleRow = RuleRow {
    number: "HID001", name: "unreadable",
    severity: Severity::Error, source: Source::Refusal,
    wrong: "hid can't read the descriptor.",
    why: "The grammar of items is broken there, so hosts refuse it or guess.",
    instead: "Mend the item that is named; hid decode shows what stands before it.",
    example: "05 01 09 02 a1 01 09 30 15 00 25 7f 75 08 95 01 81 02 c0 c0",
    without: "05 01 09 02 a1 01 09 30 15 00 25 7f 75 08 95 01 81 02 c0",
};

#[rattlefmt::skip]
pub(crate) static DATA_CUT: RuleRow = RuleRow {
    number: "HID002", name: "data-cut-off",
    severity: Severity::Warning, source: Source::Items,
    wrong: "An item has more data than is read of it.",
    why: "A Report ID is one byte and a Usage Page two: of greater data a part is lost.",
    instead: "Write a number that fits, as Report ID (1).",
    example: "05 01 09 02 a1 01 86 01 01 09 30 15 00 25 7f 75 08 95 01 81 02 c0",
    without: "05 01 09 02 a1 01 85 01 09 30 15 00 25 7f 75 08 95 01 81 02 c0",
};

#[rattlefmt::skip]
pub(crate) static LONG_ITEM: RuleRow = RuleRow {
    number: "HID003", name: "long-item",
    severity: Severity::Warning, source: Source::LongItems,
    wrong: "A long item: none is defined.",
    why: "Tags of long items are kept for later versions; Linux refuses a descriptor with one.",
    instead: "Leave it out.",
    example: "fe 00 01 05 01 09 02 a1 01 09 30 15 00 25 7f 75 08 95 01 81 02 c0",
    without: "05 01 09 02 a1 01 09 30 15 00 25 7f 75 08 95 01 81 02 c0",
};

#[rattlefmt::skip]
pub(crate) static RESERVED_TYPE: RuleRow = RuleRow {
    number: "HID004", name: "reserved-type",
    severity: Severity::Warning, source: Source::ItemTypes,
    wrong: "An item has the reserved type.",
    why: "Items are Main, Global or Local; hosts know no fourth type.",
    instead: "Write the type that is meant into bits 2 and 3 of its first byte, or leave it out.",
    example: "05 01 09 02 0c a1 01 09 30 15 00 25 7f 75 08 95 01 81 02 c0",
    without: "05 01 09 02 a1 01 09 30 15 00 25 7f 75 08 95 01 81 02 c0",
};

#[rattlefmt::skip]
pub(crate) static RESERVED_TAG: RuleRow = RuleRow {
    number: "HID005", name: "reserved-tag",
    severity: Severity::Warning, source: Source::GlobalItems,
    wrong: "A global item has a reserved tag.",
    why: "Global tags past Pop have no meaning, and Linux and Windows refuse them.",
    instead: "Write the item that is meant, or leave it out.",
    example: "c4 05 01 09 02 a1 01 09 30 15 00 25 7f 75 08 95 01 81 02 c0",
    without: "05 01 09 02 a1 01 09 30 15 00 25 7f 75 08 95 01 81 02 c0",
};

#[rattlefmt::skip]
pub(crate) static OUTERMOST_KIND: RuleRow = RuleRow {
    number: "HID006", name: "outermost-not-application",
    severity: Severity::Warning, source: Source::Reports,
    wrong: "An outermost collection is no Application.",
    why: "An outermost Application says what the device is; hosts need not look into other kinds.",
    instead: "Write Collection (Application), with other kinds inside.",
    example: "05 01 09 02 a1 00 09 30 15 00 25 7f 75 08 95 01 81 02 c0",
    without: "05 01 09 02 a1 01 09 30 15 00 25 7f 75 08 95 01 81 02 c0",
};

#[rattlefmt::skip]
pub(crate) static NAMELESS_APPLICATION: RuleRow = RuleRow {
    number: "HID007", name: "application-without-usage",
    severity: Severity::Error, source: Source::CollectionItems,
    wrong: "An Application has no usage.",
    why: "Its usage says what the device is, and hosts choose a driver by it.",
    instead: "Write Usage Page (Generic Desktop), Usage (Mouse), or what it is, before Collection \
        (Application).",
    example: "05 01 a1 01 09 30 15 00 25 7f 75 08 95 01 81 02 c0",
    without: "05 01 09 02 a1 01 09 30 15 00 25 7f 75 08 95 01 81 02 c0",
};

#[rattlefmt::skip]
pub(crate) static OUTSIDE_COLLECTIONS: RuleRow = RuleRow {
    number: "HID008", name: "data-outside-collections",
    severity: Severity::Error, source: Source::Reports,
    wrong: "An Input, Output or Feature lies in no collection.",
    why: "A report belongs to an Application, which says what reads it; Windows refuses others.",
    instead: "Open Collection (Application) before it, and close it with End Collection.",
    example: "05 01 09 30 15 00 25 7f 75 08 95 01 81 02",
    without: "05 01 09 02 a1 01 09 30 15 00 25 7f 75 08 95 01 81 02 c0",
};

#[rattlefmt::skip]
pub(crate) static NO_BITS: RuleRow = RuleRow {
    number: "HID009", name: "no-bits",
    severity: Severity::Warning, source: Source::GlobalItems,
    wrong: "An Input, Output or Feature has no bits.",
    why: "Report Size or Report Count is 0, so it has no value.",
    instead: "Write both, as Report Size (8), Report Count (1), or leave it out.",
    example: "05 01 09 02 a1 01 09 30 15 00 25 7f 75 08 95 00 81 02 c0",
    without: "05 01 09 02 a1 01 09 30 15 00 25 7f 75 08 95 01 81 02 c0",
};

#[rattlefmt::skip]
pub(crate) static REPORT_ID_ZERO: RuleRow = RuleRow {
    number: "HID010", name: "report-id-zero",
    severity: Severity::Error, source: Source::GlobalItems,
    wrong: "The Report ID 0 is reserved.",
    why: "0 stands for reports without an id; Linux and Windows refuse it.",
    instead: "Write Report ID (1), or none where no report needs one.",
    example: "05 01 09 02 a1 01 85 00 09 30 15 00 25 7f 75 08 95 01 81 02 c0",
    without: "05 01 09 02 a1 01 09 30 15 00 25 7f 75 08 95 01 81 02 c0",
};

#[rattlefmt::skip]
pub(crate) static UNUSED_USAGES: RuleRow = RuleRow {
    number: "HID011", name: "unused-usages",
    severity: Severity::Warning, source: Source::LocalItems,
    wrong: "No main item uses these usages.",
    why: "Local items end at the next main item, so usages before End Collection name nothing.",
    instead: "Write them before the Input, Output, Feature or Collection that they name, or leave \
        them out.",
    example: "05 01 09 02 a1 01 09 30 15 00 25 7f 75 08 95 01 81 02 09 31 c0",
    without: "05 01 09 02 a1 01 09 30 15 00 25 7f 75 08 95 01 81 02 c0",
};

#[rattlefmt::skip]
pub(crate) static OPEN_COLLECTION: RuleRow = RuleRow {
    number: "HID012", name: "collection-not-closed",
    severity: Severity::Error, source: Source::MainItems,
    wrong: "A collection isn't closed.",
    why: "Each Collection has an End Collection; Linux refuses the descriptor without.",
    instead: "Write End Collection where it ends.",
    example: "05 01 09 02 a1 01 09 30 15 00 25 7f 75 08 95 01 81 02",
    without: "05 01 09 02 a1 01 09 30 15 00 25 7f 75 08 95 01 81 02 c0",
};

#[rattlefmt::skip]
pub(crate) static LONE_PUSH: RuleRow = RuleRow {
    number: "HID013", name: "push-without-pop",
    severity: Severity::Note, source: Source::GlobalItems,
    wrong: "What a Push keeps is never brought back.",
    why: "Without its Pop a Push does nothing.",
    instead: "Write Pop where the kept items are to hold again, or leave Push out.",
    example: "a4 05 01 09 02 a1 01 09 30 15 00 25 7f 75 08 95 01 81 02 c0",
    without: "a4 b4 05 01 09 02 a1 01 09 30 15 00 25 7f 75 08 95 01 81 02 c0",
};
