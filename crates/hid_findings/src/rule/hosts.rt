//! Rules of what hosts read otherwise, or refuse.
use crate::rule_row::RuleRow;
use crate::severity::Severity;
use crate::source::Source;

#[rattlefmt::skip]
pub(crate) static LINUX_REFUSES: RuleRow = RuleRow {
    number: "HID037", name: "linux-refuses",
    severity: Severity::Error, source: Source::Linux,
    wrong: "Linux refuses the descriptor.",
    why: "hid-core ends at this item, and no driver takes the device.",
    instead: "Keep to what is named, as Report Size (8) for at most 256 bits.",
    example: "05 01 09 02 a1 01 09 30 15 00 25 7f 76 08 01 95 01 91 02 c0",
    without: "05 01 09 02 a1 01 09 30 15 00 25 7f 75 08 95 01 91 02 c0",
};

#[rattlefmt::skip]
pub(crate) static LINUX_DOUBT: RuleRow = RuleRow {
    number: "HID038", name: "linux-may-read-otherwise",
    severity: Severity::Warning, source: Source::Linux,
    wrong: "Linux may find other usages here.",
    why: "hid-core has its own answer to what the standard leaves open.",
    instead: "Write what is named in its usual form, as Usage Minimum (1) before Usage Maximum \
        (3).",
    example: "05 01 09 02 a1 01 05 09 09 01 19 03 29 01 15 00 25 01 75 01 95 01 81 02 75 07 81 03 \
        c0",
    without: "05 01 09 02 a1 01 05 09 09 01 15 00 25 01 75 01 95 01 81 02 75 07 81 03 c0",
};

#[rattlefmt::skip]
pub(crate) static LINUX_LEAVES_OUT: RuleRow = RuleRow {
    number: "HID039", name: "linux-leaves-out",
    severity: Severity::Warning, source: Source::Linux,
    wrong: "Linux leaves out a part of the descriptor.",
    why: "hid-core keeps 12,288 usages of an item and 256 items of a report.",
    instead: "Write fewer usages before an item, or several reports.",
    example: "05 01 09 06 a1 01 06 00 ff 19 00 2a 00 30 26 ff 7f 75 10 95 01 81 00 c0",
    without: "05 01 09 06 a1 01 06 00 ff 19 00 2a ff 2f 26 ff 7f 75 10 95 01 81 00 c0",
};

#[rattlefmt::skip]
pub(crate) static LINUX_OVERFLOW: RuleRow = RuleRow {
    number: "HID040", name: "linux-division-overflows",
    severity: Severity::Warning, source: Source::Linux,
    wrong: "Linux divides -2147483648 by -1 here.",
    why: "Bounds of a Resolution Multiplier that span all numbers overflow in hid-core.",
    instead: "Write bounds that are meant, as Logical Minimum (0), Logical Maximum (1).",
    example: "05 01 09 02 a1 01 09 48 17 00 00 00 80 27 ff ff ff 7f 75 20 95 01 b1 02 c0",
    without: "05 01 09 02 a1 01 09 48 17 00 00 00 80 27 fe ff ff 7f 75 20 95 01 b1 02 c0",
};

#[rattlefmt::skip]
pub(crate) static LINUX_MENDS: RuleRow = RuleRow {
    number: "HID041", name: "linux-mends",
    severity: Severity::Note, source: Source::Linux,
    wrong: "Linux reads other bytes than stand there.",
    why: "hid-core adds data that lacks, leaves out tags that are none, and reads maxima without \
        a sign; another host need not do the same.",
    instead: "Write the bytes that are named, or leave out what Linux does.",
    example: "05 01 09 02 a1 01 09 30 09 31 15 00 25 01 75 08 95 01 80 c0",
    without: "05 01 09 02 a1 01 09 30 09 31 15 00 25 01 75 08 95 01 81 00 c0",
};

#[rattlefmt::skip]
pub(crate) static WINDOWS_UNKNOWN: RuleRow = RuleRow {
    number: "HID042", name: "windows-item-unknown",
    severity: Severity::Error, source: Source::Windows,
    wrong: "Windows refuses an item of a reserved type or tag.",
    why: "It is HIDP_GETCOLDESC_ITEM_UNKNOWN.",
    instead: "Write the item that is meant, or leave it out.",
    example: "c4 05 01 09 02 a1 01 09 30 15 00 25 7f 75 08 95 01 81 02 c0",
    without: "05 01 09 02 a1 01 09 30 15 00 25 7f 75 08 95 01 81 02 c0",
};

#[rattlefmt::skip]
pub(crate) static WINDOWS_EXTRA_END: RuleRow = RuleRow {
    number: "HID043", name: "windows-unexpected-end",
    severity: Severity::Error, source: Source::Windows,
    wrong: "Windows refuses an End Collection without a collection.",
    why: "It is HIDP_GETCOLDESC_UNEXP_END_COLLECTION.",
    instead: "Leave the End Collection out, or write the Collection that it closes.",
    example: "05 01 09 02 a1 01 09 30 15 00 25 7f 75 08 95 01 81 02 c0 c0",
    without: "05 01 09 02 a1 01 09 30 15 00 25 7f 75 08 95 01 81 02 c0",
};

#[rattlefmt::skip]
pub(crate) static WINDOWS_NO_USAGE: RuleRow = RuleRow {
    number: "HID044", name: "windows-data-without-usage",
    severity: Severity::Error, source: Source::Windows,
    wrong: "Windows refuses a data item without a usage.",
    why: "It is HIDP_GETCOLDESC_MAIN_ITEM_NO_USAGE.",
    instead: "Write a usage before it, as Usage (48) for X, or make it padding: Input (Constant).",
    example: "05 01 09 02 a1 01 15 00 25 7f 75 08 95 01 81 02 c0",
    without: "05 01 09 02 a1 01 15 00 25 7f 75 08 95 01 81 01 c0",
};

#[rattlefmt::skip]
pub(crate) static WINDOWS_TOP_USAGE: RuleRow = RuleRow {
    number: "HID045", name: "windows-top-collection-usage",
    severity: Severity::Error, source: Source::Windows,
    wrong: "Windows wants one usage of an outermost collection.",
    why: "It is HIDP_GETCOLDESC_TOP_COLLECTION_USAGE.",
    instead: "Write one before it, as Usage Page (Generic Desktop), Usage (Mouse).",
    example: "05 01 09 02 09 06 a1 01 09 30 15 00 25 7f 75 08 95 01 81 02 c0",
    without: "05 01 09 02 a1 01 09 30 15 00 25 7f 75 08 95 01 81 02 c0",
};

#[rattlefmt::skip]
pub(crate) static WINDOWS_ID_OUTSIDE: RuleRow = RuleRow {
    number: "HID046", name: "windows-report-id-outside",
    severity: Severity::Error, source: Source::Windows,
    wrong: "Windows refuses a Report ID outside of collections.",
    why: "It is HIDP_GETCOLDESC_REPORT_ID.",
    instead: "Write Report ID (1) behind Collection (Application).",
    example: "05 01 09 02 85 01 a1 01 09 30 15 00 25 7f 75 08 95 01 81 02 c0",
    without: "05 01 09 02 a1 01 85 01 09 30 15 00 25 7f 75 08 95 01 81 02 c0",
};

#[rattlefmt::skip]
pub(crate) static WINDOWS_ID_ZERO: RuleRow = RuleRow {
    number: "HID047", name: "windows-report-id-zero",
    severity: Severity::Error, source: Source::Windows,
    wrong: "Windows refuses the Report ID 0.",
    why: "It is HIDP_GETCOLDESC_BAD_REPORT_ID_VALUE.",
    instead: "Write Report ID (1), or none where no report needs one.",
    example: "05 01 09 02 a1 01 85 00 09 30 15 00 25 7f 75 08 95 01 81 02 c0",
    without: "05 01 09 02 a1 01 09 30 15 00 25 7f 75 08 95 01 81 02 c0",
};

#[rattlefmt::skip]
pub(crate) static WINDOWS_ID_SHARED: RuleRow = RuleRow {
    number: "HID048", name: "windows-report-id-shared",
    severity: Severity::Error, source: Source::Windows,
    wrong: "Windows refuses a Report ID in two outermost collections.",
    why: "It is HIDP_GETCOLDESC_NO_REPORT_ID.",
    instead: "Write another in each, as Report ID (2).",
    example: "05 01 09 02 a1 01 85 01 09 30 15 00 25 7f 75 08 95 01 81 02 c0 09 06 a1 01 09 30 b1 \
        02 c0",
    without: "05 01 09 02 a1 01 85 01 09 30 15 00 25 7f 75 08 95 01 81 02 c0 09 06 a1 01 85 02 09 \
        30 b1 02 c0",
};

#[rattlefmt::skip]
pub(crate) static WINDOWS_NO_ID: RuleRow = RuleRow {
    number: "HID049", name: "windows-report-without-id",
    severity: Severity::Error, source: Source::Windows,
    wrong: "Windows wants an id of each report, or of none.",
    why: "It is HIDP_GETCOLDESC_DEFAULT_ID_ERROR, also for two outermost collections without.",
    instead: "Write a Report ID before each report, as Report ID (2).",
    example: "05 01 09 02 a1 01 09 30 15 00 25 7f 75 08 95 01 81 02 c0 09 06 a1 01 09 30 b1 02 c0",
    without: "05 01 09 02 a1 01 85 01 09 30 15 00 25 7f 75 08 95 01 81 02 c0 09 06 a1 01 85 02 09 \
        30 b1 02 c0",
};

#[rattlefmt::skip]
pub(crate) static WINDOWS_NO_DATA: RuleRow = RuleRow {
    number: "HID050", name: "windows-no-collection",
    severity: Severity::Error, source: Source::Windows,
    wrong: "Windows wants a collection.",
    why: "It is HIDP_GETCOLDESC_NO_DATA.",
    instead: "Write Collection (Application) around the items.",
    example: "05 01 09 30 15 00 25 7f 75 08 95 01 81 02",
    without: "05 01 09 02 a1 01 09 30 15 00 25 7f 75 08 95 01 81 02 c0",
};

#[rattlefmt::skip]
pub(crate) static WINDOWS_OUTSIDE: RuleRow = RuleRow {
    number: "HID051", name: "windows-data-outside",
    severity: Severity::Error, source: Source::Windows,
    wrong: "Windows refuses data outside of collections.",
    why: "It is HIDP_GETCOLDESC_INVALID_MAIN_ITEM.",
    instead: "Write Collection (Application) before it.",
    example: "05 01 09 30 15 00 25 7f 75 08 95 01 81 02 09 02 a1 01 c0",
    without: "05 01 09 02 a1 01 09 30 15 00 25 7f 75 08 95 01 81 02 c0",
};

#[rattlefmt::skip]
pub(crate) static WINDOWS_UNALIGNED: RuleRow = RuleRow {
    number: "HID052", name: "windows-report-not-whole-bytes",
    severity: Severity::Error, source: Source::Windows,
    wrong: "Windows refuses a report of no whole bytes.",
    why: "It is HIDP_GETCOLDESC_BYTE_ALLIGN.",
    instead: "Write padding behind its fields: Report Size (1), Report Count (1), Input \
        (Constant).",
    example: "05 01 09 02 a1 01 09 30 15 00 25 7f 75 07 95 01 81 02 c0",
    without: "05 01 09 02 a1 01 09 30 15 00 25 7f 75 07 95 01 81 02 75 01 81 01 c0",
};

#[rattlefmt::skip]
pub(crate) static WINDOWS_NOT_CLOSED: RuleRow = RuleRow {
    number: "HID053", name: "windows-set-not-closed",
    severity: Severity::Error, source: Source::Windows,
    wrong: "Windows refuses a set of usages that isn't closed.",
    why: "It is HIDP_GETCOLDESC_NO_CLOSE_DELIMITER.",
    instead: "Write Delimiter (0) behind its usages.",
    example: "05 01 09 02 a1 01 15 00 25 7f 75 08 95 01 a9 01 09 30 09 31 81 02 c0",
    without: "05 01 09 02 a1 01 15 00 25 7f 75 08 95 01 a9 01 09 30 09 31 a9 00 81 02 c0",
};

#[rattlefmt::skip]
pub(crate) static WINDOWS_ARRAY_OF_SETS: RuleRow = RuleRow {
    number: "HID054", name: "windows-array-of-sets",
    severity: Severity::Error, source: Source::Windows,
    wrong: "Windows refuses an array whose usages are in sets.",
    why: "It is HIDP_GETCOLDESC_UNSUPPORTED.",
    instead: "Write Input (Data,Var,Abs,NoNull), or usages without sets.",
    example: "05 01 09 02 a1 01 15 00 25 7f 75 08 95 01 a9 01 09 30 09 31 a9 00 81 00 c0",
    without: "05 01 09 02 a1 01 15 00 25 7f 75 08 95 01 a9 01 09 30 09 31 a9 00 81 02 c0",
};
