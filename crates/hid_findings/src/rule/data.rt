//! Rules of data items and of reports.
use crate::rule_row::RuleRow;
use crate::severity::Severity;
use crate::source::Source;

#[rattlefmt::skip]
pub(crate) static MAXIMUM_BELOW_MINIMUM: RuleRow = RuleRow {
    number: "HID014", name: "maximum-below-minimum",
    severity: Severity::Error, source: Source::GlobalItems,
    wrong: "The Logical Maximum is below the Logical Minimum.",
    why: "Bounds have a sign, so 25 ff is -1 and not 255; no value lies between them.",
    instead: "Write Logical Maximum (255), which takes a byte more: 26 ff 00.",
    example: "05 01 09 02 a1 01 09 30 15 00 25 ff 75 08 95 01 81 02 c0",
    without: "05 01 09 02 a1 01 09 30 15 00 26 ff 00 75 08 95 01 81 02 c0",
};

#[rattlefmt::skip]
pub(crate) static MAXIMUM_TOO_WIDE: RuleRow = RuleRow {
    number: "HID015", name: "maximum-past-size",
    severity: Severity::Warning, source: Source::GlobalItems,
    wrong: "The Logical Maximum takes more bits than Report Size.",
    why: "The greatest values can't be sent; where the minimum is below 0 one bit is the sign.",
    instead: "Write a maximum that fits, as Logical Maximum (127) for Report Size (7), or more \
        bits.",
    example: "05 01 09 02 a1 01 09 30 15 00 26 80 00 75 07 95 01 81 02 75 01 81 03 c0",
    without: "05 01 09 02 a1 01 09 30 15 00 25 7f 75 07 95 01 81 02 75 01 81 03 c0",
};

#[rattlefmt::skip]
pub(crate) static ONE_VALUE: RuleRow = RuleRow {
    number: "HID016", name: "bounds-of-one-value",
    severity: Severity::Note, source: Source::GlobalItems,
    wrong: "The Logical Minimum and Maximum are one number.",
    why: "A field of one value says nothing; a host may want it, but often the bounds are those \
        of an item before.",
    instead: "Write the field's own, as Logical Minimum (0), Logical Maximum (1).",
    example: "05 01 09 02 a1 01 09 30 15 05 25 05 75 08 95 01 81 02 c0",
    without: "05 01 09 02 a1 01 09 30 15 00 25 05 75 08 95 01 81 02 c0",
};

#[rattlefmt::skip]
pub(crate) static SPARE_USAGES: RuleRow = RuleRow {
    number: "HID017", name: "more-usages-than-switches",
    severity: Severity::Warning, source: Source::LocalItems,
    wrong: "There are more usages than switches of one bit.",
    why: "Each switch takes a usage in turn, and those that are left have no bit.",
    instead: "Write as many, as Usage Maximum (8) behind Usage Minimum (1) for Report Count (8).",
    example: "05 01 09 02 a1 01 05 09 19 01 29 09 15 00 25 01 75 01 95 08 81 02 c0",
    without: "05 01 09 02 a1 01 05 09 19 01 29 08 15 00 25 01 75 01 95 08 81 02 c0",
};

#[rattlefmt::skip]
pub(crate) static REPEATED_USAGE: RuleRow = RuleRow {
    number: "HID018", name: "fewer-usages-than-fields",
    severity: Severity::Warning, source: Source::LocalItems,
    wrong: "There are fewer usages than fields.",
    why: "The last usage stands for all fields that are left, so they are one control several \
        times.",
    instead: "Write a usage for each, as Usage Minimum (1), Usage Maximum (8) for Report Count \
        (8).",
    example: "05 01 09 02 a1 01 05 09 19 01 29 03 15 00 25 01 75 01 95 08 81 02 c0",
    without: "05 01 09 02 a1 01 05 09 19 01 29 08 15 00 25 01 75 01 95 08 81 02 c0",
};

#[rattlefmt::skip]
pub(crate) static ARRAY_MAXIMUM_PAST: RuleRow = RuleRow {
    number: "HID019", name: "array-maximum-past-usages",
    severity: Severity::Note, source: Source::DataItems,
    wrong: "An array's Logical Maximum is past its usages.",
    why: "A value counts usages from the Logical Minimum; those past the last one mean nothing.",
    instead: "Write the last one's, as Logical Maximum (101) for Usage Minimum (0), Usage Maximum \
        (101).",
    example: "05 01 09 06 a1 01 05 07 19 00 29 65 15 00 26 ff 00 75 08 95 06 81 00 c0",
    without: "05 01 09 06 a1 01 05 07 19 00 29 65 15 00 25 65 75 08 95 06 81 00 c0",
};

#[rattlefmt::skip]
pub(crate) static ARRAY_MAXIMUM_BELOW: RuleRow = RuleRow {
    number: "HID020", name: "array-maximum-below-usages",
    severity: Severity::Warning, source: Source::DataItems,
    wrong: "An array's Logical Maximum leaves out usages.",
    why: "A value counts usages from the Logical Minimum; those past the maximum can't be sent.",
    instead: "Write the last one's, as Logical Maximum (255) for Usage Minimum (0), Usage Maximum \
        (255).",
    example: "05 01 09 06 a1 01 05 07 19 00 29 ff 15 00 25 65 75 08 95 06 81 00 c0",
    without: "05 01 09 06 a1 01 05 07 19 00 29 ff 15 00 26 ff 00 75 08 95 06 81 00 c0",
};

#[rattlefmt::skip]
pub(crate) static EXCHANGED: RuleRow = RuleRow {
    number: "HID021", name: "size-and-count-exchanged",
    severity: Severity::Warning, source: Source::GlobalItems,
    wrong: "Report Size and Report Count are likely exchanged.",
    why: "One field from 0 to 1 has as many bits as there are usages: it is one number, no \
        switches.",
    instead: "Write Report Size (1), Report Count (8) for 8 switches.",
    example: "05 01 09 05 a1 01 05 09 19 01 29 08 15 00 25 01 75 08 95 01 81 02 c0",
    without: "05 01 09 05 a1 01 05 09 19 01 29 08 15 00 25 01 75 01 95 08 81 02 c0",
};

#[rattlefmt::skip]
pub(crate) static DEVICE_AS_SWITCH: RuleRow = RuleRow {
    number: "HID022", name: "buttons-without-button-page",
    severity: Severity::Warning, source: Source::Desktop,
    wrong: "Switches have usages that name devices.",
    why: "Usages 1 to 15 of Generic Desktop are devices, as Pointer and Mouse, and no buttons.",
    instead: "Write Usage Page (Button) before Usage Minimum (1).",
    example: "05 01 09 02 a1 01 19 01 29 03 15 00 25 01 75 01 95 03 81 02 75 05 95 01 81 03 c0",
    without: "05 01 09 02 a1 01 05 09 19 01 29 03 15 00 25 01 75 01 95 03 81 02 75 05 95 01 81 03 \
        c0",
};

#[rattlefmt::skip]
pub(crate) static HAT_WITHOUT_NULL: RuleRow = RuleRow {
    number: "HID023", name: "hat-without-null-state",
    severity: Severity::Warning, source: Source::Desktop,
    wrong: "A hat switch of 8 directions has no null state.",
    why: "Each of its values is a direction, so it can't say that it is at its centre.",
    instead: "Write Input (Data,Var,Abs,Null), and send a value past its bounds for the centre.",
    example: "05 01 09 05 a1 01 09 39 15 00 25 07 75 04 95 01 81 02 75 04 81 03 c0",
    without: "05 01 09 05 a1 01 09 39 15 00 25 07 75 04 95 01 81 42 75 04 81 03 c0",
};

#[rattlefmt::skip]
pub(crate) static ONE_WAY: RuleRow = RuleRow {
    number: "HID024", name: "relative-one-way",
    severity: Severity::Warning, source: Source::DataItems,
    wrong: "A relative axis goes one way alone.",
    why: "Its values are changes; none is below 0, so it never goes back.",
    instead: "Write Logical Minimum (-127), or Input (Data,Var,Abs,NoNull) for positions.",
    example: "05 01 09 02 a1 01 09 30 15 00 26 ff 00 75 08 95 01 81 06 c0",
    without: "05 01 09 02 a1 01 09 30 15 81 25 7f 75 08 95 01 81 06 c0",
};

#[rattlefmt::skip]
pub(crate) static UNIT_AT_SWITCHES: RuleRow = RuleRow {
    number: "HID025", name: "unit-at-switches",
    severity: Severity::Note, source: Source::GlobalItems,
    wrong: "A unit is still in force at switches of one bit.",
    why: "Global items hold until another takes their place, and a switch has no unit.",
    instead: "Write Unit (0x0) before the switches.",
    example: "05 01 09 05 a1 01 09 39 15 00 25 07 35 00 46 3b 01 65 14 75 04 95 01 81 42 05 09 19 \
        01 29 04 15 00 25 01 75 01 95 04 81 02 c0",
    without: "05 01 09 05 a1 01 09 39 15 00 25 07 35 00 46 3b 01 65 14 75 04 95 01 81 42 65 00 05 \
        09 19 01 29 04 15 00 25 01 75 01 95 04 81 02 c0",
};

#[rattlefmt::skip]
pub(crate) static RESERVED_UNIT: RuleRow = RuleRow {
    number: "HID026", name: "reserved-unit-system",
    severity: Severity::Warning, source: Source::GlobalItems,
    wrong: "The unit's system is reserved.",
    why: "The lowest four bits of a unit are its system: 1 to 4, or 15 for vendors.",
    instead: "Write a unit of these, as Unit (0x11) for centimetres, or Unit (0x0).",
    example: "05 01 09 02 a1 01 09 30 15 00 25 7f 65 1e 75 08 95 01 81 02 c0",
    without: "05 01 09 02 a1 01 09 30 15 00 25 7f 65 11 75 08 95 01 81 02 c0",
};

#[rattlefmt::skip]
pub(crate) static UNIT_WITHOUT_SYSTEM: RuleRow = RuleRow {
    number: "HID027", name: "unit-without-system",
    severity: Severity::Warning, source: Source::GlobalItems,
    wrong: "The unit has exponents and no system.",
    why: "Its lowest four bits, the system, are 0, which means no unit.",
    instead: "Write the system, too, as Unit (0x11) for centimetres, or Unit (0x0).",
    example: "05 01 09 02 a1 01 09 30 15 00 25 7f 65 10 75 08 95 01 81 02 c0",
    without: "05 01 09 02 a1 01 09 30 15 00 25 7f 65 11 75 08 95 01 81 02 c0",
};

#[rattlefmt::skip]
pub(crate) static UNIT_TO_A_POWER: RuleRow = RuleRow {
    number: "HID028", name: "unit-to-a-power",
    severity: Severity::Warning, source: Source::Axes,
    wrong: "An axis is measured in a power of a length or an angle.",
    why: "65 33 is cubic inches; an axis has a length or an angle.",
    instead: "Write Unit (0x13) for inches, Unit (0x11) for centimetres, or Unit (0x14) for \
        degrees.",
    example: "05 01 09 02 a1 01 09 30 15 00 25 7f 65 33 75 08 95 01 81 02 c0",
    without: "05 01 09 02 a1 01 09 30 15 00 25 7f 65 13 75 08 95 01 81 02 c0",
};

#[rattlefmt::skip]
pub(crate) static REPORT_WITHOUT_ID: RuleRow = RuleRow {
    number: "HID029", name: "report-without-id",
    severity: Severity::Error, source: Source::ReportIds,
    wrong: "A report has no id, and others have.",
    why: "Where ids are used each report begins with one, so this can't be told from others.",
    instead: "Write a Report ID before each report, as Report ID (2).",
    example: "05 01 09 02 a1 01 09 30 15 00 25 7f 75 08 95 01 81 02 85 01 09 31 81 02 c0",
    without: "05 01 09 02 a1 01 85 02 09 30 15 00 25 7f 75 08 95 01 81 02 85 01 09 31 81 02 c0",
};

#[rattlefmt::skip]
pub(crate) static PARTIAL_BYTE: RuleRow = RuleRow {
    number: "HID030", name: "report-not-whole-bytes",
    severity: Severity::Warning, source: Source::Reports,
    wrong: "A report's bits are no whole number of bytes.",
    why: "Reports are sent in bytes; Windows refuses bits that no item has.",
    instead: "Write padding behind its fields: Report Size (1), Report Count (1), Input \
        (Constant).",
    example: "05 01 09 02 a1 01 09 30 15 00 25 7f 75 07 95 01 81 02 c0",
    without: "05 01 09 02 a1 01 09 30 15 00 25 7f 75 07 95 01 81 02 75 01 81 01 c0",
};

#[rattlefmt::skip]
pub(crate) static FIELD_PAST_FOUR_BYTES: RuleRow = RuleRow {
    number: "HID031", name: "field-past-four-bytes",
    severity: Severity::Error, source: Source::Reports,
    wrong: "A field lies in more than four bytes.",
    why: "A value may span four bytes of a report, so one of 32 bits begins at a byte.",
    instead: "Write padding after it, not before, or parts of at most 32 bits.",
    example: "05 01 09 02 a1 01 75 04 95 01 81 03 09 30 15 00 27 ff ff ff 7f 75 20 81 02 75 04 81 \
        03 c0",
    without: "05 01 09 02 a1 01 09 30 15 00 27 ff ff ff 7f 75 20 95 01 81 02 75 08 81 03 c0",
};

#[rattlefmt::skip]
pub(crate) static REPORT_APART: RuleRow = RuleRow {
    number: "HID032", name: "report-in-several-collections",
    severity: Severity::Error, source: Source::Reports,
    wrong: "A report lies in several outermost collections.",
    why: "To hosts each outermost collection is a device of its own, and a report belongs to one.",
    instead: "Write another Report ID in each, as Report ID (2).",
    example: "05 01 09 02 a1 01 09 30 15 00 25 7f 75 08 95 01 81 02 c0 09 06 a1 01 09 31 81 02 c0",
    without: "05 01 09 02 a1 01 85 01 09 30 15 00 25 7f 75 08 95 01 81 02 c0 09 06 a1 01 85 02 09 \
        31 81 02 c0",
};

#[rattlefmt::skip]
pub(crate) static PAST_TRANSACTION: RuleRow = RuleRow {
    number: "HID033", name: "report-past-one-transaction",
    severity: Severity::Note, source: Source::Transactions,
    wrong: "An input report has more than 64 bytes.",
    why: "At full speed an interrupt transaction has 64, so the report is sent in several.",
    instead: "At full speed send at most 64 bytes, with the id; at high speed it may stay.",
    example: "06 00 ff 09 01 a1 01 09 02 15 00 26 ff 00 75 08 95 41 81 02 c0",
    without: "06 00 ff 09 01 a1 01 09 02 15 00 26 ff 00 75 08 95 40 81 02 c0",
};

#[rattlefmt::skip]
pub(crate) static NO_CONTACT_MAXIMUM: RuleRow = RuleRow {
    number: "HID034", name: "touch-pad-without-contact-maximum",
    severity: Severity::Warning, source: Source::TouchPads,
    wrong: "A touch pad has no Contact Count Maximum.",
    why: "Windows asks a precision touch pad how many contacts it has.",
    instead: "Write Usage Page (Digitizers), Usage (Contact Count Maximum), Feature \
        (Data,Var,Abs,NoNull).",
    example: "05 0d 09 05 a1 01 09 22 a1 02 09 51 15 00 25 07 75 03 95 01 81 02 75 05 81 03 c0 c0",
    without: "05 0d 09 05 a1 01 09 22 a1 02 09 51 15 00 25 07 75 03 95 01 81 02 75 05 81 03 c0 09 \
        55 25 0f 75 08 b1 02 c0",
};

#[rattlefmt::skip]
pub(crate) static OTHER_USAGES: RuleRow = RuleRow {
    number: "HID035", name: "usages-differ-by-standard",
    severity: Severity::Note, source: Source::LocalItems,
    wrong: "Hosts find other usages than the standard's letter.",
    why: "A usage without a page takes it at its main item for hosts, where it stands by the \
        letter.",
    instead: "Write the usages of each page with an Input of their own.",
    example: "05 01 09 02 a1 01 05 09 09 01 05 0c 09 e9 15 00 25 01 75 01 95 02 81 02 75 06 95 01 \
        81 03 c0",
    without: "05 01 09 02 a1 01 05 09 09 01 15 00 25 01 75 01 95 01 81 02 05 0c 09 e9 81 02 75 06 \
        81 03 c0",
};

#[rattlefmt::skip]
pub(crate) static REFUSED_BY_STANDARD: RuleRow = RuleRow {
    number: "HID036", name: "refused-by-standard",
    severity: Severity::Warning, source: Source::LocalItems,
    wrong: "By the standard's letter the descriptor is refused.",
    why: "Hosts read it; a strict parser finds an item without a page or a usage.",
    instead: "Write Usage Page (Generic Desktop), or what it is, before the usages.",
    example: "09 02 a1 01 09 30 15 00 25 7f 75 08 95 01 81 02 c0",
    without: "05 01 09 02 a1 01 09 30 15 00 25 7f 75 08 95 01 81 02 c0",
};
