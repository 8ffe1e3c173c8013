//! The commands of `hid` and their arguments, as tables.
use crate::kind::{Argument, Kind};
use crate::shared_options::{COLOR, INPUT, JSON, REPORT_FORM, SYSFS, WIDTH};

/// The option of a rule that is explained.
pub const EXPLAIN: &str = "explain";

/// What means nothing beside it.
pub static NOT_EXPLAINED: [&str; 7] = [
    "FILE", "for", "fail-on", "form", "define", "device", "sysfs",
];

/// Options that are no more, and what is said in their place.
pub static REPLACED: [(&str, &str); 3] = [
    (
        "--lenient",
        "descriptors are read as Linux reads them, but for --as standard",
    ),
    ("--push", "--as linux keeps globals, --as standard all"),
    (
        "--usages",
        "--as linux finds usages as hosts do, --as standard by its letter",
    ),
];

const FILE: Argument = ("FILE", Kind::Word, "The descriptor");

const DIRECTION: Argument = ("direction", Kind::Direction, "Which way the reports go");

const WRITTEN_AS: &str = "What the bytes are written as";

const TARGET: Argument = ("to", Kind::Target, WRITTEN_AS);

const DECODE: &[Argument] = &[FILE];

const CHECK: &[Argument] = &[
    ("FILE", Kind::WordOrRule, "The descriptor"),
    (
        "for",
        Kind::Host,
        "Show also what this host refuses or may read otherwise, as far as it is known",
    ),
    (
        "fail-on",
        Kind::Severity,
        "The status is 1 where a finding is so bad, or worse",
    ),
    (
        EXPLAIN,
        Kind::Rule,
        "Show what a rule means and what to write, by its number or name; all: a line of each",
    ),
];

const FIELDS: &[Argument] = &[
    FILE,
    (
        "all",
        Kind::Flag,
        "Show each field and each report by itself, also those that are alike",
    ),
    (
        "linux",
        Kind::Flag,
        "Show the event codes that Linux's hid-generic gives each field, without quirks",
    ),
];

const REPORTS: Argument = (
    "REPORT",
    Kind::Words,
    "Reports: files, or - for lines of hex text; those of FILE where it is a recording",
);

const TIMES: Argument = (
    "times",
    Kind::Flag,
    "Show each report's number and its time in seconds",
);

const EVENTS: Argument = (
    "linux",
    Kind::Flag,
    "Show the input events that Linux's hid-generic sends for each report, without quirks",
);

const VALUES: &[Argument] = &[
    FILE,
    REPORTS,
    DIRECTION,
    (
        "down",
        Kind::Flag,
        "Show only the keys and buttons that are down, a name in each line",
    ),
    EVENTS,
    TIMES,
];

const RECORD: &[Argument] = &[
    (
        "FILE",
        Kind::WordOrNone,
        "The descriptor; without it a device of the machine is asked for",
    ),
    (
        "STREAM",
        Kind::WordOrNone,
        "A node, a pipe, a recording, or - for the standard input; FILE where that is a node",
    ),
    (
        "changes",
        Kind::Flag,
        "Leave out what is as it was in the report before",
    ),
    ("raw", Kind::Flag, "Write hid-recorder's lines"),
    EVENTS,
    TIMES,
];

const UHID: &[Argument] = &[(
    "FILE",
    Kind::Word,
    "A recording of a device, or its descriptor",
)];

const SET: &[Argument] = &[
    FILE,
    (
        "ID",
        Kind::Word,
        "The report's id, or - where reports have none",
    ),
    (
        "NAME=NUMBER",
        Kind::Words,
        "A field's value, or a key of an array that is down (1)",
    ),
    DIRECTION,
    ("to", Kind::ReportTarget, WRITTEN_AS),
    (
        "press",
        Kind::Keys,
        "Press keys of a keyboard, too, with + between them, as Ctrl+A",
    ),
    (
        "zero",
        Kind::Flag,
        "Set all bits to 0 that no name sets, and not to what stands for no value",
    ),
    (
        "names",
        Kind::Flag,
        "Show the names that it takes, one in each line, and write no report",
    ),
    (
        "linux",
        Kind::Flag,
        "Write what Linux does where a program sets lamps, as LED_CAPSL=1; ID is -",
    ),
];

const CONVERT: &[Argument] = &[FILE, TARGET];

const COMPILE: &[Argument] = &[
    ("TEXT", Kind::Word, "The text, or - for the standard input"),
    TARGET,
];

const STRUCT: &[Argument] = &[FILE, ("to", Kind::Language, "The language of the source")];

const MAP: &[Argument] = &[
    FILE,
    ("svg", Kind::Flag, "Write the picture as SVG"),
    ("all", Kind::Flag, "Draw all rows, past the first 4,096"),
];

const PAGE: &[Argument] = &[
    FILE,
    REPORTS,
    DIRECTION,
    (
        "all",
        Kind::Flag,
        "Leave nothing out: all items past 4,096, fields past 2,000 and reports past 4,000",
    ),
];

const DIFF: &[Argument] = &[
    ("FILE", Kind::Word, "A descriptor"),
    ("OTHER", Kind::Word, "Another"),
    (
        "items",
        Kind::Flag,
        "Show the items that differ, in the bytes as they stand",
    ),
];

const LIST: &[Argument] = &[];

/// A command's name, what it is for, its own arguments, and the lists of shared options that mean
/// something for it.
pub type Row = (
    &'static str,
    &'static str,
    &'static [Argument],
    &'static [&'static [Argument]],
);

/// The commands.
#[rattlefmt::skip]
pub static COMMANDS: [Row; 14] = [
    ("decode", "Shows the items of a descriptor in words", DECODE, &[INPUT, JSON, COLOR]),
    ("fields", "Shows the reports of a descriptor and their fields", FIELDS,
        &[INPUT, JSON, COLOR, WIDTH]),
    ("values", "Shows the values of reports", VALUES, &[INPUT, REPORT_FORM, JSON]),
    ("record", "Shows each report of a stream in a line, as it comes", RECORD,
        &[INPUT, REPORT_FORM, JSON]),
    ("uhid", "Writes a recording as events for Linux's /dev/uhid, without its times", UHID,
        &[INPUT]),
    ("set", "Writes the bytes of a report", SET, &[INPUT]),
    ("convert", "Writes a descriptor in another form", CONVERT, &[INPUT]),
    ("compile", "Writes the descriptor that a text of hid decode says", COMPILE, &[]),
    ("struct", "Writes source with a struct, a decoder and an encoder for each report", STRUCT,
        &[INPUT]),
    ("map", "Draws the bits of each report", MAP, &[INPUT, WIDTH]),
    ("page", "Writes a page of HTML that shows a descriptor and reports", PAGE,
        &[INPUT, REPORT_FORM]),
    ("diff", "Shows what differs between two descriptors", DIFF, &[INPUT, JSON, COLOR]),
    ("check", "Shows what is odd in a descriptor, and what the standard says", CHECK,
        &[INPUT, JSON]),
    ("list", "Shows the HID devices of the machine", LIST, &[SYSFS, JSON]),
];
