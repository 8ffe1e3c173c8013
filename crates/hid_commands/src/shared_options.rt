//! The options that several commands of `hid` take: those of all, and lists of others.
use crate::kind::{Argument, Kind};

/// The option by which nothing is said beside refusals.
pub const QUIET: &str = "quiet";

/// The option by which more is said.
pub const VERBOSE: &str = "verbose";

/// The options of all commands.
pub static OPTIONS: [Argument; 4] = [
    (
        "limit",
        Kind::Number,
        "The most that a descriptor may list, 131072 where it isn't said",
    ),
    (
        "as",
        Kind::Reading,
        "Read as Linux does, which is so where nothing is said, or by the standard's letter",
    ),
    (
        QUIET,
        Kind::Flag,
        "Say nothing on standard error but why something is refused",
    ),
    (
        VERBOSE,
        Kind::Louder,
        "Say also in which form an input is read",
    ),
];

const FOLDER: Argument = (
    "sysfs",
    Kind::Folder,
    "The folder in which Linux tells of devices",
);

/// How the input of a descriptor is read.
pub const INPUT: &[Argument] = &[
    (
        "form",
        Kind::Form,
        "What the descriptor's input holds, where it isn't to be guessed",
    ),
    (
        "define",
        Kind::Name,
        "A name that source asks for by #if, or NAME=NUMBER; each by an option",
    ),
    (
        "device",
        Kind::Number,
        "The device that is meant, of an input that has several",
    ),
    FOLDER,
];

/// How the inputs of reports are read.
pub const REPORT_FORM: &[Argument] = &[(
    "report-form",
    Kind::Form,
    "What the reports' input holds, where it isn't to be guessed",
)];

/// Where the devices of the machine are found.
pub const SYSFS: &[Argument] = &[FOLDER];

/// Whether the answer is JSON.
pub const JSON: &[Argument] = &[("json", Kind::Flag, "Write an object of JSON in each line")];

/// Whether names are in colour.
pub const COLOR: &[Argument] = &[("color", Kind::Colour, "Show names in colour")];

/// In how many columns lines are.
pub const WIDTH: &[Argument] = &[(
    "width",
    Kind::Number,
    "The most columns of a line, 40 to 999; those of the terminal where it isn't said",
)];
