//! The options that several commands take, by the words of the command line.
use crate::shared_options::{QUIET, VERBOSE};
use clap::ArgMatches;
use hid_given::Form;
use hid_input::settings::{LIMIT, Notes, ReadAs, Settings};
use hidreport::ParseOptions;

/// The least and the most columns of a line.
pub const LEAST_WIDTH: usize = 40;

pub const MOST_WIDTH: usize = 999;

/// What the words of a command line say; whether `auto` means colour is told, how many columns a
/// terminal has, and the names of `--define`.
pub fn settings_of<'a: 'b, 'b>(
    matches: &ArgMatches<'a>,
    is_terminal: bool,
    columns: Option<usize>,
    names: &'b [&'b str],
) -> Settings<'b> {
    let limit = matches.get_one::<usize>("limit").unwrap_or(LIMIT);
    let read_as = matches.get_str("as").and_then(read_as_named);
    let reading = read_as.unwrap_or(ReadAs::Linux);
    let sysfs: &'a str = matches.get_str("sysfs").unwrap_or("/sys");
    Settings {
        form: matches.get_str("form").and_then(Form::named),
        report_form: matches.get_str("report-form").and_then(Form::named),
        device: matches.get_one::<usize>("device"),
        parse: reading.parse_options(Some(limit), longest(limit)),
        read_as,
        is_json: matches.get_flag("json"),
        is_coloured: match matches.get_str("color") {
            Some("always") => true,
            Some("never") => false,
            _ => is_terminal,
        },
        width: matches.get_one::<usize>("width").or(columns),
        sysfs,
        notes: notes_of(matches),
        names,
    }
}

/// What is said beside refusals; not both options are given.
fn notes_of(matches: &ArgMatches) -> Notes {
    match (matches.get_flag(QUIET), matches.get_flag(VERBOSE)) {
        (true, _) => Notes::Quiet,
        (false, true) => Notes::Verbose,
        (false, false) => Notes::Usual,
    }
}

/// The words of the readings.
pub static READINGS: [&str; 2] = ["linux", "standard"];

/// The reading of a word.
fn read_as_named(word: &str) -> Option<ReadAs> {
    match word {
        "linux" => Some(ReadAs::Linux),
        "standard" => Some(ReadAs::Standard),
        _ => None,
    }
}

/// The most bytes of a descriptor: those that the library's bounds allow, and more where the limit
/// is raised past what it is by itself.
fn longest(limit: usize) -> Option<usize> {
    let bounded = ParseOptions::bounded().longest;
    if limit <= LIMIT {
        return bounded;
    }
    Some(limit)
}
