//! What the words of a command line ask for.
use crate::settings::{LEAST_WIDTH, MOST_WIDTH};
use anyhow::{Result, bail};
use clap::ArgMatches;
use hid_compare::Diff;
use hid_findings::{Check, Explain, Host, Severity};
use hid_input::inputs::Inputs;
use hid_input::settings::Settings;
use hid_input::world::World;
use hid_output::ending::Ending;
use hid_page::Page;
use hid_show::{Decode, Fields, List, Map};
use hid_struct::{Language, Struct};
use hid_targets::{ReportTarget, Target};
use hid_values::{Record, Values};
use hid_words::direction_named;
use hid_write::{Compile, Convert, Set, Uhid, id_named};
use hidreport::Direction;
use std::alloc::{AllocError, Global};

const NO_TIMES: &str = "--times is of lines of values: --raw and --json have times";

/// A command with its words.
#[derive(Drop)]
pub enum Command<'a> {
    /// Shows the items of a descriptor.
    Decode(Decode<'a>),
    /// Shows the fields of a descriptor.
    Fields(Fields<'a>),
    /// Shows the values of reports.
    Values(Values<'a>),
    /// Shows the reports of a stream.
    Record(Record<'a>),
    /// Writes a recording as events.
    Uhid(Uhid<'a>),
    /// Writes the bytes of a report.
    Set(Set<'a>),
    /// Writes a descriptor in another form.
    Convert(Convert<'a>),
    /// Writes the descriptor that a text says.
    Compile(Compile<'a>),
    /// Writes source that reads and writes reports.
    Struct(Struct<'a>),
    /// Draws the bits of each report.
    Map(Map<'a>),
    /// Writes a page of HTML.
    Page(Page<'a>),
    /// Shows what differs between two descriptors.
    Diff(Diff<'a>),
    /// Shows what is odd in a descriptor.
    Check(Check<'a>),
    /// Shows what rules of `check` mean.
    Explain(Explain),
    /// Shows the HID devices of the machine.
    List(List),
}

impl<'a> Command<'a> {
    /// The command with this name, and its words.
    pub fn of(alloc: Global, name: &str, matches: &ArgMatches<'a>) -> Result<Command<'a>> {
        let file = matches.get_str("FILE").unwrap_or("-");
        Ok(match name {
            "decode" => Command::Decode(Decode { file }),
            "fields" => {
                let shows_each = matches.get_flag("all");
                let shows_linux = matches.get_flag("linux");
                Command::Fields(Fields {
                    file,
                    shows_each,
                    shows_linux,
                })
            }
            "check" => check_of(alloc, file, matches)?,
            "list" => Command::List(List),
            "values" => Command::Values(Values {
                inputs: inputs_of(alloc, file, matches)?,
                is_down: matches.get_flag("down"),
                has_times: matches.get_flag("times"),
                shows_linux: matches.get_flag("linux"),
            }),
            "record" => Command::Record(record_of(matches)),
            "uhid" => Command::Uhid(Uhid { file }),
            "set" => Command::Set(set_of(alloc, file, matches)?),
            "convert" => {
                let target = target_of(matches);
                Command::Convert(Convert { file, target })
            }
            "compile" => {
                let (text, target) = (matches.get_str("TEXT").unwrap_or("-"), target_of(matches));
                Command::Compile(Compile { text, target })
            }
            "struct" => {
                let language = Language::named(matches.get_str("to"));
                Command::Struct(Struct { file, language })
            }
            "map" => Command::Map(map_of(file, matches)),
            "page" => Command::Page(Page {
                inputs: inputs_of(alloc, file, matches)?,
                shows_all: matches.get_flag("all"),
            }),
            "diff" => {
                let other = matches.get_str("OTHER").unwrap_or("-");
                let by_items = matches.get_flag("items");
                Command::Diff(Diff {
                    file,
                    other,
                    by_items,
                })
            }
            _ => bail!("{name} is no command"),
        })
    }

    /// The name of the input that a refusal is said of.
    pub fn input(&self) -> &'a str {
        match self {
            Command::Decode(command) => command.file,
            Command::Fields(command) => command.file,
            Command::Values(command) => command.inputs.file,
            Command::Record(command) => command.file.unwrap_or("record"),
            Command::Uhid(command) => command.file,
            Command::Set(command) => command.file,
            Command::Convert(command) => command.file,
            Command::Compile(command) => command.text,
            Command::Struct(command) => command.file,
            Command::Map(command) => command.file,
            Command::Page(command) => command.inputs.file,
            Command::Diff(command) => command.file,
            Command::Check(command) => command.file,
            Command::Explain(_) => "check",
            Command::List(_) => "list",
        }
    }

    /// Why these options can't be met together, where they can't.
    pub fn conflict(&self, settings: &Settings) -> Option<&'static str> {
        if settings
            .width
            .is_some_and(|width| !(LEAST_WIDTH..=MOST_WIDTH).contains(&width))
        {
            return Some("--width is 40 to 999");
        }
        if self.shows_linux() && !settings.reads_as_linux() {
            return Some("--linux shows what Linux reads: without --as standard");
        }
        match self {
            Command::Values(command) => values_conflict(command, settings.is_json),
            Command::Record(command) => record_conflict(command, settings.is_json),
            Command::Set(command) => command.conflict(),
            Command::Diff(command) if command.by_items && settings.is_json => {
                Some("--items and --json can't both be met")
            }
            _ => None,
        }
    }

    /// Whether it shows what Linux makes of a device.
    fn shows_linux(&self) -> bool {
        match self {
            Command::Fields(command) => command.shows_linux,
            Command::Values(command) => command.shows_linux,
            Command::Record(command) => command.shows_linux,
            Command::Set(command) => command.is_linux,
            _ => false,
        }
    }

    /// Whether it takes a descriptor's bytes as they stand, or as Linux mends them.
    fn takes_bytes(&self) -> bool {
        match self {
            Command::Diff(command) => command.by_items,
            Command::Decode(_)
            | Command::Check(_)
            | Command::Convert(_)
            | Command::Compile(_)
            | Command::Uhid(_) => true,
            _ => false,
        }
    }

    /// Does what is asked for.
    pub fn run<R: World>(&self, rt: &R, settings: &Settings) -> Result<Ending> {
        if self.takes_bytes() {
            self.run_by(rt, settings)
        } else {
            self.run_by(rt, &settings.unmended())
        }
    }

    /// The same by the options that mean something for it.
    fn run_by<R: World>(&self, rt: &R, settings: &Settings) -> Result<Ending> {
        match self {
            Command::Decode(command) => command.run(rt, settings),
            Command::Fields(command) => command.run(rt, settings),
            Command::Values(command) => command.run(rt, settings),
            Command::Record(command) => command.run(rt, settings),
            Command::Uhid(command) => command.run(rt, settings),
            Command::Set(command) => command.run(rt, settings),
            Command::Convert(command) => command.run(rt, settings),
            Command::Compile(command) => command.run(rt, settings),
            Command::Struct(command) => command.run(rt, settings),
            Command::Map(command) => command.run(rt, settings),
            Command::Page(command) => command.run(rt, settings),
            Command::Diff(command) => command.run(rt, settings),
            Command::Check(command) => command.run(rt, settings),
            Command::Explain(command) => command.run(rt, settings),
            Command::List(command) => command.run(rt, settings),
        }
    }
}

/// Why the options of `values` can't be met together.
fn values_conflict(command: &Values, json: bool) -> Option<&'static str> {
    let (down, times, linux) = (command.is_down, command.has_times, command.shows_linux);
    let is_other = command.inputs.direction != Direction::Input;
    first_met(&[
        (down && json, "--down and --json can't both be met"),
        (down && times, "--down and --times can't both be met"),
        (down && linux, "--down and --linux can't both be met"),
        (linux && is_other, "--linux is of input reports alone"),
    ])
}

/// Why the options of `record` can't be met together.
fn record_conflict(command: &Record, json: bool) -> Option<&'static str> {
    let (changes, raw) = (command.only_changes, command.is_raw);
    let (times, linux) = (command.has_times, command.shows_linux);
    first_met(&[
        (raw && json, "--raw and --json can't both be met"),
        (raw && changes, "--raw and --changes can't both be met"),
        (raw && linux, "--raw and --linux can't both be met"),
        (times && (raw || json), NO_TIMES),
        (changes && json, "--changes and --json can't both be met"),
        (changes && linux, "--changes and --linux can't both be met"),
    ])
}

/// The words of the first row that is met.
fn first_met(rows: &[(bool, &'static str)]) -> Option<&'static str> {
    for (is_met, words) in rows {
        if *is_met {
            return Some(*words);
        }
    }
    None
}

/// The inputs of a descriptor and of reports.
fn inputs_of<'a>(
    alloc: Global,
    file: &'a str,
    matches: &ArgMatches<'a>,
) -> Result<Inputs<'a>, AllocError> {
    Ok(Inputs {
        file,
        reports: words_in(alloc, "REPORT", matches)?,
        direction: direction_of(matches),
    })
}

/// The words of an argument that may have several.
pub fn words_in<'a>(
    alloc: Global,
    name: &str,
    matches: &ArgMatches<'a>,
) -> Result<Vec<&'a str>, AllocError> {
    match matches.get_strs(name) {
        Some(words) => Vec::from_slice(alloc, words),
        None => Ok(Vec::new(alloc)),
    }
}

/// What `check` is asked for: a descriptor, or rules.
fn check_of<'a>(alloc: Global, file: &'a str, matches: &ArgMatches<'a>) -> Result<Command<'a>> {
    if let Some(word) = matches.get_str("explain") {
        return Ok(Command::Explain(Explain::named(alloc, word)?));
    }
    Ok(Command::Check(Check {
        file,
        host: matches.get_str("for").and_then(Host::named),
        fails_on: Severity::failing(matches.get_str("fail-on")),
    }))
}

fn record_of<'a>(matches: &ArgMatches<'a>) -> Record<'a> {
    Record {
        file: matches.get_str("FILE"),
        stream: matches.get_str("STREAM"),
        only_changes: matches.get_flag("changes"),
        is_raw: matches.get_flag("raw"),
        has_times: matches.get_flag("times"),
        shows_linux: matches.get_flag("linux"),
    }
}

fn set_of<'a>(alloc: Global, file: &'a str, matches: &ArgMatches<'a>) -> Result<Set<'a>> {
    Ok(Set {
        file,
        id: id_named(matches.get_str("ID").unwrap_or("-"))?,
        words: words_in(alloc, "NAME=NUMBER", matches)?,
        keys: matches.get_str("press"),
        direction: direction_of(matches),
        target: ReportTarget::named(matches.get_str("to")),
        is_zero: matches.get_flag("zero"),
        shows_names: matches.get_flag("names"),
        is_linux: matches.get_flag("linux"),
    })
}

fn map_of<'a>(file: &'a str, matches: &ArgMatches<'a>) -> Map<'a> {
    Map {
        file,
        is_svg: matches.get_flag("svg"),
        shows_all: matches.get_flag("all"),
    }
}

/// What the words say that bytes are written as.
fn target_of(matches: &ArgMatches) -> Target {
    Target::named(matches.get_str("to"))
}

/// The direction that the words say.
fn direction_of(matches: &ArgMatches) -> Direction {
    match matches.get_str("direction").and_then(direction_named) {
        Some(direction) => direction,
        None => Direction::Input,
    }
}
