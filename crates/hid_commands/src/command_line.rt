//! The words that `hid` knows.
use crate::arguments::{COMMANDS, EXPLAIN, NOT_EXPLAINED};
use crate::kind::{Argument, Kind};
use crate::settings::READINGS;
use crate::shared_options::{OPTIONS, QUIET};
use clap::{Arg, ArgAction, Command};
use hid_findings::{FAIL_WORDS, HOSTS};
use hid_given::FORM_WORDS;
use hid_struct::LANGUAGES;
use hid_targets::{TARGETS, report_targets};
use std::alloc::{AllocError, Global};

static COLOURS: [&str; 3] = ["auto", "always", "never"];

static DIRECTIONS: [&str; 3] = ["input", "output", "feature"];

/// What stands below the help.
const AFTER: &str = "FILE is a report descriptor: a file, - for the standard input, or a node such \
as /dev/hidraw0.\nIt holds bytes, hex text, a dump with offsets, C, Rust or Python source, or what \
hid-recorder,\nusbhid-dump, libinput record, debugfs or lsusb -v write, WebHID's collections, or a \
capture\nof USB traffic.\n\
The status is 0, 1 where something is refused or can't be read, and 2 where the words are wrong.";

/// `hid` with its commands.
pub fn command_line<'a>(alloc: Global) -> Result<Command<'a>, AllocError> {
    let mut hid = Command::new(alloc, "hid")
        .version("0.6.0-10")
        .about("Shows, reads, writes and checks HID report descriptors and reports")
        .after_help(AFTER)
        .subcommand_required(true)
        .arg_required_else_help(true);
    for option in &OPTIONS {
        hid = hid.arg(of_all(argument_of(alloc, *option)?))?;
    }
    for (name, about, arguments, shared) in &COMMANDS {
        let command = Command::new(alloc, name).about(about);
        let mut command = with_arguments(alloc, command, arguments)?;
        for options in *shared {
            command = with_arguments(alloc, command, options)?;
        }
        hid = hid.subcommand(command)?;
    }
    Ok(hid)
}

/// A command with these arguments, too.
fn with_arguments<'a>(
    alloc: Global,
    command: Command<'a>,
    arguments: &[Argument],
) -> Result<Command<'a>, AllocError> {
    let mut command = command;
    for argument in arguments {
        command = command.arg(argument_of(alloc, *argument)?)?;
    }
    Ok(command)
}

/// An argument.
fn argument_of<'a>(alloc: Global, argument: Argument) -> Result<Arg<'a>, AllocError> {
    let (name, kind, help) = argument;
    let arg = Arg::new(alloc, name).help(help);
    Ok(match kind {
        Kind::Word => arg.value_name(name).required(true),
        Kind::WordOrNone => arg.value_name(name),
        Kind::WordOrRule => arg.value_name(name).required_unless_present(EXPLAIN)?,
        Kind::Words => arg.num_args(0..),
        Kind::Flag => arg.long(name).action(ArgAction::SetTrue),
        Kind::Louder => arg
            .long(name)
            .action(ArgAction::SetTrue)
            .conflicts_with_all(&[QUIET])?,
        Kind::Number => arg
            .long(name)
            .value_name("N")
            .value_parser(clap::value_parser!(usize)),
        Kind::Name => arg
            .short('D')
            .long(name)
            .value_name("NAME")
            .action(ArgAction::Append),
        Kind::Form => choice(arg, name, "FORM", &FORM_WORDS),
        Kind::Reading => choice(arg, name, "READING", &READINGS),
        Kind::Colour => choice(arg, name, "WHEN", &COLOURS).default_value("auto"),
        Kind::Direction => choice(arg, name, "DIRECTION", &DIRECTIONS).default_value("input"),
        Kind::Keys => arg.long(name).value_name("KEYS"),
        Kind::Host => choice(arg, name, "HOST", &HOSTS),
        Kind::Severity => choice(arg, name, "SEVERITY", &FAIL_WORDS).default_value("note"),
        Kind::Rule => arg
            .long(name)
            .value_name("RULE")
            .conflicts_with_all(&NOT_EXPLAINED)?,
        Kind::Folder => arg.long(name).value_name("DIR").default_value("/sys"),
        Kind::Target => choice(arg, name, "TARGET", &TARGETS).default_value("hex"),
        Kind::Language => choice(arg, name, "LANGUAGE", &LANGUAGES).default_value("c"),
        Kind::ReportTarget => choice(arg, name, "TARGET", report_targets()).default_value("hex"),
    })
}

/// An option that each command has; helps list these by themselves.
fn of_all(arg: Arg<'_>) -> Arg<'_> {
    arg.global(true).help_heading("Options of all commands")
}

/// An option whose value is one of these words.
fn choice<'a>(arg: Arg<'a>, name: &'a str, value: &'a str, words: &'a [&'a str]) -> Arg<'a> {
    arg.long(name).value_name(value).value_parser(words)
}
