//! The commands of `hid`: the words of a command line, what they ask for, what is said of a refusal,
//! and how it ends.
//! Licence: MIT (LICENSE).
#![tactic(auto)]

mod arguments;
mod command;
mod command_line;
mod kind;
mod settings;
mod shared_options;

use crate::arguments::REPLACED;
use crate::command::{Command, words_in};
use crate::command_line::command_line;
use crate::settings::{LEAST_WIDTH, MOST_WIDTH, settings_of};
use anyhow::{Context, Result, bail};
use clap::ArgMatches;
use hid_input::world::World;
use hid_output::ending::Ending;
use hid_output::{escaped, escaped_lines};
use std::alloc::{AllocError, Global};
use std::rt::Env;
use std::{env, io};

/// Does what the program's words ask for; says on standard error why it can't. Whether standard output is
/// a terminal is told.
pub fn run<R: World>(rt: &R, is_terminal: bool) -> Ending {
    match answer(rt, is_terminal) {
        Ok(ending) => ending,
        Err(error) => {
            // Where the line can't be written either, the status still tells.
            let _ = tell(rt, &error);
            Ending::Refused
        }
    }
}

/// Says why something is refused; what stands in it may come from an input.
fn tell<R: AllocGlobal + Eprint>(rt: &R, error: &anyhow::Error) -> Result<()> {
    match said(rt.alloc(), error) {
        Ok(said) => eprintln!(rt; "hid: {said}")?,
        Err(_refused) => eprintln!(rt; "hid: memory allocation failed")?,
    }
    Ok(())
}

fn said(alloc: Global, error: &anyhow::Error) -> Result<String, AllocError> {
    let said = format!(in alloc; "{error:#}")?;
    escaped(alloc, &said)
}

/// The program's words, its name first.
fn words_of<R: AllocGlobal + Env>(rt: &R) -> Result<Vec<String>> {
    match env::args(rt) {
        Ok(words) => Ok(words.collect::<Vec<String>>(rt.alloc())?),
        Err(error) if error.kind() == io::ErrorKind::InvalidData => {
            bail!("a word isn't UTF-8; a file with such a name is read as - (hid .. - < FILE)")
        }
        Err(error) => Err(error.into()),
    }
}

fn answer<R: World>(rt: &R, is_terminal: bool) -> Result<Ending> {
    let words = words_of(rt)?;
    let command = command_line(rt.alloc())?;
    match command.try_get_matches_from(&words) {
        Ok(matches) => match matches.subcommand() {
            Some((name, matches)) => carry_out(rt, is_terminal, name, matches),
            None => Ok(Ending::Misused),
        },
        Err(error) => {
            let text = format!(in rt.alloc(); "{error}")?;
            let text = escaped_lines(rt.alloc(), &text)?;
            if error.exit_code() == 0 {
                print!(rt; "{text}")?;
                return Ok(Ending::Done);
            }
            eprint!(rt; "{text}")?;
            for (option, instead) in REPLACED {
                if words.iter().any(|word| is_option(word, option)) {
                    eprintln!(rt; "hid: {option} is no more: {instead}")?;
                }
            }
            Ok(Ending::Misused)
        }
    }
}

/// Whether a word is this option, alone or with its value.
fn is_option(word: &str, option: &str) -> bool {
    match word.strip_prefix(option) {
        Some(rest) => rest.is_empty() || rest.starts_with("="),
        None => false,
    }
}

/// Does what a command asks for.
fn carry_out<R: World>(
    rt: &R,
    is_terminal: bool,
    name: &str,
    matches: &ArgMatches,
) -> Result<Ending> {
    let names = words_in(rt.alloc(), "define", matches)?;
    let columns = columns_of(rt, is_terminal);
    let settings = settings_of(matches, is_coloured(rt, is_terminal), columns, &names);
    let command = match Command::of(rt.alloc(), name, matches) {
        Ok(command) => command,
        Err(error) => {
            tell(rt, &error)?;
            return Ok(Ending::Misused);
        }
    };
    if let Some(conflict) = command.conflict(&settings) {
        eprintln!(rt; "hid: {conflict}")?;
        return Ok(Ending::Misused);
    }
    command
        .run(rt, &settings)
        .context(format_args!("{}", command.input()))
}

/// Whether names are shown in colour where no option says it: on a terminal, unless `NO_COLOR` is
/// set, and elsewhere where `CLICOLOR_FORCE` is and isn't 0.
fn is_coloured<R: AllocGlobal + Env>(rt: &R, is_terminal: bool) -> bool {
    if is_set(rt, "NO_COLOR", "") {
        return false;
    }
    is_terminal || is_set(rt, "CLICOLOR_FORCE", "0")
}

/// How many columns a terminal has by `COLUMNS`; one past the bounds is taken for the next.
fn columns_of<R: AllocGlobal + Env>(rt: &R, is_terminal: bool) -> Option<usize> {
    if !is_terminal {
        return None;
    }
    match env::var(rt, "COLUMNS") {
        Ok(value) => Some(
            value
                .as_str()
                .parse::<usize>()
                .ok()?
                .clamp(LEAST_WIDTH, MOST_WIDTH),
        ),
        Err(_unset) => None,
    }
}

/// Whether a variable of the environment is set to something else than this.
fn is_set<R: AllocGlobal + Env>(rt: &R, name: &str, off: &str) -> bool {
    match env::var(rt, name) {
        Ok(value) => !value.is_empty() && value.as_str() != off,
        Err(_unset) => false,
    }
}
