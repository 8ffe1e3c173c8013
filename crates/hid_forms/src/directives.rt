//! The lines of a source that begin with `#`, as far as they say what the others mean: `#define`,
//! and those of `#if`.
use crate::conditions::{Conditions, parts_of};
use crate::names::{Meaning, Names, name_and_rest};
use crate::number_list::number_of;
use crate::values::value_of;
use anyhow::{Result, bail, ensure};
use hid_given::Found;
use hid_macros::{Arguments, Macro, ReportMacro, bpf_around};
use std::alloc::Global;

/// What they have said so far.
#[derive(Drop)]
pub struct Directives {
    /// The names that are given.
    pub names: Names,
    conditions: Conditions,
    /// The number of the line.
    line: u64,
    /// Whether a `#define` goes on in the next line.
    goes_on: bool,
}

impl Directives {
    /// Before the first line.
    pub fn new(alloc: Global) -> Directives {
        Directives {
            names: Names::new(alloc),
            conditions: Conditions::new(alloc),
            line: 0,
            goes_on: false,
        }
    }

    /// Takes a name, or a name and its number, that is told from outside.
    pub fn define(&mut self, word: &str) -> Result<()> {
        let (name, number) = word.split_once("=").unwrap_or((word, "1"));
        match number_of(number)? {
            Some(number) => self.names.give(name, Meaning::Macro(number)),
            None => bail!("{number} is no number of {name}"),
        }
    }

    /// Takes the next line, and answers whether it is left out or says what it has to say here.
    pub fn take(&mut self, code: &str) -> Result<bool> {
        self.line = self.line.saturating_add(1);
        if self.goes_on {
            self.goes_on = code.ends_with("\\");
            return Ok(true);
        }
        let Some(directive) = directive_in(code) else {
            return Ok(self.conditions.leave_out());
        };
        if self.conditions.take(&self.names, self.line, directive)? {
            return Ok(true);
        }
        if self.conditions.leave_out() {
            return Ok(true);
        }
        let (word, rest) = parts_of(directive);
        if word != "define" {
            return Ok(false);
        }
        self.goes_on = code.ends_with("\\");
        self.take_define(rest)?;
        Ok(true)
    }

    /// Takes what a `#define` says. What isn't a number is refused only where it is used.
    fn take_define(&mut self, text: &str) -> Result<()> {
        let (name, rest) = name_and_rest(text);
        if let Some(rest) = rest.strip_prefix("(") {
            return self.take_macro(name, rest);
        }
        let meaning = match value_of(&self.names, rest) {
            Ok(number) => Meaning::Macro(number),
            Err(_other) => Meaning::Text,
        };
        self.names.give(name, meaning)
    }

    /// Takes a macro with arguments: one that a header has may only be the same.
    fn take_macro(&mut self, name: &str, rest: &str) -> Result<()> {
        let is_known = Macro::named(name).is_some()
            || ReportMacro::named(name).is_some()
            || bpf_around(name).is_some();
        if !is_known {
            return self.names.give(name, Meaning::Text);
        }
        ensure!(
            self.is_own(name, rest),
            "#define of {name}, which a header has, may change what follows: leave it out"
        );
        Ok(())
    }

    /// Whether a macro of the ESP32's libraries is defined as there: a byte, `|` and the size.
    fn is_own(&self, name: &str, rest: &str) -> bool {
        let Some(known) = Macro::named(name) else {
            return false;
        };
        let Some((argument, body)) = rest.split_once(")") else {
            return false;
        };
        let body = body.trim();
        let body = match body.strip_prefix("(") {
            Some(inner) => inner.strip_suffix(")").unwrap_or(body),
            None => body,
        };
        let (header, size) = body.split_once("|").unwrap_or((body, ""));
        known.arguments == Arguments::Size
            && size.trim() == argument.trim()
            && value_of(&self.names, header).ok() == Some(i64::from(known.header))
    }

    /// Looks whether all have their end.
    pub fn end(&mut self, found: &mut Found) -> Result<()> {
        self.conditions.end(found)
    }
}

/// What stands behind the `#` of a line; none in an attribute of Rust.
fn directive_in(code: &str) -> Option<&str> {
    let directive = code.strip_prefix("#")?.trim();
    if directive.starts_with("[") || directive.starts_with("!") {
        None
    } else {
        Some(directive)
    }
}
