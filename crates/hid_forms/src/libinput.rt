//! The text of `libinput record`: of each node `hid:` is a list of its descriptor's bytes, and
//! `name:` its name. What else stands there is no descriptor and no report.
use crate::number_list::NumberList;
use anyhow::{Result, ensure};
use hid_given::{Found, Part};
use std::alloc::Global;

/// How lines begin that stand before any descriptor.
static MARKS: [&str; 6] = [
    "version:",
    "ndevices:",
    "libinput:",
    "devices:",
    "- node:",
    "hid: [",
];

/// What reads libinput's text.
#[derive(Drop)]
pub struct LibinputLines {
    /// How many nodes there were.
    nodes: usize,
    /// Whether the node has a name already.
    is_named: bool,
    is_in_list: bool,
    numbers: NumberList,
}

/// Whether a line is one of libinput's that says something.
pub fn is_libinput_line(line: &str) -> bool {
    let line = line.trim();
    MARKS.iter().any(|mark| line.starts_with(*mark))
}

impl LibinputLines {
    /// Before the first line.
    pub fn new(alloc: Global) -> LibinputLines {
        LibinputLines {
            nodes: 0,
            is_named: false,
            is_in_list: false,
            numbers: NumberList::new(alloc, false),
        }
    }

    /// Takes what a line says.
    pub fn take(&mut self, found: &mut Found, line: &str) -> Result<()> {
        let line = line.trim();
        if self.is_in_list {
            return self.take_list(found, line);
        }
        if line.starts_with("- node:") {
            self.nodes = self.nodes.saturating_add(1);
            self.is_named = false;
            return Ok(());
        }
        if let Some(name) = line.strip_prefix("name:") {
            return self.take_name(found, name.trim());
        }
        match line.strip_prefix("hid:") {
            Some(list) => self.begin(found, list.trim()),
            None => Ok(()),
        }
    }

    /// The number of the node's device.
    fn device(&self) -> usize {
        self.nodes.saturating_sub(1)
    }

    /// Takes the first name of a node.
    fn take_name(&mut self, found: &mut Found, name: &str) -> Result<()> {
        if self.is_named || self.nodes == 0 {
            return Ok(());
        }
        self.is_named = true;
        let name = name.strip_prefix("\"").unwrap_or(name);
        let name = name.strip_suffix("\"").unwrap_or(name);
        found.set(self.device(), Part::Name, name)
    }

    /// Takes the beginning of a list.
    fn begin(&mut self, found: &mut Found, text: &str) -> Result<()> {
        let Some(list) = text.strip_prefix("[") else {
            ensure!(text.is_empty(), "no list of bytes is behind hid:");
            return Ok(());
        };
        self.is_in_list = true;
        self.take_list(found, list)
    }

    /// Takes numbers of a list, and its end.
    fn take_list(&mut self, found: &mut Found, text: &str) -> Result<()> {
        let Some((list, behind)) = text.split_once("]") else {
            return self.numbers.add(text);
        };
        self.numbers.add(list)?;
        self.is_in_list = false;
        ensure!(
            behind.trim().is_empty() || behind.trim().starts_with("#"),
            "something stands behind the list"
        );
        let bytes = self.numbers.taken();
        if bytes.is_empty() {
            return Ok(());
        }
        found.add_descriptor(self.device(), bytes)
    }

    /// Looks whether the last list is whole.
    pub fn end(&mut self) -> Result<()> {
        ensure!(!self.is_in_list, "the list of bytes has no end");
        Ok(())
    }
}
