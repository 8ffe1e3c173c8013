//! Lines of Python that say nothing of a list's bytes: imports, and CircuitPython's calls of
//! `usb_hid`, which may go over several lines.
use anyhow::{Result, ensure};
use hid_given::Found;

/// How such calls begin.
static CALLS: [&str; 3] = ["usb_hid.Device(", "usb_hid.enable(", "usb_hid.disable("];

/// What of a call says which list has its descriptor.
const DESCRIPTOR: &str = "report_descriptor";

/// A call that goes on in the next line, or none.
#[derive(Drop)]
pub struct PythonCalls {
    /// How many brackets are open.
    depth: usize,
}

/// Whether a line imports names.
pub fn is_import(line: &str) -> bool {
    let code = without_remark(line);
    let is_begun = match code.split_whitespace().next() {
        Some("import") => true,
        Some("from") => code.contains(" import "),
        _ => false,
    };
    is_begun
        && code.bytes().all(|byte| {
            byte.is_ascii_alphanumeric() || matches!(byte, b' ' | b'_' | b'.' | b',' | b'*')
        })
}

/// Whether a line begins a call, with a name and `=` before it or without.
pub fn begins_call(line: &str) -> bool {
    let code = line.trim();
    let call = match code.split_once("=") {
        Some((name, call)) if !name.contains("(") => call.trim(),
        _ => code,
    };
    CALLS.iter().any(|begin| call.starts_with(*begin))
}

/// A line up to its remark.
fn without_remark(line: &str) -> &str {
    line.split_once("#").unwrap_or((line, "")).0.trim()
}

impl PythonCalls {
    /// Before the first.
    pub fn new() -> PythonCalls {
        PythonCalls { depth: 0 }
    }

    /// Whether one goes on.
    pub fn is_open(&self) -> bool {
        self.depth > 0
    }

    /// Takes a line of a call, in which no bytes may stand, and no list that isn't known.
    pub fn take(&mut self, found: &Found, line: &str) -> Result<()> {
        let code = without_remark(line);
        ensure!(
            !code.contains("bytes") && !code.contains("\"") && !code.contains("'"),
            "bytes in a call aren't read: give them a name in a line before"
        );
        if let Some((_before, rest)) = code.split_once(DESCRIPTOR) {
            check_name(found, rest)?;
        }
        let mut is_ended = false;
        for letter in code.chars() {
            ensure!(
                !is_ended || letter.is_whitespace(),
                "something stands behind a call"
            );
            if matches!(letter, '(' | '[') {
                self.depth = self.depth.saturating_add(1);
            } else if matches!(letter, ')' | ']') {
                self.depth = self.depth.saturating_sub(1);
                is_ended = self.depth == 0;
            }
        }
        Ok(())
    }

    /// Looks whether the last is whole.
    pub fn end(&self) -> Result<()> {
        ensure!(!self.is_open(), "a call has no end");
        Ok(())
    }
}

/// Refuses the name of a list that wasn't read.
fn check_name(found: &Found, rest: &str) -> Result<()> {
    let text = rest.trim().strip_prefix("=").unwrap_or("").trim();
    let is_behind = |letter: char| matches!(letter, ',' | ')');
    let name = text.split(is_behind).next().unwrap_or("").trim();
    let is_known = found.devices.iter().any(|it| match &it.name {
        Some(own) => own.as_str() == name,
        None => false,
    });
    ensure!(is_known, "no list before has the name {name}");
    Ok(())
}
