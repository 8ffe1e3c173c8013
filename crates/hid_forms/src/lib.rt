//! The forms that bytes are written down in, and what reads the lines of each. A form more has a
//! file of its own, and a row in each list here.
//! Licence: MIT (LICENSE).
#![tactic(auto)]

mod byte_words;
mod c_strings;
mod conditions;
mod debugfs;
mod declaration;
mod directives;
mod dump;
mod dump_line;
mod enumeration;
mod hex_text;
mod item_list;
mod libinput;
mod log_line;
mod lsusb;
mod macro_call;
mod markdown;
mod names;
mod number_list;
mod offsets;
mod python;
mod python_calls;
mod python_string;
mod recorder;
mod remarks;
mod report_call;
mod source;
mod unknown;
mod values;

use crate::debugfs::{DebugfsLines, is_debugfs_head};
use crate::dump::{DumpLines, is_head};
use crate::dump_line::{goes_on, is_dump_line, may_be_dump_line};
use crate::hex_text::{HexLines, is_hex_line};
use crate::libinput::{LibinputLines, is_libinput_line};
use crate::log_line::is_log_line;
use crate::lsusb::{LsusbLines, is_lsusb_line};
use crate::offsets::OffsetLines;
use crate::python::{PythonLines, is_python_line};
use crate::recorder::{RecorderLines, is_recorder_line};
use crate::source::{SourceLines, is_source_line};
use anyhow::{Result, ensure};
pub use hex_text::{bytes_of_hex, is_blank};
use hid_given::{Form, Found, Wanted};
use hid_webhid::WebHidLines;
pub use markdown::without_markdown;
pub use remarks::Remarks;
use std::alloc::Global;
pub use unknown::likest;

/// The form of a text by the first line that says something, and the next that does, or an
/// empty one where none is known.
///
/// # Errors
///
/// - the lines may be a dump with offsets, and hex text.
pub fn form_of(line: &str, next: &str) -> Result<Option<Form>> {
    if may_be_dump_line(line) {
        ensure!(
            goes_on(line, next),
            "hex text, or a dump with offsets: say --form or --report-form hex or offsets"
        );
        return Ok(Some(Form::Offsets));
    }
    if is_hex_line(line) && is_debugfs_head(next) {
        return Ok(Some(Form::Debugfs));
    }
    Ok(form_of_first(line))
}

/// The form of a text whose first line that says something is this one.
fn form_of_first(line: &str) -> Option<Form> {
    match line {
        _ if is_recorder_line(line) => Some(Form::Recorder),
        _ if is_head(line) => Some(Form::Dump),
        _ if is_dump_line(line) || is_log_line(line) => Some(Form::Offsets),
        _ if is_libinput_line(line) => Some(Form::Libinput),
        _ if is_lsusb_line(line) => Some(Form::Lsusb),
        _ if is_python_line(line) => Some(Form::Python),
        _ if is_source_line(line) => Some(Form::Source),
        _ if is_hex_line(line) => Some(Form::Hex),
        _ => None,
    }
}

/// What reads the lines of a form, one after the other.
#[derive(Drop)]
pub enum FormLines {
    Hex(HexLines),
    Recorder(RecorderLines),
    Dump(DumpLines),
    Source(SourceLines),
    Python(PythonLines),
    Offsets(OffsetLines),
    Libinput(LibinputLines),
    Debugfs(DebugfsLines),
    Lsusb(LsusbLines),
    WebHid(WebHidLines),
}

impl FormLines {
    /// Before the first line; none of bytes and captures, which have no lines.
    pub fn new(alloc: Global, form: Form, wanted: Wanted) -> Option<FormLines> {
        match form {
            Form::Bytes | Form::Usbmon => None,
            Form::Hex => Some(FormLines::Hex(HexLines::new(alloc, wanted))),
            Form::Recorder => Some(FormLines::Recorder(RecorderLines::new())),
            Form::Dump => Some(FormLines::Dump(DumpLines::new(alloc))),
            Form::Source => Some(FormLines::Source(SourceLines::new(alloc, wanted))),
            Form::Python => Some(FormLines::Python(PythonLines::new(alloc, wanted))),
            Form::Offsets => Some(FormLines::Offsets(OffsetLines::new(alloc, wanted))),
            Form::Libinput => Some(FormLines::Libinput(LibinputLines::new(alloc))),
            Form::Debugfs => Some(FormLines::Debugfs(DebugfsLines::new())),
            Form::Lsusb => Some(FormLines::Lsusb(LsusbLines::new(alloc))),
            Form::WebHid => Some(FormLines::WebHid(WebHidLines::new(alloc))),
        }
    }

    /// Takes names that a source is to have, some with their numbers: `NAME` or `NAME=NUMBER`.
    pub fn define(&mut self, words: &[&str]) -> Result<()> {
        match self {
            FormLines::Source(lines) => lines.define(words),
            _ => Ok(()),
        }
    }

    /// Takes what the next line says.
    pub fn take(&mut self, found: &mut Found, line: &str) -> Result<()> {
        match self {
            FormLines::Hex(lines) => lines.take(found, line),
            FormLines::Recorder(lines) => lines.take(found, line),
            FormLines::Dump(lines) => lines.take(found, line),
            FormLines::Source(lines) => lines.take(found, line),
            FormLines::Python(lines) => lines.take(found, line),
            FormLines::Offsets(lines) => lines.take(found, line),
            FormLines::Libinput(lines) => lines.take(found, line),
            FormLines::Debugfs(lines) => lines.take(found, line),
            FormLines::Lsusb(lines) => lines.take(found, line),
            FormLines::WebHid(lines) => Ok(lines.take(line)?),
        }
    }

    /// Takes what the lines said together, behind the last.
    pub fn end(&mut self, found: &mut Found) -> Result<()> {
        match self {
            FormLines::Hex(lines) => lines.end(found),
            FormLines::Recorder(_) | FormLines::Debugfs(_) => Ok(()),
            FormLines::Dump(lines) => lines.end(found),
            FormLines::Source(lines) => lines.end(found),
            FormLines::Python(lines) => lines.end(),
            FormLines::Offsets(lines) => lines.end(found),
            FormLines::Libinput(lines) => lines.end(),
            FormLines::Lsusb(lines) => lines.end(found),
            FormLines::WebHid(lines) => lines.end(found),
        }
    }
}
