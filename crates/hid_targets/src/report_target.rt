//! What a report's bytes are written as.
use crate::{OF_REPORTS, TARGETS, add_counted, write_bytes};
use anyhow::Result;
use hid_output::{add_bytes, add_numbers, flush};
use std::alloc::AllocError;
use std::fmt::Write;

/// The names of what a report may be written as.
pub fn report_targets() -> &'static [&'static str] {
    let (names, _others) = TARGETS.split_at(OF_REPORTS);
    names
}

/// What a report is written as.
#[derive(Clone, Copy, PartialEq)]
pub enum ReportTarget {
    /// Hexadecimal digits in one line.
    Hex,

    /// An array of C.
    C,

    /// An array of Rust.
    Rust,

    /// As they are.
    Bytes,

    /// A line of hid-recorder.
    Recording,

    /// Bytes of Python.
    Python,

    /// An array of C as in Linux.
    Kernel,
}

impl ReportTarget {
    /// The target with this name; hex text where none is told.
    pub fn named(name: Option<&str>) -> ReportTarget {
        match name.unwrap_or("hex") {
            "c" => ReportTarget::C,
            "rust" => ReportTarget::Rust,
            "bytes" => ReportTarget::Bytes,
            "recording" => ReportTarget::Recording,
            "python" => ReportTarget::Python,
            "kernel" => ReportTarget::Kernel,
            _ => ReportTarget::Hex,
        }
    }

    /// Writes a report's bytes, as text in one line.
    pub fn write<R: AllocGlobal + Print>(self, rt: &R, bytes: &[u8]) -> Result<()> {
        if self == ReportTarget::Bytes {
            return write_bytes(rt, bytes);
        }
        let mut text = String::new(rt.alloc());
        self.add(&mut text, bytes)?;
        flush(rt, &mut text)
    }

    /// Appends them as text.
    fn add(self, text: &mut String, bytes: &[u8]) -> Result<(), AllocError> {
        let count = bytes.len();
        match self {
            ReportTarget::Hex => {
                add_bytes(text, bytes)?;
                text.push_str("\n")
            }
            ReportTarget::Bytes => Ok(()),
            ReportTarget::Recording => add_counted(text, "E: 000000.000000", bytes),
            ReportTarget::C => {
                writeln!(text, "static const unsigned char report[{count}] = {{")?;
                add_list(text, "    ", bytes, "};")
            }
            ReportTarget::Rust => {
                writeln!(text, "pub const REPORT: [u8; {count}] = [")?;
                add_list(text, "    ", bytes, "];")
            }
            ReportTarget::Python => {
                text.push_str("report = bytes([\n")?;
                add_list(text, "    ", bytes, "])")
            }
            ReportTarget::Kernel => {
                text.push_str("static const __u8 report[] = {\n")?;
                add_list(text, "\t", bytes, "};")
            }
        }
    }
}

/// Appends a line of bytes behind a margin, and one that ends the list.
fn add_list(text: &mut String, margin: &str, bytes: &[u8], end: &str) -> Result<(), AllocError> {
    text.push_str(margin)?;
    add_numbers(text, bytes)?;
    write!(text, "\n{end}\n")
}
