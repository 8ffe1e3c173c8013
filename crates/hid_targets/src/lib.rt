//! What a descriptor's bytes are written as: hex text, source, bytes, or what other programs write.
//! Licence: MIT (LICENSE).
#![tactic(auto)]

mod bpf;
mod lufa;
mod report_target;
mod source;
mod tinyusb;
mod webhid;
mod zephyr;

use crate::bpf::write_bpf;
use crate::source::Source;
use crate::webhid::collections_of;
use anyhow::Result;
use hid_input::parsing::parsed;
use hid_input::settings::Settings;
use hid_output::{add_bytes, flush, flush_piece, show_bytes};
pub use report_target::{ReportTarget, report_targets};
use std::alloc::{AllocError, Global};
use std::fmt::Write;

/// The names of the targets; a report may be written as the first `OF_REPORTS`.
pub static TARGETS: [&str; 13] = [
    "hex",
    "c",
    "rust",
    "bytes",
    "recording",
    "python",
    "kernel",
    "zephyr",
    "tinyusb",
    "lufa",
    "hid-bpf",
    "libinput",
    "webhid",
];

/// How many of them write any bytes.
const OF_REPORTS: usize = 7;

/// How many bytes stand in a line of text.
const IN_A_LINE: usize = 16;

/// What a descriptor is written as.
#[derive(Clone, Copy, PartialEq)]
pub enum Target {
    /// Hexadecimal digits, sixteen bytes in a line.
    Hex,

    /// A list in a program's source.
    Source(Source),

    /// As they are.
    Bytes,

    /// A line of hid-recorder.
    Recording,

    /// The macros of Linux's `hid_report_helpers.h`, of udev-hid-bpf.
    HidBpf,

    /// The list of a node of `libinput record`.
    Libinput,

    /// The collections of WebHID, as JSON.
    WebHid,
}

impl Target {
    /// The target with this name; hex text where none is told.
    pub fn named(name: Option<&str>) -> Target {
        match name.unwrap_or("hex") {
            "c" => Target::Source(Source::C),
            "rust" => Target::Source(Source::Rust),
            "bytes" => Target::Bytes,
            "recording" => Target::Recording,
            "python" => Target::Source(Source::Python),
            "kernel" => Target::Source(Source::Kernel),
            "zephyr" => Target::Source(Source::Zephyr),
            "tinyusb" => Target::Source(Source::TinyUsb),
            "lufa" => Target::Source(Source::Lufa),
            "hid-bpf" => Target::HidBpf,
            "libinput" => Target::Libinput,
            "webhid" => Target::WebHid,
            _ => Target::Hex,
        }
    }

    /// Writes a descriptor's bytes.
    pub fn write<R: AllocGlobal + Print>(
        self,
        rt: &R,
        settings: &Settings,
        bytes: &[u8],
    ) -> Result<()> {
        let mut text = String::new(rt.alloc());
        match self {
            Target::Hex => add_hex(rt, &mut text, bytes)?,
            Target::Bytes => write_bytes(rt, bytes)?,
            Target::Recording => add_counted(&mut text, "R:", bytes)?,
            Target::Source(source) => source.write(rt, bytes)?,
            Target::HidBpf => write_bpf(rt, bytes)?,
            Target::Libinput => add_libinput(rt, &mut text, bytes)?,
            Target::WebHid => text = read_collections(rt.alloc(), settings, bytes)?,
        }
        flush(rt, &mut text)
    }
}

/// The collections of a descriptor that is read; where mending left nothing of it, it has none.
fn read_collections(alloc: Global, settings: &Settings, bytes: &[u8]) -> Result<String> {
    if !settings.has_left_none(bytes) {
        parsed(alloc, settings, bytes)?;
    }
    collections_of(alloc, bytes)
}

/// Writes bytes as they are.
fn write_bytes<R: Print>(rt: &R, bytes: &[u8]) -> Result<()> {
    show_bytes(rt, bytes)
}

/// Appends lines of sixteen bytes.
fn add_hex<R: Print>(rt: &R, text: &mut String, bytes: &[u8]) -> Result<()> {
    for line in bytes.chunks(IN_A_LINE) {
        add_bytes(text, line)?;
        text.push_str("\n")?;
        flush_piece(rt, text)?;
    }
    Ok(())
}

/// Appends a line of hid-recorder: a mark, the number of bytes, and these.
fn add_counted(text: &mut String, mark: &str, bytes: &[u8]) -> Result<(), AllocError> {
    let count = bytes.len();
    write!(text, "{mark} {count} ")?;
    add_bytes(text, bytes)?;
    text.push_str("\n")
}

/// Appends the list of a node of `libinput record`.
fn add_libinput<R: Print>(rt: &R, text: &mut String, bytes: &[u8]) -> Result<()> {
    text.push_str("  hid: [")?;
    for (byte, place) in bytes.iter().zip(0usize..) {
        text.push_str(match place {
            0 => "\n    ",
            _ if place % IN_A_LINE == 0 => ",\n    ",
            _ => ", ",
        })?;
        write!(text, "0x{byte:02x}")?;
        flush_piece(rt, text)?;
    }
    text.push_str("\n  ]\n")?;
    Ok(())
}
