//! What the program `hid` writes: texts in pieces, bytes in digits, JSON, HTML, and what came from
//! an input.
//! Licence: MIT (LICENSE).
#![tactic(auto)]

pub mod ending;
pub mod html;

use anyhow::{Context, Result};
use serde::Serialize;
use std::alloc::{AllocError, Global};
use std::fmt::Write as FmtWrite;
use std::io;
use std::io::Write;

/// How many bytes are gathered before they are written.
const PIECE: usize = 65_536;

/// Writes a text.
pub fn show<R: Print>(rt: &R, text: &str) -> Result<()> {
    show_bytes(rt, text.as_bytes())
}

/// Writes bytes.
pub fn show_bytes<R: Print>(rt: &R, bytes: &[u8]) -> Result<()> {
    Ok(io::writer(rt).write_all(bytes).context("standard output")?)
}

/// Writes what was gathered, and keeps nothing of it.
pub fn flush<R: Print>(rt: &R, text: &mut String) -> Result<()> {
    show(rt, text.as_str())?;
    text.clear();
    Ok(())
}

/// Writes what was gathered, where it is enough for a piece.
pub fn flush_piece<R: Print>(rt: &R, text: &mut String) -> Result<()> {
    if text.len() < PIECE {
        return Ok(());
    }
    flush(rt, text)
}

/// Appends bytes as pairs of hexadecimal digits, with a space between them.
pub fn add_bytes(text: &mut String, bytes: &[u8]) -> Result<(), AllocError> {
    add_bytes_within(text, bytes, "", "")
}

/// Appends bytes as numbers of a list in a program's source.
pub fn add_numbers(text: &mut String, bytes: &[u8]) -> Result<(), AllocError> {
    add_bytes_within(text, bytes, "0x", ",")
}

/// Appends bytes as pairs of hexadecimal digits, each with these texts around it.
fn add_bytes_within(
    text: &mut String,
    bytes: &[u8],
    before: &str,
    behind: &str,
) -> Result<(), AllocError> {
    let mut gap = "";
    for byte in bytes {
        write!(text, "{gap}{before}{byte:02x}{behind}")?;
        gap = " ";
    }
    Ok(())
}

/// Bytes as pairs of hexadecimal digits, with a space between them.
pub fn digits_of(alloc: Global, bytes: &[u8]) -> Result<String, AllocError> {
    let mut digits = String::new(alloc);
    add_bytes(&mut digits, bytes)?;
    Ok(digits)
}

/// Appends a value of JSON as a line; what a terminal may not be given is written as `\u....`.
pub fn add_json<T: Serialize>(text: &mut String, value: &T) -> Result<()> {
    let line = serde_json::to_string(*text.allocator(), value)?;
    if is_ascii(line.as_str()) || line.chars().all(is_plain) {
        text.push_str(line.as_str())?;
    } else {
        add_escaped_json(text, line.as_str())?;
    }
    Ok(text.push_str("\n")?)
}

/// Appends JSON whose strings have letters that a terminal may not be given: they are all below
/// 65,536, so four digits write them.
fn add_escaped_json(text: &mut String, line: &str) -> Result<(), AllocError> {
    for letter in line.chars() {
        if is_plain(letter) {
            text.push(letter)?;
        } else {
            let number = u32::from(letter);
            write!(text, "\\u{number:04x}")?;
        }
    }
    Ok(())
}

/// A text that came from an input, as a terminal may be given it: control characters and those that
/// turn the direction of a line are written as `\u{..}`.
pub fn escaped(alloc: Global, text: &str) -> Result<String, AllocError> {
    let mut shown = String::new(alloc);
    for letter in text.chars() {
        if is_plain(letter) {
            shown.push(letter)?;
        } else {
            let number = u32::from(letter);
            write!(shown, "\\u{{{number:x}}}")?;
        }
    }
    Ok(shown)
}

/// The same of several lines, whose ends stay.
pub fn escaped_lines(alloc: Global, text: &str) -> Result<String, AllocError> {
    let mut shown = String::new(alloc);
    for line in text.split_inclusive("\n") {
        match line.strip_suffix("\n") {
            Some(line) => writeln!(shown, "{}", escaped(alloc, line)?)?,
            None => shown.push_str(&escaped(alloc, line)?)?,
        }
    }
    Ok(shown)
}

/// Whether a text has no characters but letters, digits and signs of ASCII, as most lines do.
fn is_ascii(text: &str) -> bool {
    text.as_bytes()
        .iter()
        .all(|byte| matches!(*byte, b' '..=b'~'))
}

/// Whether a terminal shows a character where it stands.
fn is_plain(letter: char) -> bool {
    let is_turning = matches!(letter,
        '\u{61c}' | '\u{200e}' | '\u{200f}' | '\u{202a}'..='\u{202e}' | '\u{2066}'..='\u{2069}');
    !letter.is_control() && !is_turning && !matches!(letter, '\u{2028}' | '\u{2029}' | '\u{feff}')
}
