//! A line of the kernel's log with a line of a dump in it, as `dmesg` and `journalctl` show what
//! `print_hex_dump` writes: times and names, then an offset of eight digits. Times stand as `dmesg`
//! writes them, and each `journalctl -o` that writes lines.
use crate::hex_text::is_digits;

/// How many digits an offset has.
const DIGITS: usize = 8;

/// How many letters a time such as `Nov 27 12:00:00` has.
const STAMP: usize = 15;

/// How a time such as `Fri 2026-11-27 12:00:00 UTC` begins.
const FULL_TIME: &str = "aaa 0000-00-00 00:00:00 ";

/// The parts of a line.
#[derive(Clone, Copy)]
pub struct LogLine<'a> {
    /// The names before the offset, without times: the machine's, and what the dump is of.
    pub names: (&'a str, &'a str),
    /// From the offset on.
    pub dump: &'a str,
}

impl<'a> LogLine<'a> {
    /// The parts of a line that has an offset behind other words.
    pub fn of(line: &'a str) -> Option<LogLine<'a>> {
        let line = line.trim();
        for (colon, _colon) in line.match_indices(": ") {
            let start = colon.saturating_sub(DIGITS);
            let (Some(before), Some(offset)) = (line.get(..start), line.get(start..colon)) else {
                continue;
            };
            if before.ends_with(" ") && is_digits(offset) {
                let names = names_of(before);
                let dump = line.get(start..)?;
                return Some(LogLine { names, dump });
            }
        }
        None
    }
}

/// Whether a line is surely the first of a dump in the kernel's log: its offset is 0, and a byte in
/// two digits stands behind it.
pub fn is_log_line(line: &str) -> bool {
    let Some(parts) = LogLine::of(line) else {
        return false;
    };
    match parts.dump.strip_prefix("00000000: ") {
        Some(bytes) => {
            let byte = bytes.split_whitespace().next().unwrap_or("");
            byte.len() == 2 && is_digits(byte)
        }
        None => false,
    }
}

/// What stands before an offset, without times.
fn names_of(before: &str) -> (&str, &str) {
    let rest = after_time(before);
    match rest.split_once("kernel: ") {
        Some((machine, name)) => (machine, after_time(name)),
        None => ("", rest),
    }
}

/// What stands behind a time, or the whole where none is.
fn after_time(text: &str) -> &str {
    if let Some(bracketed) = text.strip_prefix("[") {
        return match bracketed.split_once("] ") {
            Some((time, rest)) if is_time(time) => rest,
            _ => text,
        };
    }
    if let Some(rest) = after_stamp(text) {
        return rest;
    }
    if let Some(rest) = after_full_time(text) {
        return rest;
    }
    match text.split_once(" ") {
        Some((time, rest)) if is_iso_time(time) || is_unix_time(time) => rest,
        _ => text,
    }
}

/// What stands behind a time as `Nov 27 12:00:00`, or with its fraction `Nov 27 12:00:00.123456`.
fn after_stamp(text: &str) -> Option<&str> {
    if !is_stamp(text) {
        return None;
    }
    let (fraction, rest) = text.get(STAMP..)?.split_once(" ")?;
    match fraction.strip_prefix(".") {
        Some(places) if is_number(places) => Some(rest.trim_start()),
        None if fraction.is_empty() => Some(rest.trim_start()),
        _ => None,
    }
}

/// What stands behind a time as `Fri 2026-11-27 12:00:00 UTC`.
fn after_full_time(text: &str) -> Option<&str> {
    if !has_shape(text, FULL_TIME) {
        return None;
    }
    let (zone, rest) = text.get(FULL_TIME.len()..)?.split_once(" ")?;
    if is_zone(zone) { Some(rest) } else { None }
}

/// Whether a text is as `UTC`, or as `-03`.
fn is_zone(text: &str) -> bool {
    !text.is_empty()
        && text.bytes().all(|byte| byte.is_ascii_alphanumeric() || matches!(byte, b'+' | b'-'))
}

/// Whether a time is seconds and millionths as `1770117753.123456`.
fn is_unix_time(time: &str) -> bool {
    match time.split_once(".") {
        Some((_seconds, places)) => is_seconds(time) && places.len() == 6,
        None => false,
    }
}

/// Whether a time is seconds as `12.345678`, or as `Fri Nov 27 12:00:00 2026`.
fn is_time(time: &str) -> bool {
    if is_seconds(without_delta(time).trim()) {
        return true;
    }
    match (time.get(..4), time.get(4..19), time.get(19..)) {
        (Some(day), Some(stamp), Some(year)) => {
            day.ends_with(" ") && is_stamp(stamp) && is_number(year.trim_start())
        }
        _ => false,
    }
}

/// A time without the seconds since the line before it, as in `12.345678 <    0.000012 >`.
fn without_delta(time: &str) -> &str {
    let Some((before, delta)) = time.split_once(" <") else {
        return time;
    };
    let Some(delta) = delta.strip_suffix(">") else {
        return time;
    };
    let seconds = delta.strip_suffix("*").unwrap_or(delta).trim();
    if is_seconds(seconds) { before } else { time }
}

/// Whether a text is as `12.345678`.
fn is_seconds(text: &str) -> bool {
    match text.split_once(".") {
        Some((seconds, places)) => is_number(seconds) && is_number(places),
        None => false,
    }
}

/// Whether a text begins as `Nov 27 12:00:00`: where another has a digit, it has one.
fn is_stamp(text: &str) -> bool {
    has_shape(text, "aaa 00 00:00:00")
}

/// Whether a text begins as `2026-11-27T12:00:00`.
fn is_iso_time(text: &str) -> bool {
    has_shape(text, "0000-00-00T00:00:00")
}

/// Whether a text begins with letters where a shape has `a`, with digits where it has `0` (or a
/// space, as a day has), and with what else it has.
fn has_shape(text: &str, shape: &str) -> bool {
    let mut letters = text.chars();
    for wanted in shape.chars() {
        let is_right = match (wanted, letters.next()) {
            ('a', Some(letter)) => letter.is_ascii_alphabetic(),
            ('0', Some(letter)) => letter.is_ascii_digit() || letter == ' ',
            (wanted, Some(letter)) => letter == wanted,
            (_wanted, None) => false,
        };
        if !is_right {
            return false;
        }
    }
    true
}

/// Whether a text is a decimal number.
fn is_number(text: &str) -> bool {
    !text.is_empty() && text.bytes().all(|byte| byte.is_ascii_digit())
}
