//! A line of a dump with offsets, as `xxd`, `hexdump`, `od` and Wireshark write it: an offset,
//! groups of hexadecimal digits, and the characters that the bytes are.
use crate::hex_text::{is_digits, is_hex_text};
use std::alloc::{AllocError, Global};

/// What numbers offsets are.
#[derive(Clone, Copy)]
pub enum Radix {
    /// Those of all programs but `od`.
    Hexadecimal,

    /// Of `od -A d`.
    Decimal,

    /// Of `od`.
    Octal,
}

impl Radix {
    /// Whether digits write a number.
    pub fn writes(self, digits: &str, number: usize) -> bool {
        let written = match self {
            Radix::Hexadecimal => usize::from_str_radix(digits, 16),
            Radix::Decimal => usize::from_str_radix(digits, 10),
            Radix::Octal => usize::from_str_radix(digits, 8),
        };
        match written {
            Ok(written) => written == number,
            Err(_wrong) => false,
        }
    }
}

/// The parts of a line.
#[derive(Clone, Copy)]
pub struct DumpLine<'a> {
    /// The digits of its offset.
    pub offset: &'a str,
    /// Whether a colon stands behind them.
    pub has_colon: bool,
    /// Whether more than a space stands before the first group.
    pub is_wide: bool,
    /// The groups of digits.
    pub groups: &'a str,
    /// The characters beside them, where some stand there.
    pub characters: Option<&'a str>,
}

impl<'a> DumpLine<'a> {
    /// The parts of a line that begins with an offset.
    pub fn of(line: &'a str) -> Option<DumpLine<'a>> {
        let (word, rest) = line
            .trim()
            .split_once(|letter: char| letter.is_whitespace())
            .unwrap_or((line.trim(), ""));
        let (offset, has_colon) = match word.strip_suffix(":") {
            Some(offset) => (offset, true),
            None => (word, false),
        };
        if !is_digits(offset) || offset.len() < 4 || offset.len() > 8 {
            return None;
        }
        let (groups, characters) = if has_colon || offset.len() < 6 {
            columns(rest)
        } else {
            marked_columns(rest)
        };
        Some(DumpLine {
            offset,
            has_colon,
            is_wide: rest.starts_with(" "),
            groups,
            characters,
        })
    }

    /// Whether its offset is 0.
    fn is_first(&self) -> bool {
        self.offset.bytes().all(|byte| byte == b'0')
    }

    /// Whether its first group is of one byte or of two.
    fn has_groups(&self) -> bool {
        match self.groups.split_whitespace().next() {
            Some(group) => is_digits(group) && matches!(group.len(), 2 | 4),
            None => false,
        }
    }

    /// How many bytes its groups are, where all are of one byte or all of two, and of other length
    /// than the offset; else none.
    fn count(&self) -> Option<usize> {
        let length = self.groups.split_whitespace().next()?.len();
        let is_even = self
            .groups
            .split_whitespace()
            .all(|group| is_digits(group) && group.len() == length);
        if !is_even || !matches!(length, 2 | 4) || length == self.offset.len() {
            return None;
        }
        let count = self.groups.split_whitespace().count();
        Some(count.saturating_mul(length / 2))
    }
}

/// The groups and the characters of a line behind its offset: two spaces stand between them.
fn columns(rest: &str) -> (&str, Option<&str>) {
    match rest.trim_start().split_once("  ") {
        Some((groups, characters)) => (groups, Some(characters.trim())),
        None => (rest.trim(), None),
    }
}

/// The same where a mark stands before and behind the characters.
fn marked_columns(rest: &str) -> (&str, Option<&str>) {
    if let Some((groups, characters)) = rest.split_once("  |") {
        return (
            groups.trim(),
            Some(characters.strip_suffix("|").unwrap_or("")),
        );
    }
    match rest.split_once("  >") {
        Some((groups, characters)) => (
            groups.trim(),
            Some(characters.strip_suffix("<").unwrap_or("")),
        ),
        None => (rest.trim(), None),
    }
}

/// Whether a line is surely the first of a dump.
pub fn is_dump_line(line: &str) -> bool {
    let Some(parts) = DumpLine::of(line) else {
        return false;
    };
    if parts.has_colon {
        return true;
    }
    if parts.offset.len() == 7 {
        return parts.is_first() || parts.has_groups();
    }
    let begins = parts.is_first() || parts.characters.is_some();
    begins && parts.has_groups() && !is_hex_text(line)
}

/// Whether the first line of a text may be one of a dump, and of hex text, too.
pub fn may_be_dump_line(line: &str) -> bool {
    match DumpLine::of(line) {
        Some(parts) => parts.is_first() && parts.count().is_some() && is_hex_text(line),
        None => false,
    }
}

/// Whether the offset of a line is the number of bytes of the one before it, the first of a dump.
pub fn goes_on(first: &str, second: &str) -> bool {
    let (Some(first), Some(second)) = (DumpLine::of(first), DumpLine::of(second)) else {
        return false;
    };
    match first.count() {
        Some(count) => {
            second.offset.len() == first.offset.len()
                && Radix::Hexadecimal.writes(second.offset, count)
        }
        None => false,
    }
}

/// Whether characters are those of some bytes: what can't be seen is a point, and spaces at the
/// ends don't count.
pub fn are_characters(alloc: Global, characters: &str, bytes: &[u8]) -> Result<bool, AllocError> {
    let shown = shown(alloc, bytes)?;
    let mut letters = characters.trim().chars();
    for wanted in shown.as_str().trim().chars() {
        match letters.next() {
            Some(letter) if letter == wanted || letter == '\u{b7}' && wanted == '.' => {}
            _ => return Ok(false),
        }
    }
    Ok(letters.next().is_none())
}

/// The characters of some bytes.
fn shown(alloc: Global, bytes: &[u8]) -> Result<String, AllocError> {
    let mut shown = String::new(alloc);
    for byte in bytes {
        shown.push(if matches!(*byte, b' '..=b'~') {
            char::from(*byte)
        } else {
            '.'
        })?;
    }
    Ok(shown)
}
