//! Hex text: bytes in hexadecimal digits.
use crate::byte_words::{add_byte_word, add_digits, is_byte_word, is_lone};
use crate::remarks::Remarks;
use anyhow::{Result, bail, ensure};
use hex::FromHexError;
use hid_given::{Found, GivenReport, Wanted};
use std::alloc::{AllocError, Global};
use std::mem;

/// The bytes that a text writes, or none where it writes something else: two hexadecimal digits for
/// a byte, with spaces, commas and line breaks between them or without; `0x` may stand before a
/// byte, `{`, `}` and `;` around them, and a remark behind `//` or `#` to the end of its line.
pub fn bytes_of_hex(alloc: Global, text: &str) -> Result<Option<Vec<u8>>, AllocError> {
    let mut bytes = Vec::new(alloc);
    for line in text.lines() {
        if !add_line(&mut bytes, line)? {
            return Ok(None);
        }
    }
    Ok(Some(bytes))
}

/// What reads hex text: all lines are one descriptor, or each line with bytes is a report.
#[derive(Drop)]
pub struct HexLines {
    wanted: Wanted,
    bytes: Vec<u8>,
    /// Whether a word so far is a byte with a mark, as `0x05`, `05h` or `$05`.
    has_marked: bool,
    /// Whether one has none.
    has_plain: bool,
    remarks: Remarks,
}

impl HexLines {
    /// Before the first line.
    pub fn new(alloc: Global, wanted: Wanted) -> HexLines {
        HexLines {
            wanted,
            bytes: Vec::new(alloc),
            has_marked: false,
            has_plain: false,
            remarks: Remarks::of_hex_text(),
        }
    }

    /// Takes the bytes of a line.
    pub fn take(&mut self, found: &mut Found, line: &str) -> Result<()> {
        self.remarks.check_next(line)?;
        if !self.remarks.may_be_in(line) {
            return self.take_code(found, line);
        }
        let mut code = String::new(*self.bytes.allocator());
        self.remarks.add_code(&mut code, line)?;
        self.take_code(found, code.as_str())
    }

    /// Takes the bytes of a line without a remark that goes on over lines.
    fn take_code(&mut self, found: &mut Found, line: &str) -> Result<()> {
        self.check_front(line)?;
        ensure!(
            !is_condition(line),
            "a line of #if is no remark, but of source: --form source"
        );
        for word in without_remark(line).split(between_bytes) {
            self.check_word(word)?;
        }
        if !add_text_line(&mut self.bytes, line)? {
            let word = wrong_word(line).unwrap_or("it");
            bail!("{word} isn't bytes in hexadecimal digits");
        }
        if self.wanted == Wanted::Reports && !self.bytes.is_empty() {
            let bytes = self.taken();
            found.add_report(GivenReport::new(bytes))?;
        }
        Ok(())
    }

    /// Refuses a word that makes others doubtful: one without a mark beside those that have one, as
    /// in `db 05h` and `0x05, 16`.
    fn check_word(&mut self, word: &str) -> Result<()> {
        if is_marked(word) {
            ensure!(
                !self.has_plain,
                "{word} has a mark, and words before it have none: they may be no bytes, or decimal"
            );
            self.has_marked = true;
        } else if is_digits(word) {
            ensure!(
                !self.has_marked,
                "{word} has no mark as words before it have: it may be no byte, or decimal"
            );
            self.has_plain = true;
        }
        Ok(())
    }

    /// Refuses a line that begins with the number of bytes before it, as one of a dump does.
    fn check_front(&self, line: &str) -> Result<()> {
        let front = line.split_whitespace().next().unwrap_or("");
        ensure!(
            self.bytes.is_empty()
                || front.len() < 4
                || usize::from_str_radix(front, 16) != Ok(self.bytes.len()),
            "{front} is the number of bytes before it: it may be the offset of a dump"
        );
        Ok(())
    }

    /// Takes the descriptor.
    pub fn end(&mut self, found: &mut Found) -> Result<()> {
        ensure!(!self.remarks.is_inside(), "a remark has no end");
        if self.wanted == Wanted::Reports {
            return Ok(());
        }
        let bytes = self.taken();
        found.add_descriptor(0, bytes)
    }

    /// The bytes so far, which are none from here on.
    fn taken(&mut self) -> Vec<u8> {
        let alloc = *self.bytes.allocator();
        mem::replace(&mut self.bytes, Vec::new(alloc))
    }
}

/// Whether a line is one of C that says which others are read: as a remark it would be passed over.
/// Behind a space some are words of a remark, too.
fn is_condition(line: &str) -> bool {
    let Some(rest) = line.trim().strip_prefix("#") else {
        return false;
    };
    let word = rest.split_whitespace().next().unwrap_or("");
    let is_word = !rest.starts_with(word);
    matches!(word, "ifdef" | "ifndef" | "elif" | "endif")
        || !is_word && matches!(word, "if" | "else")
}

/// Whether a line says nothing: no more than a remark and what may stand between bytes.
pub fn is_blank(line: &str) -> bool {
    without_remark(line)
        .split(between_bytes)
        .all(|word| word.is_empty())
}

/// Whether a line begins as one of hex text.
pub fn is_hex_line(line: &str) -> bool {
    match without_remark(line)
        .split(between_bytes)
        .find(|word| !word.is_empty())
    {
        Some(word) => is_hex_word(word) || is_byte_word(word),
        None => true,
    }
}

/// Whether all of a line is bytes.
pub fn is_hex_text(line: &str) -> bool {
    wrong_word(line).is_none()
}

/// The first word of a line that isn't bytes.
fn wrong_word(line: &str) -> Option<&str> {
    without_remark(line).split(between_bytes).find(|word| !word.is_empty()
        && !is_hex_word(word)
        && !is_byte_word(word))
}

/// Whether a word is bytes: pairs of digits, or `0x` with one or two.
fn is_hex_word(word: &str) -> bool {
    match without_prefix(word) {
        Some(digits) => is_digits(digits) && digits.len() <= 2,
        None => is_digits(word) && word.len() % 2 == 0,
    }
}

/// Whether a word is a byte with a mark: `0x05`, `05h` or `$05`.
fn is_marked(word: &str) -> bool {
    match without_prefix(word) {
        Some(digits) => is_digits(digits),
        None => is_lone(word),
    }
}

/// What stands behind `0x`.
pub fn without_prefix(word: &str) -> Option<&str> {
    match word.strip_prefix("0x") {
        Some(digits) => Some(digits),
        None => word.strip_prefix("0X"),
    }
}

/// Whether a word is of hexadecimal digits alone.
pub fn is_digits(word: &str) -> bool {
    !word.is_empty() && word.bytes().all(|byte| byte.is_ascii_hexdigit())
}

/// What stands between bytes.
fn between_bytes(letter: char) -> bool {
    letter.is_whitespace() || matches!(letter, ',' | '{' | '}' | ';')
}

/// A line up to its remark.
fn without_remark(line: &str) -> &str {
    let line = match line.split_once("//") {
        Some((line, _remark)) => line,
        None => line,
    };
    match line.split_once("#") {
        Some((line, _remark)) => line,
        None => line,
    }
}

/// Appends the bytes of a line, and answers whether it is one of hex text.
fn add_line(bytes: &mut Vec<u8>, line: &str) -> Result<bool, AllocError> {
    for word in without_remark(line).split(between_bytes) {
        if !word.is_empty() && !add_word(bytes, word)? {
            return Ok(false);
        }
    }
    Ok(true)
}

/// The same, where words may have other shapes, too.
fn add_text_line(bytes: &mut Vec<u8>, line: &str) -> Result<bool, AllocError> {
    for word in without_remark(line).split(between_bytes) {
        if !word.is_empty() && !add_word(bytes, word)? && !add_byte_word(bytes, word)? {
            return Ok(false);
        }
    }
    Ok(true)
}

/// Appends the bytes of a word, and answers whether it is one of bytes.
fn add_word(bytes: &mut Vec<u8>, word: &str) -> Result<bool, AllocError> {
    if !is_hex_word(word) {
        return Ok(false);
    }
    if let Some(digits) = without_prefix(word) {
        return add_digits(bytes, digits);
    }
    match hex::decode(*bytes.allocator(), word) {
        Ok(more) => {
            bytes.extend_from_slice(&more)?;
            Ok(true)
        }
        Err(FromHexError::OutOfMemory) => Err(AllocError),
        Err(_wrong) => Ok(false),
    }
}
