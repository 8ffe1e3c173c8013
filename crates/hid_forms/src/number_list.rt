//! Numbers of a byte each with commas between them, over several lines.
use crate::hex_text::without_prefix;
use anyhow::{Result, bail, ensure};
use std::alloc::Global;
use std::mem;

/// The numbers of a list so far.
#[derive(Drop)]
pub struct NumberList {
    bytes: Vec<u8>,
    /// Whether a number was last, and no comma.
    is_behind_number: bool,
    /// Whether no comma has to stand behind it.
    may_lack_comma: bool,
    /// Whether numbers may be below 0, as bytes of Java are.
    may_be_signed: bool,
    /// Whether one so far is below 0, and whether one is past 127: no list of bytes has both.
    has_signed: bool,
    has_great: bool,
}

impl NumberList {
    /// A list without numbers; `may_be_signed` says whether some may be below 0.
    pub fn new(alloc: Global, may_be_signed: bool) -> NumberList {
        NumberList {
            bytes: Vec::new(alloc),
            is_behind_number: false,
            may_lack_comma: false,
            may_be_signed,
            has_signed: false,
            has_great: false,
        }
    }

    /// Whether no number is in it yet.
    pub fn is_empty(&self) -> bool {
        self.bytes.is_empty()
    }

    /// Takes the numbers of a part of the list.
    pub fn add(&mut self, part: &str) -> Result<()> {
        let mut is_behind_comma = false;
        for word in part.split(",") {
            if is_behind_comma {
                self.take_comma()?;
            }
            is_behind_comma = true;
            let word = word.trim();
            if !word.is_empty() {
                self.take_number(word)?;
            }
        }
        Ok(())
    }

    /// Takes a comma.
    pub fn take_comma(&mut self) -> Result<()> {
        ensure!(self.is_behind_number, "no number stands before a comma");
        self.is_behind_number = false;
        Ok(())
    }

    /// Takes the bytes that a word writes.
    pub fn take_item(&mut self, word: &str, bytes: &[u8]) -> Result<()> {
        self.begin(word)?;
        Ok(self.bytes.extend_from_slice(bytes)?)
    }

    /// Takes that behind the last bytes no comma has to stand.
    pub fn needs_no_comma(&mut self) {
        self.may_lack_comma = true;
    }

    /// Takes that a word stands where a comma came before it, if it needs one.
    fn begin(&mut self, word: &str) -> Result<()> {
        ensure!(
            !self.is_behind_number || self.may_lack_comma,
            "no comma stands before {word}"
        );
        self.is_behind_number = true;
        self.may_lack_comma = false;
        Ok(())
    }

    /// Takes a number.
    pub fn take_number(&mut self, word: &str) -> Result<()> {
        self.begin(word)?;
        check_digits(word.strip_prefix("-").unwrap_or(word))?;
        let Some(byte) = byte_of(word) else {
            bail!("{word} is no byte");
        };
        let is_below = word.starts_with("-");
        ensure!(!is_below || self.may_be_signed, "{word} is no byte");
        self.take_sign(word, is_below, byte > 127)?;
        Ok(self.bytes.push(byte)?)
    }

    /// Takes the number that a name stands for.
    pub fn take_value(&mut self, name: &str, value: i64) -> Result<()> {
        self.begin(name)?;
        ensure!(
            (-128..=255).contains(&value),
            "{name} is {value}, which is no byte"
        );
        self.take_sign(name, value < 0, value > 127)?;
        Ok(self.bytes.push(value.to_le_bytes()[0])?)
    }

    /// Takes whether a number is below 0, and whether it is past 127: no list of bytes has both.
    fn take_sign(&mut self, word: &str, is_below: bool, is_great: bool) -> Result<()> {
        self.has_signed = self.has_signed || is_below;
        self.has_great = self.has_great || !is_below && is_great;
        ensure!(
            !self.has_signed || !self.has_great,
            "{word} stands in a list that has both numbers below 0 and past 127"
        );
        Ok(())
    }

    /// The bytes so far; the list has none from here on.
    pub fn taken(&mut self) -> Vec<u8> {
        let alloc = *self.bytes.allocator();
        self.is_behind_number = false;
        self.has_signed = false;
        self.has_great = false;
        mem::replace(&mut self.bytes, Vec::new(alloc))
    }
}

/// Refuses a number that C may read as another.
fn check_digits(word: &str) -> Result<()> {
    ensure!(
        !is_octal(word),
        "{word} begins with 0: it may be octal or decimal"
    );
    Ok(())
}

/// The number that a word writes, with a sign or without.
pub fn number_of(word: &str) -> Result<Option<i64>> {
    let digits = word.strip_prefix("-").unwrap_or(word);
    check_digits(digits)?;
    if digits.starts_with(|letter: char| matches!(letter, '+' | '-')) {
        return Ok(None);
    }
    let number = match without_prefix(digits) {
        Some(digits) if digits.starts_with(|letter: char| matches!(letter, '+' | '-')) => None,
        Some(digits) => u32::from_str_radix(digits, 16).ok(),
        None => digits.parse::<u32>().ok(),
    };
    Ok(number.map(|number| {
        let number = i64::from(number);
        if digits.len() < word.len() {
            -number
        } else {
            number
        }
    }))
}

/// Whether a number is another where C reads it: digits behind a 0, of which one digit alone is the
/// same in both.
fn is_octal(word: &str) -> bool {
    let digits = word.trim_start_matches('0');
    let is_decimal = word.bytes().all(|byte| byte.is_ascii_digit());
    is_decimal
        && digits.len() < word.len()
        && !matches!(digits, "" | "1" | "2" | "3" | "4" | "5" | "6" | "7")
}

/// The byte that a number writes, one below 0 as its two's complement.
fn byte_of(word: &str) -> Option<u8> {
    if word.starts_with("-") {
        let number = word.parse::<i8>().ok()?;
        return u8::try_from(i16::from(number) & 0xff).ok();
    }
    match without_prefix(word) {
        Some(digits) if !digits.starts_with("+") => u8::from_str_radix(digits, 16).ok(),
        Some(_signed) => None,
        None if word.starts_with("+") => None,
        None => word.parse::<u8>().ok(),
    }
}
