//! Strings of C, beside each other and over several lines: `"\x05\x01" "\t\002"`.
use anyhow::{Result, bail, ensure};
use std::alloc::Global;
use std::mem;

/// How many digits of an octal escape there are at most.
const MOST_OCTAL: usize = 3;

/// What of an escape has come.
#[derive(Clone, Copy, PartialEq)]
enum Escape {
    /// None has begun.
    Nothing,

    /// Its backslash.
    Begun,

    /// Its backslash, an x, and some digits.
    Hexadecimal,

    /// Its backslash and some digits.
    Octal,
}

/// The bytes of strings so far.
#[derive(Drop)]
pub struct CStrings {
    bytes: Vec<u8>,
    escape: Escape,
    /// The digits of the escape.
    digits: String,
}

impl CStrings {
    /// Before the first line.
    pub fn new(alloc: Global) -> CStrings {
        CStrings {
            bytes: Vec::new(alloc),
            escape: Escape::Nothing,
            digits: String::new(alloc),
        }
    }

    /// Takes the strings of a line, and answers whether it has the end of all.
    pub fn take(&mut self, code: &str) -> Result<bool> {
        let mut is_inside = false;
        let mut is_ended = false;
        for byte in code.bytes() {
            if is_inside {
                is_inside = self.take_byte(byte)?;
                continue;
            }
            if byte.is_ascii_whitespace() {
                continue;
            }
            ensure!(
                !is_ended && matches!(byte, b'"' | b';'),
                "something stands beside a string"
            );
            is_inside = byte == b'"';
            is_ended = byte == b';';
        }
        ensure!(!is_inside, "a string has no end");
        Ok(is_ended)
    }

    /// Takes a byte of a string, and answers whether it isn't the last.
    fn take_byte(&mut self, byte: u8) -> Result<bool> {
        match self.escape {
            Escape::Nothing => return self.take_plain(byte),
            Escape::Begun => self.take_begun(byte)?,
            Escape::Hexadecimal if byte.is_ascii_hexdigit() => {
                self.digits.push(char::from(byte))?
            }
            Escape::Octal if matches!(byte, b'0'..=b'7') && self.digits.len() < MOST_OCTAL => {
                self.digits.push(char::from(byte))?
            }
            Escape::Hexadecimal | Escape::Octal => {
                self.end_digits()?;
                return self.take_plain(byte);
            }
        }
        Ok(true)
    }

    /// Takes a byte that is in no escape.
    fn take_plain(&mut self, byte: u8) -> Result<bool> {
        match byte {
            b'"' => return Ok(false),
            b'\\' => self.escape = Escape::Begun,
            b' '..=b'~' => self.bytes.push(byte)?,
            _ => bail!("a string has letters other than ASCII's"),
        }
        Ok(true)
    }

    /// Takes the byte behind a backslash.
    fn take_begun(&mut self, byte: u8) -> Result<()> {
        self.escape = Escape::Nothing;
        let meant = match byte {
            b'x' => {
                self.escape = Escape::Hexadecimal;
                return Ok(());
            }
            b'0'..=b'7' => {
                self.escape = Escape::Octal;
                return Ok(self.digits.push(char::from(byte))?);
            }
            b'a' => 0x07,
            b'b' => 0x08,
            b't' => b'\t',
            b'n' => b'\n',
            b'v' => 0x0b,
            b'f' => 0x0c,
            b'r' => b'\r',
            b'"' | b'\'' | b'\\' | b'?' => byte,
            _ => bail!("a string has an escape that isn't known"),
        };
        Ok(self.bytes.push(meant)?)
    }

    /// Takes the digits of an escape that has ended.
    fn end_digits(&mut self) -> Result<()> {
        let digits = self.digits.as_str();
        let number = if self.escape == Escape::Octal {
            u8::from_str_radix(digits, 8)
        } else {
            u8::from_str_radix(digits, 16)
        };
        match number {
            Ok(byte) => self.bytes.push(byte)?,
            Err(_wrong) => bail!("the digits '{digits}' of an escape are no byte"),
        }
        self.digits.clear();
        self.escape = Escape::Nothing;
        Ok(())
    }

    /// The bytes so far, which are none from here on.
    pub fn taken(&mut self) -> Vec<u8> {
        let alloc = *self.bytes.allocator();
        mem::replace(&mut self.bytes, Vec::new(alloc))
    }
}
