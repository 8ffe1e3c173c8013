//! Bytes of Python: `[5, 1, 9]`, `bytes([0x05, 0x01])`, `bytes.fromhex("05 01")`, `b"\x05\x01"`,
//! with a name and `=` before them or without, and remarks behind `#`. What `repr` writes of bytes
//! is such a string. Imports and CircuitPython's calls may stand beside them.
use crate::number_list::NumberList;
use crate::python_calls::{PythonCalls, begins_call, is_import};
use crate::python_string::{add_digit_pairs, add_literal};
use anyhow::{Result, bail, ensure};
use hid_given::{Found, Wanted};
use std::alloc::Global;
use std::mem;

/// How a list begins that isn't of numbers alone.
static BEGINNINGS: [&str; 6] = [
    "bytes(",
    "bytearray(",
    "bytes.fromhex(",
    "bytearray.fromhex(",
    "b\"",
    "b'",
];

/// What makes bytes of what stands in brackets.
#[derive(Clone, Copy, PartialEq)]
enum Call {
    /// Nothing: it is a list.
    Nothing,

    /// `bytes` or `bytearray`.
    Bytes,

    /// `fromhex` of one of them.
    Digits,
}

/// What reads lists.
#[derive(Drop)]
pub struct PythonLines {
    wanted: Wanted,
    /// What closes the brackets that are open, the innermost last.
    closers: String,
    /// What of a line is in no string, so far: before the first bracket, or between brackets.
    part: String,
    /// What ends the string, where one has begun; what stands in it, and whether its last letter
    /// was a backslash that changes the next one.
    quote: Option<char>,
    string: String,
    is_escape: bool,
    is_in_remark: bool,
    /// Whether the line has the end of a list.
    is_behind_list: bool,
    name: String,
    call: Call,
    calls: PythonCalls,
    /// Whether the last numbers are in parentheses.
    is_tuple: bool,
    numbers: NumberList,
    strings: Vec<u8>,
}

/// Whether a line is the first of a list, or of one with a name.
pub fn is_python_line(line: &str) -> bool {
    let (name, list) = named(line);
    is_name(name) && is_beginning(list) || is_import(line) || begins_call(line)
}

/// Whether a list begins so.
fn is_beginning(list: &str) -> bool {
    list == "("
        || is_number_list(list)
        || BEGINNINGS
            .iter()
            .any(|beginning| list.starts_with(*beginning))
}

/// Whether this is the beginning of a list of numbers.
fn is_number_list(list: &str) -> bool {
    match list.strip_prefix("[") {
        Some(rest) => {
            let word = rest.trim().split(is_behind_number).next().unwrap_or("");
            word.bytes().all(|byte| byte.is_ascii_hexdigit() || matches!(byte, b'x' | b'X'))
        }
        None => false,
    }
}

/// Whether a letter ends a number of a list.
fn is_behind_number(letter: char) -> bool {
    letter.is_whitespace() || matches!(letter, ',' | ']' | '#')
}

/// The name before `=`, or none, and what stands behind it.
fn named(text: &str) -> (&str, &str) {
    match text.split_once("=") {
        Some((name, list)) => (name.trim(), list.trim()),
        None => ("", text.trim()),
    }
}

/// Whether this is a name of Python, or none.
fn is_name(name: &str) -> bool {
    name.bytes().all(|byte| byte.is_ascii_alphanumeric() || matches!(byte, b'_' | b'.'))
}

/// What closes a bracket.
fn closer_of(letter: char) -> Option<char> {
    match letter {
        '(' => Some(')'),
        '[' => Some(']'),
        _ => None,
    }
}

impl PythonLines {
    /// Before the first line.
    pub fn new(alloc: Global, wanted: Wanted) -> PythonLines {
        PythonLines {
            wanted,
            closers: String::new(alloc),
            part: String::new(alloc),
            quote: None,
            string: String::new(alloc),
            is_escape: false,
            is_in_remark: false,
            is_behind_list: false,
            name: String::new(alloc),
            call: Call::Nothing,
            calls: PythonCalls::new(),
            is_tuple: false,
            numbers: NumberList::new(alloc, false),
            strings: Vec::new(alloc),
        }
    }

    /// Takes what a line says.
    pub fn take(&mut self, found: &mut Found, line: &str) -> Result<()> {
        let is_outside = self.closers.is_empty();
        if self.calls.is_open() || is_outside && begins_call(line) {
            return self.calls.take(found, line);
        }
        if is_outside && is_import(line) {
            return Ok(());
        }
        self.is_in_remark = false;
        self.is_behind_list = false;
        for letter in line.chars() {
            if !self.is_in_remark {
                self.take_letter(found, letter)?;
            }
        }
        ensure!(self.quote.is_none(), "a string has no end");
        if self.closers.is_empty() {
            return self.take_outside(found);
        }
        self.take_numbers()
    }

    /// Takes a letter.
    fn take_letter(&mut self, found: &mut Found, letter: char) -> Result<()> {
        if let Some(quote) = self.quote {
            return self.take_inside(quote, letter);
        }
        if let Some(closer) = closer_of(letter) {
            return self.open(closer);
        }
        match letter {
            ')' | ']' => self.close(found, letter),
            '"' | '\'' => self.begin_string(letter),
            '#' => {
                self.is_in_remark = true;
                Ok(())
            }
            _ => Ok(self.part.push(letter)?),
        }
    }

    /// Takes a letter of a string, or its end.
    fn take_inside(&mut self, quote: char, letter: char) -> Result<()> {
        if letter == quote && !self.is_escape {
            return self.end_string();
        }
        self.is_escape = letter == '\\' && !self.is_escape;
        Ok(self.string.push(letter)?)
    }

    /// Takes the beginning of a string: `b` stands before it where it isn't of digits.
    fn begin_string(&mut self, quote: char) -> Result<()> {
        let before = self.taken_part();
        let (name, mark) = named(before.as_str());
        if self.closers.is_empty() && self.strings.is_empty() {
            self.take_name(name)?;
            self.call = Call::Nothing;
        } else {
            ensure!(name.is_empty(), "{name} stands beside a string");
        }
        let wanted = if self.call == Call::Digits { "" } else { "b" };
        ensure!(
            mark == wanted,
            "a string has '{mark}' before it, and not '{wanted}'"
        );
        self.quote = Some(quote);
        Ok(())
    }

    /// Takes what stands in a string.
    fn end_string(&mut self) -> Result<()> {
        let alloc = *self.strings.allocator();
        self.quote = None;
        let text = mem::replace(&mut self.string, String::new(alloc));
        let is_taken = if self.call == Call::Digits {
            add_digit_pairs(&mut self.strings, text.as_str())?
        } else {
            add_literal(&mut self.strings, text.as_str())?
        };
        ensure!(is_taken, "a string has other than bytes in it");
        Ok(())
    }

    /// What stood outside of strings so far, which is nothing from here on.
    fn taken_part(&mut self) -> String {
        let alloc = *self.strings.allocator();
        mem::replace(&mut self.part, String::new(alloc))
    }

    /// Takes the name of a list.
    fn take_name(&mut self, name: &str) -> Result<()> {
        let alloc = *self.strings.allocator();
        ensure!(!self.is_behind_list, "something stands behind the list");
        ensure!(is_name(name), "{name} is no name of Python");
        self.name = String::from_str(alloc, name)?;
        Ok(())
    }

    /// Takes a bracket that opens.
    fn open(&mut self, closer: char) -> Result<()> {
        let before = self.taken_part();
        let is_first = self.numbers.is_empty() && self.strings.is_empty();
        if self.closers.is_empty() {
            ensure!(is_first, "something stands behind the list");
            self.begin(before.as_str())?;
        } else {
            ensure!(
                is_first && before.as_str().trim().is_empty(),
                "a list stands in a list"
            );
        }
        Ok(self.closers.push(closer)?)
    }

    /// Takes what stands before the first bracket: a name, and what is called.
    fn begin(&mut self, before: &str) -> Result<()> {
        let (name, call) = named(before);
        self.take_name(name)?;
        self.call = match call {
            "" => Call::Nothing,
            "bytes" | "bytearray" => Call::Bytes,
            "bytes.fromhex" | "bytearray.fromhex" => Call::Digits,
            _ => bail!("{call} makes no bytes"),
        };
        Ok(())
    }

    /// Takes a bracket that closes, and the list where it is the last.
    fn close(&mut self, found: &mut Found, letter: char) -> Result<()> {
        self.take_numbers()?;
        ensure!(
            self.closers.pop() == Some(letter),
            "{letter} closes no bracket"
        );
        if self.closers.is_empty() {
            return self.take_list(found);
        }
        Ok(())
    }

    /// Takes the numbers that stood so far between brackets.
    fn take_numbers(&mut self) -> Result<()> {
        let part = self.taken_part();
        if part.as_str().trim().is_empty() {
            return Ok(());
        }
        let is_list = match self.call {
            Call::Nothing => true,
            Call::Bytes => self.closers.len() > 1,
            Call::Digits => false,
        };
        ensure!(is_list, "numbers stand in no list");
        self.is_tuple = self.closers.as_str().ends_with(")");
        self.numbers.add(part.as_str())
    }

    /// Takes what stands in no brackets: a string, what ends a list, or nothing.
    fn take_outside(&mut self, found: &mut Found) -> Result<()> {
        let part = self.taken_part();
        let is_end = matches!(part.as_str().trim(), "" | ";" | ",");
        ensure!(is_end, "is no list of bytes in Python");
        if self.strings.is_empty() {
            return Ok(());
        }
        self.take_list(found)
    }

    /// Takes a list as a descriptor or a report.
    fn take_list(&mut self, found: &mut Found) -> Result<()> {
        let alloc = *self.strings.allocator();
        self.is_behind_list = true;
        let strings = mem::replace(&mut self.strings, Vec::new(alloc));
        let numbers = self.numbers.taken();
        ensure!(
            !self.is_tuple || numbers.len() != 1,
            "a number in parentheses is no list"
        );
        let bytes = if strings.is_empty() {
            numbers
        } else {
            ensure!(numbers.is_empty(), "numbers stand beside strings");
            strings
        };
        found.add_list(self.wanted, self.name.as_str(), bytes)
    }

    /// Looks whether the last list is whole.
    pub fn end(&mut self) -> Result<()> {
        ensure!(self.closers.is_empty(), "the list of bytes has no end");
        self.calls.end()
    }
}
