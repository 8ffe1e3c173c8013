//! Dumps with offsets, as `xxd`, `hexdump`, `od` and Wireshark write them, and the kernel in its
//! log. Each line's offset has to be the number of bytes before it, and the characters beside the
//! bytes have to be theirs.
use crate::dump_line::{DumpLine, Radix, are_characters};
use crate::hex_text::is_digits;
use crate::log_line::LogLine;
use anyhow::{Result, bail, ensure};
use hid_given::{Found, GivenReport, Wanted};
use std::alloc::Global;
use std::mem;

/// How many bytes `hexdump` and `od` write in a line that isn't the last.
const FULL: usize = 16;

/// What reads dumps.
#[derive(Drop)]
pub struct OffsetLines {
    wanted: Wanted,
    /// What numbers the offsets so far may be.
    radices: Vec<Radix>,
    /// How many digits an offset has; 0 before the first line.
    digits: usize,
    has_colon: bool,
    has_characters: bool,
    /// How many digits a group has; 0 before the first.
    width: usize,
    /// Whether a line has more room than hexadecimal digits take, and whether a group can't be
    /// decimal.
    is_wide: bool,
    is_told: bool,
    /// How many bytes the first line has, and the last so far.
    first: usize,
    last: usize,
    /// What stands before each line in the kernel's log, without times; none elsewhere.
    names: Option<(String, String)>,
    /// Whether the line was there that is the number of bytes alone.
    has_length: bool,
    bytes: Vec<u8>,
}

impl OffsetLines {
    /// Before the first line.
    pub fn new(alloc: Global, wanted: Wanted) -> OffsetLines {
        OffsetLines {
            wanted,
            radices: Vec::new(alloc),
            digits: 0,
            has_colon: false,
            has_characters: false,
            width: 0,
            is_wide: false,
            is_told: false,
            first: 0,
            last: 0,
            names: None,
            has_length: false,
            bytes: Vec::new(alloc),
        }
    }

    /// Takes what a line says.
    pub fn take(&mut self, found: &mut Found, line: &str) -> Result<()> {
        let line = line.trim();
        if line.is_empty() || line.starts_with("#") {
            return Ok(());
        }
        ensure!(
            line != "*",
            "* stands for lines that aren't there: hexdump -v, od -v and xxd write all"
        );
        ensure!(
            !self.has_length,
            "stands behind the line that is the length alone"
        );
        let Some(parts) = DumpLine::of(self.without_names(line)?) else {
            bail!("has no offset");
        };
        self.take_shape(&parts)?;
        if parts.groups.is_empty() && !parts.has_colon {
            return self.take_length(parts.offset);
        }
        self.take_offset(parts.offset)?;
        self.take_line(*found.devices.allocator(), &parts)
    }

    /// A line without what stands before it in the kernel's log, which is the same in all.
    fn without_names<'a>(&mut self, line: &'a str) -> Result<&'a str> {
        if self.names.is_none() && DumpLine::of(line).is_some() {
            return Ok(line);
        }
        match LogLine::of(line) {
            Some(parts) => {
                self.take_names(parts.names)?;
                Ok(parts.dump)
            }
            None => {
                ensure!(
                    self.names.is_none(),
                    "is no line of the dump in the kernel's log"
                );
                Ok(line)
            }
        }
    }

    /// Takes the names of the first line, which the others must have.
    fn take_names(&mut self, names: (&str, &str)) -> Result<()> {
        let alloc = *self.bytes.allocator();
        let (machine, name) = names;
        match &self.names {
            Some(known) => ensure!(
                known.0.as_str() == machine && known.1.as_str() == name,
                "other words stand before its offset than in the lines before it"
            ),
            None => {
                ensure!(
                    self.digits == 0,
                    "words stand before its offset, and not in the lines before it"
                );
                let machine = String::from_str(alloc, machine)?;
                let name = String::from_str(alloc, name)?;
                self.names = Some((machine, name));
            }
        }
        Ok(())
    }

    /// Takes the shape of the first line, which the others must have.
    fn take_shape(&mut self, parts: &DumpLine) -> Result<()> {
        let digits = parts.offset.len();
        if self.digits == 0 {
            self.digits = digits;
            self.has_colon = parts.has_colon;
            self.has_characters = parts.characters.is_some();
            self.radices.push(Radix::Hexadecimal)?;
            if digits == 7 {
                self.radices.push(Radix::Decimal)?;
                self.radices.push(Radix::Octal)?;
            }
        }
        ensure!(
            self.digits == digits && self.has_colon == parts.has_colon,
            "its offset {} isn't written as those before it",
            parts.offset
        );
        if parts.is_wide && !parts.has_colon && matches!(digits, 6 | 7) {
            self.is_wide = true;
        }
        Ok(())
    }

    /// Takes an offset.
    fn take_offset(&mut self, offset: &str) -> Result<()> {
        let count = self.bytes.len();
        self.radices.retain(|radix| radix.writes(offset, count));
        ensure!(
            !self.radices.is_empty(),
            "its offset {offset} isn't the number of bytes before it, {count}"
        );
        Ok(())
    }

    /// Takes the number of all bytes. Words of two bytes have one too many where it is odd.
    fn take_length(&mut self, length: &str) -> Result<()> {
        self.has_length = true;
        let count = self.bytes.len().saturating_sub(1);
        let is_odd = self.has_words()
            && self.bytes.last() == Some(&0)
            && self.radices.iter().any(|radix| radix.writes(length, count));
        if is_odd {
            self.bytes.pop();
        }
        self.take_offset(length)
    }

    /// Takes the bytes of a line, and looks whether its characters are theirs.
    fn take_line(&mut self, alloc: Global, parts: &DumpLine) -> Result<()> {
        let before = self.bytes.len();
        let mut is_cut = false;
        for group in parts.groups.split_whitespace() {
            ensure!(!is_cut, "a group before {group} is cut");
            is_cut = self.take_group(group)?;
        }
        let bytes = self.bytes.get(before..).unwrap_or(&[]);
        ensure!(!bytes.is_empty(), "has no bytes");
        self.last = bytes.len();
        if before == 0 {
            self.first = self.last;
        }
        if !self.has_characters && parts.characters.is_none() {
            return Ok(());
        }
        let characters = parts.characters.unwrap_or("");
        ensure!(
            are_characters(alloc, characters, bytes)?,
            "the characters beside its bytes aren't theirs"
        );
        Ok(())
    }

    /// Takes a group of digits, and answers whether it has fewer than those before it.
    fn take_group(&mut self, group: &str) -> Result<bool> {
        let length = group.len();
        ensure!(
            is_digits(group) && length % 2 == 0,
            "{group} isn't bytes in hexadecimal digits"
        );
        ensure!(
            length <= 4,
            "{group} is more than two bytes: their order isn't sure (xxd -g1, od -t x1)"
        );
        ensure!(
            length == 2 || self.names.is_none(),
            "{group} is more than a byte: the kernel writes it in its processor's order"
        );
        if self.width == 0 {
            self.width = length;
        }
        let is_cut = self.has_colon && length < self.width;
        ensure!(
            length == self.width || is_cut,
            "{group} is of another length than the group before it"
        );
        if group.starts_with("0") || group.bytes().any(|byte| !byte.is_ascii_digit()) {
            self.is_told = true;
        }
        let Ok(number) = u16::from_str_radix(group, 16) else {
            bail!("{group} isn't bytes in hexadecimal digits");
        };
        self.add(number, length)?;
        Ok(is_cut)
    }

    /// Appends the bytes of a group.
    fn add(&mut self, number: u16, length: usize) -> Result<()> {
        let [high, low] = number.to_be_bytes();
        if length == 2 {
            return Ok(self.bytes.push(low)?);
        }
        let (one, other) = if self.has_colon {
            (high, low)
        } else {
            (low, high)
        };
        self.bytes.push(one)?;
        Ok(self.bytes.push(other)?)
    }

    /// Whether its groups are numbers of two bytes, the lower byte first.
    fn has_words(&self) -> bool {
        self.width == 4 && !self.has_colon
    }

    /// Whether the line is missing that is the number of bytes alone: `hexdump` and `od` write it,
    /// and without it only a line that isn't full, with the characters of its bytes, shows where
    /// these end.
    fn lacks_length(&self) -> bool {
        if self.has_length || self.has_colon || self.digits < 6 {
            return false;
        }
        let full = if self.last == self.bytes.len() {
            FULL
        } else {
            self.first
        };
        !self.has_characters || self.has_words() || self.last >= full
    }

    /// Takes the descriptor or the report.
    pub fn end(&mut self, found: &mut Found) -> Result<()> {
        ensure!(
            !self.lacks_length(),
            "the last line isn't there, which is the length alone"
        );
        ensure!(
            !self.is_wide || self.is_told,
            "its numbers may be decimal: no digit shows that they aren't"
        );
        let alloc = *self.bytes.allocator();
        let bytes = mem::replace(&mut self.bytes, Vec::new(alloc));
        if self.wanted == Wanted::Descriptors {
            return found.add_descriptor(0, bytes);
        }
        if !bytes.is_empty() {
            found.add_report(GivenReport::new(bytes))?;
        }
        Ok(())
    }
}
