//! `hid compile`: a descriptor's bytes from the text that `hid decode` writes, or one as the standard
//! writes its examples.
use crate::nearest_words::add_nearest_words;
use crate::written_flags::flags_said;
use anyhow::{Context, Result, bail};
use hid_forms::bytes_of_hex;
use hid_input::advice::check_length;
use hid_input::input::text_named;
use hid_input::linux_read::mended;
use hid_input::settings::{ReadAs, Settings};
use hid_input::world::World;
use hid_items::items::{ItemCursor, ItemState, PlacedItem};
use hid_output::ending::Ending;
use hid_output::escaped;
use hid_targets::Target;
use hid_words::{FlagTable, add_item, item_of_words, number_of, plain_number};
use hidreport_items::write_item;
use std::alloc::{AllocError, Global};

/// Writes the descriptor that a text says.
#[derive(Clone, Copy)]
pub struct Compile<'a> {
    /// The text's input.
    pub text: &'a str,
    /// What its bytes are written as.
    pub target: Target,
}

/// A descriptor so far.
#[derive(Drop)]
struct Compiled {
    alloc: Global,
    bytes: Vec<u8>,
    state: ItemState,
    flags: FlagTable,
}

/// A line without its offset and its remark.
#[derive(Clone, Copy)]
struct Line<'a> {
    digits: &'a str,
    words: &'a str,
}

impl<'a> Compile<'a> {
    /// Writes the bytes of all lines.
    pub fn run<R: World>(&self, rt: &R, settings: &Settings) -> Result<Ending> {
        let bytes = self.compiled(rt)?;
        self.write(rt, settings, &bytes)?;
        Ok(Ending::Done)
    }

    /// The bytes of all lines.
    fn compiled<R: World>(&self, rt: &R) -> Result<Vec<u8>> {
        let text = text_named(rt, self.text)?;
        let mut compiled = Compiled::new(rt.alloc())?;
        compiled.take(&text)?;
        Ok(compiled.bytes)
    }

    /// Writes bytes, or what Linux makes of them.
    fn write<R: World>(&self, rt: &R, settings: &Settings, bytes: &[u8]) -> Result<()> {
        check_length(settings, bytes)?;
        if settings.read_as == Some(ReadAs::Linux) {
            let device = mended(rt, settings, self.text, bytes)?;
            return self.target.write(rt, settings, device.bytes());
        }
        self.target.write(rt, settings, bytes)
    }
}

impl Compiled {
    /// Before the first line.
    fn new(alloc: Global) -> Result<Compiled, AllocError> {
        Ok(Compiled {
            alloc,
            bytes: Vec::new(alloc),
            state: ItemState::new(alloc),
            flags: FlagTable::new(alloc)?,
        })
    }

    /// Takes all lines of a text.
    fn take(&mut self, text: &str) -> Result<()> {
        for (line, number) in text.lines().zip(1usize..) {
            self.add_text(line).context(format_args!("line {number}"))?;
        }
        Ok(())
    }

    /// Takes a line of text. One that is empty, a remark behind `//` or `;` and the line of a fault
    /// say nothing.
    fn add_text(&mut self, text: &str) -> Result<()> {
        let text = match text.split_once("//") {
            Some((text, _remark)) => text.trim(),
            None => text.trim(),
        };
        let text = without_remark(text).trim();
        let text = text.strip_suffix(",").unwrap_or(text);
        if is_fault(text) {
            return Ok(());
        }
        self.add_line(line_of(text))
    }

    /// Takes a line: bytes that stand alone as they are, else one item.
    fn add_line(&mut self, line: Line) -> Result<()> {
        let stood = match bytes_of_hex(self.alloc, line.digits)? {
            Some(bytes) => bytes,
            None => Vec::new(self.alloc),
        };
        if line.words.is_empty() {
            return Ok(self.bytes.extend_from_slice(&stood)?);
        }
        if stood.is_empty() {
            return match written_number(self.alloc, line.words)? {
                Some(words) => self.add_words(&words, line.words),
                None => self.add_words(line.words, line.words),
            };
        }
        self.add_item_bytes(&stood, line.words)
    }

    /// Takes the bytes of an item whose words stand behind them.
    fn add_item_bytes(&mut self, bytes: &[u8], words: &str) -> Result<()> {
        let mut cursor = ItemCursor::new(bytes);
        let Some(entry) = cursor.next() else {
            bail!("the bytes are no item");
        };
        if !cursor.rest().is_empty() {
            bail!("the bytes are more than an item");
        }
        self.check_words(&entry, words)?;
        self.bytes.extend_from_slice(bytes)?;
        Ok(self.state.pass(&entry)?)
    }

    /// Refuses words that aren't those of an item.
    fn check_words(&self, entry: &PlacedItem, words: &str) -> Result<()> {
        let own = self.words_of(entry)?;
        if !are_same_words(own.as_str(), words) {
            let words = escaped(self.alloc, words)?;
            bail!("the bytes say '{own}', and the words '{words}'");
        }
        Ok(())
    }

    /// Takes the item that words say; a refusal has them as they are written.
    fn add_words(&mut self, words: &str, said: &str) -> Result<()> {
        let Some(item) = item_of_words(words, self.state.page(), &self.flags) else {
            return self.refuse_words(said);
        };
        let written = write_item(&item);
        let entry = PlacedItem {
            offset: self.bytes.len(),
            bytes: written.as_slice(),
            item,
        };
        self.check_said(&entry, words, said)?;
        self.bytes.extend_from_slice(entry.bytes)?;
        Ok(self.state.pass(&entry)?)
    }

    /// Refuses words that say no item.
    fn refuse_words(&self, said: &str) -> Result<()> {
        let mut nearest = String::new(self.alloc);
        add_nearest_words(&mut nearest, said, self.state.page())?;
        let words = escaped(self.alloc, said)?;
        bail!("'{words}' is no item{nearest}")
    }

    /// Refuses words that say an item otherwise than it reads.
    fn check_said(&self, entry: &PlacedItem, words: &str, said: &str) -> Result<()> {
        let own = self.words_of(entry)?;
        let is_said = are_same_words(own.as_str(), words) || is_number_of(words, entry);
        if !is_said || entry.bytes.is_empty() {
            let words = escaped(self.alloc, said)?;
            bail!("'{words}' can't be said: the item would be '{own}'");
        }
        Ok(())
    }

    /// An item in words.
    fn words_of(&self, entry: &PlacedItem) -> Result<String, AllocError> {
        let mut words = String::new(self.alloc);
        add_item(&mut words, &entry.item, self.state.page())?;
        Ok(words)
    }
}

/// The words of a data item with a number in place of flags that are written as in the standard.
fn written_number(alloc: Global, words: &str) -> Result<Option<String>, AllocError> {
    let Some((name, told)) = words.split_once("(") else {
        return Ok(None);
    };
    let name = name.trim();
    if !["Input", "Output", "Feature"]
        .iter()
        .any(|own| own.eq_ignore_ascii_case(name))
    {
        return Ok(None);
    }
    match told.trim().strip_suffix(")").and_then(flags_said) {
        Some(flags) => Ok(Some(format!(in alloc; "{name} ({flags})")?)),
        None => Ok(None),
    }
}

/// What of a line stands before a `;` that is in no parentheses.
fn without_remark(line: &str) -> &str {
    let mut depth = 0usize;
    for (place, letter) in line.char_indices() {
        match letter {
            '(' => depth = depth.saturating_add(1),
            ')' => depth = depth.saturating_sub(1),
            ';' if depth == 0 => return line.get(..place).unwrap_or(line),
            _ => {}
        }
    }
    line
}

/// Whether what stands in parentheses is the item's number, as digits.
fn is_number_of(words: &str, entry: &PlacedItem) -> bool {
    let Some((_name, told)) = words.split_once("(") else {
        return false;
    };
    match told
        .trim()
        .strip_suffix(")")
        .and_then(|told| plain_number(told.trim()))
    {
        Some(number) => number_of(&entry.item) == Some(i64::from(number)),
        None => false,
    }
}

/// Whether words are the same, spaces and case apart.
fn are_same_words(first: &str, second: &str) -> bool {
    let first = first.chars().filter(|letter| !letter.is_whitespace());
    let second = second.chars().filter(|letter| !letter.is_whitespace());
    first
        .map(|letter| letter.to_ascii_lowercase())
        .eq(second.map(|letter| letter.to_ascii_lowercase()))
}

/// Whether a line is that of a fault: an offset and `!`, or `!` alone.
fn is_fault(line: &str) -> bool {
    match line.split_once("!") {
        Some((offset, _remark)) => offset.bytes().all(|digit| digit.is_ascii_digit()),
        None => false,
    }
}

/// A line's bytes and words, without its offset and its depth.
fn line_of(line: &str) -> Line<'_> {
    let line = match line.split_once(":") {
        Some((offset, rest)) if is_number(offset) => rest.trim_start(),
        _ => line,
    };
    let mut end = 0usize;
    for word in line.split(" ") {
        if !is_byte(word) {
            break;
        }
        end = end.saturating_add(word.len() + 1);
    }
    let end = end.min(line.len());
    let words = line.get(end..).unwrap_or("").trim_start();
    let words = match words.split_once("> ") {
        Some((depth, words)) if is_number(depth) => words,
        _ => words,
    };
    Line {
        digits: line.get(..end).unwrap_or(""),
        words,
    }
}

fn is_number(text: &str) -> bool {
    !text.is_empty() && text.bytes().all(|digit| digit.is_ascii_digit())
}

/// Whether a word is two hexadecimal digits.
fn is_byte(word: &str) -> bool {
    word.len() == 2 && word.bytes().all(|digit| digit.is_ascii_hexdigit())
}
