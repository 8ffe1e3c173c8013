//! The elements of an array of C: numbers of a byte each, and items in macros.
use crate::macro_call::add_call;
use crate::names::{Names, is_name};
use crate::number_list::NumberList;
use crate::values::value_of;
use anyhow::{Result, bail, ensure};
use hid_macros::{ANY_COLLECTION, Arguments, Macro, ReportMacro, bpf_around, is_of_usage};
use std::alloc::Global;

/// The macro behind whose parentheses no comma has to stand, since TinyUSB's has one in itself.
const WITH_COMMA: &str = "HID_REPORT_ID";

/// What stands in parentheses that are open.
#[derive(Clone, Copy, PartialEq)]
enum Inside {
    /// None are open, but for those of macros around others.
    Nothing,

    /// The arguments of a macro.
    Arguments,

    /// The kind of a collection, and others behind it.
    Kind,

    /// The type that a number is cast to.
    Cast,
}

/// The types of C, Java and C# that a number may be cast to.
static BYTE_TYPES: [&str; 11] = [
    "byte",
    "sbyte",
    "BYTE",
    "char",
    "signed char",
    "unsigned char",
    "uint8_t",
    "int8_t",
    "u8",
    "__u8",
    "uint8",
];

/// The elements of a list so far.
#[derive(Drop)]
pub struct ItemList {
    numbers: NumberList,
    /// What stands behind the last comma, where it goes on in the next line.
    word: String,
    /// Whether a space stands in it.
    has_space: bool,
    inside: Inside,
    /// How many parentheses are open in a macro's arguments.
    depth: usize,
    /// How many bytes of data have to stand behind the macro of an item's first byte.
    owed: usize,
    /// The last byte of each macro around others that has no end yet.
    ends: Vec<u8>,
}

impl ItemList {
    /// A list without elements.
    pub fn new(alloc: Global) -> ItemList {
        ItemList {
            numbers: NumberList::new(alloc, true),
            word: String::new(alloc),
            has_space: false,
            inside: Inside::Nothing,
            depth: 0,
            owed: 0,
            ends: Vec::new(alloc),
        }
    }

    /// Takes the elements of a line of the list, in which names may stand for numbers.
    pub fn add(&mut self, names: &Names, part: &str) -> Result<()> {
        for letter in part.chars() {
            match letter {
                ',' => self.take_comma(names)?,
                '(' => self.take_opening()?,
                ')' => self.take_closing(names)?,
                _ if letter.is_whitespace() => self.take_space(names)?,
                _ => self.word.push(letter)?,
            }
        }
        if self.inside != Inside::Nothing {
            self.word.push(' ')?;
            return Ok(());
        }
        self.take_word(names)
    }

    /// Takes a comma: between elements, between arguments, or behind the kind of a collection.
    fn take_comma(&mut self, names: &Names) -> Result<()> {
        match self.inside {
            Inside::Nothing => {
                self.take_word(names)?;
                self.numbers.take_comma()
            }
            Inside::Arguments | Inside::Cast => Ok(self.word.push(',')?),
            Inside::Kind => self.begin_kind(names),
        }
    }

    /// Takes a space: behind a macro without arguments that ends in a comma it ends the word.
    fn take_space(&mut self, names: &Names) -> Result<()> {
        if self.inside == Inside::Nothing && !self.has_space {
            if self.word.is_empty() {
                return Ok(());
            }
            if is_of_usage(self.word.as_str()) {
                return self.take_word(names);
            }
        }
        self.has_space = true;
        Ok(self.word.push(' ')?)
    }

    /// Takes the parenthesis behind a macro's name, or one in its arguments.
    fn take_opening(&mut self) -> Result<()> {
        if self.inside == Inside::Arguments {
            self.depth = self.depth.saturating_add(1);
            return Ok(self.word.push('(')?);
        }
        ensure!(self.inside == Inside::Nothing, "a ( stands in parentheses");
        let name = self.word.as_str().trim();
        if name.is_empty() {
            self.inside = Inside::Cast;
            return Ok(());
        }
        if name == ANY_COLLECTION {
            self.inside = Inside::Kind;
            self.word.clear();
            return Ok(());
        }
        if let Some((header, kind)) = bpf_around(name) {
            return self.begin(header, kind);
        }
        self.inside = Inside::Arguments;
        Ok(self.word.push('(')?)
    }

    /// Takes the end of parentheses.
    fn take_closing(&mut self, names: &Names) -> Result<()> {
        match self.inside {
            Inside::Arguments => {
                self.word.push(')')?;
                if self.depth > 0 {
                    self.depth = self.depth.saturating_sub(1);
                    return Ok(());
                }
                self.inside = Inside::Nothing;
                return self.take_own_comma(names);
            }
            Inside::Cast => return self.end_cast(),
            Inside::Kind => self.begin_kind(names)?,
            Inside::Nothing => {}
        }
        let Some(end) = self.ends.pop() else {
            bail!("no ( stands before a )");
        };
        self.take_word(names)?;
        self.check_owed(")")?;
        self.numbers.take_item(")", &[end])?;
        self.numbers.take_comma()
    }

    /// Takes the type that a number is cast to.
    fn end_cast(&mut self) -> Result<()> {
        let name = self.word.as_str().trim();
        ensure!(BYTE_TYPES.contains(&name), "({name}) is no type of a byte");
        self.inside = Inside::Nothing;
        self.clear();
        Ok(())
    }

    /// Takes the kind of a collection.
    fn begin_kind(&mut self, names: &Names) -> Result<()> {
        self.inside = Inside::Nothing;
        let kind = self.word.as_str().trim();
        match u8::try_from(value_of(names, kind)?) {
            Ok(kind) => self.begin(0xa1, Some(kind)),
            Err(_great) => bail!("{kind} is no kind of a collection"),
        }
    }

    /// Takes the bytes before what stands in a macro around it.
    fn begin(&mut self, header: u8, kind: Option<u8>) -> Result<()> {
        self.clear();
        self.check_owed("a collection")?;
        let end = match kind {
            Some(kind) => {
                self.numbers.take_item("a collection", &[header, kind])?;
                0xc0
            }
            None => {
                self.numbers.take_item("PushPop", &[header])?;
                0xb4
            }
        };
        self.ends.push(end)?;
        self.numbers.take_comma()
    }

    /// Takes the macro of a Report ID, behind which no comma has to stand, or one that has its own.
    fn take_own_comma(&mut self, names: &Names) -> Result<()> {
        let name = name_of(self.word.as_str());
        if name == WITH_COMMA {
            self.take_word(names)?;
            self.numbers.needs_no_comma();
        } else if ends_in_comma(name) {
            self.take_word(names)?;
        }
        Ok(())
    }

    /// Takes what stands before a comma.
    fn take_word(&mut self, names: &Names) -> Result<()> {
        let word = self.word.as_str().trim();
        if let Some(value) = names.number(word) {
            self.owed = self.owed.saturating_sub(1);
            self.numbers.take_value(word, value)?;
        } else if is_name(word) {
            let mut bytes = Vec::new(*self.word.allocator());
            add_call(&mut bytes, names, word)?;
            self.owed = owed_behind(self.owed, word, &bytes)?;
            self.numbers.take_item(word, &bytes)?;
            if ends_in_comma(name_of(word)) {
                self.numbers.take_comma()?;
            }
        } else if !word.is_empty() {
            self.owed = self.owed.saturating_sub(1);
            self.numbers.take_number(word)?;
        }
        self.clear();
        Ok(())
    }

    /// Refuses an item where data of the one before it have to stand.
    fn check_owed(&self, word: &str) -> Result<()> {
        ensure!(self.owed == 0, "the item before {word} lacks data");
        Ok(())
    }

    /// Forgets the word.
    fn clear(&mut self) {
        self.word.clear();
        self.has_space = false;
    }

    /// The bytes so far; the list has none from here on.
    pub fn taken(&mut self) -> Result<Vec<u8>> {
        ensure!(
            self.inside == Inside::Nothing && self.ends.is_empty(),
            "parentheses have no end"
        );
        ensure!(self.owed == 0, "the last item lacks data");
        Ok(self.numbers.taken())
    }
}

/// Whether elements begin so: with a number, with a type that one is cast to, or with an item.
pub fn begins_as_element(text: &str) -> bool {
    text.starts_with(|letter: char| letter.is_ascii_digit() || letter == '(')
        || begins_as_item(text)
}

/// Whether a text begins with an item in a macro that is known.
pub fn begins_as_item(text: &str) -> bool {
    let is_behind = |letter: char| letter.is_whitespace() || matches!(letter, '(' | ',');
    let name = text.split(is_behind).next().unwrap_or("");
    name == ANY_COLLECTION
        || is_of_usage(name)
        || Macro::named(name).is_some()
        || ReportMacro::named(name).is_some()
        || bpf_around(name).is_some()
}

/// How many bytes of data have to stand behind a macro, before which some had to.
fn owed_behind(owed: usize, word: &str, bytes: &[u8]) -> Result<usize> {
    let arguments = match Macro::named(name_of(word)) {
        Some(known) => known.arguments,
        None => Arguments::Number,
    };
    if arguments == Arguments::Half {
        return Ok(owed.saturating_sub(1));
    }
    ensure!(owed == 0, "the item before {word} lacks data");
    // A macro that writes data, too, writes more bytes than one.
    Ok(match bytes {
        [first] if first & 3 == 3 => 4,
        [first] => usize::from(first & 3),
        _ => 0,
    })
}

/// A macro's name, without its arguments.
fn name_of(word: &str) -> &str {
    word.split_once("(").unwrap_or((word, "")).0.trim()
}

/// Whether the macro with this name ends in a comma of its own.
fn ends_in_comma(name: &str) -> bool {
    match Macro::named(name) {
        Some(known) => known.arguments.end_in_comma(),
        None => false,
    }
}
