//! The names that an `enum` of C gives to numbers: `enum { ID = 1, NEXT };`, over several lines.
use crate::names::{Meaning, Names, is_name, name_and_rest};
use crate::values::value_of;
use anyhow::{Result, ensure};
use std::alloc::Global;

/// An `enum` that goes on in the next line.
#[derive(Drop)]
pub struct Enumeration {
    /// Whether its brace has come.
    has_brace: bool,
    /// What stands behind the last comma.
    word: String,
    /// The number of the next name; none where it isn't known.
    next: Option<i64>,
}

/// Whether a line begins an `enum`, whose brace may stand in the next one.
pub fn begins_enumeration(code: &str) -> bool {
    let (word, rest) = name_and_rest(code);
    match word {
        "enum" => is_head(rest),
        "typedef" => {
            let (word, rest) = name_and_rest(rest.trim());
            word == "enum" && is_head(rest)
        }
        _ => false,
    }
}

/// Whether the name of an `enum`, or none, stands before its brace or the end of the line.
fn is_head(text: &str) -> bool {
    let head = text.split_once("{").unwrap_or((text, "")).0.trim();
    head.is_empty() || is_name(head) && name_and_rest(head).1.is_empty()
}

impl Enumeration {
    /// Before the first line.
    pub fn new(alloc: Global) -> Enumeration {
        Enumeration {
            has_brace: false,
            word: String::new(alloc),
            next: Some(0),
        }
    }

    /// Takes a line, and answers whether it is the last.
    pub fn take(&mut self, names: &mut Names, code: &str) -> Result<bool> {
        let inner = if self.has_brace {
            code
        } else {
            let Some((_head, inner)) = code.split_once("{") else {
                return Ok(false);
            };
            self.has_brace = true;
            inner
        };
        let Some((list, behind)) = inner.split_once("}") else {
            self.take_list(names, inner)?;
            self.word.push(' ')?;
            return Ok(false);
        };
        self.take_list(names, list)?;
        self.take_name(names)?;
        let (_name, end) = name_and_rest(behind.trim());
        ensure!(
            matches!(end.trim(), "" | ";"),
            "something stands behind the enum"
        );
        Ok(true)
    }

    /// Takes the names of a line.
    fn take_list(&mut self, names: &mut Names, list: &str) -> Result<()> {
        for letter in list.chars() {
            if letter == ',' {
                self.take_name(names)?;
            } else {
                self.word.push(letter)?;
            }
        }
        Ok(())
    }

    /// Takes a name, with its number or without.
    fn take_name(&mut self, names: &mut Names) -> Result<()> {
        let text = self.word.as_str();
        let (name, told) = text.split_once("=").unwrap_or((text, ""));
        let number = if text.contains("=") {
            value_of(names, told).ok()
        } else {
            self.next
        };
        let name = name.trim();
        if !name.is_empty() {
            let meaning = match number {
                Some(number) => Meaning::Constant(number),
                None => Meaning::Unknown,
            };
            names.give(name, meaning)?;
            self.next = number.map(|number| number.saturating_add(1));
        }
        self.word.clear();
        Ok(())
    }
}
