//! The names that a source gives to numbers, by `#define` or `enum`, and those that are told from
//! outside of it.
use anyhow::{Result, ensure};
use std::alloc::Global;
use std::collections::BTreeMap;

/// What a name stands for.
#[derive(Clone, Copy, PartialEq)]
pub enum Meaning {
    /// A number, by `#define`.
    Macro(i64),

    /// Something else, or nothing, by `#define`.
    Text,

    /// A number, by `enum`.
    Constant(i64),

    /// A number of `enum` that isn't known.
    Unknown,
}

/// The names of a source so far.
#[derive(Drop)]
pub struct Names {
    alloc: Global,
    meanings: BTreeMap<String, Meaning>,
}

impl Names {
    /// Those of a source that gives none yet.
    pub fn new(alloc: Global) -> Names {
        Names {
            alloc,
            meanings: BTreeMap::new(alloc),
        }
    }

    /// What a name stands for, where it stands for something.
    pub fn meaning(&self, name: &str) -> Option<Meaning> {
        match self.meanings.get(name) {
            Some(meaning) => Some(*meaning),
            None => None,
        }
    }

    /// The number that a name stands for.
    pub fn number(&self, name: &str) -> Option<i64> {
        match self.meaning(name)? {
            Meaning::Macro(number) => Some(number),
            Meaning::Constant(number) => Some(number),
            Meaning::Text | Meaning::Unknown => None,
        }
    }

    /// Whether a name is defined, as `#ifdef` asks.
    pub fn is_defined(&self, name: &str) -> bool {
        match self.meaning(name) {
            Some(meaning) => matches!(meaning, Meaning::Macro(_) | Meaning::Text),
            None => false,
        }
    }

    /// Gives a name what it stands for; one that it has already is given again if it is the same.
    pub fn give(&mut self, name: &str, meaning: Meaning) -> Result<()> {
        ensure!(is_whole_name(name), "{name} is no name of C");
        if let Some(own) = self.meaning(name) {
            ensure!(own == meaning, "{name} stands for something else already");
            return Ok(());
        }
        let name = String::from_str(self.alloc, name)?;
        self.meanings.entry(name)?.or_insert(meaning);
        Ok(())
    }
}

/// Whether a word begins as a name of C does.
pub fn is_name(word: &str) -> bool {
    word.starts_with(|letter: char| letter.is_ascii_alphabetic() || letter == '_')
}

/// Whether a word is a name of C, and no more.
pub fn is_whole_name(word: &str) -> bool {
    is_name(word)
        && word
            .bytes()
            .all(|byte| byte.is_ascii_alphanumeric() || byte == b'_')
}

/// The name that a text begins with, or an empty one, and what stands behind it.
pub fn name_and_rest(text: &str) -> (&str, &str) {
    for (place, letter) in text.char_indices() {
        if !letter.is_ascii_alphanumeric() && letter != '_' {
            let name = text.get(..place).unwrap_or("");
            return (name, text.get(place..).unwrap_or(""));
        }
    }
    (text, "")
}
