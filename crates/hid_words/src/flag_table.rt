//! The flags of data items by their words.
use hidreport::hid::{ItemType, MainItem};
use hidreport_items::read_item;
use hidreport_usages::FlagWords;
use std::alloc::{AllocError, Global};
use std::fmt::Write;

/// The header of a Feature with two bytes of data, which has all flags.
const FEATURE: u8 = 0xb2;

/// A word, and the flag that it says is set; 0 where it says that one isn't.
#[derive(Drop)]
struct FlagWord {
    word: String,
    flag: u16,
}

/// The words of all flags.
#[derive(Drop)]
pub struct FlagTable {
    words: Vec<FlagWord>,
}

impl FlagTable {
    /// The words that `FlagWords` has for an item without flags, and for one with each flag alone.
    pub fn new(alloc: Global) -> Result<FlagTable, AllocError> {
        let mut table = FlagTable {
            words: Vec::new(alloc),
        };
        table.add_flag(alloc, 0)?;
        for bit in 0..9u32 {
            table.add_flag(alloc, 1 << bit)?;
        }
        Ok(table)
    }

    /// Takes the words of an item that has this flag alone, but for those that are known.
    fn add_flag(&mut self, alloc: Global, flag: u16) -> Result<(), AllocError> {
        let all = words_of(alloc, flag)?;
        for word in all.as_str().split(",") {
            if self.flag_of(word).is_none() {
                let word = String::from_str(alloc, word)?;
                self.words.push(FlagWord { word, flag })?;
            }
        }
        Ok(())
    }

    /// The flag of a word.
    fn flag_of(&self, word: &str) -> Option<u16> {
        for own in self.words.iter() {
            if own.word.as_str().eq_ignore_ascii_case(word) {
                return Some(own.flag);
            }
        }
        None
    }

    /// The flags that words with commas between them say.
    pub fn flags_of(&self, words: &str) -> Option<u16> {
        let mut flags = 0u16;
        for word in words.split(",") {
            flags |= self.flag_of(word.trim())?;
        }
        Some(flags)
    }
}

/// The words of a Feature with these flags.
fn words_of(alloc: Global, flags: u16) -> Result<String, AllocError> {
    let mut words = String::new(alloc);
    if let Ok(ItemType::Main(item)) = read_item(FEATURE, &flags.to_le_bytes()) {
        if let MainItem::Feature(item) = item {
            write!(words, "{}", FlagWords::from(&item))?;
        }
    }
    Ok(words)
}
