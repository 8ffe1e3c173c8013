//! The usage that a word names.
use hid_words::{add_usage, add_usage_on_page, plain_number};
use hidreport::Usage;
use hidreport::types::UsagePage;
use hidreport_usages::{page_by_name, usage_on_page};
use std::alloc::{AllocError, Global};

/// A word that names usages: a name in any case, with its page before it or without, a number
/// behind `0x` as it is shown for a usage without a name, or the eight digits of page and id.
#[derive(Clone, Copy)]
pub struct WantedUsage<'a> {
    name: &'a str,
    /// The usage by its eight digits, or by its page's name and its own, as a number.
    usage: Option<u32>,
    /// Its id by its number.
    id: Option<u16>,
    /// The page that was looked at last, and the id that the name has there.
    page: Option<u16>,
    id_on_page: Option<u16>,
    /// Whether names are looked at in any case.
    is_any_case: bool,
}

impl<'a> WantedUsage<'a> {
    /// The usages that a word names.
    pub fn new(name: &'a str) -> WantedUsage<'a> {
        WantedUsage {
            name,
            usage: by_digits(name).or(by_page(name)),
            id: by_number(name),
            page: None,
            id_on_page: None,
            is_any_case: false,
        }
    }

    /// The same, by names in any case.
    pub fn in_any_case(name: &'a str) -> WantedUsage<'a> {
        WantedUsage {
            is_any_case: true,
            ..WantedUsage::new(name)
        }
    }

    /// This usage.
    pub fn of(usage: Usage) -> WantedUsage<'a> {
        WantedUsage {
            usage: Some(u32::from(usage)),
            ..WantedUsage::new("")
        }
    }

    /// The first of these usages that the word names.
    pub fn find(&mut self, alloc: Global, usages: &[Usage]) -> Result<Option<Usage>, AllocError> {
        for usage in usages {
            if self.is_of(*usage) || self.is_any_case && self.is_like(alloc, *usage)? {
                return Ok(Some(*usage));
            }
        }
        Ok(None)
    }

    /// Whether the word is this usage's name in any case, with its page or without.
    fn is_like(&self, alloc: Global, usage: Usage) -> Result<bool, AllocError> {
        let mut paged = String::new(alloc);
        add_usage(&mut paged, usage)?;
        let mut own = String::new(alloc);
        add_usage_on_page(&mut own, usage)?;
        Ok(
            paged.as_str().eq_ignore_ascii_case(self.name)
                || own.as_str().eq_ignore_ascii_case(self.name),
        )
    }

    /// Whether the word names this usage.
    fn is_of(&mut self, usage: Usage) -> bool {
        let (page, id) = (u16::from(usage.usage_page), u16::from(usage.usage_id));
        if self.page != Some(page) {
            self.page = Some(page);
            self.id_on_page = usage_on_page(usage.usage_page, self.name).map(u16::from);
        }
        self.usage == Some(u32::from(usage)) || self.id == Some(id) || self.id_on_page == Some(id)
    }
}

/// A usage by its eight digits.
fn by_digits(name: &str) -> Option<u32> {
    if name.len() != 8 {
        return None;
    }
    u32::from_str_radix(name, 16).ok()
}

/// A usage by the name or the number of its page and its own.
fn by_page(name: &str) -> Option<u32> {
    let (page, name) = name.split_once(" / ")?;
    let page = match page_by_name(page) {
        Some(page) => u16::from(page),
        None => by_number(page)?,
    };
    let id = match usage_on_page(UsagePage::from(page), name) {
        Some(id) => u16::from(id),
        None => by_number(name)?,
    };
    Some(u32::from(page) * 0x1_0000 + u32::from(id))
}

/// A number of a page or a usage behind `0x`.
fn by_number(name: &str) -> Option<u16> {
    if !name.starts_with("0x") {
        return None;
    }
    u16::try_from(plain_number(name)?).ok()
}
