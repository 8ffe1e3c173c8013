//! The usages before a main item that are of its page, though they stand under another.
use hid_words::add_page;
use hidreport::hid::{GlobalItem, ItemType, LocalItem, MainItem};
use hidreport::types::UsagePage;
use hidreport::{ParseOptions, PushKeeps, UsagesBy};
use std::alloc::{AllocError, Global};
use std::fmt::Write;

/// A usage, or a range of them, without a page of its own.
#[derive(Clone, Copy)]
struct StoodUsage {
    /// The page that it stands under.
    page: UsagePage,
    /// Whether hosts leave it out, as an alternative.
    is_other_choice: bool,
}

/// The usages without a page of their own that wait for a main item (Section 6.2.2.8).
#[derive(Drop)]
pub struct StoodUsages {
    usages: Vec<StoodUsage>,
    minimum: u32,
    sets: usize,
    options: ParseOptions,
    /// Whether all are known: not behind a Push that keeps local items.
    is_known: bool,
}

impl StoodUsages {
    /// Before the first item of a descriptor that is read as asked for.
    pub fn new(alloc: Global, options: ParseOptions) -> StoodUsages {
        StoodUsages {
            usages: Vec::new(alloc),
            minimum: 0,
            sets: 0,
            options,
            is_known: true,
        }
    }

    /// Goes over an item that stands under a page.
    pub fn pass(&mut self, item: &ItemType, page: UsagePage) -> Result<(), AllocError> {
        match item {
            ItemType::Local(LocalItem::UsageId(_id)) => self.add(page)?,
            ItemType::Local(LocalItem::UsageMinimum(number)) => self.minimum = u32::from(number),
            ItemType::Local(LocalItem::UsageMaximum(number)) => {
                let maximum = u32::from(number);
                if self.minimum <= maximum && maximum <= u32::from(u16::MAX) {
                    self.add(page)?;
                }
            }
            ItemType::Local(LocalItem::Delimiter(number)) => {
                if u32::from(number) != 0 {
                    self.sets = self.sets.saturating_add(1);
                }
            }
            ItemType::Main(_) => {
                self.usages.clear();
                self.minimum = 0;
                self.sets = 0;
            }
            ItemType::Global(GlobalItem::Push) => {
                self.is_known = self.is_known && self.options.push_keeps == PushKeeps::Globals;
            }
            _ => {}
        }
        Ok(())
    }

    fn add(&mut self, page: UsagePage) -> Result<(), AllocError> {
        let is_other_choice = self.sets > 1;
        Ok(
            self.usages.push(StoodUsage {
                page,
                is_other_choice,
            })?,
        )
    }

    /// What is said at a main item with a page in force: how many items before it are of this page
    /// though they stand under another, by the rule that was asked for, and where the two differ.
    pub fn remark(
        &self,
        alloc: Global,
        item: &ItemType,
        page: UsagePage,
    ) -> Result<Option<String>, AllocError> {
        let (ItemType::Main(MainItem::Input(_))
        | ItemType::Main(MainItem::Output(_))
        | ItemType::Main(MainItem::Feature(_))
        | ItemType::Main(MainItem::Collection(_))) = item
        else {
            return Ok(None);
        };
        let (hosts, standard) = (self.moved_by_hosts(page), self.moved_by_standard(page));
        if !self.is_known || standard == 0 {
            return Ok(None);
        }
        let mut text = String::new(alloc);
        let (own, other) = match self.options.usages {
            UsagesBy::Hosts => (hosts, standard),
            UsagesBy::Standard => (standard, hosts),
        };
        text.push_str("usage items before it that take the page in force here (")?;
        add_page(&mut text, page)?;
        write!(text, "): {own}")?;
        if own != other {
            let whose = match self.options.usages {
                UsagesBy::Hosts => "by the letter of the standard",
                UsagesBy::Standard => "to hosts",
            };
            write!(text, "; {whose} {other}")?;
        }
        text.push_str(" (Section 6.2.2.8)")?;
        Ok(Some(text))
    }

    /// Hosts ask from the last back, until one stands under the page.
    fn moved_by_hosts(&self, page: UsagePage) -> usize {
        self.usages
            .iter()
            .rev()
            .filter(|usage| !usage.is_other_choice)
            .take_while(|usage| usage.page != page)
            .count()
    }

    /// By the letter of the standard all are of the page.
    fn moved_by_standard(&self, page: UsagePage) -> usize {
        self.usages
            .iter()
            .filter(|usage| usage.page != page)
            .count()
    }
}
