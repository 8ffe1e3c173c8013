//! The usages before a main item as Chromium finds them: each on the page that is in force at it.
use hidreport::Usage;
use hidreport::hid::LocalItem;
use hidreport::types::UsagePage;
use std::alloc::{AllocError, Global};

/// The usages since the last main item.
#[derive(Drop)]
pub struct Locals {
    /// The single ones.
    pub usages: Vec<u32>,
    minimum: Option<u32>,
    maximum: Option<u32>,
}

impl Locals {
    /// None.
    pub fn new(alloc: Global) -> Locals {
        Locals {
            usages: Vec::new(alloc),
            minimum: None,
            maximum: None,
        }
    }

    /// Goes over a local item at which this page is in force.
    pub fn pass(&mut self, page: UsagePage, item: &LocalItem) -> Result<(), AllocError> {
        match item {
            LocalItem::Usage(own, id) => {
                let usage = u32::from(Usage::from_page_and_id(*own, *id));
                Ok(self.usages.push(on_page(page, usage))?)
            }
            LocalItem::UsageId(id) => {
                Ok(self.usages.push(on_page(page, u32::from(u16::from(id))))?)
            }
            LocalItem::UsageMinimum(start) => {
                self.minimum = Some(on_page(page, u32::from(start)));
                Ok(())
            }
            LocalItem::UsageMaximum(end) => {
                self.maximum = Some(on_page(page, u32::from(end)));
                Ok(())
            }
            _ => Ok(()),
        }
    }

    /// Forgets all.
    pub fn clear(&mut self) {
        self.usages.clear();
        self.minimum = None;
        self.maximum = None;
    }

    /// The bounds of the last range.
    pub fn range(&self) -> Option<(u32, u32)> {
        Some((self.minimum?, self.maximum?))
    }

    /// The first single usage, else the range's; 0 where there is none.
    pub fn first(&self) -> u32 {
        match self.usages.first() {
            Some(usage) => *usage,
            None => self.range().map_or(0, |(start, _end)| start),
        }
    }
}

/// A usage by its number, which has a page above 16 bits or is on this one.
fn on_page(page: UsagePage, number: u32) -> u32 {
    if number > 0xffff {
        return number;
    }
    u32::from(u16::from(page)) << 16 | number
}
