//! The usages that stand before a main item.
use hidreport::Usage;
use hidreport::hid::LocalItem;
use hidreport::types::UsagePage;

/// The usages since the last main item, as they are counted.
#[derive(Clone, Copy)]
pub struct LocalUsages {
    /// How many there are.
    pub count: u64,
    /// Where the first item of them stands: of a range its minimum.
    pub first_offset: usize,
    /// Whether some are alternatives.
    pub has_sets: bool,
    range_start: u32,
    /// Where the minimum of a range stands, if there is one.
    range_offset: Option<usize>,
    last: u32,
}

impl LocalUsages {
    /// None.
    pub fn new() -> LocalUsages {
        LocalUsages {
            count: 0,
            first_offset: 0,
            has_sets: false,
            range_start: 0,
            range_offset: None,
            last: 0,
        }
    }

    /// Goes over a local item.
    pub fn pass(&mut self, offset: usize, item: LocalItem) {
        match item {
            LocalItem::Usage(page, id) => {
                let last = u32::from(Usage::from_page_and_id(page, id));
                self.add(offset, 1, last);
            }
            LocalItem::UsageId(id) => self.add(offset, 1, u32::from(u16::from(id))),
            LocalItem::UsageMinimum(start) => {
                self.range_start = u32::from(start);
                self.range_offset = Some(offset);
            }
            LocalItem::UsageMaximum(end) => self.pass_end(offset, u32::from(end)),
            LocalItem::Delimiter(_) => self.has_sets = true,
            _ => {}
        }
    }

    /// Goes over a maximum: below its minimum there are no usages.
    fn pass_end(&mut self, offset: usize, end: u32) {
        let behind = u64::from(end).saturating_add(1);
        let more = behind.saturating_sub(u64::from(self.range_start));
        if more != 0 {
            self.add(self.range_offset.unwrap_or(offset), more, end);
        }
    }

    /// Adds usages whose first item stands at an offset.
    fn add(&mut self, offset: usize, more: u64, last: u32) {
        if self.count == 0 || offset < self.first_offset {
            self.first_offset = offset;
        }
        self.count = self.count.saturating_add(more);
        self.last = last;
    }

    /// The last usage, on this page where it has none of its own.
    pub fn last(&self, page: UsagePage) -> Usage {
        if self.last > 0xffff {
            return Usage::from(self.last);
        }
        Usage::from(u32::from(u16::from(page)) << 16 | self.last)
    }
}
