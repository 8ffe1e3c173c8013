//! The usages of one local item, as hosts read them (Section 6.2.2.8).
ghost use Rattle.std.specs.Prelude.{◌≡◌};

use hidreport_fields::Usage;
use hidreport_types::{UsageId, UsagePage};

/// The usages that one local item names, as hosts read them (Section 6.2.2.8): all numbers from the
/// first to the last.
#[derive(Clone, Copy)]
pub(crate) struct UsageSpan {
    /// The page of those without one of their own.
    pub(crate) page: UsagePage,

    pub(crate) first: u32,
    pub(crate) last: u32,

    /// Whether the numbers are ids alone, and else a page and an id each.
    pub(crate) is_short: bool,

    /// Whether a maximum named them.
    pub(crate) is_range: bool,
}

impl UsageSpan {
    ghost use Rattle.std.specs.Prelude.{◌≡◌, ◌+◌, ◌-◌, ◌≤◌, ◌^◌, length};
    ghost use Rattle.hidreport.specs.HostUsages.{lies_on, is_on_one_page, moved_to, own_span, span_to, span_usage, span_usages};

    /// A usage with a page of its own.
    pub(crate) fn of_usage(page: UsagePage, id: UsageId) -> UsageSpan
        ensures { result ≡ own_span page id }
    {
        let number = (u32::from(u16::from(page)) << 16) + u32::from(u16::from(id));
        UsageSpan {
            page: UsagePage::from(0),
            first: number,
            last: number,
            is_short: false,
            is_range: false,
        }
    }

    /// The usages from a number to another. A number that 16 bits hold is an id on this page,
    /// another one has its page above these bits.
    pub(crate) fn up_to(page: UsagePage, first: u32, last: u32, is_range: bool) -> UsageSpan
        ensures { result ≡ span_to page first last is_range }
    {
        UsageSpan {
            page,
            first,
            last,
            is_short: last < 65_536,
            is_range,
        }
    }

    /// How many usages there are.
    pub(crate) fn count(&self) -> u64
        ensures number { result ≡ self.now.last + 1 - self.now.first }
        ensures count { result ≡ length (span_usages self.now) }
        ensures bound { result ≤ 2 ^ 32 }
    {
        (u64::from(self.last) + 1).saturating_sub(u64::from(self.first))
    }

    /// Whether it names a usage, without a page of its own, on this page.
    pub(crate) fn lies_on(&self, page: UsagePage) -> bool
        ensures { result ≡ lies_on page self.now }
    {
        self.is_short && self.page == page && self.first <= self.last
    }

    /// The span on this page, where it has none of its own.
    pub(crate) fn moved_to(self, page: UsagePage) -> UsageSpan
        ensures { result ≡ moved_to page self }
    {
        if self.is_short {
            UsageSpan { page, ..self }
        } else {
            self
        }
    }

    /// Whether all usages lie on one page.
    pub(crate) fn is_on_one_page(&self) -> bool
        ensures { result ≡ is_on_one_page self.now }
    {
        self.is_short || self.first >> 16 == self.last >> 16
    }

    /// The usage with this number.
    pub(crate) fn usage(&self, number: u32) -> Usage
        ensures { result ≡ span_usage self.now number }
    {
        let page = if self.is_short {
            self.page
        } else {
            UsagePage::from((number >> 16) as u16)
        };
        Usage::from_page_and_id(page, UsageId::from((number & 0xffff) as u16))
    }

    /// The usage that stands so far behind the first.
    pub(crate) fn at(&self, behind: u64) -> Usage
        requires { self.now.first + behind ≤ self.now.last }
        ensures { result ≡ span_usage self.now (self.now.first + behind) }
    {
        let last = self.last;
        self.usage(last - (u64::from(last) - u64::from(self.first) - behind) as u32)
    }
}
