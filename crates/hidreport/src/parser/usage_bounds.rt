//! Usages from a minimum to a maximum (Section 6.2.2.8).
ghost use Rattle.std.specs.Prelude.{◌≡◌, ◌%◌, IfOk};
ghost use Rattle.hidreport_fields.specs.UsageRange.{make_usage};

use crate::parser::local_usages::LocalUsage;
use hidreport_fields::Usage;
use hidreport_types::{UsageId, UsagePage};
use std::alloc::{AllocError, Global};

/// A minimum and a maximum of usages, and their page (Section 6.2.2.8). The usages are the low 16
/// bits of each number from the one to the other, each under the page; they aren't listed.
#[derive(Clone, Copy)]
pub(crate) struct UsageBounds {
    pub(crate) page: UsagePage,
    pub(crate) minimum: u32,
    pub(crate) maximum: u32,
}

impl UsageBounds {
    ghost use Rattle.std.specs.Prelude.{◌≡◌, ◌+◌, ◌-◌, ◌<◌, length, map, IfOk, IfSome};
    ghost use Rattle.hidreport.specs.Fields.{usage_at};
    ghost use Rattle.hidreport.specs.Parser.Locals.{usage_under};
    ghost use Rattle.hidreport.specs.Parser.Usages.{between};

    /// Single usages, where they count up on one page: one that names none lies on this one.
    pub(crate) fn counting_up(page: UsagePage, usages: &[LocalUsage]) -> Option<UsageBounds>
        ensures { IfSome result (λ bounds. between bounds ≡ map (usage_under page) usages.now) }
    {
        let first = usages.first()?.under(page);
        let page_of_all = first.usage_page;
        let minimum = u32::from(u16::from(first.usage_id));
        let mut next = minimum;
        for usage in usages {
            let usage = usage.under(page);
            if usage.usage_page != page_of_all || u32::from(u16::from(usage.usage_id)) != next {
                return None;
            }
            next += 1;
        }
        Some(UsageBounds {
            page: page_of_all,
            minimum,
            maximum: next - 1,
        })
    }

    /// How many usages there are.
    pub(crate) fn count(&self) -> u64
        ensures number { result ≡ self.now.maximum + 1 - self.now.minimum }
        ensures count { result ≡ length (between self.now) }
    {
        (u64::from(self.maximum) + 1).saturating_sub(u64::from(self.minimum))
    }

    /// Usage number `c`, or the last one where there are fewer.
    pub(crate) fn at(&self, c: usize) -> Usage
        requires { 0 < length (between self.now) }
        ensures { result ≡ usage_at (between self.now) c }
    {
        let behind = c.min((self.maximum - self.minimum) as usize);
        usage_of(self.page, self.minimum + behind as u32)
    }

    /// All of them in a list, for which the room is asked at once.
    pub(crate) fn list(&self, alloc: Global) -> Result<Vec<Usage>, AllocError>
        ensures { IfOk result (λ list. list.items ≡ between self.now) }
    {
        let count = self.count() as usize;
        let mut list = Vec::with_capacity(alloc, count)?;
        for behind in 0..count {
            list.push_reserved(usage_of(self.page, self.minimum + behind as u32));
        }
        Ok(list)
    }
}

/// The usage with the low 16 bits of this number on the page.
fn usage_of(page: UsagePage, number: u32) -> Usage
    ensures { result ≡ make_usage page (number % 65536) }
{
    Usage::from_page_and_id(page, UsageId::from((number & 0xffff) as u16))
}
