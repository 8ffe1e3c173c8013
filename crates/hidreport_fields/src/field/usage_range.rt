//! Ranges of usages.
ghost use Rattle.std.specs.Prelude.{◌≡◌, IfSome, option_copied};
ghost use Rattle.hidreport_fields.specs.UsageNumber.{usage_number};
ghost use Rattle.hidreport_fields.specs.UsageRange.{is_id_within, usage_within, usage_with_id};

use crate::field::usage::Usage;
use hidreport_types::{UsageId, UsageMaximum, UsageMinimum};
use std::marker::Model;

/// The usages from a minimum to a maximum, both included, on one page (Section 6.2.2.8).
///
/// The page is that of the minimum. Where the minimum's id is above the maximum's, no usage lies
/// in the range.
#[derive(Debug, Drop)]
pub struct UsageRange {
    first: Usage,
    last: Usage,
}

impl Model for UsageRange {
    ghost use Rattle.hidreport_fields.specs.UsageRange.{RangeRecord};

    ghost Value = { RangeRecord };

    ghost view = { λ r. record { first = r.first; last = r.last } };
}

impl UsageRange {
    /// The range from this usage to that one.
    pub(crate) fn new(first: Usage, last: Usage) -> UsageRange
        ensures { result ≡ record { first = first; last = last } }
    {
        UsageRange { first, last }
    }

    /// The first usage as a number, its page in the upper 16 bits (Section 6.2.2.8).
    pub fn minimum(&self) -> UsageMinimum
        ensures { result ≡ usage_number self.now.first }
    {
        UsageMinimum::from(&self.first)
    }

    /// The last usage as a number, its page in the upper 16 bits (Section 6.2.2.8).
    pub fn maximum(&self) -> UsageMaximum
        ensures { result ≡ usage_number self.now.last }
    {
        UsageMaximum::from(&self.last)
    }

    /// The usage itself, where it lies in the range; else `None` (Section 6.2.2.8).
    ///
    /// It lies there where its page is the range's and its id is none below the minimum's and none
    /// above the maximum's.
    pub fn lookup_usage<'a>(&self, usage: &'a Usage) -> Option<&'a Usage>
        ensures lookup { option_copied result ≡ usage_within self.now usage.now }
        ensures itself { IfSome result (λ found. found.now ≡ usage.now) }
    {
        if usage.usage_page == self.first.usage_page && self.has_id(usage.usage_id) {
            Some(usage)
        } else {
            None
        }
    }

    /// The usage with this id on the range's page, where the id lies in the range; else `None`
    /// (Section 6.2.2.8).
    pub fn lookup_id(&self, id: UsageId) -> Option<Usage>
        ensures { result ≡ usage_with_id self.now id }
    {
        if self.has_id(id) {
            Some(Usage::from_page_and_id(self.first.usage_page, id))
        } else {
            None
        }
    }

    /// Whether the id lies from the minimum's to the maximum's.
    fn has_id(&self, id: UsageId) -> bool
        ensures { result ≡ is_id_within self.now id }
    {
        self.first.usage_id <= id && id <= self.last.usage_id
    }
}
