//! Usages.
ghost use Rattle.std.specs.Prelude.{◌≡◌, ◌↔◌, IsTrue};
ghost use Rattle.hidreport_fields.specs.UsageNumber.{usage_number, numbered_usage};

use hidreport_types::{UsageId, UsageMaximum, UsageMinimum, UsagePage};

/// A usage, what a control is for: a usage page and a usage id within it, 16 bits each
/// (Section 5.5).
///
/// As one number, by `u32::from` and `Usage::from`, the page is the upper half.
#[derive(Clone, Copy, Debug, PartialEq)]
pub struct Usage {
    /// The usage page.
    pub usage_page: UsagePage,

    /// The usage id, within the page.
    pub usage_id: UsageId,
}

impl Usage {
    /// The usage with this page and this id.
    pub fn from_page_and_id(usage_page: UsagePage, usage_id: UsageId) -> Usage
        ensures { result ≡ record { usage_page = usage_page; usage_id = usage_id } }
    {
        Usage {
            usage_page,
            usage_id,
        }
    }
}

/// Whether two lists hold the same usages in the same order.
pub(crate) fn are_same(left: &[Usage], right: &[Usage]) -> bool
    ensures { IsTrue result ↔ (left.now ≡ right.now) }
{
    left == right
}

impl From<u32> for Usage {
    ghost from_gives = { λ number usage. usage ≡ numbered_usage number };

    fn from(number: u32) -> Usage {
        Usage {
            usage_page: UsagePage::from((number >> 16) as u16),
            usage_id: UsageId::from((number & 0xffff) as u16),
        }
    }
}

impl From<&Usage> for u32 {
    ghost from_gives = { λ usage number. number ≡ usage_number usage.now };

    fn from(usage: &Usage) -> u32 {
        u32::from(u16::from(usage.usage_page)) << 16 | u32::from(u16::from(usage.usage_id))
    }
}

impl From<Usage> for u32 {
    ghost from_gives = { λ usage number. number ≡ usage_number usage };

    fn from(usage: Usage) -> u32 {
        u32::from(&usage)
    }
}

impl From<&Usage> for UsageMinimum {
    ghost from_gives = { λ usage minimum. minimum ≡ usage_number usage.now };

    fn from(usage: &Usage) -> UsageMinimum {
        UsageMinimum::from(u32::from(usage))
    }
}

impl From<Usage> for UsageMinimum {
    ghost from_gives = { λ usage minimum. minimum ≡ usage_number usage };

    fn from(minimum: Usage) -> UsageMinimum {
        UsageMinimum::from(&minimum)
    }
}

impl From<&Usage> for UsageMaximum {
    ghost from_gives = { λ usage maximum. maximum ≡ usage_number usage.now };

    fn from(usage: &Usage) -> UsageMaximum {
        UsageMaximum::from(u32::from(usage))
    }
}

impl From<Usage> for UsageMaximum {
    ghost from_gives = { λ usage maximum. maximum ≡ usage_number usage };

    fn from(maximum: Usage) -> UsageMaximum {
        UsageMaximum::from(&maximum)
    }
}
