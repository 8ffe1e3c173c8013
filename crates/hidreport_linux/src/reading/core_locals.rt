//! The local items that wait for their main item, as hid-core keeps them.
ghost use Rattle.std.specs.Prelude.{◌≡◌, ◌≤◌, ◌^◌};
ghost use Rattle.hidreport_linux.specs.CoreLocals.{is_past, maximum_doubt, range_count, range_last};

use crate::reading::core_item::CoreItem;
use crate::reading::core_named::CoreNamed;
use crate::reading::core_usages::CoreUsages;
use crate::reading::reasons::{DoubtReason, RefusalReason};
use std::alloc::{AllocError, Global};
use std::marker::Model;

/// The most usages of an item.
const MOST_USAGES: u32 = 12_288;

/// Local items.
#[derive(Drop)]
pub(crate) struct CoreLocals {
    /// The usages that they name.
    usages: CoreUsages,
    minimum: u32,

    /// Whether a set of usages is open.
    is_in_set: bool,

    /// How many sets were opened.
    sets: u32,

    /// How many usages behind the last are left out, since no more are kept.
    left_out: u32,
}

impl Model for CoreLocals {
    ghost use Rattle.hidreport_linux.specs.CoreLocals.{LocalsRecord};

    ghost Value = { LocalsRecord };

    ghost view = { λ l. record {
      usages = l.usages;
      minimum = l.minimum;
      is_in_set = l.is_in_set;
      sets = l.sets;
      left_out = l.left_out;
    } };
}

impl CoreLocals {
    ghost use Rattle.std.specs.Prelude.{◌≡◌, ◌==◌, ◌++◌, length, not, OnOk};
    ghost use Rattle.hidreport_linux.specs.CoreLocals.{behind_local, behind_maximum, cuts_usages, is_full, is_past_set, local_doubt, local_refusal, maximum_refusal, no_locals, with_delimiter};
    ghost use Rattle.hidreport_linux.specs.CoreUsages.{first_usage, have, moved};

    /// None yet.
    pub(crate) fn new(alloc: Global) -> CoreLocals
        ensures { result ≡ no_locals }
    {
        let usages = CoreUsages::new(alloc);
        CoreLocals {
            usages,
            minimum: 0,
            is_in_set: false,
            sets: 0,
            left_out: 0,
        }
    }

    /// Forgets them, at a main item.
    pub(crate) fn clear(&mut self)
        ensures { self.new ≡ no_locals }
    {
        self.usages.clear();
        self.minimum = 0;
        self.is_in_set = false;
        self.sets = 0;
        self.left_out = 0;
    }

    /// Whether a set of usages is open.
    pub(crate) fn is_in_set(&self) -> bool
        ensures { result ≡ self.now.is_in_set }
    {
        self.is_in_set
    }

    /// Whether they name usages.
    pub(crate) fn have_usages(&self) -> bool
        ensures { result ≡ not (self.now.usages.count == 0) }
    {
        !self.usages.are_none()
    }

    /// How many usages they name.
    pub(crate) fn count(&self) -> u32
        ensures { result ≡ self.now.usages.count }
    {
        self.usages.count()
    }

    /// How many usages behind the last are left out, since no more are kept.
    pub(crate) fn left_out(&self) -> u32
        ensures { result ≡ self.now.left_out }
    {
        self.left_out
    }

    /// How many local items name them.
    pub(crate) fn spans(&self) -> usize
        ensures { result ≡ length self.now.usages.named }
    {
        self.usages.spans()
    }

    /// Adds what names them to others, with this page in force.
    pub(crate) fn add_to(&self, page: u32, all: &mut Vec<CoreNamed>) -> Result<(), AllocError>
        ensures { OnOk result (all.new.items ≡ all.old.items ++ moved page self.now.usages) }
    {
        self.usages.add_to(page, all)
    }

    /// The first usage, with this page in force, 0 where there is none.
    pub(crate) fn first(&self, page: u32) -> u32
        ensures { result ≡ first_usage page self.now.usages }
    {
        self.usages.first(page)
    }

    /// Whether they name this usage, with this page in force.
    pub(crate) fn have(&self, page: u32, usage: u32) -> bool
        ensures { result ≡ have page usage self.now.usages }
    {
        self.usages.have(page, usage)
    }

    /// Why a local item is refused.
    pub(crate) fn refusal(&self, item: CoreItem) -> Option<RefusalReason>
        ensures { result ≡ local_refusal item self.now }
    {
        match item {
            CoreItem::Delimiter(opens) if opens == self.is_in_set => {
                Some(RefusalReason::OddDelimiter)
            }
            CoreItem::Usage(_, _) if !self.is_past_set() && self.is_full() => {
                Some(RefusalReason::PastUsages)
            }
            CoreItem::UsageMaximum(number, _) if !self.is_past_set() => {
                self.maximum_refusal(number)
            }
            _ => None,
        }
    }

    /// Why other usages may be found in a local item.
    pub(crate) fn doubt(&self, item: CoreItem) -> Option<DoubtReason>
        ensures { result ≡ local_doubt item self.now }
    {
        match item {
            CoreItem::UsageMaximum(number, has_page) if !self.is_past_set() => {
                maximum_doubt(self.minimum, number, has_page)
            }
            _ => None,
        }
    }

    /// Whether usages of a local item are left out, since there are as many as are kept.
    pub(crate) fn cuts(&self, item: CoreItem) -> bool
        ensures { result ≡ cuts_usages item self.now }
    {
        match item {
            CoreItem::UsageMaximum(number, _) => {
                !self.is_past_set()
                    && is_past(self.minimum, number, self.usages.count())
                    && self.minimum <= number
            }
            _ => false,
        }
    }

    /// Takes a local item that isn't refused, on the page in force; usages of sets behind the first
    /// are left out.
    pub(crate) fn pass(&mut self, item: CoreItem, page: u32) -> Result<(), AllocError>
        ensures { OnOk result (self.new ≡ behind_local item page self.old) }
    {
        match item {
            CoreItem::Delimiter(opens) => {
                self.pass_delimiter(opens);
                Ok(())
            }
            _ if self.is_past_set() => Ok(()),
            CoreItem::Usage(number, has_page) => {
                self.usages
                    .add(CoreNamed::new(number, number, has_page, page), 1)
            }
            CoreItem::UsageMinimum(number) => {
                self.minimum = number;
                Ok(())
            }
            CoreItem::UsageMaximum(number, has_page) => self.pass_maximum(number, has_page, page),
            _ => Ok(()),
        }
    }

    /// Whether the usages are those of a second set, which are left out.
    fn is_past_set(&self) -> bool
        ensures { result ≡ is_past_set self.now }
    {
        self.sets > 1
    }

    /// Whether there are as many as are kept.
    fn is_full(&self) -> bool
        ensures { result ≡ is_full self.now }
    {
        self.usages.count() >= MOST_USAGES
    }

    fn pass_delimiter(&mut self, opens: bool)
        ensures { self.new ≡ with_delimiter opens self.old }
    {
        self.is_in_set = opens;
        if opens {
            self.sets = self.sets.saturating_add(1);
        }
    }

    /// Why a Usage Maximum is refused: no usage of its fits, or it is the greatest number.
    fn maximum_refusal(&self, number: u32) -> Option<RefusalReason>
        ensures { result ≡ maximum_refusal number self.now }
    {
        let known = self.usages.count();
        let last = range_last(self.minimum, number, known);
        if is_past(self.minimum, number, known) && last == 0 {
            return Some(RefusalReason::NoneFits);
        }
        if last == u32::MAX {
            return Some(RefusalReason::AllBits);
        }
        if range_count(self.minimum, last) + u64::from(known) > u64::from(MOST_USAGES) {
            return Some(RefusalReason::PastUsages);
        }
        None
    }

    /// A Usage Maximum: all from the minimum on, of which those are left out that don't fit.
    fn pass_maximum(&mut self, number: u32, has_page: bool, page: u32) -> Result<(), AllocError>
        ensures { OnOk result (self.new ≡ behind_maximum number has_page page self.old) }
    {
        let first = self.minimum;
        let last = range_last(first, number, self.usages.count());
        if last < first {
            return Ok(());
        }
        let named = CoreNamed::new(first, last, has_page, page);
        self.usages.add(named, (last - first).saturating_add(1))?;
        self.left_out = number.saturating_sub(last);
        Ok(())
    }
}

/// How many numbers there are from one to another.
fn range_count(first: u32, last: u32) -> u64
    ensures count { result ≡ range_count first last }
    ensures bound { result ≤ 2 ^ 32 }
{
    if first <= last {
        u64::from(last - first) + 1
    } else {
        0
    }
}

/// Whether a maximum is past the usages that are kept, by 32 bits.
fn is_past(minimum: u32, number: u32, known: u32) -> bool
    ensures { result ≡ is_past minimum number known }
{
    (u64::from(number) + 0x1_0000_0000 - u64::from(minimum) + u64::from(known)) % 0x1_0000_0000
        >= u64::from(MOST_USAGES)
}

/// The last usage of a range: the maximum, or the last one that is kept, by 32 bits.
fn range_last(minimum: u32, number: u32, known: u32) -> u32
    ensures { result ≡ range_last minimum number known }
{
    if !is_past(minimum, number, known) {
        return number;
    }
    ((u64::from(MOST_USAGES) + 0xffff_ffff - u64::from(known) + u64::from(minimum))
        % 0x1_0000_0000) as u32
}

/// Why a Usage Maximum may name other usages.
fn maximum_doubt(minimum: u32, number: u32, has_page: bool) -> Option<DoubtReason>
    ensures { result ≡ maximum_doubt minimum number has_page }
{
    if number < minimum {
        return Some(DoubtReason::BelowUsageMinimum);
    }
    if has_page && number < 0x1_0000 {
        return Some(DoubtReason::LackedPage);
    }
    None
}
