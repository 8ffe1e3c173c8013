//! The usages of a field.
ghost use Rattle.std.specs.Prelude.{◌≡◌};
ghost use Rattle.hidreport_linux.specs.FieldOrder.{next_number};

use crate::reading::core_named::CoreNamed;
use hidreport::Usage;

/// The usages of an item with data that are left, in order.
#[derive(Clone, Copy, Drop)]
pub struct FieldUsages<'a> {
    /// The usage before those that are left.
    number: u32,

    /// How many behind it one local item names.
    more: u32,

    /// What names those behind them.
    named: &'a [CoreNamed],
}

impl<'a> FieldUsages<'a> {
    ghost use Rattle.std.specs.Prelude.{◌≡◌};
    ghost use Rattle.hidreport_linux.specs.FieldOrder.{usages_left, usages_named};

    /// All that these name.
    pub(crate) fn of(named: &'a [CoreNamed]) -> FieldUsages<'a>
        ensures { usages_left result.number result.more result.named.now ≡ usages_named named.now }
    {
        FieldUsages {
            number: 0,
            more: 0,
            named,
        }
    }
}

impl<'a> Iterator for FieldUsages<'a> {
    type Item = Usage;

    ghost use Rattle.std.specs.Iterator.{YieldsFirst, item_count};
    ghost use Rattle.hidreport_linux.specs.FieldOrder.{usages_left};

    ghost next_gives = { YieldsFirst (λ s. usages_left s.number s.more s.named.now) };

    ghost remaining = { item_count (λ s. usages_left s.number s.more s.named.now) };

    fn next(&mut self) -> Option<Usage> {
        if self.more > 0 {
            self.more -= 1;
            self.number = self.number.wrapping_add(1);
            return Some(Usage::from(self.number));
        }
        let (first, rest) = self.named.split_first()?;
        self.named = rest;
        self.number = first.first;
        self.more = first.last.saturating_sub(first.first);
        Some(Usage::from(first.first))
    }
}
