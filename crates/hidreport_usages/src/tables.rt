//! The two tables: usage pages, and usages.
ghost use Rattle.std.specs.Prelude.{◌≡◌, ◌+◌, ◌<◌, length};
ghost use Rattle.hidreport_usages.specs.PageRows.{page_rows};
ghost use Rattle.hidreport_usages.specs.Packed.{HasPieces, piece};
ghost use Rattle.hidreport_usages.specs.UsageRows.{usage_rows};

use crate::names::NameTable;
use crate::page_table::{PAGE_ENDS, PAGE_NUMBERS, PAGE_PLACES, PAGE_TEXT};
use crate::usage_table::{USAGE_ENDS, USAGE_NUMBERS, USAGE_PLACES, USAGE_TEXT};

/// The names of usages; a number has the page in its upper half.
pub(crate) enum UsageNames {}

/// The names of usage pages.
pub(crate) enum PageNames {}

#[tactic(auto, using(crate::proofs::UsageTable::pieces, crate::proofs::UsageTable::long, crate::proofs::UsageTable::named))]
impl NameTable for UsageNames {
    ghost rows = { usage_rows };

    fn numbers() -> &'static [u32] {
        &USAGE_NUMBERS
    }

    fn name_at(place: usize) -> &'static str {
        piece(USAGE_TEXT, &USAGE_ENDS, place)
    }

    fn places_by_name() -> &'static [u16] {
        &USAGE_PLACES
    }
}

#[tactic(auto, using(crate::proofs::PageTable::pieces, crate::proofs::PageTable::long, crate::proofs::PageTable::named))]
impl NameTable for PageNames {
    ghost rows = { page_rows };

    fn numbers() -> &'static [u32] {
        &PAGE_NUMBERS
    }

    fn name_at(place: usize) -> &'static str {
        piece(PAGE_TEXT, &PAGE_ENDS, place)
    }

    fn places_by_name() -> &'static [u16] {
        &PAGE_PLACES
    }
}

/// The name at a place, in a text that has all names end to end.
fn piece<'a>(text: &'a str, ends: &[u16], place: usize) -> &'a str
    requires pieces { HasPieces text.now ends.now }
    requires place { place + 1 < length ends.now }
    ensures { result.now ≡ piece text.now ends.now place }
{
    &text[usize::from(ends[place])..usize::from(ends[place + 1])]
}
