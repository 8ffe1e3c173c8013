//! The spans of numbers that hosts find usages by, and what becomes of them (Section 6.2.2.8).
ghost use Rattle.std.specs.Prelude.{◌≡◌, [], ◌∷◌, codes, false, true};
ghost use Rattle.hidreport.specs.HostUsages.{completed, is_lone, is_on_one_page, lies_on, minimum_behind, opens_set, own_span, span_to};
ghost use Rattle.hidreport.specs.LocalItem.TheVariants as local;
ghost use Rattle.hidreport_definitions.specs.Summary.{BitsHave, HostBitsHave};

/// Numbers are ids on the page in force where 16 bits hold the last of them, whatever the first is.
pub fn the_last_number_says_what_numbers_are()
    ensures ids { span_to 9 1 0xffff true ≡ record {
      page = 9;
      first = 1;
      last = 0xffff;
      is_short = true;
      is_range = true;
    } }
    ensures usages { span_to 9 1 0x0001_0000 true ≡ record {
      page = 9;
      first = 1;
      last = 0x0001_0000;
      is_short = false;
      is_range = true;
    } }
    ensures reversed { (span_to 9 0x0001_0000 1 true).is_short ≡ true }
{}

/// On a page lies what names an id, by a page in force that is this one.
pub fn an_id_lies_on_the_page_in_force()
    ensures id { lies_on 9 (span_to 9 1 1 false) ≡ true }
    ensures ids { lies_on 9 (span_to 9 1 2 true) ≡ true }
    ensures another_page { lies_on 8 (span_to 9 1 2 true) ≡ false }
    ensures own_page { lies_on 0 (own_span 0 1) ≡ false }
    ensures of_usages { lies_on 9 (span_to 9 0x0009_0001 0x0009_0002 true) ≡ false }
    ensures nothing { lies_on 9 (span_to 9 2 1 true) ≡ false }
{}

/// A usage keeps its own page, also page 0, and isn't moved.
pub fn an_own_page_may_be_page_zero()
    ensures hosts { HostBitsHave (codes "05 09 0b 30 00 00 00") (0x00000030 ∷ []) }
    ensures standard { BitsHave (codes "05 09 0b 30 00 00 00") (0x00000030 ∷ []) }
    ensures span { own_span 0 0x30 ≡ record {
      page = 0;
      first = 0x30;
      last = 0x30;
      is_short = false;
      is_range = false;
    } }
    ensures passed_over { completed 0 (span_to 9 1 1 false ∷ own_span 0 0x30 ∷ [])
        ≡ span_to 0 1 1 false ∷ own_span 0 0x30 ∷ [] }
{}

/// Any Delimiter but that of 0 opens a set of usages.
pub fn a_delimiter_opens_a_set()
    ensures one { opens_set (local.Delimiter 1) ≡ true }
    ensures two { opens_set (local.Delimiter 2) ≡ true }
    ensures zero { opens_set (local.Delimiter 0) ≡ false }
    ensures another { opens_set (local.UsageId 1) ≡ false }
    ensures counted { HostBitsHave (codes "05 09 a9 02 09 01 a9 00 a9 02 09 02 a9 00")
        (0x00090001 ∷ []) }
{}

/// The page stands above the lower 16 bits of a number.
pub fn a_range_lies_on_one_page()
    ensures ids { is_on_one_page (span_to 9 1 2 true) ≡ true }
    ensures usages { is_on_one_page (span_to 9 0x0001_0000 0x0001_ffff true) ≡ true }
    ensures two_pages { is_on_one_page (span_to 9 0x0001_ffff 0x0002_0000 true) ≡ false }
    ensures from_zero { is_on_one_page (span_to 9 0xffff 0x0001_0000 true) ≡ false }
    ensures lone { is_lone (span_to 9 0x0001_0000 0x0001_ffff true ∷ []) ≡ true }
    ensures not_lone { is_lone (span_to 9 0x0001_ffff 0x0002_0000 true ∷ []) ≡ false }
{}

/// A maximum leaves the minimum in force, as each item does that isn't one.
pub fn a_minimum_stays_in_force()
    ensures minimum { minimum_behind 4 (local.UsageMinimum 7) ≡ 7 }
    ensures maximum { minimum_behind 4 (local.UsageMaximum 7) ≡ 4 }
{}
