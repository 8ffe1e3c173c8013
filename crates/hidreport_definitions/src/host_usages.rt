//! Which usages the fields of an item have as hosts read them (Section 6.2.2.8).
ghost use Rattle.std.specs.Prelude.{◌≡◌, List, [], ◌∷◌, Option, None, codes, false, true};
ghost use Rattle.hidreport_definitions.specs.Summary.{Array, Constant, Report, host_range, host_summary, inputs, no_usages, BitsHave, HostBitsHave};

/// A usage without a page of its own lies on the page in force where it stands, unless it stands
/// behind the last that lies on the main item's page.
pub fn a_page_counts_where_a_usage_stands()
    ensures hosts { HostBitsHave (codes "05 09 09 01 05 0c 0a 24 02")
        (0x00090001 ∷ 0x000c0224 ∷ []) }
    ensures standard { BitsHave (codes "05 09 09 01 05 0c 0a 24 02")
        (0x000c0001 ∷ 0x000c0224 ∷ []) }
    ensures behind { HostBitsHave (codes "05 0c 09 e9 05 09 09 01 05 0c")
        (0x000c00e9 ∷ 0x000c0001 ∷ []) }
    ensures all { HostBitsHave (codes "05 09 09 01 09 02 05 0c") (0x000c0001 ∷ 0x000c0002 ∷ []) }
{}

/// One with a page of its own keeps it, and is passed over where the last on the page is looked for.
pub fn an_own_page_stays()
    ensures own { HostBitsHave (codes "05 09 0b 30 00 01 00") (0x00010030 ∷ []) }
    ensures passed_over { HostBitsHave (codes "05 09 09 01 0b e9 00 0c 00 05 0c")
        (0x000c0001 ∷ 0x000c00e9 ∷ []) }
    ensures maximum { HostBitsHave (codes "05 09 1b 01 00 01 00 2b 02 00 01 00")
        (0x00010001 ∷ 0x00010002 ∷ []) }
{}

/// Single usages and ranges all count, in their order.
pub fn all_that_is_named_counts()
    ensures both { HostBitsHave (codes "05 09 09 07 19 01 29 02")
        (0x00090007 ∷ 0x00090001 ∷ 0x00090002 ∷ []) }
    ensures two_ranges { host_summary (codes "05 09 19 01 29 02 19 05 29 06 75 04 95 01 81 00")
        ≡ inputs (Report None 4 (Array 0 4 (0x00090001 ∷ 0x00090002 ∷ 0x00090005 ∷ 0x00090006 ∷ [])
        ∷ []) ∷ []) }
    ensures fewer { HostBitsHave (codes "05 09 09 07 19 01 29 02") (0x00090007 ∷ 0x00090001 ∷ []) }
    ensures last_again { HostBitsHave (codes "05 09 09 07") (0x00090007 ∷ 0x00090007 ∷ []) }
{}

/// A maximum alone counts from 0, a minimum alone names nothing, and so does a maximum below its
/// minimum.
pub fn a_maximum_counts_from_the_minimum_in_force()
    ensures alone { HostBitsHave (codes "05 01 29 02") (0x00010000 ∷ 0x00010001 ∷ 0x00010002 ∷ []) }
    ensures twice { HostBitsHave (codes "05 09 19 02 29 02 29 03")
        (0x00090002 ∷ 0x00090002 ∷ 0x00090003 ∷ []) }
    ensures minimum { host_summary (codes "05 01 19 05 75 01 95 01 81 02") ≡ no_usages 8 }
    ensures below { host_summary (codes "05 01 19 05 29 02 75 01 95 01 81 02") ≡ no_usages 10 }
    ensures padding { host_summary (codes "05 01 19 05 75 01 95 01 81 03")
        ≡ inputs (Report None 1 (Constant 0 1 ∷ []) ∷ []) }
{}

/// Without a page in force it is page 0, where the item stands as where the main item does.
pub fn no_page_is_page_zero()
    ensures none { HostBitsHave (codes "09 30") (0x00000030 ∷ []) }
    ensures later { HostBitsHave (codes "09 30 05 01 09 31") (0x00000030 ∷ 0x00010031 ∷ []) }
{}

/// Of alternatives between Delimiters the first set counts; behind them nothing does until the main
/// item.
pub fn the_first_of_alternatives_counts()
    ensures two { HostBitsHave (codes "05 09 a9 01 09 01 a9 00 a9 01 09 02 a9 00")
        (0x00090001 ∷ []) }
    ensures one { HostBitsHave (codes "05 09 09 03 a9 01 09 01 a9 00 09 02")
        (0x00090003 ∷ 0x00090001 ∷ 0x00090002 ∷ []) }
    ensures standard { BitsHave (codes "05 09 a9 01 09 01 a9 00 a9 01 09 02 a9 00")
        (0x00090001 ∷ 0x00090002 ∷ []) }
{}

/// An array's usages are a range where one maximum alone named them, on one page.
pub fn one_maximum_alone_is_a_range()
    ensures lone { host_range (codes "05 07 19 04 29 07 75 08 95 01 81 00") ≡ true ∷ [] }
    ensures single { host_range (codes "05 07 09 04 75 08 95 01 81 00") ≡ false ∷ [] }
    ensures both { host_range (codes "05 07 19 04 29 06 09 07 75 08 95 01 81 00") ≡ false ∷ [] }
    ensures two_pages { host_range
        (codes "1b ff ff 01 00 2b 01 00 02 00 75 08 95 01 81 00") ≡ false ∷ [] }
{}
