//! Which usages the fields of an item have.
ghost use Rattle.std.specs.Prelude.{◌≡◌, pos, List, [], ◌∷◌, codes, true, false};
ghost use Rattle.hidreport.specs.CollectionItem.TheVariants as kind;
ghost use Rattle.hidreport.specs.Records.{ArrayRecord};
ghost use Rattle.hidreport.specs.Tiling.{IsRangeOf};
ghost use Rattle.hidreport.specs.UsageRange.{HasExactly};
ghost use Rattle.hidreport.specs.Usages.{make_usage, range_from};
ghost use Rattle.hidreport_definitions.specs.Summary.{announced_by, no_reports, four_keys, place_at, summary, unset_array, no_maximum, no_page, no_usages, one_collection, one_input, BitsHave, BytesHave};

/// Fields beyond the usages take the last one.
pub fn the_last_usage_is_repeated()
    ensures { BitsHave (codes "05 09 19 01 29 02")
        (0x00090001 ∷ 0x00090002 ∷ 0x00090002 ∷ 0x00090002 ∷ []) }
{}

/// A minimum above its maximum gives no usages: a data item needs some, a Collection none.
pub fn a_reversed_range_has_no_usages()
    ensures data_item { summary (codes "05 01 19 05 29 02 75 08 95 01 81 02") ≡ no_usages 10 }
    ensures collection { summary (codes "05 01 19 05 29 02 a1 00") ≡ no_reports }
{}

/// A minimum needs its maximum where the usages are looked at, and a data item of no size doesn't
/// look.
pub fn a_minimum_needs_its_maximum()
    ensures data_item { summary (codes "05 01 19 05 75 08 95 01 81 02") ≡ no_maximum 8 }
    ensures no_count { summary (codes "05 01 19 05 75 08 95 00 81 02") ≡ no_reports }
{}

/// Usages need a page, also a range that has none in it.
pub fn a_usage_needs_a_page()
    ensures single { summary (codes "09 02 a1 01") ≡ no_page 2 }
    ensures reversed_range { summary (codes "19 05 29 02 a1 00") ≡ no_page 4 }
{}

/// A range that passes 0xffff goes on from 0 on the same page.
pub fn a_range_wraps_within_its_page()
    ensures { announced_by (codes "05 01 1b ff ff 00 00 2b 01 00 01 00 75 08 95 01 81 00")
        ≡ one_input 8
        (ArrayRecord (place_at 0 0 8) (make_usage 1 0xffff ∷ make_usage 1 0 ∷ make_usage 1 1 ∷ [])
        true 1 unset_array ∷ []) }
{}

/// An array has a long range of usages, each with the page that its minimum and maximum name or
/// leave out.
pub fn an_array_has_all_usages_of_a_range()
    ensures { announced_by
        (codes "05 01 09 02 a1 01 15 00 26 ff 00 75 08 95 03 1b 01 00 01 00 2b ff 00 01 00 81 00 c0")
        ≡ one_input 24
        (ArrayRecord (place_at 0 0 24) (range_from 1 1 255) true 3
        (record unset_array {
          logical_maximum = pos 255;
          collections = one_collection kind.Application (make_usage 1 2);
        })
        ∷ []) }
{}

/// Of several minima and of several maxima the last one counts.
pub fn the_last_minimum_and_maximum_count()
    ensures minimum { BytesHave (codes "05 01 19 05 19 01 29 02") (0x00010001 ∷ 0x00010002 ∷ []) }
    ensures maximum { BytesHave (codes "05 01 19 01 29 05 29 02")
        (0x00010001 ∷ 0x00010002 ∷ 0x00010002 ∷ []) }
{}

/// With a minimum in force single usages are hidden; a maximum alone is not looked at.
pub fn a_range_hides_single_usages()
    ensures hidden { BytesHave (codes "05 01 09 30 19 01 29 02") (0x00010001 ∷ 0x00010002 ∷ []) }
    ensures maximum_alone { BytesHave (codes "05 01 09 30 29 05") (0x00010030 ∷ []) }
{}

/// A range without its maximum and without a page lacks the maximum first.
pub fn the_maximum_is_asked_for_before_the_page()
    ensures both { summary (codes "19 01 75 08 95 01 81 02") ≡ no_maximum 6 }
    ensures page { summary (codes "19 01 29 02 75 08 95 01 81 02") ≡ no_page 8 }
{}

/// A usage in two bytes takes the page in force at the data item; one in four bytes has its own.
pub fn the_page_in_force_at_the_item_counts()
    ensures later { BytesHave (codes "05 01 09 30 05 09") (0x00090030 ∷ []) }
    ensures own { BytesHave (codes "0b 30 00 01 00") (0x00010030 ∷ []) }
    ensures own_first { BytesHave (codes "05 09 0b 30 00 01 00 09 02")
        (0x00010030 ∷ 0x00090002 ∷ []) }
{}

/// Usages are taken in their order; those beyond the count are not taken.
pub fn fields_take_usages_in_order()
    ensures order { BytesHave (codes "05 01 09 31 09 30") (0x00010031 ∷ 0x00010030 ∷ []) }
    ensures more_than_fields { BytesHave (codes "05 01 09 30 09 31") (0x00010030 ∷ []) }
{}

/// The law of a range: that from usage 4 to 7 has just the four usages that gave it. Of fewer
/// nothing is asked.
pub fn a_range_has_the_usages_that_gave_it()
    ensures gave { IsRangeOf (range_from 7 4 4) }
    ensures exactly { HasExactly four_keys (range_from 7 4 4) }
    ensures fewer { HasExactly four_keys (range_from 8 4 3) }
{}

/// No four others are those of the range.
pub fn a_range_has_no_other_usages()
    ensures other_page { HasExactly four_keys (range_from 8 4 4) → ⊥ }
    ensures other_ids { HasExactly four_keys (range_from 7 5 4) → ⊥ }
    ensures one_twice { HasExactly four_keys
        (make_usage 7 4 ∷ make_usage 7 5 ∷ make_usage 7 5 ∷ make_usage 7 7 ∷ []) → ⊥ }
{}
