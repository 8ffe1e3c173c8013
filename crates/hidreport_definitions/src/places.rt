//! In which report a field lies, and where.
ghost use Rattle.std.specs.Prelude.{◌≡◌, List, [], ◌∷◌, Option, None, Some, codes};
ghost use Rattle.hidreport.specs.Answer.{OutOfBounds};
ghost use Rattle.hidreport.specs.CollectionItem.TheVariants as kind;
ghost use Rattle.hidreport.specs.Faults.{item_fault};
ghost use Rattle.hidreport.specs.Flags.{flags_of};
ghost use Rattle.hidreport.specs.ItemType.TheVariants as item;
ghost use Rattle.hidreport.specs.MainItem.TheVariants as main;
ghost use Rattle.hidreport.specs.MeaningFault as meaning_fault;
ghost use Rattle.hidreport_definitions.specs.Summary.{Variable, Constant, Report, summary, inputs, no_reports, all_numbers, announced_by, report_found, input_reports, only_counts, one_bit, no_usages};

/// A report id that comes later begins a second report, and the first, which has no id, is found
/// for any byte.
pub fn a_report_without_id_is_found_for_any_byte()
    ensures reports { summary (codes "05 01 75 08 95 01 09 30 81 02 85 02 09 31 81 02")
        ≡ inputs (Report None 8 (Variable 0 8 0x00010030 ∷ [])
        ∷ Report (Some 2) 16 (Variable 8 16 0x00010031 ∷ []) ∷ []) }
    ensures lookup { report_found (codes "05 01 75 08 95 01 09 30 81 02 85 02 09 31 81 02")
        (codes "02 00")
        ≡ Some (Report None 8 (Variable 0 8 0x00010030 ∷ [])) }
{}

/// The greatest size times the greatest count still fits; a second field of it doesn't.
pub fn the_greatest_field_fits_once()
    ensures once { summary (codes "77 ff ff ff ff 97 ff ff ff ff 81 01")
        ≡ inputs (Report None 18446744065119617025 (Constant 0 18446744065119617025 ∷ []) ∷ []) }
    ensures twice { summary (codes "77 ff ff ff ff 97 ff ff ff ff 81 01 81 01") ≡ Err OutOfBounds }
{}

/// A report may end exactly at the greatest place; one bit more, or a byte for an id, and it
/// doesn't.
pub fn a_report_may_end_at_the_greatest_place()
    ensures at_the_edge { summary (codes "77 ff ff ff ff 97 ff ff ff ff 81 01 75 02 81 01")
        ≡ inputs (Report None 18446744073709551615 (Constant 0 18446744065119617025
        ∷ Constant 18446744065119617025 18446744073709551615 ∷ []) ∷ []) }
    ensures one_bit_more { summary
        (codes "77 ff ff ff ff 97 ff ff ff ff 81 01 75 02 81 01 75 01 95 01 81 01")
        ≡ Err OutOfBounds }
    ensures with_an_id { summary (codes "85 01 77 ff ff ff ff 97 ff ff ff ff 81 01 75 02 81 01")
        ≡ Err OutOfBounds }
{}

/// More fields than can be numbered are refused.
pub fn too_many_fields_are_refused()
    ensures { summary (codes "05 01 09 30 75 01 95 02 81 02 09 30 97 ff ff ff ff 81 02")
        ≡ Err OutOfBounds }
{}

/// A data item makes fields where size and count are set and neither is 0; its locals end anyway.
pub fn a_size_or_a_count_of_zero_makes_no_field()
    ensures no_size { summary (codes "05 01 09 30 95 01 81 02") ≡ no_reports }
    ensures no_count { summary (codes "05 01 09 30 75 08 81 02") ≡ no_reports }
    ensures size_of_zero { summary (codes "05 01 09 30 75 00 95 01 81 02") ≡ no_reports }
    ensures count_of_zero { summary (codes "05 01 09 30 75 08 95 00 81 02") ≡ no_reports }
    ensures locals_end { summary (codes "05 01 09 30 75 08 95 00 81 02 95 01 81 02")
        ≡ no_usages 12 }
{}

/// Fields of one report follow each other, also where those of another stand between them.
pub fn fields_of_a_report_follow_each_other()
    ensures two_reports { summary
        (codes "05 01 75 08 95 01 85 01 09 30 81 02 85 02 09 31 81 02 85 01 09 32 81 02")
        ≡ inputs (Report (Some 1) 24 (Variable 8 16 0x00010030 ∷ Variable 16 24 0x00010032 ∷ [])
        ∷ Report (Some 2) 16 (Variable 8 16 0x00010031 ∷ []) ∷ []) }
{}

/// 2^32 fields have an id of their own, and as many collections; one more is refused.
pub fn ids_have_32_bits()
    ensures last_field { item_fault (only_counts 0xffffffff 0) one_bit (item.Main
        (main.Input (flags_of 1)))
        ≡ None }
    ensures one_field_more { item_fault (only_counts 0x100000000 0) one_bit (item.Main
        (main.Input (flags_of 1)))
        ≡ Some meaning_fault.OutOfBounds }
    ensures last_collection { item_fault (only_counts 0 0xffffffff) one_bit (item.Main
        (main.Collection kind.Physical))
        ≡ None }
    ensures one_collection_more { item_fault (only_counts 0 0x100000000) one_bit (item.Main
        (main.Collection kind.Physical))
        ≡ Some meaning_fault.OutOfBounds }
{}

/// Fields are numbered from 0 in the order of the items; an array has one number, however many
/// values it has.
pub fn an_array_has_one_number()
    ensures { all_numbers (input_reports (announced_by
        (codes "05 01 75 04 95 02 09 30 81 00 95 01 09 31 81 02")))
        ≡ (0, []) ∷ (1, []) ∷ [] }
{}
