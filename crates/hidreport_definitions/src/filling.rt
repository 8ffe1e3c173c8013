//! Each part of what it is for a report to be filled: reports that keep all parts, and ones that
//! break just one.
ghost use Rattle.std.specs.Prelude.{pos, List, [], ◌∷◌, None, Some, true, false};
ghost use Rattle.hidreport.specs.Records.{ConstantRecord};
ghost use Rattle.hidreport.specs.Tiling.{IsFilled};
ghost use Rattle.hidreport.specs.Usages.{make_usage, range_from};
ghost use Rattle.hidreport_definitions.specs.Summary.{array_at, of_report, place_at, variable_at};
ghost use Rattle.hidreport_definitions.specs.Tiled.{array_in, byte_field, report_with};

/// Fields of each kind that follow each other fill their report, with an id and without one.
pub fn a_report_of_each_kind_of_field_is_filled()
    ensures with_id { IsFilled (report_with (Some 5) 40 (byte_field 5 0
        ∷ of_report 5 (ConstantRecord (place_at 1 16 20))
        ∷ array_in 5 (range_from 7 4 4) true 20 32 3
        ∷ array_in 5 (make_usage 7 4 ∷ make_usage 7 6 ∷ []) false 32 40 2 ∷ [])) }
    ensures without_id { IsFilled (report_with None 13 (variable_at 0 8 (pos 0)
        ∷ ConstantRecord (place_at 0 8 13) ∷ [])) }
{}

/// A report without fields isn't filled, also where its id has all its bits.
pub fn a_report_without_fields_is_not_filled()
    ensures one_field { IsFilled (report_with (Some 5) 16 (byte_field 5 0 ∷ [])) }
    ensures with_id { IsFilled (report_with (Some 5) 8 []) → ⊥ }
    ensures without_id { IsFilled (report_with None 0 []) → ⊥ }
{}

/// The first field begins right behind the id's byte, or at bit 0 where there is no id.
pub fn a_report_whose_first_field_begins_elsewhere_is_not_filled()
    ensures at_the_beginning { IsFilled (report_with None 8 (variable_at 0 8 (pos 0) ∷ [])) }
    ensures late { IsFilled (report_with None 8 (variable_at 1 8 (pos 0) ∷ [])) → ⊥ }
    ensures behind_the_id { IsFilled (report_with (Some 5) 16
        (of_report 5 (variable_at 8 16 (pos 0)) ∷ [])) }
    ensures in_the_id { IsFilled (report_with (Some 5) 16
        (of_report 5 (variable_at 7 16 (pos 0)) ∷ [])) → ⊥ }
    ensures late_with_id { IsFilled (report_with (Some 5) 16
        (of_report 5 (variable_at 9 16 (pos 0)) ∷ [])) → ⊥ }
{}

/// Each other field begins where the one before it ends.
pub fn a_report_with_a_gap_or_an_overlap_is_not_filled()
    ensures whole { IsFilled (report_with None 16
        (variable_at 0 8 (pos 0) ∷ variable_at 8 16 (pos 0) ∷ [])) }
    ensures gap { IsFilled (report_with None 16
        (variable_at 0 8 (pos 0) ∷ variable_at 9 16 (pos 0) ∷ [])) → ⊥ }
    ensures overlap { IsFilled (report_with None 16
        (variable_at 0 8 (pos 0) ∷ variable_at 7 16 (pos 0) ∷ [])) → ⊥ }
    ensures other_order { IsFilled (report_with None 16
        (variable_at 8 16 (pos 0) ∷ variable_at 0 8 (pos 0) ∷ [])) → ⊥ }
{}

/// No field is empty: not the first, none between others, and not the last.
pub fn a_report_with_an_empty_field_is_not_filled()
    ensures one_bit_each { IsFilled (report_with None 2
        (variable_at 0 1 (pos 0) ∷ variable_at 1 2 (pos 0) ∷ [])) }
    ensures first { IsFilled (report_with None 8
        (variable_at 0 0 (pos 0) ∷ variable_at 0 8 (pos 0) ∷ [])) → ⊥ }
    ensures between { IsFilled (report_with None 16 (variable_at 0 8 (pos 0)
        ∷ variable_at 8 8 (pos 0) ∷ variable_at 8 16 (pos 0) ∷ [])) → ⊥ }
    ensures last { IsFilled (report_with None 8
        (variable_at 0 8 (pos 0) ∷ variable_at 8 8 (pos 0) ∷ [])) → ⊥ }
    ensures padding { IsFilled (report_with None 8
        (variable_at 0 8 (pos 0) ∷ ConstantRecord (place_at 0 8 8) ∷ [])) → ⊥ }
{}

/// The last field ends where the report does.
pub fn a_report_that_ends_elsewhere_is_not_filled()
    ensures at_the_end { IsFilled (report_with None 7 (variable_at 0 7 (pos 0) ∷ [])) }
    ensures before { IsFilled (report_with None 8 (variable_at 0 7 (pos 0) ∷ [])) → ⊥ }
    ensures behind { IsFilled (report_with None 6 (variable_at 0 7 (pos 0) ∷ [])) → ⊥ }
{}

/// The elements of an array have all its bits, also of one behind another.
pub fn a_report_of_an_array_with_bits_left_over_is_not_filled()
    ensures whole { IsFilled (report_with None 8 (array_at 0 8 2 (pos 0) ∷ [])) }
    ensures one_left { IsFilled (report_with None 7 (array_at 0 7 2 (pos 0) ∷ [])) → ⊥ }
    ensures no_elements { IsFilled (report_with None 8 (array_at 0 8 0 (pos 0) ∷ [])) → ⊥ }
    ensures second { IsFilled (report_with None 15
        (array_at 0 8 2 (pos 0) ∷ array_at 8 15 3 (pos 0) ∷ [])) → ⊥ }
{}

/// No field is read by the id of another report, also not in a report without an id.
pub fn a_report_with_a_field_of_another_report_is_not_filled()
    ensures own { IsFilled (report_with (Some 5) 16 (byte_field 5 0 ∷ [])) }
    ensures any { IsFilled (report_with (Some 5) 16 (variable_at 8 16 (pos 0) ∷ [])) }
    ensures other { IsFilled (report_with (Some 5) 16 (byte_field 6 0 ∷ [])) → ⊥ }
    ensures second { IsFilled (report_with (Some 5) 24
        (byte_field 5 0 ∷ of_report 6 (variable_at 16 24 (pos 0)) ∷ [])) → ⊥ }
    ensures without_id { IsFilled (report_with None 8
        (of_report 5 (variable_at 0 8 (pos 0)) ∷ [])) → ⊥ }
{}

/// An array that says that it has a range has one: ids that follow each other on one page.
pub fn a_report_of_an_array_without_its_range_is_not_filled()
    ensures range { IsFilled (report_with (Some 5) 16
        (array_in 5 (make_usage 7 4 ∷ make_usage 7 5 ∷ []) true 8 16 1 ∷ [])) }
    ensures single { IsFilled (report_with (Some 5) 16
        (array_in 5 (make_usage 7 4 ∷ make_usage 8 5 ∷ []) false 8 16 1 ∷ [])) }
    ensures two_pages { IsFilled (report_with (Some 5) 16
        (array_in 5 (make_usage 7 4 ∷ make_usage 8 5 ∷ []) true 8 16 1 ∷ [])) → ⊥ }
    ensures gap { IsFilled (report_with (Some 5) 16
        (array_in 5 (make_usage 7 4 ∷ make_usage 7 6 ∷ []) true 8 16 1 ∷ [])) → ⊥ }
    ensures downwards { IsFilled (report_with (Some 5) 16
        (array_in 5 (make_usage 7 5 ∷ make_usage 7 4 ∷ []) true 8 16 1 ∷ [])) → ⊥ }
{}
