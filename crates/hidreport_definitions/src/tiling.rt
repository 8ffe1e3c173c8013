//! How fields fill their reports, and what has a number of its own.
ghost use Rattle.std.specs.Prelude.{◌≡◌, pos, List, [], ◌∷◌, None, Some, codes, true, false};
ghost use Rattle.hidreport.specs.Records.{ArrayRecord, ConstantRecord};
ghost use Rattle.hidreport.specs.Tiling.{Covers, HasNoRest, HasRange, HaveOwnCollections, HaveOwnIds, HaveOwnNumbers, IsFilled, IsOf, IsTiled};
ghost use Rattle.hidreport.specs.Usages.{make_usage, range_from};
ghost use Rattle.hidreport_definitions.specs.Summary.{announced_by, array_at, of_report, place_at, unset, variable_at};
ghost use Rattle.hidreport_definitions.specs.Tiled.{field_in, logical, physical, empty_report, two_reports};

/// A report of a bit field, padding and a report of an array, in one collection: their fields have
/// all their bits.
pub fn a_descriptor_of_two_reports_is_tiled()
    ensures announced { announced_by
        (codes "05 01 09 06 a1 01 85 01 75 03 95 01 09 30 81 02 75 05 81 01 85 02 05 07 19 04 29 07 75 08 95 02 81 00 c0")
        ≡ Ok two_reports }
    ensures tiled { IsTiled two_reports }
{}

/// A bit that no field has or that two have, before, between or behind the fields, and a field
/// without bits: the fields aren't those of a whole report.
pub fn each_bit_belongs_to_one_field()
    ensures whole { Covers 0 (variable_at 0 4 (pos 0) ∷ variable_at 4 8 (pos 0) ∷ []) 8 }
    ensures gap { Covers 0 (variable_at 0 4 (pos 0) ∷ variable_at 5 8 (pos 0) ∷ []) 8 → ⊥ }
    ensures overlap { Covers 0 (variable_at 0 4 (pos 0) ∷ variable_at 3 8 (pos 0) ∷ []) 8 → ⊥ }
    ensures first_bit { Covers 0 (variable_at 1 8 (pos 0) ∷ []) 8 → ⊥ }
    ensures last_bit { Covers 0 (variable_at 0 7 (pos 0) ∷ []) 8 → ⊥ }
    ensures byte_of_the_id { Covers 8 (variable_at 0 16 (pos 0) ∷ []) 16 → ⊥ }
    ensures no_bits { Covers 0 (variable_at 0 0 (pos 0) ∷ []) 0 → ⊥ }
    ensures no_fields { IsFilled (record { id = None; size = 0; fields = [] }) → ⊥ }
{}

/// Elements have all bits of an array where the count divides them.
pub fn elements_have_all_bits_of_their_array()
    ensures all { HasNoRest (array_at 0 8 2 (pos 0)) }
    ensures one_left { HasNoRest (array_at 0 7 2 (pos 0)) → ⊥ }
    ensures no_elements { HasNoRest (array_at 0 8 0 (pos 0)) → ⊥ }
{}

/// A field is read from the bytes of its report, not from those of another.
pub fn a_field_is_of_its_own_report()
    ensures own { IsOf (Some 5) (of_report 5 (variable_at 8 16 (pos 0))) }
    ensures any { IsOf (Some 5) (variable_at 8 16 (pos 0)) }
    ensures other { IsOf (Some 6) (of_report 5 (variable_at 8 16 (pos 0))) → ⊥ }
    ensures without_id { IsOf None (of_report 5 (variable_at 8 16 (pos 0))) → ⊥ }
{}

/// No two reports have one id, and one without an id is the first.
pub fn a_report_has_an_id_of_its_own()
    ensures none { HaveOwnIds [] }
    ensures first_without { HaveOwnIds (empty_report None ∷ empty_report (Some 2) ∷ []) }
    ensures twice { HaveOwnIds (empty_report (Some 1) ∷ empty_report (Some 1) ∷ []) → ⊥ }
    ensures apart { HaveOwnIds
        (empty_report (Some 1) ∷ empty_report (Some 2) ∷ empty_report (Some 1) ∷ []) → ⊥ }
    ensures second_without { HaveOwnIds (empty_report (Some 1) ∷ empty_report None ∷ []) → ⊥ }
{}

/// No two fields have one number.
pub fn a_field_has_a_number_of_its_own()
    ensures field { HaveOwnNumbers (variable_at 0 4 (pos 0) ∷ []) }
    ensures two_fields { HaveOwnNumbers
        (variable_at 0 4 (pos 0) ∷ variable_at 4 8 (pos 0) ∷ []) → ⊥ }
{}

/// Collections of one number are one: of one kind, at one depth, inside the same collections.
pub fn a_collection_has_a_number_of_its_own()
    ensures shared { HaveOwnCollections
        (field_in (physical 0 ∷ []) ∷ field_in (physical 0 ∷ []) ∷ []) }
    ensures apart { HaveOwnCollections
        (field_in (physical 0 ∷ []) ∷ field_in (logical 1 ∷ []) ∷ []) }
    ensures nested { HaveOwnCollections
        (field_in (physical 0 ∷ logical 1 ∷ []) ∷ field_in (physical 0 ∷ logical 2 ∷ []) ∷ []) }
    ensures padding { HaveOwnCollections (ConstantRecord (place_at 0 0 8) ∷ []) }
    ensures two_kinds { HaveOwnCollections
        (field_in (physical 0 ∷ []) ∷ field_in (logical 0 ∷ []) ∷ []) → ⊥ }
    ensures two_in_one_field { HaveOwnCollections
        (field_in (physical 0 ∷ physical 0 ∷ []) ∷ []) → ⊥ }
    ensures two_depths { HaveOwnCollections
        (field_in (physical 0 ∷ []) ∷ field_in (logical 1 ∷ physical 0 ∷ []) ∷ []) → ⊥ }
    ensures two_places { HaveOwnCollections
        (field_in (physical 0 ∷ logical 2 ∷ []) ∷ field_in (physical 1 ∷ logical 2 ∷ []) ∷ [])
        → ⊥ }
{}

/// An array of a range has the usages from its minimum to its maximum, all of them.
pub fn an_array_of_a_range_has_all_its_usages()
    ensures range { HasRange (ArrayRecord (place_at 0 0 8) (range_from 7 4 4) true 1 unset) }
    ensures single { HasRange (ArrayRecord (place_at 0 0 8)
        (make_usage 7 4 ∷ make_usage 7 6 ∷ []) false 1 unset) }
    ensures two_pages { HasRange (ArrayRecord (place_at 0 0 8)
        (make_usage 7 4 ∷ make_usage 8 5 ∷ []) true 1 unset)
        → ⊥ }
{}
