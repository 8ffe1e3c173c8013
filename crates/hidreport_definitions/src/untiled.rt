//! Each part of what holds of the reports of every descriptor: descriptors that break one.
ghost use Rattle.std.specs.Prelude.{pos, List, [], ◌∷◌, None, Some};
ghost use Rattle.hidreport.specs.Tiling.{IsTiled};
ghost use Rattle.hidreport_definitions.specs.Summary.{variable_at};
ghost use Rattle.hidreport_definitions.specs.Tiled.{byte_report, descriptor_of, logical, physical, report_in, report_with, report_without_id};

/// Reports of all directions: an id may stand once in each, and a first report may have none.
pub fn a_descriptor_of_all_directions_is_tiled()
    ensures one_id { IsTiled (descriptor_of (byte_report 1 0 ∷ byte_report 2 1 ∷ [])
        (byte_report 1 2 ∷ []) (byte_report 1 3 ∷ [])) }
    ensures without_id { IsTiled (descriptor_of (report_without_id 0 ∷ byte_report 2 1 ∷ [])
        (report_without_id 2 ∷ []) (report_without_id 3 ∷ [])) }
    ensures nothing { IsTiled (descriptor_of [] [] []) }
{}

/// Two reports of one direction don't have one id.
pub fn a_descriptor_with_an_id_twice_is_not_tiled()
    ensures input { IsTiled (descriptor_of (byte_report 1 0 ∷ byte_report 1 1 ∷ []) [] []) → ⊥ }
    ensures output { IsTiled (descriptor_of [] (byte_report 1 0 ∷ byte_report 1 1 ∷ []) []) → ⊥ }
    ensures feature { IsTiled (descriptor_of [] [] (byte_report 1 0 ∷ byte_report 1 1 ∷ [])) → ⊥ }
{}

/// No report without an id stands behind another of its direction.
pub fn a_descriptor_with_a_later_report_without_id_is_not_tiled()
    ensures input { IsTiled (descriptor_of (byte_report 1 0 ∷ report_without_id 1 ∷ []) [] []) → ⊥ }
    ensures output { IsTiled
        (descriptor_of [] (byte_report 1 0 ∷ report_without_id 1 ∷ []) []) → ⊥ }
    ensures feature { IsTiled
        (descriptor_of [] [] (byte_report 1 0 ∷ report_without_id 1 ∷ [])) → ⊥ }
{}

/// No two fields of a descriptor have one number, also not fields of two directions.
pub fn a_descriptor_with_a_number_twice_is_not_tiled()
    ensures one_direction { IsTiled
        (descriptor_of (byte_report 1 0 ∷ byte_report 2 0 ∷ []) [] []) → ⊥ }
    ensures input_output { IsTiled
        (descriptor_of (byte_report 1 0 ∷ []) (byte_report 1 0 ∷ []) []) → ⊥ }
    ensures input_feature { IsTiled
        (descriptor_of (byte_report 1 0 ∷ []) [] (byte_report 1 0 ∷ [])) → ⊥ }
    ensures output_feature { IsTiled
        (descriptor_of [] (byte_report 1 0 ∷ []) (byte_report 1 0 ∷ [])) → ⊥ }
{}

/// Collections of one number are one, over all directions.
pub fn a_descriptor_with_two_collections_of_one_number_is_not_tiled()
    ensures shared { IsTiled (descriptor_of (report_in 1 0 (physical 0 ∷ []) ∷ [])
        (report_in 1 1 (physical 0 ∷ []) ∷ []) []) }
    ensures one_direction { IsTiled (descriptor_of (report_in 1 0 (physical 0 ∷ [])
        ∷ report_in 2 1 (logical 0 ∷ []) ∷ []) [] []) → ⊥ }
    ensures input_output { IsTiled (descriptor_of (report_in 1 0 (physical 0 ∷ []) ∷ [])
        (report_in 1 1 (logical 0 ∷ []) ∷ []) []) → ⊥ }
    ensures input_feature { IsTiled (descriptor_of (report_in 1 0 (physical 0 ∷ []) ∷ []) []
        (report_in 1 1 (logical 0 ∷ []) ∷ [])) → ⊥ }
    ensures output_feature { IsTiled (descriptor_of [] (report_in 1 0 (physical 0 ∷ []) ∷ [])
        (report_in 1 1 (logical 0 ∷ []) ∷ [])) → ⊥ }
{}

/// A report of any direction that isn't filled is none of a descriptor, also behind one that is.
pub fn a_descriptor_with_a_report_that_is_not_filled_is_not_tiled()
    ensures input { IsTiled (descriptor_of
        (report_with None 8 (variable_at 1 8 (pos 0) ∷ []) ∷ []) [] []) → ⊥ }
    ensures output { IsTiled (descriptor_of []
        (report_with None 8 (variable_at 1 8 (pos 0) ∷ []) ∷ []) []) → ⊥ }
    ensures feature { IsTiled (descriptor_of [] []
        (report_with None 8 (variable_at 1 8 (pos 0) ∷ []) ∷ [])) → ⊥ }
    ensures second { IsTiled (descriptor_of [] [] (byte_report 1 1
        ∷ report_with (Some 2) 16 (variable_at 9 16 (pos 0) ∷ []) ∷ [])) → ⊥ }
{}
