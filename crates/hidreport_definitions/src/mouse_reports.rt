//! A whole descriptor: a mouse with five buttons, a wheel and feature reports.
ghost use Rattle.std.specs.Prelude.{◌≡◌, List, [], ◌∷◌, None, Some, codes};
ghost use Rattle.hidreport_definitions.specs.Mouse.{mouse, mouse_with_segment};
ghost use Rattle.hidreport_definitions.specs.Summary.{Variable, Constant, Report, announced_by, summary, input_reports, feature_reports, all_numbers, report_found, readings, unsigned_value, signed_value};

/// The reports of each direction, the places of their fields, and their usages.
pub fn a_mouse_has_two_input_and_two_feature_reports()
    ensures { summary mouse
        ≡ Ok (record {
          input =
              Report (Some 0x1a) 80 (
              Variable 8 9 0x00090001
              ∷ Variable 9 10 0x00090002
              ∷ Variable 10 11 0x00090003
              ∷ Variable 11 12 0x00090004
              ∷ Variable 12 13 0x00090005
              ∷ Constant 13 16
              ∷ Variable 16 32 0x00010030
              ∷ Variable 32 48 0x00010031
              ∷ Variable 48 64 0x00010038
              ∷ Variable 64 80 0x000c0238
              ∷ [])
              ∷ Report (Some 0x1f) 24 (Variable 8 24 0x000c0238 ∷ [])
              ∷ [];
          output = [];
          feature =
              Report (Some 0x12) 16 (Variable 8 10 0x00010048 ∷ Variable 10 12 0x00010048
              ∷ Constant 12 16 ∷ [])
              ∷ Report (Some 0x17) 16 (
              Variable 8 10 0xff00ff06
              ∷ Variable 10 12 0xff00ff0f
              ∷ Variable 12 13 0xff00ff04
              ∷ Constant 13 16
              ∷ [])
              ∷ [];
        }) }
{}

/// Fields and collections are numbered over the whole descriptor, in order of appearance.
pub fn a_mouse_has_eighteen_fields_in_seven_collections()
    ensures input { all_numbers (input_reports (announced_by mouse))
        ≡ (0, 0 ∷ 1 ∷ 2 ∷ [])
        ∷ (1, 0 ∷ 1 ∷ 2 ∷ [])
        ∷ (2, 0 ∷ 1 ∷ 2 ∷ [])
        ∷ (3, 0 ∷ 1 ∷ 2 ∷ [])
        ∷ (4, 0 ∷ 1 ∷ 2 ∷ [])
        ∷ (5, [])
        ∷ (6, 0 ∷ 1 ∷ 2 ∷ [])
        ∷ (7, 0 ∷ 1 ∷ 2 ∷ [])
        ∷ (9, 0 ∷ 1 ∷ 2 ∷ 3 ∷ [])
        ∷ (12, 0 ∷ 1 ∷ 2 ∷ 4 ∷ [])
        ∷ (13, 5 ∷ 6 ∷ [])
        ∷ [] }
    ensures feature { all_numbers (feature_reports (announced_by mouse))
        ≡ (8, 0 ∷ 1 ∷ 2 ∷ 3 ∷ [])
        ∷ (10, 0 ∷ 1 ∷ 2 ∷ 4 ∷ [])
        ∷ (11, [])
        ∷ (14, 5 ∷ 6 ∷ [])
        ∷ (15, 5 ∷ 6 ∷ [])
        ∷ (16, 5 ∷ 6 ∷ [])
        ∷ (17, [])
        ∷ [] }
{}

/// The values of a report: both axes are signed.
pub fn a_mouse_report_gives_its_values()
    ensures { readings mouse (codes "1a 00 ff ff fe ff 00 00 00 00")
        ≡ Ok (unsigned_value 0 ∷ [])
        ∷ Ok (unsigned_value 0 ∷ [])
        ∷ Ok (unsigned_value 0 ∷ [])
        ∷ Ok (unsigned_value 0 ∷ [])
        ∷ Ok (unsigned_value 0 ∷ [])
        ∷ Ok []
        ∷ Ok (signed_value 0xffffffff ∷ [])
        ∷ Ok (signed_value 0xfffffffe ∷ [])
        ∷ Ok (signed_value 0 ∷ [])
        ∷ Ok (signed_value 0 ∷ [])
        ∷ [] }
{}

/// No report of the mouse has the id 07.
pub fn a_mouse_has_no_other_input_report()
    ensures { report_found mouse (codes "07 00") ≡ None }
{}

/// A segment between Push and Pop that makes no field changes nothing, also where usages wait for
/// their item.
pub fn a_segment_without_fields_changes_no_mouse_report()
    ensures before_a_collection { announced_by (mouse_with_segment 16) ≡ announced_by mouse }
    ensures before_a_data_item { announced_by (mouse_with_segment 32) ≡ announced_by mouse }
{}
