//! Which report bytes are of, which field has a number or a usage, and what a blank report has.
ghost use Rattle.std.specs.Prelude.{◌≡◌, pos, [], ◌∷◌, None, Some, false, true};
ghost use Rattle.hidreport.specs.Blank.{blank_bytes};
ghost use Rattle.hidreport.specs.Lookup.{field_for, field_with, find_report, has_usage, report_with, reports_of};
ghost use Rattle.hidreport.specs.Records.{FieldRecord};
ghost use Rattle.hidreport.specs.Usages.{make_usage, range_from};
ghost use Rattle.hidreport_fields.specs.declared.field.data_item.Direction.TheVariants as direction;
ghost use Rattle.hidreport_definitions.specs.Summary.{variable_at};
ghost use Rattle.hidreport_definitions.specs.Tiled.{array_in, byte_field, byte_report, descriptor_of, report_without_id};

/// The first byte is the id of the report, unless the first report has none: that is found then.
pub fn bytes_are_of_one_report()
    ensures first { find_report (byte_report 1 0 ∷ byte_report 2 1 ∷ []) (1 ∷ 0 ∷ [])
        ≡ Some (byte_report 1 0) }
    ensures second { find_report (byte_report 1 0 ∷ byte_report 2 1 ∷ []) (2 ∷ [])
        ≡ Some (byte_report 2 1) }
    ensures another { find_report (byte_report 1 0 ∷ byte_report 2 1 ∷ []) (3 ∷ 1 ∷ []) ≡ None }
    ensures without_id { find_report (report_without_id 0 ∷ byte_report 2 1 ∷ []) (2 ∷ [])
        ≡ Some (report_without_id 0) }
    ensures not_the_second { find_report (byte_report 1 0 ∷ report_without_id 1 ∷ []) (2 ∷ [])
        ≡ None }
    ensures no_bytes { find_report (report_without_id 0 ∷ []) [] ≡ None }
    ensures no_reports { find_report {A = FieldRecord} [] (1 ∷ []) ≡ None }
{}

/// The first report with an id, or the first without one; in its own direction.
pub fn a_report_is_found_by_its_id()
    ensures id { report_with (Some 2) (byte_report 1 0 ∷ byte_report 2 1 ∷ byte_report 2 2 ∷ [])
        ≡ Some (byte_report 2 1) }
    ensures none { report_with (Some 3) (byte_report 1 0 ∷ report_without_id 1 ∷ []) ≡ None }
    ensures without_id { report_with None (byte_report 1 0 ∷ report_without_id 1 ∷ [])
        ≡ Some (report_without_id 1) }
    ensures input { reports_of direction.Input (descriptor_of (byte_report 1 0 ∷ [])
        (byte_report 2 1 ∷ []) (byte_report 3 2 ∷ [])) ≡ byte_report 1 0 ∷ [] }
    ensures output { reports_of direction.Output (descriptor_of (byte_report 1 0 ∷ [])
        (byte_report 2 1 ∷ []) (byte_report 3 2 ∷ [])) ≡ byte_report 2 1 ∷ [] }
    ensures feature { reports_of direction.Feature (descriptor_of (byte_report 1 0 ∷ [])
        (byte_report 2 1 ∷ []) (byte_report 3 2 ∷ [])) ≡ byte_report 3 2 ∷ [] }
{}

/// The field with a number, and the first with a usage: its page and its id.
pub fn a_field_is_found_by_its_number_or_usage()
    ensures number { field_with 1 (byte_field 5 0 ∷ byte_field 5 1 ∷ []) ≡ Some (byte_field 5 1) }
    ensures no_number { field_with 2 (byte_field 5 0 ∷ byte_field 5 1 ∷ []) ≡ None }
    ensures first { field_for (make_usage 1 0x30) (byte_field 5 0 ∷ byte_field 5 1 ∷ [])
        ≡ Some (byte_field 5 0) }
    ensures later { field_for (make_usage 7 5)
        (variable_at 0 8 (pos 0) ∷ array_in 5 (range_from 7 4 4) true 8 16 1 ∷ [])
        ≡ Some (array_in 5 (range_from 7 4 4) true 8 16 1) }
    ensures other_page { field_for (make_usage 2 0x30) (byte_field 5 0 ∷ []) ≡ None }
    ensures other_id { field_for (make_usage 1 0x31) (byte_field 5 0 ∷ []) ≡ None }
    ensures has { has_usage (make_usage 7 7) (array_in 5 (range_from 7 4 4) true 8 16 1) ≡ true }
    ensures has_not { has_usage (make_usage 7 8) (array_in 5 (range_from 7 4 4) true 8 16 1) ≡ false }
{}

/// As many bytes as hold the bits, the first the id, all others 0.
pub fn a_blank_report_has_its_id_alone()
    ensures id { blank_bytes (Some 5) 17 ≡ 5 ∷ 0 ∷ 0 ∷ [] }
    ensures whole_bytes { blank_bytes (Some 5) 16 ≡ 5 ∷ 0 ∷ [] }
    ensures without_id { blank_bytes None 9 ≡ 0 ∷ 0 ∷ [] }
    ensures no_bits { blank_bytes None 0 ≡ [] }
    ensures no_bits_for_the_id { blank_bytes (Some 5) 0 ≡ [] }
{}
