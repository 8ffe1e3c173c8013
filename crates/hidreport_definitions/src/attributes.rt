//! What a field has beside its place and its usages.
ghost use Rattle.std.specs.Prelude.{◌≡◌, pos, negsuc, List, [], ◌∷◌, None, Some, codes, true, false};
ghost use Rattle.hidreport.specs.Records.{VariableRecord};
ghost use Rattle.hidreport.specs.Usages.{make_usage};
ghost use Rattle.hidreport_definitions.specs.Summary.{announced_by, feature_attributes, input_attributes, place_at, unset, variable_flags, HasFlags};

/// Bounds, unit and flags are those in force; where one physical bound is set the other is 0.
pub fn a_field_has_the_bounds_and_the_unit_in_force()
    ensures { announced_by (codes "05 01 09 30 35 01 65 11 55 0e 75 08 95 01 b2 82 01")
        ≡ Ok (record {
          input = [];
          output = [];
          feature = record {
            id = None;
            size = 8;
            fields =
                VariableRecord (place_at 0 0 8) (make_usage 1 0x30)
                (record unset {
                  physical_minimum = Some (pos 1);
                  physical_maximum = Some (pos 0);
                  unit = Some 0x11;
                  unit_exponent = Some (pos 14);
                  flags = record variable_flags { buffered_bytes = true; volatile = true };
                  volatile = Some true;
                })
                ∷ [];
          } ∷ [];
        }) }
{}

/// A field of an output report says whether it is volatile, one of an input report doesn't.
pub fn only_input_fields_leave_volatility_out()
    ensures { announced_by (codes "05 01 75 08 95 01 09 30 91 02 09 31 81 82")
        ≡ Ok (record {
          input = record {
            id = None;
            size = 8;
            fields = VariableRecord (place_at 1 0 8) (make_usage 1 0x31) unset ∷ [];
          } ∷ [];
          output = record {
            id = None;
            size = 8;
            fields = VariableRecord (place_at 0 0 8) (make_usage 1 0x30)
                (record unset { volatile = Some false }) ∷ [];
          } ∷ [];
          feature = [];
        }) }
{}

/// Both physical bounds that are set stand as they were set.
pub fn both_physical_bounds_are_kept()
    ensures both { input_attributes (codes "05 01 09 30 35 01 45 05 75 08 95 01 81 02")
        ≡ Some (record unset { physical_minimum = Some (pos 1); physical_maximum = Some (pos 5) }) }
    ensures maximum_alone { input_attributes (codes "05 01 09 30 45 05 75 08 95 01 81 02")
        ≡ Some (record unset { physical_minimum = Some (pos 0); physical_maximum = Some (pos 5) }) }
{}

/// Logical bounds are those in force, signed by the width of their data; the unit and its exponent
/// too.
pub fn logical_bounds_are_signed_by_their_width()
    ensures bounds { input_attributes (codes "05 01 09 30 15 81 26 ff 00 75 08 95 01 81 02")
        ≡ Some (record unset { logical_minimum = negsuc 126; logical_maximum = pos 255 }) }
    ensures unit { input_attributes (codes "05 01 09 30 65 13 55 fe 75 08 95 01 81 02")
        ≡ Some (record unset { unit = Some 0x13; unit_exponent = Some (negsuc 1) }) }
{}

/// Each flag of an item is one attribute of its fields, and no other.
pub fn each_flag_is_its_own_attribute()
    ensures relative { HasFlags (codes "81 06") (record variable_flags { relative = true }) }
    ensures wrap { HasFlags (codes "81 0a") (record variable_flags { wrap = true }) }
    ensures nonlinear { HasFlags (codes "81 12") (record variable_flags { nonlinear = true }) }
    ensures no_preferred_state { HasFlags (codes "81 22")
        (record variable_flags { no_preferred_state = true }) }
    ensures null_state { HasFlags (codes "81 42") (record variable_flags { null_state = true }) }
    ensures buffered_bytes { HasFlags (codes "82 02 01")
        (record variable_flags { buffered_bytes = true }) }
    ensures volatile { feature_attributes (codes "05 01 09 30 75 08 95 01 b1 82")
        ≡ Some (record unset {
          flags = record variable_flags { volatile = true };
          volatile = Some true;
        }) }
    ensures none { input_attributes (codes "05 01 09 30 75 08 95 01 81 02") ≡ Some unset }
{}
