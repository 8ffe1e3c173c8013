//! What the fields of single descriptors weigh together.
ghost use Rattle.std.specs.Prelude.{◌≡◌, codes};
ghost use Rattle.hidreport_definitions.specs.Within.{inner_weight, weight_of};

/// A field with one value weighs 1, each of an item's.
pub fn a_variable_field_weighs_one()
    ensures one { weight_of (codes "05 01 09 30 75 08 95 01 81 02") ≡ Ok 1 }
    ensures three { weight_of (codes "05 01 09 30 75 08 95 03 81 02") ≡ Ok 3 }
    ensures eight_of_a_range { weight_of (codes "05 09 19 01 29 08 75 01 95 08 81 02") ≡ Ok 8 }
{}

/// An array weighs 1 and its usages, however many values it has.
pub fn an_array_weighs_one_and_its_usages()
    ensures one_usage { weight_of (codes "05 07 09 04 75 08 95 01 81 00") ≡ Ok 2 }
    ensures three_usages { weight_of (codes "05 07 09 04 09 06 09 08 75 08 95 02 81 00") ≡ Ok 4 }
    ensures more_values { weight_of (codes "05 07 09 04 09 06 09 08 75 08 95 06 81 00") ≡ Ok 4 }
    ensures range { weight_of (codes "05 07 19 04 29 0b 75 08 95 03 81 00") ≡ Ok 9 }
    ensures two_arrays { weight_of
        (codes "05 07 19 04 29 0b 75 08 95 03 81 00 09 04 09 06 09 08 81 00") ≡ Ok 13 }
{}

/// Padding weighs 1, however many bits it has, and carries no collections.
pub fn padding_weighs_one()
    ensures one_bit { weight_of (codes "75 01 95 01 81 01") ≡ Ok 1 }
    ensures many_bits { weight_of (codes "75 08 95 03 81 01") ≡ Ok 1 }
    ensures in_a_collection { weight_of (codes "05 01 09 02 a1 01 75 08 95 03 81 01 c0") ≡ Ok 1 }
    ensures behind_a_field { weight_of (codes "05 01 09 30 75 04 95 01 81 02 81 01") ≡ Ok 2 }
{}

/// Each field with data also weighs 1 for each collection that it lies in, and 1 for each usage of
/// that: with an outer one of one usage and an inner one of two, 6 for one value.
pub fn a_field_weighs_its_collections_and_their_usages()
    ensures one_collection { weight_of (codes "05 01 09 02 a1 01 09 30 75 08 95 02 81 02 c0")
        ≡ Ok 6 }
    ensures without_usages { weight_of (codes "a1 00 05 01 09 30 75 08 95 01 81 02 c0") ≡ Ok 2 }
    ensures nested { inner_weight (codes "09 30 75 08 95 01 81 02 c0 c0") ≡ Ok 6 }
    ensures two_nested { inner_weight (codes "09 30 09 31 75 08 95 02 81 02 c0 c0") ≡ Ok 12 }
    ensures nested_array { inner_weight (codes "09 30 09 31 09 32 75 08 95 02 81 00 c0 c0") ≡ Ok 9 }
    ensures behind_the_inner_one { inner_weight (codes "c0 09 30 75 08 95 01 81 02 c0") ≡ Ok 3 }
    ensures behind_both { inner_weight (codes "c0 c0 09 30 75 08 95 01 81 02") ≡ Ok 1 }
{}

/// Fields of output and feature reports weigh what those of input reports do; all are summed.
pub fn fields_of_all_directions_weigh()
    ensures output { weight_of (codes "05 01 09 30 75 08 95 02 91 02") ≡ Ok 2 }
    ensures feature { weight_of (codes "05 01 09 30 75 08 95 03 b1 02") ≡ Ok 3 }
    ensures output_array { weight_of (codes "05 08 19 01 29 05 75 08 95 01 91 00") ≡ Ok 6 }
    ensures all { weight_of
        (codes "05 01 75 08 09 30 95 01 81 02 09 30 95 02 91 02 09 30 95 03 b1 02") ≡ Ok 6 }
    ensures two_reports { weight_of
        (codes "05 01 85 01 09 30 75 08 95 02 81 02 85 02 09 30 95 03 81 02") ≡ Ok 5 }
{}

/// What makes no fields weighs nothing here, also a collection that no field lies in.
pub fn nothing_weighs_nothing()
    ensures no_items_of_data { weight_of (codes "05 01") ≡ Ok 0 }
    ensures no_count { weight_of (codes "05 01 09 30 75 08 95 00 81 02") ≡ Ok 0 }
    ensures empty_collection { weight_of (codes "05 01 09 02 a1 01 c0") ≡ Ok 0 }
{}
