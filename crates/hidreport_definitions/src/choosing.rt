//! The usage that a value of an array stands for, and the number of a value.
ghost use Rattle.std.specs.Prelude.{◌≡◌, ℤ, pos, negsuc, int_lt, IsTrue, List, [], Option, None, Some};
ghost use Rattle.hidreport.specs.Choosing.{usage_chosen, value_number};
ghost use Rattle.hidreport.specs.Usages.{make_usage, range_from};
ghost use Rattle.hidreport_fields.specs.declared.field.usage.Usage.{Usage};
ghost use Rattle.hidreport_definitions.specs.Summary.{signed_value, unsigned_value, of_eight};

/// Of eight buttons, with bounds 0 and 3, the first four are chosen, and none beside the bounds.
pub fn a_value_within_the_bounds_chooses_a_usage()
    ensures lowest { of_eight (pos 0) (pos 3) (pos 0) ≡ Some (make_usage 9 1) }
    ensures highest { of_eight (pos 0) (pos 3) (pos 3) ≡ Some (make_usage 9 4) }
    ensures below { of_eight (pos 0) (pos 3) (negsuc 0) ≡ None }
    ensures above { of_eight (pos 0) (pos 3) (pos 4) ≡ None }
{}

/// Usages are counted from the minimum on, also where that isn't 0.
pub fn usages_are_counted_from_the_minimum()
    ensures lowest { of_eight (pos 2) (pos 5) (pos 2) ≡ Some (make_usage 9 1) }
    ensures next { of_eight (pos 2) (pos 5) (pos 3) ≡ Some (make_usage 9 2) }
    ensures highest { of_eight (pos 2) (pos 5) (pos 5) ≡ Some (make_usage 9 4) }
    ensures below { of_eight (pos 2) (pos 5) (pos 1) ≡ None }
    ensures zero { of_eight (pos 2) (pos 5) (pos 0) ≡ None }
    ensures above { of_eight (pos 2) (pos 5) (pos 6) ≡ None }
{}

/// A minimum below 0: from -2 up to 3 the first six are chosen.
pub fn usages_are_counted_from_a_negative_minimum()
    ensures lowest { of_eight (negsuc 1) (pos 3) (negsuc 1) ≡ Some (make_usage 9 1) }
    ensures minus_one { of_eight (negsuc 1) (pos 3) (negsuc 0) ≡ Some (make_usage 9 2) }
    ensures zero { of_eight (negsuc 1) (pos 3) (pos 0) ≡ Some (make_usage 9 3) }
    ensures highest { of_eight (negsuc 1) (pos 3) (pos 3) ≡ Some (make_usage 9 6) }
    ensures below { of_eight (negsuc 1) (pos 3) (negsuc 2) ≡ None }
    ensures above { of_eight (negsuc 1) (pos 3) (pos 4) ≡ None }
    ensures both_negative { of_eight (negsuc 4) (negsuc 2) (negsuc 2) ≡ Some (make_usage 9 3) }
    ensures above_both_negative { of_eight (negsuc 4) (negsuc 2) (negsuc 1) ≡ None }
{}

/// A value within the bounds whose index lies behind the usages chooses none.
pub fn an_index_behind_the_usages_chooses_none()
    ensures last { usage_chosen (range_from 9 1 3) (pos 0) (pos 255) (pos 2)
        ≡ Some (make_usage 9 3) }
    ensures behind { usage_chosen (range_from 9 1 3) (pos 0) (pos 255) (pos 3) ≡ None }
    ensures greatest { usage_chosen (range_from 9 1 3) (pos 0) (pos 255) (pos 255) ≡ None }
    ensures no_usages { usage_chosen {A = Usage} [] (pos 0) (pos 255) (pos 0) ≡ None }
{}

/// Where the maximum is below the minimum no value chooses a usage.
pub fn reversed_bounds_choose_none()
    ensures positive { (usages : List Usage) (number : ℤ)
        → usage_chosen usages (pos 4) (pos 3) number ≡ None }
    ensures negative { (usages : List Usage) (number : ℤ)
        → usage_chosen usages (pos 0) (negsuc 0) number ≡ None }
    ensures always { (usages : List Usage) (minimum maximum number : ℤ)
        → IsTrue (int_lt maximum minimum) → usage_chosen usages minimum maximum number ≡ None }
    ensures at_the_minimum { of_eight (pos 4) (pos 3) (pos 4) ≡ None }
    ensures at_the_maximum { of_eight (pos 4) (pos 3) (pos 3) ≡ None }
{}

/// The number of a value is below 0 only where the value is signed and has its top bit set.
pub fn only_signed_values_are_below_zero()
    ensures unsigned { value_number (unsigned_value 0xffffffff) ≡ pos 0xffffffff }
    ensures unsigned_top { value_number (unsigned_value 0x80000000) ≡ pos 0x80000000 }
    ensures unsigned_zero { value_number (unsigned_value 0) ≡ pos 0 }
    ensures minus_one { value_number (signed_value 0xffffffff) ≡ negsuc 0 }
    ensures least { value_number (signed_value 0x80000000) ≡ negsuc 0x7fffffff }
    ensures greatest { value_number (signed_value 0x7fffffff) ≡ pos 0x7fffffff }
    ensures signed_zero { value_number (signed_value 0) ≡ pos 0 }
{}
