//! The number that stands for a usage of an array, and one that stands for none: numbers that are
//! the least such, and some that break just one part of that.
ghost use Rattle.std.specs.Prelude.{◌≡◌, pos, negsuc, [], ◌∷◌, None, Some, true, false};
ghost use Rattle.hidreport.specs.Standing.{IsLeastFor, IsLeastUnchosen, IsNullNumber, is_null, is_unchosen};
ghost use Rattle.hidreport.specs.Usages.{make_usage, range_from};
ghost use Rattle.hidreport_fields.specs.declared.field.usage.Usage.{Usage};

/// Of eight buttons the third, also counted from -1, and the first of two that are one usage.
pub fn a_usage_has_its_least_number()
    ensures third { IsLeastFor (range_from 9 1 8) (pos 0) (pos 7) (make_usage 9 3) (Some (pos 2)) }
    ensures from_minus_one { IsLeastFor (range_from 9 1 8) (negsuc 0) (pos 6) (make_usage 9 3)
        (Some (pos 1)) }
    ensures listed_twice { IsLeastFor (make_usage 9 1 ∷ make_usage 9 2 ∷ make_usage 9 1 ∷ [])
        (pos 0) (pos 2) (make_usage 9 1) (Some (pos 0)) }
    ensures not_listed { IsLeastFor (range_from 9 1 8) (pos 0) (pos 7) (make_usage 9 9) None }
    ensures behind_the_maximum { IsLeastFor (range_from 9 1 8) (pos 0) (pos 1) (make_usage 9 3)
        None }
{}

/// The number stands for the usage.
pub fn a_number_of_another_usage_is_none_of_this()
    ensures another { IsLeastFor (range_from 9 1 8) (pos 0) (pos 7) (make_usage 9 3)
        (Some (pos 1)) → ⊥ }
    ensures outside { IsLeastFor (range_from 9 1 8) (pos 0) (pos 1) (make_usage 9 3)
        (Some (pos 2)) → ⊥ }
{}

/// None below it does.
pub fn a_later_number_is_not_the_least()
    ensures { IsLeastFor (make_usage 9 1 ∷ make_usage 9 2 ∷ make_usage 9 1 ∷ [])
        (pos 0) (pos 2) (make_usage 9 1) (Some (pos 2)) → ⊥ }
{}

/// A usage that is chosen has a number.
pub fn a_chosen_usage_has_a_number()
    ensures { IsLeastFor (range_from 9 1 8) (pos 0) (pos 7) (make_usage 9 8) None → ⊥ }
{}

/// Behind two usages, with bounds of 0 to 3, the first number that stands for none is 2.
pub fn a_number_without_a_usage_is_the_least()
    ensures behind { IsLeastUnchosen (range_from 9 1 2) 2 false (pos 0) (pos 3) (Some (pos 2)) }
    ensures chosen { IsLeastUnchosen (range_from 9 1 2) 2 false (pos 0) (pos 3) (Some (pos 1)) → ⊥ }
    ensures too_wide { IsLeastUnchosen (range_from 9 1 4) 2 false (pos 0) (pos 3) (Some (pos 4))
        → ⊥ }
    ensures later { IsLeastUnchosen (range_from 9 1 2) 2 false (pos 0) (pos 3) (Some (pos 3)) → ⊥ }
    ensures none { IsLeastUnchosen (range_from 9 1 2) 2 false (pos 0) (pos 3) None → ⊥ }
    ensures no_bits { IsLeastUnchosen (range_from 9 1 2) 0 false (pos 0) (pos 3) None }
    ensures one_bit { is_unchosen (range_from 9 1 1) 1 false (pos 0) (pos 1) (pos 1) ≡ true }
    ensures widest { is_unchosen (range_from 9 1 1) 32 false (pos 0) (pos 0xffff_ffff)
        (pos 0xffff_ffff) ≡ true }
    ensures too_many_bits { is_unchosen (range_from 9 1 1) 33 false (pos 0) (pos 1) (pos 1)
        ≡ false }
{}

/// A number past the bounds is a null value of 32 bits and no more.
pub fn a_null_value_has_at_most_32_bits()
    ensures one_bit { is_null 1 false (pos 1) (pos 1) (pos 0) ≡ true }
    ensures widest { is_null 32 false (pos 0) (pos 0x7fff_ffff) (pos 0xffff_ffff) ≡ true }
    ensures too_many_bits { is_null 33 false (pos 1) (pos 1) (pos 0) ≡ false }
    ensures no_bits { is_null 0 true (pos 1) (pos 1) (pos 0) ≡ false }
    ensures within { is_null 8 false (pos 0) (pos 1) (pos 1) ≡ false }
    ensures too_great { is_null 8 false (pos 0) (pos 255) (pos 256) ≡ false }
{}

/// A number outside the bounds comes before one within them.
pub fn a_number_outside_the_bounds_comes_first()
    ensures zero { IsNullNumber {A = Usage} [] 4 false (pos 1) (pos 8) (Some (pos 0)) }
    ensures below { IsNullNumber {A = Usage} [] 4 true (negsuc 0) (pos 7) (Some (negsuc 1)) }
    ensures above { IsNullNumber {A = Usage} [] 4 false (pos 0) (pos 8) (Some (pos 9)) }
    ensures within { IsNullNumber (range_from 9 1 2) 2 false (pos 0) (pos 3) (Some (pos 2)) }
    ensures zero_before_below { IsNullNumber {A = Usage} [] 4 false (pos 2) (pos 8) (Some (pos 0)) }
    ensures below_before_above { IsNullNumber {A = Usage} [] 5 true (negsuc 0) (pos 7)
        (Some (negsuc 1)) }
    ensures greatest { IsNullNumber {A = Usage} [] 32 false (pos 0) (pos 0x7fff_ffff)
        (Some (pos 0x8000_0000)) }
    ensures not_above { IsNullNumber {A = Usage} [] 4 false (pos 1) (pos 8) (Some (pos 9)) → ⊥ }
    ensures not_within { IsNullNumber (range_from 9 1 2) 2 false (pos 1) (pos 3) (Some (pos 3))
        → ⊥ }
    ensures none { IsNullNumber {A = Usage} [] 4 false (pos 1) (pos 8) None → ⊥ }
{}
