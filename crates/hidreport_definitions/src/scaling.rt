//! Laws of scaled values: what breaks just one part of what it is for values to lie on a line.
ghost use Rattle.std.specs.Prelude.{◌≡◌, ℤ, pos, negsuc, Option, Some};
ghost use Rattle.hidreport.specs.Scaling.{on_line};
ghost use Rattle.hidreport.specs.ScalingLaws.{Is, IsBetween, IsFrom, IsNotAbove, IsScale, IsUpTo};
ghost use Rattle.hidreport_fields.specs.declared.field.fraction.Fraction.{Fraction};
ghost use Rattle.hidreport_definitions.specs.Lookups.{over};
ghost use Rattle.hidreport_definitions.specs.Scales.{always, but_at, nothing_meant};

/// Values on a line that rises, one that falls, and one that does neither.
pub fn values_on_a_line_are_scaled()
    ensures rising { IsScale (negsuc 126) (pos 127) (pos 0) (pos 360)
        (on_line (negsuc 126) (pos 127) (pos 0) (pos 360)) }
    ensures falling { IsScale (pos 0) (pos 3) (pos 1) (negsuc 0)
        (on_line (pos 0) (pos 3) (pos 1) (negsuc 0)) }
    ensures level { IsScale (pos 0) (pos 1) (pos 5) (pos 5) (always (over (pos 5) (pos 1))) }
{}

/// Between bounds that aren't turned each value means something.
pub fn every_value_means_something()
    ensures { IsScale (pos 0) (pos 1) (pos 0) (pos 1) nothing_meant → ⊥ }
{}

/// No fraction is over 0.
pub fn a_denominator_is_above_zero()
    ensures { IsScale (pos 0) (pos 1) (pos 0) (pos 1) (always (over (pos 0) (pos 0))) → ⊥ }
{}

/// The minimum stands for the first bound.
pub fn the_minimum_means_the_first_bound()
    ensures { IsScale (pos 0) (pos 1) (pos 0) (pos 1) (always (over (pos 1) (pos 1))) → ⊥ }
{}

/// The maximum stands for the last bound.
pub fn the_maximum_means_the_last_bound()
    ensures { IsScale (pos 0) (pos 1) (pos 0) (pos 1) (always (over (pos 0) (pos 1))) → ⊥ }
{}

/// What lies between the bounds stands for what lies between theirs.
pub fn values_between_the_bounds_stay_between()
    ensures above { IsScale (pos 0) (pos 2) (pos 0) (pos 1)
        (but_at (pos 1) (over (pos 5) (pos 1)) (over (pos 0) (pos 1))) → ⊥ }
    ensures applied { (scaled : ℤ → Option Fraction) (x : Fraction)
        → IsScale (pos 0) (pos 2) (pos 0) (pos 1) scaled → scaled (pos 1) ≡ Some x
        → IsBetween x (pos 0) (pos 1) }
{}

/// A greater value doesn't stand for less where the line rises.
pub fn a_rising_line_does_not_fall()
    ensures { IsScale (pos 0) (pos 1) (pos 0) (pos 1)
        (but_at (pos 1) (over (pos 1) (pos 1)) (over (pos 0) (pos 1))) → ⊥ }
{}

/// It doesn't stand for more where the line falls.
pub fn a_falling_line_does_not_rise()
    ensures { IsScale (pos 0) (pos 1) (pos 1) (pos 0)
        (but_at (pos 1) (over (pos 0) (pos 1)) (over (pos 1) (pos 1))) → ⊥ }
{}

/// Halves and whole numbers.
pub fn fractions_are_compared_with_numbers()
    ensures is { Is (over (pos 4) (pos 2)) (pos 2) }
    ensures is_not { Is (over (pos 3) (pos 2)) (pos 2) → ⊥ }
    ensures from { IsFrom (over (pos 3) (pos 2)) (pos 1) }
    ensures not_from { IsFrom (over (pos 1) (pos 2)) (pos 1) → ⊥ }
    ensures up_to { IsUpTo (over (pos 1) (pos 2)) (pos 1) }
    ensures not_up_to { IsUpTo (over (pos 3) (pos 2)) (pos 1) → ⊥ }
    ensures not_above { IsNotAbove (over (pos 1) (pos 2)) (over (pos 2) (pos 2)) }
    ensures above { IsNotAbove (over (pos 2) (pos 2)) (over (pos 1) (pos 2)) → ⊥ }
    ensures over_others { IsNotAbove (over (pos 1) (pos 2)) (over (pos 2) (pos 3)) → ⊥ }
{}

/// Between two numbers, whichever is the greater.
pub fn a_fraction_lies_between_numbers()
    ensures up { IsBetween (over (pos 1) (pos 2)) (pos 0) (pos 1) }
    ensures down { IsBetween (over (pos 1) (pos 2)) (pos 1) (pos 0) }
    ensures above { IsBetween (over (pos 3) (pos 2)) (pos 0) (pos 1) → ⊥ }
    ensures below { IsBetween (over (negsuc 0) (pos 2)) (pos 0) (pos 1) → ⊥ }
{}
