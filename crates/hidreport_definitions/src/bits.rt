//! Which bits a field's values are read from, and which bytes have the same ones.
ghost use Rattle.std.specs.Prelude.{◌≡◌, ℕ, pos, codes, List, [], ◌∷◌, Ok};
ghost use Rattle.hidreport.specs.Bits.{AgreeOn, FixesBits, covered_bits};
ghost use Rattle.hidreport.specs.Reading.{ValueRecord, reads};
ghost use Rattle.hidreport.specs.Records.{ConstantRecord};
ghost use Rattle.hidreport_definitions.specs.Hex.{hex};
ghost use Rattle.hidreport_definitions.specs.Summary.{array_at, place_at, unsigned_value, variable_at};

/// Bytes agree on the bits from 4 up to 12 where just these are the same: the bits right beside
/// them don't count, the first and the last of them do.
pub fn bytes_agree_on_a_range_of_bits()
    ensures same { AgreeOn 4 8 (hex (codes "5a 3c")) (hex (codes "5a 3c")) }
    ensures bit_before { AgreeOn 4 8 (hex (codes "5a 3c")) (hex (codes "52 3c")) }
    ensures bit_behind { AgreeOn 4 8 (hex (codes "5a 3c")) (hex (codes "5a 2c")) }
    ensures all_others { AgreeOn 4 8 (hex (codes "5a 3c")) (hex (codes "55 cc 01")) }
    ensures first_bit { AgreeOn 4 8 (hex (codes "5a 3c")) (hex (codes "4a 3c")) → ⊥ }
    ensures last_bit { AgreeOn 4 8 (hex (codes "5a 3c")) (hex (codes "5a 34")) → ⊥ }
    ensures bit_within { AgreeOn 4 8 (hex (codes "5a 3c")) (hex (codes "5a 3d")) → ⊥ }
{}

/// On no bits all bytes agree.
pub fn bytes_agree_on_no_bits()
    ensures { AgreeOn 4 0 (hex (codes "00")) (hex (codes "ff")) }
{}

/// An array's values are read from its elements' bits alone: where some are left over, from fewer
/// than the field has.
pub fn bits_left_over_are_not_covered()
    ensures variable { covered_bits (variable_at 4 20 (pos 0)) ≡ 16 }
    ensures whole_array { covered_bits (array_at 8 32 3 (pos 0)) ≡ 24 }
    ensures one_left { covered_bits (array_at 0 7 2 (pos 0)) ≡ 6 }
    ensures two_left { covered_bits (array_at 8 16 3 (pos 0)) ≡ 6 }
    ensures more_elements { covered_bits (array_at 8 16 9 (pos 0)) ≡ 0 }
    ensures no_elements { covered_bits (array_at 8 16 0 (pos 0)) ≡ 0 }
    ensures padding { covered_bits (ConstantRecord (place_at 0 8 16)) ≡ 0 }
    ensures left_over_differs { AgreeOn 0 (covered_bits (array_at 0 7 2 (pos 0)))
        (hex (codes "f1")) (hex (codes "b1")) }
    ensures covered_differs { AgreeOn 0 (covered_bits (array_at 0 7 2 (pos 0)))
        (hex (codes "f1")) (hex (codes "d1")) → ⊥ }
{}

/// What the law of fixed bits says of bytes that are read as 5: those that are read as 5, too, have
/// the same bits there, and those that have them are read as 5.
pub fn values_fix_their_bits()
    ensures read { reads (variable_at 0 8 (pos 0)) (hex (codes "05")) ≡ Ok (unsigned_value 5 ∷ []) }
    ensures equal { FixesBits (variable_at 0 8 (pos 0)) (hex (codes "05")) → (other : List ℕ)
        → reads (variable_at 0 8 (pos 0)) other ≡ Ok (unsigned_value 5 ∷ [])
        → AgreeOn 0 8 (hex (codes "05")) other }
    ensures same { FixesBits (array_at 0 8 2 (pos 0)) (hex (codes "21")) → (other : List ℕ)
        → (values : List ValueRecord) → reads (array_at 0 8 2 (pos 0)) other ≡ Ok values
        → AgreeOn 0 8 (hex (codes "21")) other
        → unsigned_value 1 ∷ unsigned_value 2 ∷ [] ≡ values }
{}
