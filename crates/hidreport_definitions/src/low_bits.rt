//! The low bits of values that have more than 32 (Section 5.8): as which fields they are read, and
//! runs that don't read them all.
ghost use Rattle.std.specs.Prelude.{◌≡◌, negsuc, pos, [], ◌∷◌};
ghost use Rattle.hidreport.specs.LowBits.{IsReadWhole, low_fields};
ghost use Rattle.hidreport.specs.Records.{ConstantRecord};
ghost use Rattle.hidreport_definitions.specs.Summary.{array_at, one_run, place_at, variable_at};
ghost use Rattle.hidreport_definitions.specs.Tiled.{byte_report};

/// A value of 33 bits or more is a field of its first 32, with its sign; a narrower one stays.
pub fn wide_values_are_fields_of_their_low_bits()
    ensures narrow { low_fields (variable_at 0 32 (pos 0)) ≡ variable_at 0 32 (pos 0) ∷ [] }
    ensures wide { low_fields (variable_at 0 33 (pos 0)) ≡ variable_at 0 32 (pos 0) ∷ [] }
    ensures behind { low_fields (variable_at 8 72 (negsuc 0)) ≡ variable_at 8 40 (negsuc 0) ∷ [] }
    ensures padding { low_fields (ConstantRecord (place_at 0 0 64))
        ≡ ConstantRecord (place_at 0 0 64) ∷ [] }
{}

/// So is each element of an array by itself.
pub fn wide_elements_are_fields_of_their_low_bits()
    ensures narrow { low_fields (array_at 0 64 2 (pos 0)) ≡ array_at 0 64 2 (pos 0) ∷ [] }
    ensures wide { low_fields (array_at 0 80 2 (pos 0))
        ≡ array_at 0 32 1 (pos 0) ∷ array_at 40 72 1 (pos 0) ∷ [] }
{}

/// Runs of a value that has more bits, or that is behind the bytes, don't read a report whole.
pub fn reports_are_read_whole()
    ensures byte { IsReadWhole (byte_report 5 0) (one_run 8 8 ∷ []) }
    ensures wide { IsReadWhole (byte_report 5 0) (one_run 0 33 ∷ []) → ⊥ }
    ensures behind { IsReadWhole (byte_report 5 0) (one_run 16 8 ∷ []) → ⊥ }
{}
