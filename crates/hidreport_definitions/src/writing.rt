//! Laws of values that were written: bytes that keep all of them, and bytes that break just one.
ghost use Rattle.std.specs.Prelude.{◌≡◌, ℕ, pos, negsuc, List, [], ◌∷◌, Some, codes};
ghost use Rattle.hidreport.specs.Reading.{reads};
ghost use Rattle.hidreport.specs.WritingLaws.{IsWritten};
ghost use Rattle.hidreport_definitions.specs.Hex.{hex};
ghost use Rattle.hidreport_definitions.specs.Summary.{array_at, of_report, variable_at};
ghost use Rattle.hidreport_definitions.specs.Tiled.{byte_field};
ghost use Rattle.hidreport_definitions.specs.Written.{in_the_id};

/// Numbers that were put into their bits, of a field with one value and of a signed array.
pub fn written_numbers_keep_all_laws()
    ensures variable { IsWritten (variable_at 4 8 (pos 0)) (pos 5 ∷ [])
        (hex (codes "ff 0f")) (hex (codes "5f 0f")) }
    ensures array { IsWritten (array_at 0 8 2 (negsuc 0)) (pos 3 ∷ negsuc 0 ∷ [])
        (hex (codes "00 12")) (hex (codes "f3 12")) }
{}

/// The field reads what was written, and nothing else.
pub fn written_numbers_are_read()
    ensures another { IsWritten (variable_at 0 8 (pos 0)) (pos 5 ∷ [])
        (hex (codes "04")) (hex (codes "04")) → ⊥ }
    ensures no_sign { IsWritten (variable_at 0 8 (pos 0)) (negsuc 0 ∷ [])
        (hex (codes "ff")) (hex (codes "ff")) → ⊥ }
    ensures one_of_two { IsWritten (array_at 0 8 2 (pos 0)) (pos 1 ∷ pos 2 ∷ [])
        (hex (codes "11")) (hex (codes "11")) → ⊥ }
    ensures fewer { IsWritten (array_at 0 8 2 (pos 0)) (pos 1 ∷ [])
        (hex (codes "21")) (hex (codes "21")) → ⊥ }
{}

/// No bit outside the field changes, and there are as many bytes: also where nothing can be written
/// since the field lies in the id.
pub fn other_bits_are_kept()
    ensures bit_before { IsWritten (variable_at 4 8 (pos 0)) (pos 5 ∷ [])
        (hex (codes "00")) (hex (codes "58")) → ⊥ }
    ensures bit_behind { IsWritten (variable_at 4 8 (pos 0)) (pos 5 ∷ [])
        (hex (codes "00 00")) (hex (codes "50 01")) → ⊥ }
    ensures alone { IsWritten in_the_id (pos 5 ∷ [])
        (hex (codes "05 00")) (hex (codes "05 01")) → ⊥ }
    ensures longer { IsWritten in_the_id (pos 5 ∷ []) (hex (codes "05")) (hex (codes "05 00")) → ⊥ }
{}

/// The fields before and behind it read what they read before.
pub fn other_fields_are_kept()
    ensures behind { (old new : List ℕ) → IsWritten (variable_at 0 8 (pos 0)) (pos 5 ∷ []) old new
        → reads (variable_at 8 16 (pos 0)) new ≡ reads (variable_at 8 16 (pos 0)) old }
    ensures before { (old new : List ℕ)
        → IsWritten (of_report 7 (variable_at 16 24 (pos 0))) (pos 5 ∷ []) old new
        → reads (byte_field 7 0) new ≡ reads (byte_field 7 0) old }
{}

/// Of two writes the second counts, or is refused as it would have been: not where only the first
/// was refused for another report's id.
pub fn a_second_write_counts()
    ensures { IsWritten in_the_id (pos 5 ∷ []) (hex (codes "04")) (hex (codes "05")) → ⊥ }
{}
