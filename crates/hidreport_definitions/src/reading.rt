//! The values that a report's bytes give.
ghost use Rattle.std.specs.Prelude.{◌≡◌, List, [], ◌∷◌, Option, None, pos, negsuc, codes};
ghost use Rattle.hidreport.specs.Answer.{OutOfBounds, MismatchingReportId};
ghost use Rattle.hidreport.specs.Reading.{reads, reads_element};
ghost use Rattle.hidreport_definitions.specs.Hex.{hex};
ghost use Rattle.hidreport_definitions.specs.Summary.{Variable, Array, Constant, Report, summary, inputs, readings, unsigned_value, signed_value, array_at, of_report, variable_at};

/// Each element of an array has its own sign, and an index past the count or bits past the bytes
/// are refused.
pub fn array_elements_are_signed_one_by_one()
    ensures reports { summary (codes "05 01 15 ff 25 07 75 04 95 02 09 30 81 00")
        ≡ inputs (Report None 8 (Array 0 8 (0x00010030 ∷ []) ∷ []) ∷ []) }
    ensures values { readings (codes "05 01 15 ff 25 07 75 04 95 02 09 30 81 00") (codes "f1")
        ≡ Ok (signed_value 1 ∷ signed_value 0xffffffff ∷ []) ∷ [] }
    ensures past_the_count { reads_element (array_at 0 8 2 (negsuc 0)) [] 2 ≡ Err OutOfBounds }
    ensures past_the_bytes { reads_element (array_at 0 8 2 (negsuc 0)) [] 0 ≡ Err OutOfBounds }
{}

/// A field may lie across five bytes; one byte less, or one bit more than 32, and it isn't read.
pub fn a_field_across_five_bytes_is_read()
    ensures reports { summary (codes "05 01 75 04 95 01 81 01 75 20 09 30 81 02")
        ≡ inputs (Report None 36 (Constant 0 4 ∷ Variable 4 36 0x00010030 ∷ []) ∷ []) }
    ensures value { readings (codes "05 01 75 04 95 01 81 01 75 20 09 30 81 02")
        (codes "0f 5e ab 78 09")
        ≡ Ok [] ∷ Ok (unsigned_value 0x978ab5e0 ∷ []) ∷ [] }
    ensures bits_before { readings (codes "05 01 75 04 95 01 81 01 75 20 09 30 81 02")
        (codes "00 5e ab 78 f9")
        ≡ Ok [] ∷ Ok (unsigned_value 0x978ab5e0 ∷ []) ∷ [] }
    ensures lowest_bit { readings (codes "05 01 75 04 95 01 81 01 75 20 09 30 81 02")
        (codes "1f 5e ab 78 09")
        ≡ Ok [] ∷ Ok (unsigned_value 0x978ab5e1 ∷ []) ∷ [] }
    ensures one_byte_less { readings (codes "05 01 75 04 95 01 81 01 75 20 09 30 81 02")
        (codes "0f 5e ab 78")
        ≡ Ok [] ∷ Err OutOfBounds ∷ [] }
    ensures one_bit_more { summary (codes "05 01 75 04 95 01 81 01 75 21 09 30 81 02")
        ≡ inputs (Report None 37 (Constant 0 4 ∷ Variable 4 37 0x00010030 ∷ []) ∷ []) }
    ensures one_bit_too_wide { readings (codes "05 01 75 04 95 01 81 01 75 21 09 30 81 02")
        (codes "0f 5e ab 78 09")
        ≡ Ok [] ∷ Err OutOfBounds ∷ [] }
{}

/// The elements of a range are as wide as the count goes into it; what is left over is read by
/// none.
pub fn an_array_may_have_bits_left_over()
    ensures without { reads (array_at 0 7 2 (negsuc 0)) (hex (codes "f1"))
        ≡ Ok (signed_value 1 ∷ signed_value 0xfffffffe ∷ []) }
    ensures other_bits { reads (array_at 0 7 2 (negsuc 0)) (hex (codes "b1"))
        ≡ Ok (signed_value 1 ∷ signed_value 0xfffffffe ∷ []) }
{}

/// Bits are counted from the lowest of the first byte; a range has at least one bit, and at most
/// 32.
pub fn ranges_of_bits_are_read()
    ensures below_zero { reads (variable_at 0 4 (negsuc 0)) (hex (codes "ca b9 96 15"))
        ≡ Ok (signed_value 0xfffffffa ∷ []) }
    ensures across_bytes { reads (variable_at 4 20 (pos 0)) (hex (codes "0f 5e ab 78"))
        ≡ Ok (unsigned_value 0xb5e0 ∷ []) }
    ensures all_bits { reads (variable_at 0 32 (pos 0)) (hex (codes "0f 5e ab 78"))
        ≡ Ok (unsigned_value 0x78ab5e0f ∷ []) }
    ensures no_bits { reads (variable_at 8 8 (pos 0)) (hex (codes "0f 5e ab 78")) ≡ Err OutOfBounds }
    ensures too_many_bits { reads (variable_at 0 33 (pos 0)) (hex (codes "0f 5e ab 78"))
        ≡ Err OutOfBounds }
{}

/// Two bytes of a report are two values, of which a signed one may be below 0.
pub fn signed_bytes_are_read()
    ensures { readings (codes "05 01 15 81 25 7f 75 08 95 02 09 30 09 31 81 02") (codes "05 fb")
        ≡ Ok (signed_value 5 ∷ []) ∷ Ok (signed_value 0xfffffffb ∷ []) ∷ [] }
{}

/// A field with a report id needs bytes, and its id as their first; only then are its bits looked
/// at.
pub fn the_id_is_looked_at_before_the_bits()
    ensures other_id { reads (of_report 5 (variable_at 8 41 (pos 0))) (hex (codes "06"))
        ≡ Err MismatchingReportId }
    ensures own_id { reads (of_report 5 (variable_at 8 41 (pos 0))) (hex (codes "05"))
        ≡ Err OutOfBounds }
    ensures no_bytes { reads (of_report 5 (variable_at 8 16 (pos 0))) [] ≡ Err OutOfBounds }
    ensures read { reads (of_report 5 (variable_at 8 16 (pos 0))) (hex (codes "05 2a"))
        ≡ Ok (unsigned_value 0x2a ∷ []) }
    ensures without_id { reads (variable_at 8 16 (pos 0)) (hex (codes "06 2a"))
        ≡ Ok (unsigned_value 0x2a ∷ []) }
    ensures index_first { reads_element (of_report 5 (array_at 8 16 2 (pos 0))) (hex (codes "06")) 2
        ≡ Err OutOfBounds }
    ensures element_of_other_id { reads_element (of_report 5 (array_at 8 16 2 (pos 0))) (hex
        (codes "06")) 1
        ≡ Err MismatchingReportId }
{}
