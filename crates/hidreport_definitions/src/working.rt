//! What works of a report that is found: fields, reports and bytes that break just one part of it.
ghost use Rattle.std.specs.Prelude.{◌≡◌, ℕ, ℤ, pos, negsuc, true, List, [], ◌∷◌, length, Some, IsOk, codes};
ghost use Rattle.std.specs.List.{list_all};
ghost use Rattle.hidreport.specs.Reading.{reads, reads_element};
ghost use Rattle.hidreport.specs.Records.{FieldRecord};
ghost use Rattle.hidreport.specs.Working.{AllOwn, AllWork, FieldWorks, FitAll, IsNarrow, TakesAll};
ghost use Rattle.hidreport.specs.WritingValues.{fits, has_sign, value_count, value_width, written, written_element};
ghost use Rattle.hidreport_definitions.specs.Hex.{hex};
ghost use Rattle.hidreport_definitions.specs.Summary.{array_at, variable_at};
ghost use Rattle.hidreport_definitions.specs.Tiled.{byte_field, byte_report, report_with};
ghost use Rattle.hidreport_definitions.specs.Written.{array_in_the_id, in_the_id};

/// Values of at most 32 bits are narrow, those of an array each by itself.
pub fn values_of_32_bits_are_narrow()
    ensures most { IsNarrow (variable_at 0 32 (pos 0)) }
    ensures elements { IsNarrow (array_at 0 64 2 (pos 0)) }
    ensures wider { IsNarrow (variable_at 0 33 (pos 0)) → ⊥ }
    ensures wider_elements { IsNarrow (array_at 0 66 2 (pos 0)) → ⊥ }
{}

/// A byte behind its id works, and so does the report that has nothing else.
pub fn a_byte_behind_its_id_works()
    ensures own { AllOwn (hex (codes "05 00")) (byte_report 5 0) }
    ensures field { FieldWorks (hex (codes "05 00")) (byte_field 5 0) }
    ensures report { AllWork (hex (codes "05 00")) (byte_report 5 0) }
    ensures taken { TakesAll (byte_report 5 0) (hex (codes "05 00")) }
{}

/// A narrow field whose bits aren't in the bytes isn't read, so it doesn't work.
pub fn a_field_that_works_is_read()
    ensures byte { FieldWorks [] (variable_at 0 8 (pos 0)) → ⊥ }
    ensures widest { FieldWorks (hex (codes "00 00 00")) (variable_at 0 32 (pos 0)) → ⊥ }
{}

/// One in the byte of its id is read, but takes no value.
pub fn a_field_that_works_is_written()
    ensures { FieldWorks (hex (codes "05")) in_the_id → ⊥ }
{}

/// Elements that aren't in the bytes aren't read.
pub fn elements_of_a_field_that_works_are_read()
    ensures { FieldWorks (hex (codes "00")) (array_at 0 16 2 (pos 0)) → ⊥ }
{}

/// An element in the byte of the id is read, but takes no value.
pub fn elements_of_a_field_that_works_are_written()
    ensures { FieldWorks (hex (codes "05")) array_in_the_id → ⊥ }
{}

/// What takes all values that fit is read: that follows of what works.
pub fn what_takes_values_is_read()
    ensures field { (field : FieldRecord) (bytes : List ℕ)
        → ((numbers : List ℤ) → length numbers ≡ value_count field
        → list_all (fits (value_width field) (has_sign field)) numbers ≡ true
        → IsOk (written field numbers bytes)) → IsOk (reads field bytes) }
    ensures element { (field : FieldRecord) (bytes : List ℕ) (index : ℕ)
        → ((number : ℤ) → fits (value_width field) (has_sign field) number ≡ true
        → IsOk (written_element field index number bytes))
        → IsOk (reads_element field bytes index) }
{}

/// Bytes with another id are another report's, whichever field asks.
pub fn fields_of_a_found_report_are_its_own()
    ensures first { AllOwn (hex (codes "06 00")) (byte_report 5 0) → ⊥ }
    ensures second { AllOwn (hex (codes "05 00"))
        (report_with (Some 5) 24 (byte_field 5 0 ∷ byte_field 6 1 ∷ [])) → ⊥ }
{}

/// Each field of a report works where there are as many bytes as it has.
pub fn all_fields_of_a_found_report_work()
    ensures first { AllWork (hex (codes "05")) (report_with (Some 5) 8 (in_the_id ∷ [])) → ⊥ }
    ensures second { AllWork (hex (codes "05 00"))
        (report_with (Some 5) 16 (byte_field 5 0 ∷ in_the_id ∷ [])) → ⊥ }
{}

/// Numbers fit fields where each field has as many as its values, and its bits hold them.
pub fn numbers_fit_all_fields()
    ensures none { FitAll [] [] }
    ensures all { FitAll (variable_at 0 8 (pos 0) ∷ array_at 8 16 2 (negsuc 0) ∷ [])
        ((pos 255 ∷ []) ∷ (pos 7 ∷ negsuc 7 ∷ []) ∷ []) }
    ensures too_few { FitAll (variable_at 0 8 (pos 0) ∷ []) ([] ∷ []) → ⊥ }
    ensures too_great { FitAll (variable_at 0 8 (pos 0) ∷ []) ((pos 256 ∷ []) ∷ []) → ⊥ }
    ensures later { FitAll (variable_at 0 8 (pos 0) ∷ variable_at 8 16 (pos 0) ∷ [])
        ((pos 255 ∷ []) ∷ (negsuc 0 ∷ []) ∷ []) → ⊥ }
    ensures no_field { FitAll [] ([] ∷ []) → ⊥ }
    ensures no_numbers { FitAll (variable_at 0 8 (pos 0) ∷ []) [] → ⊥ }
{}

/// A report isn't written into bytes with another id.
pub fn a_report_takes_all_values_that_fit()
    ensures { TakesAll (byte_report 5 0) (hex (codes "06 00")) → ⊥ }
{}
