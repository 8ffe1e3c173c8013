//! The values of a whole report, read in one pass.
ghost use Rattle.std.specs.Prelude.{◌≡◌, [], ◌∷◌, codes, pos, negsuc, Ok, Err};
ghost use Rattle.hidreport.specs.Answer.{OutOfBounds, MismatchingReportId};
ghost use Rattle.hidreport.specs.ParserError.TheVariants as errors;
ghost use Rattle.hidreport.specs.Reader.{ReadsInto, available_numbers, filled, report_numbers};
ghost use Rattle.hidreport.specs.Runs.{StandFor};
ghost use Rattle.hidreport_definitions.specs.Hex.{hex};
ghost use Rattle.hidreport_definitions.specs.Summary.{array_at, of_report, one_run, variable_at};

/// The numbers of all fields stand in order, those of an array one by one, each with its sign.
pub fn the_numbers_of_a_report_stand_in_order()
    ensures all { report_numbers (variable_at 0 4 (negsuc 0) ∷ array_at 4 8 2 (pos 0) ∷ [])
        (hex (codes "f7")) ≡ Ok (pos 7 ∷ pos 3 ∷ pos 3 ∷ []) }
    ensures signed { report_numbers (variable_at 0 4 (negsuc 0) ∷ array_at 4 8 2 (negsuc 0) ∷ [])
        (hex (codes "48")) ≡ Ok (negsuc 7 ∷ pos 0 ∷ pos 1 ∷ []) }
    ensures none { report_numbers [] (hex (codes "48")) ≡ Ok [] }
{}

/// The first field that refuses does so for the report.
pub fn the_first_refusal_counts()
    ensures other_id { report_numbers (variable_at 0 8 (pos 0) ∷ of_report 5 (variable_at 0 16
        (pos 0)) ∷ []) (hex (codes "06")) ≡ Err MismatchingReportId }
    ensures bounds_first { report_numbers (variable_at 0 16 (pos 0) ∷ of_report 5 (variable_at 0 8
        (pos 0)) ∷ []) (hex (codes "06")) ≡ Err OutOfBounds }
    ensures too_wide { report_numbers (variable_at 0 8 (pos 0) ∷ variable_at 0 33 (pos 0) ∷ [])
        (hex (codes "06 00 00 00 00")) ≡ Err OutOfBounds }
{}

/// Numbers stand in place of the first values, as many as there is room for.
pub fn numbers_stand_where_there_is_room()
    ensures room { filled (pos 1 ∷ []) (pos 7 ∷ pos 8 ∷ []) ≡ pos 1 ∷ pos 8 ∷ [] }
    ensures no_room { filled (pos 1 ∷ pos 2 ∷ []) (pos 7 ∷ []) ≡ pos 1 ∷ [] }
    ensures counted { ReadsInto (Ok 2) (pos 7 ∷ []) (pos 1 ∷ []) (Ok (pos 1 ∷ pos 2 ∷ [])) }
    ensures miscounted { ReadsInto (Ok 1) (pos 7 ∷ []) (pos 1 ∷ []) (Ok (pos 1 ∷ pos 2 ∷ [])) → ⊥ }
    ensures refused { ReadsInto (Err errors.OutOfBounds) (pos 7 ∷ []) (pos 7 ∷ []) (Err OutOfBounds) }
    ensures changed { ReadsInto (Err errors.OutOfBounds) (pos 7 ∷ []) (pos 1 ∷ []) (Err OutOfBounds)
        → ⊥ }
    ensures given { ReadsInto (Ok 0) [] [] (Err OutOfBounds) → ⊥ }
    ensures otherwise { ReadsInto (Ok 1) (pos 7 ∷ []) (pos 2 ∷ []) (Ok (pos 1 ∷ [])) → ⊥ }
    ensures another { ReadsInto (Err errors.OutOfBounds) [] [] (Err MismatchingReportId) → ⊥ }
    ensures not_refused { ReadsInto (Err errors.OutOfBounds) [] [] (Ok []) → ⊥ }
{}

/// Of a report that is cut short there is what stands before the first value that isn't there.
pub fn values_before_the_cut_are_there()
    ensures first { available_numbers (variable_at 0 8 (pos 0) ∷ variable_at 8 16 (pos 0) ∷ [])
        (hex (codes "05")) ≡ Ok (pos 5 ∷ []) }
    ensures behind { available_numbers (variable_at 8 16 (pos 0) ∷ variable_at 0 8 (pos 0) ∷ [])
        (hex (codes "05")) ≡ Ok [] }
    ensures element { available_numbers (array_at 0 16 2 (pos 0) ∷ []) (hex (codes "05"))
        ≡ Ok (pos 5 ∷ []) }
    ensures other_id { available_numbers (variable_at 8 16 (pos 0) ∷ of_report 5 (variable_at 0 8
        (pos 0)) ∷ []) (hex (codes "06")) ≡ Err MismatchingReportId }
    ensures no_bytes { available_numbers (of_report 5 (variable_at 0 8 (pos 0)) ∷ []) [] ≡ Ok [] }
{}

/// Runs stand for just the fields that have their values.
pub fn runs_stand_for_fields_of_their_values()
    ensures none { StandFor [] [] }
    ensures more { StandFor [] (one_run 0 8 ∷ []) → ⊥ }
    ensures elsewhere { StandFor (variable_at 0 8 (pos 0) ∷ []) (one_run 1 8 ∷ []) → ⊥ }
{}

/// Runs of a report that is cut short have what its fields have: where one of two has too many bits
/// the whole is never read, whichever comes first.
pub fn runs_stand_for_fields_that_are_cut()
    ensures { StandFor (variable_at 0 40 (pos 0) ∷ variable_at 0 8 (pos 0) ∷ [])
        (one_run 0 8 ∷ one_run 0 40 ∷ []) → ⊥ }
{}
