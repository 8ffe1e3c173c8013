//! The values of a whole report, written in one pass.
ghost use Rattle.std.specs.Prelude.{◌≡◌, [], ◌∷◌, codes, pos, negsuc, Ok, Err, Some};
ghost use Rattle.hidreport_fields.specs.declared.field.insert_error.InsertError.TheVariants as refused;
ghost use Rattle.hidreport.specs.ReportWriting.{IsReportWritten, report_written};
ghost use Rattle.hidreport.specs.Runs.{StandFor};
ghost use Rattle.hidreport_definitions.specs.Hex.{hex};
ghost use Rattle.hidreport_definitions.specs.Summary.{array_at, no_run_of, of_report, variable_at};
ghost use Rattle.hidreport_definitions.specs.Tiled.{byte_field};

/// The numbers of all fields are put in place in order; all other bits stay.
pub fn the_numbers_of_a_report_are_put_in_order()
    ensures all { report_written (variable_at 0 4 (negsuc 0) ∷ array_at 4 8 2 (pos 0) ∷ [])
        (negsuc 7 ∷ pos 3 ∷ pos 0 ∷ []) (hex (codes "00")) ≡ Ok (hex (codes "38")) }
    ensures set { report_written (variable_at 4 8 (pos 0) ∷ []) (pos 15 ∷ []) (hex (codes "0a"))
        ≡ Ok (hex (codes "fa")) }
    ensures cleared { report_written (variable_at 4 8 (pos 0) ∷ []) (pos 0 ∷ [])
        (hex (codes "ff")) ≡ Ok (hex (codes "0f")) }
    ensures none { report_written [] [] (hex (codes "48")) ≡ Ok (hex (codes "48")) }
{}

/// The refusals in their order: a wrong count, what can't be read, the id, what doesn't fit.
pub fn the_first_refusal_of_a_write_counts()
    ensures few { report_written (variable_at 0 8 (pos 0) ∷ []) [] [] ≡ Err refused.WrongCount }
    ensures more { report_written [] (pos 0 ∷ []) [] ≡ Err refused.WrongCount }
    ensures short { report_written (variable_at 0 8 (pos 0) ∷ []) (pos 256 ∷ []) []
        ≡ Err refused.OutOfBounds }
    ensures other_id { report_written (variable_at 0 4 (pos 0) ∷ of_report 5 (variable_at 8 16
        (pos 0)) ∷ []) (pos 16 ∷ pos 0 ∷ []) (hex (codes "06 00"))
        ≡ Err refused.MismatchingReportId }
    ensures in_id { report_written (of_report 5 (variable_at 7 9 (pos 0)) ∷ []) (pos 4 ∷ [])
        (hex (codes "05 00")) ≡ Err refused.OutOfBounds }
    ensures behind_id { report_written (of_report 5 (variable_at 8 10 (pos 0)) ∷ []) (pos 3 ∷ [])
        (hex (codes "05 00")) ≡ Ok (hex (codes "05 03")) }
    ensures unfit { report_written (of_report 5 (variable_at 8 10 (pos 0)) ∷ []) (pos 4 ∷ [])
        (hex (codes "05 00")) ≡ Err refused.DoesNotFit }
{}

/// A report into which the values of its one field were written.
pub fn a_report_is_written_at_once()
    ensures { IsReportWritten (byte_field 5 0 ∷ []) (pos 18 ∷ []) (hex (codes "05 00"))
        (hex (codes "05 12")) }
{}

/// Two fields with bits before, between and behind them.
pub fn several_fields_are_written_at_once()
    ensures { IsReportWritten (variable_at 4 8 (pos 0) ∷ variable_at 12 16 (pos 0) ∷ [])
        (pos 1 ∷ pos 2 ∷ []) (hex (codes "05 0f 03")) (hex (codes "15 2f 03")) }
{}

/// Bytes that read the same, but aren't those that writing the field gives.
pub fn written_at_once_is_written_one_by_one()
    ensures { IsReportWritten (byte_field 5 0 ∷ []) (pos 1 ∷ []) (5 ∷ 0 ∷ []) (5 ∷ 257 ∷ []) → ⊥ }
{}

/// What is no byte is cut when a field is written, so it isn't read again.
pub fn written_at_once_is_read_again()
    ensures { IsReportWritten (byte_field 261 0 ∷ []) (pos 0 ∷ []) (261 ∷ 0 ∷ []) (5 ∷ 0 ∷ []) → ⊥ }
{}

/// Without fields nothing changes: neither the number of bytes nor a bit.
pub fn padding_is_kept_by_a_write()
    ensures size { IsReportWritten [] [] (0 ∷ []) (0 ∷ 0 ∷ []) → ⊥ }
    ensures bits { IsReportWritten [] [] (0 ∷ []) (1 ∷ []) → ⊥ }
{}

/// Each of several fields is written one by one: a report whose second byte is no byte isn't what
/// writing its second field gives.
pub fn each_of_several_fields_is_written()
    ensures first { IsReportWritten (variable_at 0 8 (pos 0) ∷ variable_at 8 16 (pos 0) ∷ [])
        (pos 1 ∷ pos 2 ∷ []) (0 ∷ 0 ∷ []) (257 ∷ 2 ∷ []) → ⊥ }
    ensures second { IsReportWritten (variable_at 0 8 (pos 0) ∷ variable_at 8 16 (pos 0) ∷ [])
        (pos 1 ∷ pos 2 ∷ []) (0 ∷ 0 ∷ []) (1 ∷ 258 ∷ []) → ⊥ }
{}

/// Each of several fields reads its own number again.
pub fn each_of_several_fields_is_read_again()
    ensures first { IsReportWritten (byte_field 261 0 ∷ of_report 261 (variable_at 16 24 (pos 0))
        ∷ []) (pos 1 ∷ pos 2 ∷ []) (261 ∷ 0 ∷ 0 ∷ []) (5 ∷ 1 ∷ 2 ∷ []) → ⊥ }
    ensures second { IsReportWritten (byte_field 5 0 ∷ of_report 5 (variable_at 16 24 (pos 0))
        ∷ []) (pos 1 ∷ pos 2 ∷ []) (5 ∷ 0 ∷ 0 ∷ []) (5 ∷ 1 ∷ 3 ∷ []) → ⊥ }
{}

/// The bits before, between and behind several fields stay.
pub fn bits_around_several_fields_are_kept()
    ensures before { IsReportWritten (variable_at 4 8 (pos 0) ∷ variable_at 12 16 (pos 0) ∷ [])
        (pos 1 ∷ pos 2 ∷ []) (0 ∷ 0 ∷ []) (0x11 ∷ 0x20 ∷ []) → ⊥ }
    ensures between { IsReportWritten (variable_at 4 8 (pos 0) ∷ variable_at 12 16 (pos 0) ∷ [])
        (pos 1 ∷ pos 2 ∷ []) (0 ∷ 0 ∷ []) (0x10 ∷ 0x21 ∷ []) → ⊥ }
    ensures behind { IsReportWritten (variable_at 4 8 (pos 0) ∷ variable_at 8 12 (pos 0) ∷ [])
        (pos 1 ∷ pos 2 ∷ []) (0 ∷ 0 ∷ []) (0x10 ∷ 0x12 ∷ []) → ⊥ }
{}

/// A run without values, in the byte of the id, reads what a field without values reads behind it;
/// but it isn't written.
pub fn runs_stand_for_fields_that_are_written()
    ensures { StandFor (of_report 5 (array_at 8 16 0 (pos 0)) ∷ []) (no_run_of 5 ∷ []) → ⊥ }
{}
