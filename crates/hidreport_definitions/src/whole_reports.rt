//! The law of a report that is written as a whole.
ghost use Rattle.std.specs.Prelude.{pos, [], ◌∷◌, None, Some, codes};
ghost use Rattle.hidreport.specs.WritingLaws.{AllRead, IsWhole, SamePadding};
ghost use Rattle.hidreport_definitions.specs.Hex.{hex};
ghost use Rattle.hidreport_definitions.specs.Summary.{variable_at};
ghost use Rattle.hidreport_definitions.specs.Tiled.{byte_field, byte_report, report_with};

/// Bytes into which all fields can be written, so that the report has just these values.
pub fn a_report_of_bytes_is_written_whole()
    ensures blank { IsWhole (byte_report 5 0) (hex (codes "05 00")) }
    ensures not_blank { IsWhole (byte_report 5 0) (hex (codes "05 ff 12")) }
{}

/// What is no byte is cut when a field is written, so it isn't read again: an id above 255 is
/// another then.
pub fn written_values_are_read_of_the_whole()
    ensures { IsWhole (report_with (Some 261) 16 (byte_field 261 0 ∷ [])) (261 ∷ 0 ∷ []) → ⊥ }
{}

/// Each field reads its own numbers, and there are as many lists of them as fields.
pub fn all_fields_read_their_numbers()
    ensures two { AllRead (variable_at 0 8 (pos 0) ∷ variable_at 8 16 (pos 0) ∷ [])
        ((pos 5 ∷ []) ∷ (pos 6 ∷ []) ∷ []) (hex (codes "05 06")) }
    ensures first { AllRead (variable_at 0 8 (pos 0) ∷ []) ((pos 5 ∷ []) ∷ []) (hex (codes "06"))
        → ⊥ }
    ensures second { AllRead (variable_at 0 8 (pos 0) ∷ variable_at 8 16 (pos 0) ∷ [])
        ((pos 5 ∷ []) ∷ (pos 6 ∷ []) ∷ []) (hex (codes "05 07")) → ⊥ }
    ensures no_field { AllRead [] ([] ∷ []) [] → ⊥ }
    ensures no_numbers { AllRead (variable_at 0 8 (pos 0) ∷ []) [] (hex (codes "05")) → ⊥ }
{}

/// Padding are the bits before, between and behind all fields; those in a field may differ.
pub fn padding_lies_around_all_fields()
    ensures before { SamePadding (variable_at 4 8 (pos 0) ∷ variable_at 12 16 (pos 0) ∷ [])
        (0 ∷ 0 ∷ []) (0x01 ∷ 0 ∷ []) → ⊥ }
    ensures between { SamePadding (variable_at 4 8 (pos 0) ∷ variable_at 12 16 (pos 0) ∷ [])
        (0 ∷ 0 ∷ []) (0 ∷ 0x01 ∷ []) → ⊥ }
    ensures behind { SamePadding (variable_at 4 8 (pos 0) ∷ variable_at 8 12 (pos 0) ∷ [])
        (0 ∷ 0 ∷ []) (0 ∷ 0x10 ∷ []) → ⊥ }
{}

/// Lists that have the same bits are the same where they are bytes, and not else.
pub fn written_bytes_are_the_same_over_the_same_padding()
    ensures { IsWhole (report_with None 0 []) (256 ∷ []) → ⊥ }
{}
