//! Push keeps what is in force, and Pop brings it back.
ghost use Rattle.std.specs.Prelude.{◌≡◌, pos, List, [], ◌∷◌, Option, None, Some, codes, true, false};
ghost use Rattle.hidreport.specs.CollectionItem.TheVariants as kind;
ghost use Rattle.hidreport.specs.Answer.{InvalidData, MismatchingReportId};
ghost use Rattle.hidreport.specs.Records.{VariableRecord};
ghost use Rattle.hidreport.specs.Usages.{make_usage};
ghost use Rattle.hidreport_definitions.specs.Summary.{Report, Variable, announced_by, report_found, inputs, no_reports, place_at, readings, summary, unset, unsigned_value, one_collection, one_input, input_fields};

/// A usage that is used between a Push and its Pop is there again behind the Pop.
pub fn a_usage_used_inside_comes_back()
    ensures { announced_by (codes "05 01 09 30 15 00 25 7f 75 08 95 01 a4 81 02 b4 81 02")
        ≡ one_input 16
        (VariableRecord (place_at 0 0 8) (make_usage 1 0x30)
        (record unset { logical_maximum = pos 127 })
        ∷ VariableRecord (place_at 1 8 16) (make_usage 1 0x30)
        (record unset { logical_maximum = pos 127 })
        ∷ []) }
{}

/// Push and Pop leave open collections as they are, also one that was opened between them.
pub fn a_collection_opened_inside_stays_open()
    ensures stays { summary (codes "a4 a1 00 b4 c0") ≡ no_reports }
    ensures needed { summary (codes "c0") ≡ Err (InvalidData 0 (codes "Too many EndCollection")) }
{}

/// A size set between a Push and its Pop holds only there.
pub fn a_size_set_inside_is_taken_back()
    ensures closed { summary (codes "05 01 75 08 95 01 a4 75 10 b4 09 30 81 02")
        ≡ input_fields 8 (0x00010030 ∷ []) }
    ensures unclosed { summary (codes "05 01 75 08 95 01 a4 75 10 09 30 81 02")
        ≡ input_fields 16 (0x00010030 ∷ []) }
{}

/// A report id set between a Push and its Pop holds only there: the next field goes to the first
/// report, and its own report id is none.
pub fn a_report_id_set_inside_is_taken_back()
    ensures reports { summary (codes "05 01 75 08 95 01 a4 85 05 09 30 81 02 b4 09 31 81 02")
        ≡ inputs (Report (Some 5) 24 (Variable 8 16 0x00010030 ∷ Variable 16 24 0x00010031
        ∷ []) ∷ []) }
    ensures lookup { report_found (codes "05 01 75 08 95 01 a4 85 05 09 30 81 02 b4 09 31 81 02")
        (codes "07 11 22")
        ≡ None }
    ensures values { readings (codes "05 01 75 08 95 01 a4 85 05 09 30 81 02 b4 09 31 81 02")
        (codes "07 11 22")
        ≡ Err MismatchingReportId ∷ Ok (unsigned_value 0x22 ∷ []) ∷ [] }
{}

/// Pushes nest, and a Pop brings back the usages that its own Push kept.
pub fn nested_pushes_keep_their_own_usages()
    ensures { summary (codes "05 01 09 30 75 08 95 02 a4 09 31 a4 81 02 b4 81 02 b4 81 02")
        ≡ input_fields 8 (0x00010030 ∷ 0x00010031 ∷ 0x00010030
        ∷ 0x00010031 ∷ 0x00010030 ∷ 0x00010030 ∷ []) }
{}

/// A collection keeps the usages that it was opened with, though the Pop behind it takes them from
/// what is in force.
pub fn a_collection_keeps_its_usages()
    ensures { announced_by (codes "05 01 75 08 95 01 a4 09 30 a1 00 b4 09 31 81 02 c0")
        ≡ one_input 8
        (VariableRecord (place_at 0 0 8) (make_usage 1 0x31)
        (record unset { collections = one_collection kind.Physical (make_usage 1 0x30) })
        ∷ []) }
{}

/// A size that was set and taken back isn't in force in a later segment: the data item there makes
/// no field.
pub fn a_size_taken_back_is_not_set_later()
    ensures { summary (codes "05 01 95 01 a4 75 08 b4 a4 09 30 81 02") ≡ no_reports }
{}
